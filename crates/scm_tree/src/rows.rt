//! Two trees and marks as rows.
ghost use Rattle.std.specs.Prelude.{◌≡◌, ◌+◌, ◌<◌, IfErr, IfOk, MatchResult, false, length, slice_index_or};
ghost use Rattle.scm_tree.specs.declared.rows.GatherError.TheVariants.{OutOfMemory};
ghost use Rattle.scm_tree.specs.GatherFaults.{IsGatherFault, IsRowsFault, is_unknown};
ghost use Rattle.scm_tree.specs.Places.{AreListed, ArePlacesInOrder, AreSorted, HaveSameFiles};
ghost use Rattle.scm_tree.specs.Merge.{AreMerged, AreRowsBelow, IsRowOf};

use crate::adding::add;
use crate::gather::gathered;
use crate::order::sort_places;
use crate::place::{Entry, Mark, Place, places_of};
use crate::row::Row;
use std::alloc::{AllocError, Global};

/// Why two trees and marks have no rows.
#[derive(Clone, Copy)]
pub enum GatherError<'a> {
    /// A list of files, or the list of marks, has this path twice.
    Twice(&'a [u8]),

    /// A mark has this path, and neither tree has it.
    Unknown(&'a [u8]),

    /// An allocation failed.
    OutOfMemory,
}

impl From<AllocError> for GatherError<'_> {
    ghost from_gives = { λ _ e. e ≡ OutOfMemory };

    fn from(_error: AllocError) -> Self {
        GatherError::OutOfMemory
    }
}

/// Returns the places of two trees and of marks, each path once, in the order of paths.
///
/// # Errors
/// - `Twice`: a list has a path twice.
/// - `OutOfMemory`: an allocation failed.
fn places_in_order<'a>(
    alloc: Global,
    old: &[Entry<'a>],
    new: &[Entry<'a>],
    marks: &[Mark<'a>],
) -> Result<Vec<Place<'a>>, GatherError<'a>>
    ensures in_order { IfOk result (λ places. ArePlacesInOrder places.items) }
    ensures listed { IfOk result (λ places. AreListed old.now new.now marks.now places.items) }
    ensures fault { IfErr result (IsGatherFault old.now new.now marks.now) }
{
    let mut places = places_of(alloc, old, new, marks)?;
    sort_places(&mut places)?;
    gathered(alloc, places.as_slice())
}

/// Returns the row of place `i`, whose path a tree has. A path that is not shown keeps what is there, and has file `count`.
fn row_at<'a>(count: usize, places: &[Place<'a>], i: usize) -> Row<'a>
    requires within { i < length places.now }
    requires known { (d : Place) → is_unknown (slice_index_or places.now i d) ≡ false }
    ensures { IsRowOf count places.now i result }
{
    let place = &places[i];
    let (file, wanted) = match place.wish {
        None => (count, place.current),
        Some(wish) => (wish.file, wish.wanted),
    };
    Row {
        path: place.path,
        current: place.current,
        goal: place.goal,
        wanted,
        file,
    }
}

/// Adds the row of place `i` to `rows`, which has the rows of the places before it.
///
/// # Errors
/// - `Unknown`: a mark has the path, and neither tree has it.
/// - `OutOfMemory`: an allocation failed.
fn add_row<'a>(
    rows: &mut Vec<Row<'a>>,
    count: usize,
    places: &[Place<'a>],
    i: usize,
) -> Result<(), GatherError<'a>>
    requires within { i < length places.now }
    requires below { AreRowsBelow count places.now i rows.old.items }
    ensures { MatchResult result
        (λ _. AreRowsBelow count places.now (i + 1) rows.new.items)
        (IsRowsFault places.now) }
{
    if places[i].current.is_none() & places[i].goal.is_none() {
        return Err(GatherError::Unknown(places[i].path));
    }
    add(rows, row_at(count, places, i))?;
    Ok(())
}

/// Returns the rows of `places`.
///
/// # Errors
/// - `Unknown`: a mark has a path that neither tree has.
/// - `OutOfMemory`: an allocation failed.
fn rows_of_places<'a>(
    alloc: Global,
    count: usize,
    places: &[Place<'a>],
) -> Result<Vec<Row<'a>>, GatherError<'a>>
    ensures { MatchResult result
        (λ rows. AreRowsBelow count places.now (length places.now) rows.items)
        (IsRowsFault places.now) }
{
    let mut rows = Vec::new(alloc);
    for i in 0..places.len() {
        add_row(&mut rows, count, places, i)?;
    }
    Ok(rows)
}

/// Returns the rows of two trees and of the marks of `count` shown files: each path of either tree once, in the order
/// of paths. A path that no mark has keeps what is there, and has file `count`.
///
/// # Errors
/// - `Twice`: a list has a path twice.
/// - `Unknown`: a mark has a path that neither tree has.
/// - `OutOfMemory`: an allocation failed.
pub fn rows_of<'a>(
    alloc: Global,
    old: &[Entry<'a>],
    new: &[Entry<'a>],
    marks: &[Mark<'a>],
    count: usize,
) -> Result<Vec<Row<'a>>, GatherError<'a>>
    ensures { MatchResult result
        (λ rows. AreMerged count old.now new.now marks.now rows.items)
        (IsGatherFault old.now new.now marks.now) }
{
    let places = places_in_order(alloc, old, new, marks)?;
    rows_of_places(alloc, count, places.as_slice())
}
