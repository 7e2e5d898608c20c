//! What becomes of each path.
ghost use Rattle.std.specs.Prelude.{◌≡◌, ◌+◌, ◌<◌, ℕ, List, IfErr, IfOk, MatchResult, None, OnOk, false, length, slice_index_or, true};
ghost use Rattle.std.specs.List.{All};
ghost use Rattle.scm_tree.specs.declared.row.Row.{Row};
ghost use Rattle.scm_tree.specs.Rows.{AreInOrder, AreRows};
ghost use Rattle.scm_tree.specs.declared.decision.DecideError.TheVariants.{OutOfMemory};
ghost use Rattle.scm_tree.specs.declared.decision.Moved.{Moved};
ghost use Rattle.scm_tree.specs.declared.place.Entry.{Entry};
ghost use Rattle.scm_tree.specs.declared.place.Mark.{Mark};
ghost use Rattle.scm_tree.specs.Merge.{AreMerged};
ghost use Rattle.scm_tree.specs.Decisions.{AreOutcomes, IsDecision, IsMoved, IsOutcome, IsPromise, may_change, row_fault};
ghost use Rattle.scm_tree.specs.DecideFaults.{IsDecideFault, IsMarkReason, IsMovedReason, IsPathReason, IsTreesReason, MarksFit, PathsFit, decide_error};

use crate::adding::add;
use crate::check::{RowFault, check_rows};
use crate::find::row_number;
use crate::names::{PathFault, path_fault};
use crate::place::{Entry, Mark};
use crate::refuse::refusals;
use crate::rename::{Rename, is_rename};
use crate::result::result_at;
use crate::row::{Row, Version};
use crate::rows::{GatherError, rows_of};
use crate::scan::Refusal;
use std::alloc::{AllocError, Global};

/// A renamed file: its path in the old tree, and that in the new one.
#[derive(Clone, Copy)]
pub struct Moved<'a> {
    /// The old path.
    pub old: &'a [u8],

    /// The new path.
    pub new: &'a [u8],
}

/// What becomes of a path.
#[derive(Clone, Copy)]
pub struct Outcome<'a> {
    /// The path.
    pub path: &'a [u8],

    /// What the old tree has there.
    pub before: Option<Version>,

    /// What the result has there.
    pub after: Option<Version>,
}

/// What marks leave of two trees.
#[derive(Drop)]
pub struct Decision<'a> {
    /// The paths of both trees, in the order of paths.
    pub rows: Vec<Row<'a>>,

    /// Why each shown file is left out, by its number, or `None` if it is not.
    pub refused: Vec<Option<Refusal>>,

    /// What becomes of each path, in the order of the rows.
    pub outcomes: Vec<Outcome<'a>>,
}

/// Why nothing is decided.
#[derive(Clone, Copy)]
pub enum DecideError<'a> {
    /// A list of files, or the list of marks, has this path twice.
    Twice(&'a [u8]),

    /// A mark has this path, and neither tree has it.
    Unknown(&'a [u8]),

    /// This path would come or is shown, and names no file below the top folder.
    Path(&'a [u8], PathFault),

    /// The rows are none of two trees and a choice.
    Rows(RowFault),

    /// A rename is none: its number in the list.
    Rename(usize),

    /// The file of a mark is none of the shown ones: the mark's number in the list, counted from 0.
    File(usize),

    /// An allocation failed.
    OutOfMemory,
}

impl From<AllocError> for DecideError<'_> {
    ghost from_gives = { λ _ e. e ≡ OutOfMemory };

    fn from(_error: AllocError) -> Self {
        DecideError::OutOfMemory
    }
}

impl<'a> From<GatherError<'a>> for DecideError<'a> {
    ghost from_gives = { λ error e. e ≡ decide_error error };

    fn from(error: GatherError<'a>) -> Self {
        match error {
            GatherError::Twice(path) => DecideError::Twice(path),
            GatherError::Unknown(path) => DecideError::Unknown(path),
            GatherError::OutOfMemory => DecideError::OutOfMemory,
        }
    }
}

/// Checks that the file of each mark is one of `count`.
///
/// # Errors
/// `File`: the first mark of which that is not so.
fn check_marks<'a>(count: usize, marks: &[Mark<'_>]) -> Result<(), DecideError<'a>>
    ensures { MatchResult result (λ _. MarksFit count marks.now) (IsMarkReason count marks.now) }
{
    for i in 0..marks.len() {
        if marks[i].wish.file >= count {
            return Err(DecideError::File(i));
        }
    }
    Ok(())
}

/// Returns whether the path of `row` may get another version: no file is there now, or it is that of one of `count` shown
/// files.
fn may_change(count: usize, row: &Row<'_>) -> bool
    ensures { result ≡ may_change count row.now }
{
    row.current.is_none() | (row.file < count)
}

/// Returns what is wrong with the path of `row`, if it may get another version.
fn row_fault(count: usize, row: &Row<'_>) -> Option<PathFault>
    ensures { result ≡ row_fault count row.now }
{
    if may_change(count, row) {
        path_fault(row.path)
    } else {
        None
    }
}

/// Checks that each path that would come, or is that of one of `count` shown files, names a file below the top folder.
///
/// # Errors
/// `Path`: a path, and what is wrong with it.
fn check_paths<'a>(count: usize, rows: &[Row<'a>]) -> Result<(), DecideError<'a>>
    ensures { MatchResult result (λ _. PathsFit count rows.now) (IsPathReason count rows.now) }
{
    for i in 0..rows.len() {
        if let Some(fault) = row_fault(count, &rows[i]) {
            return Err(DecideError::Path(rows[i].path, fault));
        }
    }
    Ok(())
}

/// Returns whether the paths of renamed file `i` are those of rows that are a rename.
fn is_moved(rows: &[Row<'_>], moved: &[Moved<'_>], i: usize) -> bool
    requires order { AreInOrder rows.now }
    requires within { i < length moved.now }
    ensures yes { result ≡ true
        → (d : Moved) → IsMoved rows.now (slice_index_or moved.now i d) }
    ensures no { result ≡ false
        → (d : Moved) → IsMoved rows.now (slice_index_or moved.now i d) → ⊥ }
{
    let Some(old) = row_number(rows, moved[i].old) else {
        return false;
    };
    let Some(new) = row_number(rows, moved[i].new) else {
        return false;
    };
    is_rename(rows, Rename { old, new })
}

/// Checks that the paths of each renamed file are those of rows that are a rename.
///
/// # Errors
/// `Rename`: the first renamed file of which that is not so.
fn check_moved<'a>(rows: &[Row<'_>], moved: &[Moved<'_>]) -> Result<(), DecideError<'a>>
    requires { AreInOrder rows.now }
    ensures { MatchResult result (λ _. All (λ (m : Moved). IsMoved rows.now m) moved.now)
        (IsMovedReason rows.now moved.now) }
{
    for i in 0..moved.len() {
        if !is_moved(rows, moved, i) {
            return Err(DecideError::Rename(i));
        }
    }
    Ok(())
}

/// Returns what becomes of the path of row `i`.
fn outcome_at<'a>(rows: &[Row<'a>], refused: &[Option<Refusal>], i: usize) -> Outcome<'a>
    requires { i < length rows.now }
    ensures { IsOutcome rows.now refused.now i result }
{
    let row = &rows[i];
    Outcome {
        path: row.path,
        before: row.current,
        after: result_at(row, refused),
    }
}

/// Returns what becomes of each path.
///
/// # Errors
/// `AllocError`: an allocation failed.
fn outcomes_of<'a>(
    alloc: Global,
    rows: &[Row<'a>],
    refused: &[Option<Refusal>],
) -> Result<Vec<Outcome<'a>>, AllocError>
    ensures { IfOk result (λ outcomes.
        AreOutcomes rows.now refused.now (length rows.now) outcomes.items) }
{
    let mut outcomes = Vec::new(alloc);
    for i in 0..rows.len() {
        add(&mut outcomes, outcome_at(rows, refused, i))?;
    }
    Ok(outcomes)
}

/// Checks that `rows` are those of two trees and of a choice among `count` files.
///
/// # Errors
/// `Rows`: what is wrong.
fn check_trees<'a>(count: usize, rows: &[Row<'_>]) -> Result<(), DecideError<'a>>
    ensures { MatchResult result (λ _. AreRows count rows.now) (IsTreesReason count rows.now) }
{
    match check_rows(count, rows) {
        Ok(()) => Ok(()),
        Err(fault) => Err(DecideError::Rows(fault)),
    }
}

/// Checks the paths of `rows`, that `rows` are those of two trees and of a choice among `count` shown files, and the renamed
/// files. `files` is one more than `count`.
///
/// # Errors
/// - `Path`: a path that would come, or that is shown, names no file below the top folder.
/// - `Rows`: what is wrong with the rows.
/// - `Rename`: the first renamed file whose paths are not those of rows that are a rename.
fn check_choice<'a>(
    count: usize,
    files: usize,
    rows: &[Row<'a>],
    moved: &[Moved<'a>],
) -> Result<(), DecideError<'a>>
    requires { files ≡ count + 1 }
    ensures paths { OnOk result (PathsFit count rows.now) }
    ensures rows { OnOk result (AreRows (count + 1) rows.now) }
    ensures renames { OnOk result (All (λ (m : Moved). IsMoved rows.now m) moved.now) }
    ensures fault { IfErr result (λ error. (old new : List Entry) (marks : List Mark)
        → AreMerged count old new marks rows.now
        → IsDecideFault count old new marks moved.now error) }
{
    check_paths(count, rows)?;
    check_trees(files, rows)?;
    check_moved(rows, moved)
}

/// Returns what the marks of `count` shown files leave of two trees: the least set of files that has to be left out,
/// each with its reason, and what becomes of each path. `old` and `new` have the files of the trees, `marks` has each
/// path of the shown files, and `moved` the renamed files among them, all in any order.
///
/// # Errors
/// - `File`: the file of a mark is not one of the shown ones.
/// - `Twice`: a list has a path twice.
/// - `Unknown`: a mark has a path that neither tree has.
/// - `Path`: a path that would come, or that is shown, names no file below the top folder.
/// - `Rows`: one of the trees is none.
/// - `Rename`: the paths of a renamed file are not both there, or do not have one file, which is there at one of them
///   and asked for at one of them.
/// - `OutOfMemory`: an allocation failed.
pub fn decide<'a>(
    alloc: Global,
    old: &[Entry<'a>],
    new: &[Entry<'a>],
    marks: &[Mark<'a>],
    moved: &[Moved<'a>],
    count: usize,
) -> Result<Decision<'a>, DecideError<'a>>
    ensures { MatchResult result (IsDecision count old.now new.now marks.now moved.now)
        (IsDecideFault count old.now new.now marks.now moved.now) }
{
    let Some(files) = count.checked_add(1) else {
        return Err(DecideError::OutOfMemory);
    };
    check_marks(count, marks)?;
    let rows = rows_of(alloc, old, new, marks, count)?;
    check_choice(count, files, rows.as_slice(), moved)?;
    let refused = refusals(alloc, rows.as_slice(), files)?;
    let outcomes = outcomes_of(alloc, rows.as_slice(), refused.as_slice())?;
    Ok(Decision {
        rows,
        refused,
        outcomes,
    })
}

/// Proves what a decision promises: with nothing marked the result is the old tree, with everything marked the new
/// one, entry for entry; it is a tree; what is not shown stays; and a renamed file is at exactly one of its paths.
pub fn decision_is_as_promised(
    count: usize,
    old: &[Entry<'_>],
    new: &[Entry<'_>],
    marks: &[Mark<'_>],
    moved: &[Moved<'_>],
    decision: &Decision<'_>,
)
    ensures { IsDecision count old.now new.now marks.now moved.now decision.now
        → IsPromise count old.now new.now moved.now decision.now }
{}
