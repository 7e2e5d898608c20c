//! Places that are gathered path by path.
ghost use Rattle.std.specs.Prelude.{◌≡◌, ◌+◌, ◌<◌, ◌++◌, ◌∷◌, [], IfErr, IfOk, MatchResult, false, true};
ghost use Rattle.std.specs.List.{All};
ghost use Rattle.std.specs.Option.{option_or};
ghost use Rattle.scm_tree.specs.Paths.{is_before};
ghost use Rattle.scm_tree.specs.GatherFaults.{IsAddFault, IsPlaceFault};
ghost use Rattle.scm_tree.specs.Places.{ArePlacesInOrder, AreSorted, IsAdded, IsGathered, IsJoined, is_twice};

use crate::adding::add;
use crate::path::is_before;
use crate::place::Place;
use crate::rows::GatherError;
use std::alloc::Global;

/// Returns whether both places have a file of one tree, or a mark.
fn is_twice(place: &Place<'_>, other: &Place<'_>) -> bool
    ensures { result ≡ is_twice place.now other.now }
{
    let current = place.current.is_some() & other.current.is_some();
    let goal = place.goal.is_some() & other.goal.is_some();
    let wish = place.wish.is_some() & other.wish.is_some();
    current | goal | wish
}

/// Returns one place with what two places of one path have.
fn joined<'a>(place: &Place<'a>, other: &Place<'a>) -> Place<'a>
    ensures { IsJoined place.now other.now result }
{
    Place {
        path: place.path,
        current: place.current.or(other.current),
        goal: place.goal.or(other.goal),
        wish: place.wish.or(other.wish),
    }
}

/// Adds `place` to the places `done` and `last`. Returns the last one of all.
///
/// # Errors
/// - `Twice`: one tree has two files of the path, or two marks have it.
/// - `OutOfMemory`: an allocation failed.
fn add_place<'a>(
    done: &mut Vec<Place<'a>>,
    last: Place<'a>,
    place: Place<'a>,
) -> Result<Place<'a>, GatherError<'a>>
    requires in_order { ArePlacesInOrder (done.old.items ++ last ∷ []) }
    requires after { is_before place.path.now last.path.now ≡ false }
    ensures added { IfOk result (IsAdded done.old.items last.entry place.entry done.new.items) }
    ensures fault { IfErr result (IsAddFault last.entry place.entry) }
{
    if is_before(last.path, place.path) {
        add(done, last)?;
        return Ok(place);
    }
    if is_twice(&last, &place) {
        return Err(GatherError::Twice(last.path));
    }
    Ok(joined(&last, &place))
}

/// Returns the places of sorted ones, each path once.
///
/// # Errors
/// - `Twice`: one tree has two files of a path, or two marks have one.
/// - `OutOfMemory`: an allocation failed.
pub(crate) fn gathered<'a>(
    alloc: Global,
    places: &[Place<'a>],
) -> Result<Vec<Place<'a>>, GatherError<'a>>
    requires { AreSorted places.now }
    ensures { MatchResult result (λ done. IsGathered places.now done.items)
        (IsPlaceFault places.now) }
{
    let mut done = Vec::new(alloc);
    if places.is_empty() {
        return Ok(done);
    }
    let mut last = places[0];
    for i in 1..places.len() {
        last = add_place(&mut done, last, places[i])?;
    }
    add(&mut done, last)?;
    Ok(done)
}
