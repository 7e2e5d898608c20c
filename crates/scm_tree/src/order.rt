//! Places in the order of their paths.
ghost use Rattle.std.specs.Prelude.{◌≡◌, OnOk, true};
ghost use Rattle.std.specs.List.Sorted.{IsPermutation};
ghost use Rattle.std.specs.Ordering.{is_eq, is_gt, is_lt};
ghost use Rattle.scm_tree.specs.Paths.{is_before};
ghost use Rattle.scm_tree.specs.Places.{AreSorted};

use crate::path::is_before;
use crate::place::Place;
use std::alloc::AllocError;
use std::cmp::Ordering;

/// Compares two paths in the order of paths.
fn path_order(path: &[u8], other: &[u8]) -> Ordering
    ensures less { is_lt result ≡ is_before path.now other.now }
    ensures greater { is_gt result ≡ is_before other.now path.now }
    ensures equal { is_eq result ≡ true → path.now ≡ other.now }
{
    if is_before(path, other) {
        Ordering::Less
    } else if is_before(other, path) {
        Ordering::Greater
    } else {
        Ordering::Equal
    }
}

/// Sorts `places` by their paths.
///
/// # Errors
/// `AllocError`: an allocation failed.
pub(crate) fn sort_places(places: &mut Vec<Place<'_>>) -> Result<(), AllocError>
    ensures moved { IsPermutation places.old.items places.new.items }
    ensures sorted { OnOk result (AreSorted places.new.items) }
{
    places.sort_by(|place, other| path_order(place.path, other.path))
}
