//! The target of a click, by the boxes of components.
ghost use Rattle.std.specs.Prelude.{◌≡◌, Bool, ◌&&◌, int_le, int_lt, ◌+ℤ◌, pos, None, option_map, fold};
ghost use Rattle.std.specs.HashMap.{IsUnique};
ghost use Rattle.scm_render.specs.Hits.{holds, IsLawful};
ghost use Rattle.scm_render.specs.Target.{later_of, look, IsTargetOf, IsLastDrawn};

use crate::trace::{DrawnRect, DrawnRects};
use scm_cells::Rect;
use std::hash::Hash;

/// An id of a component. A click may act on the component or not.
pub trait Clickable {
    // Whether a click acts on the component.
    ghost clicks: { Self → Bool };

    /// Returns whether a click acts on the component.
    fn is_clickable(&self) -> bool
        ensures { result ≡ clicks self.now };
}

/// Returns whether `place` lies in `from..from + size`. Never overflows.
pub fn is_among(from: isize, size: usize, place: isize) -> bool
    ensures { result ≡ (int_le from place && int_lt place (from +ℤ pos size)) }
{
    from <= place && from.abs_diff(place) < size
}

/// Returns whether the rectangle contains row `y` and column `x`. Never overflows.
#[tactic(auto, unfolding(crate::specs::Hits::holds))]
pub fn holds(rect: Rect, y: isize, x: isize) -> bool
    ensures { result ≡ holds rect y x }
{
    let rows = is_among(rect.y, rect.height, y);
    let columns = is_among(rect.x, rect.width, x);
    // `&`: one branch for the prover
    rows & columns
}

/// Returns the later of the box that was found so far, if any, and the box `entry`.
pub fn later_of<K: Copy + Drop>(
    found: Option<(K, DrawnRect)>,
    entry: (K, DrawnRect),
) -> Option<(K, DrawnRect)>
    ensures { result ≡ later_of found entry }
{
    match found {
        Some(best) => {
            if best.1.timestamp <= entry.1.timestamp {
                Some(entry)
            } else {
                Some(best)
            }
        }
        None => Some(entry),
    }
}

/// Returns the latest clickable box that contains row `y` and column `x`, with its id.
fn latest_box<K: Copy + Eq + Hash + Drop + Clickable>(
    boxes: &DrawnRects<K>,
    y: isize,
    x: isize,
) -> Option<(K, DrawnRect)>
    ensures found { result ≡ fold (look K.clicks y x) None boxes.now.entries }
    ensures unique { IsUnique K.eq boxes.now }
{
    let mut found = None;
    for (id, drawn) in boxes {
        if id.is_clickable() && holds(drawn.rect, y, x) {
            found = later_of(found, (*id, *drawn));
        }
    }
    found
}

/// Returns the id of the box that was found.
fn id_of<K: Copy + Drop>(found: Option<(K, DrawnRect)>) -> Option<K>
    ensures { result ≡ option_map (λ e. e.0) found }
{
    let (id, _) = found?;
    Some(id)
}

/// Returns the id in `boxes` that a click on row `y` and column `x` hits. It is the id of the
/// latest clickable box that contains the point, or `None` without such a box.
pub fn find_target<K: Copy + Eq + Hash + Drop + Clickable>(
    boxes: &DrawnRects<K>,
    y: isize,
    x: isize,
) -> Option<K>
    requires { IsLawful K.eq }
    ensures target { IsTargetOf K.eq K.clicks boxes.now y x result }
    ensures last { IsLastDrawn K.eq K.clicks boxes.now y x result }
{
    id_of(latest_box(boxes, y, x))
}
