//! Rectangles in the middle of other rectangles.
ghost use Rattle.std.specs.Prelude.{◌≡◌, ◌≤◌, ◌*◌};
ghost use Rattle.scm_cells.specs.Rect.{RectInRange};
ghost use Rattle.scm_render.specs.Centring.{hundredths, centred_size, centred_gap, centred_rect};

use scm_cells::{Rect, RectSize};

/// Returns a size in hundredths of a cell: `percent` per cent of `room`. It is at least `least`
/// cells, if `room` has that many.
fn hundredths(room: usize, least: usize, percent: usize) -> u128
    requires { percent ≤ 100 }
    ensures size { result ≡ hundredths room least percent }
    ensures fits { result ≤ 100 * room }
{
    let preferred = percent as u128 * room as u128;
    preferred.max(100 * least.min(room) as u128)
}

/// Returns a size in cells: `percent` per cent of `room`, rounded down. The size is at least
/// `least`, if `room` has that many cells.
pub fn centred_size(room: usize, least: usize, percent: usize) -> usize
    requires { percent ≤ 100 }
    ensures { result ≡ centred_size room least percent }
{
    (hundredths(room, least, percent) / 100) as usize
}

/// Returns the number of cells before [`centred_size`] cells in the middle of `room`. It is half of
/// the rest, computed in hundredths of a cell and rounded down.
pub fn centred_gap(room: usize, least: usize, percent: usize) -> usize
    requires { percent ≤ 100 }
    ensures gap { result ≡ centred_gap room least percent }
    ensures within { 2 * result ≤ room }
{
    ((100 * room as u128 - hundredths(room, least, percent)) / 200) as usize
}

/// Returns a rectangle in the middle of `rect`. It has `percent_width` per cent of its columns and
/// `percent_height` per cent of its rows. It is at least as large as `least`, if `rect` has room.
/// Place and size are computed in hundredths of a cell and rounded down.
#[tactic(auto, unfolding(crate::specs::Centring::centred_rect))]
pub fn centered_rect(
    rect: Rect,
    least: RectSize,
    percent_width: usize,
    percent_height: usize,
) -> Rect
    requires rect { RectInRange rect }
    requires width { percent_width ≤ 100 }
    requires height { percent_height ≤ 100 }
    ensures value { result ≡ centred_rect rect least percent_width percent_height }
    ensures in_range { RectInRange result }
{
    let left = centred_gap(rect.width, least.width, percent_width);
    let above = centred_gap(rect.height, least.height, percent_height);
    Rect {
        x: rect.x.strict_add_unsigned(left),
        y: rect.y.strict_add_unsigned(above),
        width: centred_size(rect.width, least.width, percent_width),
        height: centred_size(rect.height, least.height, percent_height),
    }
}
