//! Buttons side by side on a row, from the right.
ghost use Rattle.std.specs.Prelude.{◌≡◌, IfOk};
ghost use Rattle.scm_widgets.specs.Buttons.{ArePlacedInRange, placed_from_right};

use scm_widgets::button::{Button, button_width};
use scm_widgets::placed_button::PlacedButton;
use std::alloc::{AllocError, Global};

/// Places `buttons` on row `y` from the right, with one column between two. The first one ends
/// before column `end`.
pub(crate) fn place_from_right<'a, K: Copy + Drop>(
    alloc: Global,
    end: isize,
    y: isize,
    buttons: &'a [Button<'a, K>],
) -> Result<Vec<PlacedButton<'a, K>>, AllocError>
    requires { ArePlacedInRange (placed_from_right end y buttons.now) }
    ensures ok { IfOk result (λ placed. placed.items ≡ placed_from_right end y buttons.now) }
{
    let mut placed = Vec::new(alloc);
    let mut right = end;
    for button in buttons {
        let width = button_width(button)?;
        let left = right.strict_sub_unsigned(width);
        placed.push(PlacedButton::new(left, y, width, button.borrowed()))?;
        right = left - 1;
    }
    Ok(placed)
}
