//! A mark by counts of items.
ghost use Rattle.std.specs.Prelude.{◌≡◌};
ghost use Rattle.scm_view_state.specs.Marks.{tristate_by};

use scm_types::Tristate;

/// Returns whether none, some or all of `items` items are checked, if `checked` are.
pub fn tristate_by(checked: usize, items: usize) -> Tristate
    ensures { result ≡ tristate_by checked items }
{
    if checked == 0 {
        Tristate::False
    } else if checked == items {
        Tristate::True
    } else {
        Tristate::Partial
    }
}
