//! Marks that a C program hands in.
ghost use Rattle.std.specs.Prelude.{◌≡◌, ◌<◌};
ghost use Rattle.scm_embed.specs.Marked.{fits_marks, marked_state};
ghost use Rattle.scm_c_values.specs.Codes.{code_of_fit};

use crate::codes;
use scm_embed::StateBuilder;

/// Sets the marks of file `file` of the state of `builder` to `marks`, a byte for each item. Returns the
/// code of the call.
pub fn mark_builder(builder: &mut StateBuilder, file: usize, marks: &[u8]) -> u32
    ensures code { result ≡ code_of_fit (fits_marks file marks.now builder.old) }
    ensures set { result ≡ 0 → builder.new ≡ marked_state file marks.now builder.old }
    ensures kept { 0 < result → builder.new ≡ builder.old }
{
    if builder.set_marks(file, marks) {
        codes::DONE
    } else {
        codes::NO_ITEM
    }
}
