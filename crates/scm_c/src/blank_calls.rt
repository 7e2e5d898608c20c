//! A call without a session: a version of a file without the changes that are of blanks alone. `include/gabrosty.h` documents it.
ghost use Rattle.std.specs.Prelude.{◌≡◌, ◌<◌, true};
ghost use Rattle.scm_c_values.specs.Codes.{IsCode};
ghost use Rattle.scm_c.specs.Blanks.{TellsWithoutBlankChanges};

use scm_c_values::buffers::write_text;
use scm_c_values::codes::{DONE, NO_MEMORY};
use scm_diff::without_blank_changes;
use std::alloc::Global;

/// Writes to `out` the bytes of the version `new` of a file without the changes from `old` that are of blanks alone, clipped to the
/// length of `out`, their number to `written`, and how many lines are left out to `left_out`. Returns the code of the call.
#[unsafe(no_mangle)]
pub extern "C" fn gabro_without_blank_changes(
    alloc: Global,
    old: &[u8],
    new: &[u8],
    out: &mut [u8],
    written: &mut usize,
    left_out: &mut usize,
) -> u32
    ensures code { IsCode true 0 result }
    ensures bytes { result ≡ 0 → TellsWithoutBlankChanges old.now new.now
        out.old out.new written.new left_out.new }
    ensures unwritten { 0 < result → (out.new ≡ out.old)
        × ((written.new ≡ written.old) × (left_out.new ≡ left_out.old)) }
{
    let Ok(found) = without_blank_changes(alloc, old, new) else {
        return NO_MEMORY;
    };
    *written = write_text(found.bytes.as_slice(), out);
    *left_out = found.left_out;
    DONE
}
