//! Calls without a session: what becomes of paths, which paths are refused, how a changed file is shown, and what a tree has of
//! it by a side.
ghost use Rattle.std.specs.Prelude.{◌≡◌, ◌<◌, true};
ghost use Rattle.scm_c_values.specs.Codes.{IsCode};
ghost use Rattle.scm_tree.specs.Names.{fault_of};
ghost use Rattle.scm_c.specs.Trees.{TellsAnswer};
ghost use Rattle.scm_tree.specs.Faults.{fault_number};
ghost use Rattle.scm_tree_sides.specs.Bits.{changed_of, in_tree_bits, shown_bits};
ghost use Rattle.scm_tree_sides.specs.InTree.{in_tree};
ghost use Rattle.scm_tree_sides.specs.Shown.{shown_as};
ghost use Rattle.scm_c.specs.Sides.{side_told};

use scm_c_values::buffers::write_text;
use scm_c_values::codes::{DONE, NO_MEMORY, SIDE_BINARY};
use scm_c_values::sides::Side;
use scm_tree::{decide_records, path_fault_number};
use scm_tree_sides::bits::{
    ChangedBits, InTreeBits, ShownBits, in_tree_bits, mode_with_bits, shown_bits,
};
use std::alloc::Global;

/// Writes to `out` the records of what becomes of the paths that the records `rows` have, clipped to the length of `out`,
/// and their whole length to `written`. Returns the code of the call.
#[unsafe(no_mangle)]
pub extern "C" fn gabro_decide_rows(
    alloc: Global,
    rows: &[u8],
    out: &mut [u8],
    written: &mut usize,
) -> u32
    ensures code { IsCode true 0 result }
    ensures answer { result ≡ 0 → TellsAnswer rows.now out.old out.new written.new }
    ensures unwritten { 0 < result → (out.new ≡ out.old) × (written.new ≡ written.old) }
{
    let Ok(answer) = decide_records(alloc, rows) else {
        return NO_MEMORY;
    };
    *written = write_text(answer.as_slice(), out);
    DONE
}

/// Returns the number of what is wrong with the first name of `path` with which something is, or 0 if the path names a file
/// below the top folder.
#[unsafe(no_mangle)]
pub extern "C" fn gabro_path_fault(path: &[u8]) -> u32
    ensures { result ≡ fault_number (fault_of path.now) }
{
    path_fault_number(path)
}

/// Returns a side of which this is told.
fn side_told(selected: bool, told: &Side) -> scm_tree_sides::Side
    ensures { result ≡ side_told selected told.now }
{
    scm_tree_sides::Side {
        selected,
        mode: mode_with_bits(told.mode),
        is_binary: told.contents == SIDE_BINARY,
        is_empty: told.len == 0,
    }
}

/// Writes to `shown` what a state is to be given of a changed file, whose contents differ if `is_other`.
#[unsafe(no_mangle)]
pub extern "C" fn gabro_tree_shown(changed: &ChangedBits, is_other: bool, shown: &mut ShownBits)
    ensures { shown.exit.now ≡ shown_bits (shown_as (changed_of changed.now) is_other) }
{
    *shown = shown_bits(changed, is_other);
}

/// Writes to `found` what a tree has of a changed file by a side of it, of which `side` is told: the selected side if
/// `selected`, or the other one.
#[unsafe(no_mangle)]
pub extern "C" fn gabro_tree_side(
    changed: &ChangedBits,
    selected: bool,
    side: &Side,
    found: &mut InTreeBits,
)
    ensures { found.new
        ≡ in_tree_bits (in_tree (changed_of changed.now) (side_told selected side.now)) }
{
    *found = in_tree_bits(changed, side_told(selected, side));
}
