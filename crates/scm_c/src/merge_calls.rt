//! Calls without a session: the merge of three files, and what marks make of it. `include/gabrosty.h` documents each function.
ghost use Rattle.std.specs.Prelude.{◌≡◌, ◌<◌, true};
ghost use Rattle.scm_c_values.specs.Codes.{IsCode};
ghost use Rattle.scm_c.specs.Merges.{IsMarkedCode, IsMarkersCode, TellsMarkers, TellsMerge, TellsMerged, TellsOpen};

use scm_c_values::buffers::write_text;
use scm_c_values::codes::{DONE, NO_ITEM, NO_MEMORY};
use scm_merge::{LabelBytes, merge_by_marks, merge_records, merge_with_markers};
use std::alloc::Global;

/// Writes to `out` the records of the merge of three files, clipped to the length of `out`, and their whole length to `written`.
/// Returns the code of the call.
#[unsafe(no_mangle)]
pub extern "C" fn gabro_merge_texts(
    alloc: Global,
    base: &[u8],
    ours: &[u8],
    theirs: &[u8],
    out: &mut [u8],
    written: &mut usize,
) -> u32
    ensures code { IsCode true 0 result }
    ensures records { result ≡ 0
        → TellsMerge base.now ours.now theirs.now out.old out.new written.new }
    ensures unwritten { 0 < result → (out.new ≡ out.old) × (written.new ≡ written.old) }
{
    let Ok(records) = merge_records(alloc, base, ours, theirs) else {
        return NO_MEMORY;
    };
    *written = write_text(records.as_slice(), out);
    DONE
}

/// Writes to `out` the bytes of the merge of three files by `marks`, clipped to the length of `out`, and their number to
/// `written`. Returns the code of the call.
#[unsafe(no_mangle)]
pub extern "C" fn gabro_merged_bytes(
    alloc: Global,
    base: &[u8],
    ours: &[u8],
    theirs: &[u8],
    marks: &[u8],
    out: &mut [u8],
    written: &mut usize,
) -> u32
    ensures code { IsMarkedCode base.now ours.now theirs.now marks.now result }
    ensures bytes { result ≡ 0
        → TellsMerged base.now ours.now theirs.now marks.now out.old out.new written.new }
    ensures unwritten { 0 < result → (out.new ≡ out.old) × (written.new ≡ written.old) }
{
    let Ok(found) = merge_by_marks(alloc, base, ours, theirs, marks) else {
        return NO_MEMORY;
    };
    match found {
        Some(merged) => {
            *written = write_text(merged.bytes.as_slice(), out);
            DONE
        }
        None => NO_ITEM,
    }
}

/// Writes to `open` how many conflicts of the merge of three files `marks` leave open. Returns the code of the call.
#[unsafe(no_mangle)]
pub extern "C" fn gabro_open_conflicts(
    alloc: Global,
    base: &[u8],
    ours: &[u8],
    theirs: &[u8],
    marks: &[u8],
    open: &mut usize,
) -> u32
    ensures code { IsMarkedCode base.now ours.now theirs.now marks.now result }
    ensures open { result ≡ 0
        → TellsOpen base.now ours.now theirs.now marks.now open.new }
    ensures unwritten { 0 < result → open.new ≡ open.old }
{
    let Ok(found) = merge_by_marks(alloc, base, ours, theirs, marks) else {
        return NO_MEMORY;
    };
    match found {
        Some(merged) => {
            *open = merged.open;
            DONE
        }
        None => NO_ITEM,
    }
}

/// Writes to `out` the bytes of the merge of three files by `marks`, with markers of at least `marker_length` signs around each
/// conflict that is open, clipped to the length of `out`, and their number to `written`. The labels are those of the three versions.
/// Returns the code of the call.
#[unsafe(no_mangle)]
pub extern "C" fn gabro_marked_bytes(
    alloc: Global,
    base: &[u8],
    ours: &[u8],
    theirs: &[u8],
    marks: &[u8],
    base_label: &[u8],
    our_label: &[u8],
    their_label: &[u8],
    marker_length: usize,
    out: &mut [u8],
    written: &mut usize,
) -> u32
    ensures code { IsMarkersCode marker_length
        (record { ours = our_label.entry; base = base_label.entry; theirs = their_label.entry })
        base.now ours.now theirs.now marks.now result }
    ensures bytes { result ≡ 0 → TellsMarkers marker_length
        (record { ours = our_label.entry; base = base_label.entry; theirs = their_label.entry })
        base.now ours.now theirs.now marks.now out.old out.new written.new }
    ensures unwritten { 0 < result → (out.new ≡ out.old) × (written.new ≡ written.old) }
{
    let labels = LabelBytes {
        ours: our_label,
        base: base_label,
        theirs: their_label,
    };
    let Ok(found) = merge_with_markers(alloc, base, ours, theirs, marks, labels, marker_length)
    else {
        return NO_MEMORY;
    };
    match found {
        Some(bytes) => {
            *written = write_text(bytes.as_slice(), out);
            DONE
        }
        None => NO_ITEM,
    }
}
