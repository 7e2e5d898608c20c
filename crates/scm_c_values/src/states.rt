//! What calls tell of a state: sides, marks, messages and lines.
ghost use Rattle.std.specs.Prelude.{◌≡◌, ◌<◌, Some, option_map, true};
ghost use Rattle.std.specs.List.{flat_map};
ghost use Rattle.scm_c_values.specs.Codes.{IsCode};
ghost use Rattle.scm_c_values.specs.Buffers.{TellsText};
ghost use Rattle.scm_c_values.specs.States.{TellsSide, bytes_of_section, code_of_found, code_of_mark, index_if_any, line_at, mark_at, marks_at, message_at, side_at};
ghost use Rattle.scm_c_values.specs.Texts.{side_bytes_at};
ghost use Rattle.scm_diff.specs.Bytes.{side_bytes};

use crate::buffers::write_text;
use crate::codes;
use crate::items::{line_at, marks_of};
use crate::owners::Key;
use crate::sides::{Side, tell_side};
use scm_diff::side_bytes;
use scm_embed::marks::mark_of;
use scm_types::{Commit, File, RecordState, Tristate};
use std::alloc::Global;

/// Returns the code of `mark`.
fn mark_code(mark: Tristate) -> u32
    ensures { result ≡ code_of_mark mark }
{
    match mark {
        Tristate::False => codes::UNCHECKED,
        Tristate::Partial => codes::PARTLY,
        Tristate::True => codes::CHECKED,
    }
}

/// Returns `index`, or `None` for the greatest `usize`.
pub(crate) fn index_if_any(index: usize) -> Option<usize>
    ensures { result ≡ index_if_any index }
{
    if index == usize::MAX {
        None
    } else {
        Some(index)
    }
}

/// Returns the code of the mark of the file, the section or the line that `key` names, if there is
/// such an item.
fn mark_at(state: &RecordState<'static>, key: &Key) -> Option<u32>
    ensures { result ≡ mark_at key.now state.now }
{
    let section = index_if_any(key.section);
    let line = index_if_any(key.line);
    match mark_of(state, key.file, section, line) {
        Some(mark) => Some(mark_code(mark)),
        None => None,
    }
}

/// Returns the message of commit `commit`, if there is one.
fn message_at<'s>(state: &'s RecordState<'static>, commit: usize) -> Option<&'s str>
    ensures { option_map (λ text. text.now) result ≡ message_at commit state.now }
{
    match state.commits.as_slice().get(commit) {
        Some(
            Commit {
                message: Some(message),
            },
        ) => Some(message.as_str()),
        Some(Commit { message: None }) => None,
        None => None,
    }
}

/// Writes the bytes of `marks` to `out` and `written`. Returns the code of the call.
fn tell_marks(alloc: Global, file: &File<'static>, out: &mut [u8], written: &mut usize) -> u32
    ensures code { IsCode true 0 result }
    ensures marks { result ≡ 0 → TellsText
        (Some (flat_map bytes_of_section file.now.sections)) out.old out.new written.new }
    ensures unwritten { 0 < result → (out.new ≡ out.old) × (written.new ≡ written.old) }
{
    match marks_of(alloc, file) {
        Ok(marks) => {
            *written = write_text(marks.as_slice(), out);
            codes::DONE
        }
        Err(_) => codes::NO_MEMORY,
    }
}

/// Writes the bytes of a side of `file` to `out` and `written`. Returns the code of the call.
fn tell_side_bytes(
    alloc: Global,
    file: &File<'static>,
    selected: bool,
    out: &mut [u8],
    written: &mut usize,
) -> u32
    ensures code { IsCode true 0 result }
    ensures bytes { result ≡ 0
        → TellsText (Some (side_bytes selected file.now)) out.old out.new written.new }
    ensures unwritten { 0 < result → (out.new ≡ out.old) × (written.new ≡ written.old) }
{
    match side_bytes(alloc, file, selected) {
        Ok(bytes) => {
            *written = write_text(bytes.as_slice(), out);
            codes::DONE
        }
        Err(_) => codes::NO_MEMORY,
    }
}

/// Writes a side of file `file` of `state` to `out` and `told`. Returns the code of the call.
pub fn tell_side_at(
    alloc: Global,
    state: &RecordState<'static>,
    file: usize,
    selected: bool,
    out: &mut [u8],
    told: &mut Side,
) -> u32
    ensures code { IsCode true (code_of_found (side_at file selected state.now)) result }
    ensures told { result ≡ 0
        → TellsSide (side_at file selected state.now) out.old out.new told.new }
    ensures unwritten { 0 < result → (out.new ≡ out.old) × (told.new ≡ told.old) }
{
    match state.files.as_slice().get(file) {
        Some(file) => tell_side(alloc, file, selected, out, told),
        None => codes::NO_ITEM,
    }
}

/// Writes the mark of what `key` names in `state` to `mark`. Returns the code of the call.
pub fn tell_mark_at(state: &RecordState<'static>, key: &Key, mark: &mut u32) -> u32
    ensures code { result ≡ code_of_found (mark_at key.now state.now) }
    ensures mark { result ≡ 0 → mark_at key.now state.now ≡ Some mark.new }
    ensures unwritten { 0 < result → mark.new ≡ mark.old }
{
    match mark_at(state, key) {
        Some(found) => {
            *mark = found;
            codes::DONE
        }
        None => codes::NO_ITEM,
    }
}

/// Writes the message of commit `commit` of `state` to `out` and `written`. Returns the code of the call.
pub fn tell_message_at(
    state: &RecordState<'static>,
    commit: usize,
    out: &mut [u8],
    written: &mut usize,
) -> u32
    ensures code { result ≡ code_of_found (message_at commit state.now) }
    ensures text { result ≡ 0
        → TellsText (message_at commit state.now) out.old out.new written.new }
    ensures unwritten { 0 < result → (out.new ≡ out.old) × (written.new ≡ written.old) }
{
    match message_at(state, commit) {
        Some(text) => {
            *written = write_text(text.as_bytes(), out);
            codes::DONE
        }
        None => codes::NO_ITEM,
    }
}

/// Writes the text of the line that `key` names in `state` to `out` and `written`. Returns the code of the
/// call.
pub fn tell_line_at(
    state: &RecordState<'static>,
    key: &Key,
    out: &mut [u8],
    written: &mut usize,
) -> u32
    ensures code { result ≡ code_of_found (line_at key.now state.now) }
    ensures text { result ≡ 0
        → TellsText (line_at key.now state.now) out.old out.new written.new }
    ensures unwritten { 0 < result → (out.new ≡ out.old) × (written.new ≡ written.old) }
{
    match line_at(state, key) {
        Some(text) => {
            *written = write_text(text.as_bytes(), out);
            codes::DONE
        }
        None => codes::NO_ITEM,
    }
}

/// Writes the marks of file `file` of `state` to `out` and `written`. Returns the code of the call.
pub fn tell_marks_at(
    alloc: Global,
    state: &RecordState<'static>,
    file: usize,
    out: &mut [u8],
    written: &mut usize,
) -> u32
    ensures code { IsCode true (code_of_found (marks_at file state.now)) result }
    ensures marks { result ≡ 0 → TellsText (marks_at file state.now) out.old out.new written.new }
    ensures unwritten { 0 < result → (out.new ≡ out.old) × (written.new ≡ written.old) }
{
    match state.files.as_slice().get(file) {
        Some(file) => tell_marks(alloc, file, out, written),
        None => codes::NO_ITEM,
    }
}

/// Writes the bytes of a side of file `file` of `state` to `out` and `written`. Returns the code of the call.
pub fn tell_side_bytes_at(
    alloc: Global,
    state: &RecordState<'static>,
    file: usize,
    selected: bool,
    out: &mut [u8],
    written: &mut usize,
) -> u32
    ensures code { IsCode true (code_of_found (side_bytes_at file selected state.now)) result }
    ensures bytes { result ≡ 0
        → TellsText (side_bytes_at file selected state.now) out.old out.new written.new }
    ensures unwritten { 0 < result → (out.new ≡ out.old) × (written.new ≡ written.old) }
{
    match state.files.as_slice().get(file) {
        Some(file) => tell_side_bytes(alloc, file, selected, out, written),
        None => codes::NO_ITEM,
    }
}
