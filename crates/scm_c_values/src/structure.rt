//! What calls tell of the items of a state: their kinds, how many parts they have, and the paths of files.
ghost use Rattle.std.specs.Prelude.{◌≡◌, ◌<◌, Some, option_map};
ghost use Rattle.scm_c_values.specs.Buffers.{TellsText};
ghost use Rattle.scm_c_values.specs.States.{code_of_found};
ghost use Rattle.scm_c_values.specs.Structure.{item_at, item_in_file, item_in_section, item_of_kind, kind_of_change, kind_of_section, line_count, line_item, path_at, path_of};

use crate::buffers::write_text;
use crate::codes;
use crate::owners::Key;
use crate::states::index_if_any;
use scm_types::{ChangeType, File, RecordState, Section};

/// A file, a section or a line as it is told.
#[derive(Clone, Copy)]
pub struct Item {
    /// The code of its kind: `FILE`, `SECTION` of changed lines, `MODE`, `BINARY`, `ADDED`, `REMOVED`, or
    /// `CONTEXT` of a section and of a line.
    pub kind: u32,
    /// How many parts it has: of a file its sections, of a section its lines, of a line none.
    pub parts: usize,
}

/// Returns the line of this kind as it is told.
fn item_of_kind(kind: u32) -> Item
    ensures { result ≡ item_of_kind kind }
{
    Item { kind, parts: 0 }
}

/// Returns the kind of a changed line.
fn kind_of_change(change_type: ChangeType) -> u32
    ensures { result ≡ kind_of_change change_type }
{
    match change_type {
        ChangeType::Added => codes::ADDED,
        ChangeType::Removed => codes::REMOVED,
    }
}

/// Returns the kind of `section`.
fn kind_of_section(section: &Section<'static>) -> u32
    ensures { result ≡ kind_of_section section.now }
{
    match section {
        Section::Unchanged { .. } => codes::CONTEXT,
        Section::Changed { .. } => codes::SECTION,
        Section::FileMode { .. } => codes::MODE,
        Section::Binary { .. } => codes::BINARY,
    }
}

/// Returns the number of lines of `section`.
fn line_count(section: &Section<'static>) -> usize
    ensures { result ≡ line_count section.now }
{
    match section {
        Section::Unchanged { lines } => lines.len(),
        Section::Changed { lines } => lines.len(),
        Section::FileMode { .. } | Section::Binary { .. } => 0,
    }
}

/// Returns line `line` of `section`, if it has such a line.
fn line_item(section: &Section<'static>, line: usize) -> Option<Item>
    ensures { result ≡ line_item line section.now }
{
    match section {
        Section::Unchanged { lines } => match lines.as_slice().get(line) {
            Some(_) => Some(item_of_kind(codes::CONTEXT)),
            None => None,
        },
        Section::Changed { lines } => match lines.as_slice().get(line) {
            Some(changed) => Some(item_of_kind(kind_of_change(changed.change_type))),
            None => None,
        },
        Section::FileMode { .. } | Section::Binary { .. } => None,
    }
}

/// Returns `section`, or its line `line`.
fn item_in_section(section: &Section<'static>, line: Option<usize>) -> Option<Item>
    ensures { result ≡ item_in_section line section.now }
{
    match line {
        None => Some(Item {
            kind: kind_of_section(section),
            parts: line_count(section),
        }),
        Some(line) => line_item(section, line),
    }
}

/// Returns `file`, or its section `section`, or line `line` of that.
fn item_in_file(file: &File<'static>, section: Option<usize>, line: Option<usize>) -> Option<Item>
    ensures { result ≡ item_in_file section line file.now }
{
    match section {
        None => Some(Item {
            kind: codes::FILE,
            parts: file.sections.len(),
        }),
        Some(index) => match file.sections.as_slice().get(index) {
            Some(section) => item_in_section(section, line),
            None => None,
        },
    }
}

/// Returns the file, the section or the line that `key` names, if there is one.
fn item_at(state: &RecordState<'static>, key: &Key) -> Option<Item>
    ensures { result ≡ item_at key.now state.now }
{
    let section = index_if_any(key.section);
    let line = index_if_any(key.line);
    match state.files.as_slice().get(key.file) {
        Some(file) => item_in_file(file, section, line),
        None => None,
    }
}

/// Returns the path of `file`, or if `is_old` its path before a rename or a copy, if it had one.
fn path_of<'s>(file: &'s File<'static>, is_old: bool) -> Option<&'s str>
    ensures { option_map (λ text. text.now) result ≡ path_of is_old file.now }
{
    if !is_old {
        return Some(file.path.as_str());
    }
    match &file.old_path {
        Some(path) => Some(path.as_str()),
        None => None,
    }
}

/// Returns the path of file `file`, or if `is_old` its path before a rename or a copy, if there is one.
fn path_at<'s>(state: &'s RecordState<'static>, file: usize, is_old: bool) -> Option<&'s str>
    ensures { option_map (λ text. text.now) result ≡ path_at file is_old state.now }
{
    match state.files.as_slice().get(file) {
        Some(file) => path_of(file, is_old),
        None => None,
    }
}

/// Writes the kind of what `key` names in `state` to `kind`, and the number of its parts to `parts`.
/// Returns the code of the call.
pub fn tell_item_at(
    state: &RecordState<'static>,
    key: &Key,
    kind: &mut u32,
    parts: &mut usize,
) -> u32
    ensures code { result ≡ code_of_found (item_at key.now state.now) }
    ensures item { result ≡ 0
        → item_at key.now state.now ≡ Some (record { kind = kind.new; parts = parts.new }) }
    ensures unwritten { 0 < result → (kind.new ≡ kind.old) × (parts.new ≡ parts.old) }
{
    match item_at(state, key) {
        Some(item) => {
            *kind = item.kind;
            *parts = item.parts;
            codes::DONE
        }
        None => codes::NO_ITEM,
    }
}

/// Writes the path of file `file` of `state`, or if `is_old` its path before a rename or a copy, to `out` and
/// `written`. Returns the code of the call.
pub fn tell_path_at(
    state: &RecordState<'static>,
    file: usize,
    is_old: bool,
    out: &mut [u8],
    written: &mut usize,
) -> u32
    ensures code { result ≡ code_of_found (path_at file is_old state.now) }
    ensures path { result ≡ 0
        → TellsText (path_at file is_old state.now) out.old out.new written.new }
    ensures unwritten { 0 < result → (out.new ≡ out.old) × (written.new ≡ written.old) }
{
    match path_at(state, file, is_old) {
        Some(text) => {
            *written = write_text(text.as_bytes(), out);
            codes::DONE
        }
        None => codes::NO_ITEM,
    }
}
