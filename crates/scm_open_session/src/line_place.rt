//! The line of a file at which an item is, in both versions of the file.
ghost use Rattle.std.specs.Prelude.{◌≡◌, ◌+◌, filter, length, option_map, suc, take, unwrap_or, slice_get};
ghost use Rattle.std.specs.List.{sum_by};
ghost use Rattle.scm_open_session.specs.LinePlaces.{capped, has_kind, has_line, line_number, lines_before, lines_before_line, lines_in, place_in, place_of};

use scm_types::{ChangeType, File, RecordState, Section, SectionChangedLine, SelectionKey};

/// A place in a file: a line of its old version, and one of its new version.
#[derive(Clone, Copy)]
pub struct LinePlace {
    /// The index of the file in the state, counted from 0.
    pub file: usize,
    /// The number of the line in the old version, counted from 1.
    pub old_line: usize,
    /// The number of the line in the new version, counted from 1.
    pub new_line: usize,
}

/// Returns whether the new version, or the old one, has a changed line of this kind.
fn has_kind(change_type: ChangeType, is_new: bool) -> bool
    ensures { result ≡ has_kind is_new change_type }
{
    match change_type {
        ChangeType::Added => is_new,
        ChangeType::Removed => !is_new,
    }
}

/// Returns how many of the first `count` lines of `lines` the new version, or the old one, has.
fn changes_before(lines: &[SectionChangedLine<'_>], count: usize, is_new: bool) -> usize
    ensures { result ≡ length (filter (has_line is_new) (take count lines.now)) }
{
    lines
        .iter()
        .take(count)
        .filter(|line| has_kind(line.change_type, is_new))
        .count()
}

/// Returns how many of `lines` the new version, or the old one, has.
fn changes_in(lines: &[SectionChangedLine<'_>], is_new: bool) -> usize
    ensures { result ≡ length (filter (has_line is_new) lines.now) }
{
    lines
        .iter()
        .filter(|line| has_kind(line.change_type, is_new))
        .count()
}

/// Returns how many lines of `section` the new version, or the old one, has.
fn lines_in(section: &Section<'_>, is_new: bool) -> usize
    ensures { result ≡ lines_in is_new section.now }
{
    match section {
        Section::Unchanged { lines } => lines.len(),
        Section::Changed { lines } => changes_in(lines.as_slice(), is_new),
        Section::FileMode { .. } | Section::Binary { .. } => 0,
    }
}

/// Returns how many lines before line `line` of `section` the new version, or the old one, has.
fn lines_before_line(section: &Section<'_>, line: usize, is_new: bool) -> usize
    ensures { result ≡ lines_before_line is_new line section.now }
{
    match section {
        Section::Unchanged { lines } => line.min(lines.len()),
        Section::Changed { lines } => changes_before(lines.as_slice(), line, is_new),
        Section::FileMode { .. } | Section::Binary { .. } => 0,
    }
}

/// Returns how many lines of `sections` the new version, or the old one, has, or the greatest number.
fn lines_of(sections: &[Section<'_>], is_new: bool) -> usize
    ensures { result ≡ capped (sum_by (lines_in is_new) sections.now) }
{
    let mut count: usize = 0;
    for section in sections {
        count = count.saturating_add(lines_in(section, is_new));
    }
    count
}

/// Returns the number of the line of the new version, or of the old one, at which line `line` of section `section` of
/// `file` is, or the greatest number.
fn line_number(file: &File<'_>, section: usize, line: usize, is_new: bool) -> usize
    ensures { result ≡ line_number is_new section line file.now }
{
    let sections = file.sections.as_slice();
    let within = match sections.get(section) {
        Some(section) => lines_before_line(section, line, is_new),
        None => 0,
    };
    let before = &sections[..section.min(sections.len())];
    lines_of(before, is_new)
        .saturating_add(within)
        .saturating_add(1)
}

/// Returns the place of line `line` of section `section` of file `file` of `state`, if there is such a file.
fn place_in(state: &RecordState<'_>, file: usize, section: usize, line: usize) -> Option<LinePlace>
    ensures { result ≡ place_in file section line state.now }
{
    match state.files.as_slice().get(file) {
        Some(found) => Some(LinePlace {
            file,
            old_line: line_number(found, section, line, false),
            new_line: line_number(found, section, line, true),
        }),
        None => None,
    }
}

/// Returns the place of the item `key` of `state`: that of its first line. `None` if `key` names no item of a file.
pub fn place_of(state: &RecordState<'_>, key: SelectionKey) -> Option<LinePlace>
    ensures { result ≡ place_of key state.now }
{
    match key {
        SelectionKey::None => None,
        SelectionKey::File(key) => place_in(state, key.file_idx, 0, 0),
        SelectionKey::Section(key) => place_in(state, key.file_idx, key.section_idx, 0),
        SelectionKey::Line(key) => { place_in(state, key.file_idx, key.section_idx, key.line_idx) }
    }
}
