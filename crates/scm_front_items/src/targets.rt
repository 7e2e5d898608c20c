//! Marks that are to be set, by toggles of files, sections and lines.
ghost use Rattle.std.specs.Prelude.{◌≡◌, [], slice_get};
ghost use Rattle.std.specs.List.{list_all};
ghost use Rattle.scm_types.specs.declared.line.SectionChangedLine.{SectionChangedLine as Line};
ghost use Rattle.scm_selection.specs.KeysAround.{lines_at, sections_at};
ghost use Rattle.scm_front_items.specs.Targets.{is_as, is_file_as, is_marked, is_open_deed, is_section_as, key_of, passes_if_there};

use scm_selection::KeySet;
use scm_types::{File, LineKey, Section, SectionChangedLine, SectionKey, SelectionKey};

/// Marks that are to be set: all that `key` names.
#[derive(Clone, Copy, Debug, PartialEq, Eq)]
pub struct Target {
    /// The file, the section or the line.
    pub key: SelectionKey,
    /// The mark that it is to have.
    pub is_checked: bool,
}

/// A thing to do at an item: its key is selected, and then toggled or folded.
#[derive(Clone, Copy, Debug, PartialEq, Eq)]
pub enum Deed {
    /// Sets marks by a toggle, unless they are set.
    Mark(Target),
    /// Folds the item, unless it is folded.
    Fold(SelectionKey),
}

/// Returns whether `is_checked` is `mark`.
pub(crate) fn is_as(mark: bool, is_checked: bool) -> bool
    ensures { result ≡ is_as mark is_checked }
{
    if mark { is_checked } else { !is_checked }
}

/// Returns whether the mark of each of `lines` is `mark`.
fn are_lines_as(mark: bool, lines: &[SectionChangedLine<'_>]) -> bool
    ensures { result ≡ list_all (λ (l : Line). is_as mark l.is_checked) lines.now }
{
    lines.iter().all(|line| is_as(mark, line.is_checked))
}

/// Returns whether each mark of `section` is `mark`.
fn is_section_as(mark: bool, section: &Section<'_>) -> bool
    ensures { result ≡ is_section_as mark section.now }
{
    match section {
        Section::Unchanged { .. } => true,
        Section::Changed { lines } => are_lines_as(mark, lines.as_slice()),
        Section::FileMode { is_checked, .. } => is_as(mark, *is_checked),
        Section::Binary { is_checked, .. } => is_as(mark, *is_checked),
    }
}

/// Returns whether each mark of `file` is `mark`.
fn is_file_as(mark: bool, file: &File<'_>) -> bool
    ensures { result ≡ is_file_as mark file.now }
{
    file.sections
        .as_slice()
        .iter()
        .all(|section| is_section_as(mark, section))
}

/// Returns no sections.
fn no_sections<'a, 'b>() -> &'a [Section<'b>]
    ensures { result.now ≡ [] }
{
    &[]
}

/// Returns the sections of file `file`, or none if there is no such file.
pub(crate) fn sections_of<'a, 'b>(files: &'a [File<'b>], file: usize) -> &'a [Section<'b>]
    ensures { result.now ≡ sections_at files.now file }
{
    match files.get(file) {
        None => no_sections(),
        Some(file) => file.sections.as_slice(),
    }
}

/// Returns whether each mark of the section that `key` names is `mark`, if it is there.
fn is_section_key_as(files: &[File<'_>], mark: bool, key: SectionKey) -> bool
    ensures { result ≡ passes_if_there (is_section_as mark)
        (slice_get (sections_at files.now key.file_idx) key.section_idx) }
{
    match sections_of(files, key.file_idx).get(key.section_idx) {
        None => true,
        Some(section) => is_section_as(mark, section),
    }
}

/// Returns whether the mark of line `line` of `lines` is `mark`, if it is there.
fn is_line_as(mark: bool, lines: &[SectionChangedLine<'_>], line: usize) -> bool
    ensures { result ≡ passes_if_there (λ (l : Line). is_as mark l.is_checked)
        (slice_get lines.now line) }
{
    match lines.get(line) {
        None => true,
        Some(line) => is_as(mark, line.is_checked),
    }
}

/// Returns whether the mark of the line that `key` names is `mark`, if it is there.
fn is_line_key_as(files: &[File<'_>], mark: bool, key: LineKey) -> bool
    ensures { result ≡ passes_if_there (λ (l : Line). is_as mark l.is_checked)
        (slice_get (lines_at (sections_at files.now key.file_idx) key.section_idx) key.line_idx) }
{
    match sections_of(files, key.file_idx).get(key.section_idx) {
        None => true,
        Some(section) => match section {
            Section::Changed { lines } => is_line_as(mark, lines.as_slice(), key.line_idx),
            Section::Unchanged { .. } | Section::FileMode { .. } | Section::Binary { .. } => true,
        },
    }
}

/// Returns whether each mark that the key of `target` names is as `target` says. A key that names
/// nothing has no mark.
pub fn is_marked(files: &[File<'_>], target: Target) -> bool
    ensures { result ≡ is_marked files.now target }
{
    let mark = target.is_checked;
    match target.key {
        SelectionKey::None => true,
        SelectionKey::File(key) => match files.get(key.file_idx) {
            None => true,
            Some(file) => is_file_as(mark, file),
        },
        SelectionKey::Section(key) => is_section_key_as(files, mark, key),
        SelectionKey::Line(key) => is_line_key_as(files, mark, key),
    }
}

impl Deed {
    /// Returns the key that the deed selects.
    pub fn key(self) -> SelectionKey
        ensures { result ≡ key_of self }
    {
        match self {
            Deed::Mark(target) => target.key,
            Deed::Fold(key) => key,
        }
    }

    /// Returns whether the deed has something to do: its marks are not set in `files`, or its key is
    /// `expanded`.
    pub fn is_open(self, files: &[File<'_>], expanded: &KeySet) -> bool
        ensures { result ≡ is_open_deed files.now expanded.now self }
    {
        match self {
            Deed::Mark(target) => !is_marked(files, target),
            Deed::Fold(key) => expanded.contains(key),
        }
    }
}
