//! What a key names: a file, a section, a line by its change, a mode or a binary.
ghost use Rattle.std.specs.Prelude.{◌≡◌};
ghost use Rattle.std.specs.Option.{option_copied};
ghost use Rattle.scm_view_state.specs.Items.{item_kind, kind_of_changed_line, kind_of_line, kind_of_section, section_at};

use crate::view_state::ViewState;
use scm_types::{ChangeType, File, Section, SectionChangedLine};
use scm_view::SelectionKey;

/// What a key names in a state.
#[derive(Clone, Copy, Debug, PartialEq, Eq)]
pub enum ItemKind {
    /// Nothing: the state has no such file, section or line.
    Nothing,
    /// A file.
    File,
    /// A section of changed lines.
    Section,
    /// A section of context, or a line of it.
    Context,
    /// An added line.
    Added,
    /// A removed line.
    Removed,
    /// A change of the file's mode.
    Mode,
    /// A change of binary contents.
    Binary,
}

/// Returns the kind of `section`.
fn kind_of_section(section: &Section<'_>) -> ItemKind
    ensures { result ≡ kind_of_section section.now }
{
    match section {
        Section::Unchanged { .. } => ItemKind::Context,
        Section::Changed { .. } => ItemKind::Section,
        Section::FileMode { .. } => ItemKind::Mode,
        Section::Binary { .. } => ItemKind::Binary,
    }
}

/// Returns the kind of the changed line `line`.
fn kind_of_changed_line(line: &SectionChangedLine<'_>) -> ItemKind
    ensures { result ≡ kind_of_changed_line line.now }
{
    match line.change_type {
        ChangeType::Added => ItemKind::Added,
        ChangeType::Removed => ItemKind::Removed,
    }
}

/// Returns the kind of line `index` of `section`, counted from 0.
fn kind_of_line(section: &Section<'_>, index: usize) -> ItemKind
    ensures { result ≡ kind_of_line section.now index }
{
    match section {
        Section::Unchanged { lines } => {
            if index < lines.len() {
                ItemKind::Context
            } else {
                ItemKind::Nothing
            }
        }
        Section::Changed { lines } => match lines.get(index) {
            Some(line) => kind_of_changed_line(line),
            None => ItemKind::Nothing,
        },
        Section::FileMode { .. } | Section::Binary { .. } => ItemKind::Nothing,
    }
}

/// Returns section `section` of file `file`, both counted from 0, if there is one.
fn section_at<'a, 'b>(files: &'a [File<'b>], file: usize, section: usize) -> Option<&'a Section<'b>>
    ensures { option_copied result ≡ section_at files.now file section }
{
    match files.get(file) {
        Some(file) => file.sections.get(section),
        None => None,
    }
}

impl<'state> ViewState<'state> {
    /// Returns what `key` names in the state. The commit of the key does not matter.
    pub fn item_kind(&self, key: SelectionKey) -> ItemKind
        ensures { result ≡ item_kind self.now key }
    {
        let files = self.state.files.as_slice();
        match key {
            SelectionKey::None => ItemKind::Nothing,
            SelectionKey::File(key) => {
                if key.file_idx < files.len() {
                    ItemKind::File
                } else {
                    ItemKind::Nothing
                }
            }
            SelectionKey::Section(key) => match section_at(files, key.file_idx, key.section_idx) {
                Some(section) => kind_of_section(section),
                None => ItemKind::Nothing,
            },
            SelectionKey::Line(key) => match section_at(files, key.file_idx, key.section_idx) {
                Some(section) => kind_of_line(section, key.line_idx),
                None => ItemKind::Nothing,
            },
        }
    }
}
