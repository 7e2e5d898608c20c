//! Rows of each kind.
use scm_strips::Shown;
use scm_types::{ChangeType, FileKey, FileMode, LineKey, SectionKey, SelectionKey, Tristate};
use scm_widgets::ids::ComponentId;
use scm_widgets::tristate_box::TristateBox;

/// The file of the rows, its first section, and the first line of that.
pub(crate) const FILE: FileKey = FileKey {
    commit_idx: 1,
    file_idx: 0,
};

pub(crate) const SECTION: SectionKey = SectionKey {
    commit_idx: 1,
    file_idx: 0,
    section_idx: 0,
};

pub(crate) const LINE: LineKey = LineKey {
    commit_idx: 1,
    file_idx: 0,
    section_idx: 0,
    line_idx: 0,
};

/// What a row shows.
#[derive(Clone, Copy)]
pub(crate) enum What {
    /// The header of a file with this path.
    File(&'static str),
    /// The header of a renamed file: its old path and its path.
    Renamed(&'static str, &'static str),
    /// The header of a section: its number among as many, both counted from 1.
    Section(usize, usize),
    /// An added line.
    Added(&'static str),
    /// A file that is deleted.
    Deleted,
    /// A line of context with its number.
    Context(usize, &'static str),
    /// The dots.
    Dots,
    /// The row of a section without lines.
    Blank,
    /// A message.
    Message(&'static str),
    /// The row above a message.
    Margin,
    /// The empty-state text.
    Words,
}

/// Returns the checkbox of `key`, which is not checked.
fn unchecked(key: SelectionKey) -> TristateBox<ComponentId> {
    TristateBox::toggle(key, Tristate::False)
}

/// Returns the header of a file.
fn header(old_path: Option<&'static str>, path: &'static str) -> Shown<'static> {
    let key = SelectionKey::File(FILE);
    Shown::File {
        key: FILE,
        toggle_box: unchecked(key),
        expand_box: TristateBox::expand(key, Tristate::True),
        old_path,
        path,
    }
}

/// Returns the header of section `number` of `total`, which is checked.
fn section(number: usize, total: usize) -> Shown<'static> {
    let key = SelectionKey::Section(SECTION);
    Shown::Section {
        is_selected: false,
        toggle_box: TristateBox::toggle(key, Tristate::True),
        expand_box: TristateBox::expand(key, Tristate::False),
        number,
        total,
    }
}

/// Returns the row that shows `what`.
pub(crate) fn shown(what: What) -> Shown<'static> {
    match what {
        What::File(path) => header(None, path),
        What::Renamed(old_path, path) => header(Some(old_path), path),
        What::Section(number, total) => section(number, total),
        What::Added(line) => Shown::Line {
            key: LINE,
            toggle_box: unchecked(SelectionKey::Line(LINE)),
            change_type: ChangeType::Added,
            line,
        },
        What::Deleted => Shown::Mode {
            is_selected: false,
            toggle_box: unchecked(SelectionKey::Section(SECTION)),
            mode: FileMode::Absent,
        },
        What::Context(number, line) => Shown::Context {
            key: LINE,
            number,
            line,
        },
        What::Dots => Shown::Dots { use_unicode: true },
        What::Blank => Shown::Blank,
        What::Message(message) => Shown::Message { commit: 1, message },
        What::Margin => Shown::Margin,
        What::Words => Shown::Words,
    }
}
