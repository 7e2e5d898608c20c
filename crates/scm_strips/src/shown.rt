//! What a row of a document shows.

use scm_types::{ChangeType, FileKey, FileMode, LineKey, Text};
use scm_widgets::ids::ComponentId;
use scm_widgets::tristate_box::TristateBox;

/// What a row of a document shows, as references into the state: no text is made for it.
#[derive(Drop)]
pub enum Shown<'a> {
    /// The header of a file.
    File {
        /// Key of the file.
        key: FileKey,
        /// Checkbox of the file.
        toggle_box: TristateBox<ComponentId>,
        /// Fold box of the file.
        expand_box: TristateBox<ComponentId>,
        /// Path before the change, if the file was renamed.
        old_path: Option<&'a str>,
        /// Path of the file.
        path: &'a str,
    },
    /// The header of a section of changed lines.
    Section {
        /// Whether the section itself is selected.
        is_selected: bool,
        /// Checkbox of the section.
        toggle_box: TristateBox<ComponentId>,
        /// Fold box of the section.
        expand_box: TristateBox<ComponentId>,
        /// Number of the section among the file's editable sections, counted from 1.
        number: usize,
        /// Number of editable sections of the file.
        total: usize,
    },
    /// A changed line.
    Line {
        /// Key of the line.
        key: LineKey,
        /// Checkbox of the line.
        toggle_box: TristateBox<ComponentId>,
        /// Whether it was added or removed.
        change_type: ChangeType,
        /// The line, with its line end.
        line: &'a str,
    },
    /// A change of file mode.
    Mode {
        /// Whether the section is selected.
        is_selected: bool,
        /// Checkbox of the section.
        toggle_box: TristateBox<ComponentId>,
        /// The new mode.
        mode: FileMode,
    },
    /// A change of binary contents.
    Binary {
        /// Whether the section is selected.
        is_selected: bool,
        /// Checkbox of the section.
        toggle_box: TristateBox<ComponentId>,
        /// Description of the contents before the change.
        old_description: &'a Option<Text<'a>>,
        /// Description of the contents after the change.
        new_description: &'a Option<Text<'a>>,
    },
    /// A line of context.
    Context {
        /// Key of the line.
        key: LineKey,
        /// Number of the line in the file before the changes, counted from 1.
        number: usize,
        /// The line, with its line end.
        line: &'a str,
    },
    /// The dots that replace hidden lines of context.
    Dots {
        /// Whether symbols beyond ASCII may be used.
        use_unicode: bool,
    },
    /// The only row of a section of context without lines.
    Blank,
    /// The row of a message: the button that edits it, and its first line.
    Message {
        /// Index of the commit, counted from 0.
        commit: usize,
        /// The whole message.
        message: &'a str,
    },
    /// The row above or below the row of a message.
    Margin,
    /// The empty-state text of a document without files.
    Words,
}
