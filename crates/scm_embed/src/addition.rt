//! What a program adds to a state, and why an addition is refused.

use scm_types::{ChangeType, FileMode, Text};

/// What a call adds to a state.
#[derive(Drop)]
pub enum Addition<'t> {
    /// A commit.
    Commit {
        /// The message, or `None` if there is nothing to edit.
        message: Option<Text<'t>>,
    },

    /// A file without sections. Later parts go to it.
    File {
        /// The path before a rename or a copy.
        old_path: Option<Text<'t>>,

        /// The path.
        path: Text<'t>,

        /// The mode before the changes.
        file_mode: FileMode,
    },

    /// A part of the last file.
    Part {
        /// The part.
        part: Part<'t>,
    },
}

/// What a call adds to the last file of a state.
#[derive(Drop)]
pub enum Part<'t> {
    /// Context lines. They go to the file's last section if it has context lines, or else begin a
    /// section. Without a line nothing is added.
    Context {
        /// The lines, each with its line end. The last one may lack it.
        text: Text<'t>,
    },

    /// Changed lines with one mark. They go to the file's last section if it has changed lines, or
    /// else begin a section. Without a line nothing is added.
    Changes {
        /// Whether the changes are selected.
        is_checked: bool,

        /// Whether the lines were added or removed.
        change_type: ChangeType,

        /// The lines, each with its line end. The last one may lack it.
        text: Text<'t>,
    },

    /// One context line, which is the whole text: it may be empty, have line ends inside, or lack one
    /// at its end. It goes where the lines of `Context` go.
    ContextLine {
        /// The line.
        line: Text<'t>,
    },

    /// One changed line, which is the whole text, as in `ContextLine`. It goes where the lines of
    /// `Changes` go.
    ChangedLine {
        /// Whether the change is selected.
        is_checked: bool,

        /// Whether the line was added or removed.
        change_type: ChangeType,

        /// The line.
        line: Text<'t>,
    },

    /// A section without lines: of changed lines if `is_changed`, or else of context lines.
    Lines {
        /// Whether later changed lines go to the section, or later context lines.
        is_changed: bool,
    },

    /// A section that changes the file's mode.
    Mode {
        /// Whether the change is selected.
        is_checked: bool,

        /// The mode after the change.
        mode: FileMode,
    },

    /// A section that changes binary contents.
    Binary {
        /// Whether the change is selected.
        is_checked: bool,

        /// The text shown for the old contents.
        old_description: Option<Text<'t>>,

        /// The text shown for the new contents.
        new_description: Option<Text<'t>>,
    },
}

/// Why an addition is refused.
#[derive(Clone, Copy, Debug, PartialEq, Eq)]
pub enum BuildError {
    /// The state has no file for the part.
    NoFile,

    /// A text or a line has more than [`RecordState::MAX_TEXT`](scm_types::RecordState::MAX_TEXT)
    /// bytes.
    TooLong,

    /// The state has two commits already.
    TooManyCommits,

    /// An allocation failed.
    OutOfMemory,
}
