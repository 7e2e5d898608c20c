//! The source of a recorder's events and edited messages.
ghost use Rattle.std.specs.Prelude.{◌≡◌, List, length};
ghost use Rattle.scm_input.specs.Script.{Read, Reply, Replies, Takes, read_of, edit_of};
ghost use Rattle.scm_input.specs.declared.inputs.TerminalKind.{TerminalKind};

use crate::events::Event;
use scm_types::RecordError;

/// The screen that a recorder draws to.
#[derive(Clone, Copy, Debug, PartialEq, Eq)]
pub enum TerminalKind {
    /// A screen in memory.
    Testing {
        /// The width, in columns.
        width: usize,
        /// The height, in rows.
        height: usize,
    },
}

/// The source of a recorder's events and edited messages.
///
/// An input follows a script. Each read returns and removes the first of its reads. Each edit
/// removes the first of its edits, and returns what that edit makes of the given message.
///
/// No fault of a script is `OutOfMemory`. If an allocation fails, a call returns `OutOfMemory` and
/// leaves the script unchanged.
pub trait RecordInput {
    /// The screen to draw to, always the same.
    ghost kind: { Self → TerminalKind };

    /// The remaining reads.
    ghost reads: { Self → List Read };

    /// The remaining edits, each a function of the message.
    ghost edits: { Self → List Reply };

    /// Returns the screen to draw to.
    fn terminal_kind(&self) -> TerminalKind
        ensures { result ≡ kind self.now };

    /// Returns the number of remaining reads.
    fn batches_left(&self) -> usize
        ensures { result ≡ length (reads self.now) };

    /// Returns the next batch of events.
    ///
    /// # Errors
    /// The fault that the script has in place of the batch.
    /// `OutOfMemory`: an allocation failed; the script is unchanged.
    fn next_events(&mut self) -> Result<Vec<Event>, RecordError>
        ensures read { Takes (read_of result) (reads self.old) (reads self.new) }
        ensures edits { edits self.new ≡ edits self.old }
        ensures kind { kind self.new ≡ kind self.old };

    /// Returns the edited `message` of a commit.
    ///
    /// # Errors
    /// The fault that the script has in place of the edit.
    /// `OutOfMemory`: an allocation failed; the script is unchanged.
    fn edit_commit_message(&mut self, message: &str) -> Result<String, RecordError>
        ensures edit { Replies message.now (edit_of result) (edits self.old) (edits self.new) }
        ensures reads { reads self.new ≡ reads self.old }
        ensures kind { kind self.new ≡ kind self.old };
}
