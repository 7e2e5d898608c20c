//! An input with a script of batches, answers and faults.
use crate::events::Event;
use crate::inputs::{RecordInput, TerminalKind};
use scm_types::RecordError;
use std::alloc::Global;
use std::collections::VecDeque;

/// A read of a script.
#[derive(Drop)]
pub enum ScriptRead {
    /// The events of a batch, which can be empty.
    Batch(Vec<Event>),
    /// A failure with `ReadInput` and this text.
    Fault(String),
}

/// An edit of a script.
#[derive(Drop)]
pub enum ScriptEdit {
    /// The message that the edit returns.
    Answer(String),
    /// A failure with `Other` and this text.
    Fault(String),
}

/// An input that returns its reads and edits in order, each once.
///
/// If no reads are left, a read fails with `ReadInput("no events left")`. If no edits are left, an
/// edit fails with `Other("No more commit messages available")`. If an allocation for these texts
/// fails, the script is unchanged.
#[derive(Drop)]
pub struct ScriptInput {
    /// The allocator for the texts of faults.
    alloc: Global,
    /// The width of the screen, in columns.
    width: usize,
    /// The height of the screen, in rows.
    height: usize,
    /// The remaining reads.
    reads: VecDeque<ScriptRead>,
    /// The remaining edits.
    edits: VecDeque<ScriptEdit>,
}

impl ScriptInput {
    ghost use Rattle.std.specs.Prelude.{◌≡◌, IsOk, IfOk, length};

    /// Returns an input of `reads` and `edits` for a screen of `width` columns and `height` rows.
    ///
    /// # Errors
    /// None: it always succeeds.
    pub fn new(
        alloc: Global,
        width: usize,
        height: usize,
        reads: Vec<ScriptRead>,
        edits: Vec<ScriptEdit>,
    ) -> Result<ScriptInput, RecordError>
        ensures ok { IsOk result }
        ensures screen { IfOk result (λ i. (i.width ≡ width) × (i.height ≡ height)) }
        ensures reads { IfOk result (λ i. i.reads.items ≡ reads.items) }
        ensures edits { IfOk result (λ i. i.edits.items ≡ edits.items) }
    {
        Ok(ScriptInput {
            alloc,
            width,
            height,
            reads: VecDeque::from(reads),
            edits: VecDeque::from(edits),
        })
    }

    /// Returns the number of edits that the script still has.
    pub fn edits_left(&self) -> usize
        ensures { result ≡ length self.now.edits.items }
    {
        self.edits.len()
    }
}

impl RecordInput for ScriptInput {
    ghost use Rattle.std.specs.Prelude.{◌≡◌, List, IfErr, IfOk};
    ghost use Rattle.scm_input.specs.Script.{Read, Reply, BrokenRead, Replies, TakesOr, no_events_left, read_of, edit_of};
    ghost use Rattle.scm_input.specs.TestingInput.{kind_of};
    ghost use Rattle.scm_input.specs.ScriptInput.{edits_in, reads_in};

    ghost kind = { λ i. kind_of i.width i.height };

    ghost reads = { λ i. reads_in i.reads.items };

    ghost edits = { λ i. edits_in i.edits.items };

    fn terminal_kind(&self) -> TerminalKind {
        TerminalKind::Testing {
            width: self.width,
            height: self.height,
        }
    }

    fn batches_left(&self) -> usize {
        self.reads.len()
    }

    /// Returns the next batch or its fault, and after the last one `ReadInput("no events left")`.
    fn next_events(&mut self) -> Result<Vec<Event>, RecordError>
        ensures read { TakesOr (BrokenRead no_events_left) (read_of result)
            (reads_in self.old.reads.items) (reads_in self.new.reads.items) }
        ensures edits { edits_in self.new.edits.items ≡ edits_in self.old.edits.items }
        ensures kind { kind_of self.new.width self.new.height
            ≡ kind_of self.old.width self.old.height }
    {
        match self.reads.pop_front() {
            Some(ScriptRead::Batch(events)) => Ok(events),
            Some(ScriptRead::Fault(text)) => Err(RecordError::ReadInput(text)),
            None => Err(RecordError::ReadInput(String::from_str(self.alloc, "no events left")?)),
        }
    }

    /// Returns the next answer or its fault, and after the last one
    /// `Other("No more commit messages available")`.
    fn edit_commit_message(&mut self, message: &str) -> Result<String, RecordError>
        ensures edit { Replies message.now (edit_of result)
            (edits_in self.old.edits.items) (edits_in self.new.edits.items) }
        ensures reads { reads_in self.new.reads.items ≡ reads_in self.old.reads.items }
        ensures kind { kind_of self.new.width self.new.height
            ≡ kind_of self.old.width self.old.height }
    {
        match self.edits.pop_front() {
            Some(ScriptEdit::Answer(text)) => Ok(text),
            Some(ScriptEdit::Fault(text)) => Err(RecordError::Other(text)),
            None => Err(RecordError::Other(String::from_str(
                self.alloc,
                "No more commit messages available",
            )?)),
        }
    }
}
