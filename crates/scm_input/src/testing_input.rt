//! An input with a list of events and messages.
ghost use Rattle.std.specs.Prelude.{◌≡◌};

use crate::events::Event;
use crate::inputs::{RecordInput, TerminalKind};
use scm_types::RecordError;
use std::alloc::Global;
use std::collections::VecDeque;

/// An input that returns its events one by one, and its messages in order.
#[derive(Drop)]
pub struct TestingInput {
    /// The width of the screen, in columns.
    pub width: usize,
    /// The height of the screen, in rows.
    pub height: usize,
    /// The remaining events, each of which is a batch. If none is left, each batch is one
    /// `Event::None`.
    pub events: VecDeque<Event>,
    /// The remaining messages that edits return. If none is left, an edit fails.
    pub commit_messages: VecDeque<String>,
}

impl TestingInput {
    ghost use Rattle.std.specs.Prelude.{◌≡◌, IsOk, IfOk, []};

    /// Returns an input of `events`, without messages, for a screen of `width` columns and `height`
    /// rows.
    ///
    /// # Errors
    /// None: it always succeeds.
    pub fn new(
        alloc: Global,
        width: usize,
        height: usize,
        events: Vec<Event>,
    ) -> Result<TestingInput, RecordError>
        ensures ok { IsOk result }
        ensures screen { IfOk result (λ i. (i.width ≡ width) × (i.height ≡ height)) }
        ensures events { IfOk result (λ i. i.events.items ≡ events.items) }
        ensures messages { IfOk result (λ i. i.commit_messages.items ≡ []) }
    {
        Ok(TestingInput {
            width,
            height,
            events: VecDeque::from(events),
            commit_messages: VecDeque::new(alloc),
        })
    }
}

impl RecordInput for TestingInput {
    ghost use Rattle.std.specs.Prelude.{◌≡◌, ◌<◌, List, IfErr, IfOk, OnErr, drop, length, map, IsOk};
    ghost use Rattle.scm_errors.specs.declared.error.RecordError.TheVariants.{OutOfMemory};
    ghost use Rattle.scm_input.specs.Script.{Read, Reply, Replies, Takes, read_of, edit_of};
    ghost use Rattle.scm_input.specs.TestingInput.{kind_of, single_events, answers, first_batch};

    ghost kind = { λ i. kind_of i.width i.height };

    ghost reads = { λ i. single_events i.events.items };

    ghost edits = { λ i. answers i.commit_messages.items };

    fn terminal_kind(&self) -> TerminalKind {
        TerminalKind::Testing {
            width: self.width,
            height: self.height,
        }
    }

    fn batches_left(&self) -> usize {
        self.events.len()
    }

    /// Returns a batch of the next event alone, or of `Event::None` after the last one.
    fn next_events(&mut self) -> Result<Vec<Event>, RecordError>
        ensures read { Takes (read_of result)
            (single_events self.old.events.items) (single_events self.new.events.items) }
        ensures edits { answers self.new.commit_messages.items
            ≡ answers self.old.commit_messages.items }
        ensures kind { kind_of self.new.width self.new.height
            ≡ kind_of self.old.width self.old.height }
        ensures batch { IfOk result (λ batch. batch.items ≡ first_batch self.old.events.items) }
        ensures err { IfErr result (λ e. e ≡ OutOfMemory) }
    {
        let event = self.events.front().copied().unwrap_or(Event::None);
        let batch = vec![in *self.events.allocator(); event]?;
        let _ = self.events.pop_front();
        Ok(batch)
    }

    /// Returns the next message, and after the last one
    /// `Other("No more commit messages available")`.
    fn edit_commit_message(&mut self, message: &str) -> Result<String, RecordError>
        ensures edit { Replies message.now (edit_of result)
            (answers self.old.commit_messages.items) (answers self.new.commit_messages.items) }
        ensures reads { single_events self.new.events.items ≡ single_events self.old.events.items }
        ensures kind { kind_of self.new.width self.new.height
            ≡ kind_of self.old.width self.old.height }
        ensures answers { 0 < length self.old.commit_messages.items → IsOk result }
    {
        match self.commit_messages.pop_front() {
            Some(message) => Ok(message),
            None => Err(RecordError::Other(String::from_str(
                *self.events.allocator(),
                "No more commit messages available",
            )?)),
        }
    }
}
