//! An input that copies what it returns, and keeps the message that it is asked to edit.
use scm_record::{Event, RecordError, RecordInput, TerminalKind};
use std::alloc::Global;
use std::collections::VecDeque;

/// An input of single events and of answers. Each read and each edit returns a copy, so each of them
/// allocates.
#[derive(Drop)]
pub(crate) struct Copying {
    /// The screen's columns.
    pub(crate) width: usize,
    /// The screen's rows.
    pub(crate) height: usize,
    /// The events that are left, each a batch of its own.
    pub(crate) events: VecDeque<Event>,
    /// The answers that are left.
    pub(crate) answers: VecDeque<String>,
    /// The message of the last edit.
    pub(crate) asked: Option<String>,
}

impl Copying {
    /// Returns an input of `events` and no answers, on `width` columns and `height` rows.
    pub(crate) fn new(
        alloc: Global,
        width: usize,
        height: usize,
        events: &[Event],
    ) -> Result<Copying, RecordError> {
        Ok(Copying {
            width,
            height,
            events: VecDeque::from(Vec::from_slice(alloc, events)?),
            answers: VecDeque::new(alloc),
            asked: None,
        })
    }
}

impl RecordInput for Copying {
    ghost use Rattle.scm_record.specs.TestingInput.{answers, kind_of, single_events};

    ghost kind = { λ i. kind_of i.width i.height };

    ghost reads = { λ i. single_events i.events.items };

    ghost edits = { λ i. answers i.answers.items };

    fn terminal_kind(&self) -> TerminalKind {
        TerminalKind::Testing {
            width: self.width,
            height: self.height,
        }
    }

    fn batches_left(&self) -> usize {
        self.events.len()
    }

    fn next_events(&mut self) -> Result<Vec<Event>, RecordError> {
        let event = self.events.front().copied().unwrap_or(Event::None);
        let batch = vec![in *self.events.allocator(); event]?;
        let _ = self.events.pop_front();
        Ok(batch)
    }

    fn edit_commit_message(&mut self, message: &str) -> Result<String, RecordError> {
        let alloc = *self.events.allocator();
        self.asked = Some(String::from_str(alloc, message)?);
        match self.answers.front() {
            Some(answer) => {
                let answer = String::from_str(alloc, answer.as_str())?;
                let _ = self.answers.pop_front();
                Ok(answer)
            }
            None => Err(RecordError::Other(String::from_str(
                alloc,
                "No more commit messages available",
            )?)),
        }
    }
}
