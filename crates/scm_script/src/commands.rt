//! The commands of a script: batches of events, answers to edits, and faults.

use crate::error::PlayError;
use crate::words::{Word, read_word, words_of};
use scm_record::{RecordError, Screens, ScriptEdit, ScriptRead, TestingScreenshot};
use serde_json::Value;
use std::alloc::Global;

/// The reads, the edits and the screenshots of a script.
#[derive(Drop)]
pub struct Commands {
    /// The result of each read of the script, in order.
    pub reads: Vec<ScriptRead>,
    /// The result of each edit of the script, in order.
    pub edits: Vec<ScriptEdit>,
    /// The store of screens, with a place for each screenshot.
    pub screens: Screens,
    /// The screenshots of the script, in order.
    pub shots: Vec<TestingScreenshot>,
}

impl Commands {
    /// Returns commands without a read, an edit or a screenshot.
    pub fn new(alloc: Global) -> Commands {
        Commands {
            reads: Vec::new(alloc),
            edits: Vec::new(alloc),
            screens: Screens::new(alloc),
            shots: Vec::new(alloc),
        }
    }

    /// Adds the command on `line`, and returns whether there is one.
    ///
    /// # Errors
    /// `Fault`: an allocation failed; the batch may have taken places in the store.
    pub fn add(&mut self, alloc: Global, line: &str) -> Result<bool, PlayError> {
        let line = line.trim_start_matches(' ');
        if let Some(text) = line.strip_prefix("answer ") {
            return self.add_answer(alloc, text);
        }
        if let Some(rest) = line.strip_prefix("fault ") {
            return self.add_fault(alloc, rest.trim_start_matches(' '));
        }
        let words = words_of(alloc, line)?;
        match words.as_slice() {
            ["batch", words @ ..] => self.add_batch(alloc, words),
            _ => Ok(false),
        }
    }

    /// Adds an answer with `text`, a JSON string, and returns whether it is one.
    fn add_answer(&mut self, alloc: Global, text: &str) -> Result<bool, PlayError> {
        let value = match Value::from_str(alloc, text) {
            Ok(value) => value,
            Err(error) if error.is_memory() => {
                return Err(PlayError::Fault(RecordError::OutOfMemory));
            }
            Err(_) => return Ok(false),
        };
        let Some(answer) = value.as_str() else {
            return Ok(false);
        };
        let answer = String::from_str(alloc, answer)?;
        self.edits.push(ScriptEdit::Answer(answer))?;
        Ok(true)
    }

    /// Adds a fault from `rest`, the line after the word `fault`, and returns whether it is one. `rest` is `read TEXT` or
    /// `edit TEXT`.
    fn add_fault(&mut self, alloc: Global, rest: &str) -> Result<bool, PlayError> {
        if let Some(text) = rest.strip_prefix("read ") {
            let text = String::from_str(alloc, text)?;
            self.reads.push(ScriptRead::Fault(text))?;
            return Ok(true);
        }
        if let Some(text) = rest.strip_prefix("edit ") {
            let text = String::from_str(alloc, text)?;
            self.edits.push(ScriptEdit::Fault(text))?;
            return Ok(true);
        }
        Ok(false)
    }

    /// Adds a batch with the events of `words`, and returns whether each word has a meaning. Each screenshot gets the next
    /// place in the store.
    fn add_batch(&mut self, alloc: Global, words: &[&str]) -> Result<bool, PlayError> {
        let mut events = Vec::new(alloc);
        for word in words {
            match read_word(word) {
                Some(Word::Event(event)) => events.push(event)?,
                Some(Word::Shot) => {
                    let shot = self.screens.place()?;
                    self.shots.push(shot)?;
                    events.push(shot.event())?;
                }
                None => return Ok(false),
            }
        }
        self.reads.push(ScriptRead::Batch(events))?;
        Ok(true)
    }
}
