//! An input of your own, for events that do not come from a list.
//!
//! An input is a script that is known before the run: what each read and each edit will return does
//! not depend on what the screens show. The three ghost members say what that script is, and the
//! methods have to return it. So a run over the input is the run of that script. A source fits if
//! its answers do not depend on the run: a list, a file that is read before, a recording. A person
//! who looks at each screen does not fit, and neither does a program that looks at its own state:
//! they drive a `LiveSession`, whose calls are those of a run too.
ghost use Rattle.std.specs.Prelude.{IfOk, IsTrue};
ghost use Rattle.scm_record.specs.Limits.{is_accepted_state};
ghost use Rattle.scm_record.specs.Keeping.{IsKept};

use scm_record::{Event, RecordError, RecordInput, RecordState, Recorder, Screens, TerminalKind};
use std::alloc::Global;
use std::collections::VecDeque;

/// The screen's columns.
const WIDTH: usize = 80;

/// The screen's rows.
const HEIGHT: usize = 24;

/// The keys of a user without an editor, each in its own batch.
#[derive(Drop)]
pub struct Keys {
    /// The events that are left.
    pub events: VecDeque<Event>,
}

impl RecordInput for Keys {
    ghost use Rattle.std.specs.Prelude.{[]};
    ghost use Rattle.scm_record.specs.TestingInput.{kind_of, single_events};

    /// The screen's size, which stays the same for the whole run.
    ghost kind = { λ _. kind_of 80 24 };

    /// What the reads will return, in order. A read removes the first of them, so `batches_left` is
    /// their number. Past the last one a read may return anything.
    ghost reads = { λ keys. single_events keys.events.items };

    /// What the edits will make of a message, in order. Here there are none, so each edit returns
    /// the fault that follows the last one.
    ghost edits = { λ _. [] };

    fn terminal_kind(&self) -> TerminalKind {
        TerminalKind::Testing {
            width: WIDTH,
            height: HEIGHT,
        }
    }

    fn batches_left(&self) -> usize {
        self.events.len()
    }

    fn next_events(&mut self) -> Result<Vec<Event>, RecordError> {
        let event = self.events.front().copied().unwrap_or(Event::None);
        let batch = vec![in *self.events.allocator(); event]?;
        let _ = self.events.pop_front();
        Ok(batch)
    }

    fn edit_commit_message(&mut self, _message: &str) -> Result<String, RecordError> {
        let alloc = *self.events.allocator();
        Err(RecordError::Other(String::from_str(alloc, "No more commit messages available")?))
    }
}

/// Runs `keys` on `state` and returns the state as the user marked it.
pub fn record_keys<'a>(
    alloc: Global,
    state: RecordState<'a>,
    keys: Vec<Event>,
) -> Result<RecordState<'a>, RecordError>
    requires { IsTrue (is_accepted_state state) }
    ensures kept { IfOk result (λ marked. IsKept state.entry marked) }
{
    let mut input = Keys {
        events: VecDeque::from(keys),
    };
    let mut screens = Screens::new(alloc);
    Recorder::new(alloc, state)?.run(&mut input, &mut screens)
}
