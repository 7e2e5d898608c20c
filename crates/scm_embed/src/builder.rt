//! A state that a program makes by calls.
ghost use Rattle.std.specs.Prelude.{◌≡◌, IfErr, None, OnErr, OnOk};
ghost use Rattle.scm_types.specs.Limits.{is_accepted_state};
ghost use Rattle.scm_embed.specs.Additions.{Refuses, after_addition, empty_state, refusal_of, with_file};
ghost use Rattle.scm_embed.specs.Marked.{after_marks, fits_marks};

use crate::add::add_to;
use crate::addition::{Addition, BuildError};
use crate::lists::push_item;
use crate::marked::set_marks;
use crate::refusals::refusal_of;
use crate::trim::trimmed_state;
use scm_types::{File, Items, RecordState};
use std::alloc::{AllocError, Global};
use std::marker::Model;

/// A state that a program makes by calls. Contracts see it as the state so far.
#[derive(Drop)]
pub struct StateBuilder {
    /// The state so far.
    state: RecordState<'static>,
}

impl Model for StateBuilder {
    ghost use Rattle.scm_types.specs.declared.state.RecordState.{RecordState};

    ghost Value = { RecordState };

    ghost view = { λ builder. builder.state };
}

impl StateBuilder {
    /// Returns a state without commits and files. It takes no memory.
    pub fn new(alloc: Global, is_read_only: bool) -> StateBuilder
        ensures { result ≡ empty_state is_read_only }
    {
        StateBuilder {
            state: RecordState {
                is_read_only,
                commits: Items::new(alloc),
                files: Items::new(alloc),
            },
        }
    }

    /// Adds `addition` to the state. Its texts are copied.
    ///
    /// # Errors
    ///
    /// Each leaves the state as it was.
    ///
    /// - `NoFile`: the addition is a part, and the state has no file.
    /// - `TooLong`: a text or a line has more than [`RecordState::MAX_TEXT`] bytes.
    /// - `TooManyCommits`: the addition is a commit, and the state has two.
    /// - `OutOfMemory`: an allocation failed.
    pub fn add(&mut self, alloc: Global, addition: Addition<'_>) -> Result<(), BuildError>
        ensures ok { OnOk result (self.new ≡ after_addition addition.entry self.old) }
        ensures good { OnOk result (refusal_of addition.entry self.old ≡ None) }
        ensures unchanged { OnErr result (self.new ≡ self.old) }
        ensures err { IfErr result (λ error. Refuses (refusal_of addition.entry self.old) error) }
    {
        if let Some(error) = refusal_of(&self.state, &addition) {
            return Err(error);
        }
        match add_to(alloc, &mut self.state, addition) {
            Ok(()) => Ok(()),
            Err(_) => Err(BuildError::OutOfMemory),
        }
    }

    /// Adds `file` as it is, whatever the limits are: a state that passes one is not accepted.
    ///
    /// # Errors
    /// `AllocError`: an allocation failed; the state is unchanged.
    pub fn push_file(&mut self, alloc: Global, file: File<'static>) -> Result<(), AllocError>
        ensures ok { OnOk result (self.new ≡ with_file file.entry self.old) }
        ensures unchanged { OnErr result (self.new ≡ self.old) }
    {
        push_item(alloc, &mut self.state.files, file)
    }

    /// Sets the marks of file `file`, counted from 0, to `marks`: a byte for each of its items, in
    /// order, 1 for a checked one. An item is a changed line, or a change of the mode or of binary
    /// contents. No allocation is made.
    ///
    /// Returns whether there is such a file with as many items. If not, the state is unchanged.
    pub fn set_marks(&mut self, file: usize, marks: &[u8]) -> bool
        ensures fits { result ≡ fits_marks file marks.now self.old }
        ensures set { self.new ≡ after_marks file marks.now self.old }
    {
        set_marks(&mut self.state, file, marks)
    }

    /// Returns the state so far.
    pub fn state(&self) -> &RecordState<'static>
        ensures { result.now ≡ self.now }
    {
        &self.state
    }

    /// Returns whether the state is within the limits.
    pub fn is_accepted(&self) -> bool
        ensures { result ≡ is_accepted_state self.now }
    {
        self.state.is_accepted()
    }

    /// Returns the state. Its lists keep no room for more, as far as memory can be had.
    pub fn into_state(self) -> RecordState<'static>
        ensures { result ≡ self }
    {
        let StateBuilder { state } = self;
        trimmed_state(state)
    }
}
