//! The messages of commits, and the request to edit one.
ghost use Rattle.std.specs.Prelude.{◌≡◌, string_bytes};
ghost use Rattle.scm_types.specs.Edits.{modify};
ghost use Rattle.scm_record.specs.Session.{commit_with_message};

use super::{ActiveSession, Flow};
use scm_input::Event;
use scm_types::{Commit, OwnedText};
use std::alloc::AllocError;

/// Sets the message of the commit at `index` to `text`. If there is no such commit, this is a
/// no-op.
fn set_message(commits: &mut [Commit], index: usize, text: String)
    ensures { commits.new ≡ modify (commit_with_message (string_bytes text)) commits.old index }
{
    if index < commits.len() {
        commits[index].message = Some(OwnedText::from(text));
    }
}

impl<'state> ActiveSession<'state> {
    ghost use Rattle.std.specs.Prelude.{◌≡◌, IfOk, is_some, string_bytes};
    ghost use Rattle.scm_record.specs.Session.{message_of, message_text, with_message};
    ghost use Rattle.scm_record.specs.Messages.{after_edit_request};

    /// Returns the message of the commit at index `commit`, or an empty text if it has none.
    pub(crate) fn message(&self, commit: usize) -> &str
        ensures { result.now ≡ message_text self.now commit }
    {
        match self.view_state.state.commits.as_slice().get(commit) {
            Some(
                Commit {
                    message: Some(message),
                },
            ) => message.as_str(),
            _ => "",
        }
    }

    /// Sets the message of the commit at index `commit` to `text`.
    pub(crate) fn set_message(&mut self, commit: usize, text: String)
        ensures { self.new ≡ with_message self.old commit (string_bytes text) }
    {
        set_message(self.view_state.state.commits.as_mut_slice(), commit, text);
        self.frame_rows.forget();
        self.layout.restack(&self.view_state.state);
    }

    /// Returns whether the commit at index `commit` has a message.
    fn has_message(&self, commit: usize) -> bool
        ensures { result ≡ is_some (message_of self.now commit) }
    {
        self.view_state
            .state
            .commits
            .as_slice()
            .get(commit)
            .is_some_and(|commit| commit.message.is_some())
    }

    /// Pushes `Redraw`, and returns the request to edit the message of the commit at index
    /// `commit`, if it has one.
    pub(super) fn edit_message(&mut self, commit: usize) -> Result<Flow, AllocError>
        ensures { IfOk result (λ flow. after_edit_request self.old commit
            ≡ record { session = self.new; flow = flow }) }
    {
        self.push(Event::Redraw)?;
        if self.has_message(commit) {
            Ok(Flow::Edit(commit))
        } else {
            Ok(Flow::GoOn)
        }
    }
}
