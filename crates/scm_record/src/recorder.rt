//! The recorder: a session that runs on an input until it ends.

use crate::frame::DrawnFrame;
use crate::runs::run_to_end;
use crate::session::ActiveSession;
use scm_input::{RecordInput, Screens};
use scm_types::{RecordError, RecordState};
use std::alloc::Global;
use std::marker::Model;

/// A session in which a user selects changes, before its run. (A `LiveSession` is driven by a
/// program instead, event by event.)
#[derive(Drop)]
pub struct Recorder<'state> {
    /// The session.
    session: ActiveSession<'state>,
}

impl<'state> Model for Recorder<'state> {
    ghost use Rattle.scm_record.specs.Session.{Session, IsDrawable};

    ghost Value = { Session };

    ghost view = { λ r. r.session };

    ghost invariant = { λ r. IsDrawable r.session };
}

impl<'state> Recorder<'state> {
    ghost use Rattle.std.specs.Prelude.{◌≡◌, ℕ, IfErr, IfOk, IsTrue, None};
    ghost use Rattle.scm_errors.specs.declared.error.RecordError.TheVariants.{OutOfMemory};
    ghost use Rattle.scm_types.specs.declared.state.RecordState.{RecordState};
    ghost use Rattle.scm_types.specs.Limits.{is_accepted_state};
    ghost use Rattle.scm_input.specs.declared.events.Event.{Event};
    ghost use Rattle.scm_record.specs.Session.{IsDrawable, Session, message_of, start};
    ghost use Rattle.scm_record.specs.Run.{Before, HasOneEnd, World, setting, world_in};
    ghost use Rattle.scm_record.specs.Ending.{EndsWith, FailsWith};
    ghost use Rattle.scm_record.specs.Keeping.{IsKept};
    ghost use Rattle.scm_record.specs.StepCoherence.{StepKeepsCoherent};
    ghost use Rattle.scm_record.specs.Headline.{Headline};

    /// Creates a session over `state`, with commits without a message added up to two.
    ///
    /// The first file is selected, and each section that is more than context is expanded. The
    /// state has to be within the limits of [`RecordState::is_accepted`].
    ///
    /// # Errors
    ///
    /// - `OutOfMemory`: an allocation failed; the state is dropped.
    pub fn new(alloc: Global, state: RecordState<'state>) -> Result<Recorder<'state>, RecordError>
        requires { IsTrue (is_accepted_state state) }
        ensures ok { IfOk result (λ recorder. recorder ≡ start state.entry) }
        ensures err { IfErr result (λ e. e ≡ OutOfMemory) }
    {
        let session = ActiveSession::new(alloc, state)?;
        Ok(Recorder { session })
    }

    /// Runs the session on `input` until the user accepts or cancels, and returns the state.
    ///
    /// Each turn draws a frame, and then handles all pending events in order. If none is pending,
    /// it handles the next batch of `input`. Screenshots are kept in `screens`.
    ///
    /// # Errors
    ///
    /// An error ends the run at once. The state is dropped; `screens` keeps the screenshots taken.
    ///
    /// - `Cancelled`: the user cancelled.
    /// - `ReadInput("no events left")`: a batch is due, and `input` has none left.
    /// - `Other("no such screenshot place")`: `screens` lacks the place of a screenshot.
    /// - `Other("commit message too long")`: an edited message has more than 1,000,000 bytes.
    /// - `OutOfMemory`: an allocation failed.
    /// - any other: the fault of `input`.
    pub fn run(
        self,
        input: &mut dyn RecordInput,
        screens: &mut Screens,
    ) -> Result<RecordState<'state>, RecordError>
        // the steps end in an accepted session with this state, or in this fault
        ensures ok { IfOk result (λ state.
            EndsWith self.entry
            (setting (kind input.old) (reads input.old) (edits input.old) screens.old)
            (setting (kind input.new) (reads input.new) (edits input.new) screens.new) state) }
        ensures err { IfErr result (λ e.
            FailsWith self.entry
            (setting (kind input.old) (reads input.old) (edits input.old) screens.old)
            (setting (kind input.new) (reads input.new) (edits input.new) screens.new) e) }
        // the steps have only one end
        ensures one_end { let old =
            setting (kind input.old) (reads input.old) (edits input.old) screens.old in
            HasOneEnd (Before (world_in old self.entry 0)) }
        // the run changes only marks and messages of an accepted state
        ensures kept { IfOk result (λ state. (given : RecordState) →
            IsTrue (is_accepted_state given) → self.entry ≡ start given → IsKept given state) }
        // if no commit has a message, no edit is taken
        ensures unedited { ((commit : ℕ) → message_of self.entry commit ≡ None)
            → edits input.new ≡ edits input.old }
        // every event keeps each file coherent
        ensures coherent { (drawn : Session) (w : World) (event : Event)
            → StepKeepsCoherent drawn w event }
        // what screenshots show, what clicks act on, and when a run is accepted
        ensures headline { Headline self.entry
            (setting (kind input.old) (reads input.old) (edits input.old) screens.old)
            (setting (kind input.new) (reads input.new) (edits input.new) screens.new) result }
        ensures kind { kind input.new ≡ kind input.old }
    {
        let mut session = self.into_session();
        let mut frame = DrawnFrame::new(session.allocator(), input.terminal_kind())?;
        run_to_end(&mut session, &mut frame, input, screens)?;
        Ok(session.into_state())
    }

    /// Returns the session.
    fn into_session(self) -> ActiveSession<'state>
        ensures value { result ≡ self.entry }
        ensures drawable { IsDrawable result }
    {
        self.session
    }
}
