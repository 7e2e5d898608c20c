//! Batches of events that a program hands in to a live session.
ghost use Rattle.std.specs.Prelude.{◌≡◌, IsTrue, IfErr, IfOk, string_bytes};
ghost use Rattle.scm_errors.specs.declared.error.RecordError.TheVariants.{OutOfMemory};
ghost use Rattle.scm_record.specs.Frames.{IsSceneOf, Scene};
ghost use Rattle.scm_record.specs.Batches.{HandlesBatch};
ghost use Rattle.scm_record.specs.HandledCount.{Counts, batch_count, handled_count, rest_count};
ghost use Rattle.scm_record.specs.LiveCalls.{BatchFails, BatchLeads, MessageFails, MessageLeads};

use crate::frame::DrawnFrame;
use crate::live::{Editing, LiveSession, Turn, turn_after};
use crate::runs::{is_short, too_long};
use crate::session::{ActiveSession, Flow};
use scm_input::Event;
use scm_types::RecordError;

/// What a batch of events leaves for the session.
#[derive(Clone, Copy)]
pub(super) struct BatchEnd<'events> {
    /// What the session does after the last event that was handled.
    pub(super) flow: Flow,
    /// The events after that one. If the session goes on, there are none.
    pub(super) rest: &'events [Event],
    /// How many events were handled.
    pub(super) handled: usize,
    /// True only if each event left the session unchanged.
    pub(super) is_kept: bool,
}

/// Handles `events`, one batch, with `frame` as the frame last drawn, up to the first after which the
/// session does not go on.
pub(super) fn handle_each<'events>(
    session: &mut ActiveSession<'_>,
    frame: &DrawnFrame,
    events: &'events [Event],
) -> Result<BatchEnd<'events>, RecordError>
    requires shown { (scene : Scene) × IsSceneOf scene frame.now }
    ensures ok { IfOk result (λ end. HandlesBatch (λ scene. IsSceneOf scene frame.now) events.now
        session.old end.flow end.rest.now session.new) }
    ensures kept { IfOk result (λ end. IsTrue end.is_kept → session.new ≡ session.old) }
    ensures counted { IfOk result (λ end. (scene : Scene) → IsSceneOf scene frame.now
        → end.handled ≡ handled_count scene session.old events.now) }
    ensures err { IfErr result (λ e. e ≡ OutOfMemory) }
{
    let mut is_kept = true;
    for (index, event) in events.iter().enumerate() {
        is_kept &= session.is_kept_by(frame, *event);
        match session.change(frame, *event)? {
            Flow::GoOn => {}
            flow => {
                let rest = &events[index + 1..];
                return Ok(BatchEnd {
                    flow,
                    rest,
                    handled: index + 1,
                    is_kept,
                });
            }
        }
    }
    Ok(BatchEnd {
        flow: Flow::GoOn,
        rest: &[],
        handled: events.len(),
        is_kept,
    })
}

impl<'state> LiveSession<'state> {
    /// Handles `events` as [`LiveSession::handle_all`] does, and writes to `handled` how many of them were handled: those up
    /// to the first that ends the session or asks for a message, and else all.
    ///
    /// An event that a menu leaves pending is none of the batch. It is handled behind all of them.
    ///
    /// # Errors
    ///
    /// An error ends the session: the errors are those of [`LiveSession::handle`]. After `Cancelled` the number is exact. If an
    /// allocation failed, it may be 0 instead.
    pub fn handle_and_count(
        self,
        events: &[Event],
        handled: &mut usize,
    ) -> Result<Turn<'state>, RecordError>
        ensures ok { IfOk result (λ turn. BatchLeads self.entry events.now turn) }
        ensures err { IfErr result (λ e. BatchFails self.entry events.now e) }
        ensures counted { Counts (λ count. count ≡ batch_count self.entry events.now) result handled.new }
    {
        let LiveSession {
            session,
            frame,
            kind,
        } = self;
        let mut session = session;
        *handled = 0;
        let end = handle_each(&mut session, &frame, events)?;
        *handled = end.handled;
        turn_after(session, frame, kind, end)
    }
}

impl<'state> Editing<'state> {
    /// Does what [`Editing::answer`] does, and writes to `handled` how many events of the rest of the batch were handled: those
    /// up to the first that ends the session or asks for a message, and else all. After a message that is too long it is 0.
    ///
    /// # Errors
    ///
    /// An error ends the session: the errors are those of [`Editing::answer`]. After `Cancelled` the number is exact. If an
    /// allocation failed, it may be 0 instead.
    pub fn answer_and_count(
        self,
        text: String,
        handled: &mut usize,
    ) -> Result<Turn<'state>, RecordError>
        ensures ok { IfOk result (λ turn. MessageLeads self.entry (string_bytes text) turn) }
        ensures err { IfErr result (λ e. MessageFails self.entry (string_bytes text) e) }
        ensures counted { Counts (λ count. (scene : Scene) → IsSceneOf scene self.entry.frame
            → count ≡ rest_count scene self.entry (string_bytes text)) result handled.new }
    {
        let Editing {
            session,
            frame,
            kind,
            commit,
            rest,
        } = self;
        let mut session = session;
        *handled = 0;
        if !is_short(&text) {
            return Err(too_long(session.allocator()));
        }
        session.set_message(commit, text);
        let rest_end = handle_each(&mut session, &frame, &rest)?;
        *handled = rest_end.handled;
        let end = BatchEnd {
            is_kept: false,
            ..rest_end
        };
        turn_after(session, frame, kind, end)
    }
}
