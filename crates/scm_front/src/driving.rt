//! The calls of the session beneath a layer.
ghost use Rattle.std.specs.Prelude.{◌≡◌, [], List, IfErr, IfOk, IsTrue, OnErr, OnOk, Some, false, string_bytes};
ghost use Rattle.scm_errors.specs.declared.error.RecordError.TheVariants.{OutOfMemory};
ghost use Rattle.scm_types.specs.Limits.{is_accepted_state};
ghost use Rattle.scm_record.specs.Session.{message_text, start};
ghost use Rattle.scm_record.specs.Live.{on_screen};
ghost use Rattle.scm_record.specs.Jumps.{after_selecting, can_select};
ghost use Rattle.scm_record.specs.LiveCalls.{BatchFails, BatchLeads, Call, EventFails, EventLeads, MessageFails, MessageLeads};
ghost use Rattle.scm_record.specs.declared.live.Turn.TheVariants.{Editing as EditingTurn, Waiting};
ghost use Rattle.scm_front.specs.declared.logging.LoggedCall.TheVariants.{Jumped};
ghost use Rattle.scm_front.specs.Begun.{JumpLeads};
ghost use Rattle.scm_front.specs.Driving.{turn_of};
ghost use Rattle.scm_front.specs.Logging.{IsBegun, IsLogged, LogsCall};

use crate::accepted::AcceptedState;
use crate::begun::{Begun, BegunEdit, BegunTurn};
use crate::logging::{LoggedCall, Logging, add_call, after_call, batch_of, begin, message_of};
use scm_record::live::jumps::jumps_are_batches;
use scm_record::{Event, LiveSession, RecordError, RecordState, SelectionKey, TerminalKind, Turn};
use std::alloc::Global;

/// Returns `turn` as one of a session that has begun, with what is logged of its calls.
fn begun_turn<'state>(turn: Turn<'state>, logging: Logging) -> BegunTurn<'state>
    requires { IsBegun logging turn }
    ensures { turn_of result ≡ turn.entry }
{
    match turn {
        Turn::Waiting(live) => BegunTurn::Waiting(Begun { live, logging }),
        Turn::Editing(editing) => BegunTurn::Editing(BegunEdit { editing, logging }),
        Turn::Accepted(state) => BegunTurn::Accepted(AcceptedState { state, logging }),
    }
}

/// Returns what is logged after `key` was to be selected: a jump to it, if `is_jump`.
fn after_jump(logging: Logging, key: SelectionKey, is_jump: bool) -> Logging
    ensures jumps { IsTrue is_jump → LogsCall logging (Some (Jumped key)) result }
    ensures stays { is_jump ≡ false → result ≡ logging }
{
    if is_jump {
        after_call(logging, Some(LoggedCall::Jumped(key)))
    } else {
        logging
    }
}

impl<'state> Begun<'state> {
    /// Creates a session over `state`, drawn on a screen of size `kind`.
    pub(crate) fn new(
        alloc: Global,
        kind: TerminalKind,
        state: RecordState<'state>,
    ) -> Result<Begun<'state>, RecordError>
        requires { IsTrue (is_accepted_state state) }
        ensures ok { IfOk result (λ l. l ≡ record { session = start state.entry; kind = kind }) }
        ensures err { IfErr result (λ e. e ≡ OutOfMemory) }
    {
        let live = LiveSession::new(alloc, kind, state)?;
        let logging = Logging::Fresh;
        Ok(Begun { live, logging })
    }

    /// Handles `event`, as [`LiveSession::handle`] does.
    pub(crate) fn handle(self, event: Event) -> Result<BegunTurn<'state>, RecordError>
        ensures ok { IfOk result (λ turn. EventLeads self.entry event (turn_of turn)) }
        ensures err { IfErr result (λ e. EventFails self.entry event e) }
    {
        let Begun { live, logging } = self;
        let turn = live.handle(event)?;
        let logging = after_call(logging, Some(LoggedCall::Pressed(event)));
        Ok(begun_turn(turn, logging))
    }

    /// Handles `events` as one batch, as [`LiveSession::handle_all`] does.
    pub(crate) fn handle_all(self, events: &[Event]) -> Result<BegunTurn<'state>, RecordError>
        ensures ok { IfOk result (λ turn. BatchLeads self.entry events.now (turn_of turn)) }
        ensures err { IfErr result (λ e. BatchFails self.entry events.now e) }
    {
        let Begun { live, logging } = self;
        let turn = live.handle_all(events)?;
        let call = batch_of(&logging, events);
        let logging = after_call(logging, call);
        Ok(begun_turn(turn, logging))
    }

    /// Returns whether `key` can be selected at once, as [`LiveSession::can_select`] does.
    pub(crate) fn can_select(&self, key: SelectionKey) -> bool
        ensures { result ≡ can_select self.now key }
    {
        self.live.can_select(key)
    }

    /// Selects `key` at once, as [`LiveSession::select`] does.
    pub(crate) fn select(self, key: SelectionKey) -> Result<Begun<'state>, RecordError>
        ensures value { IfOk result (λ l. l ≡ after_selecting self.entry key) }
        ensures leads { IfOk result (λ l. (calls : List Call) × JumpLeads self.entry key calls l) }
        ensures err { IfErr result (λ e. e ≡ OutOfMemory) }
    {
        jumps_are_batches();
        let Begun { live, logging } = self;
        let is_jump = live.can_select(key);
        let live = live.select(key)?;
        let logging = after_jump(logging, key, is_jump);
        Ok(Begun { live, logging })
    }

    /// Draws the session on a screen of size `kind`, as [`LiveSession::resize`] does.
    pub(crate) fn resize(&mut self, kind: TerminalKind) -> Result<(), RecordError>
        ensures ok { OnOk result (self.new ≡ on_screen self.old kind) }
        ensures unchanged { OnErr result (self.new ≡ self.old) }
        ensures err { IfErr result (λ e. e ≡ OutOfMemory) }
    {
        self.live.resize(kind)?;
        add_call(&mut self.logging, LoggedCall::Resized(kind));
        Ok(())
    }

    /// Begins to log the calls if none was made yet, and returns whether they are logged.
    pub(crate) fn log(&mut self, alloc: Global) -> bool
        ensures { self.new ≡ self.old }
    {
        let kind = self.live.kind();
        begin(&mut self.logging, alloc, kind)
    }

    /// Returns what is logged of the calls.
    pub(crate) fn logging(&self) -> &Logging
        ensures { IsLogged result.now (Waiting self.now) }
    {
        &self.logging
    }

    /// Returns the session, to read.
    pub(crate) fn live(&self) -> &LiveSession<'state>
        ensures value { result.now ≡ self.now }
        ensures calm { self.now.session.pending ≡ [] }
    {
        &self.live
    }
}

impl<'state> BegunEdit<'state> {
    /// Sets the message of the commit to `text`, and returns what that leads to.
    pub(crate) fn answer(self, text: String) -> Result<BegunTurn<'state>, RecordError>
        ensures ok { IfOk result (λ turn.
            MessageLeads self.entry (string_bytes text) (turn_of turn)) }
        ensures err { IfErr result (λ e. MessageFails self.entry (string_bytes text) e) }
    {
        let BegunEdit { editing, logging } = self;
        let call = message_of(&logging, text.as_str());
        let turn = editing.answer(text)?;
        let logging = after_call(logging, call);
        Ok(begun_turn(turn, logging))
    }

    /// Keeps the message as it is, and returns what that leads to.
    pub(crate) fn keep(self) -> Result<BegunTurn<'state>, RecordError>
        ensures ok { IfOk result (λ turn. MessageLeads self.entry
            (message_text self.entry.session self.entry.commit) (turn_of turn)) }
        ensures err { IfErr result (λ e. MessageFails self.entry
            (message_text self.entry.session self.entry.commit) e) }
    {
        let BegunEdit { editing, logging } = self;
        let call = message_of(&logging, editing.message());
        let turn = editing.keep()?;
        let logging = after_call(logging, call);
        Ok(begun_turn(turn, logging))
    }

    /// Returns what is logged of the calls.
    pub(crate) fn logging(&self) -> &Logging
        ensures { IsLogged result.now (EditingTurn self.now) }
    {
        &self.logging
    }
}
