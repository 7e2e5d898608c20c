//! A live session that is driven by the bytes of a terminal.
ghost use Rattle.std.specs.Prelude.{◌≡◌, ℕ, false, List, [], IsTrue, IfErr, IfOk, map};
ghost use Rattle.scm_types.specs.Limits.{is_accepted_state};
ghost use Rattle.scm_types.specs.declared.state.RecordState.{RecordState};
ghost use Rattle.scm_input.specs.declared.inputs.TerminalKind.{TerminalKind};
ghost use Rattle.scm_terminal.specs.declared.decoder.Decoder.{Decoder};
ghost use Rattle.scm_terminal.specs.Decoders.{HasHeard, HasRead};
ghost use Rattle.scm_terminal.specs.Silences.{Start};
ghost use Rattle.scm_terminal.specs.Streams.{stream_events};
ghost use Rattle.scm_record.specs.Session.{start};
ghost use Rattle.scm_record.specs.Live.{Live};
ghost use Rattle.scm_record.specs.LiveCalls.{AreRuns, Call, Path};
ghost use Rattle.scm_record.specs.declared.live.Turn.{Turn};
ghost use Rattle.scm_record.specs.declared.live.Turn.TheVariants.{Waiting};
ghost use Rattle.scm_record.specs.Typed.{Bytes, BytesFail, BytesLead, InputPath, FailsAmong, HandsIn, Input, InputsMean, SilenceFails, SilenceLeads, all_bytes};

use crate::live::{LiveSession, Turn};
use scm_input::{Event, TerminalEvent};
use scm_terminal::Decoder;
use scm_types::RecordError;

impl<'state> LiveSession<'state> {
    /// Decodes `bytes`, which the terminal sent, and handles their events in order.
    ///
    /// Stops after the first event that ends the session or asks for a message. Later events are
    /// dropped: they were typed at a screen that is gone. `decoder` keeps an unfinished sequence.
    ///
    /// # Errors
    ///
    /// An error ends the session.
    ///
    /// - `OutOfMemory`: an allocation failed. If it failed in the decoder, the decoder is
    ///   unchanged.
    /// - any other: that of an event, as [`LiveSession::handle`] says.
    pub fn typed(self, decoder: &mut Decoder, bytes: &[u8]) -> Result<Turn<'state>, RecordError>
        ensures ok { IfOk result (λ turn.
            BytesLead self.entry decoder.old decoder.new bytes.now turn) }
        ensures err { IfErr result (λ e. BytesFail self.entry decoder.old decoder.new bytes.now e) }
    {
        let mut events = Vec::new(self.session.allocator());
        decoder.feed(bytes, &mut events)?;
        self.hand_in(events.as_slice())
    }

    /// Handles a silence of the terminal: an escape byte with nothing after it is the key Esc, and
    /// within a paste Ctrl-C between two silences is the key. Otherwise this is a no-op, however
    /// often it is called.
    ///
    /// # Errors
    ///
    /// An error ends the session: the errors are those of [`LiveSession::handle`].
    pub fn idle(self, decoder: &mut Decoder) -> Result<Turn<'state>, RecordError>
        ensures ok { IfOk result (λ turn. SilenceLeads self.entry decoder.old decoder.new turn) }
        ensures err { IfErr result (λ e. SilenceFails self.entry decoder.old decoder.new e) }
    {
        match decoder.idle() {
            None => Ok(Turn::Waiting(self)),
            Some(event) => self.hand_in(&[event]),
        }
    }

    /// Handles `events` in order, up to the first that ends the session or asks for a message.
    fn hand_in(self, events: &[TerminalEvent]) -> Result<Turn<'state>, RecordError>
        ensures ok { IfOk result (λ turn. HandsIn self.entry events.now turn) }
        ensures err { IfErr result (λ e. FailsAmong self.entry events.now e) }
    {
        let mut session = self;
        for event in events {
            match session.handle(Event::from(*event))? {
                Turn::Waiting(next) => session = next,
                Turn::Editing(editing) => return Ok(Turn::Editing(editing)),
                Turn::Accepted(state) => return Ok(Turn::Accepted(state)),
            }
        }
        Ok(Turn::Waiting(session))
    }
}

/// Proves that driving a session by bytes is the same as handing in the events that the bytes mean.
///
/// So [`sessions_are_runs`](crate::live::sessions_are_runs) applies. The events are those that the
/// decoder's definition finds in the bytes, in order. If a stream is cut into chunks anywhere, the
/// session handles the events of the whole stream, up to the first that ends it or asks for a
/// message.
///
/// This is a law: the function does nothing, and is there for its contract.
pub fn typed_sessions_are_runs()
    // inputs are calls
    ensures path { (decoder : Decoder) (turn last : Turn) (inputs : List Input) (calls : List Call)
        → InputPath decoder turn inputs calls last → Path turn calls last }
    // so they are runs
    ensures runs { (given : RecordState) (kind : TerminalKind) (decoder : Decoder)
        (inputs : List Input) (calls : List Call) (last : Turn) → IsTrue (is_accepted_state given)
        → InputPath decoder (Waiting (record { session = start given; kind = kind }))
        inputs calls last
        → AreRuns (start given) kind calls last }
    // the calls are what the bytes mean
    ensures means { (decoder : Decoder) (start : Start) (heard : List ℕ) (turn last : Turn)
        (inputs : List Input) (calls : List Call) → HasRead decoder start heard
        → InputPath decoder turn inputs calls last → InputsMean start heard inputs calls }
    // wherever the stream is cut
    ensures cut { (decoder : Decoder) (l : Live) (chunks : List (List ℕ)) (calls : List Call)
        (last : Turn) → HasHeard decoder false []
        → InputPath decoder (Waiting l) (map Bytes chunks) calls last
        → HandsIn l (stream_events false (all_bytes chunks)) last }
{}
