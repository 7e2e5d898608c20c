//! A front that is driven by the bytes of a terminal.
ghost use Rattle.std.specs.Prelude.{◌≡◌, [], List, IfErr, IfOk};
ghost use Rattle.scm_errors.specs.declared.error.RecordError.TheVariants.{OutOfMemory};
ghost use Rattle.scm_record.specs.LiveCalls.{Call};
ghost use Rattle.scm_terminal.specs.Decoders.{Adds};
ghost use Rattle.scm_front.specs.Fronts.{HeardBytesFail, BytesHeard, Hears, KeysFail, HeardSilenceFails, SilenceHeard};

use crate::layer::{Front, FrontTurn};
use scm_record::{Decoder, RecordError, TerminalEvent};
use std::alloc::Global;

/// Decodes `bytes`, and returns the events that they complete.
fn decoded(
    alloc: Global,
    decoder: &mut Decoder,
    bytes: &[u8],
) -> Result<Vec<TerminalEvent>, RecordError>
    ensures ok { IfOk result (λ found. Adds decoder.old decoder.new bytes.now [] found.items) }
    ensures err { IfErr result (λ e. e ≡ OutOfMemory) }
{
    let mut found = Vec::new(alloc);
    decoder.feed(bytes, &mut found)?;
    Ok(found)
}

impl<'state> Front<'state> {
    /// Hears `events` of the terminal in order, up to the first that ends the session or asks for a
    /// message. Later events are dropped: they were typed at a screen that is gone.
    ///
    /// # Errors
    ///
    /// An error ends the session: the errors are those of [`Front::hear`].
    pub fn hear_all(self, events: &[TerminalEvent]) -> Result<FrontTurn<'state>, RecordError>
        ensures ok { IfOk result (λ turn.
            (calls : List Call) × Hears self.entry events.now calls turn) }
        ensures err { IfErr result (λ e. KeysFail self.entry events.now e) }
    {
        let mut front = self;
        for event in events {
            match front.hear(*event)? {
                FrontTurn::Waiting(next) => front = next,
                FrontTurn::Editing(editing) => return Ok(FrontTurn::Editing(editing)),
                FrontTurn::Accepted(state) => return Ok(FrontTurn::Accepted(state)),
            }
        }
        Ok(FrontTurn::Waiting(front))
    }

    /// Decodes `bytes`, which the terminal sent, and hears their events in order, as
    /// [`Front::hear_all`] does. `decoder` keeps an unfinished sequence.
    ///
    /// # Errors
    ///
    /// An error ends the session: the errors are those of [`Front::hear`].
    pub fn typed(
        self,
        alloc: Global,
        decoder: &mut Decoder,
        bytes: &[u8],
    ) -> Result<FrontTurn<'state>, RecordError>
        ensures ok { IfOk result (λ turn.
            BytesHeard self.entry decoder.old decoder.new bytes.now turn) }
        ensures err { IfErr result (λ e.
            HeardBytesFail self.entry decoder.old decoder.new bytes.now e) }
    {
        let found = decoded(alloc, decoder, bytes)?;
        self.hear_all(found.as_slice())
    }

    /// Handles a silence of the terminal, as
    /// [`LiveSession::idle`](scm_record::LiveSession::idle) does: the layer hears the key that it
    /// means, if any.
    ///
    /// # Errors
    ///
    /// An error ends the session: the errors are those of [`Front::hear`].
    pub fn idle(self, decoder: &mut Decoder) -> Result<FrontTurn<'state>, RecordError>
        ensures ok { IfOk result (λ turn. SilenceHeard self.entry decoder.old decoder.new turn) }
        ensures err { IfErr result (λ e. HeardSilenceFails self.entry decoder.old decoder.new e) }
    {
        match decoder.idle() {
            None => Ok(FrontTurn::Waiting(self)),
            Some(event) => self.hear_all(&[event]),
        }
    }
}
