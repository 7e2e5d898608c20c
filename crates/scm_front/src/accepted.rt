//! The accepted state of a session beneath a layer.
ghost use Rattle.std.specs.Prelude.{◌≡◌};
ghost use Rattle.scm_record.specs.declared.live.Turn.TheVariants.{Accepted};
ghost use Rattle.scm_front.specs.Logging.{IsLogged};

use crate::logging::Logging;
use scm_record::RecordState;
use std::marker::Model;

/// The accepted state of a session, with the log of the session's calls, if there is one.
#[derive(Drop)]
pub struct AcceptedState<'state> {
    /// The state.
    pub(crate) state: RecordState<'state>,
    /// What is logged of the calls.
    pub(crate) logging: Logging,
}

impl<'state> Model for AcceptedState<'state> {
    ghost use Rattle.scm_types.specs.declared.state.RecordState.{RecordState};
    ghost use Rattle.scm_record.specs.declared.live.Turn.TheVariants.{Accepted};
    ghost use Rattle.scm_front.specs.Logging.{IsLogged};

    ghost Value = { RecordState };

    ghost view = { λ s. s.state };

    ghost invariant = { λ s. IsLogged s.logging (Accepted s.state) };
}

impl<'state> AcceptedState<'state> {
    /// Returns the accepted state `state` of a session whose calls are not logged.
    pub fn unlogged(state: RecordState<'state>) -> AcceptedState<'state>
        ensures { result ≡ state.entry }
    {
        let logging = Logging::Off;
        AcceptedState { state, logging }
    }

    /// Returns the state, to read.
    pub fn state(&self) -> &RecordState<'state>
        ensures { result.now ≡ self.now }
    {
        &self.state
    }

    /// Returns the state.
    pub fn into_state(self) -> RecordState<'state>
        ensures { result ≡ self.entry }
    {
        let AcceptedState { state, logging: _ } = self;
        state
    }

    /// Returns what is logged of the calls that led to the state.
    pub fn logging(&self) -> &Logging
        ensures { IsLogged result.now (Accepted self.now) }
    {
        &self.logging
    }
}
