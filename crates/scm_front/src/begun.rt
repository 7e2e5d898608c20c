//! The session beneath a layer. It began with a state, and calls led to where it is, so a jump to an
//! item is a batch of moves. What is logged of the calls led there.
use crate::accepted::AcceptedState;
use crate::logging::Logging;
use scm_record::{Editing, LiveSession};
use std::marker::Model;

/// A live session that waits for an event.
#[derive(Drop)]
pub struct Begun<'state> {
    /// The session.
    pub(crate) live: LiveSession<'state>,
    /// What is logged of its calls.
    pub(crate) logging: Logging,
}

impl<'state> Model for Begun<'state> {
    ghost use Rattle.scm_record.specs.Live.{Live};
    ghost use Rattle.scm_record.specs.declared.live.Turn.TheVariants.{Waiting};
    ghost use Rattle.scm_front.specs.Logging.{IsBegun};

    ghost Value = { Live };

    ghost view = { λ s. s.live };

    ghost invariant = { λ s. IsBegun s.logging (Waiting s.live) };
}

/// A live session that waits for the message of a commit.
#[derive(Drop)]
pub struct BegunEdit<'state> {
    /// The session.
    pub(crate) editing: Editing<'state>,
    /// What is logged of its calls.
    pub(crate) logging: Logging,
}

impl<'state> Model for BegunEdit<'state> {
    ghost use Rattle.std.specs.Coded.{codes};
    ghost use Rattle.scm_record.specs.Live.{LiveEdit};
    ghost use Rattle.scm_record.specs.contracts.frame.DrawnFrame as drawn;
    ghost use Rattle.scm_record.specs.declared.live.Turn.TheVariants.{Editing};
    ghost use Rattle.scm_front.specs.Logging.{IsBegun};

    ghost Value = { LiveEdit };

    ghost coded = { Prim.hlevel (codes, drawn.the_row.coded) };

    ghost view = { λ s. s.editing };

    ghost invariant = { λ s. IsBegun s.logging (Editing s.editing) };
}

/// What a call of a session leads to.
#[derive(Drop)]
pub enum BegunTurn<'state> {
    /// The session waits for the next event.
    Waiting(Begun<'state>),
    /// The session waits for the message of a commit.
    Editing(BegunEdit<'state>),
    /// The session has ended, with the changes of this state accepted.
    Accepted(AcceptedState<'state>),
}
