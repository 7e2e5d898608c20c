//! A list of events, handed in one after another.
ghost use Rattle.std.specs.Prelude.{IfErr, IfOk};
ghost use Rattle.scm_front.specs.Presses.{PressesFail, PressesLead};
ghost use Rattle.scm_front.specs.Driving.{turn_of};

use crate::begun::{Begun, BegunTurn};
use scm_record::{Event, RecordError};

/// Handles `events` in order, up to the first that ends the session or asks for a message.
pub(crate) fn press_each<'state>(
    session: Begun<'state>,
    events: &[Event],
) -> Result<BegunTurn<'state>, RecordError>
    ensures ok { IfOk result (λ turn. PressesLead session.entry events.now (turn_of turn)) }
    ensures err { IfErr result (λ e. PressesFail session.entry events.now e) }
{
    let mut session = session;
    for event in events {
        match session.handle(*event)? {
            BegunTurn::Waiting(next) => session = next,
            BegunTurn::Editing(editing) => return Ok(BegunTurn::Editing(editing)),
            BegunTurn::Accepted(state) => return Ok(BegunTurn::Accepted(state)),
        }
    }
    Ok(BegunTurn::Waiting(session))
}
