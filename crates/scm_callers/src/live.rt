//! A session that a program drives, event by event.
ghost use Rattle.std.specs.Prelude.{List, IfOk, IfSome, IsTrue};
ghost use Rattle.scm_record.specs.Limits.{is_accepted_state};
ghost use Rattle.scm_record.specs.Keeping.{IsKept};
ghost use Rattle.scm_record.specs.LiveCalls.{Call, Path};
ghost use Rattle.scm_record.specs.declared.live.Turn.TheVariants.{Waiting};

use scm_record::live::sessions_are_runs;
use scm_record::{Event, LiveSession, RecordError, RecordState, TerminalKind, Turn};
use std::alloc::Global;

/// Leaves the message unchanged if `turn` asks for an edit.
pub(crate) fn without_editor<'a>(turn: Turn<'a>) -> Result<Turn<'a>, RecordError>
    ensures path { IfOk result (λ next. (calls : List Call) × Path turn.entry calls next) }
{
    match turn {
        Turn::Editing(editing) => editing.keep(),
        next => Ok(next),
    }
}

/// Hands in `events` one by one, until the session has ended or no event is left.
///
/// Here a tool would show the session's grid before each event, and wait for its user.
pub fn hand_in<'a>(session: LiveSession<'a>, events: &[Event]) -> Result<Turn<'a>, RecordError>
    ensures path { IfOk result (λ turn.
        (calls : List Call) × Path (Waiting session.entry) calls turn) }
{
    let mut session = session;
    for event in events {
        let turn = session.handle(*event)?;
        session = match without_editor(turn)? {
            Turn::Waiting(session) => session,
            ended => return Ok(ended),
        };
    }
    Ok(Turn::Waiting(session))
}

/// Returns the accepted state after `events`, or `None` if they do not end the session.
///
/// The accepted state differs from `state` only in marks and messages: the law `sessions_are_runs`
/// proves it for any calls.
pub fn choose<'a>(
    alloc: Global,
    kind: TerminalKind,
    state: RecordState<'a>,
    events: &[Event],
) -> Result<Option<RecordState<'a>>, RecordError>
    requires { IsTrue (is_accepted_state state) }
    ensures kept { IfOk result (λ accepted. IfSome accepted (λ marked. IsKept state.entry marked)) }
{
    let session = LiveSession::new(alloc, kind, state)?;
    let turn = hand_in(session, events)?;
    sessions_are_runs();
    match turn {
        Turn::Accepted(marked) => Ok(Some(marked)),
        Turn::Waiting(_) | Turn::Editing(_) => Ok(None),
    }
}
