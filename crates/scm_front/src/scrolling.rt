//! The way back of the screen after deeds.
ghost use Rattle.std.specs.Prelude.{◌≡◌, List, IfErr, IfOk};
ghost use Rattle.scm_errors.specs.declared.error.RecordError.TheVariants.{OutOfMemory};
ghost use Rattle.scm_record.specs.Frames.{rows_of};
ghost use Rattle.scm_record.specs.LiveCalls.{Call, EventLeads};
ghost use Rattle.scm_record.specs.declared.live.Turn.TheVariants.{Waiting};
ghost use Rattle.scm_front.specs.Driving.{turn_of};
ghost use Rattle.scm_front.specs.Scrolling.{QuietRound, ScrollsTo, event_towards, most_scrolls, scroll_event};

use crate::begun::{Begun, BegunTurn};
use crate::deeds::do_round;
use scm_front_items::Deed;
use scm_record::{Event, RecordError, SelectionKey, TerminalKind};

/// How many events scroll back at most.
const MOST_SCROLLS: usize = 1000;

/// The most rows that a screen shows.
const MOST_ROWS: usize = 65535;

/// Returns how many rows a screen of size `kind` shows.
fn rows_of(kind: TerminalKind) -> usize
    ensures { result ≡ rows_of kind }
{
    match kind {
        TerminalKind::Testing { height, .. } => height.min(MOST_ROWS),
    }
}

/// Returns the event that scrolls a screen of `rows` rows from row `from` of the document towards row
/// `to`: by a screen if it is that far, and otherwise by a row.
fn scroll_event(rows: usize, from: usize, to: usize) -> Event
    ensures { result ≡ scroll_event rows from to }
{
    if from < to {
        if rows <= to - from {
            Event::PageDown
        } else {
            Event::ScrollDown
        }
    } else if rows <= from - to {
        Event::PageUp
    } else {
        Event::ScrollUp
    }
}

/// Handles the event that scrolls `session` towards row `to` of the document.
fn scroll_once<'state>(session: Begun<'state>, to: usize) -> Result<BegunTurn<'state>, RecordError>
    ensures ok { IfOk result (λ turn.
        EventLeads session.entry (event_towards session.entry to) (turn_of turn)) }
    ensures err { IfErr result (λ e. e ≡ OutOfMemory) }
{
    let live = session.live();
    let event = scroll_event(rows_of(live.kind()), live.scroll(), to);
    session.handle(event)
}

/// Scrolls `session` until its screen begins at row `to` of the document, by at most `MOST_SCROLLS` events.
fn scroll_to<'state>(session: Begun<'state>, to: usize) -> Result<BegunTurn<'state>, RecordError>
    ensures ok { IfOk result (λ last. (calls : List Call)
        × ScrollsTo to most_scrolls (Waiting session.entry) calls (turn_of last)) }
    ensures err { IfErr result (λ e. e ≡ OutOfMemory) }
{
    let mut session = session;
    'scrolls: for _ in 0..MOST_SCROLLS {
        if session.live().scroll() == to {
            return Ok(BegunTurn::Waiting(session));
        }
        match scroll_once(session, to)? {
            BegunTurn::Waiting(next) => session = next,
            BegunTurn::Editing(editing) => return Ok(BegunTurn::Editing(editing)),
            BegunTurn::Accepted(state) => return Ok(BegunTurn::Accepted(state)),
        }
    }
    Ok(BegunTurn::Waiting(session))
}

/// Scrolls the session of `turn`, if it waits, until its screen begins at row `to` of the document, by at
/// most `MOST_SCROLLS` events.
pub(crate) fn scroll_back<'state>(
    turn: BegunTurn<'state>,
    to: usize,
) -> Result<BegunTurn<'state>, RecordError>
    ensures ok { IfOk result (λ last. (calls : List Call)
        × ScrollsTo to most_scrolls (turn_of turn.entry) calls (turn_of last)) }
    ensures err { IfErr result (λ e. e ≡ OutOfMemory) }
{
    match turn {
        BegunTurn::Waiting(session) => scroll_to(session, to),
        BegunTurn::Editing(editing) => Ok(BegunTurn::Editing(editing)),
        BegunTurn::Accepted(state) => Ok(BegunTurn::Accepted(state)),
    }
}

/// Does `deeds`, selects `back` again, and scrolls back to where the screen began.
pub(crate) fn do_quiet_round<'state>(
    session: Begun<'state>,
    deeds: &[Deed],
    back: SelectionKey,
) -> Result<BegunTurn<'state>, RecordError>
    ensures ok { IfOk result (λ turn.
        (calls : List Call) × QuietRound session.entry deeds.now back calls (turn_of turn)) }
    ensures err { IfErr result (λ e. e ≡ OutOfMemory) }
{
    let scroll = session.live().scroll();
    let turn = do_round(session, deeds, back)?;
    scroll_back(turn, scroll)
}
