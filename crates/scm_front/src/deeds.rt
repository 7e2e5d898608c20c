//! Deeds: marks that are set and folds that are closed, by jumps and events of the session.
ghost use Rattle.std.specs.Prelude.{◌≡◌, true, List, IfErr, IfOk};
ghost use Rattle.scm_errors.specs.declared.error.RecordError.TheVariants.{OutOfMemory};
ghost use Rattle.scm_record.specs.LiveCalls.{Call};
ghost use Rattle.scm_front_items.specs.Targets.{is_open_deed};
ghost use Rattle.scm_front.specs.Deeds.{DeedDone, DeedTried, DeedsLead, ReturnsTo, RoundLeads, event_of, is_due};
ghost use Rattle.scm_front.specs.Driving.{turn_of};

use crate::begun::{Begun, BegunTurn};
use scm_front_items::Deed;
use scm_record::{Event, RecordError, SelectionKey};
use scm_view_state::ViewState;

/// Returns the event of `deed`.
fn event_of(deed: Deed) -> Event
    ensures { result ≡ event_of deed }
{
    match deed {
        Deed::Mark(_) => Event::ToggleItem,
        Deed::Fold(_) => Event::ExpandItem,
    }
}

/// Returns whether `deed` has something to do in `view`.
fn is_open(view: &ViewState<'_>, deed: Deed) -> bool
    ensures { result ≡ is_open_deed view.now.state.files view.now.expanded deed }
{
    match deed {
        Deed::Mark(_) => deed.is_open(view.state.files.as_slice(), &view.expanded),
        Deed::Fold(key) => view.is_expanded(key),
    }
}

/// Returns whether `deed` is to be done: its item can be selected, and it has something to do.
fn is_due(session: &Begun<'_>, deed: Deed) -> bool
    ensures { result ≡ is_due session.now deed }
{
    let can_select = session.can_select(deed.key());
    let is_open = is_open(session.live().view_state(), deed);
    can_select & is_open
}

/// Selects the item of `deed`, and handles its event there.
fn do_deed<'state>(session: Begun<'state>, deed: Deed) -> Result<BegunTurn<'state>, RecordError>
    ensures ok { IfOk result (λ turn. DeedDone session.entry deed (turn_of turn)) }
    ensures err { is_due session.entry deed ≡ true → IfErr result (λ e. e ≡ OutOfMemory) }
{
    let session = session.select(deed.key())?;
    session.handle(event_of(deed))
}

/// Does `deed` if it is due.
fn try_deed<'state>(session: Begun<'state>, deed: Deed) -> Result<BegunTurn<'state>, RecordError>
    ensures ok { IfOk result (λ turn. DeedTried session.entry deed (turn_of turn)) }
    ensures err { IfErr result (λ e. e ≡ OutOfMemory) }
{
    if is_due(&session, deed) {
        do_deed(session, deed)
    } else {
        Ok(BegunTurn::Waiting(session))
    }
}

/// Does `deeds` in order, those that are due, up to the first that ends the session or asks for a
/// message.
pub(crate) fn do_deeds<'state>(
    session: Begun<'state>,
    deeds: &[Deed],
) -> Result<BegunTurn<'state>, RecordError>
    ensures ok { IfOk result (λ turn.
        (calls : List Call) × DeedsLead session.entry deeds.now calls (turn_of turn)) }
    ensures err { IfErr result (λ e. e ≡ OutOfMemory) }
{
    let mut session = session;
    for deed in deeds {
        match try_deed(session, *deed)? {
            BegunTurn::Waiting(next) => session = next,
            BegunTurn::Editing(editing) => return Ok(BegunTurn::Editing(editing)),
            BegunTurn::Accepted(state) => return Ok(BegunTurn::Accepted(state)),
        }
    }
    Ok(BegunTurn::Waiting(session))
}

/// Selects `back`.
fn go_back<'state>(mid: Begun<'state>, back: SelectionKey) -> Result<BegunTurn<'state>, RecordError>
    ensures ok { IfOk result (λ turn. ReturnsTo mid.entry back (turn_of turn)) }
    ensures err { IfErr result (λ e. e ≡ OutOfMemory) }
{
    let last = mid.select(back)?;
    Ok(BegunTurn::Waiting(last))
}

/// Does `deeds`, and selects `back` again.
pub(crate) fn do_round<'state>(
    session: Begun<'state>,
    deeds: &[Deed],
    back: SelectionKey,
) -> Result<BegunTurn<'state>, RecordError>
    ensures ok { IfOk result (λ turn.
        (calls : List Call) × RoundLeads session.entry deeds.now back calls (turn_of turn)) }
    ensures err { IfErr result (λ e. e ≡ OutOfMemory) }
{
    let turn = do_deeds(session, deeds)?;
    match turn {
        BegunTurn::Waiting(mid) => go_back(mid, back),
        BegunTurn::Editing(editing) => Ok(BegunTurn::Editing(editing)),
        BegunTurn::Accepted(state) => Ok(BegunTurn::Accepted(state)),
    }
}
