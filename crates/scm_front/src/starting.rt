//! The folds and the selection at the start.
ghost use Rattle.std.specs.Prelude.{◌≡◌, IfErr, IfOk};
ghost use Rattle.scm_errors.specs.declared.error.RecordError.TheVariants.{OutOfMemory};
ghost use Rattle.scm_record.specs.declared.live.Turn.TheVariants.{Waiting};
ghost use Rattle.scm_front.specs.Begun.{LeadsOn};
ghost use Rattle.scm_record.specs.Jumps.{after_selecting};
ghost use Rattle.scm_front.specs.Driving.{turn_of};
ghost use Rattle.scm_front.specs.declared.starting.Folds.{Folds as Unfolding};
ghost use Rattle.scm_record.specs.Live.{Live};
ghost use Rattle.scm_selection.specs.KeyLists.{all_keys};
ghost use Rattle.scm_selection.specs.KeySet.{is_same_set, key_set};
ghost use Rattle.scm_front.specs.Starting.{AreFolds, Fits, FoldsUnlessShown, Refolds, Starts, Unfolds, UnfoldsAs, cannot_fit, fold_events, folds_again, items_of};

use crate::begun::{Begun, BegunTurn};
use crate::deeds::do_round;
use crate::marking::{push_folds, selection_of};
use crate::presses::press_each;
use scm_front_items::Deed;
use scm_record::key_lists::all_keys;
use scm_record::keys::is_key;
use scm_record::{ComponentId, Event, RecordError, SelectionKey};
use scm_view_state::ViewState;
use std::alloc::Global;

/// What is unfolded at the start.
#[derive(Clone, Copy, Debug, PartialEq, Eq)]
pub enum Folds {
    /// What is unfolded already.
    AsIs,
    /// Nothing.
    Folded,
    /// Everything.
    Open,
    /// Everything, if the screen then shows all of it; otherwise what is unfolded already.
    Fitting,
}

/// Returns the item that `id` shows, if it shows one.
fn key_of(id: ComponentId) -> SelectionKey {
    match id {
        ComponentId::SelectableItem(key) | ComponentId::ToggleBox(key) => key,
        _ => SelectionKey::None,
    }
}

/// Returns whether row `row` of the screen shows `key`.
fn row_shows(session: &Begun<'_>, row: usize, key: SelectionKey) -> bool {
    for column in 0..session.live().grid().width() {
        if let Some(id) = session.live().owner(row, column) {
            if is_key(key_of(id), key) {
                return true;
            }
        }
    }
    false
}

/// Returns whether the screen shows `key`.
fn shows(session: &Begun<'_>, key: SelectionKey) -> bool {
    for row in 0..session.live().grid().height() {
        if row_shows(session, row, key) {
            return true;
        }
    }
    false
}

/// Returns the events that unfold all of the session of `view` if `is_open`, and otherwise fold all.
fn events_for(
    alloc: Global,
    view: &ViewState<'_>,
    is_open: bool,
) -> Result<&'static [Event], RecordError>
    ensures events { IfOk result (λ events. events.now ≡ fold_events is_open
        (is_same_set view.now.expanded (key_set (all_keys view.now.state.files)))) }
    ensures err { IfErr result (λ e. e ≡ OutOfMemory) }
{
    let is_all_open = view.are_all_keys_expanded(alloc)?;
    let events: &'static [Event] = match (is_open, is_all_open) {
        (true, true) => &[],
        (true, false) => &[Event::ExpandAll],
        (false, true) => &[Event::ExpandAll],
        (false, false) => &[Event::ExpandAll, Event::ExpandAll],
    };
    Ok(events)
}

/// Unfolds all of the session if `is_open`, and otherwise folds all.
fn set_folds<'state>(
    alloc: Global,
    session: Begun<'state>,
    is_open: bool,
) -> Result<BegunTurn<'state>, RecordError>
    ensures ok { IfOk result (λ turn. LeadsOn (Waiting session.entry) (turn_of turn)) }
    ensures folds { IfOk result (λ turn. Refolds session.entry (turn_of turn)) }
    ensures unfolded { IfOk result (λ turn. Unfolds is_open session.entry (turn_of turn)) }
    ensures err { IfErr result (λ e. e ≡ OutOfMemory) }
{
    let events = events_for(alloc, session.live().view_state(), is_open)?;
    press_each(session, events)
}

/// Returns whether the screen cannot show all of `keys`: there are none, or more than it has rows.
fn cannot_fit(session: &Begun<'_>, keys: &[SelectionKey]) -> bool
    ensures { result ≡ cannot_fit session.now keys.now }
{
    let rows = session.live().grid().height();
    let is_none = keys.len() == 0;
    let is_long = rows < keys.len();
    is_none | is_long
}

/// Returns the last of `keys`, or `None` if there are none.
fn last_of(keys: &[SelectionKey]) -> SelectionKey {
    match keys.last() {
        None => SelectionKey::None,
        Some(key) => *key,
    }
}

/// Returns the keys of all items of `session`, in the order of the screen.
fn items_of(alloc: Global, session: &Begun<'_>) -> Result<Vec<SelectionKey>, RecordError>
    ensures ok { IfOk result (λ keys. keys.items ≡ items_of session.now) }
    ensures err { IfErr result (λ e. e ≡ OutOfMemory) }
{
    all_keys(alloc, session.live().state().files.as_slice())
}

/// Returns the deeds that fold those of `keys` again that are folded in `session`: what is inside first.
fn folds_again(
    alloc: Global,
    session: &Begun<'_>,
    keys: &[SelectionKey],
) -> Result<Vec<Deed>, RecordError>
    ensures ok { IfOk result (λ deeds.
        deeds.items ≡ folds_again session.now.session.shown.expanded keys.now) }
    ensures err { IfErr result (λ e. e ≡ OutOfMemory) }
{
    let mut deeds = Vec::new(alloc);
    push_folds(&mut deeds, session.live().view_state(), keys)?;
    Ok(deeds)
}

/// Does `folds` and selects `back`, unless the screen shows `last`.
fn fold_unless_shown<'state>(
    session: Begun<'state>,
    last: SelectionKey,
    folds: &[Deed],
    back: SelectionKey,
) -> Result<BegunTurn<'state>, RecordError>
    ensures ok { IfOk result (λ turn. LeadsOn (Waiting session.entry) (turn_of turn)) }
    ensures folds { AreFolds folds.now
        → IfOk result (λ turn. Refolds session.entry (turn_of turn)) }
    ensures shown { IfOk result (λ turn.
        FoldsUnlessShown session.entry folds.now back (turn_of turn)) }
    ensures err { IfErr result (λ e. e ≡ OutOfMemory) }
{
    if shows(&session, last) {
        Ok(BegunTurn::Waiting(session))
    } else {
        do_round(session, folds, back)
    }
}

/// Unfolds all of the session, if the screen then shows the last of its keys.
fn unfold_if_fitting<'state>(
    alloc: Global,
    session: Begun<'state>,
) -> Result<BegunTurn<'state>, RecordError>
    ensures ok { IfOk result (λ turn. LeadsOn (Waiting session.entry) (turn_of turn)) }
    ensures folds { IfOk result (λ turn. Refolds session.entry (turn_of turn)) }
    ensures fits { IfOk result (λ turn. Fits session.entry (turn_of turn)) }
    ensures err { IfErr result (λ e. e ≡ OutOfMemory) }
{
    let keys = items_of(alloc, &session)?;
    if cannot_fit(&session, keys.as_slice()) {
        return Ok(BegunTurn::Waiting(session));
    }
    let last = last_of(keys.as_slice());
    let back = selection_of(&session);
    let folds = folds_again(alloc, &session, keys.as_slice())?;
    let turn = set_folds(alloc, session, true)?;
    match turn {
        BegunTurn::Waiting(mid) => fold_unless_shown(mid, last, folds.as_slice(), back),
        BegunTurn::Editing(editing) => Ok(BegunTurn::Editing(editing)),
        BegunTurn::Accepted(state) => Ok(BegunTurn::Accepted(state)),
    }
}

/// Unfolds in `session` what `folds` says.
pub(crate) fn fold_at_start<'state>(
    alloc: Global,
    session: Begun<'state>,
    folds: Folds,
) -> Result<BegunTurn<'state>, RecordError>
    ensures ok { IfOk result (λ turn. LeadsOn (Waiting session.entry) (turn_of turn)) }
    ensures folds { IfOk result (λ turn. Refolds session.entry (turn_of turn)) }
    ensures unfolded { IfOk result (λ turn. UnfoldsAs folds session.entry (turn_of turn)) }
    ensures err { IfErr result (λ e. e ≡ OutOfMemory) }
{
    match folds {
        Folds::AsIs => Ok(BegunTurn::Waiting(session)),
        Folds::Folded => set_folds(alloc, session, false),
        Folds::Open => set_folds(alloc, session, true),
        Folds::Fitting => unfold_if_fitting(alloc, session),
    }
}

/// Selects `first`, if there is such an item.
fn select_in<'state>(
    session: Begun<'state>,
    first: SelectionKey,
) -> Result<BegunTurn<'state>, RecordError>
    ensures selected { IfOk result (λ last.
        turn_of last ≡ Waiting (after_selecting session.entry first)) }
    ensures ok { IfOk result (λ last. LeadsOn (Waiting session.entry) (turn_of last)) }
    ensures err { IfErr result (λ e. e ≡ OutOfMemory) }
{
    let selected = session.select(first)?;
    Ok(BegunTurn::Waiting(selected))
}

/// Selects `first` in the session of `turn`, if there is such an item and the session waits.
pub(crate) fn select_first<'state>(
    turn: BegunTurn<'state>,
    first: SelectionKey,
) -> Result<BegunTurn<'state>, RecordError>
    ensures ok { IfOk result (λ last. LeadsOn (turn_of turn.entry) (turn_of last)) }
    ensures selected { (folds : Unfolding) → (l : Live) → Refolds l (turn_of turn.entry)
        → UnfoldsAs folds l (turn_of turn.entry)
        → IfOk result (λ last. Starts folds l first (turn_of last)) }
    ensures err { IfErr result (λ e. e ≡ OutOfMemory) }
{
    match turn {
        BegunTurn::Waiting(session) => select_in(session, first),
        BegunTurn::Editing(editing) => Ok(BegunTurn::Editing(editing)),
        BegunTurn::Accepted(state) => Ok(BegunTurn::Accepted(state)),
    }
}
