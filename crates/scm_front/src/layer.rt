//! A layer over a live session.
ghost use Rattle.std.specs.Prelude.{◌≡◌, ◌+◌, ◌≤◌, [], ◌∷◌, ◌++◌, Bool, List, Some, IfErr, IfNone, IfOk, IsTrue, OnErr, OnOk, option_to_list, string_bytes, if◌then◌else◌};
ghost use Rattle.scm_errors.specs.declared.error.RecordError.TheVariants.{OutOfMemory};
ghost use Rattle.scm_types.specs.Limits.{is_accepted_state};
ghost use Rattle.scm_types.specs.Keys.{is_key};
ghost use Rattle.scm_input.specs.declared.events.Event.TheVariants.{Click as ClickEvent};
ghost use Rattle.scm_record.specs.Session.{message_text, start};
ghost use Rattle.scm_record.specs.Live.{on_screen};
ghost use Rattle.scm_record.specs.LiveCalls.{BatchFails, BatchLeads, Call, EventFails, EventLeads, MessageFails, MessageLeads, Path, Press};
ghost use Rattle.scm_record.specs.declared.live.Turn.TheVariants.{Editing as EditingTurn, Waiting};
ghost use Rattle.scm_front_items.specs.declared.items.Way.{Way as Direction};
ghost use Rattle.scm_front_items.specs.declared.runs.Step.{Step as Past};
ghost use Rattle.scm_front.specs.declared.kept.Notice.TheVariants.{NotRestored};
ghost use Rattle.scm_front.specs.declared.actions.Action.TheVariants.{Again, Click, Drag, Edit, Go, Mark, Pass, Range, Seek};
ghost use Rattle.scm_front.specs.Actions.{has_key};
ghost use Rattle.scm_front.specs.Asking.{new_query};
ghost use Rattle.scm_front.specs.Driving.{turn_of};
ghost use Rattle.scm_front.specs.Keeping.{IsNew, KeepsAs, after_range, anchored, done_word, is_none, nothing_left, other_way, saying, steps_of};
ghost use Rattle.scm_front.specs.Presses.{PressesFail, PressesLead};
ghost use Rattle.scm_front.specs.Logging.{IsLogged};
ghost use Rattle.scm_front.specs.Handing.{HandsOn};
ghost use Rattle.scm_front.specs.Restoring.{RestoresTo};
ghost use Rattle.scm_front.specs.Recording.{RecordsAt, Returns, back_of};
ghost use Rattle.scm_front_items.specs.Runs.{marks_of_files, marks_with};
ghost use Rattle.scm_front_items.specs.Histories.{no_history};
ghost use Rattle.scm_front.specs.Starting.{Starts};
ghost use Rattle.scm_front.specs.Fronts.{ClickFails, Does, IsGiven, KeyFails, RemembersIn, beneath_of, drag_anchor, end_word, files_of, front, front_of, found, heard, is_dragged, is_elsewhere, is_silent, mode_of, notice_of, pressed_line, restoring, said_word, search_word};

use crate::accepted::AcceptedState;
use crate::actions::{Action, Mode, OwnKey, action_of, has_key};
use crate::asking::{Query, Typing, after_typing, new_query, with_word};
use crate::begun::{Begun, BegunEdit, BegunTurn};
use crate::clicking::{box_at, is_half, item_at, merely_selects};
use crate::kept::{Kept, Notice, is_line, is_none};
use crate::logging::Logging;
use crate::marking::{
    Restoring, destination, is_restored, range_deeds, restore, runs_of_range, selection_of,
    what_to_restore,
};
use crate::passing::word_after;
use crate::presses::press_each;
use crate::recording::{Author, history_after, runs_before, runs_before_all};
use crate::scrolling::do_quiet_round;
use crate::starting::{Folds, fold_at_start, select_first};
use scm_front_items::{History, Place, Run, Step, Way, is_towards, item_around};
use scm_record::keys::is_key;
use scm_record::{
    Editing, Event, Items, LiveSession, RecordError, RecordState, SelectionKey, TerminalEvent,
    TerminalKind,
};
use std::alloc::Global;

/// A live session that waits for an event, with what the layer keeps.
#[derive(Drop)]
pub struct Front<'state> {
    /// The session beneath.
    beneath: Begun<'state>,
    /// The text that is searched for.
    query: Query,
    /// What else the layer keeps.
    kept: Kept,
}

/// A live session that waits for the message of a commit, with what the layer keeps.
#[derive(Drop)]
pub struct FrontEditing<'state> {
    /// The session beneath.
    beneath: BegunEdit<'state>,
    /// The text that is searched for.
    query: Query,
    /// What else the layer keeps.
    kept: Kept,
}

/// What a call of a front leads to.
#[derive(Drop)]
pub enum FrontTurn<'state> {
    /// The session beneath waits for the next event.
    Waiting(Front<'state>),
    /// The session beneath waits for the message of a commit.
    Editing(FrontEditing<'state>),
    /// The session has ended, with the changes of this state accepted.
    Accepted(AcceptedState<'state>),
}

/// Returns `turn` of the session beneath with what the layer keeps.
fn front_turn<'state>(turn: BegunTurn<'state>, query: Query, kept: Kept) -> FrontTurn<'state>
    ensures value { result ≡ front_of (turn_of turn.entry) query kept }
    ensures beneath { beneath_of result ≡ turn_of turn.entry }
{
    match turn {
        BegunTurn::Waiting(beneath) => FrontTurn::Waiting(Front {
            beneath,
            query,
            kept,
        }),
        BegunTurn::Editing(beneath) => FrontTurn::Editing(FrontEditing {
            beneath,
            query,
            kept,
        }),
        BegunTurn::Accepted(state) => FrontTurn::Accepted(state),
    }
}

/// Returns what the layer keeps at first: no range, no keys and no history.
fn new_kept(alloc: Global) -> Kept
    ensures { IsNew result }
{
    Kept {
        anchor: SelectionKey::None,
        word: Notice::Nothing,
        keys: Items::new(alloc),
        history: History::new(alloc),
        alloc,
    }
}

/// Returns `kept` with `word` as what the layer says.
fn saying(kept: Kept, word: Notice) -> Kept
    ensures { result ≡ saying kept word }
{
    let mut kept = kept;
    kept.word = word;
    kept
}

/// Returns `kept` with a range begun at `anchor`, or without one.
fn anchored(kept: Kept, anchor: SelectionKey) -> Kept
    ensures { result ≡ anchored kept anchor }
{
    let mut kept = kept;
    kept.anchor = anchor;
    kept
}

/// Returns `kept` after an action of `author` that led to `turn`, if the marks `before` it are these.
fn recorded(kept: Kept, author: Author, before: Option<Items<Run>>, turn: &BegunTurn<'_>) -> Kept
    ensures keeps { KeepsAs kept kept.anchor kept.word result }
    ensures history { RecordsAt author kept.history before (turn_of turn.now) result.history }
{
    let Kept {
        anchor,
        word,
        keys,
        history,
        alloc,
    } = kept;
    let history = history_after(history, alloc, author, before, turn);
    Kept {
        anchor,
        word,
        keys,
        history,
        alloc,
    }
}

/// Returns `turn`, to which events of `author` led, with what the layer keeps after them, if the marks
/// `before` them are these. The layer says `word` of them.
fn handed<'state>(
    turn: BegunTurn<'state>,
    query: Query,
    kept: Kept,
    author: Author,
    before: Option<Items<Run>>,
    word: Notice,
) -> FrontTurn<'state>
    ensures { HandsOn (turn_of turn.entry) query kept author before word result }
{
    let kept = saying(recorded(kept, author, before, &turn), word);
    front_turn(turn, with_word(query, false), kept)
}

/// Returns whether another item than `key` is selected.
fn is_elsewhere(key: SelectionKey, session: &Begun<'_>) -> bool
    ensures { result ≡ is_elsewhere key session.now }
{
    !is_key(session.live().view_state().selection, key)
}

/// Returns what the layer says of a search that went on at the other end.
fn end_word(way: Way) -> Notice
    ensures { result ≡ end_word way }
{
    match way {
        Way::Down => Notice::FromTop,
        Way::Up => Notice::FromEnd,
    }
}

/// Returns what the layer says of a search in direction `way` that found `key` from `selection`.
fn search_word(way: Way, selection: SelectionKey, key: SelectionKey) -> Notice
    ensures { result ≡ search_word way selection key }
{
    if is_towards(way, selection, key) {
        Notice::Nothing
    } else {
        end_word(way)
    }
}

/// Returns whether `word` says nothing.
fn is_silent(word: Notice) -> bool
    ensures { result ≡ is_silent word }
{
    match word {
        Notice::Nothing | Notice::Pressed => true,
        Notice::Asking
        | Notice::NotFound
        | Notice::FromTop
        | Notice::FromEnd
        | Notice::Range
        | Notice::NoLine
        | Notice::NoMessage
        | Notice::Undone
        | Notice::Redone
        | Notice::NothingToUndo
        | Notice::NothingToRedo
        | Notice::NotRestored => false,
    }
}

/// Returns what the layer says, unless it says something of a search: the word of the last key, or that a
/// range is begun.
fn said_word(kept: &Kept) -> Notice
    ensures { result ≡ said_word kept.now }
{
    let is_silent = is_silent(kept.word);
    let is_ranging = !is_none(kept.anchor);
    if is_silent & is_ranging {
        Notice::Range
    } else {
        kept.word
    }
}

/// Returns `kept` after a range was begun at `selection` or ended.
fn after_range(kept: Kept, selection: SelectionKey) -> Kept
    ensures { result ≡ after_range kept selection }
{
    if is_none(kept.anchor) {
        if is_line(selection) {
            saying(anchored(kept, selection), Notice::Nothing)
        } else {
            saying(kept, Notice::NoLine)
        }
    } else {
        saying(anchored(kept, SelectionKey::None), Notice::Nothing)
    }
}

/// Returns the line at which a drag begins a range: `selection`, if it is a line and `word` says that the last key
/// was a click on it.
fn pressed_line(word: Notice, selection: SelectionKey) -> SelectionKey
    ensures { result ≡ pressed_line word selection }
{
    match word {
        Notice::Pressed => {
            if is_line(selection) {
                selection
            } else {
                SelectionKey::None
            }
        }
        Notice::Nothing
        | Notice::Asking
        | Notice::NotFound
        | Notice::FromTop
        | Notice::FromEnd
        | Notice::Range
        | Notice::NoLine
        | Notice::NoMessage
        | Notice::Undone
        | Notice::Redone
        | Notice::NothingToUndo
        | Notice::NothingToRedo
        | Notice::NotRestored => SelectionKey::None,
    }
}

/// Returns the line at which the range of a drag begins, or `None`: where a range is begun, or where the button
/// went down.
fn drag_anchor(kept: &Kept, selection: SelectionKey) -> SelectionKey
    ensures { result ≡ drag_anchor kept.now selection }
{
    if is_none(kept.anchor) {
        pressed_line(kept.word, selection)
    } else {
        kept.anchor
    }
}

/// Returns whether a drag from `anchor` comes to another item: there is a range, and at the place an item that
/// is not selected.
fn is_dragged(session: &Begun<'_>, anchor: SelectionKey, row: usize, column: usize) -> bool
    ensures { result ≡ is_dragged session.now anchor row column }
{
    let item = item_at(session, row, column);
    let is_range = !is_none(anchor);
    let is_item = !is_none(item);
    let is_other = !is_key(item, selection_of(session));
    is_range & is_item & is_other
}

/// Takes the step to restore from the history of `kept`: upwards the last change, downwards what was undone
/// last.
fn take_step(kept: &mut Kept, way: Way) -> Option<Step>
    ensures step { steps_of way kept.old.history
        ≡ steps_of way kept.new.history ++ option_to_list result }
    ensures none { IfNone result (steps_of way kept.old.history ≡ []) }
    ensures other { steps_of (other_way way) kept.new.history
        ≡ steps_of (other_way way) kept.old.history }
    ensures kept { KeepsAs kept.old kept.old.anchor kept.old.word kept.new }
{
    match way {
        Way::Up => kept.history.take_undo(),
        Way::Down => kept.history.take_redo(),
    }
}

/// Returns `kept` with `back` to go back from a restoring in direction `way`, and with the word that it is
/// done.
fn with_back(kept: Kept, way: Way, back: Step) -> Kept
    ensures keeps { KeepsAs kept kept.anchor (done_word way) result }
    ensures returns { Returns way (steps_of way kept.history) back kept.history result.history }
{
    let mut kept = kept;
    match way {
        Way::Up => {
            kept.history.keep_redo(kept.alloc, back);
            saying(kept, Notice::Undone)
        }
        Way::Down => {
            kept.history.keep_undo(kept.alloc, back);
            saying(kept, Notice::Redone)
        }
    }
}

/// Returns `kept` without steps, and with the word that marks are not restored.
fn without_steps(kept: Kept) -> Kept
    ensures keeps { KeepsAs kept kept.anchor NotRestored result }
    ensures history { result.history ≡ no_history }
{
    let mut kept = kept;
    kept.history.forget(kept.alloc);
    saying(kept, Notice::NotRestored)
}

/// Returns `kept` after marks were to be restored: if they are, with `back` to go back.
fn after_restoring(kept: Kept, way: Way, is_restored: bool, back: Step) -> Kept
    ensures keeps { KeepsAs kept kept.anchor
        (if is_restored then done_word way else NotRestored) result }
    ensures returns { IsTrue is_restored
        → Returns way (steps_of way kept.history) back kept.history result.history }
{
    if is_restored {
        with_back(kept, way, back)
    } else {
        without_steps(kept)
    }
}

/// Restores marks in direction `way`, as `what` says.
fn restored<'state>(
    beneath: Begun<'state>,
    query: Query,
    kept: Kept,
    way: Way,
    what: Restoring,
) -> Result<FrontTurn<'state>, RecordError>
    ensures ok { IfOk result (λ turn.
        RestoresTo beneath.entry query kept way what.wanted what.back turn) }
    ensures err { IfErr result (λ e. e ≡ OutOfMemory) }
{
    let Restoring { wanted, back } = what;
    let turn = restore(kept.alloc, beneath, &wanted)?;
    let is_done = is_restored(&turn, &wanted);
    let kept = after_restoring(kept, way, is_done, back);
    Ok(front_turn(turn, query, kept))
}

/// Restores no marks, since an allocation failed, and drops all steps.
fn given_up<'state>(
    beneath: Begun<'state>,
    query: Query,
    kept: Kept,
) -> Result<FrontTurn<'state>, RecordError>
    ensures ok { (way : Direction) → (wanted : List (List (List Bool))) → (back : Past)
        → IfOk result (λ turn. RestoresTo beneath.entry query kept way wanted back turn) }
    ensures err { IfErr result (λ e. e ≡ OutOfMemory) }
{
    let kept = without_steps(kept);
    let back = selection_of(&beneath);
    let turn = do_quiet_round(beneath, &[], back)?;
    Ok(front_turn(turn, query, kept))
}

/// Restores the marks of `step` in direction `way`.
fn restore_step<'state>(
    beneath: Begun<'state>,
    query: Query,
    kept: Kept,
    way: Way,
    step: Step,
) -> Result<FrontTurn<'state>, RecordError>
    ensures ok { IfOk result (λ turn. RestoresTo beneath.entry query kept way
        (marks_with step (marks_of_files (files_of beneath.entry)))
        (back_of (files_of beneath.entry) step) turn) }
    ensures err { IfErr result (λ e. e ≡ OutOfMemory) }
{
    match what_to_restore(kept.alloc, &beneath, &step) {
        Ok(what) => restored(beneath, query, kept, way, what),
        Err(_) => given_up(beneath, query, kept),
    }
}

/// Returns the word that says that nothing is left to restore in direction `way`.
fn nothing_left(way: Way) -> Notice
    ensures { result ≡ nothing_left way }
{
    match way {
        Way::Up => Notice::NothingToUndo,
        Way::Down => Notice::NothingToRedo,
    }
}

impl<'state> Front<'state> {
    /// Creates a session over `state`, drawn on a screen of size `kind`. No text is searched for.
    ///
    /// # Errors
    ///
    /// - `OutOfMemory`: an allocation failed; the state is dropped.
    pub fn new(
        alloc: Global,
        kind: TerminalKind,
        state: RecordState<'state>,
    ) -> Result<Front<'state>, RecordError>
        requires { IsTrue (is_accepted_state state) }
        ensures beneath { IfOk result (λ f.
            f.beneath ≡ record { session = start state.entry; kind = kind }) }
        ensures query { IfOk result (λ f. f.query ≡ new_query) }
        ensures kept { IfOk result (λ f. IsNew f.kept) }
        ensures err { IfErr result (λ e. e ≡ OutOfMemory) }
    {
        let beneath = Begun::new(alloc, kind, state)?;
        let query = new_query(alloc);
        let kept = new_kept(alloc);
        Ok(Front {
            beneath,
            query,
            kept,
        })
    }

    /// Unfolds what `folds` says, and selects `first`. If there is no such item, the selection stays. Marks,
    /// messages and dialogs stay as they are, and so do what the layer keeps and the keys of the user's own.
    ///
    /// # Errors
    ///
    /// An error ends the session.
    ///
    /// - `OutOfMemory`: an allocation failed.
    pub fn begin(self, folds: Folds, first: SelectionKey) -> Result<FrontTurn<'state>, RecordError>
        ensures ok { IfOk result (λ turn. (calls : List Call)
            × Path (Waiting self.entry.beneath) calls (beneath_of turn)) }
        ensures kept { IfOk result (λ turn.
            turn ≡ front_of (beneath_of turn) self.entry.query self.entry.kept) }
        ensures starts { IfOk result (λ turn.
            Starts folds self.entry.beneath first (beneath_of turn)) }
        ensures err { IfErr result (λ e. e ≡ OutOfMemory) }
    {
        let Front {
            beneath,
            query,
            kept,
        } = self;
        let folded = fold_at_start(kept.alloc, beneath, folds)?;
        let turn = select_first(folded, first)?;
        Ok(front_turn(turn, query, kept))
    }

    /// Sets the keys of the user's own, which come before those of the layer and of the session. Of two keys
    /// that are equal the last one counts.
    pub fn set_keys(&mut self, keys: Items<OwnKey>)
        ensures { self.new
            ≡ record self.old { kept = record self.old.kept { keys = keys } } }
    {
        self.kept.keys = keys;
    }

    /// Hands `event` to the session beneath.
    ///
    /// # Errors
    ///
    /// An error ends the session: the errors are those of [`LiveSession::handle`].
    pub fn handle(self, event: Event) -> Result<FrontTurn<'state>, RecordError>
        ensures ok { IfOk result (λ turn. Does self.entry (Pass event) (Press event ∷ []) turn) }
        ensures leads { IfOk result (λ turn.
            EventLeads self.entry.beneath event (beneath_of turn)) }
        ensures err { IfErr result (λ e. EventFails self.entry.beneath event e) }
    {
        let Front {
            beneath,
            query,
            kept,
        } = self;
        let before = runs_before(kept.alloc, &beneath, event);
        let word = word_after(&beneath, event);
        let turn = beneath.handle(event)?;
        Ok(handed(turn, query, kept, Author::User, before, word))
    }

    /// Hands a click at `row` and `column` of the screen, both counted from 0, to the session beneath. If it
    /// merely selects the item of a box, and the box is at that place then, hands it in once more: one click
    /// acts on the box.
    ///
    /// # Errors
    ///
    /// An error ends the session: the errors are those of [`LiveSession::handle`].
    pub fn click(self, row: usize, column: usize) -> Result<FrontTurn<'state>, RecordError>
        ensures ok { IfOk result (λ turn.
            (calls : List Call) × Does self.entry (Click row column) calls turn) }
        ensures err { IfErr result (λ e. ClickFails self.entry row column e) }
    {
        let first = box_at(&self.beneath, row, column);
        let is_selecting = merely_selects(selection_of(&self.beneath), first);
        match self.handle(Event::Click { row, column })? {
            FrontTurn::Waiting(next) => {
                if is_half(is_selecting, first, &next.beneath, row, column) {
                    next.handle(Event::Click { row, column })
                } else {
                    Ok(FrontTurn::Waiting(next))
                }
            }
            FrontTurn::Editing(editing) => Ok(FrontTurn::Editing(editing)),
            FrontTurn::Accepted(state) => Ok(FrontTurn::Accepted(state)),
        }
    }

    /// Moves the end of the range to the item at `row` and `column` of the screen, both counted from 0. If no
    /// range is begun and the last key was a click on a line, begins one there. If there is no item, or it is
    /// selected, or there is no range, the front is unchanged.
    ///
    /// # Errors
    ///
    /// An error ends the session: the errors are those of [`LiveSession::handle`].
    pub fn drag(self, row: usize, column: usize) -> Result<FrontTurn<'state>, RecordError>
        ensures ok { IfOk result (λ turn.
            (calls : List Call) × Does self.entry (Drag row column) calls turn) }
        ensures err { IfErr result (λ e.
            EventFails self.entry.beneath (ClickEvent row column) e) }
    {
        let anchor = drag_anchor(&self.kept, selection_of(&self.beneath));
        if is_dragged(&self.beneath, anchor, row, column) {
            self.with_anchor(anchor)
                .handle(Event::Click { row, column })
        } else {
            Ok(FrontTurn::Waiting(self))
        }
    }

    /// Returns the front with a range begun at `anchor`, or without one.
    fn with_anchor(self, anchor: SelectionKey) -> Front<'state>
        ensures { result ≡ front self.entry.beneath self.entry.query
            (anchored self.entry.kept anchor) }
    {
        let Front {
            beneath,
            query,
            kept,
        } = self;
        let kept = anchored(kept, anchor);
        Front {
            beneath,
            query,
            kept,
        }
    }

    /// Hands `events` to the session beneath as one batch, as [`LiveSession::handle_all`] does.
    ///
    /// # Errors
    ///
    /// An error ends the session: the errors are those of [`LiveSession::handle_all`].
    pub fn handle_all(self, events: &[Event]) -> Result<FrontTurn<'state>, RecordError>
        ensures ok { IfOk result (λ turn.
            BatchLeads self.entry.beneath events.now (beneath_of turn)) }
        ensures remembers { IfOk result (λ turn. RemembersIn
            (marks_of_files (files_of self.entry.beneath)) self.entry.kept.history turn) }
        ensures err { IfErr result (λ e. BatchFails self.entry.beneath events.now e) }
    {
        let Front {
            beneath,
            query,
            kept,
        } = self;
        let before = runs_before_all(kept.alloc, &beneath, events);
        let turn = beneath.handle_all(events)?;
        Ok(handed(turn, query, kept, Author::User, before, Notice::Nothing))
    }

    /// Hands in `event` of a program to the session beneath. What a program changes is not the user's to
    /// undo: if marks change, the history begins anew.
    ///
    /// # Errors
    ///
    /// An error ends the session: the errors are those of [`LiveSession::handle`].
    pub fn hand_in(self, event: Event) -> Result<FrontTurn<'state>, RecordError>
        ensures ok { IfOk result (λ turn.
            EventLeads self.entry.beneath event (beneath_of turn)) }
        ensures given { IfOk result (λ turn. IsGiven self.entry turn) }
        ensures err { IfErr result (λ e. EventFails self.entry.beneath event e) }
    {
        let Front {
            beneath,
            query,
            kept,
        } = self;
        let before = runs_before(kept.alloc, &beneath, event);
        let turn = beneath.handle(event)?;
        Ok(handed(turn, query, kept, Author::Program, before, Notice::Nothing))
    }

    /// Hands in `events` of a program to the session beneath as one batch. If marks change, the history
    /// begins anew.
    ///
    /// # Errors
    ///
    /// An error ends the session: the errors are those of [`LiveSession::handle_all`].
    pub fn hand_in_all(self, events: &[Event]) -> Result<FrontTurn<'state>, RecordError>
        ensures ok { IfOk result (λ turn.
            BatchLeads self.entry.beneath events.now (beneath_of turn)) }
        ensures given { IfOk result (λ turn. IsGiven self.entry turn) }
        ensures err { IfErr result (λ e. BatchFails self.entry.beneath events.now e) }
    {
        let Front {
            beneath,
            query,
            kept,
        } = self;
        let before = runs_before_all(kept.alloc, &beneath, events);
        let turn = beneath.handle_all(events)?;
        Ok(handed(turn, query, kept, Author::Program, before, Notice::Nothing))
    }

    /// Hands `events` to the session beneath in order, up to the first that ends the session or asks
    /// for a message. Later events are dropped.
    ///
    /// # Errors
    ///
    /// An error ends the session: it is that of the first event that fails.
    pub fn press_all(self, events: &[Event]) -> Result<FrontTurn<'state>, RecordError>
        ensures ok { IfOk result (λ turn.
            PressesLead self.entry.beneath events.now (beneath_of turn)) }
        ensures remembers { IfOk result (λ turn. RemembersIn
            (marks_of_files (files_of self.entry.beneath)) self.entry.kept.history turn) }
        ensures err { IfErr result (λ e. PressesFail self.entry.beneath events.now e) }
    {
        let Front {
            beneath,
            query,
            kept,
        } = self;
        let before = runs_before_all(kept.alloc, &beneath, events);
        let turn = press_each(beneath, events)?;
        let kept = recorded(kept, Author::User, before, &turn);
        Ok(front_turn(turn, query, kept))
    }

    /// Types the text to search for. The session beneath is unchanged.
    ///
    /// # Errors
    ///
    /// An error ends the session.
    ///
    /// - `OutOfMemory`: an allocation failed.
    pub fn edit(self, typing: Typing) -> Result<FrontTurn<'state>, RecordError>
        ensures ok { IfOk result (λ turn. Does self.entry (Edit typing) [] turn) }
        ensures err { IfErr result (λ e. e ≡ OutOfMemory) }
    {
        let Front {
            beneath,
            query,
            kept,
        } = self;
        let query = after_typing(query, typing)?;
        Ok(FrontTurn::Waiting(Front {
            beneath,
            query,
            kept: saying(kept, Notice::Nothing),
        }))
    }

    /// Returns the nearest item in direction `way` whose text has the text that was searched for last. At the
    /// end of the items the search goes on at the other end.
    fn found(&self, way: Way) -> Option<SelectionKey>
        ensures { result ≡ found way self.now }
    {
        let view = self.beneath().view_state();
        item_around(
            way,
            self.query.sought.as_str(),
            view.state.files.as_slice(),
            view.selection,
        )
    }

    /// Selects `key`, which a search in direction `way` found, and says whether it is selected then.
    fn jump(self, way: Way, key: SelectionKey) -> Result<FrontTurn<'state>, RecordError>
        ensures ok { found way self.entry ≡ Some key → IfOk result
            (λ turn. (calls : List Call) × Does self.entry (Again way) calls turn) }
        ensures err { IfErr result (λ e. e ≡ OutOfMemory) }
    {
        let Front {
            beneath,
            query,
            kept,
        } = self;
        let word = search_word(way, selection_of(&beneath), key);
        let beneath = beneath.select(key)?;
        let is_missing = is_elsewhere(key, &beneath);
        Ok(FrontTurn::Waiting(Front {
            beneath,
            query: with_word(query, is_missing),
            kept: saying(kept, word),
        }))
    }

    /// Searches in direction `way` for the text that was searched for last. At the end of the items it goes on
    /// at the other end. If an item is found, selects it. If not, the session beneath is unchanged.
    ///
    /// # Errors
    ///
    /// An error ends the session.
    ///
    /// - `OutOfMemory`: an allocation failed.
    pub fn search(self, way: Way) -> Result<FrontTurn<'state>, RecordError>
        ensures ok { IfOk result (λ turn.
            (calls : List Call) × Does self.entry (Again way) calls turn) }
        ensures err { IfErr result (λ e. e ≡ OutOfMemory) }
    {
        match self.found(way) {
            None => {
                let Front {
                    beneath,
                    query,
                    kept,
                } = self;
                let query = with_word(query, true);
                Ok(FrontTurn::Waiting(Front {
                    beneath,
                    query,
                    kept,
                }))
            }
            Some(key) => self.jump(way, key),
        }
    }

    /// Ends the question, and searches downwards for its text.
    ///
    /// # Errors
    ///
    /// An error ends the session: the errors are those of [`Front::search`].
    pub fn seek(self) -> Result<FrontTurn<'state>, RecordError>
        ensures ok { IfOk result (λ turn.
            (calls : List Call) × Does self.entry Seek calls turn) }
        ensures err { IfErr result (λ e. e ≡ OutOfMemory) }
    {
        let Front {
            beneath,
            query,
            kept,
        } = self;
        let query = after_typing(query, Typing::Finish)?;
        let asked = Front {
            beneath,
            query,
            kept,
        };
        asked.search(Way::Down)
    }

    /// Selects the item to which a move to `place` leads, and unfolds what it is in. If there is none, the
    /// selection stays. No mark changes, and a range stays begun.
    ///
    /// # Errors
    ///
    /// An error ends the session.
    ///
    /// - `OutOfMemory`: an allocation failed.
    pub fn go(self, place: Place) -> Result<FrontTurn<'state>, RecordError>
        ensures ok { IfOk result (λ turn.
            (calls : List Call) × Does self.entry (Go place) calls turn) }
        ensures err { IfErr result (λ e. e ≡ OutOfMemory) }
    {
        let Front {
            beneath,
            query,
            kept,
        } = self;
        let key = destination(kept.alloc, &beneath, place)?;
        let beneath = beneath.select(key)?;
        Ok(FrontTurn::Waiting(Front {
            beneath,
            query: with_word(query, false),
            kept: saying(kept, Notice::Nothing),
        }))
    }

    /// Begins a range at the selected line, or ends the range if one is begun. The session beneath is
    /// unchanged.
    pub fn range(self) -> Front<'state>
        ensures { Does self.entry Range [] (FrontTurn.Waiting result) }
    {
        let Front {
            beneath,
            query,
            kept,
        } = self;
        let selection = selection_of(&beneath);
        let kept = after_range(kept, selection);
        Front {
            beneath,
            query: with_word(query, false),
            kept,
        }
    }

    /// Sets all lines from that at which a range was begun to the selection to the mark that the first of
    /// them gets by a toggle, and ends the range.
    ///
    /// # Errors
    ///
    /// An error ends the session.
    ///
    /// - `OutOfMemory`: an allocation failed.
    pub fn mark(self) -> Result<FrontTurn<'state>, RecordError>
        ensures ok { IfOk result (λ turn.
            (calls : List Call) × Does self.entry Mark calls turn) }
        ensures err { IfErr result (λ e. e ≡ OutOfMemory) }
    {
        let Front {
            beneath,
            query,
            kept,
        } = self;
        let anchor = kept.anchor;
        let before = runs_of_range(kept.alloc, &beneath, anchor);
        let deeds = range_deeds(kept.alloc, &beneath, anchor)?;
        let back = selection_of(&beneath);
        let turn = do_quiet_round(beneath, deeds.as_slice(), back)?;
        let kept = anchored(
            recorded(kept, Author::User, before, &turn),
            SelectionKey::None,
        );
        Ok(front_turn(turn, with_word(query, false), saying(kept, Notice::Nothing)))
    }

    /// Undoes the last change of marks (`Way::Up`), or does again what was undone last (`Way::Down`). Folds
    /// stay, and so does a range that is begun.
    ///
    /// # Errors
    ///
    /// An error ends the session.
    ///
    /// - `OutOfMemory`: an allocation failed.
    pub fn restore(self, way: Way) -> Result<FrontTurn<'state>, RecordError>
        ensures ok { IfOk result (λ turn.
            (calls : List Call) × Does self.entry (restoring way) calls turn) }
        ensures err { IfErr result (λ e. e ≡ OutOfMemory) }
    {
        let Front {
            beneath,
            query,
            kept,
        } = self;
        let mut kept = kept;
        let query = with_word(query, false);
        match take_step(&mut kept, way) {
            None => {
                let kept = saying(kept, nothing_left(way));
                Ok(FrontTurn::Waiting(Front {
                    beneath,
                    query,
                    kept,
                }))
            }
            Some(step) => restore_step(beneath, query, kept, way, step),
        }
    }

    /// Returns whether `event` is one of the user's own keys.
    pub fn has_key(&self, event: TerminalEvent) -> bool
        ensures { result ≡ has_key self.now.kept.keys event }
    {
        has_key(self.kept.keys.as_slice(), event)
    }

    /// Returns who hears a key.
    pub fn mode(&self) -> Mode
        ensures { result ≡ mode_of self.now }
    {
        let view = self.beneath().view_state();
        if self.query.is_asking {
            Mode::Asking
        } else if view.quit_dialog.is_some() || view.is_help_open {
            Mode::Dialog
        } else if is_none(self.kept.anchor) {
            Mode::Free
        } else {
            Mode::Ranging
        }
    }

    /// Hears `event` of the terminal.
    ///
    /// # Errors
    ///
    /// An error ends the session. It is that of the event of the session that the key means
    /// ([`LiveSession::handle`]), or:
    ///
    /// - `OutOfMemory`: an allocation failed.
    pub fn hear(self, event: TerminalEvent) -> Result<FrontTurn<'state>, RecordError>
        ensures ok { IfOk result (λ turn.
            (calls : List Call) × Does self.entry (heard self.entry event) calls turn) }
        ensures err { IfErr result (λ e. KeyFails self.entry event e) }
    {
        let action = action_of(self.mode(), self.kept.keys.as_slice(), event);
        match action {
            Action::Pass(event) => self.handle(event),
            Action::Edit(typing) => self.edit(typing),
            Action::Seek => self.seek(),
            Action::Again(way) => self.search(way),
            Action::Go(place) => self.go(place),
            Action::Click { row, column } => self.click(row, column),
            Action::Drag { row, column } => self.drag(row, column),
            Action::Range => Ok(FrontTurn::Waiting(self.range())),
            Action::Mark => self.mark(),
            Action::Undo => self.restore(Way::Up),
            Action::Redo => self.restore(Way::Down),
            Action::Ignore => Ok(FrontTurn::Waiting(self)),
        }
    }

    /// Draws the session on a screen of size `kind`.
    ///
    /// # Errors
    ///
    /// - `OutOfMemory`: an allocation failed; the session is unchanged.
    pub fn resize(&mut self, kind: TerminalKind) -> Result<(), RecordError>
        ensures ok { OnOk result (self.new.beneath ≡ on_screen self.old.beneath kind) }
        ensures unchanged { OnErr result (self.new.beneath ≡ self.old.beneath) }
        ensures query { self.new.query ≡ self.old.query }
        ensures kept { self.new.kept ≡ self.old.kept }
        ensures err { IfErr result (λ e. e ≡ OutOfMemory) }
    {
        self.beneath.resize(kind)
    }

    /// Begins to log the calls of the session beneath, if none was made yet, and returns whether they are
    /// logged. The log goes on to the accepted state ([`AcceptedState::logging`]). An error drops it with
    /// the session.
    ///
    /// If an allocation fails for the log, the session goes on without it: [`Front::logging`] returns
    /// [`Logging::Lost`] then.
    pub fn log(&mut self) -> bool
        ensures { self.new ≡ self.old }
    {
        self.beneath.log(self.kept.alloc)
    }

    /// Returns what is logged of the calls of the session beneath.
    pub fn logging(&self) -> &Logging
        ensures { IsLogged result.now (Waiting self.now.beneath) }
    {
        self.beneath.logging()
    }

    /// Returns the session beneath, to read.
    pub fn beneath(&self) -> &LiveSession<'state>
        ensures { result.now ≡ self.now.beneath }
    {
        self.beneath.live()
    }

    /// Returns the text that is searched for.
    pub fn query(&self) -> &Query
        ensures { result.now ≡ self.now.query }
    {
        &self.query
    }

    /// Returns what the layer says until the next key.
    pub fn notice(&self) -> Notice
        ensures { result ≡ notice_of self.now }
    {
        if self.query.is_asking {
            Notice::Asking
        } else if self.query.is_missing {
            Notice::NotFound
        } else {
            said_word(&self.kept)
        }
    }

    /// Returns the line at which a range is begun, or `None`.
    pub fn anchor(&self) -> SelectionKey
        ensures { result ≡ self.now.kept.anchor }
    {
        self.kept.anchor
    }
}

impl<'state> FrontEditing<'state> {
    /// Returns what is logged of the calls of the session beneath.
    pub fn logging(&self) -> &Logging
        ensures { IsLogged result.now (EditingTurn self.now.beneath) }
    {
        self.beneath.logging()
    }

    /// Returns the session beneath, to read the message that is edited.
    pub fn beneath(&self) -> &Editing<'state>
        ensures { result.now ≡ self.now.beneath }
    {
        &self.beneath.editing
    }

    /// Sets the message of the commit to `text`, and returns what that leads to.
    ///
    /// # Errors
    ///
    /// An error ends the session: the errors are those of [`Editing::answer`].
    pub fn answer(self, text: String) -> Result<FrontTurn<'state>, RecordError>
        ensures ok { IfOk result (λ turn.
            MessageLeads self.entry.beneath (string_bytes text) (beneath_of turn)) }
        ensures kept { IfOk result (λ turn.
            turn ≡ front_of (beneath_of turn) self.entry.query self.entry.kept) }
        ensures err { IfErr result (λ e. MessageFails self.entry.beneath (string_bytes text) e) }
    {
        let FrontEditing {
            beneath,
            query,
            kept,
        } = self;
        let turn = beneath.answer(text)?;
        Ok(front_turn(turn, query, kept))
    }

    /// Keeps the message as it is, and returns what that leads to.
    ///
    /// # Errors
    ///
    /// An error ends the session: the errors are those of [`Editing::keep`].
    pub fn keep(self) -> Result<FrontTurn<'state>, RecordError>
        ensures ok { IfOk result (λ turn. MessageLeads self.entry.beneath
            (message_text self.entry.beneath.session self.entry.beneath.commit)
            (beneath_of turn)) }
        ensures kept { IfOk result (λ turn.
            turn ≡ front_of (beneath_of turn) self.entry.query self.entry.kept) }
        ensures err { IfErr result (λ e. MessageFails self.entry.beneath
            (message_text self.entry.beneath.session self.entry.beneath.commit) e) }
    {
        let FrontEditing {
            beneath,
            query,
            kept,
        } = self;
        let turn = beneath.keep()?;
        Ok(front_turn(turn, query, kept))
    }
}
