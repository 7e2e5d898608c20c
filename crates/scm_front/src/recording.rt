//! The marks before an action are kept, if it changes them.
ghost use Rattle.std.specs.Prelude.{◌≡◌, [], IfSome, Some};
ghost use Rattle.std.specs.List.{list_any};
ghost use Rattle.scm_input.specs.declared.events.Event.{Event as Input};
ghost use Rattle.scm_front.specs.Driving.{turn_of};
ghost use Rattle.scm_front.specs.Fronts.{files_of};
ghost use Rattle.scm_front.specs.Recording.{Changes, Records, RecordsAt, RecordsUnread, Restarts, effect_of, may_mark, reach_by, reach_of, reach_of_all, reach_of_item, reach_of_owner, runs_within};

use crate::begun::{Begun, BegunTurn};
use scm_front_items::{History, Run, steps};
use scm_record::{ComponentId, Event, File, Items, SelectionKey, menus};
use std::alloc::Global;

/// Who changes marks.
#[derive(Clone, Copy)]
pub enum Author {
    /// The user. What the user changes can be undone.
    User,
    /// A program. What it changes is not the user's to undo.
    Program,
}

/// What an event does with marks.
#[derive(Clone, Copy)]
enum Effect {
    /// Nothing.
    Nothing,
    /// It toggles the selected item.
    Item,
    /// It changes all marks.
    All,
    /// It is a click, which may do any of these.
    Click {
        /// The row of the screen.
        row: usize,
        /// The column of the screen.
        column: usize,
    },
}

/// Which marks an event may change.
#[derive(Clone, Copy)]
enum Reach {
    /// None.
    Nothing,
    /// Those that a toggle of this item may change.
    Item(SelectionKey),
    /// Any.
    All,
}

/// Returns what `event` does with marks.
fn effect_of(event: Event) -> Effect
    ensures { result ≡ effect_of event }
{
    match event {
        Event::ToggleItem | Event::ToggleItemAndAdvance => Effect::Item,
        Event::ToggleAll | Event::ToggleAllUniform => Effect::All,
        Event::Click { row, column } => Effect::Click { row, column },
        Event::None
        | Event::QuitAccept
        | Event::QuitCancel
        | Event::QuitInterrupt
        | Event::QuitEscape
        | Event::TakeScreenshot(_)
        | Event::Redraw
        | Event::EnsureSelectionInViewport
        | Event::ScrollUp
        | Event::ScrollDown
        | Event::PageUp
        | Event::PageDown
        | Event::FocusPrev
        | Event::FocusPrevSameKind
        | Event::FocusPrevPage
        | Event::FocusNext
        | Event::FocusNextSameKind
        | Event::FocusNextPage
        | Event::FocusInner
        | Event::FocusOuter { .. }
        | Event::ExpandItem
        | Event::ExpandAll
        | Event::ToggleCommitViewMode
        | Event::EditCommitMessage
        | Event::Help => Effect::Nothing,
    }
}

/// Returns whether an event with `effect` may change marks.
fn may_mark(effect: Effect) -> bool
    ensures { result ≡ may_mark effect }
{
    match effect {
        Effect::Nothing => false,
        Effect::Item | Effect::All | Effect::Click { .. } => true,
    }
}

/// Returns which marks an event with `effect`, which is no click, may change while `selection` is
/// selected.
fn reach_by(selection: SelectionKey, effect: Effect) -> Reach
    ensures { result ≡ reach_by selection effect }
{
    match effect {
        Effect::Nothing | Effect::Click { .. } => Reach::Nothing,
        Effect::Item => Reach::Item(selection),
        Effect::All => Reach::All,
    }
}

/// Returns which marks a click on item `item` of the menu `menu` may change.
fn reach_of_item(selection: SelectionKey, menu: Option<usize>, item: usize) -> Reach
    ensures { result ≡ reach_of_item selection menu item }
{
    match menu {
        None => Reach::Nothing,
        Some(menu) => match menus::event_of_item(menu, item) {
            None => Reach::Nothing,
            Some(event) => reach_by(selection, effect_of(event)),
        },
    }
}

/// Returns which marks a click on `owner` may change.
fn reach_of_owner(session: &Begun<'_>, owner: Option<ComponentId>) -> Reach
    ensures { result ≡ reach_of_owner session.now owner }
{
    let view = session.live().view_state();
    match owner {
        Some(ComponentId::ToggleBox(key)) => Reach::Item(key),
        Some(ComponentId::MenuItem(item)) => { reach_of_item(view.selection, view.open_menu, item) }
        None
        | Some(
            ComponentId::App
            | ComponentId::AppFiles
            | ComponentId::CommitMessageView
            | ComponentId::CommitEditMessageButton(_)
            | ComponentId::MenuBar
            | ComponentId::MenuHeader
            | ComponentId::Menu(_)
            | ComponentId::SelectableItem(_)
            | ComponentId::ExpandBox(_)
            | ComponentId::FileViewHeader(_)
            | ComponentId::QuitDialog
            | ComponentId::QuitDialogButton(_)
            | ComponentId::HelpDialog
            | ComponentId::HelpDialogQuitButton,
        ) => Reach::Nothing,
    }
}

/// Returns which marks `event` may change.
fn reach_of(session: &Begun<'_>, event: Event) -> Reach
    ensures { result ≡ reach_of session.now event }
{
    match effect_of(event) {
        Effect::Click { row, column } => {
            reach_of_owner(session, session.live().owner(row, column))
        }
        Effect::Nothing => Reach::Nothing,
        Effect::Item => Reach::Item(session.live().view_state().selection),
        Effect::All => Reach::All,
    }
}

/// Returns whether one of `events` may change marks.
fn any_marks(events: &[Event]) -> bool
    ensures { result ≡ list_any (λ (event : Input). may_mark (effect_of event)) events.now }
{
    events.iter().any(|event| may_mark(effect_of(*event)))
}

/// Returns which marks `events` may change: any, if one of the events may change some.
fn reach_of_all(events: &[Event]) -> Reach
    ensures { result ≡ reach_of_all events.now }
{
    if any_marks(events) {
        Reach::All
    } else {
        Reach::Nothing
    }
}

/// Returns the marks of `files` within `reach`, or `None` if an allocation failed.
fn runs_within(alloc: Global, files: &[File<'_>], reach: Reach) -> Option<Items<Run>>
    ensures { IfSome result (λ runs. runs ≡ runs_within files.now reach) }
{
    match reach {
        Reach::Nothing => Some(Items::new(alloc)),
        Reach::Item(key) => steps::runs_of_key(alloc, files, key).ok(),
        Reach::All => steps::runs_of_files(alloc, files, 0, files.len()).ok(),
    }
}

/// Returns the marks that `event` may change, or `None` if an allocation failed.
pub(crate) fn runs_before(alloc: Global, session: &Begun<'_>, event: Event) -> Option<Items<Run>>
    ensures taken { IfSome result (λ runs. runs
        ≡ runs_within (files_of session.now) (reach_of session.now event)) }
    ensures calm { session.now.session.pending ≡ [] }
{
    let files = session.live().state().files.as_slice();
    runs_within(alloc, files, reach_of(session, event))
}

/// Returns the marks that `events` may change, or `None` if an allocation failed: all of them, if one of
/// the events may change any.
pub(crate) fn runs_before_all(
    alloc: Global,
    session: &Begun<'_>,
    events: &[Event],
) -> Option<Items<Run>>
    ensures taken { IfSome result (λ runs. runs
        ≡ runs_within (files_of session.now) (reach_of_all events.now)) }
    ensures calm { session.now.session.pending ≡ [] }
{
    let files = session.live().state().files.as_slice();
    runs_within(alloc, files, reach_of_all(events))
}

/// Returns `history` after an action that left `files`: with those of the marks `before` it that changed.
/// If they are not known, drops all steps.
fn recorded(
    history: History,
    alloc: Global,
    files: &[File<'_>],
    before: Option<Items<Run>>,
) -> History
    ensures { Records history before files.now result }
{
    let mut history = history;
    match before {
        None => history.forget(alloc),
        Some(before) => {
            let step = steps::changed_step(files, before);
            if !step.runs.is_empty() {
                history.remember(alloc, step);
            }
        }
    }
    history
}

/// Returns `history` after events of a program that left `files`: begun anew, if the marks `before` them
/// changed or are not known.
fn restarted(
    history: History,
    alloc: Global,
    files: &[File<'_>],
    before: Option<Items<Run>>,
) -> History
    ensures { Restarts history before files.now result }
{
    match before {
        None => History::new(alloc),
        Some(before) => {
            if steps::changed_step(files, before).runs.is_empty() {
                history
            } else {
                History::new(alloc)
            }
        }
    }
}

/// Returns `history` after an action that led to a message that is edited. The marks after it are not
/// read, so all steps are dropped, unless the action could change none.
fn recorded_unread(history: History, alloc: Global, before: Option<Items<Run>>) -> History
    ensures records { RecordsUnread history before result }
    ensures stays { before ≡ Some [] → result ≡ history }
{
    match before {
        Some(before) if before.is_empty() => history,
        Some(_) | None => History::new(alloc),
    }
}

/// Returns `history` after an action of `author` that left `files`, if the marks `before` it are these.
fn changed(
    history: History,
    alloc: Global,
    files: &[File<'_>],
    author: Author,
    before: Option<Items<Run>>,
) -> History
    ensures { Changes author history before files.now result }
{
    match author {
        Author::User => recorded(history, alloc, files, before),
        Author::Program => restarted(history, alloc, files, before),
    }
}

/// Returns `history` after an action of `author` that led to `turn`, if the marks `before` it are these.
/// If the session has ended, nothing is kept of the action.
pub(crate) fn history_after(
    history: History,
    alloc: Global,
    author: Author,
    before: Option<Items<Run>>,
    turn: &BegunTurn<'_>,
) -> History
    ensures { RecordsAt author history before (turn_of turn.now) result }
{
    match turn {
        BegunTurn::Waiting(session) => {
            let files = session.live().state().files.as_slice();
            changed(history, alloc, files, author, before)
        }
        BegunTurn::Editing(_) => recorded_unread(history, alloc, before),
        BegunTurn::Accepted(_) => history,
    }
}
