//! Calls without a session.
use crate::checks::{check_equal, made};
use crate::layer::states::state_of_files;
use scm_front::{
    AcceptedState, Action, Logging, Mode, OwnKey, Place, Typing, Way, action_of, item_around,
};
use scm_record::key_lists::{file_key, line_key};
use scm_record::{
    Event, KeyCode, KeyEvent, KeyEventKind, KeyModifiers, MouseButton, MouseEvent, MouseEventKind,
    SelectionKey, TerminalEvent,
};
use std::alloc::Global;
use std::process::Abort;

/// Returns the event of pressing the key `code`.
fn pressed_code(code: KeyCode) -> TerminalEvent {
    TerminalEvent::Key(KeyEvent {
        code,
        modifiers: KeyModifiers::NONE,
        kind: KeyEventKind::Press,
    })
}

/// Returns the event of pressing the key of `character`.
fn pressed(character: char) -> TerminalEvent {
    pressed_code(KeyCode::Char(character))
}

#[test]
fn keys_are_known_without_a_session(rt: HostRuntime) {
    let again = action_of(Mode::Free, &[], pressed('n'));
    check_equal(&rt, matches!(again, Action::Again(Way::Down)), true);
    let first = action_of(Mode::Ranging, &[], pressed('g'));
    check_equal(&rt, matches!(first, Action::Go(Place::First)), true);
    let end = action_of(Mode::Free, &[], pressed_code(KeyCode::End));
    check_equal(&rt, matches!(end, Action::Go(Place::Last)), true);
    let unheard = action_of(Mode::Asking, &[], pressed_code(KeyCode::Home));
    check_equal(&rt, matches!(unheard, Action::Ignore), true);
    let typed = action_of(Mode::Asking, &[], pressed('n'));
    check_equal(&rt, matches!(typed, Action::Edit(Typing::Add('n'))), true);
}

/// Returns the event of the mouse at row 3 and column 2 of the screen.
fn moused(kind: MouseEventKind) -> TerminalEvent {
    TerminalEvent::Mouse(MouseEvent {
        kind,
        column: 2,
        row: 3,
        modifiers: KeyModifiers::NONE,
    })
}

#[test]
fn the_mouse_is_known_without_a_session(rt: HostRuntime) {
    let down = moused(MouseEventKind::Down(MouseButton::Left));
    let acts = action_of(Mode::Free, &[], down);
    check_equal(
        &rt,
        matches!(acts, Action::Click { row: 3, column: 2 }),
        true,
    );
    let selects = action_of(Mode::Free, &[OwnKey::ClickSelects], down);
    check_equal(
        &rt,
        matches!(selects, Action::Pass(Event::Click { row: 3, column: 2 })),
        true,
    );
    let drag = moused(MouseEventKind::Drag(MouseButton::Left));
    let moves = action_of(Mode::Ranging, &[], drag);
    check_equal(
        &rt,
        matches!(moves, Action::Drag { row: 3, column: 2 }),
        true,
    );
}

/// Returns the item that a search for `pattern` finds from file 0.
fn found(rt: &impl Abort, alloc: Global, way: Way, pattern: &str) -> Option<SelectionKey> {
    let state = made(rt, state_of_files(alloc));
    item_around(way, pattern, state.files.as_slice(), file_key(0))
}

#[test]
fn items_are_found_without_a_session(rt: HostRuntime) {
    let below = found(&rt, rt.alloc(), Way::Down, "two");
    check_equal(&rt, below, Some(line_key(0, 1, 1)));
    let around = found(&rt, rt.alloc(), Way::Up, "two");
    check_equal(&rt, around, Some(line_key(1, 1, 0)));
}

#[test]
fn accepted_states_are_given_back(rt: HostRuntime) {
    let accepted = AcceptedState::unlogged(made(&rt, state_of_files(rt.alloc())));
    check_equal(&rt, matches!(accepted.logging(), Logging::Off), true);
    check_equal(&rt, accepted.state().files.len(), 4);
    check_equal(&rt, accepted.into_state().files.len(), 4);
}
