//! The other callers, each run once.
use crate::drawing::screen_of;
use crate::input::record_keys;
use crate::live::choose;
use crate::splitter::{changed_file, choose_lines};
use crate::terminal::choose_at_terminal;
use crate::tests::{check_equal, has_text, made, state_of_one_line};
use scm_record::{Event, File, RecordState, TerminalKind, Tristate};
use std::alloc::Global;
use std::process::Abort;

/// The keys that mark the first line.
const MARK: &[Event] = &[Event::FocusInner, Event::FocusInner, Event::ToggleItem];

/// The keys that mark the first line and confirm.
const KEYS: &[Event] = &[
    Event::FocusInner,
    Event::FocusInner,
    Event::ToggleItem,
    Event::QuitAccept,
];

/// The size of the tests' screen.
const KIND: TerminalKind = TerminalKind::Testing {
    width: 40,
    height: 6,
};

/// Returns a list of these keys.
fn keys(rt: &impl Abort, alloc: Global) -> Vec<Event> {
    made(rt, Vec::from_slice(alloc, KEYS))
}

/// Returns whether all items of each file are checked.
fn is_marked(state: &RecordState<'_>) -> bool {
    let files = state.files.as_slice();
    files.iter().all(|file| file.tristate() == Tristate::True)
}

/// Returns whether there is a state, and all items of each file are checked.
fn is_some_marked(state: &Option<RecordState<'_>>) -> bool {
    match state {
        Some(state) => is_marked(state),
        None => false,
    }
}

#[test]
fn keys_of_an_input_of_ones_own_mark_the_line(rt: HostRuntime) {
    let state = state_of_one_line(&rt, rt.alloc());
    let keys = keys(&rt, rt.alloc());
    let marked = made(&rt, record_keys(rt.alloc(), state, keys));
    check_equal(&rt, is_marked(&marked), true);
}

#[test]
fn a_session_is_driven_to_its_end(rt: HostRuntime) {
    let state = state_of_one_line(&rt, rt.alloc());
    let marked = made(&rt, choose(rt.alloc(), KIND, state, KEYS));
    check_equal(&rt, is_some_marked(&marked), true);
}

/// The bytes that a terminal sends for the keys right, right, space and `c`, split within the first
/// key.
const BYTES: [&[u8]; 3] = [&[27, 91], &[67, 27, 91, 67], &[32, 99]];

/// Returns whether `shown` has the added line, green and reversed: it is selected.
fn has_line(shown: &str) -> bool {
    shown.contains("\x1b[0;7;32m + a")
}

#[test]
fn bytes_of_a_terminal_mark_the_line(rt: HostRuntime) {
    let state = state_of_one_line(&rt, rt.alloc());
    let mut shown = String::new(rt.alloc());
    let marked = choose_at_terminal(rt.alloc(), KIND, state, &BYTES, &mut shown);
    check_equal(&rt, is_some_marked(&made(&rt, marked)), true);
    // before the last chunk the added line is selected
    check_equal(&rt, has_line(shown.as_str()), true);
}

#[test]
fn a_session_without_a_confirmed_quit_has_no_state(rt: HostRuntime) {
    let state = state_of_one_line(&rt, rt.alloc());
    let marked = made(&rt, choose(rt.alloc(), KIND, state, MARK));
    check_equal(&rt, marked.is_none(), true);
}

/// Checks the sides of `file`: the old line is not in the selected side, and the new line is in the
/// unselected one.
fn check_sides(rt: &impl Abort, alloc: Global, file: &File<'_>) {
    let (selected, unselected) = made(rt, file.get_selected_contents(alloc));
    check_equal(rt, has_text(&selected, "same\n"), true);
    check_equal(rt, has_text(&unselected, "same\nold\nnew\n"), true);
}

/// Checks that there is a state of one file with these sides.
fn check_split(rt: &impl Abort, alloc: Global, state: &Option<RecordState<'_>>) {
    let Some(state) = state else {
        panic!(rt; "the file is within the limits");
    };
    check_equal(rt, state.files.len(), 1);
    for file in state.files.as_slice() {
        check_sides(rt, alloc, file);
    }
}

#[test]
fn two_texts_are_split(rt: HostRuntime) {
    let file = made(
        &rt,
        changed_file(rt.alloc(), "f", "same\nold\n", "same\nnew\n"),
    );
    let keys = keys(&rt, rt.alloc());
    let marked = made(&rt, choose_lines(rt.alloc(), file, keys));
    check_split(&rt, rt.alloc(), &marked);
}

#[test]
fn a_folded_file_is_drawn(rt: HostRuntime) {
    let state = state_of_one_line(&rt, rt.alloc());
    let grid = made(&rt, screen_of(rt.alloc(), state, 12, 3, 0));
    check_equal(&rt, grid.symbol(1, 0), Some("["));
    check_equal(&rt, grid.symbol(1, 4), Some("f"));
    check_equal(&rt, grid.symbol(1, 10), Some("+"));
}
