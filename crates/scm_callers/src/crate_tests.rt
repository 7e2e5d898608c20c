//! The tests of the Rust crate, repeated here.
use crate::tests::{check_equal, made};
use scm_record::{
    Commit, Event, File, FileMode, Items, RecordError, RecordInput, RecordState, Recorder, Screens,
    TestingInput, Text, push_spans_from_line,
};
use std::alloc::Global;
use std::process::Abort;

/// Returns an input of one event.
fn input_of(rt: &impl Abort, alloc: Global, event: Event) -> TestingInput {
    let events = made(rt, vec![in alloc; event]);
    made(rt, TestingInput::new(alloc, 80, 24, events))
}

/// Returns a state of two commits and one file without sections.
fn state_of_a_file(rt: &impl Abort, alloc: Global) -> RecordState<'static> {
    let file = File {
        old_path: None,
        path: Text::from("foo/bar"),
        file_mode: FileMode::FILE_DEFAULT,
        sections: Items::new(alloc),
    };
    let commits = vec![in alloc; Commit { message: None }, Commit { message: None }];
    RecordState {
        is_read_only: false,
        commits: Items::from(made(rt, commits)),
        files: Items::from(made(rt, vec![in alloc; file])),
    }
}

/// Runs one event on `state`, which is within the limits.
fn run<'a>(
    rt: &impl Abort,
    alloc: Global,
    state: RecordState<'a>,
    event: Event,
) -> Result<RecordState<'a>, RecordError> {
    assert!(rt; state.is_accepted());
    let recorder = made(rt, Recorder::new(alloc, state));
    let mut screens = Screens::new(alloc);
    recorder.run(&mut input_of(rt, alloc, event), &mut screens)
}

/// Checks that `input` returns `event` alone.
fn check_event(rt: &impl Abort, input: &mut TestingInput, event: Event) {
    let events = made(rt, input.next_events());
    check_equal(rt, events.as_slice(), [event].as_slice());
}

/// An input returns its one event, and then none.
#[test]
fn event_source_testing(rt: HostRuntime) {
    let mut input = input_of(&rt, rt.alloc(), Event::QuitCancel);
    check_event(&rt, &mut input, Event::QuitCancel);
    check_event(&rt, &mut input, Event::None);
}

/// Returns whether a run was given up.
fn is_cancelled(outcome: &Result<RecordState<'_>, RecordError>) -> bool {
    matches!(outcome, Err(RecordError::Cancelled))
}

/// Giving up returns an error.
#[test]
fn quit_returns_error(rt: HostRuntime) {
    let state = RecordState::empty(rt.alloc());
    let outcome = run(&rt, rt.alloc(), state, Event::QuitCancel);
    check_equal(&rt, is_cancelled(&outcome), true);
}

/// Accepting returns the state, here unchanged.
#[test]
fn quit_returns_state(rt: HostRuntime) {
    let state = state_of_a_file(&rt, rt.alloc());
    let accepted = made(&rt, run(&rt, rt.alloc(), state, Event::QuitAccept));
    check_equal(&rt, accepted, state_of_a_file(&rt, rt.alloc()));
}

/// Lines, and how many spans they become.
const LINES: &[(&str, usize)] = &[
    ("", 0),
    ("a", 1),
    ("a\tb", 3),
    ("\u{200d}\u{0}", 4),
    ("日本\n", 2),
];

/// Checks that `line` becomes `count` spans.
fn check_spans(rt: &impl Abort, alloc: Global, line: &str, count: usize) {
    let mut spans = Vec::new(alloc);
    made(rt, push_spans_from_line(line, &mut spans));
    check_equal(rt, spans.len(), count);
}

/// Any line becomes spans. The Rust crate tries random lines; here a proof covers all of them. A
/// line without replaced characters is one span.
#[test]
fn push_lines_from_span(rt: HostRuntime) {
    for (line, count) in LINES {
        check_spans(&rt, rt.alloc(), *line, *count);
    }
}
