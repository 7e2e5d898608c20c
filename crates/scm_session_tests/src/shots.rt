//! Runs over one store: each keeps its screenshot at the place that it names, if the store has it.
use crate::checks::{check_equal, check_text, made};
use crate::scripts::{FAR, Read, outcome_of, script};
use scm_record::{Event, Screens, TestingScreenshot};
use std::alloc::Global;
use std::process::Abort;

/// Opens the file.
const OPEN: Read = Read::Batch(&[Event::FocusInner]);

/// Takes a screenshot to the first place.
const SHOT: Read = Read::Batch(&[Event::TakeScreenshot(TestingScreenshot { place: 0 })]);

/// Takes a screenshot to a place that a store of one place lacks.
const NOWHERE: Read = Read::Batch(&[Event::TakeScreenshot(TestingScreenshot { place: 3 })]);

/// Accepts.
const ACCEPT: Read = Read::Batch(&[Event::QuitAccept]);

/// Scrolls down by a row.
const DOWN: Event = Event::ScrollDown;

/// The reads of a run on three columns and three rows, its outcome, and the text that the store has
/// after it.
type Row = (&'static [Read], &'static str, &'static str);

/// The runs, all over one store.
const ROWS: &[Row] = &[
    (
        &[OPEN, Read::Batch(&[]), SHOT, ACCEPT],
        "accepted 00",
        "\"[Fi\"\n\"[-]\"\n\"(-)\"\n",
    ),
    (
        &[OPEN, Read::Batch(&[DOWN, DOWN, DOWN]), SHOT, ACCEPT],
        "accepted 00",
        "\"[Fi\"\n\"[-]\"\n\"   \"\n",
    ),
    // a click as far away as possible changes no screen
    (
        &[OPEN, Read::Batch(&[FAR]), SHOT, ACCEPT],
        "accepted 00",
        "\"[Fi\"\n\"[-]\"\n\"(-)\"\n",
    ),
    (
        &[OPEN, Read::Batch(&[DOWN]), NOWHERE, ACCEPT],
        "no such screenshot place",
        "\"[Fi\"\n\"[-]\"\n\"(-)\"\n",
    ),
];

/// Runs `row` over `screens`, and checks the outcome and the text at `shot`.
fn check_row(
    rt: &impl Abort,
    alloc: Global,
    screens: &mut Screens,
    shot: TestingScreenshot,
    row: Row,
) {
    let mut input = script(rt, alloc, 3, 3, row.0);
    let outcome = outcome_of(rt, alloc, None, &mut input, screens);
    check_text(rt, outcome, row.1);
    check_equal(rt, screens.text(shot), row.2);
}

#[test]
fn screenshots_are_kept_at_their_places(rt: HostRuntime) {
    let mut screens = Screens::new(rt.alloc());
    let first = made(&rt, screens.place());
    for row in ROWS {
        check_row(&rt, rt.alloc(), &mut screens, first, *row);
    }
    // a move has two frames, each other read one
    check_equal(&rt, screens.frames(), 5 + 5 + 5 + 4);
}
