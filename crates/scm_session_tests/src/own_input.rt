//! Runs over an input of their own: the message that an edit gets, and reads and edits whose
//! allocations fail.
use crate::checks::{check_equal, made};
use crate::copying::Copying;
use crate::given::{Messages, run, state_of};
use scm_record::{Event, RecordError, RecordInput, RecordState, Screens, TestingScreenshot};
use std::alloc::Global;
use std::process::Abort;

/// Accepts, while no dialog is open.
const ACCEPT: Event = Event::QuitAccept;

/// Edits the first message.
const EDIT: Event = Event::EditCommitMessage;

/// Shows both commits side by side.
const BOTH: Event = Event::ToggleCommitViewMode;

/// Clicks the second commit's button for its message.
const SECOND: Event = Event::Click { row: 2, column: 45 };

/// Both commits' messages, the events, the message that an edit gets, if an edit is asked for, and
/// the number of events that are left: the edit fails, and then the accepting event is not read.
type Asking = (Messages, &'static [Event], Option<&'static str>, usize);

/// The rows of the table. Without a message no edit is asked for.
const ASKINGS: &[Asking] = &[
    (
        (Some("hello"), Some("there")),
        &[EDIT, ACCEPT],
        Some("hello"),
        1,
    ),
    (
        (Some("hello"), Some("there")),
        &[BOTH, SECOND, ACCEPT],
        Some("there"),
        1,
    ),
    ((Some(""), None), &[BOTH, EDIT, ACCEPT], Some(""), 1),
    (
        (None, Some("there")),
        &[BOTH, SECOND, ACCEPT],
        Some("there"),
        1,
    ),
    ((None, Some("there")), &[EDIT, ACCEPT], None, 0),
    ((Some("hello"), None), &[BOTH, SECOND, ACCEPT], None, 0),
];

/// Runs `input`, and returns whether the run ends without an error.
fn is_accepted(
    rt: &impl Abort,
    alloc: Global,
    messages: Messages,
    input: &mut dyn RecordInput,
) -> bool {
    let mut screens = Screens::new(alloc);
    run(rt, alloc, messages, input, &mut screens).is_ok()
}

/// Checks which message `input` was asked to edit, if any.
fn check_asked(rt: &impl Abort, input: &Copying, wanted: Option<&str>) {
    let asked = input.asked.as_ref().map(|message| message.as_str());
    check_equal(rt, asked, wanted);
}

/// Checks whether an edit is asked for, and with which message.
fn check_asking(rt: &impl Abort, alloc: Global, row: Asking) {
    let mut input = made(rt, Copying::new(alloc, 80, 24, row.1));
    let is_accepted = is_accepted(rt, alloc, row.0, &mut input);
    check_equal(rt, is_accepted, row.2.is_none());
    check_asked(rt, &input, row.2);
    check_equal(rt, input.batches_left(), row.3);
}

#[test]
fn an_edit_is_asked_with_the_message(rt: HostRuntime) {
    for row in ASKINGS {
        check_asking(&rt, rt.alloc(), *row);
    }
}

/// The messages before the run.
const HELLO: Messages = (Some("hello"), None);

/// The messages after it.
const BYE: Messages = (Some("bye"), None);

/// The screen, once the file is open.
const SCREEN: &str = r#""[File] [Edit] [Select] ["
"                        "
"[Edit message]  •  hello"
"                        "
"[ ] f                [-]"
"  ( ) Section 1/1    (-)"
"    [ ] + x⏎            "
"    [ ] + y⏎            "
"#;

/// The text for a place without a screenshot.
const ABSENT: &str = "<this screenshot was never assigned>";

/// The events: the file is opened, a screenshot taken, and the message edited.
const EVENTS: &[Event] = &[
    Event::FocusInner,
    Event::TakeScreenshot(TestingScreenshot { place: 0 }),
    EDIT,
    ACCEPT,
];

/// Returns an input of the events, and of an answer.
fn input_of(alloc: Global) -> Result<Copying, RecordError> {
    let mut input = Copying::new(alloc, 24, 8, EVENTS)?;
    input.answers.push_back(String::from_str(alloc, "bye")?)?;
    Ok(input)
}

/// Checks the screenshot `text`, which may be missing if the run ends in a fault.
fn check_shot(rt: &impl Abort, text: &str, is_fault: bool) {
    let expected = if is_fault && text == ABSENT {
        ABSENT
    } else {
        SCREEN
    };
    check_equal(rt, text, expected);
}

/// Checks that `state` has the new message.
fn check_state(
    rt: &impl Abort,
    alloc: Global,
    state: &RecordState<'static>,
) -> Result<(), RecordError> {
    check_equal(rt, state, &state_of(alloc, BYE)?);
    Ok(())
}

/// Runs `input`, and checks the screenshot and the accepted state.
fn check_input(
    rt: &impl Abort,
    alloc: Global,
    input: &mut dyn RecordInput,
) -> Result<(), RecordError> {
    let mut screens = Screens::new(alloc);
    let shot = screens.place()?;
    let outcome = run(rt, alloc, HELLO, input, &mut screens);
    check_shot(rt, screens.text(shot), outcome.is_err());
    check_state(rt, alloc, &outcome?)
}

/// Runs the events.
fn check_run(rt: &impl Abort, alloc: Global) -> Result<(), RecordError> {
    let mut input = input_of(alloc)?;
    check_input(rt, alloc, &mut input)
}

/// `tools/refuse-memory` runs this test with each of its requests for memory refused.
#[test]
fn refused_memory_ends_runs(rt: HostRuntime) -> Result<(), RecordError> {
    check_run(&rt, rt.alloc())
}
