//! Runs over scripts: what is left of the script after a run, and how many frames it draws.
use crate::checks::{check_equal, check_text, made};
use crate::given::run;
use scm_record::{
    Commit, Event, File, RecordError, RecordInput, RecordState, Screens, ScriptEdit, ScriptInput,
    ScriptRead, Section,
};
use std::alloc::{AllocError, Global};
use std::process::Abort;

/// A read of a script, as a constant.
#[derive(Clone, Copy)]
pub(crate) enum Read {
    Batch(&'static [Event]),
    Fault(&'static str),
}

/// Returns the read of a script for the constant `read`.
fn read_of(rt: &impl Abort, alloc: Global, read: Read) -> ScriptRead {
    match read {
        Read::Batch(events) => ScriptRead::Batch(made(rt, Vec::from_slice(alloc, events))),
        Read::Fault(text) => ScriptRead::Fault(made(rt, String::from_str(alloc, text))),
    }
}

/// Returns the reads of a script for the constants `given`.
fn reads_of(rt: &impl Abort, alloc: Global, given: &[Read]) -> Vec<ScriptRead> {
    let mut reads = Vec::new(alloc);
    for read in given {
        made(rt, reads.push(read_of(rt, alloc, *read)));
    }
    reads
}

/// Returns two edits: the answer `bye`, and then the fault `gone`.
fn two_edits(rt: &impl Abort, alloc: Global) -> Vec<ScriptEdit> {
    let answer = made(rt, String::from_str(alloc, "bye"));
    let fault = made(rt, String::from_str(alloc, "gone"));
    let edits = vec![in alloc; ScriptEdit::Answer(answer), ScriptEdit::Fault(fault)];
    made(rt, edits)
}

/// Returns an input of the reads `given`, and of two edits: the answer `bye`, and then the fault
/// `gone`.
pub(crate) fn script(
    rt: &impl Abort,
    alloc: Global,
    width: usize,
    height: usize,
    given: &[Read],
) -> ScriptInput {
    let reads = reads_of(rt, alloc, given);
    made(
        rt,
        ScriptInput::new(alloc, width, height, reads, two_edits(rt, alloc)),
    )
}

/// Adds the marks of a section's lines to `text`: `1` for a checked line, else `0`.
fn push_marks(text: &mut String, section: &Section<'_>) -> Result<(), AllocError> {
    if let Section::Changed { lines } = section {
        for line in lines.as_slice() {
            text.push(if line.is_checked { '1' } else { '0' })?;
        }
    }
    Ok(())
}

/// Adds the marks of the lines of `file` to `text`.
fn push_file(text: &mut String, file: &File<'_>) -> Result<(), AllocError> {
    for section in file.sections.as_slice() {
        push_marks(text, section)?;
    }
    Ok(())
}

/// Adds a space and the commit's message to `text`, if it has one.
fn push_message(text: &mut String, commit: &Commit) -> Result<(), AllocError> {
    if let Some(message) = &commit.message {
        text.push(' ')?;
        text.push_str(message.as_str())?;
    }
    Ok(())
}

/// Adds the marks of the lines of `files` to `text`.
fn push_files(text: &mut String, files: &[File<'_>]) -> Result<(), AllocError> {
    for file in files {
        push_file(text, file)?;
    }
    Ok(())
}

/// Adds the messages of `commits` to `text`.
fn push_messages(text: &mut String, commits: &[Commit]) -> Result<(), AllocError> {
    for commit in commits {
        push_message(text, commit)?;
    }
    Ok(())
}

/// Returns the marks and the messages of an accepted state.
fn state_words(alloc: Global, state: &RecordState<'_>) -> Result<String, AllocError> {
    let mut text = String::from_str(alloc, "accepted ")?;
    push_files(&mut text, state.files.as_slice())?;
    push_messages(&mut text, state.commits.as_slice())?;
    Ok(text)
}

/// Returns the marks and the messages of an accepted state, or the text of the error.
pub(crate) fn words(
    alloc: Global,
    outcome: &Result<RecordState<'static>, RecordError>,
) -> Result<String, AllocError> {
    match outcome {
        Ok(state) => state_words(alloc, state),
        Err(error) => format!(in alloc; "{error}"),
    }
}

/// Runs `input` on a state whose first commit has `message`, and returns the outcome in words.
pub(crate) fn outcome_of(
    rt: &impl Abort,
    alloc: Global,
    message: Option<&'static str>,
    input: &mut dyn RecordInput,
    screens: &mut Screens,
) -> Result<String, AllocError> {
    let outcome = run(rt, alloc, (message, None), input, screens);
    words(alloc, &outcome)
}

/// Returns the answer of the next edit, or the text of its error.
fn edit_words(alloc: Global, input: &mut dyn RecordInput) -> Result<String, AllocError> {
    match input.edit_commit_message("hello") {
        Ok(answer) => Ok(answer),
        Err(error) => format!(in alloc; "{error}"),
    }
}

/// A run: the first commit's message, the reads, the outcome, the number of frames, the number of
/// reads left, and the outcome of the next edit.
type Row = (
    Option<&'static str>,
    &'static [Read],
    &'static str,
    usize,
    usize,
    &'static str,
);

/// Edits the message.
pub(crate) const EDIT: Event = Event::EditCommitMessage;

/// Accepts, while no dialog is open.
pub(crate) const ACCEPT: Event = Event::QuitAccept;

/// Selects the first key inside the selected one.
pub(crate) const INNER: Event = Event::FocusInner;

/// Toggles the selection.
pub(crate) const TOGGLE: Event = Event::ToggleItem;

/// A message.
pub(crate) const HELLO: Option<&'static str> = Some("hello");

/// The error of an input without more reads.
const NO_EVENTS: &'static str = "failed to read user input: no events left";

/// The error of a read that fails.
const GONE: &'static str = "failed to read user input: gone";

/// A click outside every screen.
pub(crate) const FAR: Event = Event::Click {
    row: usize::MAX,
    column: usize::MAX,
};

/// Opens the menu Select.
const MENU: Event = Event::Click { row: 0, column: 15 };

/// Chooses the second item of the menu Select.
const ITEM: Event = Event::Click { row: 2, column: 15 };

/// The rows of the table.
const ROWS: &[Row] = &[
    // events after the accepting one are not handled, and the next read is left
    (
        HELLO,
        &[Read::Batch(&[TOGGLE, ACCEPT, EDIT]), Read::Batch(&[TOGGLE])],
        "accepted 11 hello",
        1,
        1,
        "bye",
    ),
    (
        HELLO,
        &[Read::Batch(&[EDIT, ACCEPT])],
        "accepted 00 bye",
        1,
        0,
        "gone",
    ),
    // there is no message to edit: the answers are left, and yet the screen is drawn again
    (
        None,
        &[Read::Batch(&[EDIT]), Read::Batch(&[ACCEPT])],
        "accepted 00",
        3,
        0,
        "bye",
    ),
    // a fault of an edit ends the run
    (
        HELLO,
        &[Read::Batch(&[EDIT, EDIT, EDIT]), Read::Batch(&[ACCEPT])],
        "gone",
        1,
        1,
        "No more commit messages available",
    ),
    // so does a fault of a read, wherever it is; an event that moves has a second frame
    (
        HELLO,
        &[
            Read::Fault("gone"),
            Read::Batch(&[INNER]),
            Read::Batch(&[TOGGLE]),
            Read::Batch(&[ACCEPT]),
        ],
        GONE,
        1,
        3,
        "bye",
    ),
    (
        HELLO,
        &[
            Read::Batch(&[INNER]),
            Read::Fault("gone"),
            Read::Batch(&[TOGGLE]),
            Read::Batch(&[ACCEPT]),
        ],
        GONE,
        3,
        2,
        "bye",
    ),
    (
        HELLO,
        &[
            Read::Batch(&[INNER]),
            Read::Batch(&[TOGGLE]),
            Read::Fault("gone"),
            Read::Batch(&[ACCEPT]),
        ],
        GONE,
        4,
        1,
        "bye",
    ),
    (
        HELLO,
        &[
            Read::Batch(&[INNER]),
            Read::Batch(&[INNER]),
            Read::Batch(&[TOGGLE]),
            Read::Fault("gone"),
        ],
        GONE,
        6,
        0,
        "bye",
    ),
    (
        HELLO,
        &[
            Read::Batch(&[TOGGLE]),
            Read::Fault("disk gone"),
            Read::Batch(&[ACCEPT]),
        ],
        "failed to read user input: disk gone",
        2,
        1,
        "bye",
    ),
    // a batch may be empty
    (HELLO, &[Read::Batch(&[])], NO_EVENTS, 2, 0, "bye"),
    (HELLO, &[], NO_EVENTS, 1, 0, "bye"),
    // a click as far away as possible hits nothing: the toggle acts on the selection from before it
    (
        HELLO,
        &[Read::Batch(&[FAR, TOGGLE, FAR, ACCEPT])],
        "accepted 11 hello",
        1,
        0,
        "bye",
    ),
    // events that a move and a click on a menu item leave for later have frames of their own
    (
        None,
        &[
            Read::Batch(&[INNER]),
            Read::Batch(&[MENU]),
            Read::Batch(&[ITEM]),
        ],
        NO_EVENTS,
        7,
        0,
        "bye",
    ),
];

/// Checks that the outcome of a run, in words, and its number of frames are `wanted`.
fn check_outcome(
    rt: &impl Abort,
    alloc: Global,
    message: Option<&'static str>,
    input: &mut dyn RecordInput,
    wanted: (&str, usize),
) {
    let mut screens = Screens::new(alloc);
    let text = made(rt, outcome_of(rt, alloc, message, input, &mut screens));
    check_equal(rt, (text.as_str(), screens.frames()), wanted);
}

/// Runs `row` and checks it.
fn check_row(rt: &impl Abort, alloc: Global, row: Row) {
    let mut input = script(rt, alloc, 80, 24, row.1);
    check_equal(rt, input.batches_left(), row.1.len());
    check_outcome(rt, alloc, row.0, &mut input, (row.2, row.3));
    check_equal(rt, (row.2, input.batches_left()), (row.2, row.4));
    check_text(rt, edit_words(alloc, &mut input), row.5);
}

#[test]
fn a_script_keeps_what_is_left(rt: HostRuntime) {
    for row in ROWS {
        check_row(&rt, rt.alloc(), *row);
    }
}
