//! The scripts of the table whose batches have one event each, run over a list of events.
use crate::read_state;
use crate::rows::ROWS;
use crate::tests::{example_of, size_of};
use scm_record::{
    Event, RecordError, RecordState, Recorder, Screens, TestingInput, TestingScreenshot,
};
use scm_script::{Word, accepted_text, read_word};
use std::alloc::Global;
use std::process::Abort;
use std::test::Fail;

/// The events of a script, and the places of its screens.
#[derive(Drop)]
struct Listed {
    /// The events, one for each batch.
    events: Vec<Event>,
    /// The places of the screens, in order.
    shots: Vec<TestingScreenshot>,
}

/// Returns the event of `word`. A screenshot gets a new place, which is added to `shots`.
fn event_of(
    word: &str,
    screens: &mut Screens,
    shots: &mut Vec<TestingScreenshot>,
) -> Result<Option<Event>, RecordError> {
    match read_word(word) {
        Some(Word::Event(event)) => Ok(Some(event)),
        Some(Word::Shot) => {
            let shot = screens.place()?;
            shots.push(shot)?;
            Ok(Some(shot.event()))
        }
        None => Ok(None),
    }
}

/// Returns the events of a script, or `None` unless each of its commands is a batch of one word.
fn list_events(
    alloc: Global,
    input: &str,
    screens: &mut Screens,
) -> Result<Option<Listed>, RecordError> {
    let mut events = Vec::new(alloc);
    let mut shots = Vec::new(alloc);
    for line in input.lines().skip(3) {
        let word = line.strip_prefix("batch ").unwrap_or("");
        match event_of(word, screens, &mut shots)? {
            Some(event) => events.push(event)?,
            None => return Ok(None),
        }
    }
    Ok(Some(Listed { events, shots }))
}

/// Adds the screens to `text` in order, each after its number.
fn push_screens(
    text: &mut String,
    alloc: Global,
    screens: &Screens,
    shots: &[TestingScreenshot],
) -> Result<(), Fail> {
    for (index, shot) in shots.iter().enumerate() {
        let screen = screens.text(*shot);
        let end = if screen.starts_with('<') { "\n" } else { "" };
        text.push_str(format!(in alloc; "screen {index}\n{screen}{end}")?.as_str())?;
    }
    Ok(())
}

/// Adds the outcome of a run to `text`, in the program's words.
fn push_outcome(
    text: &mut String,
    alloc: Global,
    outcome: &Result<RecordState<'static>, RecordError>,
) -> Result<(), Fail> {
    match outcome {
        Ok(state) => {
            let accepted = accepted_text(alloc, state).ok_or("memory is refused")?;
            text.push_str(accepted.as_str())?;
        }
        Err(error) => text.push_str(format!(in alloc; "fault: {error}\n")?.as_str())?,
    }
    Ok(())
}

/// Runs `state` over the list of events, and returns the screens and the outcome in the program's
/// words.
fn outcome_of(
    alloc: Global,
    size: (usize, usize),
    state: RecordState<'static>,
    listed: Listed,
    screens: &mut Screens,
) -> Result<String, Fail> {
    let mut text = String::new(alloc);
    if state.is_accepted() {
        let mut input = TestingInput::new(alloc, size.0, size.1, listed.events)?;
        let outcome = Recorder::new(alloc, state)?.run(&mut input, screens);
        push_screens(&mut text, alloc, screens, listed.shots.as_slice())?;
        push_outcome(&mut text, alloc, &outcome)?;
    }
    Ok(text)
}

/// Returns what the script `input` prints when it runs over a list of events, or `None` if it has
/// no such list or no state on its second line.
fn printed(alloc: Global, input: &str) -> Result<Option<String>, Fail> {
    let mut screens = Screens::new(alloc);
    let Some(state) = read_state(alloc, input.lines().nth(1).unwrap_or(""))? else {
        return Ok(None);
    };
    match list_events(alloc, input, &mut screens)? {
        Some(listed) => {
            let text = outcome_of(alloc, size_of(input), state, listed, &mut screens)?;
            Ok(Some(text))
        }
        None => Ok(None),
    }
}

/// Returns whether the script of `row` runs over a list of events. If it does, checks that it
/// prints the output of the row.
fn is_listed(rt: &impl Abort, alloc: Global, row: &str) -> Result<bool, Fail> {
    let example = example_of(alloc, row)?;
    let (input, output) = (example.input.as_str(), example.output.as_str());
    if example.status == 2 {
        return Ok(false);
    }
    let Some(text) = printed(alloc, input)? else {
        return Ok(false);
    };
    match output.strip_suffix("…\n") {
        Some(begin) => assert!(rt; text.as_str().starts_with(begin), "{input}: {text}"),
        None => assert_eq!(rt; text.as_str(), output, "{input}"),
    }
    Ok(true)
}

#[test]
fn scripts_of_single_events_run_over_a_list_too(rt: HostRuntime) -> Result<(), Fail> {
    let alloc = rt.alloc();
    let mut count: usize = 0;
    for row in ROWS.replace(alloc, "\n| ", " | ")?.as_str().lines() {
        if !row.is_empty() && !row.starts_with('#') && is_listed(&rt, alloc, row)? {
            count = count.saturating_add(1);
        }
    }
    assert!(rt; count > 300, "{count}");
    Ok(())
}
