//! What refused memory leaves of the queues of inputs and of a store. `tools/refuse-memory` runs
//! each test with each of its requests for memory refused. The checks hold then, and the test
//! passes or ends in `OutOfMemory`.
use crate::checks::check_equal;
use scm_input::{Event, RecordInput, Screens, ScriptEdit, ScriptInput, ScriptRead, TestingInput};
use scm_samples::text_of;
use scm_types::RecordError;
use std::alloc::Global;
use std::process::Abort;

/// Returns an input of two events and a message.
fn testing_input(alloc: Global) -> Result<TestingInput, RecordError> {
    let events = vec![in alloc; Event::QuitCancel, Event::Redraw]?;
    let mut input = TestingInput::new(alloc, 80, 24, events)?;
    input.commit_messages.push_back(text_of(alloc, 3)?)?;
    Ok(input)
}

#[test]
fn refused_memory_keeps_events(rt: HostRuntime) -> Result<(), RecordError> {
    let mut input = testing_input(rt.alloc())?;
    let outcome = input.next_events();
    let (left, next) = match &outcome {
        Ok(_) => (1, Event::Redraw),
        Err(_) => (2, Event::QuitCancel),
    };
    check_equal(&rt, input.events.len(), left);
    check_equal(
        &rt,
        (input.events.front().copied(), input.events.back().copied()),
        (Some(next), Some(Event::Redraw)),
    );
    check_equal(&rt, input.commit_messages.len(), 1);
    check_equal(&rt, outcome?.as_slice(), [Event::QuitCancel].as_slice());
    Ok(())
}

/// Checks that a call past the end of a script fails with `words`, unless memory for them is
/// refused.
fn check_past<T: Drop>(
    rt: &impl Abort,
    outcome: Result<T, RecordError>,
    words: &str,
) -> Result<(), RecordError> {
    match outcome {
        Ok(_) => panic!(rt; "there is nothing left"),
        Err(RecordError::ReadInput(text)) => check_equal(rt, text.as_str(), words),
        Err(RecordError::Other(text)) => check_equal(rt, text.as_str(), words),
        Err(error) => return Err(error),
    }
    Ok(())
}

/// The error of an edit past the last one.
const NO_MESSAGES: &str = "No more commit messages available";

#[test]
fn refused_memory_keeps_messages(rt: HostRuntime) -> Result<(), RecordError> {
    let mut input = testing_input(rt.alloc())?;
    check_equal(&rt, input.edit_commit_message("hello")?.as_str(), "aaa");
    let outcome = input.edit_commit_message("hello");
    check_equal(
        &rt,
        (input.events.len(), input.commit_messages.len()),
        (2, 0),
    );
    check_equal(&rt, input.events.front().copied(), Some(Event::QuitCancel));
    check_past(&rt, outcome, NO_MESSAGES)
}

#[test]
fn refused_memory_keeps_edits_of_a_script(rt: HostRuntime) -> Result<(), RecordError> {
    let alloc = rt.alloc();
    let edits = vec![in alloc; ScriptEdit::Answer(text_of(alloc, 3)?)]?;
    let mut script = ScriptInput::new(alloc, 80, 24, Vec::new(alloc), edits)?;
    let outcome = script.next_events();
    check_equal(&rt, (script.batches_left(), script.edits_left()), (0, 1));
    check_equal(&rt, script.edit_commit_message("hello")?.len(), 3);
    check_past(&rt, outcome, "no events left")
}

#[test]
fn refused_memory_keeps_reads_of_a_script(rt: HostRuntime) -> Result<(), RecordError> {
    let alloc = rt.alloc();
    let batch = vec![in alloc; Event::Redraw, Event::QuitCancel]?;
    let reads = vec![in alloc; ScriptRead::Batch(batch)]?;
    let mut script = ScriptInput::new(alloc, 80, 24, reads, Vec::new(alloc))?;
    let outcome = script.edit_commit_message("hello");
    check_equal(&rt, (script.batches_left(), script.edits_left()), (1, 0));
    check_equal(
        &rt,
        script.next_events()?.as_slice(),
        [Event::Redraw, Event::QuitCancel].as_slice(),
    );
    check_past(&rt, outcome, NO_MESSAGES)
}

/// Takes a place in a store that has `count` places. The store has the new place then, or memory is
/// refused and it still has `count`.
fn check_place(rt: &impl Abort, screens: &mut Screens, count: usize) -> Result<(), RecordError> {
    let outcome = screens.place();
    check_equal(rt, screens.has_place(count), outcome.is_ok());
    check_equal(rt, screens.has_place(count.saturating_sub(1)), true);
    check_equal(rt, outcome?.place, count);
    Ok(())
}

/// Takes places in a store that has one, up to twenty.
fn check_places(rt: &impl Abort, screens: &mut Screens) -> Result<(), RecordError> {
    for count in 1..20 {
        check_place(rt, screens, count)?;
    }
    Ok(())
}

#[test]
fn refused_memory_keeps_stores(rt: HostRuntime) -> Result<(), RecordError> {
    let alloc = rt.alloc();
    let mut screens = Screens::new(alloc);
    let first = screens.place()?;
    screens.keep(first.place, String::from_str(alloc, "a screen")?);
    let outcome = check_places(&rt, &mut screens);
    check_equal(&rt, screens.text(first), "a screen");
    outcome
}
