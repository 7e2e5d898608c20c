//! Memory. No contract can say that memory is requested only where it is needed. So with ample
//! memory the calls that allocate are run, on arguments small and large. The other calls succeed
//! where requests are refused: `tools/refuse-memory` runs the tests named for refused memory, and
//! refuses each of their requests in turn. Their checks hold then, and the test passes or ends in
//! `OutOfMemory`.
use crate::checks::{check_equal, made};
use scm_input::{
    Event, KeyCode, KeyEvent, KeyEventKind, KeyModifiers, MouseButton, MouseEvent, MouseEventKind,
    RecordInput, Screens, ScriptEdit, ScriptInput, ScriptRead, TerminalEvent, TerminalKind,
    TestingInput,
};
use scm_samples::text_of;
use scm_types::{RecordError, SelectionKey};
use std::alloc::Global;
use std::process::Abort;

/// Reads from an input of `count` events. Past the end a read returns no event.
fn check_events_left(rt: &impl Abort, alloc: Global, count: usize) {
    let events = made(rt, vec![in alloc; Event::Redraw; count]);
    let mut input = made(rt, TestingInput::new(alloc, 80, 24, events));
    check_equal(rt, input.batches_left(), count);
    let wanted = [if count == 0 {
        Event::None
    } else {
        Event::Redraw
    }];
    check_equal(
        rt,
        made(rt, input.next_events()).as_slice(),
        wanted.as_slice(),
    );
    check_equal(rt, input.batches_left(), count.saturating_sub(1));
}

/// Edits a message with an input whose answer has `count` bytes.
fn check_edit(rt: &impl Abort, alloc: Global, count: usize) {
    let mut input = made(rt, TestingInput::new(alloc, 80, 24, Vec::new(alloc)));
    let message = made(rt, text_of(alloc, count));
    made(rt, input.commit_messages.push_back(message));
    check_equal(rt, made(rt, input.edit_commit_message("")).len(), count);
}

/// Reads from a script whose batch has `count` events.
fn check_batch(rt: &impl Abort, alloc: Global, count: usize) {
    let batch = made(rt, vec![in alloc; Event::Redraw; count]);
    let reads = made(rt, vec![in alloc; ScriptRead::Batch(batch)]);
    let mut script = made(rt, ScriptInput::new(alloc, 80, 24, reads, Vec::new(alloc)));
    check_equal(rt, made(rt, script.next_events()).len(), count);
}

/// Edits a message with a script whose answer has `count` bytes.
fn check_answer(rt: &impl Abort, alloc: Global, count: usize) {
    let answer = made(rt, text_of(alloc, count));
    let edits = made(rt, vec![in alloc; ScriptEdit::Answer(answer)]);
    let mut script = made(rt, ScriptInput::new(alloc, 80, 24, Vec::new(alloc), edits));
    check_equal(rt, made(rt, script.edit_commit_message("")).len(), count);
}

/// Takes a place in a store that has `count` places.
fn check_store(rt: &impl Abort, alloc: Global, count: usize) {
    let mut screens = Screens::new(alloc);
    for _ in 0..count {
        let _ = made(rt, screens.place());
    }
    let last = made(rt, screens.place());
    check_equal(rt, screens.text(last), ABSENT);
}

/// The text of a place without a screenshot.
const ABSENT: &str = "<this screenshot was never assigned>";

/// How many events, bytes and places there are.
const COUNTS: &[usize] = &[0, 1, 10_000];

#[test]
fn inputs_and_stores_of_any_size(rt: HostRuntime) {
    for count in COUNTS {
        check_events_left(&rt, rt.alloc(), *count);
        check_edit(&rt, rt.alloc(), *count);
        check_batch(&rt, rt.alloc(), *count);
        check_answer(&rt, rt.alloc(), *count);
        check_store(&rt, rt.alloc(), *count);
    }
}

// ---- calls that take no memory

/// Checks the calls on events.
fn check_events(rt: &impl Abort) {
    let key = KeyEvent {
        code: KeyCode::Char('q'),
        modifiers: KeyModifiers::NONE,
        kind: KeyEventKind::Press,
    };
    let mouse = MouseEvent {
        kind: MouseEventKind::Down(MouseButton::Left),
        column: 3,
        row: 4,
        modifiers: KeyModifiers::SHIFT,
    };
    let click = Event::Click { row: 4, column: 3 };
    check_equal(rt, Event::from(TerminalEvent::Key(key)), Event::QuitCancel);
    check_equal(rt, Event::from(TerminalEvent::Mouse(mouse)), click);
    check_equal(rt, Event::from(TerminalEvent::Other), Event::None);
}

/// Checks the calls on inputs and stores.
fn check_recording(rt: &impl Abort, input: &TestingInput, script: &ScriptInput, screens: &Screens) {
    let kind = TerminalKind::Testing {
        width: 80,
        height: 24,
    };
    check_equal(
        rt,
        (input.terminal_kind(), script.terminal_kind()),
        (kind, kind),
    );
    check_equal(rt, (input.batches_left(), script.batches_left()), (1, 0));
    check_equal(rt, screens.frames(), 0);
}

/// Returns an input of one event, an empty script, and an empty store.
fn recording(alloc: Global) -> Result<(TestingInput, ScriptInput, Screens), RecordError> {
    let events = vec![in alloc; Event::None]?;
    let input = TestingInput::new(alloc, 80, 24, events)?;
    let script = ScriptInput::new(alloc, 80, 24, Vec::new(alloc), Vec::new(alloc))?;
    Ok((input, script, Screens::new(alloc)))
}

#[test]
fn refused_memory_stops_no_call_that_takes_none(rt: HostRuntime) -> Result<(), RecordError> {
    let alloc = rt.alloc();
    check_equal(&rt, SelectionKey::default(), SelectionKey::None);
    check_events(&rt);
    let (input, script, mut screens) = recording(alloc)?;
    check_recording(&rt, &input, &script, &screens);
    let shot = screens.place()?;
    check_equal(&rt, shot.event(), Event::TakeScreenshot(shot));
    check_equal(&rt, screens.text(shot), ABSENT);
    Ok(())
}
