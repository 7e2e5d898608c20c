//! The program over any reader and writers.
ghost use Rattle.std.specs.Prelude.{IfOk, IsTrue};
ghost use Rattle.scm_types.specs.Limits.{is_accepted_state};

use crate::commands::Commands;
use crate::error::PlayError;
use crate::hints::hint_of;
use crate::no_op_hints::{NOTHING_ACCEPTED, add_no_op_hints};
use crate::report::{push_accepted, screens_text};
use crate::script::{Script, read_script};
use scm_json::read_state;
use scm_record::{
    RecordError, RecordInput, RecordState, Recorder, Screens, ScriptInput, ScriptRead,
    TestingScreenshot,
};
use std::alloc::{AllocError, Global};
use std::io::{self, ErrorKind, Read, Write};

/// The maximal length of an input, in bytes.
const MAX_INPUT: u64 = 67_108_864;

/// The output if an allocation failed before there was another output.
const OUT_OF_MEMORY: &[u8] = b"fault: out of memory\n";

/// Runs the script from `reader`, and writes the output to `writer`.
///
/// Returns the program's exit status: 0 for an accepted state, 1 for a fault, 2 for a bad input. If `reader` or `writer`
/// fails, it is 2 too.
pub fn play<R: Read + Drop, W: Write + Drop>(alloc: Global, reader: R, writer: W) -> u8 {
    play_with_hints(alloc, reader, writer, io::sink())
}

/// Runs the script from `reader`, and writes the output to `writer` and hints to `hints`. Hints say
/// where and why the input was refused, and which parts of the script had no effect.
///
/// Returns the program's exit status, as [`play`] does. If `writer` fails, writes no hints. Hints
/// are best effort: a failure of `hints` is ignored.
pub fn play_with_hints<R: Read + Drop, W: Write + Drop, H: Write + Drop>(
    alloc: Global,
    reader: R,
    writer: W,
    hints: H,
) -> u8 {
    match play_reader(alloc, reader) {
        Ok(outcome) => {
            if !write_whole(writer, outcome.output.as_bytes()) {
                return 2;
            }
            if !outcome.hint.is_empty() {
                write_whole(hints, outcome.hint.as_bytes());
            }
            outcome.status
        }
        Err(_) if write_whole(writer, OUT_OF_MEMORY) => 1,
        Err(_) => 2,
    }
}

/// Writes and flushes `bytes`, and returns whether the writer took all of them.
fn write_whole<W: Write + Drop>(mut writer: W, bytes: &[u8]) -> bool {
    writer.write_all(bytes).is_ok() && writer.flush().is_ok()
}

/// The outcome of the program for an input.
#[derive(Drop)]
struct Outcome {
    /// The output.
    output: String,
    /// The exit status.
    status: u8,
    /// The hints, each on a line. May be empty.
    hint: String,
}

/// Returns the outcome for the input from `reader`. Fails only if an allocation failed.
fn play_reader<R: Read + Drop>(alloc: Global, reader: R) -> Result<Outcome, PlayError> {
    match read_text(alloc, reader) {
        Ok(text) => play_text(alloc, text.as_str()),
        Err(refusal) => Ok(refuse(alloc, "", &refusal)?),
    }
}

/// Returns the outcome for the input `text`.
fn play_text(alloc: Global, text: &str) -> Result<Outcome, PlayError> {
    match prepare(alloc, text) {
        Ok((script, state)) => run(alloc, text, script, state),
        Err(refusal) => Ok(refuse(alloc, text, &refusal)?),
    }
}

/// Returns the outcome for the input `text`, which is refused.
fn refuse(alloc: Global, text: &str, refusal: &PlayError) -> Result<Outcome, AllocError> {
    Ok(Outcome {
        output: format!(in alloc; "{refusal}\n")?,
        status: refusal.status(),
        hint: hint_of(alloc, text, refusal)
            .ok()
            .flatten()
            .unwrap_or(String::new(alloc)),
    })
}

/// Reads the whole input.
///
/// # Errors
/// `CannotRead`: `reader` fails.
/// `TooLong`: the input has more than 67,108,864 bytes.
/// `NotText`: the input is not UTF-8.
/// `Fault`: an allocation failed.
fn read_text<R: Read + Drop>(alloc: Global, reader: R) -> Result<String, PlayError> {
    let mut bytes = Vec::new(alloc);
    let mut reader = reader.take(MAX_INPUT + 1);
    if let Err(error) = reader.read_to_end(&mut bytes) {
        return Err(match error.kind() {
            ErrorKind::OutOfMemory => PlayError::Fault(RecordError::OutOfMemory),
            _ => PlayError::CannotRead,
        });
    }
    if bytes.len() as u64 > MAX_INPUT {
        return Err(PlayError::TooLong);
    }
    String::from_utf8(bytes).map_err(|error| {
        let index = error.utf8_error().valid_up_to();
        PlayError::NotText(line_number(error.as_bytes(), index))
    })
}

/// Returns the number of the line, counted from 1, that has byte `index`, counted from 0.
fn line_number(bytes: &[u8], index: usize) -> usize {
    let ends = bytes.iter().take(index).filter(|byte| **byte == b'\n');
    ends.count().saturating_add(1)
}

/// Reads the script of an input and its state, which is accepted.
///
/// # Errors
/// `BadLine`, `NoScript`, `BadState` or `StateNotAccepted`: the input is refused.
/// `Fault`: an allocation failed.
fn prepare(alloc: Global, text: &str) -> Result<(Script<'_>, RecordState<'static>), PlayError>
    ensures { IfOk result (λ ready. IsTrue (is_accepted_state ready.1)) }
{
    let script = read_script(alloc, text)?;
    let Some(state) = read_state(alloc, script.state)? else {
        return Err(PlayError::BadState);
    };
    if !state.is_accepted() {
        return Err(PlayError::StateNotAccepted);
    }
    Ok((script, state))
}

/// Runs `script`, which is the script of `text`, on an accepted state. Returns the outcome, with hints.
fn run(
    alloc: Global,
    text: &str,
    script: Script<'_>,
    state: RecordState<'static>,
) -> Result<Outcome, PlayError>
    requires { IsTrue (is_accepted_state state) }
{
    let Script {
        width,
        height,
        state: _,
        commands,
    } = script;
    let Commands {
        reads,
        edits,
        screens,
        shots,
    } = commands;
    let ends_in_fault = matches!(reads.last(), Some(ScriptRead::Fault(_)));
    let mut input = ScriptInput::new(alloc, width as usize, height as usize, reads, edits)?;
    let mut outcome = run_input(
        alloc,
        state,
        &mut input,
        screens,
        shots.as_slice(),
        ends_in_fault,
    )?;
    // Hints are best effort: drop them if an allocation fails.
    let _added = add_no_op_hints(&mut outcome.hint, alloc, text, input.edits_left());
    Ok(outcome)
}

/// Runs `input` on an accepted state. Returns the outcome: the screens, and the accepted state or the fault.
fn run_input(
    alloc: Global,
    state: RecordState<'static>,
    input: &mut ScriptInput,
    mut screens: Screens,
    shots: &[TestingScreenshot],
    ends_in_fault: bool,
) -> Result<Outcome, PlayError>
    requires { IsTrue (is_accepted_state state) }
{
    let result = record(alloc, state, input, &mut screens);
    let is_at_end = input.batches_left() == 0 && !ends_in_fault;
    let output = screens_text(alloc, &screens, shots)?;
    match result {
        Ok(state) => accept(alloc, output, &state),
        Err(error) => Ok(fail(alloc, output, &error, is_at_end)?),
    }
}

/// Returns the outcome of an accepted state, whose output follows the screens in `output`.
fn accept(
    alloc: Global,
    mut output: String,
    state: &RecordState<'_>,
) -> Result<Outcome, PlayError> {
    push_accepted(&mut output, alloc, state)?;
    Ok(Outcome {
        output,
        status: 0,
        hint: String::new(alloc),
    })
}

/// Returns the outcome of a fault, whose output follows the screens in `output`.
fn fail(
    alloc: Global,
    mut output: String,
    error: &RecordError,
    is_at_end: bool,
) -> Result<Outcome, AllocError> {
    let fault = format!(in alloc; "fault: {error}\n")?;
    output.push_str(fault.as_str())?;
    let hint = match error {
        RecordError::ReadInput(_) if is_at_end => NOTHING_ACCEPTED,
        _ => "",
    };
    Ok(Outcome {
        output,
        status: 1,
        hint: String::from_str(alloc, hint).unwrap_or(String::new(alloc)),
    })
}

/// Runs a recorder on an accepted state.
fn record(
    alloc: Global,
    state: RecordState<'static>,
    input: &mut ScriptInput,
    screens: &mut Screens,
) -> Result<RecordState<'static>, RecordError>
    requires { IsTrue (is_accepted_state state) }
{
    Recorder::new(alloc, state)?.run(input, screens)
}
