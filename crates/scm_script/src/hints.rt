//! Hints on where and why the program refuses an input, each one line.

use crate::error::PlayError;
use crate::json_forms::JsonForm;
use crate::limits::check_limits;
use crate::path_hint::quote;
use crate::script::{find_state, split_line};
use crate::words::{read_word, words_of};
use scm_json::read_state;
use scm_record::RecordState;
use serde_json::{Error, Value};
use std::alloc::{AllocError, Global};

/// The list of the words of a batch.
const WORDS: &str =
    "wanted shot, redraw, ensure, view, none, click:ROW:COLUMN, wheel-up, wheel-down, or a key: \
ctrl-, alt- and shift-, each at most once, and then up, down, left, right, pageup, pagedown, enter, esc, space \
or one character";

/// The hint for an input whose reader failed.
const CANNOT_READ: &str = "the input could not be read to its end";

/// The hint for an input that is too long.
const TOO_LONG: &str = "the input has more than 67108864 bytes";

/// The hint for an input without the line `script` between its state and its commands.
const NO_SCRIPT: &str =
    "no line is the word `script` alone: the state ends and the commands begin there";

/// The number of levels that lists and objects of a state may nest: the limit of `serde_json`.
const MAX_DEPTH: usize = 127;

/// Returns the hint for the input `text` that the program refuses with `refusal`, if there is one. It has a line end.
///
/// # Errors
/// `AllocError`: an allocation failed.
pub fn hint_of(
    alloc: Global,
    text: &str,
    refusal: &PlayError,
) -> Result<Option<String>, AllocError> {
    let hint = match refusal {
        PlayError::Fault(_) => None,
        PlayError::CannotRead => Some(String::from_str(alloc, CANNOT_READ)?),
        PlayError::TooLong => Some(String::from_str(alloc, TOO_LONG)?),
        PlayError::NotText(line) => {
            Some(format!(in alloc; "line {line}: these bytes are no UTF-8")?)
        }
        PlayError::NoScript => Some(String::from_str(alloc, NO_SCRIPT)?),
        PlayError::BadLine(line) => Some(line_hint(alloc, text, *line)?),
        PlayError::BadState => state_hint(alloc, text)?,
        PlayError::StateNotAccepted => limit_hint(alloc, text)?,
    };
    match hint {
        Some(hint) => Ok(Some(format!(in alloc; "{hint}\n")?)),
        None => Ok(None),
    }
}

/// Returns the hint on line `number` of `text`, counted from 1.
fn line_hint(alloc: Global, text: &str, number: usize) -> Result<String, AllocError> {
    let line = text.lines().nth(number.saturating_sub(1)).unwrap_or("");
    let problem = if number > 1 {
        command_problem(alloc, line)?
    } else {
        size_problem(alloc, line)?
    };
    format!(in alloc; "line {number}: {problem}")
}

/// Returns the problem of an input's first line, which is not a size.
fn size_problem(alloc: Global, line: &str) -> Result<String, AllocError> {
    if line.starts_with('\u{feff}') {
        let problem =
            "a byte order mark (U+FEFF) stands before the first word: write the input without one";
        return String::from_str(alloc, problem);
    }
    let found = quote(alloc, line)?;
    format!(in alloc;
        "wanted `size W H`, each a number from 0 to 65535 in digits alone, found {found}"
    )
}

/// Returns the problem of a line that is not a command.
fn command_problem(alloc: Global, line: &str) -> Result<String, AllocError> {
    let words = words_of(alloc, line)?;
    let text = match words.as_slice() {
        [] => "the line has spaces alone: only an empty line is skipped",
        ["batch", words @ ..] => return word_problem(alloc, words),
        ["answer", ..] => "wanted `answer` and one JSON string, as in answer \"text\"",
        ["fault", "read" | "edit"] =>
            "wanted one more space, and then the text of the fault, perhaps empty",
        ["fault", other, ..] => {
            let found = quote(alloc, other)?;
            return format!(in alloc; "{found} is no fault: wanted `fault read` or `fault edit`");
        }
        ["fault"] => "wanted `fault read` or `fault edit`",
        [word, ..] => {
            let found = quote(alloc, word)?;
            return format!(in alloc;
                "{found} is no command: wanted batch, fault, answer, or a # at the line's start"
            );
        }
    };
    String::from_str(alloc, text)
}

/// Returns the problem of a batch with `words`, of which one has no meaning.
fn word_problem(alloc: Global, words: &[&str]) -> Result<String, AllocError> {
    let word = words.iter().find(|word| read_word(word).is_none());
    let found = quote(alloc, word.copied().unwrap_or(""))?;
    format!(in alloc; "{found} is no word: {WORDS}")
}

/// Returns the hint on the state of the input `text`: where it is not JSON, or not the form of a state. Returns `None`
/// if it is both.
fn state_hint(alloc: Global, text: &str) -> Result<Option<String>, AllocError> {
    let Some(state) = find_state(split_line(text).1) else {
        return Ok(None);
    };
    let json = state.text.trim_end_matches([' ', '\t', '\r', '\n']);
    match Value::from_str(alloc, json) {
        Ok(value) => match RecordState::check(alloc, &value) {
            Err(hint) => Ok(Some(hint.into_text(alloc)?)),
            Ok(()) => Ok(None),
        },
        Err(error) if error.is_memory() => Err(AllocError),
        Err(error) => Ok(Some(json_hint(alloc, json, &error, state.lines)?)),
    }
}

/// Returns the hint on `json`, which is not JSON and has `lines` lines. Its first line is the input's second.
fn json_hint(alloc: Global, json: &str, error: &Error, lines: usize) -> Result<String, AllocError> {
    if error.is_eof() {
        let line = lines.saturating_add(2);
        return format!(in alloc;
            "line {line}: the JSON of the state is not complete before this line"
        );
    }
    let line = error.line().saturating_add(1);
    let column = error.column();
    if depth_after(bytes_before(json, error.line(), column)) > MAX_DEPTH {
        return format!(in alloc;
            "line {line}, column {column}: too deep, lists and objects may nest {MAX_DEPTH} levels"
        );
    }
    let message = format!(in alloc; "{error}")?;
    let problem = without_place(message.as_str());
    format!(in alloc; "line {line}, column {column}: {problem}")
}

/// Returns the bytes of `text` before `line` and `column`, both counted from 1.
fn bytes_before(text: &str, line: usize, column: usize) -> &[u8] {
    let mut length = column.saturating_sub(1);
    for before in text.split_inclusive('\n').take(line.saturating_sub(1)) {
        length = length.saturating_add(before.len());
    }
    text.as_bytes().get(..length).unwrap_or(text.as_bytes())
}

/// Returns how many lists and objects of a JSON text are open after its first bytes, `bytes`.
fn depth_after(bytes: &[u8]) -> usize {
    let mut open: usize = 0;
    let mut is_text = false;
    let mut is_escaped = false;
    for byte in bytes {
        match *byte {
            _ if is_escaped => is_escaped = false,
            b'\\' => is_escaped = is_text,
            b'"' => is_text = !is_text,
            b'[' | b'{' if !is_text => open = open.saturating_add(1),
            b']' | b'}' if !is_text => open = open.saturating_sub(1),
            _ => {}
        }
    }
    open
}

/// Returns `message` without the place at its end.
fn without_place(message: &str) -> &str {
    match message.split_once(" at line ") {
        Some((problem, _)) => problem,
        None => message,
    }
}

/// Returns the hint on the limit that the state of the input `text` passes, if any.
fn limit_hint(alloc: Global, text: &str) -> Result<Option<String>, AllocError> {
    let Some(state) = find_state(split_line(text).1) else {
        return Ok(None);
    };
    let Some(state) = read_state(alloc, state.text).map_err(|_| AllocError)? else {
        return Ok(None);
    };
    match check_limits(alloc, &state) {
        Err(hint) => Ok(Some(hint.into_text(alloc)?)),
        Ok(()) => Ok(None),
    }
}
