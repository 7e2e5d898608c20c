//! Hints on the parts of a script that had no effect.

use crate::path_hint::quote;
use crate::script::{find_state, is_command_line, split_line};
use crate::words::{Word, read_word, words_of};
use scm_record::Event;
use std::alloc::{AllocError, Global};

/// The hint for a run that ended with its script and accepted nothing.
pub const NOTHING_ACCEPTED: &str =
    "the script ended and nothing was accepted: a script accepts by `batch c`, while no quit dialog is open\n";

/// Adds hints for the script `text` to `hints`: on the first key that is a no-op, and on the last `edits_left` answers,
/// which no edit used.
///
/// # Errors
/// `AllocError`: an allocation failed; `hints` may have the first hint.
pub fn add_no_op_hints(
    hints: &mut String,
    alloc: Global,
    text: &str,
    edits_left: usize,
) -> Result<(), AllocError> {
    add_no_op_key(hints, alloc, text)?;
    if edits_left > 0 {
        let hint = format!(in alloc;
            "answers or faults of an edit that were never asked for: {edits_left}, the last ones of the script\n"
        )?;
        hints.push_str(hint.as_str())?;
    }
    Ok(())
}

/// Adds a hint on the first key in a batch of `text` that is a no-op, if any.
fn add_no_op_key(hints: &mut String, alloc: Global, text: &str) -> Result<(), AllocError> {
    let Some(state) = find_state(split_line(text).1) else {
        return Ok(());
    };
    let first = state.lines.saturating_add(2);
    for (index, line) in text.lines().enumerate().skip(first) {
        if is_command_line(line)
            && let Some(word) = no_op_key(alloc, line)?
        {
            let number = index.saturating_add(1);
            let key = quote(alloc, word)?;
            let hint = format!(in alloc; "line {number}: the key {key} does nothing\n")?;
            hints.push_str(hint.as_str())?;
            return Ok(());
        }
    }
    Ok(())
}

/// Returns the first key on `line` that is a no-op, if the line is a batch.
fn no_op_key(alloc: Global, line: &str) -> Result<Option<&str>, AllocError> {
    let words = words_of(alloc, line)?;
    match words.as_slice() {
        ["batch", words @ ..] => Ok(words.iter().find(|word| is_no_op(word)).copied()),
        _ => Ok(None),
    }
}

/// Returns whether `word` is a key that is a no-op. The word `none` is not a key.
fn is_no_op(word: &str) -> bool {
    word != "none" && matches!(read_word(word), Some(Word::Event(Event::None)))
}
