//! The form of the program's input: a size, a state as JSON, the line `script`, and one command on each line.

use crate::commands::Commands;
use crate::error::PlayError;
use crate::words::{read_decimal, words_of};
use std::alloc::{AllocError, Global};

/// The input of the program, read: the size of the screen, the text of the state, and the commands.
#[derive(Drop)]
pub struct Script<'a> {
    /// The width of the screen, in columns.
    pub width: u16,
    /// The height of the screen, in rows.
    pub height: u16,
    /// The text before the line `script`, which should be a state as JSON.
    pub state: &'a str,
    /// The commands after the line `script`.
    pub commands: Commands,
}

/// Reads the program's input `text`: a line with the screen's size, a state, a line `script`, and
/// commands.
///
/// # Errors
/// `BadLine`: the first line is not a size, or a later line is not a command.
/// `NoScript`: no line is the word `script`.
/// `Fault`: an allocation failed.
pub fn read_script(alloc: Global, text: &str) -> Result<Script<'_>, PlayError> {
    let (first, rest) = split_line(text);
    let Some((width, height)) = read_size(alloc, first)? else {
        return Err(PlayError::BadLine(1));
    };
    let Some(state) = find_state(rest) else {
        return Err(PlayError::NoScript);
    };
    Ok(Script {
        width,
        height,
        state: state.text,
        commands: read_commands(alloc, rest, state.lines)?,
    })
}

/// Returns the first line of `text` without its line end, and the rest of `text`.
pub fn split_line(text: &str) -> (&str, &str) {
    match text.split_once('\n') {
        Some((line, rest)) => (line.strip_suffix('\r').unwrap_or(line), rest),
        None => (text, ""),
    }
}

/// The text of a state, which stands before the line `script`.
#[derive(Clone, Copy)]
pub struct StateText<'a> {
    /// The text before the line `script`.
    pub text: &'a str,
    /// The number of lines before the line `script`.
    pub lines: usize,
}

/// Returns the part of `text` before the first line `script`, or `None` if there is no such line.
pub fn find_state(text: &str) -> Option<StateText<'_>> {
    let mut length = 0usize;
    for (lines, line) in text.split_inclusive('\n').enumerate() {
        if split_line(line).0.trim_matches(' ') == "script" {
            let text = text.get(..length).unwrap_or("");
            return Some(StateText { text, lines });
        }
        length = length.saturating_add(line.len());
    }
    None
}

/// Returns the commands of `text`, which begins with the input's second line. The line `script` follows after `lines`
/// lines.
fn read_commands(alloc: Global, text: &str, lines: usize) -> Result<Commands, PlayError> {
    let mut commands = Commands::new(alloc);
    for (index, line) in text.lines().enumerate().skip(lines.saturating_add(1)) {
        if is_command_line(line) && !commands.add(alloc, line)? {
            return Err(PlayError::BadLine(index.saturating_add(2)));
        }
    }
    Ok(commands)
}

/// Returns whether `line` has a command: it is neither empty nor a comment, which begins with `#`.
pub fn is_command_line(line: &str) -> bool {
    !line.is_empty() && !line.starts_with('#')
}

/// Returns the columns and rows of a line `size W H`, or `None` for another line.
fn read_size(alloc: Global, line: &str) -> Result<Option<(u16, u16)>, AllocError> {
    let words = words_of(alloc, line)?;
    let ["size", width, height] = words.as_slice() else {
        return Ok(None);
    };
    Ok(read_decimal(width).zip(read_decimal(height)))
}
