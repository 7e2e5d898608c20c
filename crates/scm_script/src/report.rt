//! The output of a run: the screens, and the accepted state.

use crate::error::PlayError;
use scm_record::{Screens, TestingScreenshot};
use scm_types::{File, FileMode, RecordState, SelectedChanges, SelectedContents};
use serde::Serialize;
use std::alloc::{AllocError, Global};

/// Returns the screens of `shots` in order, each after a line with its index, counted from 0.
///
/// # Errors
/// `AllocError`: an allocation failed.
pub fn screens_text(
    alloc: Global,
    screens: &Screens,
    shots: &[TestingScreenshot],
) -> Result<String, AllocError> {
    let mut text = String::new(alloc);
    for (index, shot) in shots.iter().enumerate() {
        push_heading(&mut text, alloc, "screen", index)?;
        push_screen(&mut text, screens.text(*shot))?;
    }
    Ok(text)
}

/// Adds a line with `word` and `number`.
fn push_heading(
    text: &mut String,
    alloc: Global,
    word: &str,
    number: usize,
) -> Result<(), AllocError> {
    let heading = format!(in alloc; "{word} {number}\n")?;
    text.push_str(heading.as_str())
}

/// Adds a screen, or the words for a screenshot that was never taken. Both end with a line end.
fn push_screen(text: &mut String, screen: &str) -> Result<(), AllocError> {
    text.push_str(screen)?;
    if !screen.is_empty() && !screen.ends_with('\n') {
        text.push_str("\n")?;
    }
    Ok(())
}

/// Adds the output for an accepted `state` to `text`: the state as JSON on a line, and the two
/// sides of each file after a line with its index, counted from 0.
///
/// # Errors
/// `Fault`: an allocation failed; `text` may have a part of it.
pub fn push_accepted(
    text: &mut String,
    alloc: Global,
    state: &RecordState<'_>,
) -> Result<(), PlayError> {
    text.push_str("accepted\n")?;
    push_json(text, alloc, state)?;
    text.push_str("\n")?;
    for (index, file) in state.files.as_slice().iter().enumerate() {
        push_file(text, alloc, index, file)?;
    }
    Ok(())
}

/// Returns the output for an accepted state, or `None` if an allocation failed.
pub fn accepted_text(alloc: Global, state: &RecordState<'_>) -> Option<String> {
    let mut text = String::new(alloc);
    match push_accepted(&mut text, alloc, state) {
        Ok(()) => Some(text),
        Err(_) => None,
    }
}

/// Adds the two sides of `file`, which has the index `index`.
fn push_file(
    text: &mut String,
    alloc: Global,
    index: usize,
    file: &File<'_>,
) -> Result<(), PlayError> {
    push_heading(text, alloc, "file", index)?;
    let sides = file.get_selected_contents(alloc)?;
    push_side(text, alloc, "selected", &sides.0)?;
    push_side(text, alloc, "unselected", &sides.1)?;
    Ok(())
}

/// Adds a side of a file on a line: its name `name`, its mode, and its contents.
fn push_side(
    text: &mut String,
    alloc: Global,
    name: &str,
    side: &SelectedChanges<'_>,
) -> Result<(), AllocError> {
    push_mode(text, alloc, name, side.file_mode)?;
    push_contents(text, alloc, &side.contents)?;
    text.push_str("\n")
}

/// Adds the name of a side and its mode, each with a space after it.
fn push_mode(
    text: &mut String,
    alloc: Global,
    name: &str,
    mode: FileMode,
) -> Result<(), AllocError> {
    let heading = format!(in alloc; "{name} {mode} ")?;
    text.push_str(heading.as_str())
}

/// Adds the contents of a side.
fn push_contents(
    text: &mut String,
    alloc: Global,
    contents: &SelectedContents<'_>,
) -> Result<(), AllocError> {
    match contents {
        SelectedContents::Unchanged => text.push_str("unchanged")?,
        SelectedContents::Text { contents } => {
            text.push_str("text ")?;
            push_json(text, alloc, contents)?;
        }
        SelectedContents::Binary {
            old_description,
            new_description,
        } => {
            text.push_str("binary ")?;
            push_json(text, alloc, old_description)?;
            text.push_str(" ")?;
            push_json(text, alloc, new_description)?;
        }
    }
    Ok(())
}

/// Adds `value` as JSON.
fn push_json<T: Serialize>(text: &mut String, alloc: Global, value: &T) -> Result<(), AllocError> {
    let json = serde_json::to_string(alloc, value).map_err(|_| AllocError)?;
    text.push_str(json.as_str())
}
