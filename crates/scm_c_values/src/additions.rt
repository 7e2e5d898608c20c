//! Additions to a state, from the bytes that a caller hands in.
ghost use Rattle.std.specs.Prelude.{◌≡◌, ◌<◌, true};
ghost use Rattle.scm_c_values.specs.Codes.{IsCode, code_of_error, code_of_refusal};
ghost use Rattle.scm_c_values.specs.FromBytes.{binary_of_bytes, changes_of_bytes, context_of_bytes, file_of_bytes, kind_of_change, line_of_bytes, message_of_bytes, mode_of_bits, text_if_any, text_of_bytes};
ghost use Rattle.scm_embed.specs.Additions.{after_addition, refusal_of};

use crate::codes;
use scm_embed::{Addition, BuildError, Part, StateBuilder};
use scm_types::{ChangeType, FileMode, Text};
use std::alloc::Global;

/// Returns the text of `bytes`, or `None` if they are not UTF-8.
pub fn text_of(bytes: &[u8]) -> Option<Text<'_>>
    ensures { result ≡ text_of_bytes bytes.now }
{
    match str::from_utf8(bytes) {
        Ok(text) => Some(Text::from(text)),
        Err(_) => None,
    }
}

/// Returns the text of `bytes`, or no text if there are no bytes. Returns `None` if they are not
/// UTF-8.
pub fn text_if_any(bytes: &[u8]) -> Option<Option<Text<'_>>>
    ensures { result ≡ text_if_any bytes.now }
{
    if bytes.is_empty() {
        return Some(None);
    }
    match text_of(bytes) {
        Some(text) => Some(Some(text)),
        None => None,
    }
}

/// Returns the commit with the message `text`.
pub fn message_of(text: &[u8]) -> Option<Addition<'_>>
    ensures { result ≡ message_of_bytes text.now }
{
    match text_of(text) {
        Some(text) => Some(Addition::Commit {
            message: Some(text),
        }),
        None => None,
    }
}

/// Returns the mode with these bits. `usize::MAX` is no file.
pub fn mode_of(bits: usize) -> FileMode
    ensures { result ≡ mode_of_bits bits }
{
    if bits == usize::MAX {
        FileMode::Absent
    } else {
        FileMode::Unix(bits)
    }
}

/// Returns the file at `path`. Without bytes it has no old path.
pub fn file_of<'t>(path: &'t [u8], old_path: &'t [u8], mode: usize) -> Option<Addition<'t>>
    ensures { result ≡ file_of_bytes path.now old_path.now mode }
{
    let Some(path) = text_of(path) else {
        return None;
    };
    match text_if_any(old_path) {
        Some(old_path) => Some(Addition::File {
            old_path,
            path,
            file_mode: mode_of(mode),
        }),
        None => None,
    }
}

/// Returns the context lines of `text`.
pub fn context_of(text: &[u8]) -> Option<Addition<'_>>
    ensures { result ≡ context_of_bytes text.now }
{
    match text_of(text) {
        Some(text) => Some(Addition::Part {
            part: Part::Context { text },
        }),
        None => None,
    }
}

/// Returns the kind of a change.
pub fn change_of(is_added: bool) -> ChangeType
    ensures { result ≡ kind_of_change is_added }
{
    if is_added {
        ChangeType::Added
    } else {
        ChangeType::Removed
    }
}

/// Returns the changed lines of `text`.
pub fn changes_of(is_added: bool, is_checked: bool, text: &[u8]) -> Option<Addition<'_>>
    ensures { result ≡ changes_of_bytes is_added is_checked text.now }
{
    match text_of(text) {
        Some(text) => Some(Addition::Part {
            part: Part::Changes {
                is_checked,
                change_type: change_of(is_added),
                text,
            },
        }),
        None => None,
    }
}

/// Returns the line that is the whole of `text`: a changed line if `is_changed`, or else a context line.
pub fn line_of(
    is_changed: bool,
    is_added: bool,
    is_checked: bool,
    text: &[u8],
) -> Option<Addition<'_>>
    ensures { result ≡ line_of_bytes is_changed is_added is_checked text.now }
{
    let Some(line) = text_of(text) else {
        return None;
    };
    let part = if is_changed {
        Part::ChangedLine {
            is_checked,
            change_type: change_of(is_added),
            line,
        }
    } else {
        Part::ContextLine { line }
    };
    Some(Addition::Part { part })
}

/// Returns the change of binary contents. Without bytes there is no description.
pub fn binary_of<'t>(is_checked: bool, old: &'t [u8], new: &'t [u8]) -> Option<Addition<'t>>
    ensures { result ≡ binary_of_bytes is_checked old.now new.now }
{
    let Some(old_description) = text_if_any(old) else {
        return None;
    };
    match text_if_any(new) {
        Some(new_description) => Some(Addition::Part {
            part: Part::Binary {
                is_checked,
                old_description,
                new_description,
            },
        }),
        None => None,
    }
}

/// Returns the code of `error`.
pub fn error_code(error: BuildError) -> u32
    ensures code { result ≡ code_of_error error }
    ensures fails { 0 < result }
{
    match error {
        BuildError::NoFile => codes::NO_ITEM,
        BuildError::TooLong => codes::TOO_LONG,
        BuildError::TooManyCommits => codes::NOT_ACCEPTED,
        BuildError::OutOfMemory => codes::NO_MEMORY,
    }
}

/// Adds `addition` to the state of `builder`. Returns the code of the call.
pub fn add_to_builder(alloc: Global, builder: &mut StateBuilder, addition: Addition<'_>) -> u32
    ensures code { IsCode true (code_of_refusal (refusal_of addition.entry builder.old)) result }
    ensures added { result ≡ 0 → builder.new ≡ after_addition addition.entry builder.old }
    ensures kept { 0 < result → builder.new ≡ builder.old }
{
    match builder.add(alloc, addition) {
        Ok(()) => codes::DONE,
        Err(error) => error_code(error),
    }
}
