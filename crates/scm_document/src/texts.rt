//! The texts that the parts of the document show.
ghost use Rattle.std.specs.Prelude.{◌≡◌, IfOk, string_bytes};
ghost use Rattle.scm_document.specs.Rows.{lent_text};
ghost use Rattle.scm_document.specs.Texts.{path_text, section_text, mode_change_text, binary_text, sign_text, number_text, dots_text, message_text, divider_text, no_files_text};

use scm_types::{ChangeType, FileMode, Text};
use std::alloc::{AllocError, Global};

/// Returns `path`, after `old_path` and an arrow if the file was renamed.
///
/// # Errors
/// `AllocError`: an allocation failed.
pub fn path_text(alloc: Global, old_path: Option<&str>, path: &str) -> Result<String, AllocError>
    ensures ok { IfOk result (λ s. string_bytes s ≡ path_text (lent_text old_path.entry) path.now) }
{
    let text = match old_path {
        None => String::from_str(alloc, path)?,
        Some(old_path) => format!(in alloc; "{old_path} => {path}")?,
    };
    Ok(text)
}

/// Returns the title of a section: its number among the editable sections, and their total.
///
/// # Errors
/// `AllocError`: an allocation failed.
pub fn section_text(alloc: Global, number: usize, total: usize) -> Result<String, AllocError>
    ensures ok { IfOk result (λ s. string_bytes s ≡ section_text number total) }
{
    Ok(format!(in alloc; "Section {number}/{total}")?)
}

/// Returns the text of a change of file mode.
///
/// # Errors
/// `AllocError`: an allocation failed.
pub fn mode_change_text(alloc: Global, mode: FileMode) -> Result<String, AllocError>
    ensures ok { IfOk result (λ s. string_bytes s ≡ mode_change_text mode) }
{
    let text = match mode {
        FileMode::Unix(bits) => format!(in alloc; "File mode set to {bits:o}")?,
        FileMode::Absent => String::from_str(alloc, "File deleted")?,
    };
    Ok(text)
}

/// Returns the text of a change of binary contents.
///
/// # Errors
/// `AllocError`: an allocation failed.
pub fn binary_text(
    alloc: Global,
    old_description: &Option<Text<'_>>,
    new_description: &Option<Text<'_>>,
) -> Result<String, AllocError>
    ensures ok { IfOk result
        (λ s. string_bytes s ≡ binary_text old_description.now new_description.now) }
{
    let text = match old_description {
        Some(old) => match new_description {
            Some(new) => format!(in alloc; "(binary contents: {old} -> {new})")?,
            None => format!(in alloc; "(binary contents: {old})")?,
        },
        None => match new_description {
            Some(new) => format!(in alloc; "(binary contents: {new})")?,
            None => String::from_str(alloc, "(binary contents )")?,
        },
    };
    Ok(text)
}

/// Returns the sign of a changed line.
pub fn sign_text(change_type: ChangeType) -> &'static str
    ensures { result.now ≡ sign_text change_type }
{
    match change_type {
        ChangeType::Added => "+ ",
        ChangeType::Removed => "- ",
    }
}

/// Returns a line number, right-aligned in five columns, and a space.
///
/// # Errors
/// `AllocError`: an allocation failed.
pub fn number_text(alloc: Global, number: usize) -> Result<String, AllocError>
    ensures ok { IfOk result (λ s. string_bytes s ≡ number_text number) }
{
    Ok(format!(in alloc; "{number:>5} ")?)
}

/// Returns the text of the row of dots.
pub fn dots_text(use_unicode: bool) -> &'static str
    ensures { result.now ≡ dots_text use_unicode }
{
    if use_unicode { "⋮" } else { ":" }
}

/// Returns the first line of `message` without surrounding white space, or `(no message)`.
#[tactic(auto, unfolding(crate::specs::Texts::message_text))]
pub fn message_text(message: &str) -> &str
    ensures { result.now ≡ message_text message.now }
{
    let first = match message.split_once('\n') {
        Some((first, _)) => first.trim(),
        None => message.trim(),
    };
    if first.is_empty() {
        "(no message)"
    } else {
        first
    }
}

/// Returns the bullet between the edit button and the message.
pub fn divider_text() -> &'static str
    ensures { result.now ≡ divider_text }
{
    " • "
}

/// Returns the empty-state text.
pub fn no_files_text() -> &'static str
    ensures { result.now ≡ no_files_text }
{
    "There are no changes to view."
}
