//! Texts of rows that no part of a document has alone.
ghost use Rattle.std.specs.Prelude.{◌≡◌, Some, IfOk, string_bytes};
ghost use Rattle.scm_document.specs.Texts.{path_text};
ghost use Rattle.scm_strips.specs.Shows.{edit_text};

use std::alloc::{AllocError, Global};

/// Returns `path` after `old_path` and an arrow.
pub(crate) fn renamed_text(alloc: Global, old_path: &str, path: &str) -> Result<String, AllocError>
    ensures ok { IfOk result
        (λ s. string_bytes s ≡ path_text (Some old_path.now) path.now) }
{
    Ok(format!(in alloc; "{old_path} => {path}")?)
}

/// Returns the text of the button that edits the message of a commit.
pub(crate) fn edit_text() -> &'static str
    ensures { result.now ≡ edit_text }
{
    "[Edit message]"
}
