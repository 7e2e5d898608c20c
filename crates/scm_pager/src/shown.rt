//! Texts as a screen can show them.
ghost use Rattle.std.specs.Prelude.{◌≡◌, IfErr, IfOk, string_bytes};
ghost use Rattle.scm_pager.specs.Pages.{shown_text};
ghost use Rattle.scm_errors.specs.declared.error.RecordError.TheVariants.{OutOfMemory};

use scm_cells::push_spans_from_line;
use scm_errors::RecordError;
use std::alloc::Global;

/// Returns `text` with replacements for the characters that a screen cannot show.
///
/// # Errors
///
/// - `OutOfMemory`: an allocation failed.
pub(crate) fn shown_text(alloc: Global, text: &str) -> Result<String, RecordError>
    ensures ok { IfOk result (λ shown. string_bytes shown ≡ shown_text text.now) }
    ensures err { IfErr result (λ e. e ≡ OutOfMemory) }
{
    let mut spans = Vec::new(alloc);
    push_spans_from_line(text, &mut spans)?;
    let mut shown = String::new(alloc);
    for span in &spans {
        shown.push_str(span.0)?;
    }
    Ok(shown)
}
