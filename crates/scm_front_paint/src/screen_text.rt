//! The status row of a view, for a program that reads the screen by its symbols or as a text.
ghost use Rattle.std.specs.Prelude.{IfErr, IfOk, string_bytes, ◌≡◌};
ghost use Rattle.scm_errors.specs.declared.error.RecordError.TheVariants.{OutOfMemory};
ghost use Rattle.scm_front_paint.specs.StatusRow.{HasStatusRow, text_of_view};

use crate::painter::width_of;
use crate::status::{left_of, right_of, status_grid};
use crate::view::View;
use scm_record::{Grid, RecordError};
use std::alloc::Global;

/// Returns a grid of one row, the status row of `view`, which says by `accept` what accepting does.
///
/// # Errors
///
/// - `OutOfMemory`: an allocation failed.
pub fn status_row(alloc: Global, view: &View<'_>, accept: &str) -> Result<Grid, RecordError>
    ensures ok { IfOk result (λ grid. HasStatusRow view.now accept.now grid) }
    ensures err { IfErr result (λ e. e ≡ OutOfMemory) }
{
    let width = width_of(view);
    let left = left_of(alloc, view.front(), width as usize)?;
    let x = view.offset() as usize;
    let right = right_of(alloc, view.front(), width, &left, x, accept)?;
    status_grid(alloc, None, width, 0, &left, right.as_str())
}

/// Returns the text of the session's whole screen, and below it that of the status row, which says by
/// `accept` what accepting does.
///
/// # Errors
///
/// - `OutOfMemory`: an allocation failed.
pub fn view_text(alloc: Global, view: &View<'_>, accept: &str) -> Result<String, RecordError>
    ensures ok { IfOk result (λ text. string_bytes text ≡ text_of_view view.now accept.now) }
    ensures err { IfErr result (λ e. e ≡ OutOfMemory) }
{
    let row = status_row(alloc, view, accept)?;
    let last = row.view()?;
    let mut text = view.front().beneath().grid().view()?;
    text.push_str(last.as_str())?;
    Ok(text)
}
