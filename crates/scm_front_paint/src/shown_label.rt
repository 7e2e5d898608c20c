//! The row of a label, as a painter keeps it.
ghost use Rattle.std.specs.Prelude.{◌≡◌, IfErr, IfOk, IfSome, IsTrue};
ghost use Rattle.std.specs.List.{concat};
ghost use Rattle.scm_errors.specs.declared.error.RecordError.TheVariants.{OutOfMemory};
ghost use Rattle.scm_cells.specs.Replaced.{line_pieces};
ghost use Rattle.scm_front_paint.specs.Labels.{label_screen};

use crate::labels::label_grid;
use crate::status::with_replacements;
use scm_cells::Grid;
use scm_errors::RecordError;
use std::alloc::Global;
use std::marker::Model;

/// The row of a label, with the text for which it was made.
#[derive(Drop)]
pub(crate) struct ShownLabel {
    /// The text of the label.
    text: String,
    /// The column before which the title of the section ends.
    end: u16,
    /// The row.
    grid: Grid,
}

impl Model for ShownLabel {
    ghost use Rattle.std.specs.Prelude.{◌≡◌, string_bytes};
    ghost use Rattle.std.specs.List.{concat};
    ghost use Rattle.scm_cells.specs.Replaced.{line_pieces};
    ghost use Rattle.scm_cells.specs.Screen.{Screen};
    ghost use Rattle.scm_front_paint.specs.Labels.{label_screen};

    ghost Value = { Screen };

    ghost view = { λ l. l.grid };

    ghost invariant = { λ l. l.grid ≡ label_screen l.end (concat (line_pieces (string_bytes l.text))) };
}

impl ShownLabel {
    /// Makes the row of a label with the text `text`, for a title that ends before column `end`.
    ///
    /// # Errors
    ///
    /// - `OutOfMemory`: an allocation failed.
    fn new(alloc: Global, end: u16, text: &str) -> Result<ShownLabel, RecordError>
        ensures ok { IfOk result (λ label. label ≡ label_screen end (concat (line_pieces text.now))) }
        ensures err { IfErr result (λ e. e ≡ OutOfMemory) }
    {
        let shown = with_replacements(alloc, text)?;
        let grid = label_grid(alloc, end, shown.as_str())?;
        let text = String::from_str(alloc, text)?;
        Ok(ShownLabel { text, end, grid })
    }

    /// Returns whether the row is that of a label with the text `text`, for a title that ends before column `end`.
    fn is_for(&self, end: u16, text: &str) -> bool
        ensures { IsTrue result → self.now ≡ label_screen end (concat (line_pieces text.now)) }
    {
        self.end == end && self.text.as_str() == text
    }

    /// Returns the row.
    pub(crate) fn grid(&self) -> &Grid
        ensures { result.now ≡ self.now }
    {
        &self.grid
    }
}

/// Returns whether `kept` is the row of a label with the text `text`, for a title that ends before column `end`.
fn is_for(kept: &Option<ShownLabel>, end: u16, text: &str) -> bool
    ensures { IsTrue result
        → IfSome kept.now (λ label. label ≡ label_screen end (concat (line_pieces text.now))) }
{
    match kept {
        None => false,
        Some(label) => label.is_for(end, text),
    }
}

/// Takes the row from `kept` if it is that of a label with the text `text`, for a title that ends before column
/// `end`.
fn take_if_for(kept: &mut Option<ShownLabel>, end: u16, text: &str) -> Option<ShownLabel>
    ensures { IfSome result (λ label. label ≡ label_screen end (concat (line_pieces text.now))) }
{
    if is_for(kept, end, text) {
        kept.take()
    } else {
        None
    }
}

/// Takes from `kept` the row of a label with the text `text`, for a title that ends before column `end`, if it is
/// there. Where no row moved, it is at `row`.
fn take_for(kept: &mut [Option<ShownLabel>], row: usize, end: u16, text: &str) -> Option<ShownLabel>
    ensures { IfSome result (λ label. label ≡ label_screen end (concat (line_pieces text.now))) }
{
    if row < kept.len() {
        if let Some(label) = take_if_for(&mut kept[row], end, text) {
            return Some(label);
        }
    }
    kept.iter_mut()
        .find_map(|label| take_if_for(label, end, text))
}

/// Returns the row of a label with the text `text`, for a title that ends before column `end`: the one that `kept`
/// has, or a new one. Where no row moved, `kept` has it at `row`.
///
/// # Errors
///
/// - `OutOfMemory`: an allocation failed.
pub(crate) fn label_with(
    alloc: Global,
    kept: &mut [Option<ShownLabel>],
    row: usize,
    end: u16,
    text: &str,
) -> Result<ShownLabel, RecordError>
    ensures ok { IfOk result (λ label. label ≡ label_screen end (concat (line_pieces text.now))) }
    ensures err { IfErr result (λ e. e ≡ OutOfMemory) }
{
    match take_for(kept, row, end, text) {
        None => ShownLabel::new(alloc, end, text),
        Some(label) => Ok(label),
    }
}
