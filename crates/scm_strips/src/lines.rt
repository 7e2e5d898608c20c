//! The texts of lines: a sign or number, and the line as a screen can show it.
ghost use Rattle.std.specs.Prelude.{◌≡◌, ◌<◌, ◌≤◌, ◌^◌, pos, ◌∷◌, [], length, IfSome, OnOk, IfOk, IfErr};
ghost use Rattle.scm_cells.specs.Replaced.{line_pieces};
ghost use Rattle.scm_cells.specs.Spans.{span_texts};
ghost use Rattle.scm_render.specs.Rows.{say_texts};
ghost use Rattle.scm_document.specs.Rows.{line_texts};
ghost use Rattle.scm_strips.specs.Painted.{IsSized, drawn_on, reached, with_texts};
ghost use Rattle.scm_errors.specs.declared.error.RecordError.TheVariants.{OutOfMemory};

use crate::puts::{put_end, put_next};
use scm_cells::{Grid, Span, printable_line, push_first_spans};
use scm_types::RecordError;
use std::alloc::Global;

/// How many bytes of a line are read, whatever is shown of it, to put it without a list of spans.
const SHORT: usize = 256;

/// Returns the two texts that a screen shows of `line`, if it is short, and printable ASCII but for
/// its line end.
fn short_line(line: &str) -> Option<(&str, &'static str)>
    ensures { IfSome result (λ p. line_pieces line.now ≡ p.0.now ∷ (p.1.now ∷ [])) }
{
    if line.len() <= SHORT {
        printable_line(line)
    } else {
        None
    }
}

/// Puts `first` and `second` side by side on row `row` from `column` on, clipped to the columns
/// `low..high`. Returns the column behind them, or `high + 1` if that is further left.
fn put_both(
    grid: &mut Grid,
    row: usize,
    column: usize,
    first: &str,
    second: &str,
    low: usize,
    high: usize,
) -> Result<usize, RecordError>
    requires row { row < length grid.old.rows }
    requires high { high ≤ grid.old.width }
    requires narrow { high < 2 ^ 16 }
    requires column { column < 2 ^ 20 }
    ensures ok { OnOk result (grid.new
        ≡ with_texts row column (first.now ∷ (second.now ∷ [])) low high grid.old) }
    ensures end { IfOk result (λ n. n ≡ reached high column (first.now ∷ (second.now ∷ []))) }
    ensures size { IsSized grid.old grid.new }
    ensures err { IfErr result (λ e. e ≡ OutOfMemory) }
{
    let next = put_next(grid, row, column, first, low, high)?;
    put_next(grid, row, next, second, low, high)
}

/// Puts `spans` side by side on row `row` from `column` on, clipped to the columns `low..high`.
/// Returns the column behind them, or `high + 1` if that is further left.
fn put_spans(
    grid: &mut Grid,
    row: usize,
    column: usize,
    spans: &[Span<'_>],
    low: usize,
    high: usize,
) -> Result<usize, RecordError>
    requires row { row < length grid.old.rows }
    requires high { high ≤ grid.old.width }
    requires narrow { high < 2 ^ 16 }
    requires column { column < 2 ^ 20 }
    ensures ok { OnOk result (grid.new
        ≡ with_texts row column (span_texts spans.now) low high grid.old) }
    ensures end { IfOk result (λ n. n ≡ reached high column (span_texts spans.now)) }
    ensures size { IsSized grid.old grid.new }
    ensures err { IfErr result (λ e. e ≡ OutOfMemory) }
{
    let mut next = column.min(high + 1);
    for span in spans {
        next = put_next(grid, row, next, span.0, low, high)?;
    }
    Ok(next)
}

/// Puts what a screen shows of `line` on row `row` from `column` on, clipped to the columns
/// `low..high`, by a list of spans. Returns the column behind it, or `high + 1` if that is further
/// left. Costs what the columns cost, however long `line` is.
fn put_long(
    alloc: Global,
    grid: &mut Grid,
    row: usize,
    column: usize,
    line: &str,
    low: usize,
    high: usize,
) -> Result<usize, RecordError>
    requires row { row < length grid.old.rows }
    requires high { high ≤ grid.old.width }
    requires narrow { high < 2 ^ 16 }
    requires column { column < 2 ^ 20 }
    ensures ok { OnOk result (grid.new
        ≡ with_texts row column (line_pieces line.now) low high grid.old) }
    ensures end { IfOk result (λ n. n ≡ reached high column (line_pieces line.now)) }
    ensures size { IsSized grid.old grid.new }
    ensures err { IfErr result (λ e. e ≡ OutOfMemory) }
{
    let mut spans = Vec::new(alloc);
    push_first_spans(line, high.saturating_sub(column), &mut spans)?;
    put_spans(grid, row, column, spans.as_slice(), low, high)
}

/// Puts what a screen shows of `line` on row `row` from `column` on, clipped to the columns
/// `low..high`. Returns the column behind it, or `high + 1` if that is further left.
fn put_line(
    alloc: Global,
    grid: &mut Grid,
    row: usize,
    column: usize,
    line: &str,
    low: usize,
    high: usize,
) -> Result<usize, RecordError>
    requires row { row < length grid.old.rows }
    requires high { high ≤ grid.old.width }
    requires narrow { high < 2 ^ 16 }
    requires column { column < 2 ^ 20 }
    ensures ok { OnOk result (grid.new
        ≡ with_texts row column (line_pieces line.now) low high grid.old) }
    ensures end { IfOk result (λ n. n ≡ reached high column (line_pieces line.now)) }
    ensures size { IsSized grid.old grid.new }
    ensures err { IfErr result (λ e. e ≡ OutOfMemory) }
{
    match short_line(line) {
        Some((text, end)) => put_both(grid, row, column, text, end, low, high),
        None => put_long(alloc, grid, row, column, line, low, high),
    }
}

/// Puts `front`, a line's number or sign, and the line on row `row` from `column` on, clipped to the
/// columns `low..high`, with an ellipsis in the last of them if they are longer. Counts one draw call.
///
/// # Errors
/// `OutOfMemory`: an allocation failed.
pub(crate) fn say_line(
    alloc: Global,
    grid: &mut Grid,
    row: usize,
    column: usize,
    front: &str,
    line: &str,
    low: usize,
    high: usize,
) -> Result<(), RecordError>
    requires row { row < length grid.old.rows }
    requires high { high ≤ grid.old.width }
    requires narrow { high < 2 ^ 16 }
    requires column { column < 2 ^ 20 }
    ensures ok { OnOk result (grid.new ≡ drawn_on row
        (λ r. say_texts r (pos column) (line_texts front.now line.now) low high) 1 grid.old) }
    ensures size { IsSized grid.old grid.new }
    ensures err { IfErr result (λ e. e ≡ OutOfMemory) }
{
    grid.add_call();
    let next = put_next(grid, row, column, front, low, high)?;
    let end = put_line(alloc, grid, row, next, line, low, high)?;
    put_end(grid, row, end, low, high)
}
