//! Puts on one row of a grid. Each counts one draw call.
ghost use Rattle.std.specs.Prelude.{◌≡◌, ◌<◌, ◌≤◌, ◌+◌, ◌^◌, pos, ◌-ℤ◌, ◌∷◌, [], length, min, OnOk, IfOk, IfErr};
ghost use Rattle.scm_cells.specs.Clusters.{text_width};
ghost use Rattle.scm_cells.specs.Row.{put};
ghost use Rattle.scm_cells.specs.Screen.{put_on};
ghost use Rattle.scm_render.specs.Rows.{say_texts, put_texts};
ghost use Rattle.scm_widgets.specs.Blanks.{blanked};
ghost use Rattle.scm_strips.specs.Painted.{IsSized, drawn_on, reached, with_end};
ghost use Rattle.scm_errors.specs.declared.error.RecordError.TheVariants.{OutOfMemory};

use scm_cells::Grid;
use scm_types::RecordError;

/// Puts `text` on row `row` from `column` on, clipped to the columns `low..high`.
///
/// # Errors
/// `OutOfMemory`: an allocation failed.
pub(crate) fn draw_piece(
    grid: &mut Grid,
    row: usize,
    column: usize,
    text: &str,
    low: usize,
    high: usize,
) -> Result<(), RecordError>
    requires row { row < length grid.old.rows }
    requires high { high ≤ grid.old.width }
    requires column { column < 2 ^ 20 }
    ensures ok { OnOk result (grid.new
        ≡ drawn_on row (λ r. put r (pos column) text.now low high) 1 grid.old) }
    ensures size { IsSized grid.old grid.new }
    ensures err { IfErr result (λ e. e ≡ OutOfMemory) }
{
    grid.add_call();
    grid.put(row, column as isize, text, low, high)
}

/// Puts `text`, a fold box, on row `row` three columns before `high`, clipped to the columns
/// `low..high`.
///
/// # Errors
/// `OutOfMemory`: an allocation failed.
pub(crate) fn draw_fold(
    grid: &mut Grid,
    row: usize,
    text: &str,
    low: usize,
    high: usize,
) -> Result<(), RecordError>
    requires row { row < length grid.old.rows }
    requires high { high ≤ grid.old.width }
    requires narrow { high < 2 ^ 20 }
    ensures ok { OnOk result (grid.new
        ≡ drawn_on row (λ r. put r (pos high -ℤ pos 3) text.now low high) 1 grid.old) }
    ensures size { IsSized grid.old grid.new }
    ensures err { IfErr result (λ e. e ≡ OutOfMemory) }
{
    grid.add_call();
    grid.put(row, high as isize - 3, text, low, high)
}

/// Puts spaces in the columns `low..high` of row `row`; none if `high` is left of `low`.
pub(crate) fn draw_blank(grid: &mut Grid, row: usize, low: usize, high: usize)
    requires row { row < length grid.old.rows }
    requires high { high ≤ grid.old.width }
    requires low { low < 2 ^ 20 }
    ensures new { grid.new ≡ drawn_on row (blanked low high) 1 grid.old }
    ensures size { IsSized grid.old grid.new }
{
    grid.add_call();
    grid.put_blank(row, low as isize, high.saturating_sub(low), low, high);
}

/// Puts `text` on row `row` from `column` on, clipped to the columns `low..high`, without counting a
/// call. Returns the column behind it, or `high + 1` if that is further left.
///
/// # Errors
/// `OutOfMemory`: an allocation failed.
pub(crate) fn put_next(
    grid: &mut Grid,
    row: usize,
    column: usize,
    text: &str,
    low: usize,
    high: usize,
) -> Result<usize, RecordError>
    requires row { row < length grid.old.rows }
    requires high { high ≤ grid.old.width }
    requires narrow { high < 2 ^ 20 }
    requires column { column < 2 ^ 20 }
    ensures ok { OnOk result (grid.new ≡ put_on grid.old row (pos column) text.now low high) }
    ensures end { IfOk result (λ n. n ≡ min (column + text_width text.now) (high + 1)) }
    ensures size { IsSized grid.old grid.new }
    ensures err { IfErr result (λ e. e ≡ OutOfMemory) }
{
    let width = grid.put_measured(row, column as isize, text, low, high)?;
    Ok(column.saturating_add(width).min(high + 1))
}

/// Ends texts on row `row` that were put from the columns `low..high` and end before column `end`:
/// puts an ellipsis in the last of these columns if `end` is behind them.
///
/// # Errors
/// `OutOfMemory`: an allocation failed.
pub(crate) fn put_end(
    grid: &mut Grid,
    row: usize,
    end: usize,
    low: usize,
    high: usize,
) -> Result<(), RecordError>
    requires row { row < length grid.old.rows }
    requires high { high ≤ grid.old.width }
    requires narrow { high < 2 ^ 20 }
    ensures ok { OnOk result (grid.new ≡ with_end row end low high grid.old) }
    ensures size { IsSized grid.old grid.new }
    ensures err { IfErr result (λ e. e ≡ OutOfMemory) }
{
    if high < end {
        grid.put(row, high as isize - 1, "…", low, high)
    } else {
        Ok(())
    }
}

/// Puts `text` on row `row` from `column` on, clipped to the columns `low..high`, with an ellipsis in
/// the last of them if it is longer.
///
/// # Errors
/// `OutOfMemory`: an allocation failed.
pub(crate) fn say(
    grid: &mut Grid,
    row: usize,
    column: usize,
    text: &str,
    low: usize,
    high: usize,
) -> Result<(), RecordError>
    requires row { row < length grid.old.rows }
    requires high { high ≤ grid.old.width }
    requires narrow { high < 2 ^ 20 }
    requires column { column < 2 ^ 20 }
    ensures ok { OnOk result (grid.new
        ≡ drawn_on row (λ r. say_texts r (pos column) (text.now ∷ []) low high) 1 grid.old) }
    ensures size { IsSized grid.old grid.new }
    ensures err { IfErr result (λ e. e ≡ OutOfMemory) }
{
    grid.add_call();
    let end = put_next(grid, row, column, text, low, high)?;
    put_end(grid, row, end, low, high)
}
