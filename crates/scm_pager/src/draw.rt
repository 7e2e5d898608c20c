//! The page of a pager, as a grid.
ghost use Rattle.std.specs.Prelude.{◌≡◌, ◌<◌, ◌≤◌, IfErr, IfOk, OnOk, length, string_bytes};
ghost use Rattle.scm_types.specs.Marks.{is_editable_section};
ghost use Rattle.scm_pager.specs.Pages.{has_sides, left_text, page_of, place_text, lines_text, right_text, shown_side, side_words, sign_of, with_line, with_lines, with_status};
ghost use Rattle.scm_pager.specs.Windows.{capped_length};
ghost use Rattle.scm_pager.specs.Sides.{is_replaced, shown_lines};
ghost use Rattle.scm_errors.specs.declared.error.RecordError.TheVariants.{OutOfMemory};

use crate::lines::{SideLine, Window, is_replaced};
use crate::pager::Pager;
use crate::shown::shown_text;
use scm_cells::{Grid, text_width};
use scm_errors::RecordError;
use scm_types::{File, Section};
use std::alloc::Global;

/// Returns the sign of a line: whether it is there by a mark.
fn sign_of(selected: bool, line: &SideLine<'_>) -> &'static str
    ensures { result.now ≡ sign_of selected line.now }
{
    if !line.is_marked {
        "  "
    } else if selected {
        "+ "
    } else {
        "- "
    }
}

/// Puts `line` on row `row`: its sign, and its text from the columns to the left of `pager` on.
fn put_line(
    alloc: Global,
    grid: &mut Grid,
    pager: Pager,
    row: usize,
    line: &SideLine<'_>,
) -> Result<(), RecordError>
    requires { row < length grid.old.rows }
    ensures ok { OnOk result (grid.new ≡ with_line grid.old.width pager row line.now grid.old) }
    ensures err { IfErr result (λ e. e ≡ OutOfMemory) }
{
    let width = grid.width();
    let text = shown_text(alloc, line.text.as_str())?;
    grid.put(row, 0, sign_of(pager.selected, line), 0, width)?;
    grid.put(row, 2 - pager.left as isize, text.as_str(), 2, width)
}

/// Puts `lines` on the rows from the top on.
fn put_lines(
    alloc: Global,
    grid: &mut Grid,
    pager: Pager,
    lines: &[SideLine<'_>],
) -> Result<(), RecordError>
    requires { length lines.now ≤ length grid.old.rows }
    ensures ok { OnOk result (grid.new ≡ with_lines grid.old.width pager 0 lines.now grid.old) }
    ensures width { OnOk result (grid.new.width ≡ grid.old.width) }
    ensures height { OnOk result (length grid.new.rows ≡ length grid.old.rows) }
    ensures err { IfErr result (λ e. e ≡ OutOfMemory) }
{
    for (row, line) in lines.iter().enumerate() {
        put_line(alloc, grid, pager, row, line)?;
    }
    Ok(())
}

/// Returns what the side is called.
fn side_words(selected: bool) -> &'static str
    ensures { result.now ≡ side_words selected }
{
    if selected {
        ": with the marked changes"
    } else {
        ": with the other changes"
    }
}

/// Returns whether `section` changes something.
fn is_change(section: &Section<'_>) -> bool
    ensures { result ≡ is_editable_section section.now }
{
    section.is_editable()
}

/// Returns whether `file` has two sides: a section of it changes something.
fn has_sides(file: &File<'_>) -> bool
    ensures { result ≡ has_sides file.now }
{
    file.sections.as_slice().iter().any(is_change)
}

/// Returns what the shown side of `file` is called: nothing if the file has no change.
fn shown_side(selected: bool, file: &File<'_>) -> &'static str
    ensures { result.now ≡ shown_side selected file.now }
{
    if has_sides(file) {
        side_words(selected)
    } else {
        ""
    }
}

/// Returns what stands on the left of the status row.
fn left_text(alloc: Global, pager: Pager, file: &File<'_>) -> Result<String, RecordError>
    ensures ok { IfOk result (λ text. string_bytes text ≡ left_text pager file.now) }
    ensures err { IfErr result (λ e. e ≡ OutOfMemory) }
{
    let mut text = shown_text(alloc, file.path.as_str())?;
    text.push_str(shown_side(pager.selected, file))?;
    Ok(text)
}

/// Returns which lines are shown of `count`: `shown` from line `top` on, counted from 0.
fn lines_text(alloc: Global, top: usize, shown: usize, count: usize) -> Result<String, RecordError>
    ensures ok { IfOk result (λ text. string_bytes text ≡ lines_text top shown count) }
    ensures err { IfErr result (λ e. e ≡ OutOfMemory) }
{
    let first = top.saturating_add(1);
    let last = top.saturating_add(shown);
    let text = format!(in alloc; "  {first}-{last}/{count}")?;
    Ok(text)
}

/// Returns which lines `window` shows, or why none are shown.
fn place_text(
    alloc: Global,
    pager: Pager,
    file: &File<'_>,
    window: &Window<'_>,
) -> Result<String, RecordError>
    requires { window.now.count ≡ capped_length (shown_lines pager.selected file.now) }
    ensures ok { IfOk result (λ text. string_bytes text ≡ place_text pager file.now window.now.rows) }
    ensures err { IfErr result (λ e. e ≡ OutOfMemory) }
{
    let shown = window.rows().len();
    if is_replaced(file, pager.selected) {
        let text = String::from_str(alloc, "  binary contents")?;
        Ok(text)
    } else if shown == 0 {
        let text = String::from_str(alloc, "  no lines")?;
        Ok(text)
    } else {
        lines_text(alloc, pager.top, shown, window.count())
    }
}

/// Returns what stands on the right of the status row.
fn right_text(
    alloc: Global,
    pager: Pager,
    file: &File<'_>,
    window: &Window<'_>,
) -> Result<String, RecordError>
    requires { window.now.count ≡ capped_length (shown_lines pager.selected file.now) }
    ensures ok { IfOk result (λ text. string_bytes text ≡ right_text pager file.now window.now.rows) }
    ensures err { IfErr result (λ e. e ≡ OutOfMemory) }
{
    let mut text = place_text(alloc, pager, file, window)?;
    text.push_str("  p: back")?;
    Ok(text)
}

/// Puts `right` at the end of row `row`, and before it what has room of `left`.
fn put_status(grid: &mut Grid, row: usize, left: &str, right: &str) -> Result<(), RecordError>
    requires { row < length grid.old.rows }
    ensures ok { OnOk result (grid.new
        ≡ with_status grid.old.width row left.now right.now grid.old) }
    ensures err { IfErr result (λ e. e ≡ OutOfMemory) }
{
    let width = grid.width();
    let room = width.saturating_sub(text_width(right));
    grid.put(row, 0, left, 0, room)?;
    grid.put(row, 0_isize.strict_add_unsigned(room), right, 0, width)
}

/// Returns the page of `pager` over `file` with the lines of `window`, of `width` columns and `height` rows.
///
/// # Errors
///
/// - `OutOfMemory`: an allocation failed.
pub(crate) fn page_of(
    alloc: Global,
    pager: Pager,
    file: &File<'_>,
    window: &Window<'_>,
    width: u16,
    height: u16,
) -> Result<Grid, RecordError>
    requires few { length window.now.rows ≤ height }
    requires count { window.now.count ≡ capped_length (shown_lines pager.selected file.now) }
    ensures ok { IfOk result (λ grid. grid ≡ page_of pager file.now width height window.now.rows) }
    ensures err { IfErr result (λ e. e ≡ OutOfMemory) }
{
    let mut grid = Grid::new(alloc, width, height)?;
    if height == 0 {
        return Ok(grid);
    }
    let left = left_text(alloc, pager, file)?;
    let right = right_text(alloc, pager, file, window)?;
    put_lines(alloc, &mut grid, pager, window.rows())?;
    put_status(
        &mut grid,
        height as usize - 1,
        left.as_str(),
        right.as_str(),
    )?;
    Ok(grid)
}
