//! The painting of a row, by its kind.
ghost use Rattle.std.specs.Prelude.{◌≡◌, ◌<◌, ◌≤◌, ◌+◌, length, OnOk, IfErr};
ghost use Rattle.scm_document.specs.Rows.{line_texts};
ghost use Rattle.scm_document.specs.Texts.{binary_text, dots_text, mode_change_text, number_text, sign_text};
ghost use Rattle.scm_strips.specs.Painted.{IsSized, drawn_on, painted};
ghost use Rattle.scm_strips.specs.ShownRows.{row_of};
ghost use Rattle.scm_strips.specs.Shows.{blank_in, calls_of, put_in, say_in, show_line, show_mark, show_message, show_words, shows};
ghost use Rattle.scm_errors.specs.declared.error.RecordError.TheVariants.{OutOfMemory};

use crate::area::{Area, end_column};
use crate::headings::{draw_file, draw_section};
use crate::lines::say_line;
use crate::puts::{draw_blank, draw_piece, say};
use crate::shown::Shown;
use crate::texts::edit_text;
use scm_cells::Grid;
use scm_document::texts::{
    binary_text, divider_text, dots_text, message_text, mode_change_text, no_files_text,
    number_text, sign_text,
};
use scm_render::centred_gap;
use scm_types::{ChangeType, FileMode, RecordError, Text};
use scm_widgets::ids::ComponentId;
use scm_widgets::tristate_box::TristateBox;
use std::alloc::Global;

/// Draws a changed line on row `row`: its checkbox, its sign and its text.
fn draw_line(
    alloc: Global,
    grid: &mut Grid,
    row: usize,
    area: Area,
    toggle_box: &TristateBox<ComponentId>,
    change_type: ChangeType,
    line: &str,
) -> Result<(), RecordError>
    requires row { row < length grid.old.rows }
    requires area { area.left + area.width ≤ grid.old.width }
    ensures ok { OnOk result (grid.new ≡ drawn_on row (show_line area toggle_box.now
        (line_texts (sign_text change_type) line.now)) 2 grid.old) }
    ensures size { IsSized grid.old grid.new }
    ensures err { IfErr result (λ e. e ≡ OutOfMemory) }
{
    let low = area.left;
    let high = end_column(grid, area);
    draw_piece(grid, row, low + 4, toggle_box.text(), low, high)?;
    say_line(
        alloc,
        grid,
        row,
        low + 8,
        sign_text(change_type),
        line,
        low,
        high,
    )
}

/// Draws a line of context on row `row`: its number and its text.
fn draw_context(
    alloc: Global,
    grid: &mut Grid,
    row: usize,
    area: Area,
    number: usize,
    line: &str,
) -> Result<(), RecordError>
    requires row { row < length grid.old.rows }
    requires area { area.left + area.width ≤ grid.old.width }
    ensures ok { OnOk result (grid.new ≡ drawn_on row (say_in area 4
        (line_texts (number_text number) line.now)) 1 grid.old) }
    ensures size { IsSized grid.old grid.new }
    ensures err { IfErr result (λ e. e ≡ OutOfMemory) }
{
    let low = area.left;
    let high = end_column(grid, area);
    let front = number_text(alloc, number)?;
    say_line(alloc, grid, row, low + 4, front.as_str(), line, low, high)
}

/// Draws a mode or a binary on row `row`: its checkbox and its text.
fn draw_mark(
    grid: &mut Grid,
    row: usize,
    area: Area,
    toggle_box: &TristateBox<ComponentId>,
    text: &str,
) -> Result<(), RecordError>
    requires row { row < length grid.old.rows }
    requires area { area.left + area.width ≤ grid.old.width }
    ensures ok { OnOk result (grid.new ≡ drawn_on row
        (show_mark area toggle_box.now text.now) 2 grid.old) }
    ensures size { IsSized grid.old grid.new }
    ensures err { IfErr result (λ e. e ≡ OutOfMemory) }
{
    let low = area.left;
    let high = end_column(grid, area);
    draw_piece(grid, row, low + 2, toggle_box.text(), low, high)?;
    say(grid, row, low + 6, text, low, high)
}

/// Draws a change of file mode on row `row`.
fn draw_mode(
    alloc: Global,
    grid: &mut Grid,
    row: usize,
    area: Area,
    toggle_box: &TristateBox<ComponentId>,
    mode: FileMode,
) -> Result<(), RecordError>
    requires row { row < length grid.old.rows }
    requires area { area.left + area.width ≤ grid.old.width }
    ensures ok { OnOk result (grid.new ≡ drawn_on row
        (show_mark area toggle_box.now (mode_change_text mode)) 2 grid.old) }
    ensures size { IsSized grid.old grid.new }
    ensures err { IfErr result (λ e. e ≡ OutOfMemory) }
{
    let text = mode_change_text(alloc, mode)?;
    draw_mark(grid, row, area, toggle_box, text.as_str())
}

/// Draws a change of binary contents on row `row`.
fn draw_binary(
    alloc: Global,
    grid: &mut Grid,
    row: usize,
    area: Area,
    toggle_box: &TristateBox<ComponentId>,
    old_description: &Option<Text<'_>>,
    new_description: &Option<Text<'_>>,
) -> Result<(), RecordError>
    requires row { row < length grid.old.rows }
    requires area { area.left + area.width ≤ grid.old.width }
    ensures ok { OnOk result (grid.new ≡ drawn_on row
        (show_mark area toggle_box.now (binary_text old_description.now new_description.now)) 2 grid.old) }
    ensures size { IsSized grid.old grid.new }
    ensures err { IfErr result (λ e. e ≡ OutOfMemory) }
{
    let text = binary_text(alloc, old_description, new_description)?;
    draw_mark(grid, row, area, toggle_box, text.as_str())
}

/// Draws the dots that replace hidden lines of context on row `row`.
fn draw_dots(grid: &mut Grid, row: usize, area: Area, use_unicode: bool) -> Result<(), RecordError>
    requires row { row < length grid.old.rows }
    requires area { area.left + area.width ≤ grid.old.width }
    ensures ok { OnOk result (grid.new ≡ drawn_on row
        (put_in area 8 (dots_text use_unicode)) 1 grid.old) }
    ensures size { IsSized grid.old grid.new }
    ensures err { IfErr result (λ e. e ≡ OutOfMemory) }
{
    let low = area.left;
    let high = end_column(grid, area);
    draw_piece(grid, row, low + 8, dots_text(use_unicode), low, high)
}

/// Blanks the columns of `area` from column `first` on, on row `row`.
fn draw_blank_from(grid: &mut Grid, row: usize, area: Area, first: usize)
    requires row { row < length grid.old.rows }
    requires area { area.left + area.width ≤ grid.old.width }
    requires first { first ≤ 2 }
    ensures new { grid.new ≡ drawn_on row (blank_in area first) 1 grid.old }
    ensures size { IsSized grid.old grid.new }
{
    let high = end_column(grid, area);
    draw_blank(grid, row, area.left + first, high);
}

/// Draws the row of `message`, that of a commit, on row `row`: the button that edits it, a bullet, and its
/// first line.
fn draw_message(grid: &mut Grid, row: usize, area: Area, message: &str) -> Result<(), RecordError>
    requires row { row < length grid.old.rows }
    requires area { area.left + area.width ≤ grid.old.width }
    ensures ok { OnOk result (grid.new ≡ drawn_on row (show_message area message.now) 3 grid.old) }
    ensures size { IsSized grid.old grid.new }
    ensures err { IfErr result (λ e. e ≡ OutOfMemory) }
{
    let low = area.left;
    let high = end_column(grid, area);
    draw_piece(grid, row, low, edit_text(), low, high)?;
    draw_piece(grid, row, low + 15, divider_text(), low, high)?;
    say(grid, row, low + 19, message_text(message), low, high)
}

/// Draws the empty-state text on row `row`, in the middle of `area`.
fn draw_words(grid: &mut Grid, row: usize, area: Area) -> Result<(), RecordError>
    requires row { row < length grid.old.rows }
    requires area { area.left + area.width ≤ grid.old.width }
    ensures ok { OnOk result (grid.new ≡ drawn_on row (show_words area) 1 grid.old) }
    ensures size { IsSized grid.old grid.new }
    ensures err { IfErr result (λ e. e ≡ OutOfMemory) }
{
    let low = area.left;
    let high = end_column(grid, area);
    let column = low + centred_gap(area.width, 29, 50);
    say(grid, row, column, no_files_text(), low, high)
}

/// Draws `what` on row `row`, in `area`, without counting the row.
fn draw_row(
    alloc: Global,
    grid: &mut Grid,
    row: usize,
    area: Area,
    what: &Shown<'_>,
) -> Result<(), RecordError>
    requires row { row < length grid.old.rows }
    requires area { area.left + area.width ≤ grid.old.width }
    ensures ok { OnOk result (grid.new ≡ drawn_on row
        (shows area (row_of what.now)) (calls_of (row_of what.now)) grid.old) }
    ensures size { IsSized grid.old grid.new }
    ensures err { IfErr result (λ e. e ≡ OutOfMemory) }
{
    match what {
        Shown::File {
            toggle_box,
            expand_box,
            old_path,
            path,
            ..
        } => draw_file(
            alloc, grid, row, area, toggle_box, expand_box, *old_path, path,
        ),
        Shown::Section {
            toggle_box,
            expand_box,
            number,
            total,
            ..
        } => draw_section(
            alloc, grid, row, area, toggle_box, expand_box, *number, *total,
        ),
        Shown::Line {
            toggle_box,
            change_type,
            line,
            ..
        } => draw_line(alloc, grid, row, area, toggle_box, *change_type, line),
        Shown::Mode {
            toggle_box,
            mode,
            ..
        } => draw_mode(alloc, grid, row, area, toggle_box, *mode),
        Shown::Binary {
            toggle_box,
            old_description,
            new_description,
            ..
        } => draw_binary(
            alloc,
            grid,
            row,
            area,
            toggle_box,
            old_description,
            new_description,
        ),
        Shown::Context { number, line, .. } => {
            draw_context(alloc, grid, row, area, *number, line)
        }
        Shown::Dots { use_unicode } => draw_dots(grid, row, area, *use_unicode),
        Shown::Blank => {
            draw_blank_from(grid, row, area, 2);
            Ok(())
        }
        Shown::Message { message, .. } => draw_message(grid, row, area, message),
        Shown::Margin => {
            draw_blank_from(grid, row, area, 0);
            Ok(())
        }
        Shown::Words => draw_words(grid, row, area),
    }
}

/// Paints `what` on row `row` of `grid`, over what the row shows, in the columns of `area` alone. Counts one
/// row and at most four draw calls.
///
/// # Errors
/// `OutOfMemory`: an allocation failed; the row is incomplete.
pub fn paint_row(
    alloc: Global,
    grid: &mut Grid,
    row: usize,
    area: Area,
    what: &Shown<'_>,
) -> Result<(), RecordError>
    requires row { row < length grid.old.rows }
    requires area { area.left + area.width ≤ grid.old.width }
    ensures ok { OnOk result (grid.new ≡ painted area row (row_of what.now) grid.old) }
    ensures size { IsSized grid.old grid.new }
    ensures err { IfErr result (λ e. e ≡ OutOfMemory) }
{
    grid.add_row();
    draw_row(alloc, grid, row, area, what)
}
