//! Headings: a fold box at the end of an area, and before it a blank, a checkbox and a title.
ghost use Rattle.std.specs.Prelude.{◌≡◌, ◌<◌, ◌≤◌, ◌+◌, length, OnOk, IfErr};
ghost use Rattle.scm_document.specs.Rows.{lent_text};
ghost use Rattle.scm_document.specs.Texts.{path_text, section_text};
ghost use Rattle.scm_strips.specs.Painted.{IsSized, drawn_on};
ghost use Rattle.scm_strips.specs.ShownRows.{heading};
ghost use Rattle.scm_strips.specs.Shows.{show_heading};
ghost use Rattle.scm_errors.specs.declared.error.RecordError.TheVariants.{OutOfMemory};

use crate::area::{Area, end_column};
use crate::puts::{draw_blank, draw_fold, draw_piece, say};
use crate::texts::renamed_text;
use scm_cells::Grid;
use scm_document::texts::section_text;
use scm_types::RecordError;
use scm_widgets::ids::ComponentId;
use scm_widgets::tristate_box::TristateBox;
use std::alloc::Global;

/// Draws a heading on row `row`, its checkbox from column `indent` of `area` on. Four draw calls.
fn draw_heading(
    grid: &mut Grid,
    row: usize,
    area: Area,
    indent: usize,
    toggle_box: &TristateBox<ComponentId>,
    expand_box: &TristateBox<ComponentId>,
    title: &str,
) -> Result<(), RecordError>
    requires row { row < length grid.old.rows }
    requires area { area.left + area.width ≤ grid.old.width }
    requires indent { indent ≤ 2 }
    ensures ok { OnOk result (grid.new ≡ drawn_on row
        (show_heading area indent (heading toggle_box.now expand_box.now title.now)) 4 grid.old) }
    ensures size { IsSized grid.old grid.new }
    ensures err { IfErr result (λ e. e ≡ OutOfMemory) }
{
    let end = end_column(grid, area);
    let low = area.left + indent;
    let high = area.left + area.width.saturating_sub(3);
    draw_fold(grid, row, expand_box.text(), area.left, end)?;
    draw_blank(grid, row, low, high);
    draw_piece(grid, row, low, toggle_box.text(), low, high)?;
    say(grid, row, low + 4, title, low, high)
}

/// Draws the header of a file on row `row`.
///
/// # Errors
/// `OutOfMemory`: an allocation failed.
pub(crate) fn draw_file(
    alloc: Global,
    grid: &mut Grid,
    row: usize,
    area: Area,
    toggle_box: &TristateBox<ComponentId>,
    expand_box: &TristateBox<ComponentId>,
    old_path: Option<&str>,
    path: &str,
) -> Result<(), RecordError>
    requires row { row < length grid.old.rows }
    requires area { area.left + area.width ≤ grid.old.width }
    ensures ok { OnOk result (grid.new ≡ drawn_on row (show_heading area 0
        (heading toggle_box.now expand_box.now (path_text (lent_text old_path.entry) path.now)))
        4 grid.old) }
    ensures size { IsSized grid.old grid.new }
    ensures err { IfErr result (λ e. e ≡ OutOfMemory) }
{
    match old_path {
        None => draw_heading(grid, row, area, 0, toggle_box, expand_box, path),
        Some(old_path) => {
            let title = renamed_text(alloc, old_path, path)?;
            draw_heading(grid, row, area, 0, toggle_box, expand_box, title.as_str())
        }
    }
}

/// Draws the header of a section of changed lines on row `row`: section `number` of `total`.
///
/// # Errors
/// `OutOfMemory`: an allocation failed.
pub(crate) fn draw_section(
    alloc: Global,
    grid: &mut Grid,
    row: usize,
    area: Area,
    toggle_box: &TristateBox<ComponentId>,
    expand_box: &TristateBox<ComponentId>,
    number: usize,
    total: usize,
) -> Result<(), RecordError>
    requires row { row < length grid.old.rows }
    requires area { area.left + area.width ≤ grid.old.width }
    ensures ok { OnOk result (grid.new ≡ drawn_on row (show_heading area 2
        (heading toggle_box.now expand_box.now (section_text number total))) 4 grid.old) }
    ensures size { IsSized grid.old grid.new }
    ensures err { IfErr result (λ e. e ≡ OutOfMemory) }
{
    let title = section_text(alloc, number, total)?;
    draw_heading(grid, row, area, 2, toggle_box, expand_box, title.as_str())
}
