//! What a pager shows, as a grid and as bytes.
ghost use Rattle.std.specs.Prelude.{◌≡◌, [], IfErr, IfOk, string_bytes};
ghost use Rattle.scm_terminal.specs.Promise.{Paints};
ghost use Rattle.scm_pager.specs.Pages.{page_picture, page_screen, page_style};
ghost use Rattle.scm_errors.specs.declared.error.RecordError.TheVariants.{OutOfMemory};

use crate::draw::page_of;
use crate::lines::{SideLine, window_of};
use crate::pager::Pager;
use scm_cells::{Grid, Style};
use scm_errors::RecordError;
use scm_terminal::{Painter, Styles};
use scm_types::File;
use std::alloc::Global;

/// The styles of a page: the status row is reversed, and lines that are there by a mark are bold.
#[derive(Clone, Copy)]
struct PageStyles<'w, 's> {
    /// The lines, from the top.
    lines: &'w [SideLine<'s>],
    /// The status row.
    status: usize,
}

impl<'w, 's> Styles for PageStyles<'w, 's> {
    ghost styled = { λ s. page_style s.lines.now s.status };

    fn style(&self, row: usize, _column: usize) -> Style
        ensures { result ≡ page_style self.now.lines.now self.now.status row _column }
    {
        if row == self.status {
            return Style::PLAIN.reversed();
        }
        match self.lines.get(row) {
            Some(line) => {
                if line.is_marked {
                    Style::PLAIN.bold()
                } else {
                    Style::PLAIN
                }
            }
            None => Style::PLAIN,
        }
    }
}

/// Returns what `pager` shows of `file` on a terminal of `width` columns and `height` rows, of which the last
/// one is the status row.
///
/// # Errors
///
/// - `OutOfMemory`: an allocation failed.
pub fn page(
    alloc: Global,
    pager: Pager,
    file: &File<'_>,
    width: u16,
    height: u16,
) -> Result<Grid, RecordError>
    ensures ok { IfOk result (λ grid. grid ≡ page_screen pager file.now width height) }
    ensures err { IfErr result (λ e. e ≡ OutOfMemory) }
{
    let rows = (height as usize).saturating_sub(1);
    let window = window_of(alloc, file, pager.selected, pager.top, rows)?;
    page_of(alloc, pager, file, &window, width, height)
}

/// Returns the bytes that make a terminal of `width` columns and `height` rows show `pager` over `file`,
/// whatever it shows before. The last row is the status row.
///
/// # Errors
///
/// - `OutOfMemory`: an allocation failed.
pub fn paint(
    alloc: Global,
    pager: Pager,
    file: &File<'_>,
    width: u16,
    height: u16,
) -> Result<String, RecordError>
    ensures ok { IfOk result (λ text. Paints width []
        (page_picture pager file.now width height) (string_bytes text)) }
    ensures err { IfErr result (λ e. e ≡ OutOfMemory) }
{
    let rows = (height as usize).saturating_sub(1);
    let window = window_of(alloc, file, pager.selected, pager.top, rows)?;
    let grid = page_of(alloc, pager, file, &window, width, height)?;
    let styles = PageStyles {
        lines: window.rows(),
        status: rows,
    };
    Painter::new(alloc).paint(&grid, &styles)
}
