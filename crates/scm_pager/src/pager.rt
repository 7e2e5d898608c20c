//! Where a pager stands in a side of a file, and where keys take it.
ghost use Rattle.std.specs.Prelude.{◌≡◌};
ghost use Rattle.scm_pager.specs.Keys.{deed_of};
ghost use Rattle.scm_pager.specs.Moves.{column_after, last_top, moved, opened, page, row_after};
ghost use Rattle.scm_pager.specs.Places.{shown_at};

use crate::counts::line_count;
use crate::keys::{Deed, Step, Turn, deed_of};
use crate::places::line_at;
use scm_input::TerminalEvent;
use scm_types::File;

/// Where a pager stands. It has no memory of its own.
#[repr(C)]
#[derive(Clone, Copy)]
pub struct Pager {
    /// The file that it shows, counted from 0.
    pub file: usize,
    /// The line on the first row of the screen, counted from 0.
    pub top: usize,
    /// How many columns of each line stand to the left of the screen.
    pub left: u16,
    /// Whether it shows the selected side, and not the other one.
    pub selected: bool,
    /// Whether it is open.
    pub is_open: bool,
}

/// Returns how many rows a page has on a screen of `height` rows, of which the last one is the status row: at
/// least one.
fn page(height: u16) -> usize
    ensures { result ≡ page height }
{
    (height as usize).saturating_sub(1).max(1)
}

/// Returns the line on the first row where the last page of `count` lines is shown.
fn last_top(count: usize, rows: usize) -> usize
    ensures { result ≡ last_top count rows }
{
    count.saturating_sub(rows)
}

/// Returns the line on the first row after `step` from line `top` on, while a page has `rows` rows, before
/// the end of the file is looked at.
fn row_after(step: Step, top: usize, rows: usize) -> usize
    ensures { result ≡ row_after step top rows }
{
    match step {
        Step::Down => top.saturating_add(1),
        Step::Up => top.saturating_sub(1),
        Step::HalfPageDown => top.saturating_add(rows.div_ceil(2)),
        Step::HalfPageUp => top.saturating_sub(rows.div_ceil(2)),
        Step::PageDown => top.saturating_add(rows),
        Step::PageUp => top.saturating_sub(rows),
        Step::First => 0,
        Step::Last => usize::MAX,
    }
}

/// Returns the columns to the left after a step of half a screen of `width` columns.
fn column_after(turn: Turn, left: u16, width: u16) -> u16
    ensures { result ≡ column_after turn left width }
{
    let step = (width / 2).max(1);
    match turn {
        Turn::Right => left.saturating_add(step),
        Turn::Left => left.saturating_sub(step),
    }
}

impl Pager {
    /// Returns a pager at the beginning of the selected side of file `file`, or of the other side.
    pub fn open(file: usize, selected: bool) -> Pager
        ensures { result ≡ opened file selected }
    {
        Pager {
            file,
            top: 0,
            left: 0,
            selected,
            is_open: true,
        }
    }

    /// Returns the pager with line `line` of section `index` of `file` on a screen of `height` rows, both counted from
    /// 0. `file` is the one that it shows. A third of the page is above the line, unless it stands near an end of the
    /// file.
    pub fn show(self, file: &File<'_>, index: usize, line: usize, height: u16) -> Pager
        ensures { result ≡ shown_at self file.now index line height }
    {
        let rows = page(height);
        let place = line_at(file, self.selected, index, line);
        let count = line_count(file, self.selected);
        Pager {
            top: place.saturating_sub(rows / 3).min(last_top(count, rows)),
            ..self
        }
    }

    /// Returns the pager after `event` of a terminal of `width` columns and `height` rows, if the side that
    /// it shows has `count` lines.
    ///
    /// A page stays full at the end of the file. A turn to the other side begins at its top.
    pub fn hear(self, event: TerminalEvent, count: usize, width: u16, height: u16) -> Pager
        ensures { result ≡ moved self (deed_of event) count width height }
    {
        let rows = page(height);
        match deed_of(event) {
            Deed::Step(step) => Pager {
                top: row_after(step, self.top, rows).min(last_top(count, rows)),
                ..self
            },
            Deed::Turn(turn) => Pager {
                left: column_after(turn, self.left, width),
                ..self
            },
            Deed::Show(selected) => {
                if selected == self.selected {
                    Pager {
                        is_open: false,
                        ..self
                    }
                } else {
                    Pager::open(self.file, selected)
                }
            }
            Deed::Close => Pager {
                is_open: false,
                ..self
            },
            Deed::Stay => self,
        }
    }
}
