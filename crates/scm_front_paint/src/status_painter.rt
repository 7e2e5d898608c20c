//! A painter of the status row.
ghost use Rattle.std.specs.Prelude.{◌≡◌, ◌<◌, [], IfErr, IfOk, OnOk, if◌then◌else◌, length, replicate, string_bytes};
ghost use Rattle.scm_errors.specs.declared.error.RecordError.TheVariants.{OutOfMemory};
ghost use Rattle.scm_terminal.specs.Promise.{Paints};
ghost use Rattle.scm_terminal.specs.Style.{plain_style};
ghost use Rattle.scm_terminal.specs.StyledCell.{row_of_styles};
ghost use Rattle.scm_front_paint.specs.Blank.{IsBeginning, PaintsLast, blank_picture, plain_at};
ghost use Rattle.scm_front_paint.specs.Status.{status_picture, status_style};

use crate::blanks::{blank_grid, blanking};
use crate::status::{LeftText, status_grid};
use scm_cells::{Grid, Style};
use scm_errors::RecordError;
use scm_terminal::{NumberedStyle, Painter, Styles};
use std::alloc::Global;
use std::marker::Model;

/// The styles of a status row on row `row`: it is reversed, and all else is plain.
#[derive(Clone, Copy)]
pub(crate) struct StatusStyles {
    pub(crate) row: usize,
}

impl Styles for StatusStyles {
    ghost styled = { λ s. status_style s.row };

    fn style(&self, row: usize, _column: usize) -> Style
        ensures { result ≡ status_style self.now.row row _column }
    {
        if row == self.row {
            Style {
                reversed: true,
                ..Style::PLAIN
            }
        } else {
            Style::PLAIN
        }
    }

    /// Sets `styles` to the styles of the places of row `row`, counted from 0: they are all the same.
    fn row_styles(&self, row: usize, styles: &mut [NumberedStyle])
        ensures { styles.new ≡ row_of_styles (status_style self.now.row) row (length styles.old) }
    {
        let style = NumberedStyle::new(self.style(row, 0));
        fill(style, styles);
    }
}

/// Sets each of `styles` to `style`.
fn fill(style: NumberedStyle, styles: &mut [NumberedStyle])
    ensures { styles.new ≡ replicate (length styles.old) style }
{
    'places: for place in styles.iter_mut() {
        *place = style;
    }
}

/// The plain style at each place.
#[derive(Clone, Copy)]
struct PlainStyles;

impl Styles for PlainStyles {
    ghost styled = { λ s. plain_at };

    fn style(&self, _row: usize, _column: usize) -> Style
        ensures { result ≡ plain_style }
    {
        Style::PLAIN
    }
}

/// A painter of one row, and of blanks above it, which it writes and reads only if it knows nothing.
#[derive(Drop)]
struct RowPainter {
    /// The painter of both.
    painter: Painter,
    /// The grid that was painted last, whose memory the next one takes.
    grid: Option<Grid>,
}

impl Model for RowPainter {
    ghost use Rattle.std.specs.Prelude.{List};
    ghost use Rattle.scm_terminal.specs.StyledCell.{StyledCell};
    ghost use Rattle.scm_front_paint.specs.Blank.{HasBlanks};

    ghost Value = { List (List StyledCell) };

    ghost view = { λ p. p.painter };

    ghost invariant = { λ p. HasBlanks p.painter p.grid };
}

impl RowPainter {
    /// Makes a painter that knows nothing of what the terminal shows.
    fn new(alloc: Global) -> RowPainter
        ensures { result ≡ [] }
    {
        RowPainter {
            painter: Painter::new(alloc),
            grid: None,
        }
    }

    /// Takes the row below `height` rows of `width` columns as blank.
    ///
    /// # Errors
    ///
    /// - `OutOfMemory`: an allocation failed.
    fn take_as_blank(&mut self, alloc: Global, width: u16, height: u16) -> Result<(), RecordError>
        requires { height < 65535 }
        ensures blank { OnOk result (self.new ≡ blank_picture width height) }
        ensures err { IfErr result (λ e. e ≡ OutOfMemory) }
    {
        let grid = blank_grid(alloc, self.grid.take(), width, height)?;
        let _text = self
            .painter
            .paint_from(&grid, &PlainStyles, height as usize)?;
        self.grid = Some(grid);
        Ok(())
    }

    /// Returns the bytes that paint the status row below `height` rows of `width` columns, with `left` and
    /// `right` on it.
    ///
    /// # Errors
    ///
    /// - `OutOfMemory`: an allocation failed.
    fn paint(
        &mut self,
        alloc: Global,
        width: u16,
        height: u16,
        left: &LeftText,
        right: &str,
    ) -> Result<String, RecordError>
        requires { height < 65535 }
        ensures ok { IfOk result (λ text. Paints width self.old
            (status_picture width height left.now right.now) (string_bytes text)) }
        ensures painted { OnOk result
            (self.new ≡ status_picture width height left.now right.now) }
        ensures err { IfErr result (λ e. e ≡ OutOfMemory) }
    {
        let grid = status_grid(alloc, self.grid.take(), width, height, left, right)?;
        let row = height as usize;
        let styles = StatusStyles { row };
        let text = self.painter.paint_from(&grid, &styles, row)?;
        self.grid = Some(grid);
        Ok(text)
    }
}

/// Returns the bytes with which a paint of the row below `height` rows of `width` columns begins: none if it
/// `is_known` what the terminal shows. Otherwise they make the row blank.
///
/// # Errors
///
/// - `OutOfMemory`: an allocation failed.
fn begin(
    row: &mut RowPainter,
    is_known: bool,
    alloc: Global,
    width: u16,
    height: u16,
) -> Result<String, RecordError>
    requires { height < 65535 }
    ensures ok { IfOk result (λ text. IsBeginning width height
        (if is_known then row.old else []) row.new (string_bytes text)) }
    ensures err { IfErr result (λ e. e ≡ OutOfMemory) }
{
    if is_known {
        return Ok(String::new(alloc));
    }
    row.take_as_blank(alloc, width, height)?;
    blanking(alloc, width as usize, height as usize)
}

/// A painter of a status row. While it knows nothing, it writes blanks on the row first.
#[derive(Drop)]
pub(crate) struct StatusPainter {
    /// The painter of the row.
    row: RowPainter,
    /// Whether the terminal shows what was painted last.
    is_known: bool,
}

impl Model for StatusPainter {
    ghost use Rattle.std.specs.Prelude.{List, [], if◌then◌else◌};
    ghost use Rattle.scm_terminal.specs.StyledCell.{StyledCell};

    ghost Value = { List (List StyledCell) };

    ghost view = { λ p. if p.is_known then p.row else [] };
}

impl StatusPainter {
    /// Makes a painter that knows nothing of what the terminal shows.
    pub(crate) fn new(alloc: Global) -> StatusPainter
        ensures { result ≡ [] }
    {
        StatusPainter {
            row: RowPainter::new(alloc),
            is_known: false,
        }
    }

    /// Forgets the last picture. Keeps its memory.
    pub(crate) fn forget(&mut self)
        ensures { self.new ≡ [] }
    {
        self.is_known = false;
    }

    /// Returns the bytes that paint the status row below `height` rows of `width` columns, with `left` and
    /// `right` on it.
    ///
    /// # Errors
    ///
    /// - `OutOfMemory`: an allocation failed.
    pub(crate) fn paint(
        &mut self,
        alloc: Global,
        width: u16,
        height: u16,
        left: &LeftText,
        right: &str,
    ) -> Result<String, RecordError>
        requires { height < 65535 }
        ensures ok { IfOk result (λ text. PaintsLast width self.old
            (status_picture width height left.now right.now) (string_bytes text)) }
        ensures painted { OnOk result
            (self.new ≡ status_picture width height left.now right.now) }
        ensures err { IfErr result (λ e. e ≡ OutOfMemory) }
    {
        let mut text = begin(&mut self.row, self.is_known, alloc, width, height)?;
        let rest = self.row.paint(alloc, width, height, left, right)?;
        text.push_str(rest.as_str())?;
        self.is_known = true;
        Ok(text)
    }
}
