//! A grid that shows a part of a document.
ghost use Rattle.std.specs.Prelude.{◌≡◌, ℤ, ◌<◌, ◌≤◌, ◌^◌, ◌+ℤ◌, pos, ◌∷◌, [], length, replicate, OnOk, IfOk, IfErr, IfSome, IsTrue, ◌≤ℤ◌, ◌<ℤ◌, ◌↔◌};
ghost use Rattle.scm_cells.specs.Rect.{RectInRange, InRange, end_y_of};
ghost use Rattle.scm_cells.specs.Clusters.{text_width};
ghost use Rattle.scm_cells.specs.Counts.{added, one_row, one_call};
ghost use Rattle.scm_cells.specs.Spans.{span_texts};
ghost use Rattle.scm_render.specs.Canvas.{with_puts};
ghost use Rattle.scm_render.specs.Rows.{limit};
ghost use Rattle.scm_render.specs.RowPlaces.{FitsIn, IsPlace, IsPlaceOf, put_on};
ghost use Rattle.scm_render.specs.Drawing.{has_row, whole_put, title_room, body_room, text_puts, texts_puts, texts_width, row_text, fill_puts, FillingIsInRange, lines_puts, body_texts, frame_puts};
ghost use Rattle.scm_errors.specs.declared.error.RecordError.TheVariants.{OutOfMemory};

use crate::filling::Filling;
use scm_cells::{Grid, Rect, Span, gap, text_width};
use scm_errors::RecordError;
use std::marker::Model;

/// Returns whether the rectangle has row `y`.
fn has_row(rect: Rect, y: isize) -> bool
    requires { RectInRange rect }
    ensures test { result ≡ has_row rect y }
    ensures holds { IsTrue result ↔ ((rect.y ≤ℤ y) × (y <ℤ end_y_of rect)) }
{
    rect.y <= y && y < rect.end_y()
}

/// Returns the place of the title: the top row of a frame without its corners.
fn title_room(frame: Rect) -> Rect
    requires frame { RectInRange frame }
    requires width { 0 < frame.width }
    requires height { 0 < frame.height }
    ensures room { result ≡ title_room frame }
    ensures in_range { RectInRange result }
{
    Rect {
        x: frame.x + 1,
        y: frame.y,
        width: frame.width.saturating_sub(2),
        height: 1,
    }
}

/// Returns the place of the body: a frame without its border.
fn body_room(frame: Rect) -> Rect
    requires frame { RectInRange frame }
    requires width { 0 < frame.width }
    requires height { 0 < frame.height }
    ensures room { result ≡ body_room frame }
    ensures in_range { RectInRange result }
{
    Rect {
        x: frame.x + 1,
        y: frame.y + 1,
        width: frame.width.saturating_sub(2),
        height: frame.height.saturating_sub(2),
    }
}

/// Where texts are put: the columns of a row of the grid to which they are clipped.
#[derive(Clone, Copy)]
struct Place {
    /// The row, counted from 0.
    row: usize,

    /// The first of the columns.
    low: usize,

    /// The column behind the last of them.
    high: usize,
}

/// A grid, and the part of the document that it shows, of the same size. Texts are put at columns
/// and rows of the document. They are clipped to the grid and to a rectangle `within`.
#[derive(Drop)]
pub(crate) struct Surface {
    /// The grid.
    grid: Grid,

    /// The part of the document that the grid shows.
    rect: Rect,
}

impl Model for Surface {
    ghost use Rattle.scm_render.specs.Canvas.{SurfaceState};

    ghost Value = { SurfaceState };

    ghost view = { λ s. record { rect = s.rect; rows = s.grid.rows; counts = s.grid.counts } };

    ghost use Rattle.std.specs.Prelude.{◌≡◌, length};
    ghost use Rattle.scm_cells.specs.Rect.{RectInRange};

    ghost invariant = { λ s. record {
      rect : RectInRange s.rect;
      width : s.grid.width ≡ s.rect.width;
      height : length s.grid.rows ≡ s.rect.height;
    } };
}

impl Surface {
    /// Returns a surface whose grid shows the part `rect` of the document, of the same size.
    pub(crate) fn new(grid: Grid, rect: Rect) -> Surface
        requires rect { RectInRange rect }
        requires width { grid.width ≡ rect.width }
        requires height { length grid.rows ≡ rect.height }
        ensures { result ≡ record { rect = rect; rows = grid.rows; counts = grid.counts } }
    {
        Surface { grid, rect }
    }

    /// Returns the grid.
    pub(crate) fn into_grid(self) -> Grid
        ensures width { result.width ≡ self.rect.width }
        ensures height { length result.rows ≡ self.rect.height }
        ensures rows { result.rows ≡ self.rows }
        ensures counts { result.counts ≡ self.counts }
    {
        let Surface { grid, .. } = self;
        grid
    }

    /// Counts one row of the document.
    pub(crate) fn add_row(&mut self)
        ensures { self.new ≡ record self.old { counts = added self.old.counts one_row } }
    {
        self.grid.add_row();
    }

    /// Counts one draw call.
    pub(crate) fn add_call(&mut self)
        ensures { self.new ≡ record self.old { counts = added self.old.counts one_call } }
    {
        self.grid.add_call();
    }

    /// Returns the part of the document that the grid shows.
    pub(crate) fn rect(&self) -> Rect
        ensures value { result ≡ self.now.rect }
        ensures in_range { RectInRange result }
        ensures rows { length self.now.rows ≡ result.height }
        ensures narrow { result.width < 2 ^ 16 }
        ensures low { result.height < 2 ^ 16 }
    {
        Rect {
            width: self.grid.width(),
            height: self.grid.height(),
            ..self.rect
        }
    }

    /// Returns column `x` of the document as a column of the grid, clamped to the grid.
    fn column(&self, x: isize) -> usize
        ensures value { result ≡ limit self.now.rect x }
        ensures bound { result ≤ self.now.rect.width }
    {
        self.rect.width.min(gap(self.rect.x, x))
    }

    /// Returns where texts of row `y` are put that are clipped to `within`. The grid shows the row.
    fn place_on(&self, within: Rect, y: isize) -> Place
        requires within { RectInRange within }
        requires shown { IsTrue (has_row within y) }
        requires top { self.now.rect.y ≤ℤ y }
        requires bottom { y <ℤ end_y_of self.now.rect }
        ensures { IsPlace result self.now.rect within y }
    {
        Place {
            row: self.rect.y.abs_diff(y),
            low: self.column(within.x),
            high: self.column(within.end_x()),
        }
    }

    /// Returns where texts of row `y` are put that are clipped to `within`, if `within` and the grid
    /// have the row.
    fn place(&self, within: Rect, y: isize) -> Option<Place>
        requires { RectInRange within }
        ensures { IsPlaceOf result self.now.rect within y }
    {
        if has_row(within, y) && has_row(self.rect, y) {
            Some(self.place_on(within, y))
        } else {
            None
        }
    }

    /// Puts a text on a row of the grid, at `column` of the grid. Returns the width of the whole
    /// text.
    fn put_on(&mut self, place: Place, column: isize, text: &str) -> Result<usize, RecordError>
        requires { FitsIn place self.old.rect }
        ensures ok { OnOk result (self.new ≡ put_on place column text.now self.old) }
        ensures columns { IfOk result (λ n. n ≡ text_width text.now) }
        ensures rect { self.new.rect ≡ self.old.rect }
        ensures err { IfErr result (λ e. e ≡ OutOfMemory) }
    {
        let columns = self
            .grid
            .put_measured(place.row, column, text, place.low, place.high)?;
        Ok(columns)
    }

    /// Puts a text at `place`, if there is a place. Returns the width of the whole text.
    fn put_at(&mut self, place: Option<Place>, x: isize, text: &str) -> Result<usize, RecordError>
        requires x { InRange x }
        requires place { IfSome place (λ p. FitsIn p self.old.rect) }
        ensures ok { OnOk result ((within : Rect) → (y : ℤ)
            → IsPlaceOf place self.old.rect within y
            → self.new ≡ with_puts (text_puts within x y text.now) self.old) }
        ensures columns { IfOk result (λ n. n ≡ text_width text.now) }
        ensures rect { self.new.rect ≡ self.old.rect }
        ensures err { IfErr result (λ e. e ≡ OutOfMemory) }
    {
        let column = x - self.rect.x;
        match place {
            Some(place) => self.put_on(place, column, text),
            None => Ok(text_width(text)),
        }
    }

    /// Puts a text, if `within` and the grid have its row. Returns the width of the whole text.
    pub(crate) fn put_text(
        &mut self,
        within: Rect,
        x: isize,
        y: isize,
        text: &str,
    ) -> Result<usize, RecordError>
        requires within { RectInRange within }
        requires x { InRange x }
        ensures ok { OnOk result (self.new ≡ with_puts (text_puts within x y text.now) self.old) }
        ensures columns { IfOk result (λ n. n ≡ text_width text.now) }
        ensures rect { self.new.rect ≡ self.old.rect }
        ensures err { IfErr result (λ e. e ≡ OutOfMemory) }
    {
        let place = self.place(within, y);
        self.put_at(place, x, text)
    }

    /// Puts the texts of spans side by side. Returns their width.
    pub(crate) fn put_spans(
        &mut self,
        within: Rect,
        x: isize,
        y: isize,
        spans: &[Span],
    ) -> Result<usize, RecordError>
        requires within { RectInRange within }
        requires x { InRange x }
        requires end { InRange (x +ℤ pos (texts_width (span_texts spans.now))) }
        ensures ok { OnOk result (
            self.new ≡ with_puts (texts_puts within x y (span_texts spans.now)) self.old) }
        ensures columns { IfOk result (λ n. n ≡ texts_width (span_texts spans.now)) }
        ensures rect { self.new.rect ≡ self.old.rect }
        ensures err { IfErr result (λ e. e ≡ OutOfMemory) }
    {
        let place = self.place(within, y);
        let mut columns = 0;
        for span in spans {
            let width = self.put_at(place, x.strict_add_unsigned(columns), span.0)?;
            columns += width;
        }
        Ok(columns)
    }

    /// Puts texts one below the other.
    fn put_lines(
        &mut self,
        within: Rect,
        x: isize,
        y: isize,
        lines: &[&str],
    ) -> Result<(), RecordError>
        requires within { RectInRange within }
        requires x { InRange x }
        requires end { InRange (y +ℤ pos (length lines.now)) }
        ensures ok { OnOk result (
            self.new ≡ with_puts (lines_puts within x y (body_texts lines.now)) self.old) }
        ensures rect { self.new.rect ≡ self.old.rect }
        ensures err { IfErr result (λ e. e ≡ OutOfMemory) }
    {
        for (offset, line) in lines.iter().enumerate() {
            self.put_text(within, x, y.strict_add_unsigned(offset), line)?;
        }
        Ok(())
    }

    /// Puts spaces on row `y` of a rectangle. The grid shows the row.
    fn blank_row(&mut self, rect: Rect, y: isize)
        requires rect { RectInRange rect }
        requires top { self.old.rect.y ≤ℤ y }
        requires bottom { y <ℤ end_y_of self.old.rect }
        ensures { self.new
            ≡ with_puts (whole_put rect rect.x y (replicate rect.width 32) ∷ []) self.old }
    {
        let low = self.column(rect.x);
        let high = self.column(rect.end_x());
        let row = self.rect.y.abs_diff(y);
        self.grid
            .put_blank(row, rect.x - self.rect.x, rect.width, low, high);
    }

    /// Puts spaces on row `y` of a rectangle, if the rectangle and the grid have it.
    fn put_blank(&mut self, rect: Rect, y: isize)
        requires { RectInRange rect }
        ensures { self.new
            ≡ with_puts (text_puts rect rect.x y (replicate rect.width 32)) self.old }
    {
        if has_row(rect, y) && has_row(self.rect, y) {
            self.blank_row(rect, y);
        }
    }

    /// Fills row `y` of a rectangle, if the rectangle and the grid have it. May overwrite the
    /// buffer `scratch`.
    fn fill_row(
        &mut self,
        scratch: &mut String,
        rect: Rect,
        y: isize,
        filling: Filling,
    ) -> Result<(), RecordError>
        requires rect { RectInRange rect }
        requires filling { FillingIsInRange filling }
        ensures ok { OnOk result (self.new
            ≡ with_puts (text_puts rect rect.x y (row_text filling rect.x y rect.width)) self.old) }
        ensures rect { self.new.rect ≡ self.old.rect }
        ensures err { IfErr result (λ e. e ≡ OutOfMemory) }
    {
        match filling {
            Filling::Blank => {
                self.put_blank(rect, y);
                Ok(())
            }
            Filling::Border(_) => {
                filling.write_row(scratch, rect.x, y, rect.width)?;
                self.put_text(rect, rect.x, y, scratch.as_str())?;
                Ok(())
            }
        }
    }

    /// Fills a rectangle row by row. May overwrite the buffer `scratch`.
    pub(crate) fn fill(
        &mut self,
        scratch: &mut String,
        rect: Rect,
        filling: Filling,
    ) -> Result<(), RecordError>
        requires rect { RectInRange rect }
        requires filling { FillingIsInRange filling }
        ensures ok { OnOk result (self.new ≡ with_puts (fill_puts filling rect) self.old) }
        ensures rect { self.new.rect ≡ self.old.rect }
        ensures err { IfErr result (λ e. e ≡ OutOfMemory) }
    {
        for offset in 0..rect.height {
            let y = rect.y.strict_add_unsigned(offset);
            self.fill_row(scratch, rect, y, filling)?;
        }
        Ok(())
    }

    /// Puts a frame: its border with spaces inside, its title, and the lines of the body that fit.
    /// Overwrites the buffer `scratch`.
    pub(crate) fn put_frame(
        &mut self,
        scratch: &mut String,
        within: Rect,
        frame: Rect,
        title: &str,
        body: &[&str],
    ) -> Result<(), RecordError>
        requires within { RectInRange within }
        requires frame { RectInRange frame }
        requires columns { 0 < frame.width }
        requires lines { 0 < frame.height }
        ensures ok { OnOk result (self.new
            ≡ with_puts (frame_puts within frame title.now (body_texts body.now)) self.old) }
        ensures rect { self.new.rect ≡ self.old.rect }
        ensures err { IfErr result (λ e. e ≡ OutOfMemory) }
    {
        self.fill(scratch, frame.intersect(within), Filling::Border(frame))?;
        let top = title_room(frame);
        self.put_text(top.intersect(within), top.x, top.y, title)?;
        let room = body_room(frame);
        let shown = &body[..room.height.min(body.len())];
        self.put_lines(room.intersect(within), room.x, room.y, shown)?;
        Ok(())
    }
}
