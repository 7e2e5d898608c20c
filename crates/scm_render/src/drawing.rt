//! Draw calls of a viewport: texts, spaces and frames.
ghost use Rattle.std.specs.Prelude.{◌≡◌, IfOk};
ghost use Rattle.scm_cells.specs.Spans.{span_texts};
ghost use Rattle.scm_cells.specs.Clusters.{text_width};
ghost use Rattle.scm_cells.specs.Counts.{added, one_call};
ghost use Rattle.scm_cells.specs.Rect.{RectInRange};
ghost use Rattle.scm_render.specs.Drawing.{texts_width, reach, row_rect, body_texts};
ghost use Rattle.scm_render.specs.Draws.{CanDraw, HasDrawn};
ghost use Rattle.scm_render.specs.DrawCalls.{
  blank_call,
  frame_call,
  line_call,
  span_call,
  text_call,
  uncounted,
};

use crate::filling::Filling;
use crate::viewport::{Viewport, grown_in};
use scm_cells::{Line, Rect, Span};
use scm_errors::RecordError;
use std::hash::Hash;

/// Returns the rectangle of `width` columns of row `y` from column `x`.
fn row_rect(x: isize, y: isize, width: usize) -> Rect
    ensures { result ≡ row_rect x y width }
{
    Rect {
        x,
        y,
        width,
        height: 1,
    }
}

impl<K: Copy + Eq + Hash + Drop> Viewport<K> {
    /// Draws `span` from column `x` of row `y`, clipped to the mask. Returns the rectangle of the
    /// whole text.
    ///
    /// # Errors
    /// `OutOfMemory`: an allocation failed; the frame is incomplete.
    pub fn draw_span(&mut self, x: isize, y: isize, span: &Span) -> Result<Rect, RecordError>
        requires { CanDraw self.old (span_call x y span.now.0.now) }
        ensures draws { HasDrawn self.old self.new result (span_call x y span.now.0.now) }
        ensures drawn { IfOk result (λ r. r ≡ row_rect x y (text_width span.now.0.now)) }
    {
        self.count_call();
        let within = self.mask_rect();
        self.add_text(within, x, y, span.0)
    }

    /// Draws the spans of `line` side by side from column `x` of row `y`, clipped to the mask.
    /// Returns the rectangle of the whole line.
    ///
    /// # Errors
    /// `OutOfMemory`: an allocation failed; the frame is incomplete.
    pub fn draw_line(&mut self, x: isize, y: isize, line: &Line) -> Result<Rect, RecordError>
        requires { CanDraw self.old (line_call x y (span_texts line.now.0.items)) }
        ensures draws { HasDrawn self.old self.new result
            (line_call x y (span_texts line.now.0.items)) }
        ensures drawn { IfOk result (λ r.
            r ≡ row_rect x y (texts_width (span_texts line.now.0.items))) }
    {
        self.count_call();
        let within = self.mask_rect();
        self.add_spans(within, x, y, line.0.as_slice())
    }

    /// Draws `spans` side by side from column `x` of row `y`, clipped to the mask. If they end past
    /// the mask, draws an ellipsis in the last column of the mask. Returns the rectangle of the
    /// whole spans.
    ///
    /// # Errors
    /// `OutOfMemory`: an allocation failed; the frame is incomplete.
    pub fn draw_text(&mut self, x: isize, y: isize, spans: &[Span]) -> Result<Rect, RecordError>
        requires { CanDraw self.old (text_call x y (span_texts spans.now)) }
        ensures draws { HasDrawn self.old self.new result (text_call x y (span_texts spans.now)) }
        ensures drawn { IfOk result (λ r. r ≡ row_rect x y (texts_width (span_texts spans.now))) }
    {
        self.count_call();
        self.add_cut(x, y, spans)
    }

    /// Draws spaces over `rect`, clipped to the mask. Returns `rect`.
    ///
    /// # Errors
    /// `OutOfMemory`: an allocation failed; the frame is incomplete.
    pub fn draw_blank(&mut self, rect: Rect) -> Result<Rect, RecordError>
        requires { CanDraw self.old (blank_call rect) }
        ensures draws { HasDrawn self.old self.new result (blank_call rect) }
        ensures drawn { IfOk result (λ r. r ≡ rect) }
    {
        self.count_call();
        self.add_blank(rect)
    }

    /// Draws a frame over `rect`, clipped to the mask. Returns `rect`.
    ///
    /// The frame has a border of line symbols with spaces inside, and `title` on its top row. The
    /// lines of `body` are below the title, as many as fit. Title and body are clipped to the
    /// columns inside the border, without an ellipsis. A frame of one column has only the left half
    /// of the border. An empty frame draws nothing.
    ///
    /// # Errors
    /// `OutOfMemory`: an allocation failed; the frame is incomplete.
    pub fn draw_frame(
        &mut self,
        rect: Rect,
        title: &str,
        body: &[&str],
    ) -> Result<Rect, RecordError>
        requires { CanDraw self.old (frame_call rect title.now (body_texts body.now)) }
        ensures draws { HasDrawn self.old self.new result
            (frame_call rect title.now (body_texts body.now)) }
        ensures drawn { IfOk result (λ r. r ≡ rect) }
    {
        self.count_call();
        self.add_frame(rect, title, body)
    }

    /// Counts a draw call, visible or not.
    fn count_call(&mut self)
        ensures canvas { self.new.canvas ≡ self.old.canvas }
        ensures counts { self.new.counts ≡ added self.old.counts one_call }
    {
        self.surface.add_call();
    }

    /// Draws a text like `draw_span`, without counting a call. `within` is what the mask lets through.
    fn add_text(
        &mut self,
        within: Rect,
        x: isize,
        y: isize,
        text: &str,
    ) -> Result<Rect, RecordError>
        requires within { within ≡ reach self.old.canvas.sight }
        requires in_range { RectInRange within }
        requires picture { CanDraw self.old (span_call x y text.now) }
        ensures draws { HasDrawn self.old self.new result (uncounted (span_call x y text.now)) }
        ensures drawn { IfOk result (λ r. r ≡ row_rect x y (text_width text.now)) }
    {
        let columns = self.surface.put_text(within, x, y, text)?;
        let drawn = row_rect(x, y, columns);
        self.area = grown_in(&self.boxes, self.area, drawn);
        Ok(drawn)
    }

    /// Draws spans like `draw_line`, without counting a call. `within` is what the mask lets through.
    fn add_spans(
        &mut self,
        within: Rect,
        x: isize,
        y: isize,
        spans: &[Span],
    ) -> Result<Rect, RecordError>
        requires within { within ≡ reach self.old.canvas.sight }
        requires in_range { RectInRange within }
        requires picture { CanDraw self.old (line_call x y (span_texts spans.now)) }
        ensures draws { HasDrawn self.old self.new result
            (uncounted (line_call x y (span_texts spans.now))) }
        ensures drawn { IfOk result (λ r. r ≡ row_rect x y (texts_width (span_texts spans.now))) }
    {
        let columns = self.surface.put_spans(within, x, y, spans)?;
        let drawn = row_rect(x, y, columns);
        self.area = grown_in(&self.boxes, self.area, drawn);
        Ok(drawn)
    }

    /// Draws spans like `draw_text`, without counting a call.
    fn add_cut(&mut self, x: isize, y: isize, spans: &[Span]) -> Result<Rect, RecordError>
        requires { CanDraw self.old (text_call x y (span_texts spans.now)) }
        ensures draws { HasDrawn self.old self.new result
            (uncounted (text_call x y (span_texts spans.now))) }
        ensures drawn { IfOk result (λ r. r ≡ row_rect x y (texts_width (span_texts spans.now))) }
    {
        let within = self.mask_rect();
        let drawn = self.add_spans(within, x, y, spans)?;
        let end = within.end_x();
        if end < drawn.end_x() {
            self.add_text(within, end - 1, y, "…")?;
        }
        Ok(drawn)
    }

    /// Draws spaces like `draw_blank`, without counting a call.
    fn add_blank(&mut self, rect: Rect) -> Result<Rect, RecordError>
        requires { CanDraw self.old (blank_call rect) }
        ensures draws { HasDrawn self.old self.new result (uncounted (blank_call rect)) }
        ensures drawn { IfOk result (λ r. r ≡ rect) }
    {
        let part = rect.intersect(self.mask_rect());
        self.surface.fill(&mut self.scratch, part, Filling::Blank)?;
        self.area = grown_in(&self.boxes, self.area, rect);
        Ok(rect)
    }

    /// Draws a frame like `draw_frame`, without counting a call.
    fn add_frame(&mut self, rect: Rect, title: &str, body: &[&str]) -> Result<Rect, RecordError>
        requires { CanDraw self.old (frame_call rect title.now (body_texts body.now)) }
        ensures draws { HasDrawn self.old self.new result
            (uncounted (frame_call rect title.now (body_texts body.now))) }
        ensures drawn { IfOk result (λ r. r ≡ rect) }
    {
        let within = self.mask_rect();
        if rect.width > 0 && rect.height > 0 {
            self.surface
                .put_frame(&mut self.scratch, within, rect, title, body)?;
        }
        self.area = grown_in(&self.boxes, self.area, rect);
        Ok(rect)
    }
}
