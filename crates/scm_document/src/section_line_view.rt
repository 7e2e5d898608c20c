//! The view of a line of a section.
ghost use Rattle.std.specs.Prelude.{◌≡◌, ◌+◌, ◌∷◌, [], IfSome, OnOk, IfErr};
ghost use Rattle.scm_render.specs.Picture.{PictureInRange};
ghost use Rattle.scm_render.specs.Canvas.{with_picture};
ghost use Rattle.scm_render.specs.Drawing.{texts_width};
ghost use Rattle.scm_cells.specs.Replaced.{line_pieces};
ghost use Rattle.scm_cells.specs.Spans.{span_texts};
ghost use Rattle.scm_widgets.specs.Covers.{texts_cover};
ghost use Rattle.scm_widgets.specs.DrawCalls.{text_call};
ghost use Rattle.scm_document.specs.DocumentCalls.{changed_line_call};
ghost use Rattle.scm_document.specs.Rows.{line_texts};
ghost use Rattle.scm_document.specs.Texts.{number_text, sign_text};
ghost use Rattle.scm_document.specs.Visible.{AddsVisible};
ghost use Rattle.scm_errors.specs.declared.error.RecordError.TheVariants.{OutOfMemory};
ghost use Rattle.scm_render.specs.Draws.{CanDraw, HasDrawn};

use crate::texts::{number_text, sign_text};
use crate::widths::{number_width, pieces_width};
use scm_cells::{Span, gap, printable_line, push_first_spans, push_spans_from_line, text_width};
use scm_render::{Component, Viewport};
use scm_types::{ChangeType, LineKey, RecordError, SelectionKey};
use scm_widgets::clipped_drawing::{begin_row, cover_texts, is_on_screen, show_box, show_text};
use scm_widgets::ids::ComponentId;
use scm_widgets::mask_extent::cover_row;
use scm_widgets::tristate_box::TristateBox;
use std::alloc::Global;

/// What is shown of a line.
#[derive(Drop)]
pub enum SectionLineViewInner<'a> {
    /// A line of context.
    Unchanged {
        /// The line, with its line end.
        line: &'a str,
        /// Number of the line in the file before the changes, counted from 1.
        line_num: usize,
    },

    /// A changed line.
    Changed {
        /// Checkbox of the line.
        toggle_box: TristateBox<ComponentId>,
        /// Whether it was added or removed.
        change_type: ChangeType,
        /// The line, with its line end.
        line: &'a str,
    },
}

/// A line of a section.
#[derive(Drop)]
pub struct SectionLineView<'a> {
    /// Key of the line.
    pub line_key: LineKey,
    /// Text of the line, and its number or its mark.
    pub inner: SectionLineViewInner<'a>,
}

/// Covers the columns of a number or sign, which has `front` columns, and of the text of `line`.
fn cover_line(viewport: &mut Viewport<ComponentId>, x: isize, y: isize, front: usize, line: &str)
    requires { PictureInRange
        (texts_cover viewport.old.canvas.sight x y (front + texts_width (line_pieces line.now))) }
    ensures new { viewport.new.canvas ≡ with_picture viewport.old.canvas
        (texts_cover viewport.old.canvas.sight x y (front + texts_width (line_pieces line.now))) }
    ensures counts { viewport.new.counts ≡ viewport.old.counts }
    ensures rect { viewport.new.canvas.sight.rect ≡ viewport.old.canvas.sight.rect }
{
    cover_texts(viewport, x, y, front + pieces_width(line));
}

/// Adds the spans of `line` to `spans`. If `viewport` keeps no boxes, adds only those that show
/// from column `x` to the end of its mask. They still exceed the mask if all of them do.
fn push_visible_spans<'a>(
    viewport: &Viewport<ComponentId>,
    x: isize,
    line: &'a str,
    spans: &mut Vec<Span<'a>>,
) -> Result<(), RecordError>
    ensures ok { OnOk result (AddsVisible viewport.now.canvas x
        (span_texts spans.old.items) (span_texts spans.new.items) (line_pieces line.now)) }
    ensures err { IfErr result (λ e. e ≡ OutOfMemory) }
{
    if viewport.keeps_boxes() {
        push_spans_from_line(line, spans)
    } else {
        let end = viewport.mask_rect().end_x();
        push_first_spans(line, gap(x, end), spans)
    }
}

/// How many bytes of a line are read, whatever is shown of it, to draw it without a list of spans.
const SHORT: usize = 256;

/// Returns the two texts that a screen shows of `line`, if it is short, and printable ASCII but for
/// its line end.
fn short_line(line: &str) -> Option<(&str, &'static str)>
    ensures { IfSome result (λ p. line_pieces line.now ≡ p.0.now ∷ (p.1.now ∷ [])) }
{
    if line.len() <= SHORT {
        printable_line(line)
    } else {
        None
    }
}

/// Draws `front` and the text of `line` by a list of spans.
fn draw_spans(
    alloc: Global,
    viewport: &mut Viewport<ComponentId>,
    x: isize,
    y: isize,
    front: &str,
    line: &str,
) -> Result<(), RecordError>
    requires { CanDraw viewport.old (text_call x y (line_texts front.now line.now)) }
    ensures { HasDrawn viewport.old viewport.new result
        (text_call x y (line_texts front.now line.now)) }
{
    let mut spans = Vec::new(alloc);
    spans.push(Span(front))?;
    push_visible_spans(viewport, x, line, &mut spans)?;
    show_text(viewport, x, y, spans.as_slice())?;
    Ok(())
}

/// Draws `front`, a line's number or sign, and the text of `line` as a screen can show it.
fn draw_line_texts(
    alloc: Global,
    viewport: &mut Viewport<ComponentId>,
    x: isize,
    y: isize,
    front: &str,
    line: &str,
) -> Result<(), RecordError>
    requires { CanDraw viewport.old (text_call x y (line_texts front.now line.now)) }
    ensures { HasDrawn viewport.old viewport.new result
        (text_call x y (line_texts front.now line.now)) }
{
    if !is_on_screen(viewport, y) {
        cover_line(viewport, x, y, text_width(front), line);
        return Ok(());
    }
    match short_line(line) {
        Some((text, end)) => {
            viewport.draw_text(x, y, &[Span(front), Span(text), Span(end)])?;
            Ok(())
        }
        None => draw_spans(alloc, viewport, x, y, front, line),
    }
}

/// Draws the number and the text of `line` as a screen can show it.
fn draw_numbered_texts(
    alloc: Global,
    viewport: &mut Viewport<ComponentId>,
    x: isize,
    y: isize,
    number: usize,
    line: &str,
) -> Result<(), RecordError>
    requires { CanDraw viewport.old
        (text_call x y (line_texts (number_text number) line.now)) }
    ensures { HasDrawn viewport.old viewport.new result
        (text_call x y (line_texts (number_text number) line.now)) }
{
    if is_on_screen(viewport, y) {
        let text = number_text(alloc, number)?;
        draw_line_texts(alloc, viewport, x, y, text.as_str(), line)
    } else {
        cover_line(viewport, x, y, number_width(number), line);
        Ok(())
    }
}

/// Draws the checkbox, the sign and the text of a changed line.
fn draw_changed_line(
    alloc: Global,
    viewport: &mut Viewport<ComponentId>,
    x: isize,
    y: isize,
    toggle_box: &TristateBox<ComponentId>,
    change_type: ChangeType,
    line: &str,
) -> Result<(), RecordError>
    requires { CanDraw viewport.old
        (changed_line_call toggle_box.now (line_texts (sign_text change_type) line.now) x y) }
    ensures { HasDrawn viewport.old viewport.new result
        (changed_line_call toggle_box.now (line_texts (sign_text change_type) line.now) x y) }
{
    show_box(viewport, x, y, toggle_box)?;
    draw_line_texts(alloc, viewport, x + 4, y, sign_text(change_type), line)?;
    Ok(())
}

impl<'a> Component for SectionLineView<'a> {
    type Id = ComponentId;

    ghost use Rattle.scm_document.specs.Pictures.{line_picture};
    ghost use Rattle.scm_document.specs.Rows.{line_id};

    ghost key = { λ v. line_id v.line_key };

    ghost use Rattle.scm_document.specs.Counts.{line_counts};

    ghost picture = { line_picture };

    ghost rows = { λ v s x y. (line_counts v.inner s.rect y).rows };

    ghost calls = { λ v s x y. (line_counts v.inner s.rect y).calls };

    fn id(&self) -> ComponentId {
        ComponentId::SelectableItem(SelectionKey::Line(self.line_key))
    }

    fn draw(
        &self,
        alloc: Global,
        viewport: &mut Viewport<ComponentId>,
        x: isize,
        y: isize,
    ) -> Result<(), RecordError> {
        begin_row(viewport, y);
        cover_row(viewport, y);
        match &self.inner {
            SectionLineViewInner::Unchanged { line, line_num } => {
                draw_numbered_texts(alloc, viewport, x, y, *line_num, line)
            }
            SectionLineViewInner::Changed {
                toggle_box,
                change_type,
                line,
            } => draw_changed_line(alloc, viewport, x, y, toggle_box, *change_type, line),
        }
    }
}
