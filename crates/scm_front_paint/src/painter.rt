//! Painting a view: the session's screen, and the status row below it.
ghost use Rattle.std.specs.Prelude.{◌≡◌, ◌-◌, IfErr, IfOk, OnErr, OnOk, Some, [], length, string_bytes};
ghost use Rattle.scm_errors.specs.declared.error.RecordError.TheVariants.{OutOfMemory};
ghost use Rattle.scm_terminal.specs.Promise.{Paints};
ghost use Rattle.scm_record.specs.Frames.{columns_of};
ghost use Rattle.scm_record.specs.Painted.{screen_of};
ghost use Rattle.scm_front_paint.specs.Below.{PaintsView, is_of, known_to, no_pictures, pictures_of, rows_shown, width_of};
ghost use Rattle.scm_front_paint.specs.Cut.{CutFails, IsCut};
ghost use Rattle.scm_front_paint.specs.Headings.{AreNamed, AreSomeNamed};
ghost use Rattle.scm_front_paint.specs.Labels.{symbols_over, with_label};
ghost use Rattle.scm_front_paint.specs.Seen.{files_of};
ghost use Rattle.scm_front_paint.specs.ShownView.{style_in};
ghost use Rattle.scm_front_paint.specs.Sideways.{sideways_picture};
ghost use Rattle.scm_front_paint.specs.Source.{symbols_in};
ghost use Rattle.scm_front_paint.specs.Syntax.{IsWithSpans, key_of};
ghost use Rattle.scm_front_paint.specs.SyntaxRows.{text_of_key};

use crate::cut::cut_of;
use crate::headers::label_rows;
use crate::labels::Label;
use crate::line_words::LineWords;
use crate::section_labels::SectionLabels;
use crate::shown::{Moved, Shown};
use crate::shown_label::ShownLabel;
use crate::source::Source;
use crate::status::{left_of, right_of};
use crate::status_painter::StatusPainter;
use crate::syntax::SyntaxSpan;
use crate::syntax_lines::SyntaxLines;
use crate::syntax_rows::text_of_key;
use crate::themes::Theme;
use crate::view::View;
use crate::words::words_of;
use scm_record::{Grid, LineKey, Painter, RecordError};
use std::alloc::Global;
use std::mem::replace;

/// Returns the bytes that paint the whole screen of a session, whose first column is `x` = 0. No label is over
/// its rows.
fn paint_whole(
    painter: &mut Painter,
    shown: &Shown<'_, '_>,
    labels: &[Option<ShownLabel>],
    grid: &Grid,
    x: usize,
) -> Result<String, RecordError>
    requires none { length labels.now ≡ 0 }
    requires width { grid.now.width ≡ columns_of shown.now.session.now.kind }
    requires rows { grid.now.rows ≡ (screen_of shown.now.session.now).rows }
    requires zero { x ≡ 0 }
    ensures ok { IfOk result (λ text. Paints (columns_of shown.now.session.now.kind - x)
        painter.old (sideways_picture x (style_in shown.now)
        (symbols_over labels.now (screen_of shown.now.session.now)))
        (string_bytes text)) }
    ensures painted { OnOk result (painter.new
        ≡ sideways_picture x (style_in shown.now)
        (symbols_over labels.now (screen_of shown.now.session.now))) }
    ensures err { IfErr result (λ e. e ≡ OutOfMemory) }
{
    let _width = grid.width();
    painter.paint(grid, shown)
}

/// Returns the bytes that paint `cut`, the columns of the session's screen with its labels from `x` on.
fn paint_part(
    painter: &mut Painter,
    shown: &Shown<'_, '_>,
    cut: &Grid,
    x: usize,
    _source: &Source<'_>,
) -> Result<String, RecordError>
    requires width { _source.now.grid.now.width ≡ columns_of shown.now.session.now.kind }
    requires rows { _source.now.grid.now.rows ≡ (screen_of shown.now.session.now).rows }
    requires cut { IsCut cut.now (symbols_in _source.now) x }
    ensures ok { IfOk result (λ text. Paints (columns_of shown.now.session.now.kind - x)
        painter.old (sideways_picture x (style_in shown.now)
        (symbols_over _source.now.labels.now (screen_of shown.now.session.now)))
        (string_bytes text)) }
    ensures painted { OnOk result (painter.new
        ≡ sideways_picture x (style_in shown.now)
        (symbols_over _source.now.labels.now (screen_of shown.now.session.now))) }
    ensures err { IfErr result (λ e. e ≡ OutOfMemory) }
{
    let moved = Moved { shown, x };
    painter.paint(cut, &moved)
}

/// Returns the bytes that paint `cut`, all columns of the session's screen with its labels: its first column is `x` = 0.
/// The session finds its styles of a row at once.
fn paint_labelled(
    painter: &mut Painter,
    shown: &Shown<'_, '_>,
    cut: &Grid,
    x: usize,
    _source: &Source<'_>,
) -> Result<String, RecordError>
    requires width { _source.now.grid.now.width ≡ columns_of shown.now.session.now.kind }
    requires rows { _source.now.grid.now.rows ≡ (screen_of shown.now.session.now).rows }
    requires cut { IsCut cut.now (symbols_in _source.now) x }
    requires zero { x ≡ 0 }
    ensures ok { IfOk result (λ text. Paints (columns_of shown.now.session.now.kind - x)
        painter.old (sideways_picture x (style_in shown.now)
        (symbols_over _source.now.labels.now (screen_of shown.now.session.now)))
        (string_bytes text)) }
    ensures painted { OnOk result (painter.new
        ≡ sideways_picture x (style_in shown.now)
        (symbols_over _source.now.labels.now (screen_of shown.now.session.now))) }
    ensures err { IfErr result (λ e. e ≡ OutOfMemory) }
{
    painter.paint(cut, shown)
}

/// Returns the bytes that paint `cut`, the columns of the session's screen with its labels from `x` on.
fn paint_cut(
    painter: &mut Painter,
    shown: &Shown<'_, '_>,
    cut: &Grid,
    x: usize,
    source: &Source<'_>,
) -> Result<String, RecordError>
    requires width { source.now.grid.now.width ≡ columns_of shown.now.session.now.kind }
    requires rows { source.now.grid.now.rows ≡ (screen_of shown.now.session.now).rows }
    requires cut { IsCut cut.now (symbols_in source.now) x }
    ensures ok { IfOk result (λ text. Paints (columns_of shown.now.session.now.kind - x)
        painter.old (sideways_picture x (style_in shown.now)
        (symbols_over source.now.labels.now (screen_of shown.now.session.now)))
        (string_bytes text)) }
    ensures painted { OnOk result (painter.new
        ≡ sideways_picture x (style_in shown.now)
        (symbols_over source.now.labels.now (screen_of shown.now.session.now))) }
    ensures err { IfErr result (λ e. e ≡ OutOfMemory) }
{
    if x == 0 {
        paint_labelled(painter, shown, cut, x, source)
    } else {
        paint_part(painter, shown, cut, x, source)
    }
}

/// What paints the session's rows, and a grid for their columns.
#[derive(Drop)]
struct SessionPainter {
    /// The painter of the rows.
    painter: Painter,
    /// The last cut, if the terminal stood further right, or a screen had labels.
    cut: Option<Grid>,
}

/// Returns the bytes that paint the columns of the session's screen from `x` on, with `labels` over its rows.
fn paint_session(
    alloc: Global,
    session: &mut SessionPainter,
    shown: &Shown<'_, '_>,
    labels: &[Option<ShownLabel>],
    x: usize,
) -> Result<String, RecordError>
    ensures ok { IfOk result (λ text. Paints (columns_of shown.now.session.now.kind - x)
        session.old.painter
        (sideways_picture x (style_in shown.now)
        (symbols_over labels.now (screen_of shown.now.session.now)))
        (string_bytes text)) }
    ensures painted { OnOk result (session.new.painter
        ≡ sideways_picture x (style_in shown.now)
        (symbols_over labels.now (screen_of shown.now.session.now))) }
    ensures err { IfErr result (λ e. CutFails e) }
{
    let grid = shown.session.grid();
    if x == 0 && labels.is_empty() {
        let text = paint_whole(&mut session.painter, shown, labels, grid, x)?;
        return Ok(text);
    }
    let source = Source { grid, labels };
    let last = session.cut.take();
    let cut = cut_of(alloc, last, &source, x)?;
    let text = paint_cut(&mut session.painter, shown, &cut, x, &source)?;
    session.cut = Some(cut);
    Ok(text)
}

/// Returns the number of columns that the terminal shows of the session of `view`.
pub(crate) fn width_of(view: &View<'_>) -> u16
    ensures { result ≡ width_of view.now }
{
    let grid = view.front().beneath().grid();
    let width = grid.width();
    width.saturating_sub(view.offset() as usize) as u16
}

/// Returns the number of rows of the session of `view`.
pub(crate) fn rows_of(view: &View<'_>) -> u16
    ensures { result ≡ rows_shown view.now.front.beneath }
{
    let grid = view.front().beneath().grid();
    grid.height() as u16
}

/// Returns whether `size` is that of `width` columns and `height` rows.
fn is_of(size: Option<(usize, usize)>, width: usize, height: usize) -> bool
    ensures { result ≡ is_of size width height }
{
    match size {
        None => false,
        Some((columns, rows)) => columns == width && rows == height,
    }
}

/// A painter of views on one terminal. It keeps what it painted last, and writes only the rows that differ.
///
/// After another program wrote to the terminal, `forget` makes the next `paint` write all rows again.
#[derive(Drop)]
pub struct FrontPainter {
    /// The allocator of the texts.
    pub(crate) alloc: Global,
    /// The colours of the terminal.
    pub(crate) theme: Theme,
    /// The labels of sections.
    pub(crate) labels: SectionLabels,
    /// The lines that have spans.
    pub(crate) syntax: SyntaxLines,
    /// The painter of the session's rows.
    session: SessionPainter,
    /// The painter of the status row.
    status: StatusPainter,
    /// What is set off on each row of the session's screen that was painted last.
    words: Vec<Option<LineWords>>,
    /// The rows of labels that were painted last.
    label_rows: Vec<Option<ShownLabel>>,
    /// The columns and rows of the session that were painted last, if any.
    size: Option<(usize, usize)>,
}

impl FrontPainter {
    /// Makes a painter without a last picture: what the terminal shows is unknown. It paints in the colours
    /// of `theme`. No section has a label, and no line has spans.
    pub fn new(alloc: Global, theme: Theme) -> FrontPainter
        ensures pictures { pictures_of result ≡ no_pictures }
        ensures theme { result.theme ≡ theme }
        ensures labels { result.labels ≡ [] }
        ensures syntax { result.syntax ≡ [] }
    {
        FrontPainter {
            alloc,
            theme,
            labels: SectionLabels::new(alloc),
            syntax: SyntaxLines::new(alloc),
            session: SessionPainter {
                painter: Painter::new(alloc),
                cut: None,
            },
            status: StatusPainter::new(alloc),
            words: Vec::new(alloc),
            label_rows: Vec::new(alloc),
            size: None,
        }
    }

    /// Forgets the last picture, so that the next `paint` writes all rows.
    pub fn forget(&mut self)
        ensures pictures { pictures_of self.new ≡ no_pictures }
        ensures theme { self.new.theme ≡ self.old.theme }
        ensures labels { self.new.labels ≡ self.old.labels }
        ensures syntax { self.new.syntax ≡ self.old.syntax }
    {
        self.session.painter.forget();
        self.status.forget();
        self.size = None;
    }

    /// Paints in the colours of `theme` from now on. Forgets the last picture, so that the next `paint`
    /// writes all rows.
    pub fn set_theme(&mut self, theme: Theme)
        ensures pictures { pictures_of self.new ≡ no_pictures }
        ensures theme { self.new.theme ≡ theme }
        ensures labels { self.new.labels ≡ self.old.labels }
        ensures syntax { self.new.syntax ≡ self.old.syntax }
    {
        self.forget();
        self.theme = theme;
    }

    /// Shows the text of `label` in the header of its section from the next `paint` on, in place of an earlier
    /// one and of the section's number.
    ///
    /// # Errors
    ///
    /// - `OutOfMemory`: an allocation failed; the labels are unchanged.
    pub fn label(&mut self, label: Label) -> Result<(), RecordError>
        ensures ok { OnOk result
            (self.new.labels ≡ with_label label self.old.labels) }
        ensures unchanged { OnErr result (self.new ≡ self.old) }
        ensures pictures { pictures_of self.new ≡ pictures_of self.old }
        ensures size { self.new.size ≡ self.old.size }
        ensures theme { self.new.theme ≡ self.old.theme }
        ensures syntax { self.new.syntax ≡ self.old.syntax }
        ensures err { IfErr result (λ e. e ≡ OutOfMemory) }
    {
        self.labels.set(label)
    }

    /// Shows the heading above each section of changed lines of `view` behind the section's title from the next
    /// `paint` on, if there is one: the line that the section stands in. A section that has a label keeps it.
    ///
    /// # Errors
    ///
    /// - `OutOfMemory`: an allocation failed; some sections show it.
    pub fn name_sections(&mut self, view: &View<'_>) -> Result<(), RecordError>
        ensures ok { OnOk result (AreNamed (files_of view.now)
            self.old.labels self.new.labels) }
        ensures some { OnErr result (AreSomeNamed (files_of view.now)
            self.old.labels self.new.labels) }
        ensures pictures { pictures_of self.new ≡ pictures_of self.old }
        ensures size { self.new.size ≡ self.old.size }
        ensures theme { self.new.theme ≡ self.old.theme }
        ensures syntax { self.new.syntax ≡ self.old.syntax }
        ensures err { IfErr result (λ e. e ≡ OutOfMemory) }
    {
        let state = view.front().beneath().state();
        self.labels.name(self.alloc, state.files.as_slice())
    }

    /// Gives line `line` of section `section` of file `file` of `view` the styles of `spans` from the next `paint` on,
    /// in place of the spans that it had. Does nothing if there is no such line. Indexes are counted from 0.
    ///
    /// The styles of words, of a range and of the selected line lie over them, and where spans overlap, the last one
    /// counts. A span ends with its line: a place past the end or inside a character counts as the end. If the line
    /// has another text when it is painted, it is painted without spans.
    ///
    /// # Errors
    ///
    /// - `OutOfMemory`: an allocation failed; the spans are unchanged.
    pub fn set_spans(
        &mut self,
        view: &View<'_>,
        file: usize,
        section: usize,
        line: usize,
        spans: &[SyntaxSpan],
    ) -> Result<(), RecordError>
        ensures ok { OnOk result (IsWithSpans (key_of file section line)
            (text_of_key (files_of view.now) (key_of file section line))
            spans.now self.old.syntax self.new.syntax) }
        ensures unchanged { OnErr result (self.new ≡ self.old) }
        ensures pictures { pictures_of self.new ≡ pictures_of self.old }
        ensures size { self.new.size ≡ self.old.size }
        ensures theme { self.new.theme ≡ self.old.theme }
        ensures labels { self.new.labels ≡ self.old.labels }
        ensures err { IfErr result (λ e. e ≡ OutOfMemory) }
    {
        let key = LineKey {
            commit_idx: 0,
            file_idx: file,
            section_idx: section,
            line_idx: line,
        };
        let state = view.front().beneath().state();
        match text_of_key(state.files.as_slice(), key) {
            None => Ok(()),
            Some(text) => self.syntax.set(self.alloc, key, text, spans),
        }
    }

    /// Returns the bytes that make a terminal show `view`: its session from a column on, with the labels of
    /// sections, and below it the status row, which says by `accept` what accepting does. The terminal has
    /// the size of the view.
    ///
    /// # Errors
    ///
    /// The painter forgets what it painted last.
    ///
    /// - `OutOfMemory`: an allocation failed.
    /// - `Bug`: the view is sideways, and a symbol of the screen is no cluster by itself. No text has such
    ///   a symbol.
    pub fn paint(&mut self, view: &View<'_>, accept: &str) -> Result<String, RecordError>
        ensures ok { IfOk result (λ text.
            PaintsView self.old self.new view.now accept.now (string_bytes text)) }
        ensures forgotten { OnErr result (pictures_of self.new ≡ no_pictures) }
        ensures theme { self.new.theme ≡ self.old.theme }
        ensures labels { self.new.labels ≡ self.old.labels }
        ensures syntax { self.new.syntax ≡ self.old.syntax }
        ensures err { IfErr result (λ e. CutFails e) }
    {
        match self.paint_both(view, accept) {
            Ok(text) => Ok(text),
            Err(error) => {
                self.forget();
                Err(error)
            }
        }
    }

    /// Returns the bytes of both, as [`FrontPainter::paint`] does. After an error the pictures may be
    /// those of either.
    fn paint_both(&mut self, view: &View<'_>, accept: &str) -> Result<String, RecordError>
        ensures ok { IfOk result (λ text.
            PaintsView self.old self.new view.now accept.now (string_bytes text)) }
        ensures theme { self.new.theme ≡ self.old.theme }
        ensures labels { self.new.labels ≡ self.old.labels }
        ensures syntax { self.new.syntax ≡ self.old.syntax }
        ensures err { IfErr result (λ e. CutFails e) }
    {
        let _pane = view.pane();
        let session = view.front().beneath();
        let width = width_of(view);
        let height = rows_of(view);
        let left = left_of(self.alloc, view.front(), width as usize)?;
        let x = view.offset() as usize;
        let right = right_of(self.alloc, view.front(), width, &left, x, accept)?;
        let kept = replace(&mut self.words, Vec::new(self.alloc));
        let words = words_of(self.alloc, session, kept)?;
        let kept = replace(&mut self.label_rows, Vec::new(self.alloc));
        let labels = label_rows(self.alloc, &self.labels, session, kept)?;
        self.keep_size(width as usize, height as usize);
        let mut text = self
            .status
            .paint(self.alloc, width, height, &left, right.as_str())?;
        let shown = Shown {
            session,
            words: words.as_slice(),
            syntax: &self.syntax,
            anchor: view.front().anchor(),
            theme: self.theme,
        };
        let rows = paint_session(self.alloc, &mut self.session, &shown, labels.as_slice(), x)?;
        text.push_str(rows.as_str())?;
        self.words = words;
        self.label_rows = labels;
        Ok(text)
    }

    /// Forgets the last picture if it is not of `width` columns and `height` rows of the session.
    fn keep_size(&mut self, width: usize, height: usize)
        ensures known { pictures_of self.new ≡ known_to self.old width height }
        ensures size { self.new.size ≡ Some (width, height) }
        ensures theme { self.new.theme ≡ self.old.theme }
        ensures labels { self.new.labels ≡ self.old.labels }
        ensures syntax { self.new.syntax ≡ self.old.syntax }
    {
        if !is_of(self.size, width, height) {
            self.forget();
        }
        self.size = Some((width, height));
    }
}
