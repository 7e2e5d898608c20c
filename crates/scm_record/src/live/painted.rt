//! Painting a live session on a terminal.
ghost use Rattle.std.specs.Prelude.{◌≡◌, ℕ, ◌+◌, ◌<◌, ◌≤◌, [], IfErr, IfOk, OnErr, OnOk, Some, length, slice_index_or, string_bytes};
ghost use Rattle.scm_errors.specs.declared.error.RecordError.TheVariants.{OutOfMemory};
ghost use Rattle.scm_terminal.specs.Promise.{Paints};
ghost use Rattle.scm_terminal.specs.Style.{plain_style};
ghost use Rattle.scm_terminal.specs.StyledCell.{row_of_styles};
ghost use Rattle.scm_document.specs.PieceOwners.{line_owner};
ghost use Rattle.scm_view_state.specs.Styles.{style_of};
ghost use Rattle.scm_record.specs.Frames.{columns_of, rows_of, IsSceneOf, KnowsRow, Scene};
ghost use Rattle.scm_record.specs.Headline.{IsInline};
ghost use Rattle.scm_record.specs.Painted.{picture_of, style_at, style_in, window_picture_of, window_style_at};

use crate::frame::DrawnFrame;
use crate::live::LiveSession;
use scm_cells::Style;
use scm_layout_index::RowOwners;
use scm_terminal::{NumberedStyle, Painter, Styles};
use scm_types::{LineKey, RecordError};
use scm_view::{ComponentId, SelectionKey};
use scm_view_state::ViewState;

/// Sets the styles `from..end` of `styles` to `style`.
fn fill_run(styles: &mut [NumberedStyle], from: usize, end: usize, style: NumberedStyle)
    requires from { from ≤ end }
    requires end { end ≤ length styles.old }
    ensures length { length styles.new ≡ length styles.old }
    ensures before { (k : ℕ) → k < from
        → slice_index_or styles.new k plain_style ≡ slice_index_or styles.old k plain_style }
    ensures within { (k : ℕ) → from ≤ k → k < end
        → slice_index_or styles.new k plain_style ≡ style }
{
    let mut place = from;
    'places: while place < end {
        styles[place] = style;
        place += 1;
    }
}

/// Sets `styles` to the styles of the places of row `row` of the screen, counted from 0, if these
/// belong to the changed line `key`.
fn set_line_styles(
    view_state: &ViewState<'_>,
    row: usize,
    key: LineKey,
    styles: &mut [NumberedStyle],
)
    ensures length { length styles.new ≡ length styles.old }
    ensures styles { (k : ℕ) → k < length styles.old → slice_index_or styles.new k plain_style
        ≡ style_of view_state.now row (Some (line_owner key k)) }
{
    let key = SelectionKey::Line(key);
    let line = NumberedStyle::new(view_state.style(row, Some(ComponentId::SelectableItem(key))));
    let checkbox = NumberedStyle::new(view_state.style(row, Some(ComponentId::ToggleBox(key))));
    let width = styles.len();
    let first = width.min(4);
    let after = width.min(7);
    fill_run(styles, 0, first, line);
    fill_run(styles, first, after, checkbox);
    fill_run(styles, after, width, line);
}

/// Sets `styles` to the styles of the places of row `row` of the screen, run by run. `owners` are those
/// of the row, if they were found.
fn set_run_styles(
    frame: &DrawnFrame,
    view_state: &ViewState<'_>,
    owners: &Option<RowOwners>,
    scroll: usize,
    row: usize,
    styles: &mut [NumberedStyle],
)
    requires { KnowsRow owners.now frame.now.places (scroll + row) }
    ensures { (scene : Scene) → IsSceneOf scene frame.now → styles.new
        ≡ row_of_styles (style_in scene view_state.now scroll) row (length styles.old) }
{
    let mut column = 0;
    'runs: while column < styles.len() {
        let run = frame.run_among(owners, scroll, row, column);
        let end = run.end.min(styles.len());
        let style = NumberedStyle::new(view_state.style(row, run.owner));
        fill_run(styles, column, end, style);
        column = end;
    }
}

/// Sets `styles` to the styles of the places of row `row` of the screen, counted from 0, while the
/// screen shows `frame` of `view_state`, scrolled to row `scroll` of the document.
fn set_row_styles(
    frame: &DrawnFrame,
    view_state: &ViewState<'_>,
    scroll: usize,
    row: usize,
    styles: &mut [NumberedStyle],
)
    ensures { (scene : Scene) → IsSceneOf scene frame.now → styles.new
        ≡ row_of_styles (style_in scene view_state.now scroll) row (length styles.old) }
{
    let owners = frame.row_owners(scroll, row);
    match frame.lines_among(&owners, scroll, row, styles.len()) {
        None => set_run_styles(frame, view_state, &owners, scroll, row, styles),
        Some(lines) => set_line_styles(view_state, row, lines.first, styles),
    }
}

impl<'state> Styles for LiveSession<'state> {
    ghost styled = { style_at };

    /// Returns the style at `row` and `column` of the screen, counted from 0.
    fn style(&self, row: usize, column: usize) -> Style
        ensures at { result ≡ style_at self.now row column }
        // inline, it is the style of the owner of that place in the document
        ensures owner { IsInline self.now.kind self.now.session → row < rows_of self.now.kind
            → column < columns_of self.now.kind → result ≡ window_style_at self.now row column }
    {
        self.view_state().style(row, self.owner(row, column))
    }

    /// Sets `styles` to the styles of the places of row `row` of the screen, counted from 0.
    fn row_styles(&self, row: usize, styles: &mut [NumberedStyle])
        ensures { styles.new ≡ row_of_styles (style_at self.now) row (length styles.old) }
    {
        let scroll = self.session.scroll();
        set_row_styles(&self.frame, self.view_state(), scroll, row, styles);
    }
}

impl<'state> LiveSession<'state> {
    /// Returns the bytes that make a terminal of the screen's size show the session in its styles.
    ///
    /// They repaint the rows that changed since `painter` painted last, or all rows if it has
    /// forgotten them or the size changed.
    ///
    /// # Errors
    ///
    /// - `OutOfMemory`: an allocation failed; the painter forgets what it painted last.
    pub fn paint(&self, painter: &mut Painter) -> Result<String, RecordError>
        ensures ok { IfOk result (λ text. Paints (columns_of self.now.kind) painter.old
            (picture_of self.now) (string_bytes text)) }
        // inline, the picture is the window in its styles
        ensures window { IsInline self.now.kind self.now.session
            → picture_of self.now ≡ window_picture_of self.now }
        ensures painted { OnOk result (painter.new ≡ picture_of self.now) }
        ensures forgotten { OnErr result (painter.new ≡ []) }
        ensures err { IfErr result (λ e. e ≡ OutOfMemory) }
    {
        painter.paint(self.frame.grid(), self)
    }
}
