//! The whole screen: the documents, the menu bar and the open dialogs.
ghost use Rattle.std.specs.Prelude.{◌≡◌, ◌≤◌, ℤ, pos, ◌+ℤ◌, OnOk, IfOk, IfErr, take, length};
ghost use Rattle.scm_cells.specs.Rect.{InRange, RectInRange, end_x_of};
ghost use Rattle.scm_cells.specs.Mask.{MaskInRange};
ghost use Rattle.scm_errors.specs.declared.error.RecordError.TheVariants.{OutOfMemory};
ghost use Rattle.scm_view.specs.ViewState.{ViewState};
ghost use Rattle.scm_view.specs.Window.{IsPlain, ShowsInline, window, IsFew};
ghost use Rattle.scm_document.specs.ViewColumns.{view_count, view_width, nearest_column, view_mask, next_view};
ghost use Rattle.scm_view.specs.AppView.{view_call, views_call, has_help, app_picture, app_counts};
ghost use Rattle.scm_render.specs.Draws.{CanDraw, HasDrawn};
ghost use Rattle.scm_overlay.specs.OverlayCalls.{quit_call, help_call};

use scm_cells::{Grid, Mask, Rect, gap};
use scm_document::commit_view::{CommitView, CommitViewMode};
use scm_overlay::help_dialog::HelpDialog;
use scm_overlay::menu_bar::MenuBar;
use scm_overlay::quit_dialog::QuitDialog;
use scm_render::{Component, Viewport};
use scm_types::{Items, RecordError};
use scm_widgets::ids::ComponentId;
use scm_widgets::mask_extent::draw_under;
use std::alloc::Global;
use std::mem;

/// The whole screen: the documents of the commits below the menu bar, and the open dialogs.
#[derive(Drop)]
pub struct AppView<'a> {
    /// The menu bar, on the screen's first row.
    pub menu_bar: MenuBar<'a>,
    /// Whether one document is drawn, or two side by side.
    pub commit_view_mode: CommitViewMode,
    /// The documents. The first one or the first two are drawn, by the mode.
    pub commit_views: Items<CommitView<'a>>,
    /// The quit dialog, if it is open.
    pub quit_dialog: Option<QuitDialog>,
    /// The help dialog, if it is open.
    pub help_dialog: Option<HelpDialog>,
}

/// Returns the column of `rect`, or its end column, that is nearest to `x`.
fn nearest_column(rect: Rect, x: isize) -> isize
    requires { RectInRange rect }
    ensures { result ≡ nearest_column rect x }
{
    x.max(rect.x).min(rect.end_x())
}

/// Returns the mask of a document: the rows below the menu bar, and the columns `x..x + width` as far
/// as they lie on the screen.
fn view_mask(viewport: &Viewport<ComponentId>, x: isize, width: usize) -> Mask
    requires { InRange (viewport.now.canvas.sight.rect.y +ℤ pos 1) }
    ensures mask { result ≡ view_mask viewport.now.canvas.sight x width }
    ensures in_range { MaskInRange result }
    ensures end { InRange (end_x_of viewport.now.canvas.sight.rect) }
{
    let rect = viewport.rect();
    let left = nearest_column(rect, x);
    let hidden = gap(x, left);
    let room = gap(left, rect.end_x());
    Mask {
        x: left,
        y: rect.y + 1,
        width: Some(width.saturating_sub(hidden).min(room)),
        height: None,
    }
}

/// Draws the document `view` below the menu bar, in columns `x..x + width`. Returns the column
/// where the next document would begin, after one free column.
fn draw_view(
    viewport: &mut Viewport<ComponentId>,
    x: isize,
    width: usize,
    view: &CommitView<'_>,
) -> Result<isize, RecordError>
    requires below { InRange (viewport.old.canvas.sight.rect.y +ℤ pos 1) }
    requires picture { CanDraw viewport.old (view_call view.now x width) }
    ensures draws { HasDrawn viewport.old viewport.new result (view_call view.now x width) }
    ensures next { IfOk result (λ c. c ≡ next_view view.now viewport.old.canvas.sight x width) }
{
    let mask = view_mask(viewport, x, width);
    let outer = viewport.swap_mask(Some(mask));
    let drawn = viewport.draw_component(x, 1, view)?;
    viewport.swap_mask(outer);
    Ok(x.strict_add_unsigned(mask.apply(drawn).width) + 1)
}

/// Draws the documents `views` side by side from column `x` on, each in `width` columns.
fn draw_views(
    viewport: &mut Viewport<ComponentId>,
    x: isize,
    width: usize,
    views: &[CommitView<'_>],
) -> Result<(), RecordError>
    requires below { InRange (viewport.old.canvas.sight.rect.y +ℤ pos 1) }
    requires end { InRange (end_x_of viewport.old.canvas.sight.rect) }
    requires picture { CanDraw viewport.old (views_call views.now x width) }
    ensures { HasDrawn viewport.old viewport.new result (views_call views.now x width) }
{
    let mut left = x;
    for view in views {
        left = draw_view(viewport, left, width, view)?;
    }
    Ok(())
}

/// Draws the document `view` below the menu bar, in columns `x..x + width`.
fn draw_only(
    viewport: &mut Viewport<ComponentId>,
    x: isize,
    width: usize,
    view: &CommitView<'_>,
) -> Result<(), RecordError>
    requires below { InRange (viewport.old.canvas.sight.rect.y +ℤ pos 1) }
    requires picture { CanDraw viewport.old (view_call view.now x width) }
    ensures { HasDrawn viewport.old viewport.new result (view_call view.now x width) }
{
    let mask = view_mask(viewport, x, width);
    draw_under(viewport, mask, x, 1, view)
}

/// Draws the documents `views` side by side from column `x` on, each in `width` columns. One alone
/// is not measured.
fn draw_documents(
    viewport: &mut Viewport<ComponentId>,
    x: isize,
    width: usize,
    views: &[CommitView<'_>],
) -> Result<(), RecordError>
    requires below { InRange (viewport.old.canvas.sight.rect.y +ℤ pos 1) }
    requires end { InRange (end_x_of viewport.old.canvas.sight.rect) }
    requires picture { CanDraw viewport.old (views_call views.now x width) }
    ensures { HasDrawn viewport.old viewport.new result (views_call views.now x width) }
{
    match views {
        [view] => draw_only(viewport, x, width, view),
        _ => draw_views(viewport, x, width, views),
    }
}

/// If the quit dialog is open, draws it.
fn draw_quit(
    viewport: &mut Viewport<ComponentId>,
    dialog: &Option<QuitDialog>,
) -> Result<(), RecordError>
    requires { CanDraw viewport.old (quit_call dialog.now) }
    ensures { HasDrawn viewport.old viewport.new result (quit_call dialog.now) }
{
    match dialog {
        Some(quit_dialog) => {
            viewport.draw_part(0, 0, quit_dialog)?;
            Ok(())
        }
        None => Ok(()),
    }
}

/// If the help dialog is open, draws it.
fn draw_help(
    viewport: &mut Viewport<ComponentId>,
    dialog: &Option<HelpDialog>,
) -> Result<(), RecordError>
    requires { CanDraw viewport.old (help_call (has_help dialog.now)) }
    ensures { HasDrawn viewport.old viewport.new result (help_call (has_help dialog.now)) }
{
    match dialog {
        Some(help_dialog) => {
            viewport.draw_part(0, 0, help_dialog)?;
            Ok(())
        }
        None => Ok(()),
    }
}

impl<'a> AppView<'a> {
    /// Returns the documents that are drawn.
    fn shown_views(&self) -> &[CommitView<'a>]
        ensures { result.now
            ≡ take (view_count self.now.commit_view_mode) self.now.commit_views }
    {
        let count = self
            .commit_view_mode
            .view_count()
            .min(self.commit_views.len());
        let (shown, _) = self.commit_views.as_slice().split_at(count);
        shown
    }
}

impl<'a> AppView<'a> {
    /// Clears `grid` and paints the inline view, scrolled to row `scroll` of the document. Paints
    /// only what the screen shows, with few rows and calls.
    ///
    /// # Errors
    ///
    /// `OutOfMemory`: an allocation failed; the grid keeps its size.
    #[tactic(auto, using(scm_types::proofs::LimitLemmas::scroll_room))]
    pub fn paint(&self, alloc: Global, grid: &mut Grid, scroll: usize) -> Result<(), RecordError>
        requires shows { ShowsInline self.now grid.old.width (length grid.old.rows) scroll }
        ensures ok { OnOk result
            ((shown : ViewState) → IsPlain self.now shown grid.old.width (length grid.old.rows) →
            grid.new.rows ≡ window grid.old.width (length grid.old.rows) scroll shown) }
        ensures few { OnOk result (IsFew (length grid.old.rows) grid.new.counts) }
        ensures width { grid.new.width ≡ grid.old.width }
        ensures height { length grid.new.rows ≡ length grid.old.rows }
        ensures err { IfErr result (λ e. e ≡ OutOfMemory) }
    {
        grid.clear();
        let rect = Rect {
            x: 0,
            y: scroll as isize,
            width: grid.width(),
            height: grid.height(),
        };
        let empty = Grid::new(alloc, 0, 0)?;
        let mut viewport = Viewport::for_painting(alloc, mem::replace(grid, empty), rect);
        let outcome = self.draw(alloc, &mut viewport, 0, 0);
        *grid = viewport.into_grid();
        outcome
    }
}

impl<'a> Component for AppView<'a> {
    type Id = ComponentId;

    ghost use Rattle.scm_widgets.specs.declared.ids.ComponentId.TheVariants.{App};

    ghost key = { λ a. App };

    ghost picture = { app_picture };

    ghost rows = { λ a s x y. (app_counts a s x).rows };

    ghost calls = { λ a s x y. (app_counts a s x).calls };

    fn id(&self) -> ComponentId {
        ComponentId::App
    }

    /// Draws on the screen's rows, whatever `y` is.
    fn draw(
        &self,
        _alloc: Global,
        viewport: &mut Viewport<ComponentId>,
        x: isize,
        _y: isize,
    ) -> Result<(), RecordError> {
        let screen = viewport.rect();
        let width = self.commit_view_mode.view_width(screen.width);
        draw_documents(viewport, x, width, self.shown_views())?;
        viewport.draw_part(x, screen.y, &self.menu_bar)?;
        draw_quit(viewport, &self.quit_dialog)?;
        draw_help(viewport, &self.help_dialog)
    }
}
