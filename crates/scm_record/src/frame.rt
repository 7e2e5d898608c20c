//! The frame last drawn: the screen, and where each component was drawn on it.
ghost use Rattle.std.specs.Prelude.{◌≡◌, ℕ, ◌<◌, ◌≤◌, ◌+◌, ◌^◌, ◌&&◌, nat_le, nat_lt, true, false, IfErr, IfOk, IfSome, IsTrue, OnOk, Some, length, min, string_bytes};
ghost use Rattle.scm_render.specs.Picture.{PictureInRange, part};
ghost use Rattle.scm_errors.specs.declared.error.RecordError.TheVariants.{OutOfMemory};
ghost use Rattle.scm_types.specs.Limits.{is_accepted_state, max_scroll};
ghost use Rattle.scm_document.specs.PieceOwners.{line_owner};
ghost use Rattle.scm_types.specs.declared.keys.LineKey.{LineKey};
ghost use Rattle.scm_widgets.specs.declared.ids.ComponentId.TheVariants as ids;
ghost use Rattle.scm_view.specs.AppView.{app_view_of};
ghost use Rattle.scm_view.specs.Window.{rows_of_box, window};
ghost use Rattle.scm_view.specs.Frame.{frame_of_document, frame_of_view, is_plain, picture_of};
ghost use Rattle.scm_layout.specs.Layouts.{layout_of};
ghost use Rattle.scm_layout_index.specs.LayoutIndex.{AreRowsOf, IsInline};
ghost use Rattle.scm_layout_index.specs.LineRows.{line_below};
ghost use Rattle.scm_layout_index.specs.SharedRows.{AreRowsOfState};
ghost use Rattle.scm_layout_index.specs.declared.line_rows.LineRows.{LineRows as Lines};
ghost use Rattle.scm_record.specs.Frames.{HasSize, IsMapOf, IsSceneOf, KnowsPlaces, KnowsRow, Scene, is_indexed, scene_of};
ghost use Rattle.scm_record.specs.Session.{Session};
ghost use Rattle.scm_record.specs.FrameLines.{first_rows};
ghost use Rattle.scm_record.specs.FrameQueries.{scroll_to_show, limited_scroll, hit, free_rows_above, scroll_to_rows, scroll_to_span, shot_of, top_in};

use crate::free_places::FreePlaces;
use scm_cells::{Grid, Rect};
use scm_input::TerminalKind;
use scm_layout::{Layout, StateRows};
use scm_layout_index::{LayoutIndex, LineRows, OwnerRun, RowOwners, SharedRows, span_of_key};
use scm_render::{DrawnRects, Viewport};
use scm_screen::paint_window;
use scm_types::{LineKey, RecordError, RecordState};
use scm_view::{AppView, CommitViewMode, ComponentId, SelectionKey, laws};
use scm_view_state::ViewState;
use std::alloc::Global;

/// Where components are on the frame last drawn, in rows of the document and columns of the screen.
#[derive(Drop)]
enum Places {
    /// The index of the document, if the frame is plain.
    Plain(LayoutIndex),
    /// The boxes of components, on any other frame.
    Free(FreePlaces),
}

/// The frame last drawn, as the code keeps it. The definition `Scene` is what it shows.
#[derive(Drop)]
pub(crate) struct DrawnFrame {
    /// The screen.
    grid: Grid,
    /// Where components are on it.
    places: Places,
    /// The index of the menu that was open, if any.
    open_menu: Option<usize>,
}

/// Returns `lines` on the first `most` of their rows.
fn first_rows(lines: Option<LineRows>, most: usize) -> Option<LineRows>
    ensures { result ≡ first_rows lines most }
{
    match lines {
        None => None,
        Some(lines) => Some(LineRows {
            first: lines.first,
            rows: lines.rows.min(most),
        }),
    }
}

/// Clears `grid`, draws `view` on it and returns the box of each component. The first row of the
/// grid shows row `scroll` of the document. If an allocation fails, the grid keeps its size.
#[tactic(auto, using(scm_types::proofs::LimitLemmas::scroll_room))]
fn render(
    alloc: Global,
    grid: &mut Grid,
    scroll: usize,
    view: &AppView<'_>,
) -> Result<DrawnRects<ComponentId>, RecordError>
    requires scroll { scroll ≤ max_scroll }
    requires in_range { (w h : ℕ) → w ≤ 65535 → h ≤ 65535
        → PictureInRange (part ids.App (picture_of w h scroll view.now)) }
    ensures rows { OnOk result (grid.new.rows
        ≡ (frame_of_view grid.old.width (length grid.old.rows) scroll view.now).rows) }
    ensures ok { let w = grid.old.width in let h = length grid.old.rows in
        IfOk result (λ boxes. IsMapOf w (frame_of_view w h scroll view.now) boxes) }
    ensures width { grid.new.width ≡ grid.old.width }
    ensures height { length grid.new.rows ≡ length grid.old.rows }
    ensures err { IfErr result (λ e. e ≡ OutOfMemory) }
{
    let width = grid.width();
    let height = grid.height();
    prove!(width <= 65_535);
    prove!(height <= 65_535);
    grid.clear();
    laws::cleared_grids_are_screens();
    let boxes = Viewport::render_top_level(alloc, grid, 0, scroll as isize, view)?;
    laws::ids_are_told_apart();
    scm_render::laws::maps_have_last_boxes(&boxes);
    Ok(boxes)
}

/// Returns the first row of `rect`, and its height in rows.
fn rows_of(rect: Rect) -> (usize, usize)
    ensures { result ≡ rows_of_box rect }
{
    (rect.y.max(0) as usize, rect.height)
}

/// Returns how many rows stay free above `key` on the screen: for the menu bar, and for a pinned
/// header.
fn free_rows_above(key: SelectionKey) -> usize
    ensures { result ≡ free_rows_above key }
{
    match key {
        SelectionKey::None => 2,
        SelectionKey::File(_) => 1,
        SelectionKey::Section(_) => 2,
        SelectionKey::Line(_) => 2,
    }
}

/// Returns the scroll at which rows `top..top + rows` of the document are on a screen of `height`
/// rows, with `above` rows free above them. If they already are, returns `scroll`; if they don't
/// fit, puts row `top` right below the free rows.
fn scroll_to_rows(height: usize, scroll: usize, above: usize, top: usize, rows: usize) -> usize
    ensures { result ≡ scroll_to_rows height scroll above top (top + rows) }
{
    let Some(row) = top.checked_sub(scroll) else {
        return top.saturating_sub(above);
    };
    if above <= row && rows < height.saturating_sub(row) {
        scroll
    } else if row < above || height.saturating_sub(above) <= rows {
        top.saturating_sub(above)
    } else {
        top.saturating_sub(height.saturating_sub(rows))
    }
}

/// Returns the scroll that shows `key`, starting from `scroll`, on a screen of `height` rows. `span` is
/// the first row of `key` in the document and its height in rows; if it is `None`, keeps `scroll`.
#[tactic(auto, unfolding(scm_types::specs::Limits::max_items, scm_types::specs::Limits::max_scroll))]
fn scroll_to_span(
    height: usize,
    scroll: usize,
    key: SelectionKey,
    span: Option<(usize, usize)>,
) -> usize
    ensures { result ≡ min max_scroll (scroll_to_span height scroll (free_rows_above key) span) }
{
    match span {
        Some((top, rows)) => {
            scroll_to_rows(height, scroll, free_rows_above(key), top, rows).min(
                RecordState::MAX_SCROLL,
            )
        }
        None => scroll.min(RecordState::MAX_SCROLL),
    }
}

/// Returns whether a frame is plain: inline, on a screen of at least 10 columns and 2 rows.
fn is_plain(width: usize, height: usize, mode: CommitViewMode) -> bool
    ensures { result ≡ is_plain width height mode }
{
    match mode {
        CommitViewMode::Inline => 10 <= width && 2 <= height,
        CommitViewMode::Adjacent => false,
    }
}

impl DrawnFrame {
    /// Creates an empty frame of the screen's size.
    pub(crate) fn new(alloc: Global, kind: TerminalKind) -> Result<DrawnFrame, RecordError>
        ensures ok { IfOk result (λ frame. HasSize kind frame) }
        ensures err { IfErr result (λ e. e ≡ OutOfMemory) }
    {
        let TerminalKind::Testing { width, height } = kind;
        let grid = Grid::new(alloc, width.min(65_535) as u16, height.min(65_535) as u16)?;
        Ok(DrawnFrame {
            grid,
            places: Places::Free(FreePlaces::empty(alloc)),
            open_menu: None,
        })
    }

    /// Gives up the rows that the frame shares with the session, before another frame is drawn. The
    /// frame keeps its size.
    pub(crate) fn release_rows(&mut self, alloc: Global)
        ensures size { (kind : TerminalKind) → HasSize kind self.old → HasSize kind self.new }
    {
        self.places = Places::Free(FreePlaces::empty(alloc));
    }

    /// Draws the part of `view_state` that the screen shows inline, and indexes the document by
    /// `rows`, those of `layout`.
    fn draw_plain(
        &mut self,
        alloc: Global,
        view_state: &ViewState<'_>,
        layout: &Layout,
        rows: SharedRows,
        scroll: usize,
    ) -> Result<(), RecordError>
        requires shows { IsInline view_state.now
            self.old.grid.width (length self.old.grid.rows) scroll }
        requires layout { layout.now ≡ layout_of view_state.now.state view_state.now.expanded }
        requires rows { AreRowsOf rows view_state.now }
        ensures rows { OnOk result (self.new.grid.rows
            ≡ window self.old.grid.width (length self.old.grid.rows) scroll view_state.now) }
        ensures places { OnOk result (KnowsPlaces self.old.grid.width
            (frame_of_document self.old.grid.width (length self.old.grid.rows) scroll
            view_state.now) self.new.places) }
        ensures indexed { OnOk result (is_indexed self.new.places ≡ true) }
        ensures width { self.new.grid.width ≡ self.old.grid.width }
        ensures height { length self.new.grid.rows ≡ length self.old.grid.rows }
        ensures err { IfErr result (λ e. e ≡ OutOfMemory) }
    {
        let width = self.grid.width();
        let height = self.grid.height();
        let view = view_state.overlay_view(alloc)?;
        paint_window(alloc, &mut self.grid, view_state, layout, &view, scroll)?;
        let index = LayoutIndex::new(
            alloc,
            view_state,
            &view.menu_bar,
            rows,
            width as u16,
            height as u16,
            scroll,
        )?;
        self.places = Places::Plain(index);
        Ok(())
    }

    /// Draws the views of `view_state` component by component, and notes their boxes.
    #[tactic(auto, unfolding(scm_types::specs::Limits::max_items, scm_types::specs::Limits::max_scroll))]
    fn draw_free(
        &mut self,
        alloc: Global,
        view_state: &ViewState<'_>,
        scroll: usize,
    ) -> Result<(), RecordError>
        requires accepted { IsTrue (is_accepted_state view_state.now.state) }
        requires scroll { scroll ≤ max_scroll }
        ensures rows { OnOk result (self.new.grid.rows ≡ (frame_of_view self.old.grid.width
            (length self.old.grid.rows) scroll (app_view_of view_state.now)).rows) }
        ensures places { OnOk result (KnowsPlaces self.old.grid.width (frame_of_view
            self.old.grid.width (length self.old.grid.rows) scroll (app_view_of view_state.now))
            self.new.places) }
        ensures indexed { OnOk result (is_indexed self.new.places ≡ false) }
        ensures width { self.new.grid.width ≡ self.old.grid.width }
        ensures height { length self.new.grid.rows ≡ length self.old.grid.rows }
        ensures err { IfErr result (λ e. e ≡ OutOfMemory) }
    {
        let view = view_state.app_view(alloc)?;
        laws::apps_are_in_range();
        laws::apps_are_drawn_alike();
        let boxes = render(alloc, &mut self.grid, scroll, &view)?;
        let end = scroll + self.grid.height();
        let places = FreePlaces::new(alloc, boxes, scroll as isize, end as isize)?;
        self.places = Places::Free(places);
        Ok(())
    }

    /// Draws the view state `view_state`, with row `scroll` of the document as the screen's first row.
    /// `layout` is that of the state, with the expanded keys unfolded, and `rows` are its rows. If an
    /// allocation fails, the frame keeps its size.
    pub(crate) fn draw(
        &mut self,
        alloc: Global,
        view_state: &ViewState<'_>,
        layout: &Layout,
        rows: SharedRows,
        scroll: usize,
    ) -> Result<(), RecordError>
        requires accepted { IsTrue (is_accepted_state view_state.now.state) }
        requires layout { layout.now ≡ layout_of view_state.now.state view_state.now.expanded }
        requires rows { AreRowsOf rows view_state.now }
        requires scroll { scroll ≤ max_scroll }
        ensures ok { OnOk result ((kind : TerminalKind) (s : Session)
            → s.shown ≡ view_state.now → s.scroll ≡ scroll
            → HasSize kind self.old → IsSceneOf (scene_of kind s) self.new) }
        ensures indexed { OnOk result (is_indexed self.new.places
            ≡ is_plain self.old.grid.width (length self.old.grid.rows) view_state.now.view_mode) }
        ensures size { (kind : TerminalKind) → HasSize kind self.old → HasSize kind self.new }
        ensures err { IfErr result (λ e. e ≡ OutOfMemory) }
    {
        let width = self.grid.width();
        let height = self.grid.height();
        if is_plain(width, height, view_state.view_mode) {
            self.draw_plain(alloc, view_state, layout, rows, scroll)?;
        } else {
            self.draw_free(alloc, view_state, scroll)?;
        }
        self.open_menu = view_state.open_menu;
        Ok(())
    }

    /// Returns the screen.
    pub(crate) fn grid(&self) -> &Grid
        ensures width { (scene : Scene) → IsSceneOf scene self.now
            → result.now.width ≡ scene.width }
        ensures rows { (scene : Scene) → IsSceneOf scene self.now
            → result.now.rows ≡ scene.frame.rows }
    {
        &self.grid
    }

    /// Returns the text of a screenshot: the screen's rows, or blank rows if `is_cleared`.
    pub(crate) fn text(&self, alloc: Global, is_cleared: bool) -> Result<String, RecordError>
        ensures ok { IfOk result (λ text. (scene : Scene) → IsSceneOf scene self.now
            → string_bytes text ≡ shot_of scene is_cleared) }
        ensures err { IfErr result (λ e. e ≡ OutOfMemory) }
    {
        if is_cleared {
            let blank = Grid::new(alloc, self.grid.width() as u16, self.grid.height() as u16)?;
            blank.view()
        } else {
            self.grid.view()
        }
    }

    /// Finds what row `row` of the document has, for the owners of its places. Returns `None` if the
    /// frame has no index.
    fn owners_on(&self, row: usize) -> Option<RowOwners>
        ensures { KnowsRow result self.now.places row }
    {
        match &self.places {
            Places::Plain(index) => Some(index.row_owners(row)),
            Places::Free(_) => None,
        }
    }

    /// Returns the owner of `row` of the document and `column` of the screen, both counted from 0.
    fn owner(&self, row: usize, column: usize) -> Option<ComponentId>
        requires row { row < 2 ^ 63 }
        requires column { column < 2 ^ 63 }
        ensures { (scene : Scene) → IsSceneOf scene self.now → column < scene.width
            → result ≡ scene.frame.owner row column }
    {
        match &self.places {
            Places::Plain(index) => index.owner(row, column),
            Places::Free(places) => places.owner(row as isize, column as isize),
        }
    }

    /// Finds what `row` of the screen has, for the components that clicks on it hit, while the screen
    /// is scrolled to row `scroll` of the document. Both are counted from 0. Returns `None` if the row
    /// is off the screen or the frame has no index.
    #[tactic(auto, unfolding(scm_types::specs::Limits::max_items, scm_types::specs::Limits::max_scroll))]
    pub(crate) fn row_owners(&self, scroll: usize, row: usize) -> Option<RowOwners>
        ensures { KnowsRow result self.now.places (scroll + row) }
    {
        if row < self.grid.height() && scroll <= RecordState::MAX_SCROLL {
            self.owners_on(scroll + row)
        } else {
            None
        }
    }

    /// Returns the component that a click at `row` and `column` of the screen hits, if any, while
    /// the screen is scrolled to row `scroll` of the document. All are counted from 0.
    #[tactic(auto, unfolding(scm_types::specs::Limits::max_items, scm_types::specs::Limits::max_scroll))]
    pub(crate) fn hit(&self, scroll: usize, row: usize, column: usize) -> Option<ComponentId>
        ensures { (scene : Scene) → IsSceneOf scene self.now
            → result ≡ hit scene scroll row column }
    {
        if column < self.grid.width()
            && row < self.grid.height()
            && scroll <= RecordState::MAX_SCROLL
        {
            self.owner(scroll + row, column)
        } else {
            None
        }
    }

    /// Returns whether `row` is on the screen, and `scroll` is at most the maximum scroll.
    #[tactic(auto, unfolding(scm_types::specs::Limits::max_items, scm_types::specs::Limits::max_scroll))]
    fn has_row(&self, scroll: usize, row: usize) -> bool
        ensures value { result
            ≡ (nat_lt row (length self.now.grid.rows) && nat_le scroll max_scroll) }
        ensures room { IsTrue result → scroll + row < 2 ^ 63 }
    {
        row < self.grid.height() && scroll <= RecordState::MAX_SCROLL
    }

    /// Returns what a click at `row` and `column` of the screen hits, as a run of that column alone.
    fn one_place(&self, scroll: usize, row: usize, column: usize) -> OwnerRun
        requires column { column + 1 < 2 ^ 64 }
        ensures past { column < result.end }
        ensures owner { (scene : Scene) → IsSceneOf scene self.now
            → (x : ℕ) → column ≤ x → x < result.end → result.owner ≡ hit scene scroll row x }
    {
        OwnerRun {
            owner: self.hit(scroll, row, column),
            end: column + 1,
        }
    }

    /// Returns the component that a click at `row` and `column` of the screen hits, if any, and the end
    /// of a run of columns from there on where a click hits the same, while the screen is scrolled to
    /// row `scroll` of the document. All are counted from 0. `owners` are those of the row, if they
    /// were found.
    pub(crate) fn run_among(
        &self,
        owners: &Option<RowOwners>,
        scroll: usize,
        row: usize,
        column: usize,
    ) -> OwnerRun
        requires owners { KnowsRow owners.now self.now.places (scroll + row) }
        requires column { column + 1 < 2 ^ 64 }
        ensures past { column < result.end }
        ensures owner { (scene : Scene) → IsSceneOf scene self.now
            → (x : ℕ) → column ≤ x → x < result.end → result.owner ≡ hit scene scroll row x }
    {
        if !self.has_row(scroll, row) {
            return self.one_place(scroll, row, column);
        }
        match &self.places {
            Places::Plain(index) => match owners {
                Some(found) => index.run_on(found, column),
                None => self.one_place(scroll, row, column),
            },
            Places::Free(places) => {
                places.run_on(self.grid.width(), (scroll + row) as isize, column)
            }
        }
    }

    /// Returns the changed line that `row` of the screen shows, if it shows one and nothing lies over it, and
    /// how many rows of the screen from there on show it and the lines that follow, while the screen is
    /// scrolled to row `scroll` of the document. `owners` are those of the row, if they were found. Returns
    /// `None` if the screen has fewer than `columns` columns.
    pub(crate) fn lines_among(
        &self,
        owners: &Option<RowOwners>,
        scroll: usize,
        row: usize,
        columns: usize,
    ) -> Option<LineRows>
        requires { KnowsRow owners.now self.now.places (scroll + row) }
        ensures some { IfSome result (λ lines. 0 < lines.rows) }
        ensures low { IfSome result (λ lines. lines.first.line_idx + lines.rows < 2 ^ 64) }
        ensures hits { (scene : Scene) → IsSceneOf scene self.now → (lines : Lines)
            → result ≡ Some lines → (n : ℕ) → n < lines.rows → (x : ℕ) → x < columns
            → hit scene scroll (row + n) x ≡ Some (line_owner (line_below lines.first n) x) }
    {
        if self.grid.width() < columns {
            return None;
        }
        if !self.has_row(scroll, row) {
            return None;
        }
        match &self.places {
            Places::Plain(index) => match owners {
                Some(found) => first_rows(index.lines_on(found), self.grid.height() - row),
                None => None,
            },
            Places::Free(_) => None,
        }
    }

    /// Returns how many rows of the screen from `row` on have no component, while the screen is scrolled to row
    /// `scroll` of the document: all of them if the document ends above `row`, and otherwise none.
    pub(crate) fn bare_rows(&self, scroll: usize, row: usize) -> usize
        ensures { (scene : Scene) → IsSceneOf scene self.now → (n : ℕ) → n < result
            → (x : ℕ) → hit scene scroll (row + n) x ≡ None }
    {
        if !self.has_row(scroll, row) {
            return 0;
        }
        match &self.places {
            Places::Plain(index) => {
                if index.ends_above(scroll + row) {
                    self.grid.height() - row
                } else {
                    0
                }
            }
            Places::Free(_) => 0,
        }
    }

    /// Returns `scroll`, limited to the last row that the frame drew and to the maximum scroll.
    #[tactic(auto, unfolding(scm_types::specs::Limits::max_items, scm_types::specs::Limits::max_scroll))]
    pub(crate) fn limited_scroll(&self, scroll: usize) -> usize
        ensures { (scene : Scene) → IsSceneOf scene self.now
            → result ≡ limited_scroll scene scroll }
    {
        scroll.min(self.extent().saturating_sub(1).min(RecordState::MAX_SCROLL))
    }

    /// Returns the scroll that shows `key`, starting from `scroll`. If `key` wasn't drawn, keeps
    /// `scroll`.
    pub(crate) fn scroll_to_show(&self, scroll: usize, key: SelectionKey) -> usize
        ensures { (scene : Scene) → IsSceneOf scene self.now
            → result ≡ scroll_to_show scene scroll key }
    {
        scroll_to_span(self.grid.height(), scroll, key, self.span(key))
    }

    /// Returns what `scroll_to_show` returns once a plain frame of this size shows a session whose
    /// layout has the rows `rows`. No frame needs to be drawn for it.
    pub(crate) fn scroll_by_rows(&self, rows: &StateRows, scroll: usize, key: SelectionKey) -> usize
        requires rows { AreRowsOfState rows.now }
        ensures { (kind : TerminalKind) (s : Session) → HasSize kind self.now
            → is_plain self.now.grid.width (length self.now.grid.rows) s.shown.view_mode ≡ true
            → AreRowsOf rows.now s.shown → result ≡ scroll_to_show (scene_of kind s) scroll key }
    {
        scroll_to_span(self.grid.height(), scroll, key, span_of_key(rows, key))
    }

    /// Returns whether a frame of this size is plain in view mode `mode`.
    pub(crate) fn is_plain(&self, mode: CommitViewMode) -> bool
        ensures { result ≡ is_plain self.now.grid.width (length self.now.grid.rows) mode }
    {
        is_plain(self.grid.width(), self.grid.height(), mode)
    }

    /// Returns the first row of `key` in the document, if it was drawn.
    pub(crate) fn top(&self, key: SelectionKey) -> Option<usize>
        ensures { (scene : Scene) → IsSceneOf scene self.now → result ≡ top_in scene key }
    {
        self.span(key).map(|(top, _)| top)
    }

    /// Returns the height of the screen, in rows.
    pub(crate) fn height(&self) -> usize
        ensures { (scene : Scene) → IsSceneOf scene self.now → result ≡ scene.height }
    {
        self.grid.height()
    }

    /// Returns the index of the menu that was open when the frame was drawn, if any.
    pub(crate) fn open_menu(&self) -> Option<usize>
        ensures { (scene : Scene) → IsSceneOf scene self.now → result ≡ scene.open_menu }
    {
        self.open_menu
    }

    /// Returns the first row of `key` in the document and its height in rows, if it was drawn.
    fn span(&self, key: SelectionKey) -> Option<(usize, usize)>
        ensures { (scene : Scene) → IsSceneOf scene self.now → result ≡ scene.frame.span key }
    {
        match &self.places {
            Places::Plain(index) => index.span(key),
            Places::Free(places) => places
                .boxes
                .get(&ComponentId::SelectableItem(key))
                .map(|drawn| rows_of(drawn.rect)),
        }
    }

    /// Returns the height of all that was drawn, in rows.
    fn extent(&self) -> usize
        ensures { (scene : Scene) → IsSceneOf scene self.now → result ≡ scene.frame.extent }
    {
        match &self.places {
            Places::Plain(index) => index.extent(),
            Places::Free(places) => places
                .boxes
                .get(&ComponentId::App)
                .map_or(0, |drawn| drawn.rect.height),
        }
    }
}
