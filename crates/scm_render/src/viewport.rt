//! A part of a document on a grid.
ghost use Rattle.std.specs.Prelude.{◌≡◌, ◌<◌, ◌≤◌, OnOk, IfOk, IfErr, IfSome, length, set, [], ◌∷◌, Option, None, Some, option_map, pos};
ghost use Rattle.scm_cells.specs.Rect.{RectInRange};
ghost use Rattle.scm_cells.specs.Mask.{MaskInRange};
ghost use Rattle.scm_cells.specs.Counts.{added, one_row};
ghost use Rattle.scm_render.specs.Around.{join, no_rect};
ghost use Rattle.scm_render.specs.Picture.{PictureInRange, part, box_rect, covering};
ghost use Rattle.scm_render.specs.Canvas.{kept, kept_area, paint_rows, with_mask, with_picture, MaskIsInRange};
ghost use Rattle.scm_render.specs.Kept.{kept_items};
ghost use Rattle.scm_render.specs.ToDraw.{end_to_draw, first_to_draw, rows_above};
ghost use Rattle.std.specs.Option.{is_some};
ghost use Rattle.scm_render.specs.Drawing.{mask_or, reach};
ghost use Rattle.scm_render.specs.Places.{screen_part, with_times, screen_rect, whole_sight};
ghost use Rattle.std.specs.HashMap.{IsFromIterResult};
ghost use Rattle.scm_errors.specs.declared.error.RecordError.TheVariants.{OutOfMemory};
ghost use Rattle.scm_render.specs.Draws.{CanDraw, HasDrawn};
ghost use Rattle.scm_render.specs.DrawCalls.{part_call};

use crate::component::Component;
use crate::surface::Surface;
use crate::trace::{DrawnRect, DrawnRects};
use scm_cells::{Grid, Mask, Rect, ScreenRect, gap};
use scm_errors::RecordError;
use std::alloc::{AllocError, Global};
use std::hash::Hash;
use std::marker::Model;
use std::mem;

/// Returns the least rectangle around `area` and `rect`, or `area` if `rect` is empty.
#[tactic(auto, unfolding(crate::specs::Around::join))]
pub(crate) fn grown(area: Rect, rect: Rect) -> Rect
    requires area { RectInRange area }
    requires rect { RectInRange rect }
    ensures { result ≡ join area rect }
{
    if rect.is_empty() {
        area
    } else {
        area.union_bounding(rect)
    }
}

/// Returns the least rectangle around `area` and `rect`, if `boxes` are kept, and else `area`.
pub(crate) fn grown_in<K: Copy + Eq + Hash + Drop>(
    boxes: &Option<Vec<(K, Rect)>>,
    area: Rect,
    rect: Rect,
) -> Rect
    requires area { RectInRange area }
    requires rect { RectInRange rect }
    ensures { result ≡ kept_area (kept_items boxes.now) area (rect ∷ []) }
{
    match boxes {
        Some(_) => grown(area, rect),
        None => area,
    }
}

/// Returns how many of the `count` rows from row `y` on lie above row `row`.
fn rows_above(y: isize, row: isize, count: usize) -> usize
    ensures { result ≡ rows_above y row count }
{
    gap(y, row).min(count)
}

/// Returns the part of `rect` that `mask` lets through, or `rect` if there is no mask.
#[tactic(auto, unfolding(crate::specs::Drawing::reach))]
fn reach(mask: Option<Mask>, rect: Rect) -> Rect
    requires mask { MaskIsInRange mask }
    requires rect { RectInRange rect }
    ensures value { result ≡ reach (record { rect = rect; mask = mask }) }
    ensures in_range { RectInRange result }
{
    let clip = match mask {
        Some(set) => set,
        None => Mask::from(rect),
    };
    clip.apply(rect)
}

/// A part of a document on a grid. Drawing outside that part, or outside the mask if one is set, is
/// invisible. It still counts for the boxes of components. The grid counts rows that are begun and
/// draw calls, visible or not.
#[derive(Drop)]
pub struct Viewport<K> {
    alloc: Global,

    /// The grid with the part of the document that it shows.
    pub(crate) surface: Surface,

    /// The mask, if one is set.
    mask: Option<Mask>,

    /// The part of the document on the grid that the mask lets through.
    within: Rect,

    /// The least rectangle around all that the current component drew so far, if boxes are kept.
    pub(crate) area: Rect,

    /// The boxes of the components that have begun, in order. `None` if no boxes are kept.
    pub(crate) boxes: Option<Vec<(K, Rect)>>,

    /// A buffer for rows.
    pub(crate) scratch: String,
}

impl<K> Model for Viewport<K> {
    ghost use Rattle.scm_render.specs.Canvas.{ViewportState};
    ghost use Rattle.scm_render.specs.Kept.{kept_items};

    ghost Value = { ViewportState K };

    ghost view = { λ v. record {
      canvas = record {
        sight = record { rect = v.surface.rect; mask = v.mask };
        rows = v.surface.rows;
        area = v.area;
        boxes = kept_items v.boxes;
      };
      counts = v.surface.counts;
    } };

    ghost use Rattle.std.specs.Prelude.{◌≡◌};
    ghost use Rattle.scm_cells.specs.Rect.{RectInRange};
    ghost use Rattle.scm_render.specs.Canvas.{MaskIsInRange};
    ghost use Rattle.scm_render.specs.Drawing.{reach};

    ghost invariant = { λ v. record {
      mask : MaskIsInRange v.mask;
      area : RectInRange v.area;
      within : v.within ≡ reach (record { rect = v.surface.rect; mask = v.mask });
      in_range : RectInRange v.within;
    } };
}

impl<K: Copy + Eq + Hash + Drop> Viewport<K> {
    /// Returns a viewport without a mask, which keeps the boxes of components. It shows the part
    /// `rect` of the document on `grid`, which has the size of `rect`.
    pub fn new(alloc: Global, grid: Grid, rect: Rect) -> Viewport<K>
        requires rect { RectInRange rect }
        requires width { grid.width ≡ rect.width }
        requires height { length grid.rows ≡ rect.height }
        ensures canvas { result.canvas ≡ record {
          sight = record { rect = rect; mask = None };
          rows = grid.rows;
          area = no_rect;
          boxes = Some [];
        } }
        ensures counts { result.counts ≡ grid.counts }
    {
        Viewport::with_boxes(alloc, grid, rect, empty_boxes(alloc))
    }

    /// Returns a viewport like [`Viewport::new`], which keeps no boxes.
    pub fn for_painting(alloc: Global, grid: Grid, rect: Rect) -> Viewport<K>
        requires rect { RectInRange rect }
        requires width { grid.width ≡ rect.width }
        requires height { length grid.rows ≡ rect.height }
        ensures canvas { result.canvas ≡ record {
          sight = record { rect = rect; mask = None };
          rows = grid.rows;
          area = no_rect;
          boxes = None;
        } }
        ensures counts { result.counts ≡ grid.counts }
    {
        Viewport::with_boxes(alloc, grid, rect, None)
    }

    /// Returns a viewport without a mask, with the boxes `boxes`, if they are kept.
    fn with_boxes(
        alloc: Global,
        grid: Grid,
        rect: Rect,
        boxes: Option<Vec<(K, Rect)>>,
    ) -> Viewport<K>
        requires rect { RectInRange rect }
        requires width { grid.width ≡ rect.width }
        requires height { length grid.rows ≡ rect.height }
        ensures canvas { result.canvas ≡ record {
          sight = record { rect = rect; mask = None };
          rows = grid.rows;
          area = no_rect;
          boxes = kept_items boxes;
        } }
        ensures counts { result.counts ≡ grid.counts }
    {
        Viewport {
            alloc,
            surface: Surface::new(grid, rect),
            mask: None,
            within: reach(None, rect),
            area: Rect::default(),
            boxes,
            scratch: String::new(alloc),
        }
    }

    /// Returns the grid of the viewport, with what was drawn.
    pub fn into_grid(self) -> Grid
        ensures width { result.width ≡ self.canvas.sight.rect.width }
        ensures height { length result.rows ≡ self.canvas.sight.rect.height }
        ensures rows { result.rows ≡ self.canvas.rows }
        ensures counts { result.counts ≡ self.counts }
    {
        let Viewport { surface, .. } = self;
        surface.into_grid()
    }

    /// Returns the part of the document on the screen.
    pub fn rect(&self) -> Rect
        ensures value { result ≡ self.now.canvas.sight.rect }
        ensures in_range { RectInRange result }
        ensures rows { length self.now.canvas.rows ≡ result.height }
    {
        self.surface.rect()
    }

    /// Returns the mask of the viewport, or that of its whole rectangle if none is set.
    pub fn mask(&self) -> Mask
        ensures value { result ≡ mask_or self.now.canvas.sight.mask self.now.canvas.sight.rect }
        ensures in_range { MaskInRange result }
    {
        match self.mask {
            Some(mask) => mask,
            None => Mask::from(self.surface.rect()),
        }
    }

    /// Returns the part of the viewport's rectangle that the mask lets through.
    pub fn mask_rect(&self) -> Rect
        ensures value { result ≡ reach self.now.canvas.sight }
        ensures in_range { RectInRange result }
    {
        self.within
    }

    /// Sets the mask of the viewport to `mask`, or removes it. Returns the previous mask.
    pub fn swap_mask(&mut self, mask: Option<Mask>) -> Option<Mask>
        requires { MaskIsInRange mask }
        ensures old { result ≡ self.old.canvas.sight.mask }
        ensures new { self.new.canvas ≡ with_mask mask self.old.canvas }
        ensures counts { self.new.counts ≡ self.old.counts }
        ensures in_range { MaskIsInRange result }
    {
        self.within = reach(mask, self.surface.rect());
        mem::replace(&mut self.mask, mask)
    }

    /// Returns the part of `rect` that is on the screen, in columns and rows of the screen. Returns
    /// `None` if no cell of `rect` is there.
    #[tactic(auto, unfolding(crate::specs::Places::screen_part))]
    pub fn translate_rect(&self, rect: Rect) -> Option<ScreenRect>
        requires { RectInRange rect }
        ensures { result ≡ screen_part self.now.canvas.sight.rect rect }
    {
        let screen = self.surface.rect();
        let part = screen.intersect(rect);
        if part.is_empty() {
            None
        } else {
            Some(ScreenRect {
                x: screen.x.abs_diff(part.x) as u16,
                y: screen.y.abs_diff(part.y) as u16,
                width: part.width as u16,
                height: part.height as u16,
            })
        }
    }

    /// Grows the box of the current component to contain `rect`. Returns `rect`. Leaves the grid
    /// unchanged.
    pub fn cover(&mut self, rect: Rect) -> Rect
        requires { RectInRange rect }
        ensures new { self.new.canvas ≡ with_picture self.old.canvas (covering rect) }
        ensures counts { self.new.counts ≡ self.old.counts }
        ensures rect { result ≡ rect }
    {
        self.area = grown_in(&self.boxes, self.area, rect);
        rect
    }

    /// Returns how many boxes of components are kept, or `None` if no boxes are kept.
    fn count_boxes(&self) -> Option<usize>
        ensures { result ≡ option_map length self.now.canvas.boxes }
    {
        count_boxes(&self.boxes)
    }

    /// Returns whether the boxes of components are kept.
    pub fn keeps_boxes(&self) -> bool
        ensures { result ≡ is_some self.now.canvas.boxes }
    {
        self.count_boxes().is_some()
    }

    /// Returns the rows that drawing has to go through, of the `count` rows from row `y` on: their
    /// start and end (exclusive), counted from 0 at row `y`. Where boxes are kept, these are all
    /// rows, and else those on the screen.
    pub fn rows_to_draw(&self, y: isize, count: usize) -> (usize, usize)
        ensures first { result.0 ≡ first_to_draw self.now.canvas y count }
        ensures end { result.1 ≡ end_to_draw self.now.canvas y count }
        ensures in_order { result.0 ≤ result.1 }
        ensures within { result.1 ≤ count }
        ensures rows { length self.now.canvas.rows ≡ self.now.canvas.sight.rect.height }
    {
        let screen = self.rect();
        if self.keeps_boxes() {
            (0, count)
        } else {
            (
                rows_above(y, screen.y, count),
                rows_above(y, screen.end_y(), count),
            )
        }
    }

    /// Counts one row of the document as drawn.
    pub fn begin_row(&mut self)
        ensures canvas { self.new.canvas ≡ self.old.canvas }
        ensures counts { self.new.counts ≡ added self.old.counts one_row }
    {
        self.surface.add_row();
    }

    /// Adds the box of a component with the id `id` that covers the rectangle `covered`, without
    /// drawing, if boxes are kept. Grows the box of the current component to contain it. If
    /// `covered` is empty, the new box is a rectangle of zeros.
    ///
    /// # Errors
    /// `OutOfMemory`: an allocation failed.
    pub fn note_box(&mut self, id: K, covered: Rect) -> Result<(), RecordError>
        requires { RectInRange covered }
        ensures ok { OnOk result (
            self.new.canvas ≡ with_picture self.old.canvas (part id (covering covered))) }
        ensures counts { self.new.counts ≡ self.old.counts }
        ensures rect { self.new.canvas.sight.rect ≡ self.old.canvas.sight.rect }
        ensures err { IfErr result (λ e. e ≡ OutOfMemory) }
    {
        let own = grown(Rect::default(), covered);
        let area = grown_in(&self.boxes, self.area, covered);
        push_box(&mut self.boxes, id, own)?;
        self.area = area;
        Ok(())
    }

    /// Draws `component` at column `x` and row `y`, within the current component. Returns its box:
    /// the least rectangle around all that it and its parts drew or covered.
    ///
    /// # Errors
    /// `OutOfMemory`: an allocation failed; the frame is incomplete.
    pub fn draw_component<C: Component<Id = K>>(
        &mut self,
        x: isize,
        y: isize,
        component: &C,
    ) -> Result<Rect, RecordError>
        requires { CanDraw self.old (part_call (C.key component.now) (C.picture component.now)
            (C.rows component.now) (C.calls component.now) x y) }
        ensures draws { HasDrawn self.old self.new result (part_call (C.key component.now)
            (C.picture component.now) (C.rows component.now) (C.calls component.now) x y) }
        ensures drawn { IfOk result (λ r.
            r ≡ box_rect (C.picture component.now self.old.canvas.sight x y)) }
    {
        match self.count_boxes() {
            Some(place) => self.draw_at(place, x, y, component),
            None => self.draw_measured(x, y, component),
        }
    }

    /// Draws `component` like `draw_component`, in a viewport that keeps boxes. `place` is the
    /// index of the component's box.
    fn draw_at<C: Component<Id = K>>(
        &mut self,
        place: usize,
        x: isize,
        y: isize,
        component: &C,
    ) -> Result<Rect, RecordError>
        requires place { Some place ≡ option_map length self.old.canvas.boxes }
        requires picture { CanDraw self.old (part_call (C.key component.now)
            (C.picture component.now) (C.rows component.now) (C.calls component.now) x y) }
        ensures draws { HasDrawn self.old self.new result (part_call (C.key component.now)
            (C.picture component.now) (C.rows component.now) (C.calls component.now) x y) }
        ensures drawn { IfOk result (λ r.
            r ≡ box_rect (C.picture component.now self.old.canvas.sight x y)) }
    {
        let id = component.id();
        push_box(&mut self.boxes, id, Rect::default())?;
        let outer = self.area;
        self.area = Rect::default();
        component.draw(self.alloc, self, x, y)?;
        let rect = self.area;
        set_box(&mut self.boxes, place, id, rect);
        self.area = grown(outer, rect);
        Ok(rect)
    }

    /// Draws `component` like `draw_component`, in a viewport that keeps no boxes. Keeps them while
    /// the component is drawn, for its own box.
    fn draw_measured<C: Component<Id = K>>(
        &mut self,
        x: isize,
        y: isize,
        component: &C,
    ) -> Result<Rect, RecordError>
        requires boxes { self.old.canvas.boxes ≡ None }
        requires picture { CanDraw self.old (part_call (C.key component.now)
            (C.picture component.now) (C.rows component.now) (C.calls component.now) x y) }
        ensures draws { HasDrawn self.old self.new result (part_call (C.key component.now)
            (C.picture component.now) (C.rows component.now) (C.calls component.now) x y) }
        ensures drawn { IfOk result (λ r.
            r ≡ box_rect (C.picture component.now self.old.canvas.sight x y)) }
    {
        let outer = self.area;
        self.area = Rect::default();
        let none = mem::replace(&mut self.boxes, empty_boxes(self.alloc));
        component.draw(self.alloc, self, x, y)?;
        let rect = self.area;
        self.area = outer;
        let _measured = mem::replace(&mut self.boxes, none);
        Ok(rect)
    }

    /// Draws `component` at column `x` and row `y`, within the current component. Where no boxes
    /// are kept, it may pass over rows off the screen.
    ///
    /// # Errors
    /// `OutOfMemory`: an allocation failed; the frame is incomplete.
    pub fn draw_part<C: Component<Id = K>>(
        &mut self,
        x: isize,
        y: isize,
        component: &C,
    ) -> Result<(), RecordError>
        requires { CanDraw self.old (part_call (C.key component.now) (C.picture component.now)
            (C.rows component.now) (C.calls component.now) x y) }
        ensures { HasDrawn self.old self.new result (part_call (C.key component.now)
            (C.picture component.now) (C.rows component.now) (C.calls component.now) x y) }
    {
        if self.keeps_boxes() {
            self.draw_component(x, y, component)?;
            Ok(())
        } else {
            component.draw(self.alloc, self, x, y)
        }
    }

    /// Draws `component` at column 0 and row 0 of the document. `grid` shows the document from
    /// column `x` and row `y`, and keeps the symbols that nothing is drawn over. Returns the boxes
    /// of all components.
    ///
    /// # Errors
    /// `OutOfMemory`: an allocation failed; the grid has the same size.
    pub fn render_top_level<C: Component<Id = K>>(
        alloc: Global,
        grid: &mut Grid,
        x: isize,
        y: isize,
        component: &C,
    ) -> Result<DrawnRects<K>, RecordError>
        requires place { RectInRange (screen_rect grid.old x y) }
        requires picture { PictureInRange (part (C.key component.now)
            (C.picture component.now (whole_sight grid.old x y) (pos 0) (pos 0))) }
        ensures rows { OnOk result (grid.new.rows ≡ paint_rows (screen_rect grid.old x y)
            (C.picture component.now (whole_sight grid.old x y) (pos 0) (pos 0)).puts
            y grid.old.rows) }
        ensures boxes { IfOk result (IsFromIterResult K.eq (with_times (part (C.key component.now)
            (C.picture component.now (whole_sight grid.old x y) (pos 0) (pos 0))).boxes)) }
        ensures counts { OnOk result (grid.new.counts ≡ added grid.old.counts (record {
          rows = C.rows component.now (whole_sight grid.old x y) (pos 0) (pos 0);
          calls = C.calls component.now (whole_sight grid.old x y) (pos 0) (pos 0);
        })) }
        ensures width { grid.new.width ≡ grid.old.width }
        ensures height { length grid.new.rows ≡ length grid.old.rows }
        ensures err { IfErr result (λ e. e ≡ OutOfMemory) }
    {
        let rect = Rect {
            x,
            y,
            width: grid.width(),
            height: grid.height(),
        };
        let empty = Grid::new(alloc, 0, 0)?;
        let mut viewport = Viewport::new(alloc, mem::replace(grid, empty), rect);
        let outcome = viewport.draw_component(0, 0, component);
        let (drawn, boxes) = viewport.into_parts();
        *grid = drawn;
        outcome?;
        let timed = time_boxes(alloc, kept_slice(&boxes))?;
        let rects = by_id(alloc, timed)?;
        Ok(rects)
    }

    /// Returns the grid and the boxes, if boxes are kept.
    fn into_parts(self) -> (Grid, Option<Vec<(K, Rect)>>)
        ensures width { result.0.width ≡ self.canvas.sight.rect.width }
        ensures height { length result.0.rows ≡ self.canvas.sight.rect.height }
        ensures rows { result.0.rows ≡ self.canvas.rows }
        ensures counts { result.0.counts ≡ self.counts }
        ensures boxes { kept_items result.1 ≡ self.canvas.boxes }
    {
        (self.surface.into_grid(), self.boxes)
    }
}

/// Returns a list for boxes, which is empty.
fn empty_boxes<K: Copy + Eq + Hash + Drop>(alloc: Global) -> Option<Vec<(K, Rect)>>
    ensures { kept_items result ≡ Some [] }
{
    Some(Vec::new(alloc))
}

/// Returns how many boxes are kept, or `None` if no boxes are kept.
fn count_boxes<K: Copy + Eq + Hash + Drop>(boxes: &Option<Vec<(K, Rect)>>) -> Option<usize>
    ensures { result ≡ option_map length (kept_items boxes.now) }
{
    match boxes {
        Some(kept) => Some(kept.len()),
        None => None,
    }
}

/// If boxes are kept, adds the box `rect` of component `id`.
fn push_box<K: Copy + Eq + Hash + Drop>(
    boxes: &mut Option<Vec<(K, Rect)>>,
    id: K,
    rect: Rect,
) -> Result<(), AllocError>
    ensures ok { OnOk result
        (kept_items boxes.new ≡ kept (kept_items boxes.old) ((id, rect) ∷ [])) }
{
    match boxes {
        Some(kept) => {
            kept.push((id, rect))?;
            Ok(())
        }
        None => Ok(()),
    }
}

/// If boxes are kept, sets the one at index `place` to the box `rect` of component `id`.
fn set_box<K: Copy + Eq + Hash + Drop>(
    boxes: &mut Option<Vec<(K, Rect)>>,
    place: usize,
    id: K,
    rect: Rect,
)
    requires { IfSome (kept_items boxes.old) (λ kept. place < length kept) }
    ensures { kept_items boxes.new
        ≡ option_map (λ kept. set kept place (id, rect)) (kept_items boxes.old) }
{
    match boxes {
        Some(kept) => kept[place] = (id, rect),
        None => {}
    }
}

/// Returns the boxes, or none if boxes are not kept.
fn kept_slice<K: Copy + Eq + Hash + Drop>(boxes: &Option<Vec<(K, Rect)>>) -> &[(K, Rect)]
    ensures { IfSome (kept_items boxes.now) (λ kept. result.now ≡ kept) }
{
    match boxes {
        Some(kept) => kept.as_slice(),
        None => &[],
    }
}

/// Returns each box with its timestamp, which is its index.
fn time_boxes<K: Copy + Eq + Hash + Drop>(
    alloc: Global,
    boxes: &[(K, Rect)],
) -> Result<Vec<(K, DrawnRect)>, AllocError>
    ensures { IfOk result (λ rects. rects.items ≡ with_times boxes.now) }
{
    let mut rects = Vec::new(alloc);
    for (timestamp, (id, rect)) in boxes.iter().enumerate() {
        let drawn = DrawnRect {
            rect: *rect,
            timestamp,
        };
        rects.push((*id, drawn))?;
    }
    Ok(rects)
}

/// Returns the boxes by id. A later box replaces an earlier one of the same id.
fn by_id<K: Copy + Eq + Hash + Drop>(
    alloc: Global,
    boxes: Vec<(K, DrawnRect)>,
) -> Result<DrawnRects<K>, AllocError>
    ensures { IfOk result (IsFromIterResult K.eq boxes.items) }
{
    boxes.into_iter().collect(alloc)
}
