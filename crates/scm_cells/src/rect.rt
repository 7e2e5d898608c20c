//! Rectangles of cells. Columns (`x`) and rows (`y`) are counted from 0 and may be negative.
ghost use Rattle.std.specs.Prelude.{◌≡◌, ℤ, pos, ◌-ℤ◌, ◌≤ℤ◌, ◌<ℤ◌, ◌↔◌, IsTrue, false};
ghost use Rattle.scm_cells.specs.Rect.{RectInRange, HasPoint, IsLeastAround, intersect_of, union_of, end_x_of, end_y_of, is_empty, or_zero, rect_between};
ghost use Rattle.scm_cells.specs.declared.rect.Rect as rect;
ghost use Rattle.scm_cells.specs.declared.rect.RectSize as rect_size;

use std::ops::Range;

/// The size of a rectangle.
#[derive(Clone, Copy, Debug, Default, Eq, Hash, Ord, PartialEq, PartialOrd)]
pub struct RectSize {
    /// The number of columns of the rectangle.
    pub width: usize,
    /// The number of rows of the rectangle.
    pub height: usize,
}

/// A rectangle of cells: the columns `x..x + width` of the rows `y..y + height`.
#[derive(Clone, Copy, Debug, Default, Eq, Hash, Ord, PartialEq, PartialOrd)]
pub struct Rect {
    /// The first column of the rectangle. A negative one is left of column 0.
    pub x: isize,
    /// The first row of the rectangle. A negative one is above row 0.
    pub y: isize,
    /// The number of columns of the rectangle.
    pub width: usize,
    /// The number of rows of the rectangle.
    pub height: usize,
}

/// A rectangle on the screen, in numbers of 16 bits as terminal libraries have them.
#[derive(Clone, Copy, Debug, Eq, PartialEq)]
pub struct ScreenRect {
    /// The first column of the rectangle, counted from 0.
    pub x: u16,
    /// The first row of the rectangle, counted from 0.
    pub y: u16,
    /// The number of columns of the rectangle.
    pub width: u16,
    /// The number of rows of the rectangle.
    pub height: u16,
}

impl From<ScreenRect> for Rect {
    ghost from_gives = { λ s r.
        (r.x ≡ pos s.x) × (r.y ≡ pos s.y) × (r.width ≡ s.width) × (r.height ≡ s.height) };

    fn from(rect: ScreenRect) -> Rect {
        Rect {
            x: rect.x as isize,
            y: rect.y as isize,
            width: rect.width as usize,
            height: rect.height as usize,
        }
    }
}

impl From<Rect> for RectSize {
    ghost from_gives = { λ r s. (s.width ≡ r.width) × (s.height ≡ r.height) };

    fn from(rect: Rect) -> RectSize {
        RectSize {
            width: rect.width,
            height: rect.height,
        }
    }
}

impl From<ScreenRect> for RectSize {
    ghost from_gives = { λ r s. (s.width ≡ r.width) × (s.height ≡ r.height) };

    fn from(rect: ScreenRect) -> RectSize {
        RectSize {
            width: rect.width as usize,
            height: rect.height as usize,
        }
    }
}

/// Returns `to - from`, or 0 if that is negative.
pub fn gap(from: isize, to: isize) -> usize
    ensures { result ≡ or_zero (to -ℤ from) }
{
    if from < to { from.abs_diff(to) } else { 0 }
}

/// Returns whether `place` lies in `from..to`.
fn is_between(place: isize, from: isize, to: isize) -> bool
    ensures { IsTrue result ↔ ((from ≤ℤ place) × (place <ℤ to)) }
{
    from <= place && place < to
}

/// Returns the rectangle from `x`, `y` to the exclusive ends. A negative side becomes 0.
#[tactic(auto, unfolding(crate::specs::Rect::rect_between))]
fn rect_between(x: isize, y: isize, end_x: isize, end_y: isize) -> Rect
    ensures { result ≡ rect_between x y end_x end_y }
{
    Rect {
        x,
        y,
        width: gap(x, end_x),
        height: gap(y, end_y),
    }
}

impl Rect {
    /// Returns the first column right of the rectangle.
    pub fn end_x(self) -> isize
        requires { RectInRange self }
        ensures { result ≡ end_x_of self }
    {
        self.x + self.width as isize
    }

    /// Returns the first row below the rectangle.
    pub fn end_y(self) -> isize
        requires { RectInRange self }
        ensures { result ≡ end_y_of self }
    {
        self.y + self.height as isize
    }

    /// Returns the rows of the rectangle, `y..y + height`.
    pub fn iter_ys(self) -> Range<isize>
        requires { RectInRange self }
        ensures start { result.start ≡ self.y }
        ensures end { result.end ≡ end_y_of self }
        ensures height { result.end -ℤ result.start ≡ pos self.height }
    {
        self.y..self.end_y()
    }

    /// Returns the rectangle with the same corner and width, and a height of 1.
    pub fn top_row(self) -> Rect
        ensures { result ≡ record self { height = 1 } }
    {
        Rect { height: 1, ..self }
    }

    /// Returns whether the cell at column `x` and row `y` lies in the rectangle.
    pub fn contains_point(self, x: isize, y: isize) -> bool
        requires { RectInRange self }
        ensures { IsTrue result ↔ HasPoint self x y }
    {
        is_between(x, self.x, self.end_x()) && is_between(y, self.y, self.end_y())
    }

    /// Returns whether the rectangle has no cell.
    pub fn is_empty(self) -> bool
        ensures { result ≡ is_empty self }
    {
        self.width == 0 || self.height == 0
    }

    /// Returns the intersection with `other`. It begins at the greater `x` and the greater `y` of
    /// the two, even if it is empty.
    pub fn intersect(self, other: Rect) -> Rect
        requires left { RectInRange self }
        requires right { RectInRange other }
        ensures fields { result ≡ intersect_of self other }
        ensures in_range { RectInRange result }
        ensures points { (x y : ℤ)
            → HasPoint result x y ↔ (HasPoint self x y × HasPoint other x y) }
    {
        rect_between(
            self.x.max(other.x),
            self.y.max(other.y),
            self.end_x().min(other.end_x()),
            self.end_y().min(other.end_y()),
        )
    }

    /// Returns the least rectangle around `self` and `other`. An empty one is ignored.
    pub fn union_bounding(self, other: Rect) -> Rect
        requires left { RectInRange self }
        requires right { RectInRange other }
        ensures fields { result ≡ union_of self other }
        ensures in_range { RectInRange result }

        // If both have cells, it contains both and lies in every rectangle that does.
        ensures around { is_empty self ≡ false → is_empty other ≡ false
            → IsLeastAround self other result }
    {
        if self.is_empty() {
            other
        } else if other.is_empty() {
            self
        } else {
            rect_between(
                self.x.min(other.x),
                self.y.min(other.y),
                self.end_x().max(other.end_x()),
                self.end_y().max(other.end_y()),
            )
        }
    }
}
