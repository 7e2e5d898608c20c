//! Masks: clip rectangles that may be open to the right and below.
ghost use Rattle.std.specs.Prelude.{◌≡◌, ℤ, ◌↔◌, Some};
ghost use Rattle.scm_cells.specs.Rect.{RectInRange, HasPoint};
ghost use Rattle.scm_cells.specs.Mask.{MaskInRange, InMask, apply_of, end_of, side_or};

use crate::rect::{Rect, gap};

/// A clip rectangle of `width` columns from `x` and `height` rows from `y`. A side of `None` has no
/// end.
#[derive(Clone, Copy, Debug, Default, Eq, Hash, Ord, PartialEq, PartialOrd)]
pub struct Mask {
    /// The first column that the mask lets through.
    pub x: isize,
    /// The first row that the mask lets through.
    pub y: isize,
    /// The number of columns from `x` that the mask lets through, or `None` for all.
    pub width: Option<usize>,
    /// The number of rows from `y` that the mask lets through, or `None` for all.
    pub height: Option<usize>,
}

impl From<Rect> for Mask {
    ghost from_gives = { λ r m.
        (m.x ≡ r.x) × (m.y ≡ r.y) × (m.width ≡ Some r.width) × (m.height ≡ Some r.height) };

    fn from(rect: Rect) -> Mask {
        Mask {
            x: rect.x,
            y: rect.y,
            width: Some(rect.width),
            height: Some(rect.height),
        }
    }
}

/// Returns the length of a side of the mask that begins at `from`. An open side reaches to `end`.
fn side(side: Option<usize>, from: isize, end: isize) -> usize
    ensures { result ≡ side_or side from end }
{
    match side {
        Some(length) => length,
        None => gap(from, end),
    }
}

impl Mask {
    /// Returns the first column right of the mask, or `None` if the mask has no end there.
    pub fn end_x(self) -> Option<isize>
        requires { MaskInRange self }
        ensures { result ≡ end_of self.x self.width }
    {
        match self.width {
            Some(width) => Some(self.x.strict_add_unsigned(width)),
            None => None,
        }
    }

    /// Returns the first row below the mask, or `None` if the mask has no end there.
    pub fn end_y(self) -> Option<isize>
        requires { MaskInRange self }
        ensures { result ≡ end_of self.y self.height }
    {
        match self.height {
            Some(height) => Some(self.y.strict_add_unsigned(height)),
            None => None,
        }
    }

    /// Returns the part of `rect` that the mask lets through.
    pub fn apply(self, rect: Rect) -> Rect
        requires mask { MaskInRange self }
        requires rect { RectInRange rect }
        ensures fields { result ≡ apply_of self rect }
        ensures in_range { RectInRange result }
        ensures points { (x y : ℤ) → HasPoint result x y ↔ (InMask self x y × HasPoint rect x y) }
    {
        Rect {
            x: self.x,
            y: self.y,
            width: side(self.width, self.x, rect.end_x()),
            height: side(self.height, self.y, rect.end_y()),
        }
        .intersect(rect)
    }
}
