//! Laws of drawing, for whoever writes or draws a component. Each law is the contract of a function
//! that does nothing. Most are for ids of one type, which the caller names.
ghost use Rattle.scm_render.specs.Hits.{IsLawful};
ghost use Rattle.scm_render.specs.Laws.{
  CallsHaveRects,
  CountsAddUp,
  DrawingStaysWithin,
  HasLastBoxes,
  PartsAreInRange,
  PicturesAreComposed,
};

use crate::target::Clickable;
use crate::trace::DrawnRects;
use std::hash::Hash;

/// Proves what the picture of several draw calls is: one after the other, under a temporary mask,
/// and in a loop.
pub fn pictures_are_composed<K>()
    ensures { PicturesAreComposed K }
{}

/// Proves that the picture of several calls is in range if and only if the picture of each call is.
/// Proves the same of a component within another component, and of a component alone.
pub fn parts_are_in_range<K>()
    ensures { PartsAreInRange K }
{}

/// Proves that the rectangle that a call draws over is in range, if the picture of the call is.
pub fn calls_have_rects<K>()
    ensures { CallsHaveRects K }
{}

/// Proves that a picture within bounds that are in range is in range. A call stays within bounds
/// that contain its place and width, visible or not.
pub fn drawing_stays_within<K>()
    ensures { DrawingStaysWithin K }
{}

/// Proves that the counts of several calls are the sum of the counts of each.
pub fn counts_add_up()
    ensures { CountsAddUp }
{}

/// Proves that the map of the boxes of a drawing has the last box of each id, if `==` is equality
/// of ids. [`find_target`](crate::find_target) finds the last clickable box under the point.
pub fn maps_have_last_boxes<K: Copy + Eq + Hash + Drop + Clickable>(boxes: &DrawnRects<K>)
    ensures { IsLawful K.eq → HasLastBoxes K.eq K.clicks boxes.now }
{}
