//! Where components are on a frame that is not plain: the box of each component, and apart from them
//! the boxes that the screen showed.
ghost use Rattle.std.specs.Prelude.{◌≡◌, ℕ, ℤ, ◌+◌, ◌<◌, ◌≤◌, ◌^◌, ◌&&◌, int_le, int_lt, nat_lt, fold, length, pos, true, if◌then◌else◌, option_map, IfErr, IfOk, OnOk, None};
ghost use Rattle.std.specs.HashMap.{IsUnique};
ghost use Rattle.std.specs.List.{filter};
ghost use Rattle.scm_errors.specs.declared.error.RecordError.TheVariants.{OutOfMemory};
ghost use Rattle.scm_render.specs.Target.{look};
ghost use Rattle.scm_widgets.specs.Clicks.{is_clickable};
ghost use Rattle.scm_widgets.specs.SameIds.{same_id};
ghost use Rattle.scm_view.specs.Frame.{Frame};
ghost use Rattle.scm_layout_index.specs.OwnerRuns.{IsRun};
ghost use Rattle.scm_record.specs.FreePlaces.{AreShown, has_row_among, holds_at, is_shown, target_in};
ghost use Rattle.scm_record.specs.Frames.{AreFreePlaces};

use scm_cells::Rect;
use scm_layout_index::OwnerRun;
use scm_layout_index::owner_runs::rect_end;
use scm_render::target::{holds, is_among, later_of};
use scm_render::{Clickable, DrawnRect, DrawnRects, find_target};
use scm_types::RecordError;
use scm_view::{ComponentId, laws};
use std::alloc::Global;

/// Where components are on a frame that is not plain, in rows of the document and columns of the
/// screen.
#[derive(Drop)]
pub(crate) struct FreePlaces {
    /// The box of each component.
    pub(crate) boxes: DrawnRects<ComponentId>,
    /// The clickable boxes that have one of the rows `first..end`, in the order of the map.
    shown: Vec<(ComponentId, DrawnRect)>,
    /// The first row that the screen showed.
    first: isize,
    /// The end of the rows that the screen showed, exclusive.
    end: isize,
}

/// Returns whether `rect` has one of the rows `first..end`.
fn has_row_among(rect: Rect, first: isize, end: isize) -> bool
    ensures { result ≡ has_row_among first end rect }
{
    let row = rect.y.max(first);
    row < end && is_among(rect.y, rect.height, row)
}

/// Returns whether the box of `entry` is clickable and has one of the rows `first..end`.
#[tactic(auto, unfolding(crate::specs::FreePlaces::is_shown))]
fn is_shown(entry: (ComponentId, DrawnRect), first: isize, end: isize) -> bool
    ensures { result ≡ is_shown first end entry }
{
    entry.0.is_clickable() && has_row_among(entry.1.rect, first, end)
}

/// Returns the clickable boxes that have one of the rows `first..end`, in the order of the map.
fn shown_boxes(
    alloc: Global,
    boxes: &DrawnRects<ComponentId>,
    first: isize,
    end: isize,
) -> Result<Vec<(ComponentId, DrawnRect)>, RecordError>
    ensures shown { IfOk result (λ shown. shown.items
        ≡ filter (is_shown first end) boxes.now.entries) }
    ensures unique { OnOk result (IsUnique same_id boxes.now) }
    ensures err { IfErr result (λ e. e ≡ OutOfMemory) }
{
    let mut shown = Vec::new(alloc);
    for (id, drawn) in boxes {
        let entry = (*id, *drawn);
        if is_shown(entry, first, end) {
            shown.push(entry)?;
        }
    }
    Ok(shown)
}

/// Returns the latest clickable box of `shown` that contains row `row` and column `column`, with its
/// id.
fn latest_shown(
    shown: &[(ComponentId, DrawnRect)],
    row: isize,
    column: isize,
) -> Option<(ComponentId, DrawnRect)>
    ensures { result ≡ fold (look is_clickable row column) None shown.now }
{
    let mut found = None;
    for entry in shown {
        if entry.0.is_clickable() && holds(entry.1.rect, row, column) {
            found = later_of(found, *entry);
        }
    }
    found
}

/// Returns the id of the latest clickable box of `shown` that contains row `row` and column
/// `column`, if any.
fn target_in(shown: &[(ComponentId, DrawnRect)], row: isize, column: isize) -> Option<ComponentId>
    ensures { result ≡ target_in shown.now row column }
{
    let (id, _) = latest_shown(shown, row, column)?;
    Some(id)
}

/// Returns the end of a run from `column` on of the columns before `end` on row `row`: all in `rect`,
/// or all beside it.
#[tactic(auto, unfolding(scm_render::specs::Hits::holds))]
fn box_end(rect: Rect, row: isize, column: usize, end: usize) -> usize
    requires column { column < end }
    requires end { end < 2 ^ 63 }
    ensures { IsRun (holds_at rect row) end column result }
{
    if is_among(rect.y, rect.height, row) {
        rect_end(rect, column, end)
    } else {
        end
    }
}

/// Returns the end of a run from `column` on of the columns before `end` on row `row` that have the
/// same target among the boxes of `shown`.
fn shown_end(shown: &[(ComponentId, DrawnRect)], row: isize, column: usize, end: usize) -> usize
    requires column { column < end }
    requires end { end < 2 ^ 63 }
    ensures { IsRun (λ x. target_in shown.now row (pos x)) end column result }
{
    let mut left = end;
    for entry in shown {
        left = box_end(entry.1.rect, row, column, left);
    }
    left
}

/// Returns the target at row `row` and column `column` among the boxes of `shown`, and the end of a
/// run of columns from there on that have the same target. The screen has `width` columns.
fn shown_run(
    shown: &[(ComponentId, DrawnRect)],
    width: usize,
    row: isize,
    column: usize,
) -> OwnerRun
    requires column { column < width }
    requires width { width < 2 ^ 63 }
    ensures past { column < result.end }
    ensures most { result.end ≤ width }
    ensures owner { (x : ℕ) → column ≤ x → x < result.end
        → result.owner ≡ target_in shown.now row (pos x) }
{
    OwnerRun {
        owner: target_in(shown, row, column as isize),
        end: shown_end(shown, row, column, width),
    }
}

impl FreePlaces {
    /// Creates the places of the components with the boxes `boxes`, on a screen that shows the rows
    /// `first..end` of the document.
    pub(crate) fn new(
        alloc: Global,
        boxes: DrawnRects<ComponentId>,
        first: isize,
        end: isize,
    ) -> Result<FreePlaces, RecordError>
        ensures boxes { IfOk result (λ places. places.boxes ≡ boxes) }
        ensures shown { IfOk result (λ places. AreShown places) }
        ensures err { IfErr result (λ e. e ≡ OutOfMemory) }
    {
        let shown = shown_boxes(alloc, &boxes, first, end)?;
        Ok(FreePlaces {
            boxes,
            shown,
            first,
            end,
        })
    }

    /// Creates the places of a frame without components.
    pub(crate) fn empty(alloc: Global) -> FreePlaces {
        FreePlaces {
            boxes: DrawnRects::new(alloc),
            shown: Vec::new(alloc),
            first: 0,
            end: 0,
        }
    }

    /// Returns whether the screen showed row `row` of the document.
    fn has_row(&self, row: isize) -> bool
        ensures { result ≡ (int_le self.now.first row && int_lt row self.now.end) }
    {
        self.first <= row && row < self.end
    }

    /// Returns the owner of row `row` of the document and column `column` of the screen, both counted
    /// from 0.
    pub(crate) fn owner(&self, row: isize, column: isize) -> Option<ComponentId>
        ensures { (w y x : ℕ) (frame : Frame) → AreFreePlaces w frame self.now → x < w
            → row ≡ pos y → column ≡ pos x → result ≡ frame.owner y x }
    {
        laws::ids_are_told_apart();
        if self.has_row(row) {
            target_in(&self.shown, row, column)
        } else {
            find_target(&self.boxes, row, column)
        }
    }

    /// Returns the owner of row `row` of the document and column `column` of the screen, and the end of
    /// a run of columns from there on that have the same owner. Both are counted from 0. On a row that
    /// the screen did not show, the run is that column alone.
    pub(crate) fn run_on(&self, width: usize, row: isize, column: usize) -> OwnerRun
        requires width { width < 2 ^ 63 }
        requires column { column + 1 < 2 ^ 64 }
        ensures past { column < result.end }
        ensures owner { (y : ℕ) (frame : Frame) → AreFreePlaces width frame self.now → row ≡ pos y
            → (x : ℕ) → column ≤ x → x < result.end
            → result.owner ≡ (if nat_lt x width then frame.owner y x else None) }
    {
        if width <= column {
            return OwnerRun {
                owner: None,
                end: column + 1,
            };
        }
        laws::ids_are_told_apart();
        if self.has_row(row) {
            return shown_run(&self.shown, width, row, column);
        }
        OwnerRun {
            owner: find_target(&self.boxes, row, column as isize),
            end: column + 1,
        }
    }
}
