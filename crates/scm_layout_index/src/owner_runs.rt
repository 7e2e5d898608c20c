//! Runs of columns of a row that have the same owner, so that it is asked for once.
ghost use Rattle.std.specs.Prelude.{◌≡◌, ℕ, ◌+◌, ◌<◌, ◌≤◌, ◌^◌, nat_le, nat_lt, if◌then◌else◌, None, Some};
ghost use Rattle.scm_document.specs.PieceOwners.{box_owner, found_owner, section_owner};
ghost use Rattle.scm_types.specs.declared.keys.SelectionKey.{SelectionKey};
ghost use Rattle.scm_view.specs.ViewState.{ViewState};
ghost use Rattle.scm_view.specs.Window.{owner};
ghost use Rattle.scm_widgets.specs.Layers.{is_within};
ghost use Rattle.scm_layout_index.specs.LayoutIndex.{owner_in, AreRowOwners, IsLayoutIndexOf};
ghost use Rattle.scm_layout_index.specs.OwnerRuns.{IsRun, end_before};

use crate::layout_index::LayoutIndex;
use crate::row_owners::RowOwners;
use scm_cells::{Rect, gap};
use scm_document::index_pieces::SectionPiece;
use scm_rows::RowKind;
use scm_widgets::ids::ComponentId;

/// A run of columns of a row that have the same owner.
#[derive(Clone, Copy)]
pub struct OwnerRun {
    /// The component that owns the columns, if any.
    pub owner: Option<ComponentId>,
    /// The end of the columns, exclusive.
    pub end: usize,
}

/// Returns `stop` if it lies after `column` and before `end`, and otherwise `end`.
fn end_before(column: usize, stop: usize, end: usize) -> usize
    ensures { result ≡ end_before column stop end }
{
    if column < stop && stop < end {
        stop
    } else {
        end
    }
}

/// Returns the end of a run from `column` on of the columns of a heading, whose checkbox has the
/// columns `first..first + 3` of `width`.
fn heading_end(width: usize, first: usize, column: usize) -> usize
    requires column { column < width }
    requires first { first ≤ 2 }
    ensures boxes { (key : SelectionKey) → IsRun (box_owner width first key) width column result }
    ensures first { IsRun (nat_le first) width column result }
{
    let fold = end_before(column, width.saturating_sub(3), width);
    let after = end_before(column, first + 3, fold);
    end_before(column, first, after)
}

/// Returns the end of a run from `column` on of the columns of row `row` of `section`, counted from
/// 0. The screen has `width` columns.
fn section_end(width: usize, section: &SectionPiece, row: usize, column: usize) -> usize
    requires { column < width }
    ensures { IsRun (section_owner width section.now row) width column result }
{
    match section.kind_on(row) {
        RowKind::Header => heading_end(width, 2, column),
        RowKind::Line(_) => end_before(column, 4, end_before(column, 7, width)),
        RowKind::Mark => end_before(column, 2, end_before(column, 5, width)),
        RowKind::Context(_) => width,
        RowKind::Blank => end_before(column, 2, width),
    }
}

/// Returns the end of a run from `column` on of the columns of the row of `owners`, among the pieces
/// that have the row, if any. The screen has `width` columns.
fn found_end(width: usize, owners: &RowOwners, column: usize) -> usize
    requires { column < width }
    ensures { IsRun (found_owner width owners.now.found owners.now.row) width column result }
{
    let row = owners.row;
    match &owners.found {
        None => width,
        Some(found) => {
            if row == found.file.top {
                return heading_end(width, 0, column);
            }
            match &found.section {
                None => width,
                Some(section) => section_end(
                    width,
                    section,
                    row.saturating_sub(section.top),
                    column,
                ),
            }
        }
    }
}

/// Returns the end of a run from `place` on of the places before `end`: all in `first..first + size`, or all
/// beside it.
pub(crate) fn stretch_end(first: isize, size: usize, place: usize, end: usize) -> usize
    requires place { place < end }
    requires end { end < 2 ^ 63 }
    ensures { IsRun (is_within first size) end place result }
{
    let start = gap(0, first);
    let left = size.saturating_sub(gap(first, 0));
    end_before(
        place,
        start,
        end_before(place, start.saturating_add(left), end),
    )
}

/// Returns the end of a run from `column` on of the columns before `end`: all in `rect`, or all beside
/// it.
pub fn rect_end(rect: Rect, column: usize, end: usize) -> usize
    requires column { column < end }
    requires end { end < 2 ^ 63 }
    ensures { IsRun (is_within rect.x rect.width) end column result }
{
    stretch_end(rect.x, rect.width, column, end)
}

impl LayoutIndex {
    /// Returns the end of a run from `column` on of the columns of the row of `owners`.
    fn run_end(&self, owners: &RowOwners, column: usize) -> usize
        requires owners { AreRowOwners self.now owners.now }
        requires column { column < self.now.width }
        ensures { IsRun (owner_in self.now owners.now.row) self.now.width column result }
    {
        let end = found_end(usize::from(self.width), owners, column);
        if owners.is_covered {
            self.rects.columns_end(owners.row, column, end)
        } else {
            end
        }
    }

    /// Returns the owner of the place at `column` of the row of `owners`, and the end of a run of
    /// columns from there on that have the same owner.
    pub fn run_on(&self, owners: &RowOwners, column: usize) -> OwnerRun
        requires owners { AreRowOwners self.now owners.now }
        requires column { column + 1 < 2 ^ 64 }
        ensures past { column < result.end }
        ensures owner { (w h s : ℕ) (shown : ViewState) → IsLayoutIndexOf w h s shown self.now →
            (x : ℕ) → column ≤ x → x < result.end →
            result.owner ≡ (if nat_lt x w then owner w h s shown owners.now.row x else None) }
    {
        if usize::from(self.width) <= column {
            return OwnerRun {
                owner: None,
                end: column + 1,
            };
        }
        OwnerRun {
            owner: self.owner_in(owners, column),
            end: self.run_end(owners, column),
        }
    }
}
