//! The owners of the places of one row, for which what the row has is found once.
ghost use Rattle.std.specs.Prelude.{◌≡◌, ℕ, ◌<◌, ◌≤◌, ◌^◌, IsTrue, nat_lt, if◌then◌else◌, None};
ghost use Rattle.scm_document.specs.PieceOwners.{found_owner};
ghost use Rattle.scm_view.specs.ViewState.{ViewState};
ghost use Rattle.scm_view.specs.Window.{owner};
ghost use Rattle.scm_widgets.specs.OverlayRects.{overlay_owner};
ghost use Rattle.scm_layout_index.specs.LayoutIndex.{owner_in, AreRowOwners, IsLayoutIndexOf};

use crate::layout_index::LayoutIndex;
use crate::row_pieces::end_of_files;
use crate::shown_lines::line_among;
use scm_document::index_pieces::{RowPieces, line_owner};
use scm_widgets::ids::ComponentId;

/// What a row of a frame has, for the owners of its places.
#[derive(Clone, Copy)]
pub struct RowOwners {
    /// The row of the document, counted from 0.
    pub(crate) row: usize,
    /// The file that has the row, and its section, if there is such a file.
    pub(crate) found: Option<RowPieces>,
    /// Whether something that lies over the document has the row.
    pub(crate) is_covered: bool,
}

/// Returns the owner of the place at `column` of the row of `owners` among the pieces that have the
/// row, if any. The screen has `width` columns. Most rows show a changed line, so that is looked for
/// first.
fn owner_of_found(width: usize, owners: &RowOwners, column: usize) -> Option<ComponentId>
    ensures { result ≡ found_owner width owners.now.found owners.now.row column }
{
    match &owners.found {
        None => None,
        Some(found) => match line_among(found, owners.row) {
            None => found.owner(width, owners.row, column),
            Some(key) => Some(line_owner(key, column)),
        },
    }
}

impl LayoutIndex {
    /// Finds what row `row` of the document has.
    pub fn row_owners(&self, row: usize) -> RowOwners
        ensures row { result.row ≡ row }
        ensures owners { AreRowOwners self.now result }
    {
        RowOwners {
            row,
            found: self.rows.pieces_on(self.selection, self.pinned, row),
            is_covered: self.rects.have_row(row),
        }
    }

    /// Returns whether the files, and all that lies over them, end above row `row` of the document. Then no
    /// place on that row or below it has an owner.
    pub fn ends_above(&self, row: usize) -> bool
        ensures { IsTrue result → (w h s : ℕ) (shown : ViewState)
            → IsLayoutIndexOf w h s shown self.now → (y : ℕ) → row ≤ y → y < 2 ^ 64
            → (x : ℕ) → x < w → owner w h s shown y x ≡ None }
    {
        let files = &self.rows.layout_rows().files;
        end_of_files(0, files) <= row && self.rects.are_above(row)
    }

    /// Returns the owner of the place at `column` among what lies over the document, if any.
    fn overlay_on(&self, owners: &RowOwners, column: usize) -> Option<ComponentId>
        requires { AreRowOwners self.now owners.now }
        ensures { result ≡ overlay_owner self.now.rects owners.now.row column }
    {
        if owners.is_covered {
            self.rects.owner(owners.row, column)
        } else {
            None
        }
    }

    /// Returns the owner of the place at `column` of the row of `owners`, if any.
    pub(crate) fn owner_in(&self, owners: &RowOwners, column: usize) -> Option<ComponentId>
        requires { AreRowOwners self.now owners.now }
        ensures { result ≡ owner_in self.now owners.now.row column }
    {
        if usize::from(self.width) <= column {
            return None;
        }
        let overlay = self.overlay_on(owners, column);
        match overlay {
            Some(_) => overlay,
            None => owner_of_found(usize::from(self.width), owners, column),
        }
    }

    /// Returns the component that owns the place at `column` of the screen, on the row of `owners`,
    /// if any. Columns off the screen have no owner.
    pub(crate) fn owner_on(&self, owners: &RowOwners, column: usize) -> Option<ComponentId>
        requires { AreRowOwners self.now owners.now }
        ensures { (w h s : ℕ) (shown : ViewState) → IsLayoutIndexOf w h s shown self.now →
            result ≡ (if nat_lt column w then owner w h s shown owners.now.row column else None) }
    {
        self.owner_in(owners, column)
    }
}
