//! The changed lines that rows of a frame show one below the other.
ghost use Rattle.std.specs.Prelude.{◌≡◌, ℕ, ◌+◌, ◌<◌, ◌^◌, IfSome, Some, option_map};
ghost use Rattle.scm_layout_index.specs.declared.line_rows.LineRows.{LineRows as Rows};
ghost use Rattle.scm_document.specs.PieceOwners.{line_owner};
ghost use Rattle.scm_view.specs.ViewState.{ViewState};
ghost use Rattle.scm_view.specs.Window.{owner};
ghost use Rattle.scm_layout_index.specs.LayoutIndex.{AreRowOwners, IsLayoutIndexOf};
ghost use Rattle.scm_layout_index.specs.ShownLines.{line_in};
ghost use Rattle.scm_layout_index.specs.LineRows.{end_of_pieces, end_of_section, line_below};

use crate::layout_index::LayoutIndex;
use crate::row_owners::RowOwners;
use scm_document::index_pieces::RowPieces;
use scm_types::LineKey;

/// Rows of a document that show changed lines of a section, one below the other.
#[derive(Clone, Copy, Debug, PartialEq, Eq)]
pub struct LineRows {
    /// The line on the first of the rows.
    pub first: LineKey,
    /// The number of rows.
    pub rows: usize,
}

/// Returns the end of the rows of the section among the pieces `found`, or 0 if they have none.
fn end_of_section(found: &RowPieces) -> usize
    ensures { result ≡ end_of_section found.now }
{
    match &found.section {
        None => 0,
        Some(section) => section.end.min(found.file.end),
    }
}

/// Returns the end of the rows of the section among the pieces `found`, or 0 if they have none.
fn end_of_pieces(found: &Option<RowPieces>) -> usize
    ensures { result ≡ end_of_pieces found.now }
{
    match found {
        None => 0,
        Some(found) => end_of_section(found),
    }
}

impl LayoutIndex {
    /// Returns the changed line that the row of `owners` shows, if nothing lies over the row, and how many
    /// rows from there on show it and the lines that follow in the section. Columns 4 to 6 of each of these
    /// rows belong to the checkbox of its line, and all others to the line.
    pub fn lines_on(&self, owners: &RowOwners) -> Option<LineRows>
        requires { AreRowOwners self.now owners.now }
        ensures line { option_map (λ (lines : Rows). lines.first) result ≡ line_in self.now owners.now.row }
        ensures some { IfSome result (λ lines. 0 < lines.rows) }
        ensures low { IfSome result (λ lines. lines.first.line_idx + lines.rows < 2 ^ 63) }
        ensures owner { (w h s : ℕ) (shown : ViewState) → IsLayoutIndexOf w h s shown self.now →
            (lines : Rows) → result ≡ Some lines → (n : ℕ) → n < lines.rows → (x : ℕ) → x < w →
            owner w h s shown (owners.now.row + n) x
            ≡ Some (line_owner (line_below lines.first n) x) }
    {
        let _rows = self.rows.layout_rows();
        let first = owners.line()?;
        let last = end_of_pieces(&owners.found);
        let end = self.rects.rows_end(owners.row, last);
        Some(LineRows {
            first,
            rows: end - owners.row,
        })
    }
}
