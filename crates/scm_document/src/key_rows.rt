//! The rows of a key among the pieces of an index.
ghost use Rattle.std.specs.Prelude.{◌≡◌};
ghost use Rattle.std.specs.List.{flat_map};
ghost use Rattle.scm_types.specs.declared.keys.SelectionKey.TheVariants.{Line};
ghost use Rattle.scm_document.specs.DocumentRows.{rows_of_key};
ghost use Rattle.scm_document.specs.Pieces.{found_in, lines_in, piece_places, section_places, some_rows};

use crate::index_pieces::{Piece, SectionPiece};
use scm_rows::row_kind::row_of_line;
use scm_types::keys::is_key;
use scm_types::{LineKey, SelectionKey};

/// Returns `rows`, a first row and a number of rows, or `None` if that number is 0.
pub fn some_rows(rows: (usize, usize)) -> Option<(usize, usize)>
    ensures { result ≡ some_rows rows }
{
    if rows.1 == 0 { None } else { Some(rows) }
}

impl SectionPiece {
    /// Returns the row of `line` and the number 1, if it is a line of this section that has a row.
    fn find_line(&self, line: LineKey) -> Option<(usize, usize)>
        ensures { result ≡ found_in (Line line) (lines_in self.now) }
    {
        if !is_key(
            SelectionKey::Section(line.section()),
            SelectionKey::Section(self.key),
        ) {
            return None;
        }
        let rows = self.end.saturating_sub(self.top);
        match row_of_line(self.place, self.shape, rows, line.line_idx) {
            None => None,
            Some(row) => Some((self.top + row, 1)),
        }
    }

    /// Returns the first row of `key` and how many rows it has, if it is the section's key or that of a
    /// line that has a row.
    pub fn find(&self, key: SelectionKey) -> Option<(usize, usize)>
        ensures { result ≡ found_in key (section_places self.now) }
    {
        if is_key(key, SelectionKey::Section(self.key)) {
            return Some((self.top, self.end.saturating_sub(self.top)));
        }
        match key {
            SelectionKey::None | SelectionKey::File(_) | SelectionKey::Section(_) => None,
            SelectionKey::Line(line) => self.find_line(line),
        }
    }
}

impl Piece {
    /// Returns the first row of `key` and how many rows it has, if it is that of the file, of the section
    /// or of a line of it that has a row.
    fn find(&self, key: SelectionKey) -> Option<(usize, usize)>
        ensures { result ≡ found_in key (piece_places self.now) }
    {
        match self {
            Piece::File(file) => {
                if is_key(key, SelectionKey::File(file.key)) {
                    Some((file.top, file.end.saturating_sub(file.top)))
                } else {
                    None
                }
            }
            Piece::Section(section) => section.find(key),
        }
    }
}

/// Returns the first row of `key` among `pieces` and how many rows it has, if it has any.
pub fn find_in(pieces: &[Piece], key: SelectionKey) -> Option<(usize, usize)>
    ensures { result ≡ rows_of_key key (flat_map piece_places pieces.now) }
{
    for piece in pieces {
        match piece.find(key) {
            Some(rows) => return some_rows(rows),
            None => {}
        }
    }
    None
}
