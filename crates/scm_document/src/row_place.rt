//! What is drawn on a row of the document.
ghost use Rattle.scm_document.specs.Pieces.{piece_parts};
ghost use Rattle.std.specs.Prelude.{◌≡◌, length, slice_get};

use crate::index_pieces::Piece;
use scm_types::{FileKey, SectionKey};

/// What a row of a document shows. The rows of a message and of a section are counted from 0.
#[derive(Clone, Copy, Debug, PartialEq, Eq)]
pub enum RowPlace {
    /// A row of the message.
    Message(usize),
    /// The header of a file.
    File(FileKey),
    /// A row of a section.
    Section(SectionKey, usize),
}

impl Piece {
    /// Returns how many rows are the piece's own: one for a file, which is its header.
    pub fn own_rows(&self) -> usize
        ensures { result ≡ length (piece_parts self.now) }
    {
        match self {
            Piece::File(_) => 1,
            Piece::Section(section) => section.end.saturating_sub(section.top),
        }
    }

    /// Returns what the piece's own row `row` shows, counted from 0, if there is one.
    pub fn part(&self, row: usize) -> Option<RowPlace>
        ensures { result ≡ slice_get (piece_parts self.now) row }
    {
        match self {
            Piece::File(file) => if row == 0 {
                Some(RowPlace::File(file.key))
            } else {
                None
            },
            Piece::Section(section) => {
                if row < section.end.saturating_sub(section.top) {
                    Some(RowPlace::Section(section.key, row))
                } else {
                    None
                }
            }
        }
    }
}
