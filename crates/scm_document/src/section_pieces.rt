//! The pieces of sections and files, from their rows.
ghost use Rattle.std.specs.Prelude.{◌≡◌};
ghost use Rattle.scm_document.specs.SectionPieces.{file_piece, is_wide_section, section_piece};

use crate::index_pieces::{FilePiece, SectionPiece};
use scm_rows::{SectionPlace, SectionShape};
use scm_types::{FileKey, SectionKey};

/// Returns whether a section of shape `shape` at `place` owns columns 0 and 1 of its `rows` rows.
fn is_wide_section(is_selected: bool, place: SectionPlace, rows: usize, shape: SectionShape) -> bool
    ensures { result ≡ is_wide_section is_selected place rows shape }
{
    match shape {
        // `&` and `|`: one branch for the prover
        SectionShape::Context { lines } => (lines != 0) & (place.dots_height(lines) < rows),
        SectionShape::Changed => is_selected | (1 < rows),
        SectionShape::Mark => is_selected,
    }
}

/// Returns the piece of section `key` of a file with `total` sections. The section has shape `shape`
/// and the rows `top..end`.
pub fn section_piece(
    is_selected: bool,
    total: usize,
    key: SectionKey,
    top: usize,
    end: usize,
    shape: SectionShape,
) -> SectionPiece
    ensures { result ≡ section_piece is_selected total key top end shape }
{
    let place = SectionPlace {
        index: key.section_idx,
        total,
    };
    let rows = end.saturating_sub(top);
    SectionPiece {
        key,
        top,
        end,
        is_wide: is_wide_section(is_selected, place, rows, shape),
        place,
        shape,
    }
}

/// Returns the piece of file `key`, which has the rows `top..end`, if a header may be pinned to row
/// `pinned`.
pub fn file_piece(pinned: usize, key: FileKey, top: usize, end: usize) -> FilePiece
    ensures { result ≡ file_piece pinned key top end }
{
    FilePiece {
        key,
        top,
        end,
        // `&`: one branch for the prover
        is_pinned: (top < pinned) & (pinned < end),
    }
}
