//! The pieces of sections and files, made of their rows.
use crate::checks::check_equal;
use scm_document::section_pieces::{file_piece, section_piece};
use scm_rows::SectionShape;
use scm_types::FileKey;
use std::process::Abort;

/// The key of the file.
const FILE: FileKey = FileKey {
    commit_idx: 0,
    file_idx: 0,
};

/// First rows of pinned headers, and whether a header of rows 3 to 7 is pinned there: below its own
/// row and above the end of its file.
const PINNED: &[(usize, bool)] = &[(3, false), (4, true), (7, true), (8, false)];

/// Checks the piece of a file.
fn check_file(rt: &impl Abort, pinned: usize, is_pinned: bool) {
    let piece = file_piece(pinned, FILE, 3, 8);
    check_equal(
        rt,
        (piece.top, piece.end, piece.is_pinned),
        (3, 8, is_pinned),
    );
}

/// What sections from row 3 on show, their last rows, exclusive, and whether they own the first
/// columns: a section does if it shows a line. The only section of a file may show dots alone.
const WIDE: &[(SectionShape, usize, bool)] = &[
    (SectionShape::Context { lines: 0 }, 4, false),
    (SectionShape::Context { lines: 4 }, 4, false),
    (SectionShape::Context { lines: 4 }, 7, true),
    (SectionShape::Changed, 4, false),
    (SectionShape::Changed, 5, true),
    (SectionShape::Mark, 4, false),
];

/// Checks the piece of a section.
fn check_section(rt: &impl Abort, shape: SectionShape, end: usize, is_wide: bool) {
    let piece = section_piece(false, 1, FILE.section(0), 3, end, shape);
    check_equal(rt, (piece.top, piece.end, piece.is_wide), (3, end, is_wide));
    let piece = section_piece(true, 1, FILE.section(0), 3, end, shape);
    let is_context = matches!(shape, SectionShape::Context { .. });
    check_equal(rt, piece.is_wide, is_wide | !is_context);
}

#[test]
fn pieces_are_made_of_rows(rt: HostRuntime) {
    for (pinned, is_pinned) in PINNED {
        check_file(&rt, *pinned, *is_pinned);
    }
    for (shape, end, is_wide) in WIDE {
        check_section(&rt, *shape, *end, *is_wide);
    }
}
