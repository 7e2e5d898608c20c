//! The rows of a section: how many there are, and of which kinds.
ghost use Rattle.std.specs.Prelude.{◌≡◌, ◌+◌, ◌<◌, ◌^◌, pos, ◌+ℤ◌};
ghost use Rattle.scm_cells.specs.Rect.{InRange};
ghost use Rattle.scm_widgets.specs.Boxes.{is_fold_open};
ghost use Rattle.scm_document.specs.Rows.{is_open, line_on, place_of, section_height};
ghost use Rattle.scm_document.specs.ViewPieces.{section_piece_of};

use crate::index_pieces::SectionPiece;
use crate::section_pieces::section_piece;
use crate::section_view::SectionView;
use scm_rows::row_kind::row_kind;
use scm_rows::section_heights::{height_of, is_section_open};
use scm_rows::section_shape::shape_of;
use scm_rows::{RowKind, SectionPlace};

impl<'a> SectionView<'a> {
    /// Returns the place of the section among the sections of its file.
    pub(crate) fn place(&self) -> SectionPlace
        ensures { result ≡ place_of self.now }
    {
        SectionPlace {
            index: self.section_key.section_idx,
            total: self.total_num_sections,
        }
    }

    /// Returns whether the section is unfolded.
    fn is_unfolded(&self) -> bool
        ensures { result ≡ is_fold_open self.now.expand_box }
    {
        self.expand_box.is_open()
    }

    /// Returns how many rows the section has.
    pub(crate) fn height(&self) -> usize
        requires { section_height self.now self.now.section.now < 2 ^ 63 }
        ensures { result ≡ section_height self.now self.now.section.now }
    {
        height_of(self.place(), self.is_unfolded(), self.section)
    }

    /// Returns the row below the section, which begins on row `y`.
    pub(crate) fn row_below(&self, y: isize) -> isize
        requires y { InRange y }
        requires end { InRange (y +ℤ pos (section_height self.now self.now.section.now)) }
        ensures { result ≡ y +ℤ pos (section_height self.now self.now.section.now) }
    {
        y.strict_add_unsigned(self.height())
    }

    /// Returns the section's piece, if its first row is `top`.
    pub(crate) fn piece(&self, top: usize) -> SectionPiece
        requires { top + section_height self.now self.now.section.now < 2 ^ 63 }
        ensures { result ≡ section_piece_of self.now top }
    {
        let total = self.total_num_sections;
        let end = top + self.height();
        let shape = shape_of(self.section);
        section_piece(self.is_selected(), total, self.section_key, top, end, shape)
    }

    /// Returns the line that row `row` of the section, counted from 0, shows, if it shows one.
    pub(crate) fn line_on(&self, row: usize) -> Option<usize>
        ensures { result ≡ line_on self.now row }
    {
        match row_kind(self.place(), shape_of(self.section), row) {
            RowKind::Line(line) | RowKind::Context(line) => Some(line),
            RowKind::Header | RowKind::Mark | RowKind::Blank => None,
        }
    }

    /// Returns whether the section is editable and unfolded.
    pub(crate) fn is_open(&self) -> bool
        ensures { result ≡ is_open self.now }
    {
        is_section_open(self.is_unfolded(), self.section)
    }
}
