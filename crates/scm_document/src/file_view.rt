//! The view of a file of a commit.
ghost use Rattle.std.specs.Prelude.{◌≡◌, ◌+◌, ◌<◌, ◌^◌, ◌++◌, pos, ◌+ℤ◌, length, map, false, OnOk, IfOk};
ghost use Rattle.scm_cells.specs.Rect.{InRange};
ghost use Rattle.scm_document.specs.Counts.{file_counts};
ghost use Rattle.scm_document.specs.DocumentCalls.{sections_call};
ghost use Rattle.scm_render.specs.Draws.{CanDraw, HasDrawn};
ghost use Rattle.scm_document.specs.Rows.{header_heading, lent_text, shown_file, shown_sections, file_rows};
ghost use Rattle.scm_document.specs.Pictures.{file_picture};
ghost use Rattle.scm_document.specs.SectionWalk.{visible_views};
ghost use Rattle.scm_document.specs.ViewPieces.{file_height, file_piece_of, section_piece_list, sections_height};
ghost use Rattle.scm_document.specs.Pieces.{file_pieces};
ghost use Rattle.scm_document.specs.declared.index_pieces.Piece.TheVariants.{Section as PieceSection};

use crate::file_view_header::FileViewHeader;
use crate::index_pieces::{FilePiece, Piece};
use crate::section_pieces::file_piece;
use crate::section_view::SectionView;
use crate::section_walk::SectionWalk;
use scm_render::{Component, Viewport};
use scm_types::{FileKey, Items, RecordError, SelectionKey};
use scm_widgets::ids::ComponentId;
use scm_widgets::tristate_box::TristateBox;
use std::alloc::{AllocError, Global};

/// A file: its header and, if it is unfolded, its sections below.
#[derive(Drop)]
pub struct FileView<'a> {
    /// Key of the file.
    pub file_key: FileKey,
    /// Checkbox of the file's marks.
    pub toggle_box: TristateBox<ComponentId>,
    /// Fold box of the file.
    pub expand_box: TristateBox<ComponentId>,
    /// Whether the file is selected.
    pub is_header_selected: bool,
    /// Path before the change, or `None` if the file was not renamed.
    pub old_path: Option<&'a str>,
    /// Path of the file.
    pub path: &'a str,
    /// Views of all sections of the file.
    pub section_views: Items<SectionView<'a>>,
}

/// Draws the visible sections from row `y` on.
fn draw_sections(
    viewport: &mut Viewport<ComponentId>,
    x: isize,
    y: isize,
    views: &[SectionView<'_>],
) -> Result<(), RecordError>
    requires y { InRange y }
    requires picture { CanDraw viewport.old (sections_call (shown_sections false views.now) x y) }
    ensures { HasDrawn viewport.old viewport.new result
        (sections_call (shown_sections false views.now) x y) }
{
    let mut walk = SectionWalk::new(views);
    let mut row = y;
    'sections: while let Some(view) = walk.next_section() {
        let below = view.row_below(row);
        viewport.draw_part(x, row, view)?;
        row = below;
    }
    Ok(())
}

/// Returns how many rows the visible sections have.
fn sections_height(views: &[SectionView<'_>]) -> usize
    requires { sections_height (visible_views false views.now) < 2 ^ 63 }
    ensures { result ≡ sections_height (visible_views false views.now) }
{
    let mut walk = SectionWalk::new(views);
    let mut height = 0;
    'sections: while let Some(view) = walk.next_section() {
        height += view.height();
    }
    height
}

/// Adds the pieces of the visible sections, which begin on row `top`.
fn push_sections(
    pieces: &mut Vec<Piece>,
    top: usize,
    views: &[SectionView<'_>],
) -> Result<(), AllocError>
    requires { top + sections_height (visible_views false views.now) < 2 ^ 63 }
    ensures ok { OnOk result (pieces.new.items ≡ pieces.old.items
        ++ map PieceSection (section_piece_list top (visible_views false views.now))) }
{
    let mut walk = SectionWalk::new(views);
    let mut row = top;
    'sections: while let Some(view) = walk.next_section() {
        let section = view.piece(row);
        pieces.push(Piece::Section(section))?;
        row = section.end;
    }
    Ok(())
}

impl<'a> FileView<'a> {
    /// Returns how many rows the file has.
    fn height(&self) -> usize
        requires { file_height self.now < 2 ^ 63 }
        ensures { result ≡ file_height self.now }
    {
        if self.expand_box.is_open() {
            1 + sections_height(self.section_views.as_slice())
        } else {
            1
        }
    }

    /// Returns the file's piece, if its first row is `top`. A header may be pinned to row `pinned`.
    fn piece(&self, pinned: usize, top: usize) -> FilePiece
        requires { top + file_height self.now < 2 ^ 62 }
        ensures { result ≡ file_piece_of pinned top self.now }
    {
        let end = top + self.height();
        file_piece(pinned, self.file_key, top, end)
    }

    /// Adds the pieces of the file and its sections, and returns the row below the file. The file
    /// begins on row `top`; a header may be pinned to row `pinned`.
    pub(crate) fn push_pieces(
        &self,
        pieces: &mut Vec<Piece>,
        pinned: usize,
        top: usize,
    ) -> Result<usize, AllocError>
        requires { top + file_height self.now < 2 ^ 62 }
        ensures end { IfOk result (λ end. end ≡ top + file_height self.now) }
        ensures ok { OnOk result
            (pieces.new.items ≡ pieces.old.items ++ file_pieces pinned top self.now) }
    {
        let file = self.piece(pinned, top);
        pieces.push(Piece::File(file))?;
        if self.expand_box.is_open() {
            push_sections(pieces, top + 1, self.section_views.as_slice())?;
        }
        Ok(file.end)
    }

    /// Returns the row below the file, which begins on row `y`.
    pub(crate) fn row_below(&self, y: isize) -> isize
        requires y { InRange (y +ℤ pos 1) }
        requires end { InRange (y +ℤ pos (length (file_rows (shown_file self.now)))) }
        ensures { result ≡ y +ℤ pos (length (file_rows (shown_file self.now))) }
    {
        y.strict_add_unsigned(self.height())
    }

    /// Returns the view of the file's header.
    pub fn header(&self) -> FileViewHeader<'a>
        ensures key { result.file_key ≡ self.now.file_key }
        ensures selected { result.is_selected ≡ self.now.is_header_selected }
        ensures path { result.path.now ≡ self.now.path.now }
        ensures old_path { lent_text result.old_path ≡ lent_text self.now.old_path }
        ensures toggle { result.toggle_box ≡ self.now.toggle_box }
        ensures fold { result.expand_box ≡ self.now.expand_box }
        ensures heading { header_heading result ≡ (shown_file self.now).heading }
    {
        FileViewHeader {
            file_key: self.file_key,
            path: self.path,
            old_path: self.old_path,
            is_selected: self.is_header_selected,
            toggle_box: self.toggle_box.copied(),
            expand_box: self.expand_box.copied(),
        }
    }
}

impl<'a> Component for FileView<'a> {
    type Id = ComponentId;

    ghost use Rattle.scm_document.specs.Rows.{file_id};

    ghost key = { λ v. file_id v.file_key };

    ghost picture = { file_picture };

    ghost rows = { λ v s x y. (file_counts (shown_file v) s.rect y).rows };

    ghost calls = { λ v s x y. (file_counts (shown_file v) s.rect y).calls };

    fn id(&self) -> ComponentId {
        ComponentId::SelectableItem(SelectionKey::File(self.file_key))
    }

    fn draw(
        &self,
        _alloc: Global,
        viewport: &mut Viewport<ComponentId>,
        x: isize,
        y: isize,
    ) -> Result<(), RecordError> {
        let header = self.header();
        viewport.draw_part(x, y, &header)?;
        if self.expand_box.is_open() {
            draw_sections(viewport, x + 2, y + 1, self.section_views.as_slice())
        } else {
            Ok(())
        }
    }
}
