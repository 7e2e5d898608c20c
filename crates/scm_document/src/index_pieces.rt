//! The pieces of an index: files and sections with their row ranges, as plain data, and hit tests
//! among them.
ghost use Rattle.std.specs.Prelude.{◌≡◌, ◌<◌, ◌^◌, ◌+◌, ◌-◌, ◌++◌, ◌||◌, nat_le, if◌then◌else◌, Some, None, OnOk};
ghost use Rattle.scm_document.specs.HeaderRects.{header_rects, pinned_rects};
ghost use Rattle.scm_render.specs.Hits.{first_of_two};
ghost use Rattle.scm_document.specs.Rows.{line_id as id_of_line, section_id};
ghost use Rattle.scm_widgets.specs.Layers.{is_among as among};
ghost use Rattle.scm_document.specs.PieceOwners.{box_owner, header_owner, line_owner, owner_in_section, part_owner, row_owner, section_owner};
ghost use Rattle.scm_document.specs.Pieces.{pieces_among, section_among, section_below};
ghost use Rattle.scm_document.specs.SectionPieces.{kind_on};

use scm_rows::row_kind::row_kind;
use scm_rows::{RowKind, SectionPlace, SectionShape};
use scm_types::{FileKey, LineKey, SectionKey, SelectionKey};
use scm_widgets::ids::ComponentId;
use scm_widgets::overlay_rects::{OverlayRect, is_from, row_overlay_rect};
use std::alloc::AllocError;

/// A section with its row range, in rows of the document.
#[derive(Clone, Copy)]
pub struct SectionPiece {
    /// Key of the section.
    pub key: SectionKey,
    /// First row of the section.
    pub top: usize,
    /// End of the section's rows, exclusive.
    pub end: usize,
    /// Whether the section owns columns 0 and 1 of its rows.
    pub is_wide: bool,
    /// Place of the section among the sections of its file.
    pub place: SectionPlace,
    /// What the section is.
    pub shape: SectionShape,
}

/// A file with its row range, in rows of the document.
#[derive(Clone, Copy)]
pub struct FilePiece {
    /// Key of the file.
    pub key: FileKey,
    /// First row of the file, which is the header's.
    pub top: usize,
    /// End of the file's rows, exclusive.
    pub end: usize,
    /// Whether the file's header is pinned to a row other than its own.
    pub is_pinned: bool,
}

/// A file or a section with its row range. A list of pieces has each file before its sections.
#[derive(Clone, Copy)]
pub enum Piece {
    /// A file.
    File(FilePiece),
    /// A visible section.
    Section(SectionPiece),
}

/// The pieces that have a row.
#[derive(Clone, Copy)]
pub struct RowPieces {
    /// The file that has the row.
    pub file: FilePiece,
    /// Its section that has the row, if the row is not the file's header.
    pub section: Option<SectionPiece>,
}

/// Returns `first`, or `second` if `first` is `None`.
fn first_of_two(first: Option<ComponentId>, second: Option<ComponentId>) -> Option<ComponentId>
    ensures { result ≡ first_of_two first second }
{
    match first {
        Some(_) => first,
        None => second,
    }
}

/// Returns whether `column` is in `first..first + 3`.
fn is_among(first: usize, column: usize) -> bool
    ensures { result ≡ among first 3 column }
{
    first <= column && column - first < 3
}

/// Returns the box of a heading that owns `column`, if any: the checkbox from column `first` on, or
/// the fold box in the last three of `width` columns.
pub(crate) fn box_owner(
    width: usize,
    first: usize,
    key: SelectionKey,
    column: usize,
) -> Option<ComponentId>
    ensures { result ≡ box_owner width first key column }
{
    if is_among(first, column) {
        Some(ComponentId::ToggleBox(key))
    } else if is_among(width.saturating_sub(3), column) {
        Some(ComponentId::ExpandBox(key))
    } else {
        None
    }
}

/// Returns the component id of `line`.
fn line_id(line: LineKey) -> ComponentId
    ensures { result ≡ id_of_line line }
{
    ComponentId::SelectableItem(SelectionKey::Line(line))
}

/// Returns the owner of `column` on the row of changed line `line`: its checkbox, or else the line.
pub fn line_owner(line: LineKey, column: usize) -> ComponentId
    ensures { result ≡ line_owner line column }
{
    if is_among(4, column) {
        ComponentId::ToggleBox(SelectionKey::Line(line))
    } else {
        line_id(line)
    }
}

/// Returns the part of section `key` that owns `column` of a row of kind `kind`, if any. The screen has
/// `width` columns.
#[tactic(auto, unfolding(crate::specs::PieceOwners::part_owner))]
fn part_owner(width: usize, kind: RowKind, key: SectionKey, column: usize) -> Option<ComponentId>
    ensures { result ≡ part_owner width kind key column }
{
    match kind {
        RowKind::Header => box_owner(width, 2, SelectionKey::Section(key), column),
        RowKind::Line(line) => Some(line_owner(key.line(line), column)),
        RowKind::Mark => {
            if is_among(2, column) {
                Some(ComponentId::ToggleBox(SelectionKey::Section(key)))
            } else {
                None
            }
        }
        RowKind::Context(line) => Some(line_id(key.line(line))),
        RowKind::Blank => None,
    }
}

impl SectionPiece {
    /// Returns what the section's row `row`, counted from 0, shows.
    pub fn kind_on(&self, row: usize) -> RowKind
        ensures { result ≡ kind_on self.now row }
    {
        row_kind(self.place, self.shape, row)
    }

    /// Returns the section's id, if the section owns `column` of its rows where no part of it does.
    fn own_id(&self, column: usize) -> Option<ComponentId>
        ensures { result ≡ (if self.now.is_wide || nat_le 2 column
            then Some (section_id self.now.key) else None) }
    {
        if self.is_wide || 2 <= column {
            Some(ComponentId::SelectableItem(SelectionKey::Section(self.key)))
        } else {
            None
        }
    }

    /// Returns the owner of `column` of the section's row `row`, counted from 0, if any.
    fn owner(&self, width: usize, row: usize, column: usize) -> Option<ComponentId>
        ensures { result ≡ section_owner width self.now row column }
    {
        let part = part_owner(width, self.kind_on(row), self.key, column);
        first_of_two(part, self.own_id(column))
    }
}

impl FilePiece {
    /// Returns the part of the header that owns `column`; none if the header is pinned elsewhere.
    fn header_owner(self, width: usize, column: usize) -> Option<ComponentId>
        ensures { result ≡ header_owner width self column }
    {
        if self.is_pinned {
            return None;
        }
        let part = box_owner(width, 0, SelectionKey::File(self.key), column);
        first_of_two(part, Some(ComponentId::FileViewHeader(self.key)))
    }
}

impl RowPieces {
    /// Returns the owner of `row` and `column` in the section, if it has one there.
    fn owner_in_section(&self, width: usize, row: usize, column: usize) -> Option<ComponentId>
        ensures { result ≡ owner_in_section width self.now.section row column }
    {
        match &self.section {
            None => None,
            Some(section) => section.owner(width, row.saturating_sub(section.top), column),
        }
    }

    /// Returns the owner of `row`, which the pieces have, and `column`. The screen has `width` columns.
    pub fn owner(&self, width: usize, row: usize, column: usize) -> Option<ComponentId>
        ensures { result ≡ row_owner width self.now row column }
    {
        let part = if row == self.file.top {
            self.file.header_owner(width, column)
        } else {
            self.owner_in_section(width, row, column)
        };
        let id = ComponentId::SelectableItem(SelectionKey::File(self.file.key));
        first_of_two(part, Some(id))
    }
}

/// Returns the section that has row `row`, if any, of those at the front of `pieces`.
fn section_among(pieces: &[Piece], row: usize) -> Option<SectionPiece>
    ensures { result ≡ section_among row pieces.now }
{
    for piece in pieces {
        match piece {
            Piece::File(_) => return None,
            Piece::Section(section) => {
                if is_from(section.top, section.end, row) {
                    return Some(*section);
                }
            }
        }
    }
    None
}

/// Returns the section that has row `row` of `file`, whose sections are at the front of `pieces`, if
/// the row is not the header's.
fn section_below(file: FilePiece, pieces: &[Piece], row: usize) -> Option<SectionPiece>
    ensures { result ≡ section_below file row pieces.now }
{
    if row == file.top {
        None
    } else {
        section_among(pieces, row)
    }
}

/// Returns the pieces that have row `row`, if any.
pub fn pieces_among(pieces: &[Piece], row: usize) -> Option<RowPieces>
    ensures { result ≡ pieces_among row pieces.now }
{
    for (index, piece) in pieces.iter().enumerate() {
        match piece {
            Piece::File(file) => {
                if is_from(file.top, file.end, row) {
                    return Some(RowPieces {
                        file: *file,
                        section: section_below(*file, &pieces[index + 1..], row),
                    });
                }
            }
            Piece::Section(_) => {}
        }
    }
    None
}

/// Adds the overlay rectangles of the header of file `key` on `row`.
fn push_header(
    rects: &mut Vec<OverlayRect>,
    width: usize,
    row: usize,
    key: FileKey,
) -> Result<(), AllocError>
    requires width { width < 2 ^ 63 }
    requires row { row < 2 ^ 63 }
    ensures ok { OnOk result (rects.new.items ≡ rects.old.items ++ header_rects width row key) }
{
    let fold = ComponentId::ExpandBox(SelectionKey::File(key));
    let mark = ComponentId::ToggleBox(SelectionKey::File(key));
    rects.push(row_overlay_rect(ComponentId::FileViewHeader(key), row, 0, width))?;
    rects.push(row_overlay_rect(fold, row, width.saturating_sub(3), 3))?;
    rects.push(row_overlay_rect(mark, row, 0, 3))?;
    Ok(())
}

/// Adds to `rects` the overlay rectangles of the header that is pinned to row `row`, if there is one.
/// The pieces `found` have the row, and the screen has `width` columns.
///
/// # Errors
/// `AllocError`: an allocation failed.
pub fn push_pinned(
    rects: &mut Vec<OverlayRect>,
    width: usize,
    row: usize,
    found: Option<RowPieces>,
) -> Result<(), AllocError>
    requires width { width < 2 ^ 63 }
    requires row { row < 2 ^ 63 }
    ensures ok { OnOk result
        (rects.new.items ≡ rects.old.items ++ pinned_rects width row found) }
{
    match found {
        None => Ok(()),
        Some(found) => {
            if found.file.is_pinned {
                push_header(rects, width, row, found.file.key)
            } else {
                Ok(())
            }
        }
    }
}
