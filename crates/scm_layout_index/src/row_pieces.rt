//! The pieces of the file and the section that have a row, found by bisection.
ghost use Rattle.std.specs.Prelude.{◌≡◌, ◌+◌, ◌<◌, ◌^◌};
ghost use Rattle.scm_layout_index.specs.RowPieces.{end_of_files, pieces_on, section_in, section_of_rows, RowsFit, SectionsFit};

use scm_document::index_pieces::{RowPieces, SectionPiece};
use scm_document::section_pieces::{file_piece, section_piece};
use scm_layout::row_search::file_on;
use scm_layout::{FileRows, SectionRows};
use scm_types::keys::is_key;
use scm_types::{FileKey, Items, SectionKey, SelectionKey};

/// Returns the piece of section `key` of `total`, whose rows `rows` are counted from row `first`,
/// if `selection` is selected.
pub(crate) fn section_of_rows(
    selection: SelectionKey,
    total: usize,
    key: SectionKey,
    first: usize,
    rows: SectionRows,
) -> SectionPiece
    requires top { first + rows.top < 2 ^ 64 }
    requires end { first + rows.end < 2 ^ 64 }
    ensures { result ≡ section_of_rows selection total key first rows }
{
    let is_selected = is_key(SelectionKey::Section(key), selection);
    let top = first + rows.top;
    let end = first + rows.end;
    section_piece(is_selected, total, key, top, end, rows.shape)
}

/// Returns the key of file `index` of the first commit.
fn file_key(index: usize) -> FileKey
    ensures { result ≡ record { commit_idx = 0; file_idx = index } }
{
    FileKey {
        commit_idx: 0,
        file_idx: index,
    }
}

/// Returns the piece of the section of file `index` that has row `row` of the document, if any. The
/// file has the rows `rows`, and `selection` is selected.
fn section_in(
    selection: SelectionKey,
    index: usize,
    rows: &FileRows,
    row: usize,
) -> Option<SectionPiece>
    requires { SectionsFit rows.now }
    ensures { result ≡ section_in selection index rows.now row }
{
    if row <= rows.top {
        return None;
    }
    let first = rows.top + 1;
    let found = rows.sections.on(row - first)?;
    let own = rows.sections.get(found)?;
    let key = file_key(index).section(found);
    let total = rows.sections.count();
    Some(section_of_rows(selection, total, key, first, own))
}

/// Returns the pieces that have row `row` of the document, if any. The files have the rows `rows`, a
/// header may be pinned to row `pinned`, and `selection` is selected.
pub(crate) fn pieces_on(
    selection: SelectionKey,
    pinned: usize,
    rows: &Items<FileRows>,
    row: usize,
) -> Option<RowPieces>
    requires { RowsFit rows.now }
    ensures { result ≡ pieces_on selection pinned row rows.now }
{
    let index = file_on(rows.as_slice(), row)?;
    let file_rows = rows.get(index)?;
    Some(RowPieces {
        file: file_piece(pinned, file_key(index), file_rows.top, file_rows.end),
        section: section_in(selection, index, file_rows, row),
    })
}

/// Returns the row below files with the rows `rows`, or `top` if there are none.
pub(crate) fn end_of_files(top: usize, rows: &Items<FileRows>) -> usize
    ensures { result ≡ end_of_files top rows.now }
{
    match rows.last() {
        None => top,
        Some(file) => file.end,
    }
}
