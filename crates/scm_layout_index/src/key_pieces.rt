//! The rows of a key, found by the key's indexes.
ghost use Rattle.std.specs.Prelude.{◌≡◌, ◌+◌, ◌<◌, ◌^◌};
ghost use Rattle.scm_layout_index.specs.RowPieces.{rows_in_section, rows_of_file, rows_by_key, section_at, section_of_key, RowsFit, SectionsFit};

use crate::row_pieces::section_of_rows;
use scm_document::index_pieces::SectionPiece;
use scm_document::key_rows::some_rows;
use scm_layout::FileRows;
use scm_types::{FileKey, Items, SectionKey, SelectionKey};

/// Returns the piece of section `key` of a file with the rows `rows`, if the section has rows, and the
/// file has some below its header.
fn section_at(rows: &FileRows, key: SectionKey) -> Option<SectionPiece>
    requires { SectionsFit rows.now }
    ensures { result ≡ section_at rows.now key }
{
    let below = rows.end.saturating_sub(rows.top);
    let own = rows.sections.get(key.section_idx)?;
    // `|`: one branch for the prover
    if (below <= 1) | (own.end <= own.top) {
        return None;
    }
    let total = rows.sections.count();
    let first = rows.top + 1;
    Some(section_of_rows(SelectionKey::None, total, key, first, own))
}

/// Returns the piece of section `key`, if its file is unfolded. The files have the rows `rows`.
fn section_of_key(rows: &Items<FileRows>, key: SectionKey) -> Option<SectionPiece>
    requires { RowsFit rows.now }
    ensures { result ≡ section_of_key rows.now key }
{
    if key.commit_idx != 0 {
        return None;
    }
    let file_rows = rows.get(key.file_idx)?;
    section_at(file_rows, key)
}

/// Returns the first row of file `key` and its number of rows, if the files with the rows `rows` have
/// it.
fn rows_of_file(rows: &Items<FileRows>, key: FileKey) -> Option<(usize, usize)>
    ensures { result ≡ rows_of_file rows.now key }
{
    if key.commit_idx != 0 {
        return None;
    }
    let file_rows = rows.get(key.file_idx)?;
    some_rows((file_rows.top, file_rows.end.saturating_sub(file_rows.top)))
}

/// Returns the first row of `key` and its number of rows, if it is that of `section` or of a line of it
/// that has a row.
fn rows_in_section(key: SelectionKey, section: Option<SectionPiece>) -> Option<(usize, usize)>
    ensures { result ≡ rows_in_section key section }
{
    some_rows(section?.find(key)?)
}

/// Returns the first row of `key` and its number of rows, if it has any. The files have the rows
/// `rows`.
pub(crate) fn rows_by_key(rows: &Items<FileRows>, key: SelectionKey) -> Option<(usize, usize)>
    requires { RowsFit rows.now }
    ensures { result ≡ rows_by_key rows.now key }
{
    match key {
        SelectionKey::None => None,
        SelectionKey::File(file) => rows_of_file(rows, file),
        SelectionKey::Section(section) => rows_in_section(key, section_of_key(rows, section)),
        SelectionKey::Line(line) => rows_in_section(key, section_of_key(rows, line.section())),
    }
}
