//! What each row of a document shows, found by the rows of the layout. Row 0 is the menu bar's, so the document
//! begins on row 1.
ghost use Rattle.std.specs.Prelude.{◌≡◌, ◌≤◌, None, Some, false, length, option_map, slice_get, IfSome, IsTrue};
ghost use Rattle.scm_document.specs.Rows.{lent_text, shown_file};
ghost use Rattle.scm_layout.specs.Counts.{file_counts};
ghost use Rattle.scm_layout.specs.Layouts.{layout_of};
ghost use Rattle.scm_layout.specs.Rows.{sections_rows};
ghost use Rattle.scm_strips.specs.Shows.{FileRow};
ghost use Rattle.scm_strips.specs.ShownRows.{row_of};
ghost use Rattle.scm_types.specs.Limits.{file_size, is_accepted_state, max_items};
ghost use Rattle.scm_view.specs.ViewState.{commit_at, file_view_of};
ghost use Rattle.scm_view.specs.Window.{inline_document};
ghost use Rattle.scm_screen.specs.DocumentRows.{header_of, message_rows, pinned_on, row_in, row_shown, rows_of_sections};
ghost use Rattle.scm_screen.specs.RowFiles.{HasRow, IsInLayout, NoFileHas};

use crate::file_header::shown_header;
use crate::section_rows::{counted_section, shown_row};
use scm_layout::row_search::file_on;
use scm_layout::{FileCounts, FileRows, Layout, SectionStack};
use scm_strips::Shown;
use scm_types::{Commit, File, FileKey};
use scm_view_state::ViewState;

/// A file, with its counts and its rows.
#[derive(Clone, Copy)]
pub(crate) struct RowFile<'a, 'l> {
    /// Key of the file.
    key: FileKey,
    /// The file.
    file: &'a File<'a>,
    /// Its counts.
    counts: &'l FileCounts,
    /// Its rows.
    rows: &'l FileRows,
}

/// Returns the key of file `index` of the first commit.
fn file_key(index: usize) -> FileKey
    ensures { result ≡ record { commit_idx = 0; file_idx = index } }
{
    FileKey {
        commit_idx: 0,
        file_idx: index,
    }
}

/// Returns the file of the first commit that has row `row` of the document, if one has.
fn file_with_row<'a, 'l>(
    shown: &'a ViewState<'a>,
    layout: &'l Layout,
    row: usize,
) -> Option<RowFile<'a, 'l>>
    requires accepted { IsTrue (is_accepted_state shown.now.state) }
    requires layout { layout.now ≡ layout_of shown.now.state shown.now.expanded }
    ensures some { IfSome result (λ found. HasRow shown.now row found) }
    ensures none { result ≡ None → NoFileHas shown.now row }
{
    let rows = layout.rows.files.as_slice();
    let counts = layout.counts.files.as_slice();
    let files = shown.state.files.as_slice();
    let index = file_on(rows, row)?;
    Some(RowFile {
        key: file_key(index),
        file: &files[index],
        counts: &counts[index],
        rows: &rows[index],
    })
}

/// Returns what row `row` of the message of the first commit shows, if it is one of the three rows of the message.
#[tactic(auto, using(crate::proofs::MessageLemmas::message_in))]
fn row_of_message(message: &str, row: usize) -> Option<Shown<'_>>
    ensures { option_map row_of result ≡ row_in (message_rows 0 (Some message.now)) row }
{
    if row == 2 {
        Some(Shown::Message { commit: 0, message })
    } else if row == 1 || row == 3 {
        Some(Shown::Margin)
    } else {
        None
    }
}

/// Returns the message of `commit`, if it has one.
fn message_of(commit: &Commit) -> Option<&str>
    ensures { lent_text result ≡ commit.now.message }
{
    commit.message.as_ref().map(|message| message.as_str())
}

/// Returns the message of the first commit, if it has one.
fn first_message<'a>(shown: &'a ViewState<'_>) -> Option<&'a str>
    ensures { lent_text result ≡ (commit_at 0 shown.now.state.commits).message }
{
    message_of(shown.state.commits.get(0)?)
}

/// Returns what row `row` of the document shows, if it is one of those of the message of the first commit.
fn message_row<'a>(shown: &'a ViewState<'_>, row: usize) -> Option<Shown<'a>>
    ensures { option_map row_of result
        ≡ row_in (message_rows 0 (commit_at 0 shown.now.state.commits).message) row }
{
    row_of_message(first_message(shown)?, row)
}

/// Returns what row `row` of the sections of `file` shows, counted from the row below its header, if they have
/// such a row. The file has the key `key` and the counts `counts`, and `sections` are the rows of its sections.
fn section_row<'a>(
    shown: &ViewState<'_>,
    key: FileKey,
    counts: &FileCounts,
    sections: &SectionStack,
    file: &'a File<'a>,
    row: usize,
) -> Option<Shown<'a>>
    requires counts { counts.now ≡ file_counts file.now }
    requires size { file_size file.now ≤ max_items }
    requires rows { sections.now ≡ sections_rows shown.now.expanded key
        (length file.now.sections) 0 0 false file.now.sections }
    ensures { option_map row_of result
        ≡ option_map FileRow (slice_get (rows_of_sections shown.now key file.now) row) }
{
    let index = sections.on(row)?;
    let top = sections.row(index).top;
    let counted = counted_section(key, counts, index, file);
    Some(shown_row(shown, counted, row - top))
}

/// Returns what row `row` of the document shows, which is one of the file `found`.
fn file_row<'a>(shown: &ViewState<'_>, found: RowFile<'a, '_>, row: usize) -> Option<Shown<'a>>
    requires { HasRow shown.now row found }
    ensures { option_map row_of result ≡ row_shown (inline_document shown.now) row }
{
    match (row - found.rows.top).checked_sub(1) {
        None => Some(header_row(shown, found)),
        Some(below) => section_row(
            shown,
            found.key,
            found.counts,
            &found.rows.sections,
            found.file,
            below,
        ),
    }
}

/// Returns what the header of the file `found` shows.
fn header_row<'a>(shown: &ViewState<'_>, found: RowFile<'a, '_>) -> Shown<'a>
    requires { IsInLayout shown.now found }
    ensures { row_of result
        ≡ header_of (shown_file (file_view_of shown.now found.entry.key found.entry.file.now)) }
{
    shown_header(
        shown,
        found.key,
        found.counts,
        found.rows.folded,
        found.file,
    )
}

/// Returns what row `row` of the document of the first commit shows, if the document has such a row. Row 1 is its
/// first. `layout` is that of the state and its unfolded keys. Finds the file and the section by bisection, and
/// makes no text.
pub fn document_row<'a>(shown: &'a ViewState<'a>, layout: &Layout, row: usize) -> Option<Shown<'a>>
    requires accepted { IsTrue (is_accepted_state shown.now.state) }
    requires layout { layout.now ≡ layout_of shown.now.state shown.now.expanded }
    ensures { option_map row_of result ≡ row_shown (inline_document shown.now) row }
{
    match file_with_row(shown, layout, row) {
        None => message_row(shown, row),
        Some(found) => file_row(shown, found, row),
    }
}

/// Returns the header that is pinned on row `row` of the document of the first commit: that of the file that begins
/// above the row and ends below it, if there is one. `layout` is that of the state and its unfolded keys.
pub fn pinned_header<'a>(shown: &'a ViewState<'a>, layout: &Layout, row: usize) -> Option<Shown<'a>>
    requires accepted { IsTrue (is_accepted_state shown.now.state) }
    requires layout { layout.now ≡ layout_of shown.now.state shown.now.expanded }
    ensures { option_map row_of result ≡ pinned_on (inline_document shown.now) row }
{
    let found = file_with_row(shown, layout, row)?;
    if found.rows.top < row {
        Some(header_row(shown, found))
    } else {
        None
    }
}
