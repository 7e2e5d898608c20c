//! What the header of a file shows.
ghost use Rattle.std.specs.Prelude.{◌≡◌};
ghost use Rattle.scm_document.specs.Rows.{HeaderRow, lent_text, shown_file};
ghost use Rattle.scm_layout.specs.Counts.{file_counts};
ghost use Rattle.scm_layout.specs.Rows.{folded_count};
ghost use Rattle.scm_strips.specs.Shows.{FileRow};
ghost use Rattle.scm_strips.specs.ShownRows.{row_of};
ghost use Rattle.scm_view.specs.ViewState.{file_view_of};
ghost use Rattle.scm_screen.specs.Headers.{counted_heading};

use scm_layout::FileCounts;
use scm_strips::Shown;
use scm_types::{File, FileKey, SelectionKey};
use scm_view_state::ViewState;
use scm_view_state::marks::tristate_by;

/// Returns the path that `file` had before, if it differs.
fn old_path<'a>(file: &'a File<'_>) -> Option<&'a str>
    ensures { lent_text result ≡ file.now.old_path }
{
    file.old_path.as_ref().map(|path| path.as_str())
}

/// Returns what the header of `file` shows, which has the key `key`. The file has the counts `counts`, and
/// `folded` of its sections of changed lines are folded: its mark and its fold are by these alone.
pub(crate) fn shown_header<'a>(
    shown: &ViewState<'_>,
    key: FileKey,
    counts: &FileCounts,
    folded: usize,
    file: &'a File<'a>,
) -> Shown<'a>
    ensures counted { row_of result ≡ FileRow (HeaderRow key
        (counted_heading shown.now key counts.now folded file.now)) }
    ensures view { counts.now ≡ file_counts file.now
        → folded ≡ folded_count shown.now.expanded key 0 file.now.sections
        → row_of result
        ≡ FileRow (HeaderRow key (shown_file (file_view_of shown.now key file.now)).heading) }
{
    let header = SelectionKey::File(key);
    let mark = tristate_by(counts.checked, counts.items);
    let fold = shown.counted_fold(key, folded);
    Shown::File {
        key,
        toggle_box: shown.toggle_box(header, mark),
        expand_box: shown.expand_box(header, fold),
        old_path: old_path(file),
        path: file.path.as_str(),
    }
}
