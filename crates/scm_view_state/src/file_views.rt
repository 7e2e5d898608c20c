//! The views of the files of a commit.
ghost use Rattle.std.specs.Prelude.{◌≡◌, ◌≤◌, length, sum_by, option_map, IfOk};
ghost use Rattle.scm_types.specs.Limits.{file_size, max_items};
ghost use Rattle.scm_view.specs.ViewState.{expand_box_of, file_view_of, file_views_of, borrow_of, toggle_box_of};
ghost use Rattle.scm_types.specs.Keys.{is_key};
ghost use Rattle.scm_types.specs.declared.keys.SelectionKey.TheVariants as keys;
ghost use Rattle.scm_view_state.specs.Views.{lent_file, lent_files, lent_path, lent_sections};

use crate::section_views::counted_views;
use crate::view_state::ViewState;
use scm_layout::FileCounts;
use scm_types::{File, Items, Tristate};
use scm_view::{FileKey, FileView, SectionView, SelectionKey};
use std::alloc::{AllocError, Global};

/// Returns the path that `file` had before, if it differs.
fn old_path<'a>(file: &'a File<'_>) -> Option<&'a str>
    ensures { lent_path result ≡ option_map borrow_of file.now.old_path }
{
    file.old_path.as_ref().map(|path| path.as_str())
}

/// Returns the view of `file` with the mark `mark`, the fold `fold` and the sections of `section_views`.
fn view_with<'a>(
    view_state: &ViewState<'_>,
    key: FileKey,
    mark: Tristate,
    fold: Tristate,
    file: &'a File<'a>,
    section_views: Items<SectionView<'a>>,
) -> FileView<'a>
    ensures { lent_file result ≡ record (file_view_of view_state.now key file.now) {
      toggle_box = toggle_box_of view_state.now (keys.File key) mark;
      expand_box = expand_box_of view_state.now (keys.File key) fold;
      section_views = lent_sections section_views.entry;
    } }
{
    let header = SelectionKey::File(key);
    FileView {
        file_key: key,
        toggle_box: view_state.toggle_box(header, mark),
        expand_box: view_state.expand_box(header, fold),
        is_header_selected: view_state.is_selected(header),
        old_path: old_path(file),
        path: file.path.as_str(),
        section_views,
    }
}

/// Returns the view of `file`. The size of `file` must be within the limit for a state.
fn file_view<'a>(
    view_state: &ViewState<'_>,
    alloc: Global,
    key: FileKey,
    file: &'a File<'a>,
) -> Result<FileView<'a>, AllocError>
    requires { file_size file.now ≤ max_items }
    ensures { IfOk result (λ view. lent_file view ≡ file_view_of view_state.now key file.now) }
{
    let counts = FileCounts::new(alloc, file)?;
    let section_views = counted_views(view_state, alloc, key, &counts, file)?;
    let fold = view_state.file_fold(key, section_views.as_slice());
    Ok(view_with(view_state, key, file.tristate(), fold, file, section_views))
}

/// Returns the views of `files`. Their sizes together must be within the limit for a state.
pub(crate) fn file_views<'a>(
    view_state: &ViewState<'_>,
    alloc: Global,
    commit_idx: usize,
    files: &'a [File<'a>],
) -> Result<Items<FileView<'a>>, AllocError>
    requires { sum_by file_size files.now ≤ max_items }
    ensures { IfOk result
        (λ views. lent_files views ≡ file_views_of view_state.now commit_idx 0 files.now) }
{
    let mut views = Vec::with_capacity(alloc, files.len())?;
    for (file_idx, file) in files.iter().enumerate() {
        let key = FileKey {
            commit_idx,
            file_idx,
        };
        views.push(file_view(view_state, alloc, key, file)?)?;
    }
    Ok(Items::from(views))
}
