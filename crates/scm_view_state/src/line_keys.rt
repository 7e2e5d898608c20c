//! Keys of lines in sets of keys.
ghost use Rattle.std.specs.Prelude.{◌≡◌, false, IfErr, IfOk, IsTrue};
ghost use Rattle.scm_errors.specs.declared.error.RecordError.TheVariants.{OutOfMemory};
ghost use Rattle.scm_types.specs.Keys.{has_key};
ghost use Rattle.scm_selection.specs.KeyLists.{all_keys};
ghost use Rattle.scm_selection.specs.KeySet.{is_same_set, key_set};
ghost use Rattle.scm_view_state.specs.LineKeys.{line_set};

use scm_selection::key_lists::{all_keys, file_key};
use scm_selection::key_set::{KeySet, key_set_of};
use scm_selection::moves::{first_inside, is_key_of};
use scm_types::{File, RecordError};
use scm_view::SelectionKey;
use std::alloc::Global;

/// Returns whether `key` names a changed line of `files`.
pub(crate) fn is_line_of(files: &[File<'_>], key: SelectionKey) -> bool
    ensures { result ≡ has_key (line_set files.now) key }
{
    match key {
        SelectionKey::None | SelectionKey::File(_) | SelectionKey::Section(_) => false,
        SelectionKey::Line(_) => is_key_of(files, key),
    }
}

/// Returns whether `files` have a changed line, and `expanded` lacks the first of them.
fn lacks_first_line(expanded: &KeySet, files: &[File<'_>]) -> bool
    ensures { IsTrue result → is_same_set expanded.now (key_set (all_keys files.now)) ≡ false }
{
    let section = first_inside(expanded, files, file_key(0));
    let line = first_inside(expanded, files, section);
    match line {
        SelectionKey::None | SelectionKey::File(_) | SelectionKey::Section(_) => false,
        SelectionKey::Line(_) => !expanded.contains(line),
    }
}

/// Returns whether `expanded` has exactly all keys of `files`, with those of lines among them.
pub(crate) fn has_exactly_all(
    alloc: Global,
    expanded: &KeySet,
    files: &[File<'_>],
) -> Result<bool, RecordError>
    ensures ok { IfOk result
        (λ has_all. has_all ≡ is_same_set expanded.now (key_set (all_keys files.now))) }
    ensures err { IfErr result (λ e. e ≡ OutOfMemory) }
{
    if lacks_first_line(expanded, files) {
        return Ok(false);
    }
    let keys = all_keys(alloc, files)?;
    let all = key_set_of(alloc, &keys)?;
    Ok(expanded.is_same(&all))
}
