//! Moves of the selection to a place: an end of the document, or the next section or file.
ghost use Rattle.std.specs.Prelude.{◌≡◌, None, fold, IfErr, IfOk};
ghost use Rattle.scm_errors.specs.declared.error.RecordError.TheVariants.{OutOfMemory};
ghost use Rattle.scm_selection.specs.KeyLists.{is_file, is_section, is_visible};
ghost use Rattle.scm_selection.specs.KeySet.{has_key};
ghost use Rattle.scm_front_items.specs.Places.{is_stop, item_at, moved_to, way_of};
ghost use Rattle.scm_front_items.specs.Search.{kept};

use crate::items::{Way, is_towards};
use scm_selection::KeySet;
use scm_selection::key_lists::all_keys;
use scm_types::{File, RecordError, SelectionKey};
use std::alloc::Global;

/// A place to which the selection moves.
#[derive(Clone, Copy, Debug, PartialEq, Eq)]
pub enum Place {
    /// The first item.
    First,
    /// The last item that is not folded away.
    Last,
    /// The nearest section in a direction, also in a file that is folded.
    Section(Way),
    /// The nearest file in a direction.
    File(Way),
}

/// Returns from which end of the items a move to `place` looks.
fn way_of(place: Place) -> Way
    ensures { result ≡ way_of place }
{
    match place {
        Place::First => Way::Down,
        Place::Last => Way::Up,
        Place::Section(way) => way,
        Place::File(way) => way,
    }
}

/// Returns whether `key` is that of a file.
fn is_file(key: SelectionKey) -> bool
    ensures { result ≡ is_file key }
{
    match key {
        SelectionKey::File(_) => true,
        SelectionKey::None | SelectionKey::Section(_) | SelectionKey::Line(_) => false,
    }
}

/// Returns whether `key` is that of a section.
fn is_section(key: SelectionKey) -> bool
    ensures { result ≡ is_section key }
{
    match key {
        SelectionKey::Section(_) => true,
        SelectionKey::None | SelectionKey::File(_) | SelectionKey::Line(_) => false,
    }
}

/// Returns whether `key` is visible if the keys of `expanded` are unfolded.
fn is_visible(expanded: &KeySet, key: SelectionKey) -> bool
    ensures { result ≡ is_visible (has_key expanded.now) key }
{
    match key {
        SelectionKey::None => false,
        SelectionKey::File(_) => true,
        SelectionKey::Section(key) => expanded.contains(SelectionKey::File(key.file())),
        SelectionKey::Line(key) => {
            let in_file = expanded.contains(SelectionKey::File(key.file()));
            let in_section = expanded.contains(SelectionKey::Section(key.section()));
            in_file & in_section
        }
    }
}

/// Returns whether a move to `place` from `selection` may stop at `key`.
fn is_stop(place: Place, expanded: &KeySet, selection: SelectionKey, key: SelectionKey) -> bool
    ensures { result ≡ is_stop place (has_key expanded.now) selection key }
{
    match place {
        Place::First => true,
        Place::Last => is_visible(expanded, key),
        Place::Section(way) => {
            let is_kind = is_section(key);
            is_kind & is_towards(way, selection, key)
        }
        Place::File(way) => {
            let is_kind = is_file(key);
            is_kind & is_towards(way, selection, key)
        }
    }
}

/// Returns what a move has found after `key`, if `found` was found before it and `is_stop` says whether it may
/// stop there: downwards the first, upwards the last.
fn kept(
    way: Way,
    found: Option<SelectionKey>,
    key: SelectionKey,
    is_stop: bool,
) -> Option<SelectionKey>
    ensures { result ≡ kept way found key is_stop }
{
    match (way, found) {
        (Way::Down, Some(first)) => Some(first),
        (Way::Down, None) => { if is_stop { Some(key) } else { None } }
        (Way::Up, found) => { if is_stop { Some(key) } else { found } }
    }
}

/// Returns the item of `keys`, all of a state in order, to which a move to `place` leads from `selection`.
fn item_at(
    place: Place,
    expanded: &KeySet,
    keys: &[SelectionKey],
    selection: SelectionKey,
) -> Option<SelectionKey>
    ensures { result ≡ item_at place (has_key expanded.now) keys.now selection }
{
    let way = way_of(place);
    let mut found = None;
    for index in 0..keys.len() {
        let key = keys[index];
        let can_stop = is_stop(place, expanded, selection, key);
        found = kept(way, found, key, can_stop);
    }
    found
}

/// Returns the item of `files` to which a move to `place` leads from `selection`, where the keys of `expanded`
/// are unfolded. If there is none, returns `selection`.
///
/// # Errors
///
/// - `OutOfMemory`: an allocation failed.
pub fn moved_to(
    alloc: Global,
    place: Place,
    expanded: &KeySet,
    files: &[File<'_>],
    selection: SelectionKey,
) -> Result<SelectionKey, RecordError>
    ensures ok { IfOk result (λ key.
        key ≡ moved_to place (has_key expanded.now) files.now selection) }
    ensures err { IfErr result (λ e. e ≡ OutOfMemory) }
{
    let keys = all_keys(alloc, files)?;
    let found = item_at(place, expanded, keys.as_slice(), selection);
    Ok(found.unwrap_or(selection))
}
