//! Moves of the selection by a page: about half a screen, by where the keys were last drawn.
ghost use Rattle.std.specs.Prelude.{◌≡◌};
ghost use Rattle.scm_record.specs.Frames.{IsSceneOf, Scene};
ghost use Rattle.scm_selection.specs.KeySet.{has_key};
ghost use Rattle.scm_selection.specs.KeyLists.{visible_keys};
ghost use Rattle.scm_selection.specs.Moves.{keys_behind, next_key};
ghost use Rattle.scm_record.specs.Pages.{is_far, is_page_away, page_key, towards, walk_end};

use crate::frame::DrawnFrame;
use scm_selection::key_set::KeySet;
use scm_selection::moves::{is_visible_key, next_visible, previous_visible};
use scm_types::File;
use scm_types::keys::is_key;
use scm_view::SelectionKey;

/// The direction of a move of the selection, over the visible keys or by a page.
#[derive(Clone, Copy)]
pub enum Way {
    /// Towards the first row of the document.
    Up,
    /// Towards the last row of the document.
    Down,
}

/// Returns whether row `top` is `rows` or more away from `row` in direction `way`. `top` is the
/// first row of a key, or `None` if the key wasn't drawn.
fn is_far(way: Way, rows: usize, row: usize, top: Option<usize>) -> bool
    ensures { result ≡ is_far way rows row top }
{
    match (way, top) {
        (Way::Up, Some(top)) => top <= row && rows <= row - top,
        (Way::Down, Some(top)) => row <= top && rows <= top - row,
        (_, None) => false,
    }
}

/// Returns whether `key` is half a screen or more away from `row` in direction `way`.
fn is_page_away(frame: &DrawnFrame, way: Way, row: usize, key: SelectionKey) -> bool
    ensures { (scene : Scene) → IsSceneOf scene frame.now
        → result ≡ is_page_away scene way row key }
{
    is_far(way, frame.height() / 2, row, frame.top(key))
}

/// Returns the visible key next to `key` in direction `way`, or `key` if there is none.
fn next_towards(way: Way, expanded: &KeySet, files: &[File<'_>], key: SelectionKey) -> SelectionKey
    ensures { result
        ≡ next_key (towards way (visible_keys (has_key expanded.now) files.now)) key key }
{
    match way {
        Way::Up => previous_visible(expanded, files, key, key),
        Way::Down => next_visible(expanded, files, key, key),
    }
}

/// Returns the first visible key after `from` in direction `way` that is a page away from `row`. If
/// there is none, returns the last visible key in that direction.
fn walk(
    frame: &DrawnFrame,
    way: Way,
    row: usize,
    expanded: &KeySet,
    files: &[File<'_>],
    from: SelectionKey,
) -> SelectionKey
    ensures { (scene : Scene) → IsSceneOf scene frame.now
        → result ≡ walk_end (is_page_away scene way row) from
        (keys_behind (towards way (visible_keys (has_key expanded.now) files.now)) from) }
{
    let mut key = from;
    'steps: loop {
        let next = next_towards(way, expanded, files, key);
        if is_key(key, next) {
            return key;
        }
        if is_page_away(frame, way, row, next) {
            return next;
        }
        key = next;
    }
}

/// Returns the visible key a page away from `key` in direction `way`, or `None` if `key` isn't
/// visible or wasn't drawn.
pub(crate) fn page_key(
    frame: &DrawnFrame,
    way: Way,
    expanded: &KeySet,
    files: &[File<'_>],
    key: SelectionKey,
) -> SelectionKey
    ensures { (scene : Scene) → IsSceneOf scene frame.now
        → result ≡ page_key scene way
        (towards way (visible_keys (has_key expanded.now) files.now)) key }
{
    match frame.top(key) {
        None => SelectionKey::None,
        Some(row) => {
            if is_visible_key(expanded, files, key) {
                walk(frame, way, row, expanded, files, key)
            } else {
                SelectionKey::None
            }
        }
    }
}
