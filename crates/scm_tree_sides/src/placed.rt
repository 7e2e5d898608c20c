//! What a tree has of a changed file by a side of it.
ghost use Rattle.std.specs.Prelude.{◌≡◌};
ghost use Rattle.scm_tree_sides.specs.InTree.{contents_beside, contents_in, contents_of, in_tree, is_link_version, is_mode_of, is_new_item, item_mode, line_contents, mode_in, renamed_contents};

use crate::modes::{
    Modes, Side, files_of, is_link, link_beside, mode_in_tree, mode_on_side, renamed_modes,
};
use crate::shown::{Changed, go_along, is_by_lines, is_whole, renamed_modes_of};
use scm_types::FileMode;

/// Whose contents a file has in a tree.
#[derive(Clone, Copy)]
pub enum Origin {
    /// Those of the side: its lines.
    OfSide,

    /// Those of the old version.
    OfOld,

    /// Those of the new version.
    OfNew,
}

/// What a tree has of a changed file.
#[derive(Clone, Copy)]
pub struct InTree {
    /// The mode at the file's path, or `None` if nothing is there.
    pub mode: Option<usize>,

    /// The mode at the path before a rename, or `None` if nothing is there.
    pub old_path_mode: Option<usize>,

    /// Whose contents the file has.
    pub contents: Origin,
}

/// Returns the contents of the new version if `is_new`, or else of the old one.
fn contents_of(is_new: bool) -> Origin
    ensures { result ≡ contents_of is_new }
{
    if is_new { Origin::OfNew } else { Origin::OfOld }
}

/// Returns whether a side's mode is that of a version.
fn is_mode_of(mode: FileMode, version: Option<usize>) -> bool
    ensures { result ≡ is_mode_of mode version }
{
    match (mode, version) {
        (FileMode::Absent, None) => true,
        (FileMode::Absent, Some(_)) | (FileMode::Unix(_), None) => false,
        (FileMode::Unix(side), Some(bits)) => side == bits,
    }
}

/// Returns whether contents that are items are those of the new version.
fn is_new_item(changed: Changed, side: Side) -> bool
    ensures { result ≡ is_new_item changed side }
{
    if is_whole(changed) {
        return side.is_binary;
    }
    let comes = go_along(changed.modes) & is_mode_of(side.mode, changed.modes.new);
    side.is_binary | comes
}

/// Returns the mode of a side whose contents are items, or `None` if the file does not exist there.
fn item_mode(changed: Changed, side: Side) -> Option<usize>
    ensures { result ≡ item_mode changed side }
{
    if !is_whole(changed) {
        return match side.mode {
            FileMode::Absent => None,
            FileMode::Unix(bits) => Some(bits),
        };
    }
    if side.is_binary {
        changed.modes.new
    } else {
        changed.modes.old
    }
}

/// Returns whether a version is a link.
fn is_link_version(version: Option<usize>) -> bool
    ensures { result ≡ is_link_version version }
{
    match version {
        None => false,
        Some(mode) => is_link(mode),
    }
}

/// Returns whose contents there are beside a link, where the file has the mode `file`.
fn contents_beside(modes: Modes, file: Option<usize>) -> Origin
    ensures { result ≡ contents_beside modes file }
{
    match file {
        Some(_) => Origin::OfSide,
        None => contents_of(is_link_version(modes.new)),
    }
}

/// Returns whose contents a file has that is shown by lines, beside this link, if there is one.
fn line_contents(link: Option<usize>, modes: Modes, side: Side) -> Origin
    ensures { result ≡ line_contents link modes side }
{
    match link {
        None => Origin::OfSide,
        Some(_) => contents_beside(modes, mode_on_side(files_of(modes), side)),
    }
}

/// Returns whose contents a file has that is not renamed.
fn contents_in(changed: Changed, side: Side) -> Origin
    ensures { result ≡ contents_in changed side }
{
    if is_by_lines(changed.shown) {
        line_contents(link_beside(changed.modes), changed.modes, side)
    } else {
        contents_of(is_new_item(changed, side))
    }
}

/// Returns the mode of a file that is not renamed.
fn mode_in(changed: Changed, side: Side) -> Option<usize>
    ensures { result ≡ mode_in changed side }
{
    if is_by_lines(changed.shown) {
        mode_in_tree(changed.modes, side)
    } else {
        item_mode(changed, side)
    }
}

/// Returns whose contents a renamed file has.
fn renamed_contents(changed: Changed, side: Side) -> Origin
    ensures { result ≡ renamed_contents changed side }
{
    if is_by_lines(changed.shown) {
        Origin::OfSide
    } else {
        contents_of(is_new_item(changed, side))
    }
}

/// Returns what a tree has of a changed file by a side of it: the modes at its paths, and whose contents it has.
pub fn in_tree(changed: Changed, side: Side) -> InTree
    ensures { result ≡ in_tree changed side }
{
    match renamed_modes_of(changed) {
        None => InTree {
            mode: mode_in(changed, side),
            old_path_mode: None,
            contents: contents_in(changed, side),
        },
        Some((old, new)) => {
            let (old_path_mode, mode) = renamed_modes(old, new, side.mode);
            InTree {
                mode,
                old_path_mode,
                contents: renamed_contents(changed, side),
            }
        }
    }
}
