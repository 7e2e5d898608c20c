//! The mode that a file has in a tree, by a side of a choice.
ghost use Rattle.std.specs.Prelude.{◌≡◌};
ghost use Rattle.scm_tree_sides.specs.SideVersions.{mode_on_side, renamed_modes};
ghost use Rattle.scm_tree_sides.specs.Links.{file_mode, files_of, is_link, link_beside, mode_in_tree};

use scm_types::FileMode;

/// The modes of a file's two versions. That of a version that does not exist is `None`.
#[derive(Clone, Copy)]
pub struct Modes {
    /// The mode of the old version.
    pub old: Option<usize>,

    /// The mode of the new version.
    pub new: Option<usize>,
}

/// A side of a file, as the file's state has it.
#[derive(Clone, Copy)]
pub struct Side {
    /// Whether it is the selected side.
    pub selected: bool,

    /// Its mode.
    pub mode: FileMode,

    /// Whether its contents are those of an item, and no text.
    pub is_binary: bool,

    /// Whether it has no bytes.
    pub is_empty: bool,
}

/// Returns the mode of a file on a side, or `None` if the file does not exist there. `modes` are those of its versions.
///
/// On the unselected side a file with lines stays.
pub fn mode_on_side(modes: Modes, side: Side) -> Option<usize>
    ensures { result ≡ mode_on_side modes side }
{
    match side.mode {
        FileMode::Unix(bits) => Some(bits),
        FileMode::Absent => {
            if side.selected {
                return None;
            }
            if side.is_empty {
                return None;
            }
            modes.old.or(modes.new)
        }
    }
}

/// Returns whether `mode` is that of a link.
pub(crate) fn is_link(mode: usize) -> bool
    ensures { result ≡ is_link mode }
{
    mode / 4096 == 10
}

/// Returns the mode of the link, if one of two versions is a link and the other one a file.
pub(crate) fn link_beside(modes: Modes) -> Option<usize>
    ensures { result ≡ link_beside modes }
{
    let (Some(old), Some(new)) = (modes.old, modes.new) else {
        return None;
    };
    if is_link(old) {
        if is_link(new) { None } else { Some(old) }
    } else if is_link(new) {
        Some(new)
    } else {
        None
    }
}

/// Returns the mode of a version that is a file, or `None` if it is a link, or does not exist.
fn file_mode(version: Option<usize>) -> Option<usize>
    ensures { result ≡ file_mode version }
{
    let Some(mode) = version else {
        return None;
    };
    if is_link(mode) { None } else { Some(mode) }
}

/// Returns the modes of the versions that are files.
pub(crate) fn files_of(modes: Modes) -> Modes
    ensures { result ≡ files_of modes }
{
    Modes {
        old: file_mode(modes.old),
        new: file_mode(modes.new),
    }
}

/// Returns the mode that a tree has at the path of a file by a side, or `None` if nothing is there. `modes` are those of
/// the file's versions.
///
/// The lines of a file that takes the place of a link, or that a link takes the place of, are shown as those of a new or
/// a deleted file. Where that file does not exist, the link does.
pub fn mode_in_tree(modes: Modes, side: Side) -> Option<usize>
    ensures { result ≡ mode_in_tree modes side }
{
    let link = link_beside(modes);
    if link.is_none() {
        return mode_on_side(modes, side);
    }
    let file = mode_on_side(files_of(modes), side);
    file.or(link)
}

/// Returns the modes that a renamed file has at its old and at its new path, of which one is `None`.
/// `mode` is that of the side.
pub fn renamed_modes(old: usize, new: usize, mode: FileMode) -> (Option<usize>, Option<usize>)
    ensures { result ≡ renamed_modes old new mode }
{
    match mode {
        FileMode::Absent => (Some(old), None),
        FileMode::Unix(bits) => {
            if bits == new {
                (None, Some(new))
            } else {
                (Some(old), None)
            }
        }
    }
}
