//! What a state is given of a changed file.
ghost use Rattle.std.specs.Prelude.{◌≡◌};
ghost use Rattle.scm_tree_sides.specs.Shown.{first_mode, go_along, is_by_lines, is_no_file, is_same, is_whole, renamed_modes_of, shown_as, shown_modes};

use crate::modes::{Modes, files_of, is_link, link_beside};

/// How the contents of a changed file are shown.
#[derive(Clone, Copy)]
pub enum Shown {
    /// By lines. A link beside a file that is shown by lines counts as no file.
    Lines,

    /// By items: one for the mode, and one for the contents, unless they come and go with the mode.
    Items,

    /// By one item for all of the file, if a new version comes whose contents come with its mode, and else as by `Items`.
    Whole,
}

/// A changed file.
#[derive(Clone, Copy)]
pub struct Changed {
    /// The modes of its versions.
    pub modes: Modes,

    /// How its contents are shown.
    pub shown: Shown,

    /// Whether its old version has another path. Then both versions exist.
    pub is_renamed: bool,
}

/// What a state is given of a changed file.
#[derive(Clone, Copy)]
pub struct ShownAs {
    /// The mode before the changes, or `None` if the file does not exist then.
    pub old: Option<usize>,

    /// The mode after all changes, or `None` if the file does not exist then.
    pub new: Option<usize>,

    /// Whether the change of the mode is an item.
    pub has_mode: bool,

    /// Whether the contents are an item, and no lines.
    pub has_contents: bool,
}

/// Returns whether both versions have one mode, or neither exists.
fn is_same(old: Option<usize>, new: Option<usize>) -> bool
    ensures { result ≡ is_same old new }
{
    match (old, new) {
        (None, None) => true,
        (None, Some(_)) | (Some(_), None) => false,
        (Some(old), Some(new)) => old == new,
    }
}

/// Returns whether a version is no file: it does not exist, or is a link.
fn is_no_file(version: Option<usize>) -> bool
    ensures { result ≡ is_no_file version }
{
    match version {
        None => true,
        Some(mode) => is_link(mode),
    }
}

/// Returns whether contents that are items come and go with the mode.
pub(crate) fn go_along(modes: Modes) -> bool
    ensures { result ≡ go_along modes }
{
    let is_any = is_no_file(modes.old) | is_no_file(modes.new);
    !is_same(modes.old, modes.new) & is_any
}

/// Returns the modes of both versions of a renamed file, or `None` if the file is none.
pub(crate) fn renamed_modes_of(changed: Changed) -> Option<(usize, usize)>
    ensures { result ≡ renamed_modes_of changed }
{
    if !changed.is_renamed {
        return None;
    }
    match (changed.modes.old, changed.modes.new) {
        (Some(old), Some(new)) => Some((old, new)),
        (None, _) | (Some(_), None) => None,
    }
}

/// Returns whether contents are shown by lines.
pub(crate) fn is_by_lines(shown: Shown) -> bool
    ensures { result ≡ is_by_lines shown }
{
    match shown {
        Shown::Lines => true,
        Shown::Items | Shown::Whole => false,
    }
}

/// Returns whether one item is for all of the file.
pub(crate) fn is_whole(changed: Changed) -> bool
    ensures { result ≡ is_whole changed }
{
    match changed.shown {
        Shown::Whole => {
            let comes = changed.modes.new.is_some() & go_along(changed.modes);
            !changed.is_renamed & comes
        }
        Shown::Lines | Shown::Items => false,
    }
}

/// Returns the modes that are shown: a link beside a file that is shown by lines counts as no file.
fn shown_modes(changed: Changed) -> Modes
    ensures { result ≡ shown_modes changed }
{
    if is_by_lines(changed.shown) & link_beside(changed.modes).is_some() {
        files_of(changed.modes)
    } else {
        changed.modes
    }
}

/// Returns the mode before the changes. That of a renamed file has no kind, as no file has it: so its new path is an
/// item, a change of the mode.
fn first_mode(changed: Changed) -> Option<usize>
    ensures { result ≡ first_mode changed }
{
    match renamed_modes_of(changed) {
        Some((old, _)) => Some(old % 4096),
        None => {
            if is_whole(changed) {
                changed.modes.new
            } else {
                shown_modes(changed).old
            }
        }
    }
}

/// Returns what a state is given of a changed file, whose contents differ if `is_other`.
pub fn shown_as(changed: Changed, is_other: bool) -> ShownAs
    ensures { result ≡ shown_as changed is_other }
{
    let old = first_mode(changed);
    let new = shown_modes(changed).new;
    let is_apart = is_other & !go_along(changed.modes);
    let has_item = is_whole(changed) | is_apart;
    ShownAs {
        old,
        new,
        has_mode: !is_same(old, new),
        has_contents: !is_by_lines(changed.shown) & has_item,
    }
}
