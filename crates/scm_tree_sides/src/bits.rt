//! Changed files as C has them. The greatest `usize` stands for no file.
ghost use Rattle.std.specs.Prelude.{◌≡◌};
ghost use Rattle.scm_tree_sides.specs.Bits.{bits_of, changed_of, in_tree_bits, mode_with_bits, origin_number, shown_bits, shown_of, version_mode};
ghost use Rattle.scm_tree_sides.specs.InTree.{in_tree};
ghost use Rattle.scm_tree_sides.specs.Shown.{shown_as};

use crate::modes::{Modes, Side};
use crate::placed::{Origin, in_tree};
use crate::shown::{Changed, Shown, shown_as};
use scm_types::FileMode;

/// Contents are shown by lines.
pub const BY_LINES: u32 = 0;
/// Contents are shown by items.
pub const BY_ITEMS: u32 = 1;
/// Contents are shown by one item, with the mode.
pub const BY_ONE_ITEM: u32 = 2;

/// A file has the contents of the side.
pub const OF_SIDE: u32 = 0;
/// A file has the contents of the old version.
pub const OF_OLD: u32 = 1;
/// A file has the contents of the new version.
pub const OF_NEW: u32 = 2;

/// A changed file.
#[repr(C)]
#[derive(Clone, Copy)]
pub struct ChangedBits {
    /// The mode of the old version.
    pub old: usize,
    /// The mode of the new version.
    pub new: usize,
    /// How the contents are shown: `BY_LINES`, `BY_ITEMS` or `BY_ONE_ITEM`.
    pub shown: u32,
    /// Whether the old version has another path.
    pub is_renamed: bool,
}

/// What a state is given of a changed file.
#[repr(C)]
#[derive(Clone, Copy)]
pub struct ShownBits {
    /// The mode before the changes.
    pub old: usize,
    /// The mode after all changes.
    pub new: usize,
    /// Whether the change of the mode is an item.
    pub has_mode: bool,
    /// Whether the contents are an item, and no lines.
    pub has_contents: bool,
}

/// What a tree has of a changed file.
#[repr(C)]
#[derive(Clone, Copy)]
pub struct InTreeBits {
    /// The mode at the file's path.
    pub mode: usize,
    /// The mode at the path before a rename.
    pub old_path_mode: usize,
    /// Whose contents the file has: `OF_SIDE`, `OF_OLD` or `OF_NEW`.
    pub contents: u32,
}

/// Returns the mode of a version, or `None` if it does not exist.
fn version_mode(bits: usize) -> Option<usize>
    ensures { result ≡ version_mode bits }
{
    if bits == usize::MAX { None } else { Some(bits) }
}

/// Returns the mode of a side.
pub fn mode_with_bits(bits: usize) -> FileMode
    ensures { result ≡ mode_with_bits bits }
{
    if bits == usize::MAX {
        FileMode::Absent
    } else {
        FileMode::Unix(bits)
    }
}

/// Returns the bits of a mode.
fn bits_of(mode: Option<usize>) -> usize
    ensures { result ≡ bits_of mode }
{
    match mode {
        Some(bits) => bits,
        None => usize::MAX,
    }
}

/// Returns how contents are shown.
fn shown_of(number: u32) -> Shown
    ensures { result ≡ shown_of number }
{
    if number == BY_ITEMS {
        Shown::Items
    } else if number == BY_ONE_ITEM {
        Shown::Whole
    } else {
        Shown::Lines
    }
}

/// Returns the number that says whose contents a file has.
fn origin_number(origin: Origin) -> u32
    ensures { result ≡ origin_number origin }
{
    match origin {
        Origin::OfSide => OF_SIDE,
        Origin::OfOld => OF_OLD,
        Origin::OfNew => OF_NEW,
    }
}

/// Returns a changed file.
fn changed_of(changed: &ChangedBits) -> Changed
    ensures { result ≡ changed_of changed.now }
{
    Changed {
        modes: Modes {
            old: version_mode(changed.old),
            new: version_mode(changed.new),
        },
        shown: shown_of(changed.shown),
        is_renamed: changed.is_renamed,
    }
}

/// Returns what a state is given of a changed file, whose contents differ if `is_other`.
pub fn shown_bits(changed: &ChangedBits, is_other: bool) -> ShownBits
    ensures { result ≡ shown_bits (shown_as (changed_of changed.now) is_other) }
{
    let shown = shown_as(changed_of(changed), is_other);
    ShownBits {
        old: bits_of(shown.old),
        new: bits_of(shown.new),
        has_mode: shown.has_mode,
        has_contents: shown.has_contents,
    }
}

/// Returns what a tree has of a changed file by a side of it.
pub fn in_tree_bits(changed: &ChangedBits, side: Side) -> InTreeBits
    ensures { result ≡ in_tree_bits (in_tree (changed_of changed.now) side) }
{
    let found = in_tree(changed_of(changed), side);
    InTreeBits {
        mode: bits_of(found.mode),
        old_path_mode: bits_of(found.old_path_mode),
        contents: origin_number(found.contents),
    }
}
