//! The rows of the sections of a file.
ghost use Rattle.std.specs.Prelude.{◌≡◌, ◌+◌, ◌*◌, ◌≤◌, ◌<◌, ◌^◌, ◌++◌, take, drop, false, true, length, sum_by, IsTrue};
ghost use Rattle.scm_types.specs.Limits.{max_items, section_size};
ghost use Rattle.scm_types.specs.Marks.{is_editable_section};
ghost use Rattle.scm_rows.specs.Context.{place};
ghost use Rattle.scm_rows.specs.Heights.{shown_height};
ghost use Rattle.scm_layout.specs.Rows.{HasAllSections, fold_count, folded_count, is_expanded, is_first_open, is_open, sections_height, sections_rows};
ghost use Rattle.scm_layout.specs.Refolds.{height_from, is_open_above, rows_from};
ghost use Rattle.scm_layout.specs.SectionStack.{tops_of};

use scm_rows::section_heights::shown_height;
use scm_rows::section_shape::is_changed;
use scm_rows::{SectionPlace, SectionShape};
use scm_selection::key_set::KeySet;
use scm_types::keys::FileKey;
use scm_types::{Section, SelectionKey};

/// The rows of a section, counted from the row below the header of its file as if the file were
/// unfolded.
#[derive(Clone, Copy, Debug)]
pub struct SectionRows {
    /// The first row, or where it would be if the section is not shown.
    pub top: usize,
    /// The end of the rows, exclusive; `top` if the section is not shown.
    pub end: usize,
    /// What the section is, for the index of a frame.
    pub shape: SectionShape,
}

/// The files and sections that are unfolded.
#[derive(Clone, Copy)]
pub(crate) struct Unfolded<'set> {
    /// Their keys.
    pub(crate) keys: &'set KeySet,
    /// Whether no key is looked up. True only if `keys` has all files, and all sections that are not
    /// context.
    pub(crate) are_all: bool,
}

/// Returns whether section `index` of file `key` is unfolded.
pub(crate) fn is_expanded(set: &KeySet, key: FileKey, index: usize) -> bool
    ensures { result ≡ is_expanded set.now key index }
{
    set.contains(SelectionKey::Section(key.section(index)))
}

/// Returns whether `section`, which has index `index` in file `key`, is open: editable and unfolded.
fn is_open(unfolded: Unfolded<'_>, key: FileKey, index: usize, section: &Section<'_>) -> bool
    requires { IsTrue unfolded.are_all → is_editable_section section.now ≡ true
        → is_expanded unfolded.keys.now key index ≡ true }
    ensures { result ≡ is_open unfolded.entry.keys.now key index section.now }
{
    if unfolded.are_all {
        section.is_editable()
    } else {
        section.is_editable() && is_expanded(unfolded.keys, key, index)
    }
}

/// Returns whether there is section `index` of `sections`, all sections of file `key`, and it is open.
fn is_open_at(unfolded: Unfolded<'_>, key: FileKey, index: usize, sections: &[Section<'_>]) -> bool
    requires { IsTrue unfolded.are_all → HasAllSections unfolded.keys.now key sections.now }
    ensures { result ≡ is_first_open unfolded.entry.keys.now key index (drop index sections.now) }
{
    if index < sections.len() {
        is_open(unfolded, key, index, &sections[index])
    } else {
        false
    }
}

/// Returns how many rows `section` has. It has index `index` of `total`; `before`, `is_open` and
/// `after` say whether the section above it, itself and the section below it are open.
fn visible_height(
    total: usize,
    index: usize,
    before: bool,
    is_open: bool,
    section: &Section<'_>,
    after: bool,
) -> usize
    requires { section_size section.now ≤ max_items }
    ensures { result ≡ shown_height (place total index) is_open before section.now after }
{
    let place = SectionPlace { index, total };
    shown_height(place, is_open, before, section, after)
}

/// Returns whether there is a section above section `index` of `sections`, all sections of file `key`,
/// and it is open.
fn is_open_above(
    unfolded: Unfolded<'_>,
    key: FileKey,
    index: usize,
    sections: &[Section<'_>],
) -> bool
    requires { IsTrue unfolded.are_all → HasAllSections unfolded.keys.now key sections.now }
    ensures { result ≡ is_open_above unfolded.entry.keys.now key index sections.now }
{
    if index == 0 {
        false
    } else {
        is_open_at(unfolded, key, index - 1, sections)
    }
}

/// Returns `row` in the width in which rows are kept.
pub(crate) fn narrow(row: usize) -> u32
    requires { row < 2 ^ 32 }
    ensures { result ≡ row }
{
    row as u32
}

/// Finds where sections `first..end` (exclusive) of `sections`, all sections of file `key`, begin. The
/// first of them begins on row `top`. Returns the end of their rows, exclusive.
#[tactic(auto, using(scm_types::proofs::LimitLemmas::items_room))]
pub(crate) fn refold_range(
    tops: &mut [u32],
    unfolded: Unfolded<'_>,
    key: FileKey,
    sections: &[Section<'_>],
    first: usize,
    end: usize,
    top: usize,
) -> usize
    requires lengths { length tops.old ≡ length sections.now }
    requires range { (first ≤ end) × (end ≤ length sections.now) }
    requires fits { length sections.now + sum_by section_size sections.now ≤ max_items }
    requires room { top + height_from unfolded.keys.now key first sections.now ≤ 2 * max_items }
    requires all { IsTrue unfolded.are_all → HasAllSections unfolded.keys.now key sections.now }
    ensures rows { take end tops.new
        ++ tops_of (rows_from unfolded.entry.keys.now key end result sections.now)
        ≡ take first tops.old
        ++ tops_of (rows_from unfolded.entry.keys.now key first top sections.now) }
    ensures others { drop end tops.new ≡ drop end tops.old }
    ensures height { result + height_from unfolded.entry.keys.now key end sections.now
        ≡ top + height_from unfolded.entry.keys.now key first sections.now }
{
    let total = sections.len();
    let mut next = top;
    let mut before = is_open_above(unfolded, key, first, sections);
    let mut this = is_open_at(unfolded, key, first, sections);
    for index in first..end {
        let section = &sections[index];
        let after = is_open_at(unfolded, key, index + 1, sections);
        let height = visible_height(total, index, before, this, section, after);
        tops[index] = narrow(next);
        next += height;
        before = this;
        this = after;
    }
    next
}

/// Finds where all `sections` of file `key` begin. Returns how many rows they have.
pub(crate) fn refold_tops(
    tops: &mut [u32],
    unfolded: Unfolded<'_>,
    key: FileKey,
    sections: &[Section<'_>],
) -> usize
    requires lengths { length tops.old ≡ length sections.now }
    requires fits { length sections.now + sum_by section_size sections.now ≤ max_items }
    requires all { IsTrue unfolded.are_all → HasAllSections unfolded.keys.now key sections.now }
    ensures tops { tops.new ≡ tops_of (sections_rows unfolded.entry.keys.now key
        (length sections.now) 0 0 false sections.now) }
    ensures height { result
        ≡ sections_height unfolded.entry.keys.now key (length sections.now) 0 false sections.now }
{
    refold_range(tops, unfolded, key, sections, 0, sections.len(), 0)
}

/// Returns 1 if `section`, which has index `index` in file `key`, has changed lines and is folded, else 0.
fn fold_count(unfolded: Unfolded<'_>, key: FileKey, index: usize, section: &Section<'_>) -> usize
    requires { IsTrue unfolded.are_all → is_editable_section section.now ≡ true
        → is_expanded unfolded.keys.now key index ≡ true }
    ensures count { result ≡ fold_count unfolded.entry.keys.now key index section.now }
    ensures most { result ≤ 1 }
{
    let is_changed = is_changed(section);
    // `&`: one branch for the prover
    let is_folded = is_changed & !is_open(unfolded, key, index, section);
    if is_folded { 1 } else { 0 }
}

/// Returns how many of `sections`, all sections of file `key`, have changed lines and are folded.
pub(crate) fn folded_count(unfolded: Unfolded<'_>, key: FileKey, sections: &[Section<'_>]) -> usize
    requires { IsTrue unfolded.are_all → HasAllSections unfolded.keys.now key sections.now }
    ensures { result ≡ folded_count unfolded.entry.keys.now key 0 sections.now }
{
    if unfolded.are_all {
        return 0;
    }
    let mut folded = 0;
    for (index, section) in sections.iter().enumerate() {
        folded += fold_count(unfolded, key, index, section);
    }
    folded
}
