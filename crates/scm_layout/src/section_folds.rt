//! What the fold of one section changes of the rows of its file's sections.
ghost use Rattle.std.specs.Prelude.{◌≡◌, ◌+◌, ◌*◌, ◌≤◌, ◌<◌, ◌^◌, ◌++◌, take, drop, map, false, length, sum_by};
ghost use Rattle.scm_types.specs.Limits.{max_items, section_size};
ghost use Rattle.scm_layout.specs.Refolds.{AreBetween, AreTopsButSection, folded_after};
ghost use Rattle.scm_layout.specs.Rows.{sections_height, sections_rows};
ghost use Rattle.scm_layout.specs.SectionStack.{moved_row, tops_of};

use crate::section_rows::{Unfolded, narrow, refold_range};
use crate::section_stack::end_at;
use scm_rows::section_shape::is_changed;
use scm_selection::key_set::KeySet;
use scm_types::Section;
use scm_types::keys::FileKey;

/// Moves `tops`, from that of section `first` on, from row `from` to row `to`.
pub(crate) fn move_tops(tops: &mut [u32], first: usize, from: usize, to: usize)
    requires first { first ≤ length tops.old }
    requires rows { AreBetween from (2 * max_items) (drop first tops.old) }
    requires to { to ≤ 2 * max_items }
    ensures { tops.new ≡ take first tops.old ++ map (moved_row from to) (drop first tops.old) }
{
    let count = tops.len();
    for index in first..count {
        let row = tops[index] as usize;
        tops[index] = narrow(to + (row - from));
    }
}

/// Mends `tops`, where all `sections` of file `key` begin, after section `index` was folded or unfolded.
/// The last one ended at `last`. Finds those of the section and of its neighbours anew, and moves those
/// below. Returns the end of the last one.
pub(crate) fn mend_tops(
    tops: &mut [u32],
    last: usize,
    set: &KeySet,
    key: FileKey,
    sections: &[Section<'_>],
    index: usize,
) -> usize
    requires tops { AreTopsButSection tops.old last set.now key sections.now index }
    requires index { index < length sections.now }
    requires fits { length sections.now + sum_by section_size sections.now ≤ max_items }
    ensures tops { tops.new
        ≡ tops_of (sections_rows set.now key (length sections.now) 0 0 false sections.now) }
    ensures last { result
        ≡ sections_height set.now key (length sections.now) 0 false sections.now }
{
    let first = index.saturating_sub(1);
    let end = sections.len().min(index + 2);
    let top = tops[first] as usize;
    let from = end_at(tops, last, end - 1);
    let unfolded = Unfolded {
        keys: set,
        are_all: false,
    };
    let to = refold_range(tops, unfolded, key, sections, first, end, top);
    move_tops(tops, end, from, to);
    to + (last - from)
}

/// Returns how many sections of changed lines are folded after `section` was unfolded, or folded, if
/// `folded` were before.
pub(crate) fn folded_after(folded: usize, section: &Section<'_>, is_unfolded: bool) -> usize
    requires { folded + 1 < 2 ^ 64 }
    ensures { result ≡ folded_after folded section.now is_unfolded }
{
    if !is_changed(section) {
        folded
    } else if is_unfolded {
        folded.saturating_sub(1)
    } else {
        folded + 1
    }
}
