//! Tables of texts that are merged.
use crate::checks::{check_bytes, check_equal, made};
use crate::sides::mark;
use scm_diff::{hunks, lines_of};
use scm_merge::{
    Region, merge_regions, merge_regions_by, merged_bytes, merged_file, open_conflicts,
};
use scm_samples::DEFAULT;
use scm_types::{File, Text};
use std::alloc::{AllocError, Global};
use std::process::Abort;

/// The base, ours and theirs, the marks of the items as bits, the lowest one first, how many conflicts
/// are open, and the merge.
type Merge = (
    &'static str,
    &'static str,
    &'static str,
    usize,
    usize,
    &'static str,
);

const MERGES: &[Merge] = &[
    // each side changed another line
    (
        "a\nb\nc\n",
        "a\nx\nc\n",
        "a\nb\nc\nd\n",
        0,
        0,
        "a\nx\nc\nd\n",
    ),
    // ours, the base and theirs of one line: nothing is taken, one, or all but the base
    ("a\nb\nc\n", "a\nx\nc\n", "a\ny\nc\n", 0b010, 1, "a\nc\n"),
    ("a\nb\nc\n", "a\nx\nc\n", "a\ny\nc\n", 0b011, 0, "a\nx\nc\n"),
    ("a\nb\nc\n", "a\nx\nc\n", "a\ny\nc\n", 0b000, 0, "a\nb\nc\n"),
    ("a\nb\nc\n", "a\nx\nc\n", "a\ny\nc\n", 0b110, 0, "a\ny\nc\n"),
    (
        "a\nb\nc\n",
        "a\nx\nc\n",
        "a\ny\nc\n",
        0b111,
        0,
        "a\nx\ny\nc\n",
    ),
    // ours deleted the line: open, and settled with the same lines
    ("a\nb\nc\n", "a\nc\n", "a\ny\nc\n", 0b010, 1, "a\nc\n"),
    ("a\nb\nc\n", "a\nc\n", "a\ny\nc\n", 0b011, 0, "a\nc\n"),
    // two insertions at one place
    ("a\nb\n", "a\nx\nb\n", "a\ny\nb\n", 0b010, 1, "a\nb\n"),
    // changes of neighbouring lines touch
    (
        "a\nb\nc\nd\n",
        "a\nx\nc\nd\n",
        "a\nb\ny\nd\n",
        0b001100,
        1,
        "a\nd\n",
    ),
    (
        "a\nb\nc\nd\n",
        "a\nx\nc\nd\n",
        "a\nb\ny\nd\n",
        0b101101,
        0,
        "a\nx\ny\nd\n",
    ),
    // lines that both sides have around the conflict
    (
        "a\nb\nc\n",
        "a\np\nx\nq\nc\n",
        "a\np\ny\nq\nc\n",
        0b010,
        1,
        "a\np\nq\nc\n",
    ),
    // two conflicts, of which the second one is open
    ("a\nb\nc\n", "x\nb\nz\n", "y\nb\nw\n", 0b010011, 1, "x\nb\n"),
    // a line without a line end gets one if another line follows
    ("a\nb", "a\nx", "a\ny", 0b111, 0, "a\nx\ny"),
    // both sides made the same
    ("a\n", "b\n", "b\n", 0, 0, "b\n"),
];

/// Returns the merge of three texts.
pub(crate) fn merge_of<'a>(
    rt: &impl Abort,
    alloc: Global,
    base: &'a str,
    ours: &'a str,
    theirs: &'a str,
) -> File<'a> {
    made(
        rt,
        merged_file(alloc, Text::from("f"), DEFAULT, base, ours, theirs),
    )
}

/// Checks what the marks of a merge give.
fn check_merge(rt: &impl Abort, alloc: Global, row: Merge) {
    let mut file = merge_of(rt, alloc, row.0, row.1, row.2);
    mark(&mut file, row.3);
    check_equal(rt, open_conflicts(&file), row.4);
    check_bytes(rt, merged_bytes(alloc, &file), row.5.as_bytes());
}

#[test]
fn marks_give_the_merge(rt: HostRuntime) {
    for row in MERGES {
        check_merge(&rt, rt.alloc(), *row);
    }
}

/// The ends of a region: its start and its end in the base, in ours and in theirs.
type Ends = (usize, usize, usize, usize, usize, usize);

/// Returns the region with these ends.
fn region(ends: Ends) -> Region {
    Region {
        base_start: ends.0,
        base_end: ends.1,
        ours_start: ends.2,
        ours_end: ends.3,
        theirs_start: ends.4,
        theirs_end: ends.5,
    }
}

/// Checks that `found` are the regions with the ends `wanted`.
fn check_regions(rt: &impl Abort, found: Result<Vec<Region>, AllocError>, wanted: &[Ends]) {
    let found = made(rt, found);
    check_equal(rt, found.len(), wanted.len());
    for (found, ends) in found.iter().zip(wanted) {
        check_equal(rt, *found, region(*ends));
    }
}

/// The lines of the base.
const BASE: &str = "a\nb\nc\nd\n";

/// The lines of ours: line 1 is changed.
const OURS: &str = "a\nx\nc\nd\n";

/// Checks the region of ours, in which line 1 is changed, and of theirs, in which line 2 is deleted.
fn check_touching(rt: &impl Abort, alloc: Global, base: &[Text<'_>], ours: &[Text<'_>]) {
    let theirs = made(rt, lines_of(alloc, "a\nb\nd\n"));
    let found = merge_regions(alloc, base, ours, theirs.as_slice());
    check_regions(rt, found, &[(1, 3, 1, 3, 1, 2)]);
}

#[test]
fn changes_that_touch_are_one_region(rt: HostRuntime) {
    let alloc = rt.alloc();
    let base = made(&rt, lines_of(alloc, BASE));
    let ours = made(&rt, lines_of(alloc, OURS));
    check_touching(&rt, alloc, base.as_slice(), ours.as_slice());
}

/// Checks the regions of three versions, and of the same with both sides exchanged, all by the same hunks.
/// Line 1 of ours was changed alone, and then line 3 of theirs alone, which became two lines.
fn check_exchanged(
    rt: &impl Abort,
    alloc: Global,
    base: &[Text<'_>],
    ours: &[Text<'_>],
    theirs: &[Text<'_>],
) {
    let our_hunks = made(rt, hunks(alloc, base, ours));
    let their_hunks = made(rt, hunks(alloc, base, theirs));
    let (of_ours, of_theirs) = (our_hunks.as_slice(), their_hunks.as_slice());
    let found = merge_regions_by(alloc, base, ours, theirs, of_ours, of_theirs);
    check_regions(rt, found, &[(1, 2, 1, 2, 1, 2), (3, 4, 3, 4, 3, 5)]);
    let exchanged = merge_regions_by(alloc, base, theirs, ours, of_theirs, of_ours);
    check_regions(rt, exchanged, &[(1, 2, 1, 2, 1, 2), (3, 4, 3, 5, 3, 4)]);
}

/// Checks the regions of `base`, `ours` and theirs, in which line 3 became two lines.
fn check_apart(rt: &impl Abort, alloc: Global, base: &[Text<'_>], ours: &[Text<'_>]) {
    let theirs = made(rt, lines_of(alloc, "a\nb\nc\ny\nz\n"));
    check_exchanged(rt, alloc, base, ours, theirs.as_slice());
}

#[test]
fn the_same_hunks_make_the_exchanged_regions(rt: HostRuntime) {
    let alloc = rt.alloc();
    let base = made(&rt, lines_of(alloc, BASE));
    let ours = made(&rt, lines_of(alloc, OURS));
    check_apart(&rt, alloc, base.as_slice(), ours.as_slice());
}
