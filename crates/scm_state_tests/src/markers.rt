//! Tables of merges with markers around what is open, in the style `diff3` of git.
use crate::checks::check_bytes;
use crate::merge_table::merge_of;
use crate::sides::mark;
use scm_merge::{Labels, bytes_with_markers};
use std::alloc::Global;
use std::process::Abort;

/// The base, ours and theirs, the marks of the items as bits, the lowest one first, and the merge.
type Marked = (
    &'static str,
    &'static str,
    &'static str,
    usize,
    &'static str,
);

/// How many signs the markers of git have.
const USUAL: usize = 7;

const MERGES: &[Marked] = &[
    // an open conflict, and the same one settled
    (
        "a\nb\nc\n",
        "a\nx\nc\n",
        "a\ny\nc\n",
        0b010,
        "a\n<<<<<<< main\nx\n||||||| old\nb\n=======\ny\n>>>>>>> topic\nc\n",
    ),
    ("a\nb\nc\n", "a\nx\nc\n", "a\ny\nc\n", 0b011, "a\nx\nc\n"),
    // versions without lines
    (
        "a\nb\nc\n",
        "a\nc\n",
        "a\ny\nc\n",
        0b010,
        "a\n<<<<<<< main\n||||||| old\nb\n=======\ny\n>>>>>>> topic\nc\n",
    ),
    (
        "a\n",
        "a\nx\n",
        "a\ny\n",
        0b010,
        "a\n<<<<<<< main\nx\n||||||| old\n=======\ny\n>>>>>>> topic\n",
    ),
    // lines that both sides have around the conflict
    (
        "a\nb\nc\n",
        "a\np\nx\nq\nc\n",
        "a\np\ny\nq\nc\n",
        0b010,
        "a\np\n<<<<<<< main\nx\n||||||| old\nb\n=======\ny\n>>>>>>> topic\nq\nc\n",
    ),
    // the first conflict is settled, and the second one is open
    (
        "a\nb\nc\n",
        "x\nb\nz\n",
        "y\nb\nw\n",
        0b010011,
        "x\nb\n<<<<<<< main\nz\n||||||| old\nc\n=======\nw\n>>>>>>> topic\n",
    ),
    // last lines without a line end get one before a marker
    (
        "a\nb",
        "a\nx",
        "a\ny",
        0b010,
        "a\n<<<<<<< main\nx\n||||||| old\nb\n=======\ny\n>>>>>>> topic\n",
    ),
    // the first line end is CR LF, so those of the markers are, too
    (
        "a\r\nb\r\n",
        "a\r\nx",
        "a\r\ny\n",
        0b010,
        "a\r\n<<<<<<< main\r\nx\r\n||||||| old\r\nb\r\n=======\r\ny\n>>>>>>> topic\r\n",
    ),
    (
        "a\nb\r\n",
        "a\nx\r\n",
        "a\ny\r\n",
        0b010,
        "a\n<<<<<<< main\nx\r\n||||||| old\nb\r\n=======\ny\r\n>>>>>>> topic\n",
    ),
    // a line that begins with a marker makes the markers longer
    (
        "a\n=======\n",
        "a\n>>>>>>>>x\n",
        "a\n|||||\n",
        0b010,
        "a\n<<<<<<<<< main\n>>>>>>>>x\n||||||||| old\n=======\n=========\n|||||\n>>>>>>>>> topic\n",
    ),
    // six signs, other bytes and signs that differ do not
    (
        "======\nb\n",
        "======\n-------- x\n",
        "======\n<><><><><>\n",
        0b010,
        "======\n<<<<<<< main\n-------- x\n||||||| old\nb\n=======\n<><><><><>\n>>>>>>> topic\n",
    ),
];

/// The labels of the merges.
const LABELS: Labels<'static> = Labels {
    ours: "main",
    base: "old",
    theirs: "topic",
};

/// Checks the merge with markers.
fn check_markers(rt: &impl Abort, alloc: Global, row: Marked) {
    let mut file = merge_of(rt, alloc, row.0, row.1, row.2);
    mark(&mut file, row.3);
    let found = bytes_with_markers(alloc, &file, LABELS, USUAL);
    check_bytes(rt, found, row.4.as_bytes());
}

#[test]
fn open_conflicts_have_markers(rt: HostRuntime) {
    for row in MERGES {
        check_markers(&rt, rt.alloc(), *row);
    }
}

/// Labels, of which two have a line end.
const OF_LINES: Labels<'static> = Labels {
    ours: "a\nb",
    base: "",
    theirs: "a\rb",
};

#[test]
fn labels_with_a_line_end_are_left_out(rt: HostRuntime) {
    let file = merge_of(&rt, rt.alloc(), "b\n", "x\n", "y\n");
    let found = bytes_with_markers(rt.alloc(), &file, OF_LINES, USUAL);
    check_bytes(&rt, found, b"<<<<<<<\nx\n|||||||\nb\n=======\ny\n>>>>>>>\n");
}

/// A length that is asked for, the base, which is also the beginning of ours and of theirs, ours and
/// theirs, and the markers around their last lines.
type Long = (
    usize,
    &'static str,
    &'static str,
    &'static str,
    &'static str,
);

const LENGTHS: &[Long] = &[
    (
        7,
        "a\n",
        "a\nx\n",
        "a\ny\n",
        "a\n<<<<<<<\nx\n|||||||\n=======\ny\n>>>>>>>\n",
    ),
    (
        10,
        "a\n",
        "a\nx\n",
        "a\ny\n",
        "a\n<<<<<<<<<<\nx\n||||||||||\n==========\ny\n>>>>>>>>>>\n",
    ),
    // a line that begins so makes them longer than what is asked for
    (
        3,
        ">>>>\n",
        ">>>>\nx\n",
        ">>>>\ny\n",
        ">>>>\n<<<<<\nx\n|||||\n=====\ny\n>>>>>\n",
    ),
    (1, "a\n", "a\nx\n", "a\ny\n", "a\n<\nx\n|\n=\ny\n>\n"),
    (0, "a\n", "a\nx\n", "a\ny\n", "a\n<\nx\n|\n=\ny\n>\n"),
];

/// No labels.
const NO_LABELS: Labels<'static> = Labels {
    ours: "",
    base: "",
    theirs: "",
};

/// Checks the merge with markers of a length.
fn check_length(rt: &impl Abort, alloc: Global, row: Long) {
    let file = merge_of(rt, alloc, row.1, row.2, row.3);
    let found = bytes_with_markers(alloc, &file, NO_LABELS, row.0);
    check_bytes(rt, found, row.4.as_bytes());
}

#[test]
fn markers_have_the_length_that_is_asked_for(rt: HostRuntime) {
    for row in LENGTHS {
        check_length(&rt, rt.alloc(), *row);
    }
}
