//! Tables of texts: where they differ, and what marks leave of them.
use crate::checks::{check_copy, check_equal, made};
use crate::sides::{check_side, file_of, mark, version};
use scm_diff::{Hunk, Version, changed_file, hunks, lines_of, owned_file};
use scm_types::Text;
use std::alloc::Global;
use std::process::Abort;

/// A hunk: its old lines and its new lines.
type Lines = (usize, usize, usize, usize);

/// Two texts, and the hunks in which they differ.
type Difference = (&'static str, &'static str, &'static [Lines]);

/// The hunks are those of `git diff -U0`.
const DIFFERENCES: &[Difference] = &[
    ("", "", &[]),
    ("a\n", "a\n", &[]),
    ("", "a\nb\n", &[(0, 0, 0, 2)]),
    ("a\nb\n", "", &[(0, 2, 0, 0)]),
    ("a\nb\nc\n", "a\nc\n", &[(1, 2, 1, 1)]),
    ("a\nc\n", "a\nb\nc\n", &[(1, 1, 1, 2)]),
    ("a\nb\nc\n", "x\nb\ny\n", &[(0, 1, 0, 1), (2, 3, 2, 3)]),
    ("a\nb", "a\nb\n", &[(1, 2, 1, 2)]),
    ("a\nb", "a\nb", &[]),
    ("a\r\nb\n", "a\nb\n", &[(0, 1, 0, 1)]),
    ("\n\n", "\n", &[(1, 2, 1, 1)]),
    // an added block stands where it is indented least, after a blank line
    (
        "f {\n    a\n}\n\ng {\n    a\n}\n",
        "f {\n    a\n}\n\nh {\n    a\n}\n\ng {\n    a\n}\n",
        &[(4, 4, 4, 8)],
    ),
    ("é\nb\n", "b\né\n", &[(0, 1, 0, 0), (2, 2, 1, 2)]),
    // lines that reach another hunk are joined to it
    ("p\n\nif\nx\n\nw\n", "p\ni\n\nw\n", &[(1, 4, 1, 2)]),
    ("x\n\nq\n", "x\ny\nz\n\n\nq\n", &[(1, 1, 1, 4)]),
];

/// Two texts, the marks of the changed lines (the first one is the lowest bit), and the two sides.
type Choice = (
    &'static str,
    &'static str,
    usize,
    &'static str,
    &'static str,
);

const CHOICES: &[Choice] = &[
    ("a\nb", "a\nb\nc\n", 0, "a\nb", "a\nb\nc\n"),
    ("a\nb", "a\nb\nc\n", 7, "a\nb\nc\n", "a\nb"),
    // only `c` is added: `b` gets its line end
    ("a\nb", "a\nb\nc\n", 4, "a\nb\nc\n", "a\nb\n"),
    ("a\nb", "a\nb\nc\n", 1, "a\n", "a\nb\nb\nc\n"),
    ("a", "b", 0, "a", "b"),
    ("a", "b", 2, "a\nb", ""),
    ("a", "b", 1, "", "a\nb"),
    ("a\n", "a", 2, "a\na", ""),
    ("", "a", 0, "", "a"),
    ("a", "", 1, "", "a"),
    // a line that reads like git's marker is a line
    (
        "a\n",
        "a\n\\ No newline at end of file\n",
        0,
        "a\n",
        "a\n\\ No newline at end of file\n",
    ),
    (
        "a\n",
        "a\n\\ No newline at end of file\n",
        1,
        "a\n\\ No newline at end of file\n",
        "a\n",
    ),
    (
        "a\n\\ No newline at end of file",
        "b\n",
        4,
        "a\n\\ No newline at end of file\nb\n",
        "",
    ),
];

/// Checks that `found` are the hunks `wanted`.
fn check_hunks(rt: &impl Abort, found: &[Hunk], wanted: &[Lines]) {
    check_equal(rt, found.len(), wanted.len());
    for (hunk, lines) in found.iter().zip(wanted) {
        let (old_start, old_end, new_start, new_end) = *lines;
        let wanted = Hunk {
            old_start,
            old_end,
            new_start,
            new_end,
        };
        check_equal(rt, *hunk, wanted);
    }
}

/// Checks where the lines `old` and `new` differ.
fn check_lines(
    rt: &impl Abort,
    alloc: Global,
    old: &[Text<'_>],
    new: &[Text<'_>],
    wanted: &[Lines],
) {
    let found = made(rt, hunks(alloc, old, new));
    check_hunks(rt, found.as_slice(), wanted);
}

/// Checks where the texts differ.
fn check_difference(rt: &impl Abort, alloc: Global, row: Difference) {
    let old = made(rt, lines_of(alloc, row.0));
    let new = made(rt, lines_of(alloc, row.1));
    check_lines(rt, alloc, old.as_slice(), new.as_slice(), row.2);
}

/// Checks the sides that the marks leave.
fn check_choice(rt: &impl Abort, alloc: Global, row: Choice) {
    let mut file = file_of(rt, alloc, row.0, row.1);
    mark(&mut file, row.2);
    check_side(rt, alloc, &file, true, row.3);
    check_side(rt, alloc, &file, false, row.4);
}

#[test]
fn texts_differ_as_git_says(rt: HostRuntime) {
    for row in DIFFERENCES {
        check_difference(&rt, rt.alloc(), *row);
    }
}

#[test]
fn marks_leave_whole_lines(rt: HostRuntime) {
    for row in CHOICES {
        check_choice(&rt, rt.alloc(), *row);
    }
}

/// Checks the file of two versions of which one is missing, the old one if `is_new`: it has two sections,
/// and a copy equals it.
fn check_made(
    rt: &impl Abort,
    alloc: Global,
    old: Option<Version<'static>>,
    new: Option<Version<'static>>,
    is_new: bool,
) {
    let file = made(rt, changed_file(alloc, Text::from("f"), old, new));
    let found = (file.file_mode.is_absent(), file.sections.len());
    check_equal(rt, found, (is_new, 2));
    check_copy(rt, owned_file(alloc, &file), &file);
}

#[test]
fn files_come_and_go(rt: HostRuntime) {
    check_made(&rt, rt.alloc(), None, version("a\n"), true);
    check_made(&rt, rt.alloc(), version("a\n"), None, false);
}
