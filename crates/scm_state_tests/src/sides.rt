//! Files of two texts, their marks, and the sides that these leave.
use crate::checks::{check_owned, made};
use scm_diff::{Version, changed_file, side_text};
use scm_types::{File, Section, Text};
use std::alloc::Global;
use std::process::Abort;

/// Returns the version of `text`.
pub(crate) fn version(text: &str) -> Option<Version<'_>> {
    Some(Version {
        mode: 0o100644,
        text,
    })
}

/// Returns the file of two texts.
pub(crate) fn file_of<'a>(rt: &impl Abort, alloc: Global, old: &'a str, new: &'a str) -> File<'a> {
    made(
        rt,
        changed_file(alloc, Text::from("f"), version(old), version(new)),
    )
}

/// Marks the changed lines by the bits of `marks`, the lowest one first.
pub(crate) fn mark(file: &mut File<'_>, marks: usize) {
    let mut left = marks;
    for section in file.sections.iter_mut() {
        if let Section::Changed { lines } = section {
            for line in lines.iter_mut() {
                line.is_checked = left % 2 == 1;
                left /= 2;
            }
        }
    }
}

/// Checks that a side of `file` is `wanted`: what is checked if `is_selected`, else the rest.
pub(crate) fn check_side(
    rt: &impl Abort,
    alloc: Global,
    file: &File<'_>,
    is_selected: bool,
    wanted: &str,
) {
    check_owned(rt, side_text(alloc, file, is_selected), wanted);
}
