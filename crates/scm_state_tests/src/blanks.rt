//! A table of versions without changes of blanks.
use crate::checks::{check_equal, made};
use scm_diff::{WithoutBlankChanges, without_blank_changes};
use std::alloc::{AllocError, Global};
use std::process::Abort;

/// The old and the new bytes of a file, the new ones without changes of blanks, and how many lines are left out.
type Version = (&'static [u8], &'static [u8], &'static [u8], usize);

const VERSIONS: &[Version] = &[
    (b"", b"", b"", 0),
    (b"a\nb\n", b" a\t\nb\x0B\x0C\r\n", b"a\nb\n", 2),
    // a line that comes, and one that goes
    (b"a\nb\n", b"a \nB \nb\n", b"a\nB \nb\n", 1),
    (b"a\nx\nb\n", b" a\nb\n", b"a\nb\n", 1),
    // a line end is no blank
    (b"a", b"a \n", b"a \n", 0),
    (b"a\n", b"\na\n", b"\na\n", 0),
    // and neither is U+A0; bytes that are not UTF-8 come back
    (b"a\xC2\xA0b\n", b"ab\n", b"ab\n", 0),
    (b"x y\n\xFF\n", b"xy\n\xFF \n", b"x y\n\xFF\n", 2),
];

/// Checks the bytes of a version, and how many lines are left out.
fn check_version(
    rt: &impl Abort,
    found: Result<WithoutBlankChanges, AllocError>,
    bytes: &[u8],
    left_out: usize,
) {
    let found = made(rt, found);
    check_equal(
        rt,
        (found.bytes.as_slice(), found.left_out),
        (bytes, left_out),
    );
}

#[test]
fn blanks_are_left_out(rt: HostRuntime) {
    for row in VERSIONS {
        let found = without_blank_changes(rt.alloc(), row.0, row.1);
        check_version(&rt, found, row.2, row.3);
    }
}
