//! What refused memory leaves of a merge. `tools/refuse-memory` runs the test with each of its requests
//! for memory refused. The checks hold then, and the test passes or ends in `OutOfMemory`.
use crate::checks::check_equal;
use scm_merge::{Labels, bytes_with_markers, merged_bytes, merged_file, open_conflicts};
use scm_samples::DEFAULT;
use scm_types::{File, RecordError, Text};
use std::alloc::{AllocError, Global};
use std::process::Abort;

/// Checks that `found` has the bytes `wanted`, unless memory is refused.
fn check_found(
    rt: &impl Abort,
    found: Result<Vec<u8>, AllocError>,
    wanted: &[u8],
) -> Result<(), RecordError> {
    check_equal(rt, found?.as_slice(), wanted);
    Ok(())
}

/// Checks the merge that `file` gives. If memory is refused, the same call returns it later.
fn check_merge(rt: &impl Abort, alloc: Global, file: &File<'_>) -> Result<(), RecordError> {
    let first = check_found(rt, merged_bytes(alloc, file), b"a\n");
    if first.is_err() {
        check_found(rt, merged_bytes(alloc, file), b"a\n")?;
    }
    first
}

#[test]
fn refused_memory_keeps_merges(rt: HostRuntime) -> Result<(), RecordError> {
    let (ours, theirs) = ("a\nx\n", "a\ny\nz\n");
    let file = merged_file(rt.alloc(), Text::from("f"), DEFAULT, "a\nb\n", ours, theirs)?;
    check_equal(&rt, open_conflicts(&file), 1);
    check_merge(&rt, rt.alloc(), &file)
}

/// The labels of both sides.
const LABELS: Labels<'static> = Labels {
    ours: "main",
    base: "",
    theirs: "",
};

/// The merge with markers.
const MARKED: &[u8] = b"<<<<<<< main\nx\n|||||||\nb\n=======\ny\n>>>>>>>\n";

/// Checks the merge of `file` with markers. If memory is refused, the same call returns it later.
fn check_markers(rt: &impl Abort, alloc: Global, file: &File<'_>) -> Result<(), RecordError> {
    let first = check_found(rt, bytes_with_markers(alloc, file, LABELS, 7), MARKED);
    if first.is_err() {
        check_found(rt, bytes_with_markers(alloc, file, LABELS, 7), MARKED)?;
    }
    first
}

#[test]
fn refused_memory_keeps_markers(rt: HostRuntime) -> Result<(), RecordError> {
    let file = merged_file(rt.alloc(), Text::from("f"), DEFAULT, "b", "x", "y")?;
    check_markers(&rt, rt.alloc(), &file)
}
