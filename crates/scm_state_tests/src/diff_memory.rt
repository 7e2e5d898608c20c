//! What refused memory leaves of a file from two versions. `tools/refuse-memory` runs each test with
//! each of its requests for memory refused. The checks hold then, and the test passes or ends in
//! `OutOfMemory`.
use crate::checks::check_equal;
use scm_diff::{
    Version, changed_file, owned_file, side_bytes, side_text, text_of_bytes, word_spans,
};
use scm_types::{File, RecordError, Text};
use std::alloc::{AllocError, Global};
use std::process::Abort;

/// The old and the new bytes: of Latin-1, with a pair of lines, and without a last line end.
const OLD: &[u8] = b"caf\xE9\none(a)\nsame\nkept\n";

const NEW: &[u8] = b"caf\xE8\none(b)\nsame\nkept\nend";

/// The old and the new version: the texts of these bytes.
const OLD_VERSION: Version<'static> = Version {
    mode: 0o100644,
    text: "caf\u{E00E9}\none(a)\nsame\nkept\n",
};

const NEW_VERSION: Version<'static> = Version {
    mode: 0o100755,
    text: "caf\u{E00E8}\none(b)\nsame\nkept\nend",
};

/// Checks that `found` has the bytes `wanted`, unless memory is refused.
fn check_found(
    rt: &impl Abort,
    found: Result<Vec<u8>, AllocError>,
    wanted: &[u8],
) -> Result<(), RecordError> {
    check_equal(rt, found?.as_slice(), wanted);
    Ok(())
}

/// Checks that a side of `file` has the bytes. If memory is refused, the same call returns them later.
fn check_bytes(
    rt: &impl Abort,
    alloc: Global,
    file: &File<'_>,
    selected: bool,
    wanted: &[u8],
) -> Result<(), RecordError> {
    let first = check_found(rt, side_bytes(alloc, file, selected), wanted);
    if first.is_err() {
        check_found(rt, side_bytes(alloc, file, selected), wanted)?;
    }
    first
}

/// Checks the sides of `copy`, before and after a toggle.
fn check_sides(rt: &impl Abort, alloc: Global, copy: &mut File<'_>) -> Result<(), RecordError> {
    check_bytes(rt, alloc, copy, true, OLD)?;
    check_bytes(rt, alloc, copy, false, NEW)?;
    copy.toggle_all();
    check_bytes(rt, alloc, copy, true, NEW)?;
    check_equal(
        rt,
        side_text(alloc, copy, false)?.as_str(),
        OLD_VERSION.text,
    );
    Ok(())
}

/// Copies `file`, and checks that the copy equals it and has its sides.
fn check_copy(rt: &impl Abort, alloc: Global, file: &File<'_>) -> Result<(), RecordError> {
    let mut copy = owned_file(alloc, file)?;
    check_equal(rt, &copy, file);
    check_sides(rt, alloc, &mut copy)
}

/// Checks that the text of `bytes` is `wanted`.
fn check_text(
    rt: &impl Abort,
    alloc: Global,
    bytes: &[u8],
    wanted: &str,
) -> Result<(), RecordError> {
    check_equal(rt, text_of_bytes(alloc, bytes)?.as_str(), wanted);
    Ok(())
}

#[test]
fn refused_memory_keeps_files(rt: HostRuntime) -> Result<(), RecordError> {
    let alloc = rt.alloc();
    check_text(&rt, alloc, OLD, OLD_VERSION.text)?;
    check_text(&rt, alloc, NEW, NEW_VERSION.text)?;
    let file = changed_file(alloc, Text::from("f"), Some(OLD_VERSION), Some(NEW_VERSION))?;
    check_copy(&rt, alloc, &file)
}

#[test]
fn refused_memory_keeps_words(rt: HostRuntime) -> Result<(), RecordError> {
    let spans = word_spans(rt.alloc(), "foo(a, b)", "foo(x, y)")?;
    check_equal(&rt, spans.len(), 2);
    Ok(())
}
