//! Memory. No contract can say that memory is requested only where it is needed. So with ample
//! memory the calls that allocate are run, on arguments small and large. The other calls succeed
//! where requests are refused: `tools/refuse-memory` runs the tests named for refused memory, and
//! refuses each of their requests in turn.
use crate::checks::{check_copy, check_equal, made};
use crate::parts::{Part, file_with_parts};
use scm_samples::{ADDED, DEFAULT, REMOVED, owned, text_of};
use scm_types::{
    Commit, File, FileMode, IsizeExt, RecordError, RecordState, Section, Text, Tristate, UsizeExt,
    make_binary_description,
};
use std::alloc::Global;
use std::process::Abort;

/// Describes bytes by `text` and a size of one digit, and checks the length.
fn check_description(rt: &impl Abort, alloc: Global, text: &str) {
    let description = made(rt, make_binary_description(alloc, text, 7));
    check_equal(rt, description.len(), text.len().saturating_add(10));
}

/// Copies a commit with `message`, and checks the copy.
fn check_commit(rt: &impl Abort, alloc: Global, message: &str) {
    let commit = Commit {
        message: Some(made(rt, owned(alloc, message))),
    };
    check_equal(rt, commit == Commit::default(), false);
    check_copy(rt, commit.try_clone(alloc), &commit);
}

/// Copies a text of `count` bytes, and what contains it.
fn check_texts(rt: &impl Abort, alloc: Global, count: usize) {
    let text = Text::from(made(rt, text_of(alloc, count)));
    check_description(rt, alloc, text.as_str());
    check_copy(rt, text.clone(), &text);
    check_copy(rt, text.try_clone(alloc), &text);
    check_commit(rt, alloc, text.as_str());
}

/// The numbers of bytes of the texts.
const COUNTS: &[usize] = &[0, 1, 10_000];

#[test]
fn texts_of_any_size_are_copied(rt: HostRuntime) {
    for count in COUNTS {
        check_texts(&rt, rt.alloc(), *count);
    }
}

// ---- calls that take no memory

/// A section of each kind, partly checked.
const PARTS: &[Part] = &[
    Part::Context(&["a\n"]),
    Part::Changes(&[(false, ADDED, "b\n"), (true, REMOVED, "c\n")]),
    Part::Mode(false, DEFAULT),
    Part::Bytes(Some("old"), None),
];

/// Returns the file of `PARTS`.
fn marked_file(alloc: Global) -> Result<File<'static>, RecordError> {
    file_with_parts(alloc, DEFAULT, PARTS)
}

/// Returns a state of one file with a section of each kind, partly checked.
fn marked_state(alloc: Global) -> Result<RecordState<'static>, RecordError> {
    let mut state = RecordState::empty(alloc);
    state.files.push(marked_file(alloc)?)?;
    Ok(state)
}

/// Sets the marks of `section`, and then inverts them.
fn check_marks(rt: &impl Abort, section: &mut Section<'_>) {
    section.set_checked(true);
    let is_editable = section.is_editable();
    check_equal(rt, section.tristate(), Tristate::from(is_editable));
    section.toggle_all();
    check_equal(rt, section.tristate(), Tristate::False);
}

/// Checks the calls on the marks of a file, and of each of its sections.
fn check_file(rt: &impl Abort, file: &mut File<'_>) {
    check_equal(rt, file.tristate(), Tristate::Partial);
    file.set_checked(true);
    check_equal(rt, file.tristate(), Tristate::True);
    file.toggle_all();
    check_equal(rt, file.tristate(), Tristate::False);
    file.repair();
    check_equal(rt, file.tristate(), Tristate::False);
    for section in file.sections.iter_mut() {
        check_marks(rt, section);
    }
}

/// Checks the calls on the files of a state.
fn check_state(rt: &impl Abort, state: &mut RecordState<'_>) {
    // a file, its four sections, and their three lines
    check_equal(rt, (state.is_accepted(), state.size()), (true, 8));
    for file in state.files.iter_mut() {
        check_file(rt, file);
    }
}

/// Checks the empty values.
fn check_empty(rt: &impl Abort, alloc: Global) {
    let empty = RecordState::empty(alloc);
    let found = (empty.is_read_only, empty.is_accepted(), empty.size());
    check_equal(rt, found, (false, true, 0));
    check_equal(rt, (empty.commits.len(), empty.files.len()), (0, 0));
    check_equal(rt, Commit::default().message.is_none(), true);
}

/// Checks the conversions to modes.
fn check_modes(rt: &impl Abort) {
    check_equal(rt, FileMode::from(0o100644_usize), DEFAULT);
    check_equal(rt, made(rt, FileMode::try_from(0o100644_u32)), DEFAULT);
    check_equal(rt, made(rt, FileMode::try_from(0o100644_i32)), DEFAULT);
    check_equal(rt, FileMode::try_from(-1_i32).is_err(), true);
}

/// Sizes, and the nearest numbers of 16 bits.
const SIZES: &[(usize, u16)] = &[(7, 7), (65_535, 65_535), (65_536, 65_535)];

/// Places, the nearest numbers of 16 bits, and the nearest sizes.
const PLACES: &[(isize, u16, usize)] = &[
    (-7, 0, 0),
    (-1, 0, 0),
    (7, 7, 7),
    (65_536, 65_535, 65_536),
];

/// Checks the conversions of numbers.
fn check_numbers(rt: &impl Abort) {
    check_equal(rt, 7_usize.unwrap_isize(), 7);
    check_equal(rt, 7_isize.unwrap_usize(), 7);
    for (size, nearest) in SIZES {
        check_equal(rt, UsizeExt::clamp_into_u16(*size), *nearest);
    }
    for (place, nearest, size) in PLACES {
        check_equal(rt, IsizeExt::clamp_into_u16(*place), *nearest);
        check_equal(rt, IsizeExt::clamp_into_usize(*place), *size);
    }
}

/// Copies `state`: the copy equals it, or memory is refused.
fn check_state_copy<'a>(
    rt: &impl Abort,
    alloc: Global,
    state: &RecordState<'a>,
    same: &RecordState<'a>,
) -> Result<(), RecordError> {
    let outcome = state.try_clone(alloc);
    check_equal(rt, state, same);
    check_equal(rt, &outcome?, same);
    Ok(())
}

#[test]
fn refused_memory_keeps_states(rt: HostRuntime) -> Result<(), RecordError> {
    let alloc = rt.alloc();
    let state = marked_state(alloc)?;
    check_state_copy(&rt, alloc, &state, &marked_state(alloc)?)
}

#[test]
fn refused_memory_stops_no_call_that_takes_none(rt: HostRuntime) -> Result<(), RecordError> {
    let alloc = rt.alloc();
    check_empty(&rt, alloc);
    check_modes(&rt);
    check_numbers(&rt);
    check_equal(&rt, Tristate::from(true), Tristate::True);
    let mut state = marked_state(alloc)?;
    check_state(&rt, &mut state);
    Ok(())
}
