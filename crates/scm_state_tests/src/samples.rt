//! States of one file.
use crate::checks::made;
use crate::parts::{Part, file_with_parts};
use scm_samples::{ADDED, DEFAULT, Line, REMOVED, commits_of};
use scm_types::{File, FileMode, Items, RecordState};
use std::alloc::Global;
use std::process::Abort;

/// A checked removed line and an unchecked added line.
const LINES: &[Line] = &[(true, REMOVED, "c\n"), (false, ADDED, "d\n")];

/// Two lines of context, the lines of `LINES`, a checked deletion, and a line of context.
const PARTS: &[Part] = &[
    Part::Context(&["a\n", "b\n"]),
    Part::Changes(LINES),
    Part::Mode(true, FileMode::Absent),
    Part::Context(&["e\n"]),
];

/// Returns a state of `file`, and of two commits, of which the first has a message.
pub(crate) fn state_of(
    rt: &impl Abort,
    alloc: Global,
    is_read_only: bool,
    file: File<'static>,
) -> RecordState<'static> {
    RecordState {
        is_read_only,
        commits: made(rt, commits_of(alloc, "m")),
        files: Items::from(made(rt, vec![in alloc; file])),
    }
}

/// Returns the state of a file of `PARTS`.
pub(crate) fn small_state(rt: &impl Abort, alloc: Global) -> RecordState<'static> {
    let file = made(rt, file_with_parts(alloc, DEFAULT, PARTS));
    state_of(rt, alloc, false, file)
}
