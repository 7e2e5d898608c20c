//! Additions to a state, their refusals, and marks, checked against the project's values.
use crate::checks::{check_equal, made};
use crate::samples::state_of;
use crate::{forms, parts};
use scm_embed::marks::mark_of;
use scm_embed::{Addition, BuildError, Part, StateBuilder};
use scm_samples::{ADDED, DEFAULT, REMOVED, text_of};
use scm_types::{ChangeType, File, FileMode, RecordError, RecordState, Text, Tristate};
use std::alloc::Global;
use std::process::Abort;

/// Returns a file without sections.
fn new_file() -> Addition<'static> {
    Addition::File {
        old_path: None,
        path: Text::from("f"),
        file_mode: DEFAULT,
    }
}

/// Returns the context lines of `text`.
fn context_of(text: &str) -> Addition<'_> {
    let text = Text::from(text);
    Addition::Part {
        part: Part::Context { text },
    }
}

/// Returns the changed lines of `text`.
fn changes_of(is_checked: bool, change_type: ChangeType, text: &'static str) -> Addition<'static> {
    Addition::Part {
        part: Part::Changes {
            is_checked,
            change_type,
            text: Text::from(text),
        },
    }
}

/// An addition, as a constant.
#[derive(Clone, Copy)]
enum Given {
    /// A commit, with its message if it has one.
    Commit(Option<&'static str>),
    /// A file without sections.
    File,
    /// The context lines of a text.
    Context(&'static str),
    /// The changed lines of a text, and their mark.
    Changes(bool, ChangeType, &'static str),
    /// The beginning of a section of changed lines.
    Section,
    /// The deletion of the file.
    Deletion,
    /// A binary change.
    Bytes,
}

/// All additions: two commits, and a file with lines in three sections, its deletion and a binary
/// change.
const GIVEN: &[Given] = &[
    Given::Commit(Some("m")),
    Given::Commit(None),
    Given::File,
    Given::Context("a\n\n"),
    Given::Context("b\n"),
    Given::Changes(true, REMOVED, "c\n"),
    Given::Changes(false, ADDED, "d\ne"),
    Given::Section,
    Given::Changes(true, ADDED, "g\n"),
    Given::Context(""),
    Given::Deletion,
    Given::Bytes,
];

/// Returns the addition of the part `part`.
fn part_of(part: Part<'static>) -> Addition<'static> {
    Addition::Part { part }
}

/// Returns the addition `given`.
fn addition_of(given: Given) -> Addition<'static> {
    match given {
        Given::Commit(message) => Addition::Commit {
            message: forms::optional_text(message),
        },
        Given::File => new_file(),
        Given::Context(text) => context_of(text),
        Given::Changes(is_checked, change_type, text) => changes_of(is_checked, change_type, text),
        Given::Section => part_of(Part::Lines { is_changed: true }),
        Given::Deletion => part_of(Part::Mode {
            is_checked: true,
            mode: FileMode::Absent,
        }),
        Given::Bytes => part_of(Part::Binary {
            is_checked: true,
            old_description: Some(Text::from("old")),
            new_description: None,
        }),
    }
}

/// The sections of the file that the additions make.
const PARTS: &[parts::Part] = &[
    parts::Part::Context(&["a\n", "\n", "b\n"]),
    parts::Part::Changes(&[
        (true, REMOVED, "c\n"),
        (false, ADDED, "d\n"),
        (false, ADDED, "e"),
    ]),
    parts::Part::Changes(&[(true, ADDED, "g\n")]),
    parts::Part::Mode(true, FileMode::Absent),
    parts::Part::Bytes(Some("old"), None),
];

/// Returns the file that the additions make.
fn file_made(rt: &impl Abort, alloc: Global) -> File<'static> {
    made(rt, parts::file_with_parts(alloc, DEFAULT, PARTS))
}

/// Returns the state that the additions make.
fn state_made(rt: &impl Abort, alloc: Global) -> RecordState<'static> {
    state_of(rt, alloc, true, file_made(rt, alloc))
}

/// Adds `addition`. The clauses of `StateBuilder::add` make the proofs of its callers long.
fn add(
    alloc: Global,
    builder: &mut StateBuilder,
    addition: Addition<'_>,
) -> Result<(), BuildError> {
    builder.add(alloc, addition)
}

/// Adds all to an empty state.
fn builder_made(rt: &impl Abort, alloc: Global) -> StateBuilder {
    let mut builder = StateBuilder::new(alloc, true);
    for given in GIVEN {
        made(rt, add(alloc, &mut builder, addition_of(*given)));
    }
    builder
}

/// Checks that the state of `builder` is accepted, and is that which the additions make.
fn check_builder(rt: &impl Abort, alloc: Global, builder: &StateBuilder) {
    check_equal(rt, builder.is_accepted(), true);
    check_equal(rt, builder.state(), &state_made(rt, alloc));
}

#[test]
fn additions_make_a_state(rt: HostRuntime) {
    let builder = builder_made(&rt, rt.alloc());
    check_builder(&rt, rt.alloc(), &builder);
    check_equal(&rt, builder.into_state(), state_made(&rt, rt.alloc()));
}

/// Checks that `addition` is refused with `error`, and that the state stays.
fn check_refused(
    rt: &impl Abort,
    alloc: Global,
    builder: &mut StateBuilder,
    addition: Addition<'_>,
    error: BuildError,
) {
    let before = made(rt, builder.state().try_clone(alloc));
    check_equal(rt, add(alloc, builder, addition), Err(error));
    check_equal(rt, builder.state(), &before);
}

/// Checks that a third commit is refused, and a line that is too long.
fn check_limits(rt: &impl Abort, alloc: Global, builder: &mut StateBuilder) {
    let third = Addition::Commit { message: None };
    check_refused(rt, alloc, builder, third, BuildError::TooManyCommits);
    let long = made(rt, text_of(alloc, RecordState::MAX_TEXT + 1));
    let line = context_of(long.as_str());
    check_refused(rt, alloc, builder, line, BuildError::TooLong);
}

/// Checks that a line is refused where there is no file.
fn check_empty(rt: &impl Abort, alloc: Global) {
    let mut empty = StateBuilder::new(alloc, false);
    check_refused(rt, alloc, &mut empty, context_of("a\n"), BuildError::NoFile);
}

#[test]
fn refused_additions_leave_the_state(rt: HostRuntime) {
    check_empty(&rt, rt.alloc());
    check_limits(&rt, rt.alloc(), &mut builder_made(&rt, rt.alloc()));
}

/// A file, one of its sections and one of that section's lines, counted from 0, and the mark of the
/// innermost one that is given.
type Marked = (usize, Option<usize>, Option<usize>, Option<Tristate>);

/// Items of the state that the additions make, and items that it does not have.
const MARKED: &[Marked] = &[
    (0, None, None, Some(Tristate::Partial)),
    (0, Some(2), None, Some(Tristate::True)),
    (0, Some(1), Some(0), Some(Tristate::True)),
    (0, Some(1), Some(1), Some(Tristate::False)),
    (0, Some(0), Some(0), None),
    (0, Some(5), None, None),
    (1, None, None, None),
];

/// Checks the mark of the item of `state` that `row` names.
fn check_mark(rt: &impl Abort, state: &RecordState<'_>, row: &Marked) {
    check_equal(rt, &mark_of(state, row.0, row.1, row.2), &row.3);
}

#[test]
fn items_have_their_marks(rt: HostRuntime) {
    let state = state_made(&rt, rt.alloc());
    for row in MARKED {
        check_mark(&rt, &state, row);
    }
}

/// The marks of the file that the additions make, handed in as bytes, and the section and the line of
/// which one mark is asked then, with that mark.
type HandedIn = (&'static [u8], usize, Option<usize>, Option<Tristate>);

/// Marks that fit. Any byte but 1 is of an item that is not checked.
const HANDED_IN: &[HandedIn] = &[
    (&[0, 0, 0, 0, 0, 0], 1, None, Some(Tristate::False)),
    (&[0, 1, 0, 0, 0, 0], 1, None, Some(Tristate::Partial)),
    (&[2, 1, 0, 0, 0, 0], 1, Some(0), Some(Tristate::False)),
    (&[1, 1, 1, 0, 0, 0], 2, Some(0), Some(Tristate::False)),
    (&[0, 0, 0, 1, 1, 0], 3, None, Some(Tristate::True)),
    (&[0, 0, 0, 0, 0, 1], 4, None, Some(Tristate::True)),
];

/// Hands in `marks` for the file `file`. The clauses of `StateBuilder::set_marks` make the proofs of its
/// callers long.
fn set_marks(builder: &mut StateBuilder, file: usize, marks: &[u8]) -> bool {
    builder.set_marks(file, marks)
}

/// Hands in the marks of `row`, and checks one of them.
fn check_handed_in(rt: &impl Abort, builder: &mut StateBuilder, row: &HandedIn) {
    check_equal(rt, set_marks(builder, 0, row.0), true);
    let mark = mark_of(builder.state(), 0, Some(row.1), row.2);
    check_equal(rt, (row.0, &mark), (row.0, &row.3));
}

#[test]
fn marks_are_handed_in(rt: HostRuntime) {
    let mut builder = builder_made(&rt, rt.alloc());
    for row in HANDED_IN {
        check_handed_in(&rt, &mut builder, row);
    }
}

/// Files, and marks that do not fit them.
const UNFIT: &[(usize, &[u8])] = &[(0, &[0; 5]), (0, &[0; 7]), (0, &[]), (1, &[])];

#[test]
fn marks_that_do_not_fit_leave_the_state(rt: HostRuntime) {
    let mut builder = builder_made(&rt, rt.alloc());
    for (file, marks) in UNFIT {
        check_equal(&rt, set_marks(&mut builder, *file, *marks), false);
        check_builder(&rt, rt.alloc(), &builder);
    }
}

/// Adds `addition`: the state changes, or memory is refused and the state stays.
fn check_memory(
    rt: &impl Abort,
    alloc: Global,
    builder: &mut StateBuilder,
    addition: Addition<'_>,
) -> Result<(), RecordError> {
    let before = builder.state().try_clone(alloc)?;
    let outcome = add(alloc, builder, addition);
    check_equal(rt, builder.state() == &before, outcome.is_err());
    check_refusal(rt, outcome)
}

/// Returns `outcome`, and checks that its error is `OutOfMemory`.
fn check_refusal(rt: &impl Abort, outcome: Result<(), BuildError>) -> Result<(), RecordError> {
    match outcome {
        Ok(()) => Ok(()),
        Err(error) => {
            check_equal(rt, error, BuildError::OutOfMemory);
            Err(RecordError::OutOfMemory)
        }
    }
}

/// A file, and lines in two sections.
const FEW: &[Given] = &[
    Given::File,
    Given::Context("a\nb\n"),
    Given::Context("c\n"),
    Given::Changes(true, ADDED, "d\ne\n"),
    Given::Changes(false, REMOVED, "g"),
];

#[test]
fn refused_memory_leaves_the_state(rt: HostRuntime) -> Result<(), RecordError> {
    let alloc = rt.alloc();
    let mut builder = StateBuilder::new(alloc, false);
    for given in FEW {
        check_memory(&rt, alloc, &mut builder, addition_of(*given))?;
    }
    Ok(())
}
