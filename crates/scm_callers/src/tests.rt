//! A run of keys, and the side that it selects.
ghost use Rattle.std.specs.Prelude.{IsTrue};
ghost use Rattle.scm_record.specs.Limits.{is_accepted_state};

use crate::{mark_first_line, selected_side};
use scm_record::{
    ChangeType, File, FileMode, Items, RecordState, Section, SectionChangedLine, SelectedChanges,
    SelectedContents, Text,
};
use std::alloc::Global;
use std::fmt::Debug;
use std::process::Abort;

/// Returns the value of `outcome`. An error fails the test.
pub(crate) fn made<T, E: Debug + Drop>(rt: &impl Abort, outcome: Result<T, E>) -> T {
    match outcome {
        Ok(value) => value,
        Err(error) => panic!(rt; "{error:?}"),
    }
}

/// Checks that `found` is `expected`. A failure shows both.
pub(crate) fn check_equal<T: PartialEq + Debug + Drop>(rt: &impl Abort, found: T, expected: T) {
    assert_eq!(rt; found, expected);
}

/// Returns a file with one added line.
fn file_of_one_line(rt: &impl Abort, alloc: Global) -> File<'static> {
    let line = SectionChangedLine {
        is_checked: false,
        change_type: ChangeType::Added,
        line: Text::from("a\n"),
    };
    let section = Section::Changed {
        lines: Items::from(made(rt, vec![in alloc; line])),
    };
    File {
        old_path: None,
        path: Text::from("f"),
        file_mode: FileMode::FILE_DEFAULT,
        sections: Items::from(made(rt, vec![in alloc; section])),
    }
}

/// Returns a state of one file with one added line.
pub(crate) fn state_of_one_line(rt: &impl Abort, alloc: Global) -> RecordState<'static>
    ensures { IsTrue (is_accepted_state result) }
{
    let file = file_of_one_line(rt, alloc);
    let state = RecordState {
        is_read_only: false,
        commits: Items::new(alloc),
        files: Items::from(made(rt, vec![in alloc; file])),
    };
    assert!(rt; state.is_accepted());
    state
}

/// Returns whether `side` is `text`.
pub(crate) fn has_text(side: &SelectedChanges<'_>, text: &str) -> bool {
    matches!(&side.contents, SelectedContents::Text { contents } if contents.as_str() == text)
}

/// Checks that the selected side of `file` is its line.
fn check_side(rt: &impl Abort, alloc: Global, file: &File<'_>) {
    let side = made(rt, selected_side(alloc, file));
    check_equal(rt, side.file_mode, FileMode::FILE_DEFAULT);
    check_equal(rt, has_text(&side, "a\n"), true);
}

#[test]
fn the_first_line_goes_into_the_commit(rt: HostRuntime) {
    let state = state_of_one_line(&rt, rt.alloc());
    let marked = made(&rt, mark_first_line(rt.alloc(), state));
    check_equal(&rt, marked.files.len(), 1);
    for file in marked.files.as_slice() {
        check_side(&rt, rt.alloc(), file);
    }
}
