//! The owners of the columns of each kind of row.
use crate::checks::check_equal;
use crate::row_samples::{FILE, LINE, SECTION, What, shown};
use scm_strips::row_owner;
use scm_types::SelectionKey;
use scm_widgets::ids::ComponentId;
use std::process::Abort;

/// A part of a row that owns columns.
#[derive(Clone, Copy)]
enum Part {
    /// The checkbox of this key.
    Checkbox(SelectionKey),
    /// The fold box of this key.
    Fold(SelectionKey),
    /// The header of the file.
    Header,
    /// The line.
    Line,
    /// The button that edits the message of commit 1.
    Edit,
    /// No part of the row.
    Nobody,
}

/// Returns the component that `part` is.
fn component(part: Part) -> Option<ComponentId> {
    match part {
        Part::Checkbox(key) => Some(ComponentId::ToggleBox(key)),
        Part::Fold(key) => Some(ComponentId::ExpandBox(key)),
        Part::Header => Some(ComponentId::FileViewHeader(FILE)),
        Part::Line => Some(ComponentId::SelectableItem(SelectionKey::Line(LINE))),
        Part::Edit => Some(ComponentId::CommitEditMessageButton(1)),
        Part::Nobody => None,
    }
}

const FILE_ITEM: SelectionKey = SelectionKey::File(FILE);

const SECTION_ITEM: SelectionKey = SelectionKey::Section(SECTION);

const LINE_ITEM: SelectionKey = SelectionKey::Line(LINE);

/// A row, the width of its area, a column counted from the area's first one, and its owner.
type Owned = (What, usize, isize, Part);

/// A path of 18 columns.
const LONG: What = What::File("src/a_long_name.rs");

/// Each kind of row in 20 columns, then texts that end behind their area, then areas of few columns.
const OWNED: &[Owned] = &[
    (What::File("src/main.rs"), 20, -1, Part::Nobody),
    (What::File("src/main.rs"), 20, 2, Part::Checkbox(FILE_ITEM)),
    (What::File("src/main.rs"), 20, 3, Part::Header),
    (What::File("src/main.rs"), 20, 17, Part::Fold(FILE_ITEM)),
    (What::File("src/main.rs"), 20, 20, Part::Nobody),
    (What::Section(1, 2), 20, 1, Part::Nobody),
    (What::Section(1, 2), 20, 2, Part::Checkbox(SECTION_ITEM)),
    (What::Section(1, 2), 20, 5, Part::Nobody),
    (What::Section(1, 2), 20, 19, Part::Fold(SECTION_ITEM)),
    (What::Added("abc\n"), 20, 3, Part::Line),
    (What::Added("abc\n"), 20, 6, Part::Checkbox(LINE_ITEM)),
    (What::Added("abc\n"), 20, 19, Part::Line),
    (What::Deleted, 20, 4, Part::Checkbox(SECTION_ITEM)),
    (What::Deleted, 20, 6, Part::Nobody),
    (What::Context(12, "abc\n"), 20, 0, Part::Line),
    (What::Dots, 20, 8, Part::Nobody),
    (What::Blank, 20, 2, Part::Nobody),
    (What::Message("Fix it"), 20, 13, Part::Edit),
    (What::Message("Fix it"), 20, 14, Part::Nobody),
    (What::Margin, 20, 0, Part::Nobody),
    (What::Words, 20, 5, Part::Nobody),
    (LONG, 10, 21, Part::Header),
    (LONG, 10, 22, Part::Nobody),
    (What::Renamed("a", "b"), 8, 9, Part::Header),
    (What::Renamed("a", "b"), 8, 10, Part::Nobody),
    (What::Added("0123456789abcdef\n"), 6, 26, Part::Line),
    (What::Added("0123456789abcdef\n"), 6, 27, Part::Nobody),
    (What::Context(7, "\tb\n"), 14, 15, Part::Line),
    (What::Context(7, "\tb\n"), 14, 16, Part::Nobody),
    (What::File("a"), 1, -2, Part::Fold(FILE_ITEM)),
    (What::File("a"), 1, 4, Part::Header),
    (What::File("a"), 1, 5, Part::Nobody),
    (What::File("a"), 3, -1, Part::Header),
];

/// Checks the owner of a column of a row.
fn check_owner(rt: &impl Abort, row: Owned) {
    let (what, width, column, part) = row;
    assert!(rt; width < 65536);
    let owner = row_owner(width, &shown(what), column);
    check_equal(rt, (width, column, owner), (width, column, component(part)));
}

#[test]
fn columns_of_rows_have_their_owners(rt: HostRuntime) {
    for row in OWNED {
        check_owner(&rt, *row);
    }
}
