//! The parts of a document, each drawn alone.
ghost use Rattle.std.specs.Prelude.{◌≡◌, IsTrue, true};
ghost use Rattle.std.specs.List.{list_all};
ghost use Rattle.scm_types.specs.Limits.{has_short_texts, is_short_option, is_short_text, section_size};
ghost use Rattle.scm_document.specs.Rows.{lent_text};
ghost use Rattle.scm_screen_tests.specs.Small.{AreSmallFiles, AreSmallSections, IsSmallCommit, IsSmallFile, IsSmallSection};

use crate::checks::{check_equal, made};
use crate::states::{Part, files_of};
use scm_cells::Grid;
use scm_render::{DrawnRects, Viewport};
use scm_samples::{ADDED, REMOVED, context};
use scm_types::{
    ChangeType, Commit, File, Items, RecordError, Section, SectionChangedLine, Text, Tristate,
};
use scm_view::{
    CommitMessageView, CommitView, ComponentId, FileKey, FileView, SectionKey, SectionSelection,
    SectionView, SelectionKey, TristateBox, TristateIconStyle, laws,
};
use std::alloc::Global;
use std::process::Abort;

// ---- what is drawn is in range

/// Returns whether a file with only the path `path` is within the limit of a state.
fn has_short_path(old_path: Option<&str>, path: &str) -> bool
    ensures old_path { IsTrue result → is_short_option (lent_text old_path.entry) ≡ true }
    ensures path { IsTrue result → is_short_text path.now ≡ true }
{
    match old_path {
        None => path.len() <= 1_000_000,
        Some(_) => false,
    }
}

/// Returns whether the lines of context are within the limit of a state.
fn has_short_lines(lines: &[Text<'_>]) -> bool
    ensures { result ≡ list_all is_short_text lines.now }
{
    lines.iter().all(|line| line.len() <= 1_000_000)
}

/// Returns whether the changed lines are within the limit of a state.
fn has_short_changes(lines: &[SectionChangedLine<'_>]) -> bool
    ensures { result ≡ list_all (λ l. is_short_text l.line) lines.now }
{
    lines.iter().all(|line| line.line.len() <= 1_000_000)
}

/// Returns whether `section` has only lines, within the limit of a state.
fn has_short_texts(section: &Section<'_>) -> bool
    ensures { IsTrue result → has_short_texts section.now ≡ true }
{
    match section {
        Section::Unchanged { lines } => has_short_lines(lines.as_slice()),
        Section::Changed { lines } => has_short_changes(lines.as_slice()),
        Section::FileMode { .. } | Section::Binary { .. } => false,
    }
}

/// Returns the number of lines of `section`.
fn line_count(section: &Section<'_>) -> usize
    ensures { result ≡ section_size section.now }
{
    match section {
        Section::Unchanged { lines } => lines.len(),
        Section::Changed { lines } => lines.len(),
        Section::FileMode { .. } | Section::Binary { .. } => 0,
    }
}

/// Checks that `view` has few and short lines.
pub(crate) fn check_section(rt: &impl Abort, view: &SectionView<'_>)
    ensures { IsSmallSection view.now }
{
    assert!(rt; has_short_texts(view.section));
    assert!(rt; line_count(view.section) <= 1000);
}

/// Checks that the sections have few and short lines.
fn check_sections(rt: &impl Abort, views: &[SectionView<'_>])
    ensures { AreSmallSections views.now }
{
    for view in views {
        check_section(rt, view);
    }
}

/// Checks that `view` has a short path, and few sections of few and short lines.
fn check_file(rt: &impl Abort, view: &FileView<'_>)
    ensures { IsSmallFile view.now }
{
    assert!(rt; has_short_path(view.old_path, view.path));
    check_sections(rt, view.section_views.as_slice());
    assert!(rt; view.section_views.len() <= 1000);
}

/// Checks that the files have short paths, and few sections of few and short lines.
fn check_files(rt: &impl Abort, views: &[FileView<'_>])
    ensures { AreSmallFiles views.now }
{
    for view in views {
        check_file(rt, view);
    }
}

/// Checks that `view` has no message, and few and small files.
pub(crate) fn check_commit(rt: &impl Abort, view: &CommitView<'_>)
    ensures { IsSmallCommit view.now }
{
    assert!(rt; view.commit_message_view.commit.message.is_none());
    check_files(rt, view.file_views.as_slice());
    assert!(rt; view.file_views.len() <= 1000);
}

/// Draws the document of a commit on a grid that shows it from row `y` on.
fn draw_commit(
    rt: &impl Abort,
    alloc: Global,
    grid: &mut Grid,
    y: usize,
    view: &CommitView<'_>,
) -> Result<DrawnRects<ComponentId>, RecordError> {
    check_commit(rt, view);
    assert!(rt; y <= 100);
    assert!(rt; grid.width() <= 100);
    assert!(rt; grid.height() <= 100);
    laws::components_are_in_range();
    scm_render::laws::parts_are_in_range::<ComponentId>();
    Viewport::render_top_level(alloc, grid, 0, y as isize, view)
}

/// Draws a section on `grid`.
fn draw_section(
    rt: &impl Abort,
    alloc: Global,
    grid: &mut Grid,
    view: &SectionView<'_>,
) -> Result<DrawnRects<ComponentId>, RecordError> {
    check_section(rt, view);
    assert!(rt; grid.width() <= 100);
    assert!(rt; grid.height() <= 100);
    laws::components_are_in_range();
    scm_render::laws::parts_are_in_range::<ComponentId>();
    Viewport::render_top_level(alloc, grid, 0, 0, view)
}

/// Draws a toggle box or an expand box on `grid`.
fn draw_box(
    rt: &impl Abort,
    alloc: Global,
    grid: &mut Grid,
    view: &TristateBox<ComponentId>,
) -> Result<DrawnRects<ComponentId>, RecordError> {
    assert!(rt; grid.width() <= 100);
    assert!(rt; grid.height() <= 100);
    laws::components_are_in_range();
    scm_render::laws::parts_are_in_range::<ComponentId>();
    Viewport::render_top_level(alloc, grid, 0, 0, view)
}

// ---- views of a file

/// The look of a file: whether symbols beyond ASCII may be used, and what is selected.
#[derive(Clone, Copy)]
struct Look {
    use_unicode: bool,
    selection: SelectionKey,
}

/// The key of the file.
const FILE_KEY: FileKey = FileKey {
    commit_idx: 0,
    file_idx: 0,
};

/// Returns the key of section `section_idx` of the file.
fn section_key(section_idx: usize) -> SectionKey {
    SectionKey {
        commit_idx: 0,
        file_idx: 0,
        section_idx,
    }
}

impl Look {
    /// Returns the toggle box of `key`.
    fn toggle_box(self, key: SelectionKey, tristate: Tristate) -> TristateBox<ComponentId> {
        TristateBox {
            use_unicode: self.use_unicode,
            is_focused: key == self.selection,
            is_read_only: false,
            id: ComponentId::ToggleBox(key),
            tristate,
            icon_style: TristateIconStyle::Check,
        }
    }

    /// Returns the expand box of `key`, which is unfolded.
    fn expand_box(self, key: SelectionKey) -> TristateBox<ComponentId> {
        TristateBox {
            use_unicode: self.use_unicode,
            is_focused: key == self.selection,
            is_read_only: false,
            id: ComponentId::ExpandBox(key),
            tristate: Tristate::True,
            icon_style: TristateIconStyle::Expand,
        }
    }

    /// Returns the view of section `index` of `total`. `editable` has its number among the sections
    /// that can be edited, and how many there are. Its first line has the number `line_start_num`.
    fn section_view<'a>(
        self,
        index: usize,
        total: usize,
        editable: (usize, usize),
        line_start_num: usize,
        section: &'a Section<'a>,
    ) -> SectionView<'a> {
        let key = SelectionKey::Section(section_key(index));
        SectionView {
            use_unicode: self.use_unicode,
            is_read_only: false,
            section_key: section_key(index),
            toggle_box: self.toggle_box(key, section.tristate()),
            expand_box: self.expand_box(key),
            selection: (key == self.selection).then_some(SectionSelection::SectionHeader),
            total_num_sections: total,
            editable_section_num: editable.0,
            total_num_editable_sections: editable.1,
            section,
            line_start_num,
        }
    }

    /// Returns the views of the sections of a file.
    fn section_views<'a>(
        self,
        rt: &impl Abort,
        alloc: Global,
        sections: &'a [Section<'a>],
    ) -> Items<SectionView<'a>> {
        let editable = editable_count(sections);
        let total = sections.len();
        let mut views = Items::new(alloc);
        let mut number: usize = 1;
        let mut line: usize = 1;
        for (index, section) in sections.iter().enumerate() {
            let view = self.section_view(index, total, (number, editable), line, section);
            made(rt, views.push(view));
            if section.is_editable() {
                number = number.saturating_add(1);
            }
            line = line.saturating_add(old_lines(section));
        }
        views
    }

    /// Returns the view of `file`, with everything unfolded.
    fn file_view<'a>(self, rt: &impl Abort, alloc: Global, file: &'a File<'a>) -> FileView<'a> {
        let key = SelectionKey::File(FILE_KEY);
        FileView {
            file_key: FILE_KEY,
            toggle_box: self.toggle_box(key, file.tristate()),
            expand_box: self.expand_box(key),
            is_header_selected: key == self.selection,
            old_path: None,
            path: file.path.as_str(),
            section_views: self.section_views(rt, alloc, file.sections.as_slice()),
        }
    }
}

/// Returns the view of the second of a file's three sections, which is not selected.
pub(crate) fn middle_section_view<'a>(section: &'a Section<'a>) -> SectionView<'a> {
    let look = Look {
        use_unicode: true,
        selection: SelectionKey::None,
    };
    look.section_view(1, 3, (1, 2), 1, section)
}

/// Returns how many of `sections` can be edited.
fn editable_count(sections: &[Section<'_>]) -> usize {
    sections
        .iter()
        .filter(|section| section.is_editable())
        .count()
}

/// Returns how many lines `section` has in the old file.
fn old_lines(section: &Section<'_>) -> usize {
    match section {
        Section::Unchanged { lines } => lines.len(),
        Section::Changed { lines } => lines
            .iter()
            .filter(|line| line.change_type == ChangeType::Removed)
            .count(),
        Section::FileMode { .. } | Section::Binary { .. } => 0,
    }
}

/// Returns the row in `line`, a line of a view, without the spaces at its end.
fn trimmed(line: &str) -> &str {
    let row = line.strip_prefix('"').unwrap_or(line);
    row.strip_suffix('"').unwrap_or(row).trim_end()
}

/// Checks that the lines of `view` have the rows `wanted`.
fn check_lines(rt: &impl Abort, view: &str, wanted: &str) {
    check_equal(
        rt,
        (wanted, view.lines().count()),
        (wanted, wanted.lines().count()),
    );
    for (line, row) in view.lines().zip(wanted.lines()) {
        check_equal(rt, (wanted, trimmed(line)), (wanted, row));
    }
}

/// Checks that the screen shows `wanted`.
fn check_rows(rt: &impl Abort, grid: &Grid, wanted: &str) {
    check_lines(rt, made(rt, grid.view()).as_str(), wanted);
}

/// Checks that the screen shows `rows`, and that the counted rows and calls are `counts`.
pub(crate) fn check_screen(rt: &impl Abort, grid: &Grid, rows: &str, counts: (usize, usize)) {
    check_rows(rt, grid, rows);
    let found = (grid.rows_drawn(), grid.calls());
    check_equal(rt, (rows, found), (rows, counts));
}

// ---- documents

/// A line of context, and two changes after it.
const CONTEXT_BEFORE_CHANGES: &[Part] = &[
    Part::Context(&["a\n"]),
    Part::Changes(&[(false, REMOVED, "b\n"), (true, ADDED, "c\n")]),
];

/// Two changes with seven lines between them.
const CONTEXT_BETWEEN_CHANGES: &[Part] = &[
    Part::Changes(&[(false, ADDED, "x\n")]),
    Part::Context(&["a\n", "b\n", "c\n", "d\n", "e\n", "f\n", "g\n"]),
    Part::Changes(&[(false, REMOVED, "y\n")]),
];

/// A document: whether symbols beyond ASCII are used, its parts, if it has a file, the selected section,
/// the screen's columns and rows, the first row of the document on the screen, and the screen's rows.
type Row = (
    bool,
    &'static [Part],
    Option<usize>,
    u16,
    u16,
    usize,
    &'static str,
);

/// The rows of the table.
const DOCUMENTS: &[Row] = &[
    (
        true,
        CONTEXT_BEFORE_CHANGES,
        Some(1),
        24,
        5,
        0,
        "[◐] f                [-]\n        1 a⏎\n  (◐) Section 1/1    (-)\n    [ ] - b⏎\n    [●] + c⏎\n",
    ),
    (
        true,
        CONTEXT_BEFORE_CHANGES,
        Some(1),
        24,
        5,
        2,
        "[◐] f                [-]\n    [ ] - b⏎\n    [●] + c⏎\n\n\n",
    ),
    (
        false,
        CONTEXT_BEFORE_CHANGES,
        None,
        24,
        5,
        0,
        "[~] f                [-]\n        1 a⏎\n  [~] Section 1/1    [-]\n    [ ] - b⏎\n    [*] + c⏎\n",
    ),
    (
        true,
        CONTEXT_BETWEEN_CHANGES,
        Some(0),
        24,
        12,
        0,
        "[ ] f                [-]\n  ( ) Section 1/2    (-)\n    [ ] + x⏎\n        1 a⏎\n        2 b⏎\n        3 c⏎\n        ⋮\n        5 e⏎\n        6 f⏎\n        7 g⏎\n  [ ] Section 2/2    [-]\n    [ ] - y⏎\n",
    ),
    (
        false,
        CONTEXT_BETWEEN_CHANGES,
        None,
        24,
        3,
        5,
        "[ ] f                [-]\n        :\n        5 e⏎\n",
    ),
    // a document without files says so
    (true, &[], None, 1, 1, 0, "…\n"),
    (true, &[], None, 20, 3, 0, "There are no change…\n\n\n"),
];

/// Returns the views of `files`.
fn file_views<'a>(
    rt: &impl Abort,
    alloc: Global,
    look: Look,
    files: &'a [File<'a>],
) -> Items<FileView<'a>> {
    let mut views = Items::new(alloc);
    for file in files {
        made(rt, views.push(look.file_view(rt, alloc, file)));
    }
    views
}

/// Returns the view of a commit with `files`.
fn commit_view<'a>(
    rt: &impl Abort,
    alloc: Global,
    look: Look,
    commit: &'a Commit,
    files: &'a [File<'a>],
) -> CommitView<'a> {
    CommitView {
        commit_message_view: CommitMessageView {
            commit_idx: 0,
            commit,
        },
        file_views: file_views(rt, alloc, look, files),
    }
}

/// Draws the document of `files` from row `y` on.
fn draw_files(
    rt: &impl Abort,
    alloc: Global,
    look: Look,
    files: &[File<'_>],
    grid: &mut Grid,
    y: usize,
) {
    let commit = Commit::default();
    let view = commit_view(rt, alloc, look, &commit, files);
    let _ = made(rt, draw_commit(rt, alloc, grid, y, &view));
}

/// Returns the key of section `selected`, if any.
fn key_of_section(selected: Option<usize>) -> SelectionKey {
    match selected {
        Some(index) => SelectionKey::Section(section_key(index)),
        None => SelectionKey::None,
    }
}

/// Draws the document of `files`, which are those of `row`, and checks the screen.
fn check_files_of(rt: &impl Abort, alloc: Global, files: &[File<'_>], row: Row) {
    let look = Look {
        use_unicode: row.0,
        selection: key_of_section(row.2),
    };
    let mut grid = made(rt, Grid::new(alloc, row.3, row.4));
    draw_files(rt, alloc, look, files, &mut grid, row.5);
    check_rows(rt, &grid, row.6);
}

/// Draws the document of `row`, and checks the screen.
fn check_document(rt: &impl Abort, alloc: Global, row: Row) {
    check_files_of(rt, alloc, files_of(rt, alloc, row.1).as_slice(), row);
}

#[test]
fn documents_are_drawn_alone(rt: HostRuntime) {
    for row in DOCUMENTS {
        check_document(&rt, rt.alloc(), *row);
    }
}

// ---- context

/// The texts of lines of context.
const TEXTS: &[&str] = &["a\n", "b\n", "c\n", "d\n", "e\n", "f\n", "g\n"];

/// Returns the row that a name stands for: a digit is the number of a line, and a dot is the row in
/// place of hidden lines.
fn row_of(name: Option<char>) -> &'static str {
    match name {
        Some('1') => "      1 a⏎",
        Some('2') => "      2 b⏎",
        Some('3') => "      3 c⏎",
        Some('4') => "      4 d⏎",
        Some('5') => "      5 e⏎",
        Some('6') => "      6 f⏎",
        Some('7') => "      7 g⏎",
        Some('.') => "      ⋮",
        _ => "",
    }
}

/// Checks that the lines of `view` have the rows named by `names`, and blank rows below them.
fn check_named(rt: &impl Abort, view: &str, names: &str) {
    check_equal(rt, view.lines().count(), 8);
    for (index, line) in view.lines().enumerate() {
        let row = row_of(names.chars().skip(index).next());
        check_equal(rt, (names, index, trimmed(line)), (names, index, row));
    }
}

/// Draws a section alone, and returns the number of rows of its box.
fn drawn_height(
    rt: &impl Abort,
    alloc: Global,
    grid: &mut Grid,
    index: usize,
    total: usize,
    section: &Section<'static>,
) -> Option<usize> {
    let look = Look {
        use_unicode: true,
        selection: SelectionKey::None,
    };
    let view = look.section_view(index, total, (1, 1), 1, section);
    let boxes = made(rt, draw_section(rt, alloc, grid, &view));
    let key = SelectionKey::Section(section_key(index));
    let drawn = boxes.get(&ComponentId::SelectableItem(key));
    drawn.map(|drawn| drawn.rect.height)
}

/// A number of lines, the number of their section among as many, and its rows.
type Context = (usize, usize, usize, &'static str);

/// Draws a section of context alone, and checks its rows.
fn check_section_rows(rt: &impl Abort, alloc: Global, section: &Section<'static>, row: Context) {
    let (_, index, total, names) = row;
    let mut grid = made(rt, Grid::new(alloc, 24, 8));
    let height = drawn_height(rt, alloc, &mut grid, index, total, section);
    check_equal(rt, (row, height), (row, Some(names.len())));
    check_named(rt, made(rt, grid.view()).as_str(), names);
}

/// Draws a section of some lines of context alone, and checks its rows.
fn check_context(rt: &impl Abort, alloc: Global, row: Context) {
    let (texts, _) = TEXTS.split_at(row.0.min(7));
    check_section_rows(rt, alloc, &made(rt, context(alloc, texts)), row);
}

/// Sections of context: the first one of three, the one in the middle, the last one, and the only one of
/// a file.
const CONTEXTS: &[Context] = &[
    (0, 0, 3, " "),
    (0, 1, 3, " "),
    (0, 2, 3, " "),
    (0, 0, 1, " "),
    (1, 0, 3, "1"),
    (1, 1, 3, "1"),
    (1, 2, 3, "1"),
    (1, 0, 1, ""),
    (3, 0, 3, "123"),
    (3, 1, 3, "123"),
    (3, 2, 3, "123"),
    (3, 0, 1, ""),
    (6, 0, 3, ".456"),
    (6, 1, 3, "123456"),
    (6, 2, 3, "123."),
    (6, 0, 1, "."),
    (7, 0, 3, ".567"),
    (7, 1, 3, "123.567"),
    (7, 2, 3, "123."),
    (7, 0, 1, "."),
];

#[test]
fn lines_of_context_are_left_out(rt: HostRuntime) {
    for row in CONTEXTS {
        check_context(&rt, rt.alloc(), *row);
    }
}

// ---- boxes

/// Draws a box, and checks the screen.
fn check_box(rt: &impl Abort, alloc: Global, view: &TristateBox<ComponentId>, wanted: &str) {
    let mut grid = made(rt, Grid::new(alloc, 3, 1));
    let _ = made(rt, draw_box(rt, alloc, &mut grid, view));
    check_rows(rt, &grid, wanted);
}

/// A box: whether symbols beyond ASCII may be used, whether it has the focus, whether it is
/// read-only, its mark, which is `None` if it is partial, whether it is a toggle box, and the
/// screen.
type Boxed = (bool, bool, bool, Option<bool>, bool, &'static str);

/// Boxes of each kind.
const BOXES: &[Boxed] = &[
    (false, false, false, Some(false), true, "[ ]\n"),
    (false, true, false, None, true, "(~)\n"),
    (false, false, false, Some(true), true, "[*]\n"),
    (false, false, false, Some(false), false, "[+]\n"),
    (false, false, false, None, false, "[~]\n"),
    (false, true, false, Some(true), false, "(-)\n"),
    (false, true, true, Some(true), true, "<*>\n"),
    (true, false, true, None, false, "<±>\n"),
    (true, false, false, None, true, "[◐]\n"),
    (true, true, false, Some(true), true, "(●)\n"),
];

/// Returns the mark `mark`, which is `None` if it is partial.
fn tristate_of(mark: Option<bool>) -> Tristate {
    match mark {
        Some(is_checked) => Tristate::from(is_checked),
        None => Tristate::Partial,
    }
}

/// Returns the style of a toggle box or of an expand box.
fn style_of(is_toggle_box: bool) -> TristateIconStyle {
    if is_toggle_box {
        TristateIconStyle::Check
    } else {
        TristateIconStyle::Expand
    }
}

/// Returns the box of `row`.
fn box_of(row: Boxed) -> TristateBox<ComponentId> {
    TristateBox {
        use_unicode: row.0,
        is_focused: row.1,
        is_read_only: row.2,
        id: ComponentId::App,
        tristate: tristate_of(row.3),
        icon_style: style_of(row.4),
    }
}

#[test]
fn boxes_are_drawn_alone(rt: HostRuntime) {
    for row in BOXES {
        check_box(&rt, rt.alloc(), &box_of(*row), row.5);
    }
}
