//! What is on each row of a document, who owns each place of a frame, and which rows each key has. An
//! index by the layout answers what the index of the view does.
use crate::checks::{check_equal, check_that, made};
use crate::shown::{key_of, owner_of, place_of, shown};
use scm_cells::Rect;
use scm_layout_index::owner_runs::rect_end;
use scm_layout_index::{FrameRows, LayoutIndex};
use scm_samples::number_of;
use scm_types::{RecordError, RecordState};
use scm_view::{CommitViewMode, FrameIndex, RowIndex};
use scm_view_state::ViewState;
use std::alloc::Global;
use std::process::Abort;

/// A row for each document: its state and what is changed of it in words, and what is on each row,
/// from row 0 to the row below the last.
const PLACES: &str = "
# Ten lines; and the same with the sixth line selected.
t ~f0 @l0.0.0 => - f0 s0.0.0 s0.0.1 s0.0.2 s0.0.3 s0.0.4 s0.0.5 s0.0.6 s0.0.7 s0.0.8 s0.0.9 s0.0.10 -
t ~f0 @l0.0.5 => - f0 s0.0.0 s0.0.1 s0.0.2 s0.0.3 s0.0.4 s0.0.5 s0.0.6 s0.0.7 s0.0.8 s0.0.9 s0.0.10 -
# No files, without a message and with one.
- => - -
!- => - m0 m1 m2 -
# Two folded files.
!x,x => - m0 m1 m2 f0 f1 -
x,y none => - f0 f1 -
# Rows of each kind: changes, context with dots, a blank row, a mode and bytes.
!x7y0mb,x all => - m0 m1 m2 f0 s0.0.0 s0.0.1 s0.1.0 s0.1.1 s0.1.2 s0.1.3 s0.1.4 s0.1.5 s0.1.6 s0.2.0 s0.2.1 s0.3.0 s0.4.0 s0.5.0 f1 s1.0.0 s1.0.1 -
# Context first, last, and alone: that of a file without changes is not shown.
7k3,3 all => - f0 s0.0.0 s0.0.1 s0.0.2 s0.0.3 s0.1.0 s0.1.1 s0.2.0 s0.2.1 s0.2.2 f1 -
# A folded section, and context beside it.
k,k1 all ~s0.0 @s0.0 => - f0 s0.0.0 f1 s1.0.0 s1.0.1 s1.1.0 -
";

/// A row for each document: the first row and the number of rows of keys.
const SPANS: &str = "
# Ten lines.
t ~f0 @l0.0.0 => f0=1+12 s0.0=2+11 l0.0.0=3+1 l0.0.1=4+1 l0.0.2=5+1 l0.0.3=6+1 l0.0.4=7+1 l0.0.5=8+1 l0.0.6=9+1 l0.0.7=10+1 l0.0.8=11+1 l0.0.9=12+1 l0.0.10=- s0.1=- f1=- none=-
t ~f0 @l0.0.5 => f0=1+12 s0.0=2+11 l0.0.0=3+1 l0.0.5=8+1 l0.0.9=12+1
# Rows of each kind, below a message; what is hidden behind dots is not drawn, nor what no file has.
!x7y0mb,x all => f0=4+15 s0.0=5+2 l0.0.0=6+1 s0.1=7+7 l0.1.0=7+1 l0.1.1=8+1 l0.1.2=9+1 l0.1.4=11+1 l0.1.5=12+1 l0.1.6=13+1 s0.2=14+2 l0.2.0=15+1 s0.3=16+1 s0.4=17+1 s0.5=18+1 f1=19+3 s1.0=20+2 l1.0.0=21+1 l0.1.3=- l0.3.0=- l0.4.0=- s1.1=-
# Folded files.
!x,x => f0=4+1 f1=5+1 s0.0=- l1.0.0=-
# No files.
!- => f0=- none=-
";

/// A row for each frame: its document, the screen's columns and rows, the first row of the document
/// on it, the number of rows of the whole document, and the owners of rows of the document and
/// columns of the screen.
const OWNERS: &str = "
# A question whether to quit stands in columns 10 to 69 of rows 9 to 12, its buttons on the last of them; scrolled, a row further down.
k quit on 80 24 0 => 13 12:52=quit 12:53=back 12:55=back 12:61=back 12:62=quit 12:63=leave 12:68=leave 12:69=quit 12:70=- 9:10=quit 9:9=- 8:10=-
k quit on 80 24 1 => 13 13:55=back 12:55=quit 1:1=menu0 1:30=bar
# The first menu is open, and owns all columns of its rows.
. menu0 on 80 24 0 => 3 0:1=menu0 0:5=menu0 0:6=bar 0:7=menu1 0:14=menu2 0:23=menu3 0:28=menu3 0:29=bar 1:0=item0 1:12=item0 1:13=bar 1:30=bar 2:3=item1 2:9=item1 2:10=bar 3:3=-
# A line of context, which has no box, and two changes.
1h ~f0 @s0.1 on 24 8 0 => 6 1:0=tf0 1:3=h0 1:21=ef0 2:0=l0.0.0 3:0=s0.1 3:2=ts0.1 3:10=s0.1 3:21=es0.1 4:3=l0.1.0 4:4=tl0.1.0 4:6=tl0.1.0 4:10=l0.1.0 6:0=-
# The header is pinned to row 3; on its own row the file owns what the header did.
1h ~f0 @s0.1 on 24 8 2 => 5 1:0=f0 1:22=f0 2:0=menu0 2:6=bar 3:0=tf0 3:10=h0 3:22=ef0 4:4=tl0.1.0
# Dots are the section's, also where they begin, since the section shows lines.
x7y ~f0 @s0.0 on 24 14 0 => 13 2:0=s0.0 2:3=ts0.0 4:0=l0.1.0 7:0=s0.1 7:12=s0.1 11:0=s0.2 12:5=tl0.2.0 13:0=-
# A mode and bytes have no fold; columns 0 and 1 of their rows are the file's, unless they are selected.
mb all on 24 8 0 => 4 2:0=f0 2:1=f0 2:2=ts0.0 2:10=s0.0 2:22=s0.0 3:0=f0
mb ~f0 @s0.0 on 24 8 0 => 4 2:0=s0.0 3:0=f0 3:2=ts0.1
# Nothing stands below, and nothing is beside the screen.
. on 80 24 0 => 2 1:0=tf0 1:79=ef0 1:80=- 24:0=-
- on 80 24 0 => 7 0:1=menu0 6:20=-
# A message has a button; the help lies over it.
!k on 80 24 0 => 5 1:0=- 2:0=edit0 2:13=edit0 2:14=- 4:3=h0
!k help on 80 24 0 => 21 1:0=- 2:0=help 2:13=help 20:71=help 20:72=close 20:78=close 20:79=help 21:0=-
";

/// Returns the index of the rows that `view_state` shows.
fn row_index(
    rt: &impl Abort,
    alloc: Global,
    view_state: &ViewState<'_>,
) -> Result<RowIndex, RecordError> {
    assert!(rt; view_state.state.is_accepted());
    let view = view_state.commit_view(alloc, 0)?;
    RowIndex::new(alloc, &view)
}

/// Returns the index of the frame that shows one commit of `view_state` on `size` columns and rows,
/// from row `scroll` on.
#[tactic(auto, unfolding(scm_types::specs::Limits::max_items, scm_types::specs::Limits::max_scroll))]
fn frame_index(
    rt: &impl Abort,
    alloc: Global,
    view_state: &ViewState<'_>,
    size: (u16, u16),
    scroll: usize,
) -> Result<FrameIndex, RecordError> {
    let (width, height) = size;
    assert!(rt; 10 <= width);
    assert!(rt; 2 <= height);
    assert!(rt; scroll <= RecordState::MAX_SCROLL);
    assert!(rt; view_state.state.is_accepted());
    let view = view_state.app_view(alloc)?;
    assert!(rt; matches!(&view.commit_view_mode, CommitViewMode::Inline));
    FrameIndex::new(alloc, &view, width, height, scroll)
}

/// Returns the index of such a frame by its layout.
#[tactic(auto, unfolding(scm_types::specs::Limits::max_items, scm_types::specs::Limits::max_scroll))]
fn layout_index(
    rt: &impl Abort,
    alloc: Global,
    view_state: &ViewState<'_>,
    size: (u16, u16),
    scroll: usize,
) -> Result<LayoutIndex, RecordError> {
    let (width, height) = size;
    assert!(rt; 10 <= width);
    assert!(rt; 2 <= height);
    assert!(rt; scroll <= RecordState::MAX_SCROLL);
    assert!(rt; view_state.state.is_accepted());
    assert!(rt; matches!(&view_state.view_mode, CommitViewMode::Inline));
    let view = view_state.app_view(alloc)?;
    let layout = view_state.layout(alloc)?;
    let rows = FrameRows::new().share(alloc, &layout.rows)?;
    LayoutIndex::new(
        alloc,
        view_state,
        &view.menu_bar,
        rows,
        width,
        height,
        scroll,
    )
}

/// Checks what is on each row of `index`, from row 0 on.
fn check_places(rt: &impl Abort, index: &RowIndex, wanted: &str) {
    for (row, word) in wanted.split_whitespace().enumerate() {
        check_equal(
            rt,
            (row, word, index.place(row)),
            (row, word, place_of(word)),
        );
    }
}

/// Checks the document in `row`, which has words, ` => ` and what is on each row.
fn check_document(rt: &impl Abort, alloc: Global, row: &str) {
    let (given, wanted) = row.split_once(" => ").unwrap_or((row, ""));
    let view_state = shown(rt, alloc, given);
    check_places(rt, &made(rt, row_index(rt, alloc, &view_state)), wanted);
}

/// Returns whether `line` is a row of a table, and no comment.
fn is_row(line: &str) -> bool {
    !line.is_empty() && !line.starts_with('#')
}

#[test]
fn each_row_has_its_place(rt: HostRuntime) {
    for row in PLACES.lines() {
        if is_row(row) {
            check_document(&rt, rt.alloc(), row);
        }
    }
}

/// Returns the first row and the number of rows that `word` names, or `None` for `-`.
fn rows_of(word: &str) -> Option<(usize, usize)> {
    let (top, rows) = word.split_once('+')?;
    Some((number_of(Some(top)), number_of(Some(rows))))
}

/// Checks the rows of the key in `word`.
fn check_key(rt: &impl Abort, index: &RowIndex, word: &str) {
    let (name, wanted) = word.split_once('=').unwrap_or((word, ""));
    let key = key_of(name);
    let (top, rows) = match rows_of(wanted) {
        Some((top, rows)) => (Some(top), Some(rows)),
        None => (None, None),
    };
    check_equal(
        rt,
        (word, index.top(key), index.rows(key)),
        (word, top, rows),
    );
}

/// Checks the rows of the keys in `wanted`, in the index of a document.
fn check_keys(rt: &impl Abort, index: &RowIndex, wanted: &str) {
    for word in wanted.split_whitespace() {
        check_key(rt, index, word);
    }
}

/// Checks the rows of the keys in `wanted`, in both indexes of a frame.
fn check_spans(rt: &impl Abort, frame: &FrameIndex, layout: &LayoutIndex, wanted: &str) {
    for word in wanted.split_whitespace() {
        let (name, rows) = word.split_once('=').unwrap_or((word, ""));
        let spans = (frame.span(key_of(name)), layout.span(key_of(name)));
        check_equal(rt, (word, spans), (word, (rows_of(rows), rows_of(rows))));
    }
}

/// Checks the rows of the keys of the document in `row`.
fn check_all_keys(rt: &impl Abort, alloc: Global, row: &str) {
    let (given, wanted) = row.split_once(" => ").unwrap_or((row, ""));
    let view_state = shown(rt, alloc, given);
    check_keys(rt, &made(rt, row_index(rt, alloc, &view_state)), wanted);
    let frame = made(rt, frame_index(rt, alloc, &view_state, (24, 8), 0));
    let layout = made(rt, layout_index(rt, alloc, &view_state, (24, 8), 0));
    check_spans(rt, &frame, &layout, wanted);
}

#[test]
fn keys_have_their_rows(rt: HostRuntime) {
    for row in SPANS.lines() {
        if is_row(row) {
            check_all_keys(&rt, rt.alloc(), row);
        }
    }
}

/// Returns the row and the column of the place in `word`, and its owner in words.
pub(crate) fn owned_place(word: &str) -> (usize, usize, &str) {
    let (place, owner) = word.split_once('=').unwrap_or((word, ""));
    let (row, column) = place.split_once(':').unwrap_or((place, ""));
    (number_of(Some(row)), number_of(Some(column)), owner)
}

/// Checks the owner of the place in `word`, by both indexes of the frame, and as that of a run of columns.
fn check_owner(rt: &impl Abort, frame: &FrameIndex, layout: &LayoutIndex, word: &str) {
    let (row, column, owner) = owned_place(word);
    check_that(rt, column < 65_536);
    let wanted = owner_of(owner);
    let run = layout.run_on(&layout.row_owners(row), column);
    check_equal(rt, (word, frame.owner(row, column)), (word, wanted));
    check_equal(rt, (word, layout.owner(row, column)), (word, wanted));
    check_equal(rt, (word, run.owner), (word, wanted));
}

/// Checks how many rows a frame spans, and its owners, by both of its indexes.
fn check_frame(rt: &impl Abort, frame: &FrameIndex, layout: &LayoutIndex, wanted: &str) {
    let mut words = wanted.split_whitespace();
    let extent = number_of(words.next());
    let found = (
        frame.extent(),
        layout.extent(),
        layout.ends_above(usize::MAX),
    );
    check_equal(rt, (wanted, found), (wanted, (extent, extent, true)));
    for word in words {
        check_owner(rt, frame, layout, word);
    }
}

/// Returns the columns and rows of a screen, and its first row of the document.
pub(crate) fn screen_of(words: &str) -> ((u16, u16), usize) {
    let mut numbers = words.split(' ');
    let width = number_of(numbers.next()).min(65_535) as u16;
    let height = number_of(numbers.next()).min(65_535) as u16;
    ((width, height), number_of(numbers.next()))
}

/// Checks the frame in `row`.
fn check_owners(rt: &impl Abort, alloc: Global, row: &str) {
    let (given, wanted) = row.split_once(" => ").unwrap_or((row, ""));
    let (words, screen) = given.split_once(" on ").unwrap_or((given, ""));
    let (size, scroll) = screen_of(screen);
    let view_state = shown(rt, alloc, words);
    let frame = made(rt, frame_index(rt, alloc, &view_state, size, scroll));
    let layout = made(rt, layout_index(rt, alloc, &view_state, size, scroll));
    check_frame(rt, &frame, &layout, wanted);
}

#[test]
fn each_place_has_its_owner(rt: HostRuntime) {
    for row in OWNERS.lines() {
        if is_row(row) {
            check_owners(&rt, rt.alloc(), row);
        }
    }
}

/// The first column of a rectangle, its columns, a column, and the end of the run there.
const RUNS: &[(isize, usize, usize, usize)] = &[
    (2, 3, 0, 2),
    (2, 3, 2, 5),
    (2, 3, 5, 10),
    (-1, 3, 0, 2),
    (-1, 3, 2, 10),
    (20, 3, 0, 10),
];

/// Checks the end of the run at `column`, in ten columns with a rectangle.
fn check_run(rt: &impl Abort, x: isize, width: usize, column: usize, expected: usize) {
    let rect = Rect {
        x,
        y: 0,
        width,
        height: 1,
    };
    assert!(rt; column < 10);
    let end = rect_end(rect, column, 10);
    check_equal(rt, (x, column, end), (x, column, expected));
}

#[test]
fn runs_end_at_sides_of_rectangles(rt: HostRuntime) {
    for (x, width, column, expected) in RUNS {
        check_run(&rt, *x, *width, *column, *expected);
    }
}
