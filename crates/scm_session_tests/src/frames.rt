//! The number of rows that a frame begins, and of calls that draw it.
use crate::checks::check_equal;
use crate::sessions::session_of;
use scm_record::TerminalKind;
use scm_samples::number_of;
use std::alloc::Global;
use std::process::Abort;

/// A row for each frame that shows one commit: the screen's columns and rows, the state and the
/// events in letters, the rows begun and the calls, and the most that a screen of that height may
/// take. The most rows are one more than the screen has. The most calls are eight for each of these
/// rows, and forty more.
///
/// A row of the document counts if the screen shows it: not the row under the menu bar, and not the
/// row under a sticky header. The header of a file or of a section takes four calls (expand box,
/// blank, toggle box, title). A changed line, a mode and a binary change take two (toggle box, text).
/// A line of context, the dots and a blank row take one. A sticky header is a row too. The menu bar
/// takes five (a blank and four titles), and an open menu two for each item.
const INLINE: &str = "
# A file of ten lines, and one of ten thousand, scrolled by a row.
24 8 t lljjjjj => 7 21 of 9 112
24 8 L lljjjjj => 7 21 of 9 112
# No files: the words that say so stand in the middle, below the message's three rows, of which the second takes three calls, the others one.
10 2 - - => 1 6 of 3 64
24 8 - - => 1 6 of 9 112
300 100 - - => 1 6 of 101 848
24 8 !- - => 4 11 of 9 112
24 8 !- d => 3 10 of 9 112
24 8 !- dd => 2 7 of 9 112
# A folded file, and each menu: two calls for each of its 2, 5, 9 or 6 items.
80 24 . - => 1 9 of 25 240
80 24 . A => 1 13 of 25 240
80 24 . B => 1 19 of 25 240
80 24 . C => 1 27 of 25 240
80 24 . D => 1 21 of 25 240
10 2 . A => 1 13 of 3 64
10 2 . B => 1 19 of 3 64
300 100 . C => 1 27 of 101 848
# Dialogs: three calls for the question whether to quit, two for the help.
80 24 k q => 1 12 of 25 240
80 24 k ? => 1 11 of 25 240
80 24 k q? => 1 14 of 25 240
80 24 k Dq => 1 24 of 25 240
80 24 k D? => 1 23 of 25 240
80 24 !k Cq? => 4 37 of 25 240
10 2 k q => 1 12 of 3 64
10 2 k ? => 1 11 of 3 64
10 2 !k Bq? => 1 21 of 3 64
300 100 k Cq? => 1 32 of 101 848
# Two sections with context between them, from each row on that a screen can begin with.
24 8 x7y l => 7 19 of 9 112
24 8 x7y ld => 7 16 of 9 112
24 8 x7y ldd => 7 15 of 9 112
24 8 x7y lddd => 7 15 of 9 112
24 8 x7y ldddd => 7 18 of 9 112
24 8 x7y lddddd => 7 19 of 9 112
24 8 x7y ldddddd => 6 18 of 9 112
24 8 x7y lddddddd => 5 17 of 9 112
24 8 x7y ldddddddd => 4 16 of 9 112
24 8 x7y lddddddddd => 3 15 of 9 112
24 8 x7y ldddddddddd => 2 11 of 9 112
24 8 x7y lddddddddddd => 1 9 of 9 112
10 2 x7y l => 1 9 of 3 64
10 2 x7y ldd => 1 9 of 3 64
10 2 x7y ldddddd => 1 9 of 3 64
10 3 x7y ldd => 2 10 of 4 72
80 24 x7y l => 12 28 of 25 240
300 100 x7y ldd => 10 22 of 101 848
# Rows of every kind, in two files under a message.
10 2 !x7y0mb,t F => 1 9 of 3 64
10 2 !x7y0mb,t Fddddd => 1 9 of 3 64
24 8 !x7y0mb,t Fp => 7 21 of 9 112
24 8 !x7y0mb,t Fpp => 7 21 of 9 112
24 8 !x7y0mb,t Fppp => 3 13 of 9 112
80 24 !x7y0mb,t F => 23 52 of 25 240
80 24 !x7y0mb,t Fdddddddddddddd => 16 42 of 25 240
300 100 !x7y0mb,t F => 30 66 of 101 848
300 100 !x7y0mb,t FCq? => 30 89 of 101 848
# The same, all folded.
24 8 !x7y0mb,t FF => 2 13 of 9 112
";

/// A row for each frame that shows both commits side by side: the rows and calls of the second
/// view, folded until the user unfolds it, count too. No limit is claimed for such a frame.
const ADJACENT: &str = "
41 5 x v => 2 13
41 5 !x v => 5 18
41 5 !x lv => 5 19
41 5 x lvd => 5 23
41 5 t lvddd => 6 19
10 2 !x7y0mb,t Fv => 2 10
41 5 !x7y0mb,t Fvpp => 6 19
300 100 !x7y0mb,t Fv => 32 74
80 24 k Bvq? => 2 28
24 8 - v => 2 7
24 8 !- v => 5 12
";

/// Returns the two numbers in `text`.
fn numbers_of(text: &str) -> (usize, usize) {
    let mut words = text.split_whitespace();
    (number_of(words.next()), number_of(words.next()))
}

/// Checks that the frame of `given` takes the rows and calls `wanted`.
fn check_counts(rt: &impl Abort, alloc: Global, given: &str, wanted: (usize, usize)) {
    let mut words = given.split_whitespace();
    let width = number_of(words.next());
    let height = number_of(words.next());
    let kind = TerminalKind::Testing { width, height };
    let state = words.next().unwrap_or("");
    let session = session_of(rt, alloc, kind, state, words.next().unwrap_or(""));
    let grid = session.grid();
    check_equal(
        rt,
        (given, grid.rows_drawn(), grid.calls()),
        (given, wanted.0, wanted.1),
    );
}

/// Returns the most rows and calls of a frame of the screen whose columns and rows begin `given`.
fn most_of(given: &str) -> (usize, usize) {
    let (_, height) = numbers_of(given);
    let rows = height.min(65_535) + 1;
    (rows, 8 * rows + 40)
}

/// Checks a row of the table, and that its numbers are within the most that a frame may take.
fn check_row(rt: &impl Abort, alloc: Global, row: &str) {
    let (given, wanted) = row.split_once(" => ").unwrap_or((row, ""));
    let (wanted, most) = wanted.split_once(" of ").unwrap_or((wanted, ""));
    let (wanted, most) = (numbers_of(wanted), numbers_of(most));
    check_equal(rt, (row, most), (row, most_of(given)));
    let is_within = wanted.0 <= most.0 && wanted.1 <= most.1;
    check_equal(rt, (row, is_within), (row, true));
    check_counts(rt, alloc, given, wanted);
}

#[test]
fn frames_take_few_rows_and_calls(rt: HostRuntime) {
    for row in INLINE.lines() {
        if !row.is_empty() && !row.starts_with('#') {
            check_row(&rt, rt.alloc(), row);
        }
    }
}

#[test]
fn frames_of_both_commits(rt: HostRuntime) {
    for row in ADJACENT.lines() {
        if !row.is_empty() {
            let (given, wanted) = row.split_once(" => ").unwrap_or((row, ""));
            check_counts(&rt, rt.alloc(), given, numbers_of(wanted));
        }
    }
}
