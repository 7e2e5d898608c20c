//! The words that differ in a removed line and the added line that replaces it, on the rows of a screen.
ghost use Rattle.std.specs.Prelude.{◌≡◌, ◌-◌, ◌<◌, ◌≤◌, [], IfErr, IfOk, map, slice_index_or};
ghost use Rattle.scm_errors.specs.declared.error.RecordError.TheVariants.{OutOfMemory};
ghost use Rattle.scm_front_paint.specs.Words.{AreWords, files_with_pairs, is_bare};
ghost use Rattle.scm_front_paint.specs.WordsView.{IsStretch, columns_in};

use crate::columns::Columns;
use crate::line_words::LineWords;
use crate::pair_words::words_with;
use crate::pairs::pair_of_line;
use scm_record::{CommitViewMode, File, LiveSession, RecordError, ShownLines};
use std::alloc::Global;

/// Returns whether nothing lies over the lines: no dialog and no menu is open, and one commit is shown.
pub(crate) fn is_bare(session: &LiveSession<'_>) -> bool
    ensures { result ≡ is_bare session.now }
{
    let view = session.view_state();
    let is_free = !view.quit_dialog.is_some() && !view.is_help_open;
    let is_inline = match view.view_mode {
        CommitViewMode::Inline => true,
        CommitViewMode::Adjacent => false,
    };
    is_free && (!view.open_menu.is_some() && is_inline)
}

/// Returns the files whose lines have pairs: those of `session`, or none if something lies over the lines.
fn files_with_pairs<'a, 'state>(session: &'a LiveSession<'state>) -> &'a [File<'state>]
    ensures { result.now ≡ files_with_pairs session.now }
{
    if is_bare(session) {
        session.view_state().state.files.as_slice()
    } else {
        &[]
    }
}

/// Lines that rows of a screen show, and the first of these rows, counted from 0.
#[derive(Clone, Copy)]
struct Stretch {
    /// The first row.
    top: usize,
    /// The lines from there on.
    lines: ShownLines,
}

/// Returns the lines that rows of the screen of `session` show from row `row` on.
fn stretch_from(session: &LiveSession<'_>, row: usize) -> Stretch
    ensures stretch { IsStretch session.now result }
    ensures top { result.top ≡ row }
    ensures some { 0 < result.lines.rows }
{
    Stretch {
        top: row,
        lines: session.lines_from(row),
    }
}

/// Returns the lines of a stretch of rows of the screen of `session` that has row `row`: `last`, if that has
/// it.
fn stretch_on(session: &LiveSession<'_>, last: Stretch, row: usize) -> Stretch
    requires stretch { IsStretch session.now last }
    requires top { last.top ≤ row }
    ensures stretch { IsStretch session.now result }
    ensures top { result.top ≤ row }
    ensures row { row - result.top < result.lines.rows }
{
    if row - last.top < last.lines.rows {
        last
    } else {
        stretch_from(session, row)
    }
}

/// Returns what is set off on each row of the screen of `session`, where `kept` was before.
pub(crate) fn words_of(
    alloc: Global,
    session: &LiveSession<'_>,
    kept: Vec<Option<LineWords>>,
) -> Result<Vec<Option<LineWords>>, RecordError>
    ensures ok { IfOk result (λ words. AreWords session.now (map columns_in words.items)) }
    ensures err { IfErr result (λ e. e ≡ OutOfMemory) }
{
    let mut kept = kept;
    let files = files_with_pairs(session);
    let edge = session.grid().width();
    let height = session.grid().height();
    let mut words = Vec::with_capacity(alloc, height)?;
    let mut stretch = stretch_from(session, 0);
    for row in 0..height {
        stretch = stretch_on(session, stretch, row);
        let line = stretch.lines.line(row - stretch.top);
        let pair = pair_of_line(files, line);
        words.push(words_with(alloc, edge, pair, kept.as_mut_slice(), row)?)?;
    }
    Ok(words)
}

/// Returns the columns that are set off on row `row`.
pub(crate) fn columns_on(words: &[Option<LineWords>], row: usize) -> &[Columns]
    ensures { result.now ≡ slice_index_or (map columns_in words.now) row [] }
{
    match words.get(row) {
        Some(Some(words)) => words.columns.as_slice(),
        Some(None) | None => &[],
    }
}
