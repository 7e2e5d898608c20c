//! A range on the screen: its lines are set off, and the status row counts them.
ghost use Rattle.std.specs.Prelude.{◌≡◌, IfErr, IfOk, string_bytes};
ghost use Rattle.scm_errors.specs.declared.error.RecordError.TheVariants.{OutOfMemory};
ghost use Rattle.scm_record.specs.ShownLines.{line_on};
ghost use Rattle.scm_front_paint.specs.Range.{counted, has_line, has_row, in_range, is_begun, range_text, range_words, word_for};

use crate::words::is_bare;
use scm_front::Front;
use scm_front_items::ranges::{files_among, is_between, lines_between};
use scm_record::{LineKey, LiveSession, RecordError, SelectionKey};
use std::alloc::Global;

/// Returns whether a range is begun at `anchor`, which is `None` if there is none.
fn is_begun(anchor: SelectionKey) -> bool
    ensures { result ≡ is_begun anchor }
{
    match anchor {
        SelectionKey::None => false,
        SelectionKey::File(_) | SelectionKey::Section(_) | SelectionKey::Line(_) => true,
    }
}

/// Returns whether `line`, if there is one, is in the range from `anchor` to `selection`.
fn in_range(anchor: SelectionKey, selection: SelectionKey, line: Option<LineKey>) -> bool
    ensures { result ≡ in_range anchor selection line }
{
    match line {
        None => false,
        Some(key) => is_between(anchor, selection, SelectionKey::Line(key)),
    }
}

/// Returns the line that row `row` of the screen of `session` shows, if any. Rows are counted from 0.
pub(crate) fn line_on(session: &LiveSession<'_>, row: usize) -> Option<LineKey>
    ensures { result ≡ line_on session.now row }
{
    session.lines_from(row).line(0)
}

/// Returns whether row `row` shows a line of the range that is begun at `anchor`, if nothing lies over the
/// lines.
fn has_line(session: &LiveSession<'_>, anchor: SelectionKey, row: usize) -> bool
    ensures { result ≡ has_line session.now anchor row }
{
    let line = line_on(session, row);
    let is_in = in_range(anchor, session.view_state().selection, line);
    is_bare(session) & is_in
}

/// Returns whether row `row` of the screen of `session`, counted from 0, shows a line of the range that is
/// begun at `anchor`, if one is begun and nothing lies over the lines.
pub(crate) fn has_row(session: &LiveSession<'_>, anchor: SelectionKey, row: usize) -> bool
    ensures { result ≡ has_row session.now anchor row }
{
    if is_begun(anchor) {
        has_line(session, anchor, row)
    } else {
        false
    }
}

/// Returns `one` if `count` is 1, and else `more`.
fn word_for(count: usize, one: &'static str, more: &'static str) -> &'static str
    ensures { result.now ≡ word_for count one.now more.now }
{
    if count == 1 { one } else { more }
}

/// Returns `count` with its word: `one`, or `more` if `count` is not 1.
fn counted(
    alloc: Global,
    count: usize,
    one: &'static str,
    more: &'static str,
) -> Result<String, RecordError>
    ensures ok { IfOk result (λ text. string_bytes text ≡ counted count one.now more.now) }
    ensures err { IfErr result (λ e. e ≡ OutOfMemory) }
{
    let word = word_for(count, one, more);
    let text = format!(in alloc; "{count} {word}")?;
    Ok(text)
}

/// Returns what is said of a range of `lines` lines in `files` files.
fn range_words(alloc: Global, lines: usize, files: usize) -> Result<String, RecordError>
    ensures ok { IfOk result (λ text. string_bytes text ≡ range_words lines files) }
    ensures err { IfErr result (λ e. e ≡ OutOfMemory) }
{
    let lines = counted(alloc, lines, "line", "lines")?;
    let files = counted(alloc, files, "file", "files")?;
    let text = format!(in alloc; "range: {lines} in {files}; space marks it, esc ends it")?;
    Ok(text)
}

/// Returns what the status row says of the range of `front`: how many lines in how many files it has, folded
/// ones too, and its keys.
pub(crate) fn range_text(alloc: Global, front: &Front<'_>) -> Result<String, RecordError>
    ensures ok { IfOk result (λ text. string_bytes text ≡ range_text front.now) }
    ensures err { IfErr result (λ e. e ≡ OutOfMemory) }
{
    let view = front.beneath().view_state();
    let files = view.state.files.as_slice();
    let keys = lines_between(alloc, files, front.anchor(), view.selection)?;
    range_words(alloc, keys.len(), files_among(keys.as_slice()))
}
