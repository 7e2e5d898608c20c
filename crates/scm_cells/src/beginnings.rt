//! The spans of a line, as far as some columns can show them.
ghost use Rattle.std.specs.Prelude.{◌≡◌, ◌++◌, ◌∷◌, [], ◌+◌, ◌<◌, IsTrue, IfOk, IfErr, OnOk, IfNone, IfSome, length};
ghost use Rattle.scm_cells.specs.Beginnings.{Adds, IsBeginning, IsFirst, IsPlain};
ghost use Rattle.scm_cells.specs.Cluster.{is_printable};
ghost use Rattle.scm_cells.specs.Clusters.{text_width};
ghost use Rattle.scm_cells.specs.Replaced.{line_pieces, last_piece};
ghost use Rattle.scm_cells.specs.Spans.{span_texts};
ghost use Rattle.scm_errors.specs.declared.error.RecordError.TheVariants.{OutOfMemory};

use crate::printable::{count_first_printable, is_printable};
use crate::replaced::{cut_at_replaced, replace_control_character};
use crate::text::{Span, text_width, visible_width};
use scm_errors::RecordError;
use std::alloc::AllocError;
use unicode_segmentation::UnicodeSegmentation;

/// Returns the first `columns + 1` bytes of a printable text, if more follow.
fn first_bytes(text: &str, columns: usize) -> Option<&str>
    requires printable { IsTrue (is_printable text.now) }
    requires long { columns < length text.now }
    ensures { IfSome result (λ first. IsBeginning columns first.now text.now) }
{
    if text.len() - columns > 1 {
        Some(&text[..columns + 1])
    } else {
        None
    }
}

/// Returns the first clusters of `text` that are wider than `columns` columns, if more follow.
fn first_clusters(text: &str, columns: usize) -> Option<&str>
    ensures { IfSome result (λ first. IsBeginning columns first.now text.now) }
{
    let mut pieces = text.graphemes(true);
    let mut width = 0usize;
    'pieces: while width <= columns {
        let piece = pieces.next()?;
        width = width.saturating_add(visible_width(piece).unwrap_or(0));
    }
    let rest = pieces.as_str();
    if rest.is_empty() {
        return None;
    }
    let (first, _) = text.split_at(text.len() - rest.len());
    Some(first)
}

/// Returns a beginning of `text` that is wider than `columns` columns, if more follows. It is of
/// whole clusters, also if `text` goes on.
fn first_past(text: &str, columns: usize) -> Option<&str>
    ensures { IfSome result (λ first. IsBeginning columns first.now text.now) }
{
    if text.len() <= columns {
        None
    } else if is_printable(text) {
        first_bytes(text, columns)
    } else {
        first_clusters(text, columns)
    }
}

/// Returns a number of bytes at the beginning of `line` that have no replaced character: as many as
/// there are, or not many more than `most`.
fn count_plain(line: &str, most: usize) -> usize
    ensures { IsPlain line.now result }
{
    let mut read = count_first_printable(line, most);
    let mut rest = line[read..].chars();
    'characters: while let Some(character) = rest.next() {
        if read >= most || replace_control_character(character).is_some() {
            return read;
        }
        read += character.len_utf8();
    }
    read
}

/// Returns how many bytes of `line` to read for a beginning that is wider than `columns` columns:
/// enough if they are printable ASCII, and else enough for most scripts.
fn bytes_to_read(line: &str, columns: usize) -> usize
    ensures { 0 < result }
{
    let most = columns.saturating_add(2);
    if most < line.len() && count_first_printable(line, most) < most {
        most.saturating_mul(2)
    } else {
        most
    }
}

/// Returns the beginning of the first piece of `line` that is wider than `columns` columns, if the
/// piece goes on far behind it. Costs what those columns cost, however long `line` is.
fn first_of_line(line: &str, columns: usize) -> Option<&str>
    ensures { IfSome result (λ first. IsFirst columns first.now line.now) }
{
    let mut most = bytes_to_read(line, columns);
    'tries: while most < line.len() {
        let (text, _) = line.split_at(count_plain(line, most));
        if let Some(first) = first_past(text, columns) {
            return Some(first);
        }
        if text.len() < most {
            return None;
        }
        most += most;
    }
    None
}

/// Returns how many of `columns` columns are left after a text and its replacement, or `None` if
/// they are wider.
fn columns_after(columns: usize, text: &str, replacement: &str) -> Option<usize>
    ensures some { IfSome result (λ left.
        columns ≡ left + (text_width text.now + text_width replacement.now)) }
    ensures none { IfNone result (columns < text_width text.now + text_width replacement.now) }
{
    let left = columns.checked_sub(text_width(text))?;
    left.checked_sub(text_width(replacement))
}

/// Adds a span for `line`, unless it is empty.
fn push_last<'a>(line: &'a str, spans: &mut Vec<Span<'a>>) -> Result<(), AllocError>
    ensures { OnOk result (
        span_texts spans.new.items ≡ span_texts spans.old.items ++ last_piece line.now) }
{
    if !line.is_empty() {
        spans.push(Span(line))?;
    }
    Ok(())
}

/// Adds a span for a text and one for its replacement.
fn push_replaced<'a>(
    text: &'a str,
    replacement: &'a str,
    spans: &mut Vec<Span<'a>>,
) -> Result<(), AllocError>
    ensures { OnOk result (span_texts spans.new.items
        ≡ span_texts spans.old.items ++ text.now ∷ (replacement.now ∷ [])) }
{
    spans.push(Span(text))?;
    spans.push(Span(replacement))?;
    Ok(())
}

/// Adds spans of `line` to `spans` as [`push_spans_from_line`](crate::push_spans_from_line) does,
/// but only as many as show in `columns` columns what all of them show. They are wider than
/// `columns` columns if all are. Costs what those columns cost, however long `line` is.
///
/// # Errors
/// `OutOfMemory`: an allocation failed; some of the spans may have been added.
pub fn push_first_spans<'a>(
    line: &'a str,
    columns: usize,
    spans: &mut Vec<Span<'a>>,
) -> Result<(), RecordError>
    ensures ok { OnOk result (Adds columns
        (span_texts spans.old.items) (span_texts spans.new.items) (line_pieces line.now)) }
    ensures err { IfErr result (λ e. e ≡ OutOfMemory) }
{
    let mut line = line;
    let mut left = columns;
    'pieces: loop {
        if let Some(first) = first_of_line(line, left) {
            spans.push(Span(first))?;
            return Ok(());
        }
        match cut_at_replaced(line) {
            None => {
                push_last(line, spans)?;
                return Ok(());
            }
            Some((text, replacement, rest)) => {
                push_replaced(text, replacement, spans)?;
                if rest.is_empty() {
                    return Ok(());
                }
                match columns_after(left, text, replacement) {
                    None => return Ok(()),
                    Some(less) => left = less,
                }
                line = rest;
            }
        }
    }
}
