//! Columns of the window, and the style of columns that are set off.
ghost use Rattle.std.specs.Prelude.{◌≡◌, min, sum_by, IfErr, IfOk};
ghost use Rattle.std.specs.List.{list_any};
ghost use Rattle.std.specs.Str.{IsCharBoundary};
ghost use Rattle.scm_errors.specs.declared.error.RecordError.TheVariants.{OutOfMemory};
ghost use Rattle.scm_cells.specs.Clusters.{text_width};
ghost use Rattle.scm_cells.specs.Spans.{span_texts};
ghost use Rattle.scm_front_paint.specs.Capped.{capped};
ghost use Rattle.scm_front_paint.specs.Syntax.{line_end};
ghost use Rattle.scm_front_paint.specs.Words.{column_of, columns_of_bytes, has_column, set_off, shown_width, with_words};

use scm_cells::{Span, push_first_spans, text_width};
use scm_record::{RecordError, Style};
use std::alloc::Global;

/// Columns of the window, `start..end`.
#[derive(Clone, Copy, Debug, PartialEq, Eq)]
pub struct Columns {
    /// The first column.
    pub start: usize,
    /// The end, exclusive.
    pub end: usize,
}

/// Returns the columns that `spans` take on the screen, saturating.
fn width_of_spans(spans: &[Span<'_>]) -> usize
    ensures { result ≡ capped (sum_by text_width (span_texts spans.now)) }
{
    let mut width: usize = 0;
    for span in spans {
        width = width.saturating_add(text_width(span.0));
    }
    width
}

/// Returns the columns that `text` takes on the screen, with its replacements, or `most` if it takes more. Reads
/// no more of `text` than those columns show.
fn width_within(alloc: Global, text: &str, most: usize) -> Result<usize, RecordError>
    ensures ok { IfOk result (λ n. n ≡ min most (shown_width text.now)) }
    ensures err { IfErr result (λ e. e ≡ OutOfMemory) }
{
    let mut spans = Vec::new(alloc);
    push_first_spans(text, most, &mut spans)?;
    Ok(most.min(width_of_spans(spans.as_slice())))
}

/// Returns the column of the window at which byte `at` of a line stands, behind the line's sign, or `edge` if it
/// is behind that column.
fn column_within(alloc: Global, edge: usize, text: &str, at: usize) -> Result<usize, RecordError>
    requires { IsCharBoundary text.now at }
    ensures ok { IfOk result (λ n. n ≡ min edge (column_of text.now at)) }
    ensures err { IfErr result (λ e. e ≡ OutOfMemory) }
{
    let width = width_within(alloc, &text[..at], edge.saturating_sub(10))?;
    Ok(edge.min(width.saturating_add(10)))
}

/// Returns the columns of bytes `start..end` of a line, in a window that ends before column `edge`.
pub(crate) fn columns_of_bytes(
    alloc: Global,
    edge: usize,
    text: &str,
    start: usize,
    end: usize,
) -> Result<Columns, RecordError>
    requires start { IsCharBoundary text.now start }
    requires end { IsCharBoundary text.now end }
    ensures ok { IfOk result (λ columns. columns ≡ columns_of_bytes edge text.now start end) }
    ensures err { IfErr result (λ e. e ≡ OutOfMemory) }
{
    Ok(Columns {
        start: column_within(alloc, edge, text, start)?,
        end: column_within(alloc, edge, text, end)?,
    })
}

/// Returns the column of the window before which the text of a line ends, or 65,535 if it ends behind that.
pub(crate) fn end_of_text(alloc: Global, text: &str) -> Result<usize, RecordError>
    ensures ok { IfOk result (λ n. n ≡ line_end text.now) }
    ensures err { IfErr result (λ e. e ≡ OutOfMemory) }
{
    column_within(alloc, 65_535, text, text.len())
}

/// Returns whether one of `columns` has column `column`.
fn are_apart(columns: &[Columns], column: usize) -> bool
    ensures { result ≡ list_any (has_column column) columns.now }
{
    columns
        .iter()
        .any(|it| it.start <= column && column < it.end)
}

/// Returns `style`, bold and underlined if it `is_apart`.
pub(crate) fn set_off(is_apart: bool, style: Style) -> Style
    ensures { result ≡ set_off is_apart style }
{
    if is_apart {
        Style {
            bold: true,
            underlined: true,
            ..style
        }
    } else {
        style
    }
}

/// Returns `style`, set off if `column` is one of `columns`.
pub(crate) fn with_words(columns: &[Columns], column: usize, style: Style) -> Style
    ensures { result ≡ with_words columns.now column style }
{
    set_off(are_apart(columns, column), style)
}
