//! Runs: the columns of the spans of a line.
ghost use Rattle.std.specs.Prelude.{◌≡◌, IfErr, IfOk, length, map};
ghost use Rattle.std.specs.Str.{IsCharBoundary};
ghost use Rattle.scm_errors.specs.declared.error.RecordError.TheVariants.{OutOfMemory};
ghost use Rattle.scm_front_paint.specs.Syntax.{border, in_run, is_border, line_end, line_runs, run_of, with_runs};
ghost use Rattle.scm_front_paint.specs.Words.{has_column};

use crate::columns::{Columns, columns_of_bytes, end_of_text};
use crate::syntax::{SyntaxSpan, in_syntax, syntax_style};
use scm_record::{NumberedStyle, RecordError, Style};
use scm_types::{Items, OwnedText};
use std::alloc::Global;

/// The columns of a span, and its style.
#[derive(Clone, Copy)]
pub struct Run {
    /// The columns of the window.
    pub columns: Columns,
    /// The style.
    pub style: NumberedStyle,
}

/// A line, and the columns and styles of its spans.
#[derive(Drop)]
pub struct LineRuns {
    /// The text of the line.
    pub text: OwnedText,
    /// The columns and styles of its spans.
    pub runs: Items<Run>,
}

/// Returns whether byte `at` of `text` begins a character, or is the end of `text`.
fn is_border(text: &str, at: usize) -> bool
    ensures { result ≡ is_border text.now at }
{
    text.is_char_boundary(at)
}

/// Returns `at`, or the end of `text` if `at` is past it or inside a character.
fn border(text: &str, at: usize) -> usize
    ensures value { result ≡ border text.now at }
    ensures boundary { IsCharBoundary text.now result }
{
    if is_border(text, at) { at } else { text.len() }
}

/// Returns the columns of `span` of a line, and its style. The text of the line ends at column `end`.
fn run_of(alloc: Global, text: &str, end: usize, span: SyntaxSpan) -> Result<Run, RecordError>
    requires { end ≡ line_end text.now }
    ensures ok { IfOk result (λ run. run ≡ run_of text.now span) }
    ensures err { IfErr result (λ e. e ≡ OutOfMemory) }
{
    let first = border(text, span.start);
    let last = border(text, span.end);
    Ok(Run {
        columns: columns_of_bytes(alloc, end, text, first, last)?,
        style: NumberedStyle::new(syntax_style(span.syntax)),
    })
}

/// Returns the columns of `spans` of a line, and their styles. The text of the line ends at column `end`.
fn runs_of(
    alloc: Global,
    text: &str,
    end: usize,
    spans: &[SyntaxSpan],
) -> Result<Items<Run>, RecordError>
    requires { end ≡ line_end text.now }
    ensures ok { IfOk result (λ runs. runs ≡ map (run_of text.now) spans.now) }
    ensures err { IfErr result (λ e. e ≡ OutOfMemory) }
{
    let mut runs = Items::with_capacity(alloc, spans.len())?;
    for span in spans {
        runs.push(run_of(alloc, text, end, *span)?)?;
    }
    Ok(runs)
}

/// Returns a line with the columns and styles of its spans.
pub(crate) fn line_runs(
    alloc: Global,
    text: &str,
    spans: &[SyntaxSpan],
) -> Result<LineRuns, RecordError>
    ensures ok { IfOk result (λ line. line ≡ line_runs text.now spans.now) }
    ensures err { IfErr result (λ e. e ≡ OutOfMemory) }
{
    let end = end_of_text(alloc, text)?;
    let runs = runs_of(alloc, text, end, spans)?;
    let text = OwnedText::from(String::from_str(alloc, text)?);
    Ok(LineRuns { text, runs })
}

/// Returns `style` at column `column`, with `run`.
fn in_run(run: &Run, column: usize, style: Style) -> Style
    ensures { result ≡ in_run run.now column style }
{
    let Columns { start, end } = run.columns;
    if start <= column && column < end {
        in_syntax(run.style.style(), style)
    } else {
        style
    }
}

/// Returns `style` at column `column`, with `runs`.
pub(crate) fn with_runs(runs: &[Run], column: usize, style: Style) -> Style
    ensures { result ≡ with_runs runs.now column style }
{
    let mut style = style;
    for run in runs {
        style = in_run(run, column, style);
    }
    style
}
