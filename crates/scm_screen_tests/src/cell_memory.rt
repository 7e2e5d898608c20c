//! What refused memory leaves of a grid and of spans. `tools/refuse-memory` runs each test with
//! each of its requests for memory refused. The checks hold then, and the test passes or ends in
//! `OutOfMemory`.
use crate::cells::put;
use crate::checks::check_equal;
use scm_cells::{Grid, Span, push_spans_from_line};
use scm_errors::RecordError;
use std::process::Abort;

/// Puts `text` over other texts: the row changes, or memory is refused and the row is as before.
fn check_put(rt: &impl Abort, grid: &mut Grid, text: &str) -> Result<(), RecordError> {
    let before = grid.view()?;
    let outcome = put(rt, grid, 0, 1, text, 0, 12);
    let after = grid.view()?;
    check_equal(rt, after.as_str() == before.as_str(), outcome.is_err());
    outcome
}

#[test]
fn refused_memory_keeps_rows(rt: HostRuntime) -> Result<(), RecordError> {
    let mut grid = Grid::new(rt.alloc(), 12, 1)?;
    put(&rt, &mut grid, 0, 0, "日本語", 0, 12)?;
    check_put(&rt, &mut grid, "e\u{301}\u{302}\u{303}\u{304}字")
}

/// Adds the spans of a line behind the first one of `spans`: all twelve are there, or memory is refused
/// and the first one is.
fn check_push(rt: &impl Abort, spans: &mut Vec<Span<'static>>) -> Result<(), RecordError> {
    let outcome = push_spans_from_line("a\u{1}b\u{2}c\u{3}d\u{4}e\u{5}f", spans);
    let count = if outcome.is_ok() { 12 } else { 1 };
    let first = spans.first().map(|span| span.0);
    check_equal(rt, (spans.len(), first), (count, Some("a")));
    outcome
}

#[test]
fn refused_memory_keeps_spans(rt: HostRuntime) -> Result<(), RecordError> {
    let mut spans = Vec::new(rt.alloc());
    push_spans_from_line("a", &mut spans)?;
    check_push(&rt, &mut spans)
}
