//! The row of a path.
ghost use Rattle.std.specs.Prelude.{◌≡◌, ◌-◌, ◌<◌, ◌≤◌, ℕ, IfSome, false, true};
ghost use Rattle.scm_tree.specs.declared.row.Row.{Row};
ghost use Rattle.scm_tree.specs.Paths.{is_before};
ghost use Rattle.scm_tree.specs.Rows.{AreInOrder};
ghost use Rattle.scm_tree.specs.Find.{HasNoRow, IsRowFor, IsWithin};

use crate::path::is_before;
use crate::row::Row;

/// The rows among which the first one is that is not before a path.
#[derive(Clone, Copy)]
struct Span {
    low: usize,
    high: usize,
}

/// Returns the row in the middle of `span`.
fn middle_of(span: Span) -> usize
    requires { span.low < span.high }
    ensures low { span.low ≤ result }
    ensures high { result < span.high }
{
    span.low + (span.high - span.low) / 2
}

/// Returns one half of the rows `span`.
fn half_of(rows: &[Row<'_>], path: &[u8], span: Span) -> Span
    requires order { AreInOrder rows.now }
    requires within { IsWithin rows.now path.now span }
    requires more { span.low < span.high }
    ensures within { IsWithin rows.now path.now result }
    ensures low { span.low ≤ result.low }
    ensures high { result.high ≤ span.high }
    ensures less { result.high - result.low < span.high - span.low }
{
    let middle = middle_of(span);
    if is_before(rows[middle].path, path) {
        Span {
            low: middle + 1,
            high: span.high,
        }
    } else {
        Span {
            low: span.low,
            high: middle,
        }
    }
}

/// Returns the number of the row of `path`, if there is one.
pub fn row_number(rows: &[Row<'_>], path: &[u8]) -> Option<usize>
    requires { AreInOrder rows.now }
    ensures some { IfSome result (IsRowFor rows.now path.now) }
    ensures none { result ≡ None → HasNoRow rows.now path.now }
{
    let mut span = Span {
        low: 0,
        high: rows.len(),
    };
    'halves: while span.low < span.high {
        span = half_of(rows, path, span);
    }
    if span.low >= rows.len() {
        return None;
    }
    if is_before(path, rows[span.low].path) {
        return None;
    }
    Some(span.low)
}
