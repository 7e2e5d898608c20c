//! Where one file would lie in another.
ghost use Rattle.std.specs.Prelude.{◌≡◌, ◌+◌, ◌<◌, IfSome, MatchResult, is_some, length, slice_index_or};
ghost use Rattle.scm_tree.specs.declared.row.Row.{Row};
ghost use Rattle.scm_tree.specs.Paths.{is_inside};
ghost use Rattle.scm_tree.specs.Rows.{AreInOrder, HasNoClash};
ghost use Rattle.scm_tree.specs.Refusals.{IsClash, is_refused, version_at};
ghost use Rattle.scm_tree.specs.Scan.{IsScanned};

use crate::path::is_inside;
use crate::row::{Row, Version};

/// A tree of the rows: what is there now, what is there once everything is marked, or what the marks
/// leave.
#[derive(Clone, Copy)]
pub(crate) enum Side {
    Now,
    Goal,
    Chosen,
}

/// Two rows, of which the second lies in the first.
#[derive(Clone, Copy, Debug)]
pub struct Clash {
    /// The row of the file that is in the place of a folder.
    pub outer: usize,

    /// The row of the file in that folder.
    pub inner: usize,
}

/// Why a file is left out.
#[derive(Clone, Copy)]
pub struct Refusal {
    /// The row of the path that would come.
    pub comes: usize,

    /// The row of the path that stays, and cannot be beside it.
    pub blocker: usize,
}

/// Returns whether the file is refused.
pub(crate) fn is_refused(refused: &[Option<Refusal>], file: usize) -> bool
    ensures { result ≡ is_refused refused.now file }
{
    if file < refused.len() {
        refused[file].is_some()
    } else {
        false
    }
}

/// Returns the version of `row` on a side.
pub(crate) fn version_at(side: Side, refused: &[Option<Refusal>], row: &Row<'_>) -> Option<Version>
    ensures { result ≡ version_at side refused.now row.now }
{
    match side {
        Side::Now => row.current,
        Side::Goal => row.goal,
        Side::Chosen => {
            if is_refused(refused, row.file) {
                row.current
            } else {
                row.wanted
            }
        }
    }
}

/// Returns whether row `i` is there on a side.
pub(crate) fn is_there(rows: &[Row<'_>], side: Side, refused: &[Option<Refusal>], i: usize) -> bool
    requires { i < length rows.now }
    ensures { (d : Row)
        → is_some (version_at side refused.now (slice_index_or rows.now i d)) ≡ result }
{
    version_at(side, refused, &rows[i]).is_some()
}

/// Returns whether row `inner` lies in row `outer`.
pub(crate) fn lies_in(rows: &[Row<'_>], outer: usize, inner: usize) -> bool
    requires outer_within { outer < length rows.now }
    requires inner_within { inner < length rows.now }
    ensures { (d : Row) → is_inside (slice_index_or rows.now outer d).path.now
        (slice_index_or rows.now inner d).path.now ≡ result }
{
    is_inside(rows[outer].path, rows[inner].path)
}

/// Looks at row `i` after the rows before it, of which row `last` is the last one that is there. Returns
/// the last one of all, or a clash.
fn step(
    rows: &[Row<'_>],
    side: Side,
    refused: &[Option<Refusal>],
    last: Option<usize>,
    i: usize,
) -> Result<Option<usize>, Clash>
    requires within { i < length rows.now }
    requires in_order { AreInOrder rows.now }
    requires scanned { IsScanned (version_at side refused.now) rows.now i last }
    ensures { MatchResult result
        (λ next. IsScanned (version_at side refused.now) rows.now (i + 1) next)
        (λ clash. IsClash (version_at side refused.now) rows.now clash) }
{
    if !is_there(rows, side, refused, i) {
        return Ok(last);
    }
    match last {
        None => Ok(Some(i)),
        Some(outer) => {
            if lies_in(rows, outer, i) {
                Err(Clash { outer, inner: i })
            } else {
                Ok(Some(i))
            }
        }
    }
}

/// Returns a clash of the rows that are there on a side, if there is one.
pub(crate) fn first_clash(
    rows: &[Row<'_>],
    side: Side,
    refused: &[Option<Refusal>],
) -> Option<Clash>
    requires { AreInOrder rows.now }
    ensures none { result ≡ None → HasNoClash (version_at side refused.now) rows.now }
    ensures some { IfSome result (IsClash (version_at side refused.now) rows.now) }
{
    let mut last = None;
    for i in 0..rows.len() {
        match step(rows, side, refused, last, i) {
            Ok(next) => last = next,
            Err(clash) => return Some(clash),
        }
    }
    None
}
