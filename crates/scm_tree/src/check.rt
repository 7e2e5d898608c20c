//! Whether rows are those of two trees and a choice: what a caller hands in is looked at once.
ghost use Rattle.std.specs.Prelude.{◌≡◌, ◌<◌, ◌≤◌, ℕ, IfSome, MatchResult, false, is_some, length, true};
ghost use Rattle.std.specs.List.{All};
ghost use Rattle.scm_tree.specs.declared.row.Row.{Row};
ghost use Rattle.scm_tree.specs.Paths.{is_before};
ghost use Rattle.scm_tree.specs.Rows.{AreInOrder, AreRows, is_row_of};
ghost use Rattle.scm_tree.specs.Scan.{IsNextInOrder, IsNoRow, IsOutOfOrder, IsRowFault};

use crate::path::is_before;
use crate::row::Row;
use crate::scan::{Clash, Side, first_clash};

/// What is wrong with rows.
#[derive(Clone, Copy, Debug)]
pub enum RowFault {
    /// The path of this row does not come after that of the row before.
    NotInOrder(usize),

    /// What is there now is no tree.
    ClashNow(Clash),

    /// What is there once everything is marked is no tree.
    ClashInGoal(Clash),

    /// The number of this row's file is too great, or its path comes and neither tree has it.
    NotOfTheTrees(usize),
}

/// Returns whether the path of row `i` comes after that of the row before, if there is one.
fn follows(rows: &[Row<'_>], i: usize) -> bool
    requires { i < length rows.now }
    ensures follows { result ≡ true → IsNextInOrder rows.now i }
    ensures falls { result ≡ false → IsOutOfOrder rows.now i }
{
    if i == 0 {
        return true;
    }
    is_before(rows[i - 1].path, rows[i].path)
}

/// Returns the first row whose path does not come after that of the row before.
fn order_fault(rows: &[Row<'_>]) -> Option<usize>
    ensures none { result ≡ None → AreInOrder rows.now }
    ensures some { IfSome result (IsOutOfOrder rows.now) }
{
    for i in 0..rows.len() {
        if !follows(rows, i) {
            return Some(i);
        }
    }
    None
}

/// Returns whether the file of `row` is one of `count`, and its path does not come without being in
/// one of the trees.
fn is_row_of(count: usize, row: &Row<'_>) -> bool
    ensures { result ≡ is_row_of count row.now }
{
    let is_known = row.current.is_some() | row.goal.is_some() | row.wanted.is_none();
    (row.file < count) & is_known
}

/// Returns the first row that is none of the trees or of `count` files.
fn row_fault(count: usize, rows: &[Row<'_>]) -> Option<usize>
    ensures none { result ≡ None → All (λ (r : Row). is_row_of count r ≡ true) rows.now }
    ensures some { IfSome result (IsNoRow count rows.now) }
{
    for i in 0..rows.len() {
        if !is_row_of(count, &rows[i]) {
            return Some(i);
        }
    }
    None
}

/// Checks that the rows are those of two trees and of a choice among `count` shown files.
///
/// # Errors
/// `RowFault`: what is wrong, with the number of the row, or of both rows of a clash.
pub fn check_rows(count: usize, rows: &[Row<'_>]) -> Result<(), RowFault>
    ensures { MatchResult result (λ _. AreRows count rows.now) (IsRowFault count rows.now) }
{
    if let Some(row) = order_fault(rows) {
        return Err(RowFault::NotInOrder(row));
    }
    if let Some(clash) = first_clash(rows, Side::Now, &[]) {
        return Err(RowFault::ClashNow(clash));
    }
    if let Some(clash) = first_clash(rows, Side::Goal, &[]) {
        return Err(RowFault::ClashInGoal(clash));
    }
    if let Some(row) = row_fault(count, rows) {
        return Err(RowFault::NotOfTheTrees(row));
    }
    Ok(())
}
