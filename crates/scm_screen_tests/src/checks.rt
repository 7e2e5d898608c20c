//! Values that a test makes, comparisons of what is found with what is expected, and conditions of later calls.
ghost use Rattle.std.specs.Prelude.{◌≡◌, IsTrue, Ok};

use scm_cells::Grid;
use std::fmt::Debug;
use std::process::Abort;

/// Returns the value of `outcome`. An error fails the test.
pub(crate) fn made<T, E: Debug + Drop>(rt: &impl Abort, outcome: Result<T, E>) -> T
    ensures { outcome ≡ Ok result }
{
    match outcome {
        Ok(value) => value,
        Err(error) => panic!(rt; "{error:?}"),
    }
}

/// Checks that `found` is `expected`. A failure shows both.
pub(crate) fn check_equal<T: PartialEq + Debug + Drop>(rt: &impl Abort, found: T, expected: T) {
    assert_eq!(rt; found, expected);
}

/// Checks that `found` was made, and is `expected`.
pub(crate) fn check_text<E: Debug + Drop>(
    rt: &impl Abort,
    found: Result<String, E>,
    expected: &str,
) {
    check_equal(rt, made(rt, found).as_str(), expected);
}

/// Checks a condition that a later call needs.
pub(crate) fn check_that(rt: &impl Abort, condition: bool)
    ensures { IsTrue condition }
{
    assert!(rt; condition);
}

/// Checks that `grid` shows `view`.
pub(crate) fn check_view(rt: &impl Abort, grid: &Grid, view: &str) {
    check_text(rt, grid.view(), view);
}
