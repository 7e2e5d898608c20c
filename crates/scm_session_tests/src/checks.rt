//! Values that a test makes, and the comparison of what is found with what is expected.
use std::alloc::AllocError;
use std::fmt::Debug;
use std::process::Abort;

/// Returns the value of `outcome`. An error fails the test.
pub(crate) fn made<T, E: Debug + Drop>(rt: &impl Abort, outcome: Result<T, E>) -> T {
    match outcome {
        Ok(value) => value,
        Err(error) => panic!(rt; "{error:?}"),
    }
}

/// Checks that `found` is `expected`. A failure shows both.
pub(crate) fn check_equal<T: PartialEq + Debug + Drop>(rt: &impl Abort, found: T, expected: T) {
    assert_eq!(rt; found, expected);
}

/// Checks that `found` was made, and is `expected`.
pub(crate) fn check_text(rt: &impl Abort, found: Result<String, AllocError>, expected: &str) {
    check_equal(rt, made(rt, found).as_str(), expected);
}
