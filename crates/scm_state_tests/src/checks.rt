//! Values that a test makes, and comparisons of what is found with what is expected.
ghost use Rattle.std.specs.Prelude.{◌≡◌, Ok};

use scm_types::OwnedText;
use std::alloc::AllocError;
use std::fmt::Debug;
use std::process::Abort;

/// Returns the value of `outcome`. An error fails the test.
pub(crate) fn made<T, E: Debug + Drop>(rt: &impl Abort, outcome: Result<T, E>) -> T
    ensures { outcome ≡ Ok result }
{
    match outcome {
        Ok(value) => value,
        Err(error) => panic!(rt; "{error:?}"),
    }
}

/// Checks that `found` is `expected`. A failure shows both.
pub(crate) fn check_equal<T: PartialEq + Debug + Drop>(rt: &impl Abort, found: T, expected: T) {
    assert_eq!(rt; found, expected);
}

/// Checks that `found` was made, and is `expected`.
pub(crate) fn check_text<E: Debug + Drop>(
    rt: &impl Abort,
    found: Result<String, E>,
    expected: &str,
) {
    check_equal(rt, made(rt, found).as_str(), expected);
}

/// Checks that `found` was made, and is `expected`.
pub(crate) fn check_owned(rt: &impl Abort, found: Result<OwnedText, AllocError>, expected: &str) {
    check_equal(rt, made(rt, found).as_str(), expected);
}

/// Checks that `found` was made, and has the bytes `expected`.
pub(crate) fn check_bytes(rt: &impl Abort, found: Result<Vec<u8>, AllocError>, expected: &[u8]) {
    check_equal(rt, made(rt, found).as_slice(), expected);
}

/// Checks that `copy` was made, and is `value`.
pub(crate) fn check_copy<T: PartialEq + Debug + Drop, E: Debug + Drop>(
    rt: &impl Abort,
    copy: Result<T, E>,
    value: &T,
) {
    check_equal(rt, &made(rt, copy), value);
}
