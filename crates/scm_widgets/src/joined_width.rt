//! The columns of texts beside each other.
ghost use Rattle.std.specs.Prelude.{◌≡◌, ◌<◌, ◌+◌, IfOk};

use std::alloc::AllocError;

/// Returns the sum of the widths `left`, `middle` and `right`, in columns.
///
/// # Errors
/// `AllocError`: the sum exceeds a `usize`; no memory holds such a text.
pub fn joined_width(left: usize, middle: usize, right: usize) -> Result<usize, AllocError>
    ensures ok { IfOk result (λ n. n ≡ left + middle + right) }
{
    let first_two = left.checked_add(middle).ok_or(AllocError)?;
    first_two.checked_add(right).ok_or(AllocError)
}
