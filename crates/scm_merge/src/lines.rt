//! Lists of lines.
ghost use Rattle.std.specs.Prelude.{◌≡◌, ◌≤◌, ◌<◌, ◌++◌, [], OnOk, get_or, length, nat_eq, reverse};
ghost use Rattle.std.specs.Cmp.Lexicographic.{pointwise};
ghost use Rattle.scm_merge.specs.Parts.{same_lines, shared_end, shared_start};

use scm_types::Text;
use std::alloc::AllocError;

/// Returns whether the lines are equal, one by one.
pub(crate) fn same_lines(first: &[Text<'_>], second: &[Text<'_>]) -> bool
    ensures { result ≡ same_lines first.now second.now }
{
    first == second
}

/// Returns whether line `index` of `first` and line `index` of `second` are equal.
fn is_same_from_start(first: &[Text<'_>], second: &[Text<'_>], index: usize) -> bool
    requires first { index < length first.now }
    requires second { index < length second.now }
    ensures { result ≡ pointwise nat_eq (get_or first.now index []) (get_or second.now index []) }
{
    first[index] == second[index]
}

/// Returns whether line `index` of `first` and line `index` of `second` are equal, both counted from
/// the end.
#[tactic(auto, using(crate::proofs::SharedLemmas::shared_steps))]
fn is_same_from_end(first: &[Text<'_>], second: &[Text<'_>], index: usize) -> bool
    requires first { index < length first.now }
    requires second { index < length second.now }
    ensures { result ≡ pointwise nat_eq
        (get_or (reverse first.now) index []) (get_or (reverse second.now) index []) }
{
    first[first.len() - 1 - index] == second[second.len() - 1 - index]
}

/// Returns how many lines `first` and `second` share at their start.
#[tactic(auto, using(crate::proofs::SharedLemmas::shared_steps))]
pub(crate) fn shared_start(first: &[Text<'_>], second: &[Text<'_>]) -> usize
    ensures count { result ≡ shared_start first.now second.now }
    ensures first { result ≤ length first.now }
    ensures second { result ≤ length second.now }
{
    let most = first.len().min(second.len());
    for count in 0..most {
        if !is_same_from_start(first, second, count) {
            return count;
        }
    }
    most
}

/// Returns how many lines `first` and `second` share at their end.
#[tactic(auto, using(crate::proofs::SharedLemmas::shared_steps))]
pub(crate) fn shared_end(first: &[Text<'_>], second: &[Text<'_>]) -> usize
    ensures count { result ≡ shared_end first.now second.now }
    ensures first { result ≤ length first.now }
    ensures second { result ≤ length second.now }
{
    let most = first.len().min(second.len());
    for count in 0..most {
        if !is_same_from_end(first, second, count) {
            return count;
        }
    }
    most
}

/// Adds `more` at the end of `lines`. The copies borrow what `more` borrows.
pub(crate) fn push_lines<'a>(lines: &mut Vec<Text<'a>>, more: &[Text<'a>]) -> Result<(), AllocError>
    ensures { OnOk result (lines.new.items ≡ lines.old.items ++ more.now) }
{
    for line in more {
        lines.push(line.clone()?)?;
    }
    Ok(())
}
