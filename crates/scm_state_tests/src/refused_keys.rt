//! Tests of what an allocation failure leaves of a set of keys. `tools/refuse-memory` runs the test
//! with each of its allocations refused. The checks hold then, and the test passes or ends in
//! `OutOfMemory`.
use crate::checks::check_equal;
use scm_selection::key_lists::line_key;
use scm_selection::key_set::KeySet;
use scm_types::{RecordError, SelectionKey};
use std::alloc::Global;
use std::process::Abort;

/// Returns the set of the keys of the first `count` lines.
fn lines_of(alloc: Global, count: usize) -> Result<KeySet, RecordError> {
    let mut set = KeySet::new(alloc);
    for index in 0..count {
        set.insert(line_key(0, 1, index))?;
    }
    Ok(set)
}

/// Adds `key` to `set`, which equals `before`: `set` has it then, or an allocation failed and `set` is unchanged.
fn check_insert(
    rt: &impl Abort,
    set: &mut KeySet,
    before: &KeySet,
    key: SelectionKey,
) -> Result<(), RecordError> {
    let outcome = set.insert(key);
    check_equal(rt, set.contains(key), outcome.is_ok());
    check_equal(rt, set.is_same(before), outcome.is_err());
    outcome
}

#[test]
fn refused_memory_keeps_sets_of_keys(rt: HostRuntime) -> Result<(), RecordError> {
    let alloc = rt.alloc();
    for count in 0..40 {
        let mut set = lines_of(alloc, count)?;
        check_insert(
            &rt,
            &mut set,
            &lines_of(alloc, count)?,
            line_key(0, 1, count),
        )?;
    }
    Ok(())
}
