//! Tests of what an allocation failure leaves of a file that is split. `tools/refuse-memory` runs each
//! test with each of its allocations refused. The checks hold then, and the test passes or ends in
//! `OutOfMemory`.
use crate::checks::check_equal;
use scm_samples::{HELD, Held, file_holding};
use scm_types::{File, RecordError};
use std::alloc::Global;
use std::process::Abort;

/// Splits a file: split or refused, it equals its copy.
fn check_split(
    rt: &impl Abort,
    alloc: Global,
    file: &File<'_>,
    copy: &File<'_>,
) -> Result<(), RecordError> {
    let outcome = file.get_selected_contents(alloc);
    check_equal(rt, file, copy);
    let _sides = outcome?;
    Ok(())
}

/// Splits a file that holds this.
fn check_held(rt: &impl Abort, alloc: Global, held: Held) -> Result<(), RecordError> {
    let file = file_holding(alloc, held)?;
    check_split(rt, alloc, &file, &file.try_clone(alloc)?)
}

#[test]
fn refused_memory_keeps_files(rt: HostRuntime) -> Result<(), RecordError> {
    for held in HELD {
        check_held(&rt, rt.alloc(), *held)?;
    }
    Ok(())
}
