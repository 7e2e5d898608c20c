//! What becomes of paths, as records.
ghost use Rattle.std.specs.Prelude.{◌≡◌, ◌++◌, IfOk, OnOk, Some, slice_get};
ghost use Rattle.std.specs.Option.{option_map};
ghost use Rattle.scm_tree.specs.Answers.{IsAnswer, IsAnswerTo, answer_of, letter_of, moved_to, path_or, reason_answer, record_bytes, refusal_answer, refusals_answer, row_answer};

use crate::adding::add;
use crate::asked::{Asked, ReadError, read_records};
use crate::{DecideError, Decision, Moved, Refusal, Row, Version, decide, result_at};
use std::alloc::{AllocError, Global};

/// Returns the letter of a version: of no file, the old one, the new one, or a chosen one.
fn letter_of(version: Option<Version>) -> u8
    ensures { result ≡ letter_of version }
{
    let Some(version) = version else {
        return b'-';
    };
    if version.contents == 0 {
        b'o'
    } else if version.contents == 1 {
        b'n'
    } else {
        b'c'
    }
}

/// Adds a record: a letter, a blank, the path, and a NUL.
fn add_record(answer: &mut Vec<u8>, letter: u8, path: &[u8]) -> Result<(), AllocError>
    ensures { OnOk result (answer.new.items ≡ answer.old.items ++ record_bytes letter path.now) }
{
    answer.extend_from_slice(&[letter, b' '])?;
    answer.extend_from_slice(path)?;
    add(answer, 0)
}

/// Adds what becomes of the path of `row`, if that is shown: if its file is one of `count`.
fn add_row(
    answer: &mut Vec<u8>,
    row: &Row<'_>,
    refused: &[Option<Refusal>],
    count: usize,
) -> Result<(), AllocError>
    ensures { OnOk result
        (answer.new.items ≡ answer.old.items ++ row_answer count refused.now row.now) }
{
    if row.file >= count {
        return Ok(());
    }
    add_record(answer, letter_of(result_at(row, refused)), row.path)
}

/// Returns the path of row `i`, or none.
fn path_or<'a>(rows: &[Row<'a>], i: usize) -> &'a [u8]
    ensures { result.now ≡ path_or rows.now i }
{
    if i < rows.len() { rows[i].path } else { b"" }
}

/// Adds why a file is left out, if it is: its path that would come, and the path beside which that cannot be.
fn add_refusal(
    answer: &mut Vec<u8>,
    rows: &[Row<'_>],
    refusal: Option<Refusal>,
) -> Result<(), AllocError>
    ensures { OnOk result (answer.new.items ≡ answer.old.items ++ refusal_answer rows.now refusal) }
{
    let Some(refusal) = refusal else {
        return Ok(());
    };
    add_record(answer, b'x', path_or(rows, refusal.comes))?;
    add_record(answer, b'y', path_or(rows, refusal.blocker))
}

/// Adds why each file is left out that is.
fn add_refusals(
    answer: &mut Vec<u8>,
    rows: &[Row<'_>],
    refused: &[Option<Refusal>],
) -> Result<(), AllocError>
    ensures { OnOk result (answer.new.items ≡ answer.old.items ++ refusals_answer rows.now refused.now) }
{
    for i in 0..refused.len() {
        add_refusal(answer, rows, refused[i])?;
    }
    Ok(())
}

/// Returns the records of what is decided of `count` shown files.
fn answer_of(alloc: Global, decision: &Decision<'_>, count: usize) -> Result<Vec<u8>, AllocError>
    ensures { IfOk result (λ answer. answer.items ≡ answer_of count decision.now) }
{
    let rows = decision.rows.as_slice();
    let refused = decision.refused.as_slice();
    let mut answer = Vec::new(alloc);
    for i in 0..rows.len() {
        add_row(&mut answer, &rows[i], refused, count)?;
    }
    add_refusals(&mut answer, rows, refused)?;
    Ok(answer)
}

/// Returns the one record that says why nothing is decided.
fn fault_of(alloc: Global, letter: u8, path: &[u8]) -> Result<Vec<u8>, AllocError>
    ensures { IfOk result (λ answer. answer.items ≡ record_bytes letter path.now) }
{
    let mut answer = Vec::new(alloc);
    add_record(&mut answer, letter, path)?;
    Ok(answer)
}

/// Returns the new path of renamed file `i`, or none.
fn moved_to<'a>(moved: &[Moved<'a>], i: usize) -> &'a [u8]
    ensures { result.now ≡ moved_to (slice_get moved.now i) }
{
    if i < moved.len() { moved[i].new } else { b"" }
}

/// Returns the letter and the path of the record that says of `error` what is wrong, or `None` if an allocation failed.
fn reason_parts<'a>(moved: &[Moved<'a>], error: DecideError<'a>) -> Option<(u8, &'a [u8])>
    ensures { option_map (λ parts. record_bytes parts.0 parts.1.now) result
        ≡ reason_answer moved.now error.entry }
{
    match error {
        DecideError::Twice(path) => Some((b'2', path)),
        DecideError::Unknown(path) => Some((b'?', path)),
        DecideError::Path(path, _) => Some((b'!', path)),
        DecideError::Rows(_) | DecideError::File(_) => Some((b'/', b"")),
        DecideError::Rename(i) => Some((b'+', moved_to(moved, i))),
        DecideError::OutOfMemory => None,
    }
}

/// Returns the one record that says why nothing is decided.
fn reason_of<'a>(
    alloc: Global,
    moved: &[Moved<'a>],
    error: DecideError<'a>,
) -> Result<Vec<u8>, AllocError>
    ensures { IfOk result (λ answer. reason_answer moved.now error.entry ≡ Some answer.items) }
{
    let Some((letter, path)) = reason_parts(moved, error) else {
        return Err(AllocError);
    };
    fault_of(alloc, letter, path)
}

/// Decides what becomes of the paths that records have.
fn decide_asked(alloc: Global, asked: &Asked<'_>) -> Result<Vec<u8>, AllocError>
    ensures { IfOk result (λ answer. IsAnswerTo asked.now answer.items) }
{
    let decided = decide(
        alloc,
        asked.old.as_slice(),
        asked.new.as_slice(),
        asked.marks.as_slice(),
        asked.moved.as_slice(),
        asked.count,
    );
    match decided {
        Ok(decision) => answer_of(alloc, &decision, asked.count),
        Err(error) => reason_of(alloc, asked.moved.as_slice(), error),
    }
}

/// Returns the records of what becomes of the paths that the records `bytes` have, or the one record that says why
/// nothing is decided.
///
/// # Errors
/// `AllocError`: an allocation failed.
pub fn decide_records(alloc: Global, bytes: &[u8]) -> Result<Vec<u8>, AllocError>
    ensures { IfOk result (λ answer. IsAnswer bytes.now answer.items) }
{
    match read_records(alloc, bytes) {
        Ok(asked) => decide_asked(alloc, &asked),
        Err(ReadError::NoRecord(record)) => fault_of(alloc, b'#', record),
        Err(ReadError::OutOfMemory) => Err(AllocError),
    }
}
