//! The files of two trees, the marks and the renamed files that records have.
ghost use Rattle.std.specs.Prelude.{◌≡◌, ◌+◌, ◌-◌, ◌<◌, IfOk, IfSome, MatchResult, Ok, OnOk, Some, drop, length, slice_get, take};
ghost use Rattle.std.specs.List.{position};
ghost use Rattle.scm_tree.specs.declared.asked.ReadError.TheVariants.{OutOfMemory};
ghost use Rattle.scm_tree.specs.Records.{held_by, is_nul, record_of, rows_in, seen_record, with_asked, with_files, with_first, with_record, with_second, last_shown, nothing_held, seen_mark, shown_path, version_of, with_shown};
ghost use Rattle.scm_tree.specs.Reading.{IsReadFault, held_if};

use crate::adding::add;
use crate::bytes::{after, before, first_place};
use crate::record::{Ask, NEW, OLD, Record, asked_version, record_of, version_of};
use crate::{Entry, Mark, Moved, Wish};
use std::alloc::{AllocError, Global};

/// What records have. Each shown file has a number, in the order of the records.
#[derive(Drop)]
pub(crate) struct Asked<'a> {
    pub(crate) old: Vec<Entry<'a>>,
    pub(crate) new: Vec<Entry<'a>>,
    pub(crate) marks: Vec<Mark<'a>>,
    pub(crate) moved: Vec<Moved<'a>>,

    /// How many files are shown.
    pub(crate) count: usize,
}

/// Why bytes are no records.
#[derive(Clone, Copy)]
pub(crate) enum ReadError<'a> {
    /// These bytes are no record, or the second one of a file without a first one.
    NoRecord(&'a [u8]),

    /// An allocation failed.
    OutOfMemory,
}

impl From<AllocError> for ReadError<'_> {
    ghost from_gives = { λ _ e. e ≡ OutOfMemory };

    fn from(_error: AllocError) -> Self {
        ReadError::OutOfMemory
    }
}

/// Returns the file at `path` whose version has this number.
fn entry_of<'a>(path: &'a [u8], contents: usize) -> Entry<'a>
    ensures { result ≡ record { path = path.entry; version = version_of contents } }
{
    Entry {
        path,
        version: version_of(contents),
    }
}

/// Adds the files that the two trees have at the record's path.
fn add_entries<'a>(asked: &mut Asked<'a>, row: &Record<'a>) -> Result<(), AllocError>
    ensures { OnOk result
        (held_by asked.exit.now ≡ with_files (seen_record row.now) (held_by asked.entry.now)) }
{
    if row.is_old {
        add(&mut asked.old, entry_of(row.path, OLD))?;
    }
    if row.is_new {
        add(&mut asked.new, entry_of(row.path, NEW))
    } else {
        Ok(())
    }
}

/// Returns what the marks of file `file` ask for at the record's path.
fn mark_of<'a>(row: &Record<'a>, file: usize) -> Mark<'a>
    ensures { seen_mark result ≡ shown_path (seen_record row.now) file }
{
    Mark {
        path: row.path,
        wish: Wish {
            file,
            wanted: asked_version(row.ask),
        },
    }
}

/// Returns the last mark.
fn last_mark<'a>(marks: &[Mark<'a>]) -> Option<Mark<'a>>
    ensures { result ≡ slice_get marks.now (length marks.now - 1) }
{
    if marks.is_empty() {
        None
    } else {
        Some(marks[marks.len() - 1])
    }
}

/// Adds the other path of the renamed file to which the last mark belongs. Returns whether there is one.
fn add_second<'a>(asked: &mut Asked<'a>, row: &Record<'a>) -> Result<bool, AllocError>
    ensures { IfOk result (λ done.
        with_second (seen_record row.now) (last_shown (held_by asked.entry.now)) (held_by asked.entry.now)
        ≡ held_if done asked.exit.now) }
{
    let Some(first) = last_mark(asked.marks.as_slice()) else {
        return Ok(false);
    };
    let moved = Moved {
        old: first.path,
        new: row.path,
    };
    add(&mut asked.moved, moved)?;
    add(&mut asked.marks, mark_of(row, first.wish.file))?;
    Ok(true)
}

/// Adds the first path of a file.
fn add_first<'a>(asked: &mut Asked<'a>, row: &Record<'a>) -> Result<(), AllocError>
    ensures { OnOk result
        (held_by asked.exit.now ≡ with_first (seen_record row.now) (held_by asked.entry.now)) }
{
    let Some(count) = asked.count.checked_add(1) else {
        return Err(AllocError);
    };
    let mark = mark_of(row, asked.count);
    asked.count = count;
    add(&mut asked.marks, mark)
}

/// Adds what the record's marks ask for, if its path is shown. Returns whether that goes.
fn add_shown<'a>(asked: &mut Asked<'a>, row: &Record<'a>) -> Result<bool, AllocError>
    ensures { IfOk result (λ done.
        with_shown (seen_record row.now) (held_by asked.entry.now) ≡ held_if done asked.exit.now) }
{
    if row.is_second {
        return add_second(asked, row);
    }
    add_first(asked, row)?;
    Ok(true)
}

/// Adds what the record asks for: a path that keeps what is there is not shown. Returns whether that goes.
fn add_asked<'a>(asked: &mut Asked<'a>, row: &Record<'a>) -> Result<bool, AllocError>
    ensures { IfOk result (λ done.
        with_asked row.now.ask (seen_record row.now) (held_by asked.entry.now)
        ≡ held_if done asked.exit.now) }
{
    match row.ask {
        Ask::Keep => Ok(true),
        Ask::Nothing | Ask::Old | Ask::New | Ask::Chosen => add_shown(asked, row),
    }
}

/// Adds what the record has that `bytes` are. Returns whether they are one, and what it asks for goes.
fn add_record<'a>(asked: &mut Asked<'a>, bytes: &'a [u8]) -> Result<bool, AllocError>
    ensures { IfOk result (λ done.
        with_record (record_of bytes.now) (held_by asked.entry.now) ≡ held_if done asked.exit.now) }
{
    let Some(record) = record_of(bytes) else {
        return Ok(false);
    };
    add_entries(asked, &record)?;
    add_asked(asked, &record)
}

/// Returns nothing, to which records are added.
fn nothing_asked<'a>(alloc: Global) -> Asked<'a>
    ensures { held_by result ≡ nothing_held }
{
    Asked {
        old: Vec::new(alloc),
        new: Vec::new(alloc),
        marks: Vec::new(alloc),
        moved: Vec::new(alloc),
        count: 0,
    }
}

/// Returns what `bytes` have, records that each end with a NUL.
///
/// # Errors
/// - `NoRecord`: a part of the bytes is no record.
/// - `OutOfMemory`: an allocation failed.
pub(crate) fn read_records<'a>(alloc: Global, bytes: &'a [u8]) -> Result<Asked<'a>, ReadError<'a>>
    ensures { MatchResult result (λ asked. rows_in bytes.now ≡ Ok (held_by asked))
        (IsReadFault bytes.now) }
{
    let mut asked = nothing_asked(alloc);
    let mut rest = bytes;
    'records: while let Some(end) = first_place(rest, 0) {
        let part = before(rest, end);
        if !add_record(&mut asked, part)? {
            return Err(ReadError::NoRecord(part));
        }
        rest = after(rest, end);
    }
    if rest.is_empty() {
        Ok(asked)
    } else {
        Err(ReadError::NoRecord(rest))
    }
}
