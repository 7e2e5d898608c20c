//! The lines of a merge as records.
ghost use Rattle.std.specs.Prelude.{◌≡◌, ◌++◌, ℕ, List, IfOk, OnOk, map};
ghost use Rattle.scm_types.specs.declared.line.SectionChangedLine.{SectionChangedLine};
ghost use Rattle.scm_merge.specs.Records.{ShowsMerge, changed_records, context_records, file_records, letter_of, next_of, record_bytes, section_records, seen_after, texts_of};

use crate::texts::{Texts, file_of_texts, texts_of};
use scm_types::{File, Section, SectionChangedLine, Text};
use std::alloc::{AllocError, Global};

/// Adds a record: a letter, the number of bytes of `text` in eight bytes, the lowest one first, and
/// `text`.
fn add_record(records: &mut Vec<u8>, letter: u8, text: &[u8]) -> Result<(), AllocError>
    ensures { OnOk result (records.new.items ≡ records.old.items ++ record_bytes letter text.now) }
{
    records.push(letter)?;
    records.extend_from_slice(&text.len().to_le_bytes())?;
    records.extend_from_slice(text)?;
    Ok(())
}

/// Adds a record of each context line.
fn add_context(records: &mut Vec<u8>, lines: &[Text<'_>]) -> Result<(), AllocError>
    ensures { OnOk result (records.new.items ≡ records.old.items ++ context_records lines.now) }
{
    for line in lines {
        add_record(records, b' ', line.as_bytes())?;
    }
    Ok(())
}

/// Adds a record of each changed line.
fn add_changed(
    records: &mut Vec<u8>,
    letter: u8,
    lines: &[SectionChangedLine<'_>],
) -> Result<(), AllocError>
    ensures { OnOk result (records.new.items
        ≡ records.old.items ++ changed_records letter lines.now) }
{
    for line in lines {
        add_record(records, letter, line.line.as_bytes())?;
    }
    Ok(())
}

/// Returns the letter of a version in a conflict, of which `seen` versions came before: ours, the
/// base, theirs.
fn letter_of(seen: usize) -> u8
    ensures { result ≡ letter_of seen }
{
    if seen == 0 {
        b'o'
    } else if seen == 1 {
        b'b'
    } else {
        b't'
    }
}

/// Returns how many versions of a conflict have come after one more.
fn next_of(seen: usize) -> usize
    ensures { result ≡ next_of seen }
{
    if seen == 0 {
        1
    } else if seen == 1 {
        2
    } else {
        0
    }
}

/// Returns how many versions of a conflict have come after `section`.
fn seen_after(seen: usize, section: &Section<'_>) -> usize
    ensures { result ≡ seen_after seen section.now }
{
    match section {
        Section::Changed { .. } => next_of(seen),
        Section::Unchanged { .. } => 0,
        Section::FileMode { .. } => 0,
        Section::Binary { .. } => 0,
    }
}

/// Adds the records of `section`, before which `seen` versions of a conflict came.
fn add_section(records: &mut Vec<u8>, seen: usize, section: &Section<'_>) -> Result<(), AllocError>
    ensures { OnOk result (records.new.items
        ≡ records.old.items ++ section_records seen section.now) }
{
    match section {
        Section::Unchanged { lines } => add_context(records, lines.as_slice()),
        Section::Changed { lines } => add_changed(records, letter_of(seen), lines.as_slice()),
        Section::FileMode { .. } => Ok(()),
        Section::Binary { .. } => Ok(()),
    }
}

/// Returns the records of a file.
fn file_records(alloc: Global, file: &File<'_>) -> Result<Vec<u8>, AllocError>
    ensures { IfOk result (λ records. records.items ≡ file_records file.now) }
{
    let mut records = Vec::new(alloc);
    let mut seen = 0;
    for section in file.sections.as_slice() {
        add_section(&mut records, seen, section)?;
        seen = seen_after(seen, section);
    }
    Ok(records)
}

/// Returns the records of the merge of three texts.
fn records_of_texts(alloc: Global, texts: &Texts) -> Result<Vec<u8>, AllocError>
    ensures { (base ours theirs : List ℕ) → texts.now ≡ texts_of base ours theirs
        → IfOk result (λ records. ShowsMerge base ours theirs records.items) }
{
    let file = file_of_texts(alloc, texts)?;
    let records = file_records(alloc, &file)?;
    Ok(records)
}

/// Returns the records of the merge of three files, one for each line that is shown: ` ` with a line
/// that is taken without asking, and of each conflict `o` with our lines, `b` with those of the base,
/// and `t` with theirs. A version without lines has one record with the empty text.
///
/// The text of a line is UTF-8: it stands for the line's bytes as
/// [`text_of_bytes`](scm_diff::text_of_bytes) says.
///
/// # Errors
/// `AllocError`: an allocation failed.
pub fn merge_records(
    alloc: Global,
    base: &[u8],
    ours: &[u8],
    theirs: &[u8],
) -> Result<Vec<u8>, AllocError>
    ensures { IfOk result
        (λ records. ShowsMerge base.now ours.now theirs.now records.items) }
{
    let texts = texts_of(alloc, base, ours, theirs)?;
    records_of_texts(alloc, &texts)
}
