//! The lines that sections stand in, as git shows them behind `@@`, and the labels that say them.
ghost use Rattle.std.specs.Prelude.{◌≡◌, ◌+◌, ◌^◌, ◌<◌, ◌++◌, ◌∷◌, [], count_by, IfErr, IfOk, OnErr, OnOk, string_bytes, if◌then◌else◌};
ghost use Rattle.std.specs.Option.{option_to_list};
ghost use Rattle.scm_errors.specs.declared.error.RecordError.TheVariants.{OutOfMemory};
ghost use Rattle.scm_types.specs.Marks.{is_editable_section};
ghost use Rattle.scm_front_paint.specs.Headings.{GainsSome, first_bytes, heading_label, heading_text, is_changed, is_heading, is_letter, is_old, labels_from, labels_in, last_heading, number_below, old_lines, old_texts, shown_heading};

use crate::labels::{Label, Labels};
use scm_document::texts::section_text;
use scm_errors::RecordError;
use scm_types::{ChangeType, File, OwnedText, Section, SectionChangedLine, Text};
use std::alloc::{AllocError, Global};

/// The most bytes of a heading that a label shows.
const MAX_HEADING: usize = 80;

/// Returns whether `byte` is `A` to `Z` or `a` to `z`.
fn is_letter(byte: u8) -> bool
    ensures { result ≡ is_letter byte }
{
    let is_large = 65 <= byte && byte <= 90;
    let is_small = 97 <= byte && byte <= 122;
    is_large | is_small
}

/// Returns whether `line` begins with a letter, `_` or `$`.
fn is_heading(line: &str) -> bool
    ensures { result ≡ is_heading line.now }
{
    match line.as_bytes().first() {
        None => false,
        Some(first) => is_letter(*first) || *first == b'_' || *first == b'$',
    }
}

/// Returns `line` if that is a heading, else `above`.
fn heading_or<'l>(above: &'l str, line: &'l str) -> &'l str
    ensures { result.now ≡ (if is_heading line.now then line.now else above.now) }
{
    if is_heading(line) { line } else { above }
}

/// Returns the last heading among `lines`, or `above` if there is none.
fn last_heading<'l>(above: &'l str, lines: &'l [Text<'_>]) -> &'l str
    ensures { result.now ≡ last_heading above.now lines.now }
{
    let mut last = above;
    for line in lines {
        last = heading_or(last, line.as_str());
    }
    last
}

/// Returns whether the old version of a file has `line`.
fn is_old(line: &SectionChangedLine<'_>) -> bool
    ensures { result ≡ is_old line.now }
{
    match line.change_type {
        ChangeType::Added => false,
        ChangeType::Removed => true,
    }
}

/// Returns `line` if the old version of a file has it and it is a heading, else `above`.
fn old_heading_or<'l>(above: &'l str, line: &'l SectionChangedLine<'_>) -> &'l str
    ensures { result.now ≡ last_heading above.now (old_texts (line.now ∷ [])) }
{
    if is_old(line) {
        heading_or(above, line.line.as_str())
    } else {
        above
    }
}

/// Returns the last heading among the removed lines of `lines`, or `above` if there is none.
fn last_old_heading<'l>(above: &'l str, lines: &'l [SectionChangedLine<'_>]) -> &'l str
    ensures { result.now ≡ last_heading above.now (old_texts lines.now) }
{
    let mut last = above;
    for line in lines {
        last = old_heading_or(last, line);
    }
    last
}

/// Returns the last heading among the old lines of `section`, or `above` if there is none.
fn heading_below<'l>(above: &'l str, section: &'l Section<'_>) -> &'l str
    ensures { result.now ≡ last_heading above.now (old_lines section.now) }
{
    match section {
        Section::Unchanged { lines } => last_heading(above, lines.as_slice()),
        Section::Changed { lines } => last_old_heading(above, lines.as_slice()),
        Section::FileMode { .. } | Section::Binary { .. } => above,
    }
}

/// Returns the first bytes of `line`, in whole characters.
fn first_bytes(line: &str) -> &str
    ensures { result.now ≡ first_bytes line.now }
{
    if line.len() <= MAX_HEADING {
        return line;
    }
    let (first, _) = line.split_at(line.floor_char_boundary(MAX_HEADING));
    first
}

/// Returns what a label shows of the heading `line`.
fn shown_heading(line: &str) -> &str
    ensures { result.now ≡ shown_heading line.now }
{
    first_bytes(line).trim_end()
}

/// Returns the title of a section with its number and the total, and `heading` behind it.
///
/// # Errors
///
/// - `AllocError`: an allocation failed.
fn heading_text(
    alloc: Global,
    number: usize,
    total: usize,
    heading: &str,
) -> Result<String, AllocError>
    ensures ok { IfOk result (λ text. string_bytes text ≡ heading_text number total heading.now) }
{
    let title = section_text(alloc, number, total)?;
    let shown = shown_heading(heading);
    Ok(format!(in alloc; "{title}  {shown}")?)
}

/// Returns whether `section` has changed lines.
fn is_changed(section: &Section<'_>) -> bool
    ensures { result ≡ is_changed section.now }
{
    match section {
        Section::Changed { .. } => true,
        Section::Unchanged { .. } | Section::FileMode { .. } | Section::Binary { .. } => false,
    }
}

/// Where a section stands.
#[derive(Clone, Copy)]
struct Place {
    /// The index of its file in the state, counted from 0.
    file: usize,
    /// Its index in the file, counted from 0.
    index: usize,
    /// How many editable sections the file has up to this one.
    number: usize,
    /// How many editable sections the file has.
    total: usize,
}

/// Puts the label of `section` behind `labels`, if it is one of changed lines with the heading `heading` above it.
///
/// # Errors
///
/// - `OutOfMemory`: an allocation failed; the labels are unchanged.
fn push_label(
    alloc: Global,
    labels: &mut Labels,
    place: Place,
    heading: &str,
    section: &Section<'_>,
) -> Result<(), RecordError>
    ensures ok { OnOk result (labels.new ≡ labels.old ++ option_to_list
        (heading_label place.file place.index place.number place.total heading.now section.now)) }
    ensures unchanged { OnErr result (labels.new ≡ labels.old) }
    ensures err { IfErr result (λ e. e ≡ OutOfMemory) }
{
    if !is_changed(section) || heading.is_empty() {
        return Ok(());
    }
    let text = heading_text(alloc, place.number, place.total, heading)?;
    labels.push(Label {
        file: place.file,
        section: place.index,
        text: OwnedText::from(text),
    })
}

/// Returns the number of editable sections up to the end of `section`, if `number` are before it.
fn number_below(number: usize, section: &Section<'_>) -> usize
    requires { number + 1 < 2 ^ 64 }
    ensures { result ≡ number_below number section.now }
{
    if section.is_editable() {
        number + 1
    } else {
        number
    }
}

/// Returns how many of `sections` are editable.
fn count_editable(sections: &[Section<'_>]) -> usize
    ensures { result ≡ count_by is_editable_section sections.now }
{
    sections
        .iter()
        .filter(|section| section.is_editable())
        .count()
}

/// Puts the labels of the sections of file `file` behind `labels`.
///
/// # Errors
///
/// - `OutOfMemory`: an allocation failed; `labels` has some of them.
fn push_labels_in(
    alloc: Global,
    labels: &mut Labels,
    file: usize,
    sections: &[Section<'_>],
) -> Result<(), RecordError>
    ensures ok { OnOk result (labels.new ≡ labels.old ++ labels_in file sections.now) }
    ensures some { OnErr result (GainsSome (labels_in file sections.now) labels.old labels.new) }
    ensures err { IfErr result (λ e. e ≡ OutOfMemory) }
{
    let total = count_editable(sections);
    let mut number = 0usize;
    let mut heading = "";
    for (index, section) in sections.iter().enumerate() {
        let place = Place {
            file,
            index,
            number: number + 1,
            total,
        };
        push_label(alloc, labels, place, heading, section)?;
        number = number_below(number, section);
        heading = heading_below(heading, section);
    }
    Ok(())
}

/// Puts the labels of all sections of `files` behind `labels`.
///
/// # Errors
///
/// - `OutOfMemory`: an allocation failed; `labels` has some of them.
pub(crate) fn push_labels(
    alloc: Global,
    labels: &mut Labels,
    files: &[File<'_>],
) -> Result<(), RecordError>
    ensures ok { OnOk result (labels.new ≡ labels.old ++ labels_from 0 files.now) }
    ensures some { OnErr result (GainsSome (labels_from 0 files.now) labels.old labels.new) }
    ensures err { IfErr result (λ e. e ≡ OutOfMemory) }
{
    for (index, file) in files.iter().enumerate() {
        push_labels_in(alloc, labels, index, file.sections.as_slice())?;
    }
    Ok(())
}
