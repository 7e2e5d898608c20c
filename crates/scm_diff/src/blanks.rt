//! A version of a file without the changes that are of blanks alone.
ghost use Rattle.std.specs.Prelude.{◌≡◌, ◌∷◌, ◌++◌, ◌≤◌, [], IfOk, OnOk, length, map, string_bytes};
ghost use Rattle.scm_diff.specs.Blanks.{AreWithoutBlankChanges, IsTextWithoutBlankChanges, count_other, is_blank, kept_lines, solid, squeezed};
ghost use Rattle.scm_diff.specs.Hunks.{AreHunks};

use crate::bytes::{bytes_of_text, text_of_bytes};
use crate::compare::hunks;
use crate::hunk::Hunk;
use crate::lines::lines_of;
use crate::sides::text_of;
use scm_types::{OwnedText, Text};
use std::alloc::{AllocError, Global};

/// A version of a file without the changes that are of blanks alone.
#[derive(Drop)]
pub struct WithoutBlankChanges {
    /// The bytes of the version.
    pub bytes: Vec<u8>,

    /// How many lines are not as the version had them.
    pub left_out: usize,
}

/// A text without the changes that are of blanks alone, and how many lines are left out.
#[derive(Drop)]
struct Kept {
    text: OwnedText,
    left_out: usize,
}

/// Returns whether the character is a blank. A line end is none.
fn is_blank(c: char) -> bool
    ensures { result ≡ is_blank c }
{
    let code = u32::from(c);
    let is_within = (11 <= code) & (code <= 13);
    // `|`: one branch for the prover
    (code == 9) | (code == 32) | is_within
}

/// Adds the character at the end of `text`, unless it is a blank.
fn push_solid(text: &mut String, c: char) -> Result<(), AllocError>
    ensures { OnOk result (string_bytes text.new ≡ string_bytes text.old ++ solid c) }
{
    if is_blank(c) {
        return Ok(());
    }
    text.push(c)
}

/// Returns the line without its blanks.
fn squeezed(alloc: Global, line: &str) -> Result<String, AllocError>
    ensures { IfOk result (λ text. string_bytes text ≡ squeezed line.now) }
{
    let mut text = String::with_capacity(alloc, line.len())?;
    for c in line.chars() {
        push_solid(&mut text, c)?;
    }
    Ok(text)
}

/// Returns the lines without their blanks.
fn squeezed_lines(alloc: Global, lines: &[Text<'_>]) -> Result<Vec<Text<'static>>, AllocError>
    ensures { IfOk result (λ squeezed_lines. squeezed_lines.items ≡ map squeezed lines.now) }
{
    let mut copies = Vec::with_capacity(alloc, lines.len())?;
    for line in lines {
        copies.push(Text::from(squeezed(alloc, line.as_str())?))?;
    }
    Ok(copies)
}

/// Returns the differences of the lines without their blanks.
fn hunks_without_blanks(
    alloc: Global,
    old: &[Text<'_>],
    new: &[Text<'_>],
) -> Result<Vec<Hunk>, AllocError>
    ensures { IfOk result (λ hunks.
        AreHunks (map squeezed old.now) (map squeezed new.now) hunks.items) }
{
    let old_lines = squeezed_lines(alloc, old)?;
    let new_lines = squeezed_lines(alloc, new)?;
    hunks(alloc, old_lines.as_slice(), new_lines.as_slice())
}

/// Adds `more` at the end of `lines`.
fn push_lines<'a>(lines: &mut Vec<Text<'a>>, more: &[Text<'a>]) -> Result<(), AllocError>
    ensures { OnOk result (lines.new.items ≡ lines.old.items ++ more.now) }
{
    for line in more {
        lines.push(line.clone()?)?;
    }
    Ok(())
}

/// Returns the lines of `new` in the hunks, which are those without blanks, and those of `old` outside of them.
fn kept_lines<'a>(
    alloc: Global,
    old: &[Text<'a>],
    new: &[Text<'a>],
    hunks: &[Hunk],
) -> Result<Vec<Text<'a>>, AllocError>
    requires { AreHunks (map squeezed old.now) (map squeezed new.now) hunks.now }
    ensures { IfOk result (λ lines. lines.items ≡ kept_lines old.now new.now 0 hunks.now) }
{
    let mut lines = Vec::with_capacity(alloc, new.len())?;
    let mut done = 0;
    for hunk in hunks {
        push_lines(&mut lines, &old[done..hunk.old_start])?;
        push_lines(&mut lines, &new[hunk.new_start..hunk.new_end])?;
        done = hunk.old_end;
    }
    push_lines(&mut lines, &old[done..])?;
    Ok(lines)
}

/// Returns 0 if the lines are equal, and else 1.
fn count_if_other(line: &Text<'_>, other: &Text<'_>) -> usize
    ensures value { result ≡ count_other (line.now ∷ []) (other.now ∷ []) }
    ensures most { result ≤ 1 }
{
    if line.as_str() == other.as_str() {
        0
    } else {
        1
    }
}

/// Returns how many of the lines differ from the line of the same place among `others`.
fn count_other(lines: &[Text<'_>], others: &[Text<'_>]) -> usize
    requires { length lines.now ≤ length others.now }
    ensures { result ≡ count_other lines.now others.now }
{
    let mut count = 0;
    for (index, line) in lines.iter().enumerate() {
        count += count_if_other(line, &others[index]);
    }
    count
}

/// Returns the text of `new` without the changes that are of blanks alone.
fn text_without_blank_changes(alloc: Global, old: &str, new: &str) -> Result<Kept, AllocError>
    ensures { IfOk result (λ kept.
        IsTextWithoutBlankChanges old.now new.now kept.text kept.left_out) }
{
    let old_lines = lines_of(alloc, old)?;
    let new_lines = lines_of(alloc, new)?;
    let differences = hunks_without_blanks(alloc, old_lines.as_slice(), new_lines.as_slice())?;
    let lines = kept_lines(
        alloc,
        old_lines.as_slice(),
        new_lines.as_slice(),
        differences.as_slice(),
    )?;
    let left_out = count_other(lines.as_slice(), new_lines.as_slice());
    let text = text_of(alloc, lines.as_slice())?;
    Ok(Kept { text, left_out })
}

/// Returns the version `new` of a file without the changes that are of blanks alone: a line of `new` that differs from
/// the line of `old` that it is compared with by blanks alone is as `old` has it. A blank is a tab, a vertical tab, a
/// form feed, a carriage return or a space; a line end is none. Bytes that are not UTF-8 are no blanks, and come back.
///
/// In the file that [`changed_file`](crate::changed_file) makes of `old` and this version each line of a side is a line
/// of one of the two, whatever is marked. So no mark takes a change that is left out.
///
/// # Errors
/// `AllocError`: an allocation failed.
pub fn without_blank_changes(
    alloc: Global,
    old: &[u8],
    new: &[u8],
) -> Result<WithoutBlankChanges, AllocError>
    ensures { IfOk result (AreWithoutBlankChanges old.now new.now) }
{
    let old_text = text_of_bytes(alloc, old)?;
    let new_text = text_of_bytes(alloc, new)?;
    let Kept { text, left_out } = text_without_blank_changes(
        alloc,
        old_text.as_str(),
        new_text.as_str(),
    )?;
    let bytes = bytes_of_text(alloc, text.as_str())?;
    Ok(WithoutBlankChanges { bytes, left_out })
}
