//! How long markers are, and how their lines end.
ghost use Rattle.std.specs.Prelude.{◌≡◌, ◌≤◌, ◌++◌, ◌==◌, IfOk, OnOk, length, map, not, slice_index};
ghost use Rattle.std.specs.List.{position, prefix_len};
ghost use Rattle.scm_merge.specs.Style.{all_texts, ends_crlf, has_end, is_crlf, is_sign, marker_len, marker_run, style_of, texts_of};

use crate::lines::push_lines;
use scm_types::{Section, SectionChangedLine, Text};
use std::alloc::{AllocError, Global};

/// How the markers of a file look.
#[derive(Clone, Copy)]
pub(crate) struct Style {
    /// How many signs a marker has.
    pub(crate) len: usize,

    /// Whether the line of a marker ends with CR LF, and not with LF.
    pub(crate) is_crlf: bool,
}

/// Adds the texts of the items at the end of `texts`.
fn push_item_texts<'a>(
    texts: &mut Vec<Text<'a>>,
    items: &[SectionChangedLine<'a>],
) -> Result<(), AllocError>
    ensures { OnOk result (texts.new.items
        ≡ texts.old.items ++ map (λ (item : SectionChangedLine). item.line) items.now) }
{
    for item in items {
        texts.push(item.line.clone()?)?;
    }
    Ok(())
}

/// Adds the texts of the lines of `section` at the end of `texts`.
pub(crate) fn push_texts<'a>(
    texts: &mut Vec<Text<'a>>,
    section: &Section<'a>,
) -> Result<(), AllocError>
    ensures { OnOk result (texts.new.items ≡ texts.old.items ++ texts_of section.now) }
{
    match section {
        Section::Unchanged { lines } => push_lines(texts, lines.as_slice()),
        Section::Changed { lines } => push_item_texts(texts, lines.as_slice()),
        Section::FileMode { .. } => Ok(()),
        Section::Binary { .. } => Ok(()),
    }
}

/// Returns the texts of all lines of the sections.
fn all_texts<'a>(alloc: Global, sections: &[Section<'a>]) -> Result<Vec<Text<'a>>, AllocError>
    ensures { IfOk result (λ texts. texts.items ≡ all_texts sections.now) }
{
    let mut texts = Vec::new(alloc);
    for section in sections {
        push_texts(&mut texts, section)?;
    }
    Ok(texts)
}

/// Returns whether markers are made of the byte.
fn is_sign(byte: u8) -> bool
    ensures { result ≡ is_sign byte }
{
    // `|`: one branch for the prover
    (byte == b'<') | (byte == b'|') | (byte == b'=') | (byte == b'>')
}

/// Returns the place of the first byte that is not `sign`.
fn first_other(bytes: &[u8], sign: u8) -> Option<usize>
    ensures { result ≡ position (λ b. not (b == sign)) bytes.now }
{
    bytes.iter().position(|byte| *byte != sign)
}

/// Returns how many bytes at the start are `sign`.
fn run_of(bytes: &[u8], sign: u8) -> usize
    ensures count { result ≡ prefix_len (λ c. c == sign) bytes.now }
    ensures within { result ≤ length bytes.now }
{
    first_other(bytes, sign).unwrap_or(bytes.len())
}

/// Returns the first byte, or 0 if there is none.
fn first_byte(bytes: &[u8]) -> u8
    ensures { result ≡ slice_index bytes.now 0 }
{
    match bytes.first() {
        Some(byte) => *byte,
        None => 0,
    }
}

/// Returns how many signs, all the same, the line begins with.
fn marker_run(line: &[u8]) -> usize
    ensures count { result ≡ marker_run line.now }
    ensures within { result ≤ length line.now }
{
    let sign = first_byte(line);
    if is_sign(sign) { run_of(line, sign) } else { 0 }
}

/// Returns how many signs a marker has among these lines, at least `least`.
fn marker_len(lines: &[Text<'_>], least: usize) -> usize
    ensures { result ≡ marker_len least lines.now }
{
    let mut len = least;
    for line in lines {
        let run = marker_run(line.as_str().as_bytes());
        len = len.max(run + 1);
    }
    len
}

/// Returns whether the line has a line end.
pub(crate) fn has_end(line: &Text<'_>) -> bool
    ensures { result ≡ has_end line.now }
{
    line.as_str().as_bytes().ends_with([b'\n'].as_slice())
}

/// Returns whether the line ends with CR LF.
fn ends_crlf(line: &Text<'_>) -> bool
    ensures { result ≡ ends_crlf line.now }
{
    line.as_str()
        .as_bytes()
        .ends_with([b'\r', b'\n'].as_slice())
}

/// Returns whether the first line that has a line end ends with CR LF.
fn is_crlf(lines: &[Text<'_>]) -> bool
    ensures { result ≡ is_crlf lines.now }
{
    for line in lines {
        if has_end(line) {
            return ends_crlf(line);
        }
    }
    false
}

/// Returns the style of the markers, of at least `least` signs, in a file with these sections.
pub(crate) fn style_of(
    alloc: Global,
    sections: &[Section<'_>],
    least: usize,
) -> Result<Style, AllocError>
    ensures { IfOk result (λ style. style ≡ style_of least sections.now) }
{
    let texts = all_texts(alloc, sections)?;
    Ok(Style {
        len: marker_len(texts.as_slice(), least),
        is_crlf: is_crlf(texts.as_slice()),
    })
}
