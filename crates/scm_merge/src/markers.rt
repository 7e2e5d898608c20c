//! The bytes of a merge with markers around each open conflict.
ghost use Rattle.std.specs.Prelude.{◌≡◌, ◌++◌, ◌∷◌, [], IfOk, OnOk, length, string_bytes};
ghost use Rattle.std.specs.List.{list_any};
ghost use Rattle.scm_merge.specs.Markers.{bytes_with_markers, closed, ended, file_with_markers, is_left_out, is_line, is_line_end, label_part, line_end, marked_section, marked_sections, marker, opened, role_lines, sections_with_markers, version_lines};
ghost use Rattle.scm_merge.specs.Style.{texts_of};
ghost use Rattle.scm_types.specs.declared.section.Section.TheVariants.{Unchanged};

use crate::labels::Labels;
use crate::result::{file_with_sections, section_with_texts};
use crate::roles::{Role, roles_of};
use crate::style::{Style, has_end, push_texts, style_of};
use scm_diff::side_bytes;
use scm_types::{File, Items, Section, Text};
use std::alloc::{AllocError, Global};

/// Returns the line end.
fn line_end(is_crlf: bool) -> &'static str
    ensures { result.now ≡ line_end is_crlf }
{
    if is_crlf { "\r\n" } else { "\n" }
}

/// Returns whether the byte is LF or CR.
fn is_line_end(byte: u8) -> bool
    ensures { result ≡ is_line_end byte }
{
    // `|`: one branch for the prover
    (byte == b'\n') | (byte == b'\r')
}

/// Returns whether one of the bytes is LF or CR.
fn has_line_end(bytes: &[u8]) -> bool
    ensures { result ≡ list_any is_line_end bytes.now }
{
    bytes.iter().any(|byte| is_line_end(*byte))
}

/// Returns whether the label is left out.
fn is_left_out(label: &str) -> bool
    ensures { result ≡ is_left_out label.now }
{
    let breaks_line = has_line_end(label.as_bytes());
    // `|`: one branch for the prover
    label.is_empty() | breaks_line
}

/// Adds a space and the label at the end of `text`, unless the label is left out.
fn push_label(text: &mut String, label: &str) -> Result<(), AllocError>
    ensures { OnOk result (string_bytes text.new ≡ string_bytes text.old ++ label_part label.now) }
{
    if is_left_out(label) {
        return Ok(());
    }
    text.push_str(" ")?;
    text.push_str(label)?;
    Ok(())
}

/// Returns the line of a marker.
fn marker<'a>(alloc: Global, style: Style, sign: &str, label: &str) -> Result<Text<'a>, AllocError>
    ensures { IfOk result (λ line. line ≡ marker style sign.now label.now) }
{
    let mut text = sign.repeat(alloc, style.len)?;
    push_label(&mut text, label)?;
    text.push_str(line_end(style.is_crlf))?;
    Ok(Text::from(text))
}

/// Returns a copy of the line with its line end, which is added if it has none.
fn ended<'a>(alloc: Global, is_crlf: bool, line: &Text<'a>) -> Result<Text<'a>, AllocError>
    ensures { IfOk result (λ copy. copy ≡ ended is_crlf line.now) }
{
    if has_end(line) {
        let copy = line.clone()?;
        return Ok(copy);
    }
    let mut text = String::from_str(alloc, line.as_str())?;
    text.push_str(line_end(is_crlf))?;
    Ok(Text::from(text))
}

/// Adds a line of a version at the end of `lines`, unless it only stands for a version without lines.
fn push_version_line<'a>(
    alloc: Global,
    lines: &mut Vec<Text<'a>>,
    is_crlf: bool,
    text: &Text<'a>,
) -> Result<(), AllocError>
    ensures { OnOk result (lines.new.items
        ≡ lines.old.items ++ version_lines is_crlf (text.now ∷ [])) }
{
    if text.is_empty() {
        return Ok(());
    }
    lines.push(ended(alloc, is_crlf, text)?)?;
    Ok(())
}

/// Adds the lines of a version of an open conflict at the end of `lines`, each with its line end.
fn push_version<'a>(
    alloc: Global,
    lines: &mut Vec<Text<'a>>,
    is_crlf: bool,
    texts: &[Text<'a>],
) -> Result<(), AllocError>
    ensures { OnOk result (lines.new.items
        ≡ lines.old.items ++ version_lines is_crlf texts.now) }
{
    for text in texts {
        push_version_line(alloc, lines, is_crlf, text)?;
    }
    Ok(())
}

/// Adds the line of a marker at the end of `lines`.
fn push_marker<'a>(
    alloc: Global,
    lines: &mut Vec<Text<'a>>,
    style: Style,
    sign: &str,
    label: &str,
) -> Result<(), AllocError>
    ensures { OnOk result (lines.new.items
        ≡ lines.old.items ++ marker style sign.now label.now ∷ []) }
{
    lines.push(marker(alloc, style, sign, label)?)?;
    Ok(())
}

/// Adds the lines of the version that `section` has at the end of `lines`, each with its line end.
fn push_section_lines<'a>(
    alloc: Global,
    lines: &mut Vec<Text<'a>>,
    is_crlf: bool,
    section: &Section<'a>,
) -> Result<(), AllocError>
    ensures { OnOk result (lines.new.items
        ≡ lines.old.items ++ version_lines is_crlf (texts_of section.now)) }
{
    let mut texts = Vec::new(alloc);
    push_texts(&mut texts, section)?;
    push_version(alloc, lines, is_crlf, texts.as_slice())?;
    Ok(())
}

/// Adds a version of an open conflict behind its marker.
fn push_opened<'a>(
    alloc: Global,
    lines: &mut Vec<Text<'a>>,
    style: Style,
    sign: &str,
    label: &str,
    section: &Section<'a>,
) -> Result<(), AllocError>
    ensures { OnOk result (lines.new.items
        ≡ lines.old.items ++ opened style sign.now label.now (texts_of section.now)) }
{
    push_marker(alloc, lines, style, sign, label)?;
    push_section_lines(alloc, lines, style.is_crlf, section)?;
    Ok(())
}

/// Adds their lines of an open conflict between their marker and the last one.
fn push_closed<'a>(
    alloc: Global,
    lines: &mut Vec<Text<'a>>,
    style: Style,
    label: &str,
    section: &Section<'a>,
) -> Result<(), AllocError>
    ensures { OnOk result (lines.new.items
        ≡ lines.old.items ++ closed style label.now (texts_of section.now)) }
{
    push_opened(alloc, lines, style, "=", "", section)?;
    push_marker(alloc, lines, style, ">", label)?;
    Ok(())
}

/// Adds the lines of a section of an open conflict, and nothing of a settled one.
fn push_role<'a>(
    alloc: Global,
    lines: &mut Vec<Text<'a>>,
    style: Style,
    labels: Labels<'_>,
    role: Role,
    section: &Section<'a>,
) -> Result<(), AllocError>
    ensures { OnOk result (lines.new.items
        ≡ lines.old.items ++ role_lines style labels.entry role (texts_of section.now)) }
{
    match role {
        Role::Settled => Ok(()),
        Role::Ours => push_opened(alloc, lines, style, "<", labels.ours, section),
        Role::Base => push_opened(alloc, lines, style, "|", labels.base, section),
        Role::Theirs => push_closed(alloc, lines, style, labels.theirs, section),
    }
}

/// Returns the section of an open conflict as it is written.
fn open_section<'a>(
    alloc: Global,
    style: Style,
    labels: Labels<'_>,
    role: Role,
    section: &Section<'a>,
) -> Result<Section<'a>, AllocError>
    ensures { IfOk result
        (λ copy. copy ≡ Unchanged (role_lines style labels.entry role (texts_of section.now))) }
{
    let mut lines = Vec::new(alloc);
    push_role(alloc, &mut lines, style, labels, role, section)?;
    Ok(Section::Unchanged {
        lines: Items::from(lines),
    })
}

/// Returns the section as it is written.
fn marked_section<'a>(
    alloc: Global,
    style: Style,
    labels: Labels<'_>,
    role: Role,
    section: &Section<'a>,
) -> Result<Section<'a>, AllocError>
    ensures { IfOk result (λ copy. copy ≡ marked_section style labels.entry role section.now) }
{
    match role {
        Role::Settled => section_with_texts(alloc, section),
        Role::Ours | Role::Base | Role::Theirs => {
            open_section(alloc, style, labels, role, section)
        }
    }
}

/// Adds the section as it is written at the end of `copies`.
fn push_marked_section<'a>(
    alloc: Global,
    copies: &mut Vec<Section<'a>>,
    style: Style,
    labels: Labels<'_>,
    role: Role,
    section: &Section<'a>,
) -> Result<(), AllocError>
    ensures { OnOk result (copies.new.items
        ≡ copies.old.items ++ marked_section style labels.entry role section.now ∷ []) }
{
    copies.push(marked_section(alloc, style, labels, role, section)?)?;
    Ok(())
}

/// Returns the sections as they are written, each by its role.
fn marked_sections<'a>(
    alloc: Global,
    style: Style,
    labels: Labels<'_>,
    roles: &[Role],
    sections: &[Section<'a>],
) -> Result<Vec<Section<'a>>, AllocError>
    requires { length roles.now ≡ length sections.now }
    ensures { IfOk result (λ copies.
        copies.items ≡ marked_sections style labels.entry roles.now sections.now) }
{
    let mut copies = Vec::with_capacity(alloc, sections.len())?;
    for index in 0..sections.len() {
        let section = &sections[index];
        push_marked_section(alloc, &mut copies, style, labels, roles[index], section)?;
    }
    Ok(copies)
}

/// Returns the sections with markers around each open conflict.
#[tactic(auto, using(crate::proofs::MarkerLemmas::roles_fit))]
fn sections_with_markers<'a>(
    alloc: Global,
    labels: Labels<'_>,
    least: usize,
    sections: &[Section<'a>],
) -> Result<Vec<Section<'a>>, AllocError>
    ensures { IfOk result (λ copies.
        copies.items ≡ sections_with_markers least labels.entry sections.now) }
{
    let style = style_of(alloc, sections, least)?;
    let roles = roles_of(alloc, sections)?;
    let copies = marked_sections(alloc, style, labels, roles.as_slice(), sections)?;
    Ok(copies)
}

/// Returns a copy of the file with markers around each open conflict.
fn file_with_markers<'a>(
    alloc: Global,
    file: &File<'a>,
    labels: Labels<'_>,
    least: usize,
) -> Result<File<'a>, AllocError>
    ensures { IfOk result (λ copy. copy ≡ file_with_markers least labels.entry file.now) }
{
    let sections = sections_with_markers(alloc, labels, least, file.sections.as_slice())?;
    let copy = file_with_sections(file, sections)?;
    Ok(copy)
}

/// Returns the bytes of the merge by the marks of `file`, which [`merged_file`](crate::merged_file)
/// made, with markers around each conflict that is open. If none is open, these are the bytes of
/// [`merged_bytes`](crate::merged_bytes).
///
/// An open conflict is written in the style `diff3` of git: `<<<<<<<`, our lines, `|||||||`, the lines
/// of the base, `=======`, their lines and `>>>>>>>`, each marker on a line of its own. A marker has
/// `least` signs (git has 7), or one more than any line of the file begins with, whichever is greater.
/// Its line ends with CR LF if the first line end of the file is CR LF, else with LF. A last line without
/// a line end gets one before a marker.
///
/// # Errors
/// `AllocError`: an allocation failed.
pub fn bytes_with_markers(
    alloc: Global,
    file: &File<'_>,
    labels: Labels<'_>,
    least: usize,
) -> Result<Vec<u8>, AllocError>
    ensures { IfOk result
        (λ bytes. bytes.items ≡ bytes_with_markers least labels.entry file.now) }
{
    let copy = file_with_markers(alloc, file, labels, least)?;
    let bytes = side_bytes(alloc, &copy, true)?;
    Ok(bytes)
}
