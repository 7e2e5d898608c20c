//! Copies of files that borrow nothing.
ghost use Rattle.std.specs.Prelude.{◌≡◌, IfOk};

use scm_types::{File, Items, Section, SectionChangedLine, Text};
use std::alloc::{AllocError, Global};

/// Returns a copy of `text` that owns its bytes.
fn own_text(alloc: Global, text: &Text<'_>) -> Result<Text<'static>, AllocError>
    ensures { IfOk result (λ copy. copy ≡ text.now) }
{
    let copy = String::from_str(alloc, text.as_str())?;
    Ok(Text::from(copy))
}

/// Returns a copy of the text, if there is one, that owns its bytes.
fn own_option(alloc: Global, text: &Option<Text<'_>>) -> Result<Option<Text<'static>>, AllocError>
    ensures { IfOk result (λ copy. copy ≡ text.now) }
{
    match text {
        Some(text) => {
            let copy = own_text(alloc, text)?;
            Ok(Some(copy))
        }
        None => Ok(None),
    }
}

/// Returns copies of `texts` that own their bytes.
fn own_texts(alloc: Global, texts: &[Text<'_>]) -> Result<Vec<Text<'static>>, AllocError>
    ensures { IfOk result (λ copies. copies.items ≡ texts.now) }
{
    let mut copies = Vec::with_capacity(alloc, texts.len())?;
    for text in texts {
        copies.push(own_text(alloc, text)?)?;
    }
    Ok(copies)
}

/// Returns a copy of `line` that owns its bytes.
fn own_line(
    alloc: Global,
    line: &SectionChangedLine<'_>,
) -> Result<SectionChangedLine<'static>, AllocError>
    ensures { IfOk result (λ copy. copy ≡ line.now) }
{
    let copy = own_text(alloc, &line.line)?;
    Ok(SectionChangedLine {
        is_checked: line.is_checked,
        change_type: line.change_type,
        line: copy,
    })
}

/// Returns copies of `lines` that own their bytes.
fn own_lines(
    alloc: Global,
    lines: &[SectionChangedLine<'_>],
) -> Result<Vec<SectionChangedLine<'static>>, AllocError>
    ensures { IfOk result (λ copies. copies.items ≡ lines.now) }
{
    let mut copies = Vec::with_capacity(alloc, lines.len())?;
    for line in lines {
        copies.push(own_line(alloc, line)?)?;
    }
    Ok(copies)
}

/// Returns a copy of `section` that owns its texts.
fn own_section(alloc: Global, section: &Section<'_>) -> Result<Section<'static>, AllocError>
    ensures { IfOk result (λ copy. copy ≡ section.now) }
{
    match section {
        Section::Unchanged { lines } => {
            let copies = own_texts(alloc, lines.as_slice())?;
            Ok(Section::Unchanged {
                lines: Items::from(copies),
            })
        }
        Section::Changed { lines } => {
            let copies = own_lines(alloc, lines.as_slice())?;
            Ok(Section::Changed {
                lines: Items::from(copies),
            })
        }
        Section::FileMode { is_checked, mode } => Ok(Section::FileMode {
            is_checked: *is_checked,
            mode: *mode,
        }),
        Section::Binary {
            is_checked,
            old_description,
            new_description,
        } => {
            let old_copy = own_option(alloc, old_description)?;
            let new_copy = own_option(alloc, new_description)?;
            Ok(Section::Binary {
                is_checked: *is_checked,
                old_description: old_copy,
                new_description: new_copy,
            })
        }
    }
}

/// Returns copies of `sections` that own their texts.
fn own_sections(
    alloc: Global,
    sections: &[Section<'_>],
) -> Result<Vec<Section<'static>>, AllocError>
    ensures { IfOk result (λ copies. copies.items ≡ sections.now) }
{
    let mut copies = Vec::with_capacity(alloc, sections.len())?;
    for section in sections {
        copies.push(own_section(alloc, section)?)?;
    }
    Ok(copies)
}

/// Returns a copy of `file` that owns its texts, for a program that does not keep the texts which
/// the lines of `file` are borrowed from.
///
/// # Errors
/// `AllocError`: an allocation failed.
pub fn owned_file(alloc: Global, file: &File<'_>) -> Result<File<'static>, AllocError>
    ensures { IfOk result (λ copy. copy ≡ file.now) }
{
    let old_path = own_option(alloc, &file.old_path)?;
    let path = own_text(alloc, &file.path)?;
    let sections = own_sections(alloc, file.sections.as_slice())?;
    Ok(File {
        old_path,
        path,
        file_mode: file.file_mode,
        sections: Items::from(sections),
    })
}
