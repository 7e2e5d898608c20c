//! Additions to a state, to its last file, and to that file's last section. A failed addition
//! leaves all as it was.
ghost use Rattle.std.specs.Prelude.{◌≡◌, ◌-◌, ◌∷◌, [], ◌++◌, IfOk, OnErr, OnOk, length};
ghost use Rattle.scm_types.specs.Edits.{modify};
ghost use Rattle.scm_embed.specs.Lines.{lines_of};
ghost use Rattle.scm_embed.specs.Additions.{after_addition, after_changes, after_context, after_part, changed_lines, commit_of, ends_in, file_after_part, file_of, is_changed, is_context, section_without_lines, with_changes, with_context, with_more_changes, with_more_context};

use crate::add_line::{add_changed_line, add_context_line};
use crate::addition::{Addition, Part};
use crate::lines::{append_changes, append_context, copy_of};
use crate::lists::push_item;
use scm_types::{
    ChangeType, Commit, File, FileMode, Items, OwnedText, RecordState, Section, SectionChangedLine,
    Text,
};
use std::alloc::{AllocError, Global};

/// Adds the lines of `text` to `section`, if it has context lines.
fn extend_context(
    alloc: Global,
    section: &mut Section<'static>,
    text: &str,
) -> Result<(), AllocError>
    ensures ok { OnOk result (section.new ≡ with_more_context (lines_of text.now) section.old) }
    ensures unchanged { OnErr result (section.new ≡ section.old) }
{
    match section {
        Section::Unchanged { lines } => append_context(alloc, lines, text),
        Section::Changed { .. } | Section::FileMode { .. } | Section::Binary { .. } => Ok(()),
    }
}

/// Adds the lines of `text` to `section`, if it has changed lines.
fn extend_changes(
    alloc: Global,
    section: &mut Section<'static>,
    is_checked: bool,
    change_type: ChangeType,
    text: &str,
) -> Result<(), AllocError>
    ensures ok { OnOk result (section.new
        ≡ with_more_changes (changed_lines is_checked change_type text.now) section.old) }
    ensures unchanged { OnErr result (section.new ≡ section.old) }
{
    match section {
        Section::Changed { lines } => append_changes(alloc, lines, is_checked, change_type, text),
        Section::Unchanged { .. } | Section::FileMode { .. } | Section::Binary { .. } => Ok(()),
    }
}

/// Adds the lines of `text` to the last of `sections`, if it has context lines.
fn extend_last_context(
    alloc: Global,
    sections: &mut [Section<'static>],
    text: &str,
) -> Result<(), AllocError>
    ensures ok { OnOk result (sections.new
        ≡ modify (with_more_context (lines_of text.now)) sections.old (length sections.old - 1)) }
    ensures unchanged { OnErr result (sections.new ≡ sections.old) }
{
    let last = sections.len().saturating_sub(1);
    if last < sections.len() {
        extend_context(alloc, &mut sections[last], text)
    } else {
        Ok(())
    }
}

/// Adds the lines of `text` to the last of `sections`, if it has changed lines.
fn extend_last_changes(
    alloc: Global,
    sections: &mut [Section<'static>],
    is_checked: bool,
    change_type: ChangeType,
    text: &str,
) -> Result<(), AllocError>
    ensures ok { OnOk result (sections.new
        ≡ modify (with_more_changes (changed_lines is_checked change_type text.now)) sections.old
        (length sections.old - 1)) }
    ensures unchanged { OnErr result (sections.new ≡ sections.old) }
{
    let last = sections.len().saturating_sub(1);
    if last < sections.len() {
        extend_changes(alloc, &mut sections[last], is_checked, change_type, text)
    } else {
        Ok(())
    }
}

/// Returns whether the last of `sections` has context lines.
pub(crate) fn ends_in_context(sections: &[Section<'static>]) -> bool
    ensures { result ≡ ends_in is_context sections.now }
{
    match sections.last() {
        Some(Section::Unchanged { .. }) => true,
        Some(Section::Changed { .. } | Section::FileMode { .. } | Section::Binary { .. }) => false,
        None => false,
    }
}

/// Returns whether the last of `sections` has changed lines.
pub(crate) fn ends_in_changes(sections: &[Section<'static>]) -> bool
    ensures { result ≡ ends_in is_changed sections.now }
{
    match sections.last() {
        Some(Section::Changed { .. }) => true,
        Some(Section::Unchanged { .. } | Section::FileMode { .. } | Section::Binary { .. }) => {
            false
        }
        None => false,
    }
}

/// Adds the lines of `text` at the end of `sections`, as context lines.
fn add_context_lines(
    alloc: Global,
    sections: &mut Items<Section<'static>>,
    text: &str,
) -> Result<(), AllocError>
    ensures ok { OnOk result (sections.new ≡ with_context (lines_of text.now) sections.old) }
    ensures unchanged { OnErr result (sections.new ≡ sections.old) }
{
    if ends_in_context(sections.as_slice()) {
        extend_last_context(alloc, sections.as_mut_slice(), text)
    } else {
        let mut lines: Items<Text<'static>> = Items::new(alloc);
        append_context(alloc, &mut lines, text)?;
        push_item(alloc, sections, Section::Unchanged { lines })
    }
}

/// Adds the lines of `text` at the end of `sections`, as changed lines.
fn add_changed_lines(
    alloc: Global,
    sections: &mut Items<Section<'static>>,
    is_checked: bool,
    change_type: ChangeType,
    text: &str,
) -> Result<(), AllocError>
    ensures ok { OnOk result (sections.new
        ≡ with_changes (changed_lines is_checked change_type text.now) sections.old) }
    ensures unchanged { OnErr result (sections.new ≡ sections.old) }
{
    if ends_in_changes(sections.as_slice()) {
        extend_last_changes(
            alloc,
            sections.as_mut_slice(),
            is_checked,
            change_type,
            text,
        )
    } else {
        let mut lines: Items<SectionChangedLine<'static>> = Items::new(alloc);
        append_changes(alloc, &mut lines, is_checked, change_type, text)?;
        push_item(alloc, sections, Section::Changed { lines })
    }
}

/// Adds the context lines of `text` at the end of `sections`. Without a line this is a no-op.
fn add_context(
    alloc: Global,
    sections: &mut Items<Section<'static>>,
    text: &str,
) -> Result<(), AllocError>
    ensures ok { OnOk result (sections.new ≡ after_context text.now sections.old) }
    ensures unchanged { OnErr result (sections.new ≡ sections.old) }
{
    if text.is_empty() {
        return Ok(());
    }
    add_context_lines(alloc, sections, text)
}

/// Adds the changed lines of `text` at the end of `sections`. Without a line this is a no-op.
fn add_changes(
    alloc: Global,
    sections: &mut Items<Section<'static>>,
    is_checked: bool,
    change_type: ChangeType,
    text: &str,
) -> Result<(), AllocError>
    ensures ok { OnOk result
        (sections.new ≡ after_changes is_checked change_type text.now sections.old) }
    ensures unchanged { OnErr result (sections.new ≡ sections.old) }
{
    if text.is_empty() {
        return Ok(());
    }
    add_changed_lines(alloc, sections, is_checked, change_type, text)
}

/// Returns a section without lines.
fn section_without_lines(alloc: Global, is_changed: bool) -> Section<'static>
    ensures { result ≡ section_without_lines is_changed }
{
    if is_changed {
        Section::Changed {
            lines: Items::new(alloc),
        }
    } else {
        Section::Unchanged {
            lines: Items::new(alloc),
        }
    }
}

/// Returns a copy of `text`, if there is one.
fn copy_if(alloc: Global, text: Option<Text<'_>>) -> Result<Option<Text<'static>>, AllocError>
    ensures { IfOk result (λ copy. copy ≡ text.entry) }
{
    match text {
        Some(text) => {
            let copy = copy_of(alloc, text.as_str())?;
            Ok(Some(copy))
        }
        None => Ok(None),
    }
}

/// Returns the commit with a copy of `message`.
fn commit_of(alloc: Global, message: Option<Text<'_>>) -> Result<Commit, AllocError>
    ensures { IfOk result (λ commit. commit ≡ commit_of message.entry) }
{
    match message {
        Some(text) => {
            let copy = String::from_str(alloc, text.as_str())?;
            Ok(Commit {
                message: Some(OwnedText::from(copy)),
            })
        }
        None => Ok(Commit { message: None }),
    }
}

/// Returns the file without sections that has copies of the paths.
fn file_of(
    alloc: Global,
    old_path: Option<Text<'_>>,
    path: Text<'_>,
    file_mode: FileMode,
) -> Result<File<'static>, AllocError>
    ensures { IfOk result (λ file. file ≡ file_of old_path.entry path.entry file_mode) }
{
    let path = copy_of(alloc, path.as_str())?;
    let old_path = copy_if(alloc, old_path)?;
    Ok(File {
        old_path,
        path,
        file_mode,
        sections: Items::new(alloc),
    })
}

/// Adds `part` at the end of the sections of a file.
fn add_part(
    alloc: Global,
    sections: &mut Items<Section<'static>>,
    part: Part<'_>,
) -> Result<(), AllocError>
    ensures ok { OnOk result (sections.new ≡ after_part part.entry sections.old) }
    ensures unchanged { OnErr result (sections.new ≡ sections.old) }
{
    match part {
        Part::Context { text } => add_context(alloc, sections, text.as_str()),
        Part::Changes {
            is_checked,
            change_type,
            text,
        } => add_changes(alloc, sections, is_checked, change_type, text.as_str()),
        Part::ContextLine { line } => add_context_line(alloc, sections, line.as_str()),
        Part::ChangedLine {
            is_checked,
            change_type,
            line,
        } => add_changed_line(alloc, sections, is_checked, change_type, line.as_str()),
        Part::Lines { is_changed } => {
            push_item(alloc, sections, section_without_lines(alloc, is_changed))
        }
        Part::Mode { is_checked, mode } => {
            push_item(alloc, sections, Section::FileMode { is_checked, mode })
        }
        Part::Binary {
            is_checked,
            old_description,
            new_description,
        } => {
            let old_description = copy_if(alloc, old_description)?;
            let new_description = copy_if(alloc, new_description)?;
            let section = Section::Binary {
                is_checked,
                old_description,
                new_description,
            };
            push_item(alloc, sections, section)
        }
    }
}

/// Adds `part` to the last of `files`. Without files it is a no-op.
fn add_to_last(alloc: Global, files: &mut [File<'static>], part: Part<'_>) -> Result<(), AllocError>
    ensures ok { OnOk result (files.new
        ≡ modify (file_after_part part.entry) files.old (length files.old - 1)) }
    ensures unchanged { OnErr result (files.new ≡ files.old) }
{
    let last = files.len().saturating_sub(1);
    if last < files.len() {
        add_part(alloc, &mut files[last].sections, part)
    } else {
        Ok(())
    }
}

/// Adds `addition` to `state`, whatever the limits are. A part of a file that is not there is a
/// no-op.
pub(crate) fn add_to(
    alloc: Global,
    state: &mut RecordState<'static>,
    addition: Addition<'_>,
) -> Result<(), AllocError>
    ensures ok { OnOk result (state.new ≡ after_addition addition.entry state.old) }
    ensures unchanged { OnErr result (state.new ≡ state.old) }
{
    match addition {
        Addition::Commit { message } => {
            let commit = commit_of(alloc, message)?;
            state.commits.push(commit)?;
            Ok(())
        }
        Addition::File {
            old_path,
            path,
            file_mode,
        } => {
            let file = file_of(alloc, old_path, path, file_mode)?;
            push_item(alloc, &mut state.files, file)
        }
        Addition::Part { part } => add_to_last(alloc, state.files.as_mut_slice(), part),
    }
}
