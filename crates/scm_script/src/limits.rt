//! The limits of a state, with hints for states that pass them.

use crate::path_hint::PathHint;
use scm_types::{Commit, File, RecordState, Section, SectionChangedLine, Text};
use std::alloc::Global;

/// The number of commits that a state may have.
const MAX_COMMITS: usize = 2;

/// Checks the limits of `state`: first of commits, then of files, sections and lines together, then of each text.
///
/// # Errors
/// `At`: the first limit that `state` passes, and where.
/// `OutOfMemory`: an allocation failed.
pub fn check_limits(alloc: Global, state: &RecordState<'_>) -> Result<(), PathHint> {
    check_count(alloc, "commits", state.commits.len(), MAX_COMMITS)?;
    check_count(
        alloc,
        "files, sections and lines together",
        state.size(),
        RecordState::MAX_ITEMS,
    )?;
    check_commits(alloc, state.commits.as_slice()).map_err(|hint| hint.in_member(
        alloc, "commits",
    ))?;
    check_files(alloc, state.files.as_slice()).map_err(|hint| hint.in_member(alloc, "files"))
}

/// Checks that `count` is at most `limit`. `name` is what is counted.
fn check_count(alloc: Global, name: &str, count: usize, limit: usize) -> Result<(), PathHint> {
    if count <= limit {
        return Ok(());
    }
    Err(PathHint::new(format!(in alloc; " has {count} {name}, and may have {limit}")))
}

/// Checks the length of a text, in bytes.
fn check_length(alloc: Global, length: usize) -> Result<(), PathHint> {
    let limit = RecordState::MAX_TEXT;
    if length <= limit {
        return Ok(());
    }
    Err(PathHint::new(format!(in alloc; ": {length} bytes, and a text may have {limit}")))
}

/// Checks the length of `text`, which is the member `name`.
fn check_text(alloc: Global, name: &str, text: &str) -> Result<(), PathHint> {
    check_length(alloc, text.len()).map_err(|hint| hint.in_member(alloc, name))
}

/// Checks the length of `text`, which is the member `name`, if there is one.
fn check_option(alloc: Global, name: &str, text: &Option<Text<'_>>) -> Result<(), PathHint> {
    match text {
        Some(text) => check_text(alloc, name, text.as_str()),
        None => Ok(()),
    }
}

/// Checks the message of a commit.
fn check_commit(alloc: Global, commit: &Commit) -> Result<(), PathHint> {
    match &commit.message {
        Some(message) => check_text(alloc, "message", message.as_str()),
        None => Ok(()),
    }
}

/// Checks the messages of all commits.
fn check_commits(alloc: Global, commits: &[Commit]) -> Result<(), PathHint> {
    for (index, commit) in commits.iter().enumerate() {
        check_commit(alloc, commit).map_err(|hint| hint.in_item(alloc, index))?;
    }
    Ok(())
}

/// Checks all context lines of a section.
fn check_lines(alloc: Global, lines: &[Text<'_>]) -> Result<(), PathHint> {
    for (index, line) in lines.iter().enumerate() {
        check_length(alloc, line.len()).map_err(|hint| hint.in_item(alloc, index))?;
    }
    Ok(())
}

/// Checks all changed lines of a section.
fn check_changed_lines(alloc: Global, lines: &[SectionChangedLine<'_>]) -> Result<(), PathHint> {
    for (index, line) in lines.iter().enumerate() {
        check_text(alloc, "line", line.line.as_str()).map_err(|hint| hint.in_item(alloc, index))?;
    }
    Ok(())
}

/// Checks the texts of a section.
fn check_section(alloc: Global, section: &Section<'_>) -> Result<(), PathHint> {
    match section {
        Section::Unchanged { lines } => check_lines(alloc, lines.as_slice()).map_err(|hint| hint
            .in_member(alloc, "lines")
            .in_member(alloc, "Unchanged")),
        Section::Changed { lines } => check_changed_lines(alloc, lines.as_slice()).map_err(
            |hint| hint.in_member(alloc, "lines").in_member(alloc, "Changed"),
        ),
        Section::FileMode { .. } => Ok(()),
        Section::Binary {
            old_description,
            new_description,
            ..
        } => check_option(alloc, "old_description", old_description)
            .and_then(|()| check_option(alloc, "new_description", new_description))
            .map_err(|hint| hint.in_member(alloc, "Binary")),
    }
}

/// Checks the texts of all sections.
fn check_sections(alloc: Global, sections: &[Section<'_>]) -> Result<(), PathHint> {
    for (index, section) in sections.iter().enumerate() {
        check_section(alloc, section).map_err(|hint| hint.in_item(alloc, index))?;
    }
    Ok(())
}

/// Checks the paths and the sections of a file.
fn check_file(alloc: Global, file: &File<'_>) -> Result<(), PathHint> {
    check_option(alloc, "old_path", &file.old_path)?;
    check_text(alloc, "path", file.path.as_str())?;
    check_sections(alloc, file.sections.as_slice()).map_err(|hint| hint.in_member(
        alloc, "sections",
    ))
}

/// Checks the texts of all files.
fn check_files(alloc: Global, files: &[File<'_>]) -> Result<(), PathHint> {
    for (index, file) in files.iter().enumerate() {
        check_file(alloc, file).map_err(|hint| hint.in_item(alloc, index))?;
    }
    Ok(())
}
