//! Tests that a state is within its limits.
ghost use Rattle.std.specs.Prelude.{◌≡◌, ◌+◌, ◌-◌, ◌^◌, length, min, sum_by};
ghost use Rattle.std.specs.List.{list_all};
ghost use Rattle.scm_types.specs.Limits.{file_size, has_short_texts, has_short_texts_in_file, is_short_option, is_short_text, section_size};

use crate::file::File;
use crate::line::SectionChangedLine;
use crate::section::Section;
use crate::state::{Commit, RecordState};
use crate::text::{OwnedText, Text};

/// Returns whether `text` is within the limit, or `None`.
fn is_short_option(text: &Option<Text<'_>>) -> bool
    ensures { result ≡ is_short_option text.now }
{
    match text {
        Some(text) => text.len() <= RecordState::MAX_TEXT,
        None => true,
    }
}

/// Returns whether the message `text` is within the limit, or `None`.
fn is_short_message(text: &Option<OwnedText>) -> bool
    ensures { result ≡ is_short_option text.now }
{
    match text {
        Some(text) => text.len() <= RecordState::MAX_TEXT,
        None => true,
    }
}

/// Returns whether each message is within the limit.
pub(crate) fn has_short_messages(commits: &[Commit]) -> bool
    ensures { result ≡ list_all (λ c. is_short_option c.message) commits.now }
{
    commits
        .iter()
        .all(|commit| is_short_message(&commit.message))
}

/// Returns whether each context line is within the limit.
fn has_short_lines(lines: &[Text<'_>]) -> bool
    ensures { result ≡ list_all is_short_text lines.now }
{
    lines.iter().all(|line| line.len() <= RecordState::MAX_TEXT)
}

/// Returns whether each changed line is within the limit.
fn has_short_changed_lines(lines: &[SectionChangedLine<'_>]) -> bool
    ensures { result ≡ list_all (λ l. is_short_text l.line) lines.now }
{
    lines
        .iter()
        .all(|line| line.line.len() <= RecordState::MAX_TEXT)
}

/// Returns whether each text of the section is within the limit.
fn has_short_texts(section: &Section<'_>) -> bool
    ensures { result ≡ has_short_texts section.now }
{
    match section {
        Section::Unchanged { lines } => has_short_lines(lines.as_slice()),
        Section::Changed { lines } => has_short_changed_lines(lines.as_slice()),
        Section::FileMode { .. } => true,
        Section::Binary {
            old_description,
            new_description,
            ..
        } => {
            // `&`: one branch for the prover
            is_short_option(old_description) & is_short_option(new_description)
        }
    }
}

/// Returns whether each text of the sections is within the limit.
fn has_short_texts_in_sections(sections: &[Section<'_>]) -> bool
    ensures { result ≡ list_all has_short_texts sections.now }
{
    sections.iter().all(|section| has_short_texts(section))
}

/// Returns whether each text of the file is within the limit.
fn has_short_texts_in_file(file: &File<'_>) -> bool
    ensures { result ≡ has_short_texts_in_file file.now }
{
    is_short_option(&file.old_path)
        && file.path.len() <= RecordState::MAX_TEXT
        && has_short_texts_in_sections(file.sections.as_slice())
}

/// Returns whether each text of the files is within the limit.
pub(crate) fn has_short_texts_in_files(files: &[File<'_>]) -> bool
    ensures { result ≡ list_all has_short_texts_in_file files.now }
{
    files.iter().all(|file| has_short_texts_in_file(file))
}

/// Returns the number of the section's lines.
fn section_size(section: &Section<'_>) -> usize
    ensures { result ≡ section_size section.now }
{
    match section {
        Section::Unchanged { lines } => lines.len(),
        Section::Changed { lines } => lines.len(),
        Section::FileMode { .. } | Section::Binary { .. } => 0,
    }
}

/// Returns the number of the file's sections and lines, at most `usize::MAX`.
fn file_size(file: &File<'_>) -> usize
    ensures { result ≡ min (file_size file.now) (2 ^ 64 - 1) }
{
    let mut size = file.sections.len();
    for section in file.sections.as_slice() {
        size = size.saturating_add(section_size(section));
    }
    size
}

/// Returns the number of files, sections and lines together, at most `usize::MAX`.
pub(crate) fn files_size(files: &[File<'_>]) -> usize
    ensures { result ≡ min (length files.now + sum_by file_size files.now) (2 ^ 64 - 1) }
{
    let mut size = files.len();
    for file in files {
        size = size.saturating_add(file_size(file));
    }
    size
}
