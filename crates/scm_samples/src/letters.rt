//! States written in letters, for tables of tests.
use crate::{ADDED, DEFAULT, REMOVED, binary, changed, commits_of, context, file_of};
use scm_types::{
    Commit, File, FileMode, Items, RecordError, RecordState, Section, SectionChangedLine, Text,
};
use std::alloc::Global;

/// The texts of lines.
const DIGITS: &[&str] = &[
    "0\n", "1\n", "2\n", "3\n", "4\n", "5\n", "6\n", "7\n", "8\n", "9\n",
];

/// Returns a section of `count` unchecked added lines.
fn additions(alloc: Global, count: usize) -> Result<Section<'static>, RecordError> {
    let mut lines = Items::new(alloc);
    for index in 0..count {
        lines.push(SectionChangedLine {
            is_checked: false,
            change_type: ADDED,
            line: Text::from(DIGITS[index % 10]),
        })?;
    }
    Ok(Section::Changed { lines })
}

/// Returns the section of `letter`: changed lines, a number of lines of context, a mode or a binary
/// change.
fn section_of(alloc: Global, letter: char) -> Result<Section<'static>, RecordError> {
    match letter {
        'x' => changed(alloc, &[(false, ADDED, "x\n")]),
        'y' => changed(alloc, &[(false, REMOVED, "y\n")]),
        'k' => changed(alloc, &[(true, ADDED, "c\n")]),
        'h' => changed(alloc, &[(false, REMOVED, "b\n"), (true, ADDED, "c\n")]),
        't' => additions(alloc, 10),
        'L' => additions(alloc, 10_000),
        '1' => context(alloc, &["a\n"]),
        '3' => context(alloc, &["a\n", "b\n", "c\n"]),
        '7' => context(alloc, &["a\n", "b\n", "c\n", "d\n", "e\n", "f\n", "g\n"]),
        'm' => Ok(Section::FileMode {
            is_checked: false,
            mode: FileMode::Absent,
        }),
        'b' => Ok(binary(false)),
        _ => context(alloc, &[]),
    }
}

/// Returns the file of the sections `letters`. A dot adds no section.
fn file(alloc: Global, letters: &str) -> Result<File<'static>, RecordError> {
    let mut sections = Vec::new(alloc);
    for letter in letters.chars() {
        if letter != '.' {
            sections.push(section_of(alloc, letter)?)?;
        }
    }
    Ok(file_of(DEFAULT, sections))
}

/// Returns the files of `words`, which commas separate. A dash is no file.
fn files(alloc: Global, words: &str) -> Result<Items<File<'static>>, RecordError> {
    let mut files = Items::new(alloc);
    for word in words.split(',') {
        if word != "-" {
            files.push(file(alloc, word)?)?;
        }
    }
    Ok(files)
}

/// Returns the commits of `word`. If it begins with `!`, the first one has a message.
fn commits(alloc: Global, word: &str) -> Result<Items<Commit>, RecordError> {
    if word.starts_with('!') {
        commits_of(alloc, "hello")
    } else {
        Ok(Items::new(alloc))
    }
}

/// Returns the state of the files in `word`: a letter for each section, and a comma between two
/// files. If `word` begins with `!`, the first commit has a message.
pub fn state_of_letters(alloc: Global, word: &str) -> Result<RecordState<'static>, RecordError> {
    let files = files(alloc, word.trim_start_matches('!'))?;
    Ok(RecordState {
        is_read_only: false,
        commits: commits(alloc, word)?,
        files,
    })
}

/// Returns the number that `word` is, or 0.
pub fn number_of(word: Option<&str>) -> usize {
    word.unwrap_or("").parse().unwrap_or(0)
}
