//! Sample states: texts, lines, sections and files, made from tables.
#![tactic(auto)]

mod letters;

pub use letters::{number_of, state_of_letters};
use scm_types::{
    ChangeType, Commit, File, FileMode, Items, OwnedText, RecordError, Section, SectionChangedLine,
    Text,
};
use std::alloc::{AllocError, Global};

/// A changed line: its mark, its change, its text.
pub type Line = (bool, ChangeType, &'static str);

/// A line of the new side only.
pub const ADDED: ChangeType = ChangeType::Added;

/// A line of the old side only.
pub const REMOVED: ChangeType = ChangeType::Removed;

/// The mode of a plain file.
pub const DEFAULT: FileMode = FileMode::FILE_DEFAULT;

/// Returns an owned copy of `text`.
pub fn owned(alloc: Global, text: &str) -> Result<OwnedText, AllocError> {
    Ok(OwnedText::from(String::from_str(alloc, text)?))
}

/// Returns a text of `count` bytes.
pub fn text_of(alloc: Global, count: usize) -> Result<String, AllocError> {
    let mut text = String::new(alloc);
    for _ in 0..count {
        text.push('a')?;
    }
    Ok(text)
}

/// Returns a section of context with the lines `texts`.
pub fn context(alloc: Global, texts: &[&'static str]) -> Result<Section<'static>, RecordError> {
    let mut lines = Items::new(alloc);
    for text in texts {
        lines.push(Text::from(*text))?;
    }
    Ok(Section::Unchanged { lines })
}

/// Returns a section of the lines `changes`.
pub fn changed(alloc: Global, changes: &[Line]) -> Result<Section<'static>, RecordError> {
    let mut lines = Items::new(alloc);
    for (is_checked, change_type, text) in changes {
        lines.push(SectionChangedLine {
            is_checked: *is_checked,
            change_type: *change_type,
            line: Text::from(*text),
        })?;
    }
    Ok(Section::Changed { lines })
}

/// Returns the file `f` of `sections`, whose old mode is `file_mode`.
pub fn file_of(file_mode: FileMode, sections: Vec<Section<'static>>) -> File<'static> {
    File {
        old_path: None,
        path: Text::from("f"),
        file_mode,
        sections: Items::from(sections),
    }
}

/// Returns the file `f` of a section of context with the lines `texts`, and a section of the lines
/// `changes`.
pub fn file_with(
    alloc: Global,
    texts: &[&'static str],
    changes: &[Line],
) -> Result<File<'static>, RecordError> {
    let mut sections: Vec<Section<'static>> = Vec::new(alloc);
    sections.push(context(alloc, texts)?)?;
    sections.push(changed(alloc, changes)?)?;
    Ok(file_of(DEFAULT, sections))
}

/// Returns a commit with `message`, and one without a message.
pub fn commits_of(alloc: Global, message: &str) -> Result<Items<Commit>, RecordError> {
    let mut commits = Items::new(alloc);
    commits.push(Commit {
        message: Some(owned(alloc, message)?),
    })?;
    commits.push(Commit::default())?;
    Ok(commits)
}

/// Returns a binary change, whose old contents have a description.
pub fn binary(is_checked: bool) -> Section<'static> {
    Section::Binary {
        is_checked,
        old_description: Some(Text::from("old")),
        new_description: None,
    }
}

/// Returns the deletion of a file, checked.
pub fn deletion() -> Section<'static> {
    Section::FileMode {
        is_checked: true,
        mode: FileMode::Absent,
    }
}

/// The contents of a sample file.
#[derive(Clone, Copy)]
pub enum Held {
    /// No section.
    Nothing,
    /// A section of context without a line.
    NoContext,
    /// A section of changes without a line.
    NoChanges,
    /// A checked binary change.
    Bytes,
    /// The deletion of the file.
    Deletion,
    /// A line of context, an added line and a binary change, each in its own section.
    Several,
    /// Ten thousand added lines, and a binary change.
    ManyLines,
}

/// All contents of sample files.
pub const HELD: &[Held] = &[
    Held::Nothing,
    Held::NoContext,
    Held::NoChanges,
    Held::Bytes,
    Held::Deletion,
    Held::Several,
    Held::ManyLines,
];

/// Returns a list of `section` alone.
fn one_section(
    alloc: Global,
    section: Section<'static>,
) -> Result<Vec<Section<'static>>, RecordError> {
    let mut sections: Vec<Section<'static>> = Vec::new(alloc);
    sections.push(section)?;
    Ok(sections)
}

/// Returns a section of each kind except a mode change.
fn several_sections(alloc: Global) -> Result<Vec<Section<'static>>, RecordError> {
    let mut sections = one_section(alloc, context(alloc, &["a\n"])?)?;
    sections.push(changed(alloc, &[(false, ADDED, "b\n")])?)?;
    sections.push(binary(false))?;
    Ok(sections)
}

/// Returns a section of ten thousand lines, and a binary one.
fn many_lines(alloc: Global) -> Result<Vec<Section<'static>>, RecordError> {
    let lines = vec![in alloc; (true, ADDED, "b\n"); 10_000]?;
    let mut sections = one_section(alloc, changed(alloc, lines.as_slice())?)?;
    sections.push(binary(true))?;
    Ok(sections)
}

/// Returns the sections that `held` names.
fn sections_of(alloc: Global, held: Held) -> Result<Vec<Section<'static>>, RecordError> {
    match held {
        Held::Nothing => Ok(Vec::new(alloc)),
        Held::NoContext => one_section(alloc, context(alloc, &[])?),
        Held::NoChanges => one_section(alloc, changed(alloc, &[])?),
        Held::Bytes => one_section(alloc, binary(true)),
        Held::Deletion => one_section(alloc, deletion()),
        Held::Several => several_sections(alloc),
        Held::ManyLines => many_lines(alloc),
    }
}

/// Returns the file `f` with the sections that `held` names.
pub fn file_holding(alloc: Global, held: Held) -> Result<File<'static>, RecordError> {
    Ok(file_of(DEFAULT, sections_of(alloc, held)?))
}
