//! A small commit splitter: the changes between two texts, by their lines.
ghost use Rattle.std.specs.Prelude.{◌≤◌, length};

use crate::input::record_keys;
use scm_record::{
    ChangeType, Event, File, FileMode, Items, RecordError, RecordState, Section,
    SectionChangedLine, Text,
};
use std::alloc::Global;

/// Returns how many lines at the start of `old` and `new` are the same.
fn same_front(old: &[&str], new: &[&str]) -> usize
    ensures old { result ≤ length old.now }
    ensures new { result ≤ length new.now }
{
    old.iter()
        .zip(new)
        .take_while(|(old, new)| old == new)
        .count()
}

/// Returns the lines of `text`, each with its line end.
fn lines_of(alloc: Global, text: &str) -> Result<Vec<&str>, RecordError> {
    Ok(text.split_inclusive('\n').collect(alloc)?)
}

/// Adds `lines` to `changes`, unchecked, each with `change_type`.
fn push_changed<'a>(
    changes: &mut Vec<SectionChangedLine<'a>>,
    change_type: ChangeType,
    lines: &[&'a str],
) -> Result<(), RecordError> {
    for line in lines {
        changes.push(SectionChangedLine {
            is_checked: false,
            change_type,
            line: Text::from(*line),
        })?;
    }
    Ok(())
}

/// Returns a section of context with `lines`.
fn context<'a>(alloc: Global, lines: &[&'a str]) -> Result<Section<'a>, RecordError> {
    let texts = lines.iter().map(|line| Text::from(*line)).collect(alloc)?;
    Ok(Section::Unchanged { lines: texts })
}

/// Returns the section that removes the lines `old` and adds the lines `new`, all unchecked.
fn changed<'a>(
    alloc: Global,
    old: &[&'a str],
    new: &[&'a str],
) -> Result<Section<'a>, RecordError> {
    let mut changes = Vec::new(alloc);
    push_changed(&mut changes, ChangeType::Removed, old)?;
    push_changed(&mut changes, ChangeType::Added, new)?;
    Ok(Section::Changed {
        lines: Items::from(changes),
    })
}

/// Returns the changes from `old` to `new`: their common first lines as context, then the other old
/// lines as removed and the other new lines as added, all unchecked.
pub fn changed_file<'a>(
    alloc: Global,
    path: &'a str,
    old: &'a str,
    new: &'a str,
) -> Result<File<'a>, RecordError> {
    let old_lines = lines_of(alloc, old)?;
    let new_lines = lines_of(alloc, new)?;
    let front = same_front(&old_lines, &new_lines);
    let mut sections = Vec::new(alloc);
    sections.push(context(alloc, &old_lines[..front])?)?;
    sections.push(changed(alloc, &old_lines[front..], &new_lines[front..])?)?;
    Ok(File {
        old_path: None,
        path: Text::from(path),
        file_mode: FileMode::FILE_DEFAULT,
        sections: Items::from(sections),
    })
}

/// Returns the state of one file.
fn state_of<'a>(alloc: Global, file: File<'a>) -> Result<RecordState<'a>, RecordError> {
    let mut state = RecordState::empty(alloc);
    state.files.push(file)?;
    Ok(state)
}

/// Runs `keys` on a state of `file` and returns that state, or `None` if the file is beyond the
/// limits of a state. `File::get_selected_contents` then returns both sides.
pub fn choose_lines<'a>(
    alloc: Global,
    file: File<'a>,
    keys: Vec<Event>,
) -> Result<Option<RecordState<'a>>, RecordError> {
    let state = state_of(alloc, file)?;
    if !state.is_accepted() {
        return Ok(None);
    }
    Ok(Some(record_keys(alloc, state, keys)?))
}
