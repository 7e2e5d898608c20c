//! The mark of a file, a section or a line, by indexes that are counted from 0.
ghost use Rattle.std.specs.Prelude.{◌≡◌};
ghost use Rattle.scm_embed.specs.MarkOf.{mark_in_file, mark_in_section, mark_in_state, mark_of_bool, mark_of_line};

use scm_types::{File, RecordState, Section, Tristate};

/// Returns the mark of one item.
fn mark_of_bool(is_checked: bool) -> Tristate
    ensures { result ≡ mark_of_bool is_checked }
{
    if is_checked {
        Tristate::True
    } else {
        Tristate::False
    }
}

/// Returns the mark of line `line` of `section`, if it is a changed line.
fn mark_of_line(section: &Section<'_>, line: usize) -> Option<Tristate>
    ensures { result ≡ mark_of_line line section.now }
{
    match section {
        Section::Changed { lines } => lines
            .as_slice()
            .get(line)
            .map(|changed| mark_of_bool(changed.is_checked)),
        Section::Unchanged { .. } | Section::FileMode { .. } | Section::Binary { .. } => None,
    }
}

/// Returns the mark of `section`, or of line `line` in it.
fn mark_in_section(section: &Section<'_>, line: Option<usize>) -> Option<Tristate>
    ensures { result ≡ mark_in_section line section.now }
{
    match line {
        None => Some(section.tristate()),
        Some(line) => mark_of_line(section, line),
    }
}

/// Returns the mark of `file`, or of section `section` in it, or of line `line` in that section.
fn mark_in_file(file: &File<'_>, section: Option<usize>, line: Option<usize>) -> Option<Tristate>
    ensures { result ≡ mark_in_file section line file.now }
{
    match section {
        None => Some(file.tristate()),
        Some(index) => file
            .sections
            .as_slice()
            .get(index)
            .and_then(|section| mark_in_section(section, line)),
    }
}

/// Returns the mark of file `file` of `state`, or of section `section` in it, or of line `line` in
/// that section. Returns `None` if there is no such item.
pub fn mark_of(
    state: &RecordState<'_>,
    file: usize,
    section: Option<usize>,
    line: Option<usize>,
) -> Option<Tristate>
    ensures { result ≡ mark_in_state file section line state.now }
{
    state
        .files
        .as_slice()
        .get(file)
        .and_then(|file| mark_in_file(file, section, line))
}
