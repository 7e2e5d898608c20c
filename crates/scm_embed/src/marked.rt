//! The marks of a file, handed in as bytes: 1 for each item that is checked, in order.
ghost use Rattle.std.specs.Prelude.{◌≡◌, ◌==◌, drop, length};
ghost use Rattle.std.specs.List.{flat_map};
ghost use Rattle.scm_types.specs.Edits.{modify};
ghost use Rattle.scm_types.specs.Marks.{file_marks, section_marks};
ghost use Rattle.scm_embed.specs.Marked.{after_marks, first_mark, fits_marks, marked_file, marked_lines, marked_section, marked_sections};

use scm_types::{File, RecordState, Section, SectionChangedLine};

/// Returns whether the first mark is that of a checked item.
fn first_mark(marks: &[u8]) -> bool
    ensures { result ≡ first_mark marks.now }
{
    match marks.first() {
        Some(mark) => *mark == 1,
        None => false,
    }
}

/// Returns the marks after the first `count`.
fn marks_after(marks: &[u8], count: usize) -> &[u8]
    ensures { result.now ≡ drop count marks.now }
{
    if count < marks.len() {
        &marks[count..]
    } else {
        &marks[marks.len()..]
    }
}

/// Sets the marks of `lines` to the first ones of `marks`.
fn mark_lines(lines: &mut [SectionChangedLine<'_>], marks: &[u8])
    ensures { lines.new ≡ marked_lines marks.now lines.old }
{
    let mut rest = marks;
    for line in lines.iter_mut() {
        line.is_checked = first_mark(rest);
        rest = marks_after(rest, 1);
    }
}

/// Sets the marks of `section` to the first ones of `marks`.
fn mark_section(section: &mut Section<'_>, marks: &[u8])
    ensures { section.new ≡ marked_section marks.now section.old }
{
    match section {
        Section::Unchanged { .. } => {}
        Section::Changed { lines } => mark_lines(lines.as_mut_slice(), marks),
        Section::FileMode { is_checked, .. } => {
            *is_checked = first_mark(marks);
        }
        Section::Binary { is_checked, .. } => {
            *is_checked = first_mark(marks);
        }
    }
}

/// Returns the number of items of `section`.
fn item_count(section: &Section<'_>) -> usize
    ensures { result ≡ length (section_marks section.now) }
{
    match section {
        Section::Unchanged { .. } => 0,
        Section::Changed { lines } => lines.len(),
        Section::FileMode { .. } | Section::Binary { .. } => 1,
    }
}

/// Sets the marks of `sections` to `marks`, in order.
fn mark_sections(sections: &mut [Section<'_>], marks: &[u8])
    ensures { sections.new ≡ marked_sections marks.now sections.old }
{
    let mut rest = marks;
    for section in sections.iter_mut() {
        let count = item_count(section);
        mark_section(section, rest);
        rest = marks_after(rest, count);
    }
}

/// Sets the marks of `file` to `marks`, a byte for each of its items in order: 1 of one that is checked. An
/// item without a byte is unchecked.
pub fn mark_file(file: &mut File<'_>, marks: &[u8])
    ensures { file.new ≡ marked_file marks.now file.old }
{
    mark_sections(file.sections.as_mut_slice(), marks);
}

/// Returns whether `sections` have exactly `count` items.
fn have_items(sections: &[Section<'_>], count: usize) -> bool
    ensures { result ≡ (length (flat_map section_marks sections.now) == count) }
{
    let mut left = count;
    for section in sections {
        let items = item_count(section);
        if left < items {
            return false;
        }
        left -= items;
    }
    left == 0
}

/// Returns whether `file` has exactly `count` items: changed lines, mode changes and binary changes.
pub fn has_items(file: &File<'_>, count: usize) -> bool
    ensures { result ≡ (length (file_marks file.now) == count) }
{
    have_items(file.sections.as_slice(), count)
}

/// Returns whether `state` has file `file`, with as many items as there are `marks`.
fn fit_file(state: &RecordState<'_>, file: usize, marks: &[u8]) -> bool
    ensures { result ≡ fits_marks file marks.now state.now }
{
    match state.files.as_slice().get(file) {
        Some(file) => has_items(file, marks.len()),
        None => false,
    }
}

/// Sets the marks of the file at `index` to `marks`, if there is one.
fn mark_file_at(files: &mut [File<'_>], index: usize, marks: &[u8])
    ensures { files.new ≡ modify (marked_file marks.now) files.old index }
{
    if index < files.len() {
        mark_file(&mut files[index], marks);
    }
}

/// Sets the marks of file `file` of `state` to `marks`, if they are as many as its items. Returns
/// whether they are.
pub(crate) fn set_marks(state: &mut RecordState<'_>, file: usize, marks: &[u8]) -> bool
    ensures fits { result ≡ fits_marks file marks.now state.old }
    ensures set { state.new ≡ after_marks file marks.now state.old }
{
    let fits = fit_file(state, file, marks);
    if fits {
        mark_file_at(state.files.as_mut_slice(), file, marks);
    }
    fits
}
