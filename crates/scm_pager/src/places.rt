//! Where a line of a file stands on a side.
ghost use Rattle.std.specs.Prelude.{◌≡◌, slice_get, take};
ghost use Rattle.scm_pager.specs.Places.{line_at, lines_to, lines_to_in};

use crate::counts::{changes_in, counted};
use scm_types::{File, Section, SectionChangedLine};

/// Returns the first `count` of `sections`, or all of them if there are fewer.
fn first_sections<'a, 's>(sections: &'a [Section<'s>], count: usize) -> &'a [Section<'s>]
    ensures { result.now ≡ take count sections.now }
{
    &sections[..count.min(sections.len())]
}

/// Returns the first `count` of `lines`, or all of them if there are fewer.
fn first_lines<'a, 's>(
    lines: &'a [SectionChangedLine<'s>],
    count: usize,
) -> &'a [SectionChangedLine<'s>]
    ensures { result.now ≡ take count lines.now }
{
    &lines[..count.min(lines.len())]
}

/// Returns how many of the first `end` lines of `section` the selected side, or the other one, has.
fn lines_to(section: &Section<'_>, end: usize, selected: bool) -> usize
    ensures { result ≡ lines_to selected end section.now }
{
    match section {
        Section::Unchanged { lines } => lines.len().min(end),
        Section::Changed { lines } => changes_in(first_lines(lines.as_slice(), end), selected),
        Section::FileMode { .. } | Section::Binary { .. } => 0,
    }
}

/// Returns how many of the first `end` lines of section `index` the selected side, or the other one, has, or 0 if there
/// is no such section.
fn lines_to_in(sections: &[Section<'_>], index: usize, end: usize, selected: bool) -> usize
    ensures { result ≡ lines_to_in selected end (slice_get sections.now index) }
{
    match sections.get(index) {
        Some(section) => lines_to(section, end, selected),
        None => 0,
    }
}

/// Returns how many lines the selected side of `file`, or the other one, has before line `line` of section `index`, or
/// the greatest number. If there is no such section, it counts all lines.
pub(crate) fn line_at(file: &File<'_>, selected: bool, index: usize, line: usize) -> usize
    ensures { result ≡ line_at selected file.now index line }
{
    let sections = file.sections.as_slice();
    let above = counted(first_sections(sections, index), selected);
    above.saturating_add(lines_to_in(sections, index, line, selected))
}
