//! How many lines a side of a file has.
ghost use Rattle.std.specs.Prelude.{◌≡◌, filter, length};
ghost use Rattle.scm_types.specs.Split.{takes};
ghost use Rattle.scm_pager.specs.Counts.{count_after, counted};
ghost use Rattle.scm_pager.specs.Sides.{lines_of, shown_lines};
ghost use Rattle.scm_pager.specs.Windows.{capped_length};

use crate::lines::{is_replaced, takes};
use scm_types::{File, Section, SectionChangedLine};

/// Returns how many of `lines` the selected side, or the other one, has.
pub(crate) fn changes_in(lines: &[SectionChangedLine<'_>], selected: bool) -> usize
    ensures { result ≡ length (filter (takes selected) lines.now) }
{
    lines.iter().filter(|line| takes(line, selected)).count()
}

/// Returns how many lines of `section` the selected side, or the other one, has.
fn lines_in(section: &Section<'_>, selected: bool) -> usize
    ensures { result ≡ length (lines_of selected section.now) }
{
    match section {
        Section::Unchanged { lines } => lines.len(),
        Section::Changed { lines } => changes_in(lines.as_slice(), selected),
        Section::FileMode { .. } | Section::Binary { .. } => 0,
    }
}

/// Returns the number of lines behind `section`, if there are `count` before it: binary contents drop what was
/// before them.
fn count_after(count: usize, section: &Section<'_>, selected: bool) -> usize
    ensures { result ≡ count_after selected count section.now }
{
    match section {
        Section::Binary { .. } => 0,
        Section::Unchanged { .. } | Section::Changed { .. } | Section::FileMode { .. } => {
            count.saturating_add(lines_in(section, selected))
        }
    }
}

/// Returns the number of lines of `sections`.
pub(crate) fn counted(sections: &[Section<'_>], selected: bool) -> usize
    ensures { result ≡ counted selected 0 sections.now }
{
    let mut count = 0;
    for section in sections {
        count = count_after(count, section, selected);
    }
    count
}

/// Returns how many lines the selected side of `file`, or the other one, has, or the greatest number.
pub(crate) fn line_count(file: &File<'_>, selected: bool) -> usize
    ensures { result ≡ capped_length (shown_lines selected file.now) }
{
    if is_replaced(file, selected) {
        0
    } else {
        counted(file.sections.as_slice(), selected)
    }
}
