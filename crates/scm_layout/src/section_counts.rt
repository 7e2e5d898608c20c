//! The counts of a section, and of the sections of a file.
ghost use Rattle.std.specs.Prelude.{◌≡◌, ◌+◌, ◌≤◌, ◌<◌, ◌^◌, count_by, length, sum_by, IfOk, if◌then◌else◌};
ghost use Rattle.scm_types.specs.Limits.{max_items};
ghost use Rattle.scm_types.specs.Marks.{is_editable_section};
ghost use Rattle.scm_rows.specs.Lines.{is_removed, old_lines};
ghost use Rattle.scm_layout.specs.Counts.{checked_in, editable_after, items_in, section_counts, sections_counts};
ghost use Rattle.scm_layout.specs.Recounts.{checked_after_mark, recounted, remarked, zipped};

use scm_types::{ChangeType, Items, Section, SectionChangedLine};
use std::alloc::{AllocError, Global};

/// What is counted of a section.
#[derive(Clone, Copy, Debug)]
pub struct SectionCounts {
    /// The number of items.
    pub items: usize,
    /// The number of checked items.
    pub checked: usize,
    /// The number of editable sections before this one in the file.
    pub editable_before: usize,
    /// The number of lines of the old file before this section.
    pub lines_before: usize,
}

/// What precedes a section in its file.
#[derive(Clone, Copy)]
struct Before {
    /// The number of editable sections.
    editable: usize,
    /// The number of lines of the old file.
    lines: usize,
}

/// Returns whether `line` is a line of the old file.
fn is_removed(line: &SectionChangedLine<'_>) -> bool
    ensures { result ≡ is_removed line.now }
{
    match line.change_type {
        ChangeType::Added => false,
        ChangeType::Removed => true,
    }
}

/// Returns the number of lines of the old file in `section`.
fn old_lines(section: &Section<'_>) -> usize
    ensures { result ≡ old_lines section.now }
{
    match section {
        Section::Unchanged { lines } => lines.len(),
        Section::Changed { lines } => lines
            .as_slice()
            .iter()
            .filter(|line| is_removed(line))
            .count(),
        Section::FileMode { .. } | Section::Binary { .. } => 0,
    }
}

/// Returns the number of items of `section`.
fn items_in(section: &Section<'_>) -> usize
    ensures { result ≡ items_in section.now }
{
    match section {
        Section::Unchanged { .. } => 0,
        Section::Changed { lines } => lines.len(),
        Section::FileMode { .. } | Section::Binary { .. } => 1,
    }
}

/// Returns how many of `lines` are checked.
fn checked_lines(lines: &[SectionChangedLine<'_>]) -> usize
    ensures { result ≡ count_by (λ line. line.is_checked) lines.now }
{
    lines.iter().filter(|line| line.is_checked).count()
}

/// Returns the number of checked items of a section that is one item: 1 if `is_checked`, else 0.
pub(crate) fn mark_count(is_checked: bool) -> usize
    ensures { result ≡ (if is_checked then 1 else 0) }
{
    if is_checked { 1 } else { 0 }
}

/// Returns the number of checked items of `section`.
fn checked_in(section: &Section<'_>) -> usize
    ensures { result ≡ checked_in section.now }
{
    match section {
        Section::Unchanged { .. } => 0,
        Section::Changed { lines } => checked_lines(lines.as_slice()),
        Section::FileMode { is_checked, .. } | Section::Binary { is_checked, .. } => {
            mark_count(*is_checked)
        }
    }
}

impl Before {
    /// Returns what precedes the section after `section`, if `self` precedes `section`.
    fn with(self, section: &Section<'_>) -> Before
        requires editable { self.editable + 1 < 2 ^ 64 }
        requires lines { self.lines + old_lines section.now < 2 ^ 64 }
        ensures editable { result.editable ≡ editable_after self.editable section.now }
        ensures lines { result.lines ≡ self.lines + old_lines section.now }
    {
        let editable = if section.is_editable() {
            self.editable + 1
        } else {
            self.editable
        };
        Before {
            editable,
            lines: self.lines + old_lines(section),
        }
    }
}

/// Returns the counts of `section`, if `before` precedes it.
fn section_counts(before: Before, section: &Section<'_>) -> SectionCounts
    ensures { result ≡ section_counts before.editable before.lines section.now }
{
    SectionCounts {
        items: items_in(section),
        checked: checked_in(section),
        editable_before: before.editable,
        lines_before: before.lines,
    }
}

/// Returns the counts of `sections`, all sections of a file. Their lines of the old file must be
/// within the limit for a state.
#[tactic(auto, using(scm_types::proofs::LimitLemmas::items_room))]
pub(crate) fn sections_counts(
    alloc: Global,
    sections: &[Section<'_>],
) -> Result<Items<SectionCounts>, AllocError>
    requires { sum_by old_lines sections.now ≤ max_items }
    ensures { IfOk result (λ counts. counts ≡ sections_counts 0 0 sections.now) }
{
    let mut counts = Vec::with_capacity(alloc, sections.len())?;
    let mut before = Before {
        editable: 0,
        lines: 0,
    };
    for section in sections {
        counts.push(section_counts(before, section))?;
        before = before.with(section);
    }
    Ok(Items::from(counts))
}

/// Counts the checked items of each of `sections` anew. `counts` are those of the sections before
/// marks of them changed.
pub(crate) fn recount(counts: &mut [SectionCounts], sections: &[Section<'_>])
    requires { length counts.old ≡ length sections.now }
    ensures { counts.new ≡ zipped recounted counts.old sections.now }
{
    for (index, section) in sections.iter().enumerate() {
        let count = &mut counts[index];
        count.checked = checked_in(section);
    }
}

/// Returns the number of checked items of `section`, if `checked` items were checked before and no
/// mark of a line changed.
fn checked_after_mark(section: &Section<'_>, checked: usize) -> usize
    ensures { result ≡ checked_after_mark checked section.now }
{
    match section {
        Section::Unchanged { .. } | Section::Changed { .. } => checked,
        Section::FileMode { is_checked, .. } | Section::Binary { is_checked, .. } => {
            mark_count(*is_checked)
        }
    }
}

/// Counts the marks of the modes and binaries of `sections` anew. No line is read.
pub(crate) fn remark(counts: &mut [SectionCounts], sections: &[Section<'_>])
    requires { length counts.old ≡ length sections.now }
    ensures { counts.new ≡ zipped remarked counts.old sections.now }
{
    for (index, section) in sections.iter().enumerate() {
        let count = &mut counts[index];
        count.checked = checked_after_mark(section, count.checked);
    }
}
