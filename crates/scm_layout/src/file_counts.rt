//! The counts of a file, and how a toggle mends them.
ghost use Rattle.std.specs.Prelude.{◌≡◌, ◌+◌, ◌≤◌, ◌<◌, ◌^◌, count_by, length, sum_by, IfOk, if◌then◌else◌};
ghost use Rattle.scm_types.specs.Edits.{modify};
ghost use Rattle.scm_types.specs.Limits.{file_size, max_items};
ghost use Rattle.scm_types.specs.Marks.{is_editable_section};
ghost use Rattle.scm_layout.specs.Counts.{file_counts, is_mode, modes_in};
ghost use Rattle.scm_layout.specs.Recounts.{AreCountsButLine, AreCountsButMarks, has_modes, may_follow, recounted, remarked, stepped, total_checked, total_items, with_file_line_counted, with_line_counted, with_sections, zipped};

use crate::section_counts::{SectionCounts, recount, remark, sections_counts};
use scm_types::{File, Items, Section};
use std::alloc::{AllocError, Global};

/// What is counted of a file.
#[derive(Debug, Drop)]
pub struct FileCounts {
    /// The number of editable sections.
    pub editable: usize,
    /// The number of sections that change the mode, which never changes in a session.
    pub modes: usize,
    /// The number of items.
    pub items: usize,
    /// The number of checked items.
    pub checked: usize,
    /// The counts of each section.
    pub sections: Items<SectionCounts>,
}

/// Returns how many of `sections` are editable.
fn editable_in(sections: &[Section<'_>]) -> usize
    ensures { result ≡ count_by is_editable_section sections.now }
{
    sections
        .iter()
        .filter(|section| section.is_editable())
        .count()
}

/// Returns whether `section` changes the mode, checked or not.
fn is_mode(section: &Section<'_>) -> bool
    ensures { result ≡ is_mode section.now }
{
    match section {
        Section::FileMode { .. } => true,
        Section::Unchanged { .. } | Section::Changed { .. } | Section::Binary { .. } => false,
    }
}

/// Returns how many of `sections` change the mode.
fn modes_in(sections: &[Section<'_>]) -> usize
    ensures { result ≡ modes_in sections.now }
{
    sections.iter().filter(|section| is_mode(section)).count()
}

/// Returns how many items sections with `counts` have.
fn total_items(counts: &[SectionCounts]) -> usize
    requires { total_items counts.now ≤ max_items }
    ensures { result ≡ total_items counts.now }
{
    let mut total = 0;
    for count in counts {
        total += count.items;
    }
    total
}

/// Returns how many items are checked in sections with `counts`.
fn total_checked(counts: &[SectionCounts]) -> usize
    requires { total_checked counts.now ≤ max_items }
    ensures { result ≡ total_checked counts.now }
{
    let mut total = 0;
    for count in counts {
        total += count.checked;
    }
    total
}

/// Returns `count`, and 1 more if an item is `checked` now, or 1 less if not.
fn stepped(count: usize, checked: bool) -> usize
    requires { count + 1 < 2 ^ 64 }
    ensures { result ≡ stepped checked count }
{
    if checked {
        count + 1
    } else {
        count.saturating_sub(1)
    }
}

/// Counts a line of section `index` as `checked` now, if there is such a section.
fn count_line_at(counts: &mut [SectionCounts], index: usize, checked: bool)
    requires { total_checked counts.old + 1 < 2 ^ 64 }
    ensures { counts.new ≡ modify (with_line_counted checked) counts.old index }
{
    if index < counts.len() {
        let count = &mut counts[index];
        count.checked = stepped(count.checked, checked);
    }
}

impl FileCounts {
    /// Returns the counts of `file`, whose size must be within the limit for a state.
    ///
    /// # Errors
    /// `AllocError`: an allocation failed.
    pub fn new(alloc: Global, file: &File<'_>) -> Result<FileCounts, AllocError>
        requires { file_size file.now ≤ max_items }
        ensures { IfOk result (λ counts. counts ≡ file_counts file.now) }
    {
        let given = file.sections.as_slice();
        let sections = sections_counts(alloc, given)?;
        let counts = sections.as_slice();
        let editable = editable_in(given);
        let modes = modes_in(given);
        let items = total_items(counts);
        let checked = total_checked(counts);
        Ok(FileCounts {
            editable,
            modes,
            items,
            checked,
            sections,
        })
    }

    /// Returns whether the file has a section that changes the mode.
    pub(crate) fn has_modes(&self) -> bool
        ensures { result ≡ has_modes self.now }
    {
        self.modes != 0
    }

    /// Counts the checked items of each section of `file` and of the whole file anew.
    fn recount_all(&mut self, file: &File<'_>)
        requires lengths { length self.old.sections ≡ length file.now.sections }
        requires fits { total_checked (zipped recounted self.old.sections file.now.sections)
            ≤ max_items }
        ensures { self.new
            ≡ with_sections (zipped recounted self.old.sections file.now.sections) self.old }
    {
        recount(self.sections.as_mut_slice(), file.sections.as_slice());
        self.checked = total_checked(self.sections.as_slice());
    }

    /// Counts the marks of the modes and binaries of `file` anew, and its checked items.
    fn remark_all(&mut self, file: &File<'_>)
        requires lengths { length self.old.sections ≡ length file.now.sections }
        requires fits { total_checked (zipped remarked self.old.sections file.now.sections)
            ≤ max_items }
        ensures { self.new
            ≡ with_sections (zipped remarked self.old.sections file.now.sections) self.old }
    {
        remark(self.sections.as_mut_slice(), file.sections.as_slice());
        self.checked = total_checked(self.sections.as_slice());
    }

    /// Counts a line of section `section` as `checked` now.
    fn count_this_line(&mut self, section: usize, checked: bool)
        requires file { self.old.checked + 1 < 2 ^ 64 }
        requires sections { total_checked self.old.sections + 1 < 2 ^ 64 }
        ensures { self.new ≡ with_file_line_counted checked section self.old }
    {
        self.checked = stepped(self.checked, checked);
        count_line_at(self.sections.as_mut_slice(), section, checked);
    }

    /// Counts what follows in `file` after a line of it was set to `checked`. Reads no section if no
    /// mark may follow, as in a file without a section that changes the mode.
    fn follow_line(&mut self, file: &File<'_>, checked: bool)
        requires lengths { length self.old.sections ≡ length file.now.sections }
        requires fits { total_checked (zipped remarked self.old.sections file.now.sections)
            ≤ max_items }
        ensures { self.new ≡ (if may_follow self.old file.now checked
            then with_sections (zipped remarked self.old.sections file.now.sections) self.old
            else self.old) }
    {
        // `&`, `|`: one branch for the prover
        let may_follow = self.has_modes() & (!checked | file.file_mode.is_absent());
        if may_follow {
            self.remark_all(file);
        }
    }

    /// Counts the checked items of `file` anew, if no more than its marks changed since `self` was
    /// counted.
    pub(crate) fn recount(&mut self, file: &File<'_>)
        requires { AreCountsButMarks self.old file.now }
        ensures { self.new ≡ file_counts file.now }
    {
        self.recount_all(file);
    }

    /// Counts a line of section `section` of `file` that was just set to `checked`, and the marks
    /// that followed. Reads no other line.
    pub(crate) fn count_line(&mut self, file: &File<'_>, section: usize, checked: bool)
        requires { AreCountsButLine self.old file.now section checked }
        ensures { self.new ≡ file_counts file.now }
    {
        self.count_this_line(section, checked);
        self.follow_line(file, checked);
    }
}
