//! How much of the files of a state is marked, by the counts of its files.
ghost use Rattle.std.specs.Prelude.{◌≡◌, ◌-◌, ◌≤◌, ◌^◌, count_by, min, nat_lt, sum_by};
ghost use Rattle.scm_types.specs.Limits.{file_size, max_items};
ghost use Rattle.scm_layout.specs.declared.file_counts.FileCounts.{FileCounts};
ghost use Rattle.scm_layout.specs.Counts.{checked_in, file_counts, sections_counts};
ghost use Rattle.scm_layout.specs.Marked.{changed_in_file, checked_in_file, checked_in_section, checked_lines, part_at};
ghost use Rattle.scm_layout.specs.Recounts.{files_counts, share_at};

use crate::file_counts::FileCounts;
use crate::section_counts::{SectionCounts, mark_count};
use scm_types::{File, Section};

/// What one file adds to the totals of a state.
#[derive(Clone, Copy, Debug)]
pub(crate) struct Share {
    /// The number of checked lines.
    pub(crate) lines: usize,
    /// 1 if the file is not wholly unchecked, else 0.
    pub(crate) changed: usize,
}

/// Returns the number of checked lines of `section`, whose counts are `counts`.
fn checked_in_section(section: &Section<'_>, counts: &SectionCounts) -> usize
    requires { counts.now.checked ≡ checked_in section.now }
    ensures { result ≡ checked_in_section section.now }
{
    match section {
        Section::Changed { .. } => counts.checked,
        Section::Unchanged { .. } | Section::FileMode { .. } | Section::Binary { .. } => 0,
    }
}

/// Returns the number of checked lines of `sections`, all sections of a file, whose counts are `counts`;
/// at most `usize::MAX`.
fn checked_in_sections(sections: &[Section<'_>], counts: &[SectionCounts]) -> usize
    requires { counts.now ≡ sections_counts 0 0 sections.now }
    ensures { result ≡ min (sum_by checked_in_section sections.now) (2 ^ 64 - 1) }
{
    let mut total: usize = 0;
    for (index, section) in sections.iter().enumerate() {
        total = total.saturating_add(checked_in_section(section, &counts[index]));
    }
    total
}

/// Returns the number of checked lines of `file`, whose counts are `counts`; at most `usize::MAX`. Where
/// nothing is checked, reads no section.
fn checked_in_file(file: &File<'_>, counts: &FileCounts) -> usize
    requires { counts.now ≡ file_counts file.now }
    ensures { result ≡ min (checked_in_file file.now) (2 ^ 64 - 1) }
{
    if counts.checked == 0 {
        return 0;
    }
    checked_in_sections(file.sections.as_slice(), counts.sections.as_slice())
}

/// Returns the number of checked lines of `files`, whose counts are `counts`; at most `usize::MAX`.
pub(crate) fn checked_in_files(files: &[File<'_>], counts: &[FileCounts]) -> usize
    requires { counts.now ≡ files_counts files.now }
    ensures { result ≡ min (checked_lines files.now) (2 ^ 64 - 1) }
{
    let mut total: usize = 0;
    for (index, file) in files.iter().enumerate() {
        total = total.saturating_add(checked_in_file(file, &counts[index]));
    }
    total
}

/// Returns whether an item of the file with the counts `counts` is checked.
fn has_checked(counts: &FileCounts) -> bool
    ensures { result ≡ nat_lt 0 counts.now.checked }
{
    counts.checked > 0
}

/// Returns how many of the files with the counts `counts` have a checked item.
pub(crate) fn changed_in_files(counts: &[FileCounts]) -> usize
    ensures { result ≡ count_by (λ (c : FileCounts). nat_lt 0 c.checked) counts.now }
{
    counts.iter().filter(|counts| has_checked(counts)).count()
}

/// Returns the number of checked lines of file `index` of `files`, whose counts are `counts`, or 0 if
/// there is no such file; at most `usize::MAX`.
fn lines_at(counts: &[FileCounts], files: &[File<'_>], index: usize) -> usize
    requires { counts.now ≡ files_counts files.now }
    ensures { result ≡ min (part_at checked_in_file files.now index) (2 ^ 64 - 1) }
{
    if index < files.len() {
        checked_in_file(&files[index], &counts[index])
    } else {
        0
    }
}

/// Returns 1 if file `index` of `files`, whose counts are `counts`, has a checked item, else 0.
pub(crate) fn changed_at(counts: &[FileCounts], files: &[File<'_>], index: usize) -> usize
    requires { counts.now ≡ files_counts files.now }
    ensures { result ≡ part_at changed_in_file files.now index }
{
    if index < files.len() {
        mark_count(has_checked(&counts[index]))
    } else {
        0
    }
}

/// Returns what file `index` of `files`, whose counts are `counts`, adds to the totals of the state.
/// Reads no line.
pub(crate) fn share_at(counts: &[FileCounts], files: &[File<'_>], index: usize) -> Share
    requires counted { counts.now ≡ files_counts files.now }
    requires fits { sum_by file_size files.now ≤ max_items }
    ensures { result ≡ share_at files.now index }
{
    let lines = lines_at(counts, files, index);
    let changed = changed_at(counts, files, index);
    Share { lines, changed }
}
