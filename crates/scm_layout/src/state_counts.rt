//! The counts of a state, which each toggle keeps.
ghost use Rattle.std.specs.Prelude.{◌≡◌, ◌+◌, ◌-◌, ◌≤◌, ◌<◌, ◌^◌, sum_by, IfOk};
ghost use Rattle.scm_types.specs.declared.keys.SelectionKey.TheVariants as keys;
ghost use Rattle.scm_types.specs.Limits.{file_size, max_items};
ghost use Rattle.scm_selection.specs.Toggle.{line_mark, with_all_inverted, with_all_set, with_key_toggled};
ghost use Rattle.scm_layout.specs.Counts.{counts_of};
ghost use Rattle.scm_layout.specs.Recounts.{AreCountsButAllMarks, AreCountsButFile, AreCountsButLineAt, AreStateCountsButFile, AreStateCountsButLine, exchanged, files_counts, has_modes_at, line_mark_at, line_mark_in};

use crate::file_counts::FileCounts;
use crate::marked::{Share, changed_at, changed_in_files, checked_in_files, share_at};
use crate::section_counts::mark_count;
use scm_selection::toggles;
use scm_types::keys::{FileKey, LineKey, SectionKey};
use scm_types::{File, Items, Section, SelectionKey};
use std::alloc::{AllocError, Global};

/// What is counted of a state.
#[derive(Debug, Drop)]
pub struct StateCounts {
    /// The counts of each file.
    pub files: Items<FileCounts>,
    /// The number of checked lines of all files.
    pub checked_lines: usize,
    /// The number of files that are not wholly unchecked.
    pub changed_files: usize,
}

/// Returns the mark of line `line` of `section`, if it has such a changed line.
fn line_mark(section: &Section<'_>, line: usize) -> Option<bool>
    ensures { result ≡ line_mark line section.now }
{
    match section {
        Section::Changed { lines } => {
            lines.as_slice().get(line).map(|changed| changed.is_checked)
        }
        Section::Unchanged { .. } | Section::FileMode { .. } | Section::Binary { .. } => None,
    }
}

/// Returns the mark of the line of `file` that `key` names, if there is such a changed line.
fn line_mark_in(file: &File<'_>, key: LineKey) -> Option<bool>
    ensures { result ≡ line_mark_in key file.now }
{
    file.sections
        .as_slice()
        .get(key.section_idx)
        .and_then(|section| line_mark(section, key.line_idx))
}

/// Returns the mark of the line that `key` names, if there is such a changed line.
fn line_mark_at(files: &[File<'_>], key: LineKey) -> Option<bool>
    ensures { result ≡ line_mark_at key files.now }
{
    files
        .get(key.file_idx)
        .and_then(|file| line_mark_in(file, key))
}

/// Returns whether file `index` of the files with `counts` has a section that changes the mode.
fn has_modes_at(counts: &[FileCounts], index: usize) -> bool
    ensures { result ≡ has_modes_at counts.now index }
{
    match counts.get(index) {
        Some(count) => count.has_modes(),
        None => false,
    }
}

/// Toggles the line that `key` names in `files`, which have `counts`. If its file has no section that
/// changes the mode, inverts the line alone: no mark follows.
fn toggle_line_in(counts: &[FileCounts], files: &mut [File<'_>], key: LineKey)
    requires { counts.now ≡ files_counts files.old }
    ensures { files.new ≡ with_key_toggled (keys.Line key) files.old }
{
    if has_modes_at(counts, key.file_idx) {
        toggles::toggle_key(files, SelectionKey::Line(key));
    } else {
        toggles::invert_line_alone(files, key);
    }
}

/// Counts file `index` of `files` anew, if there is one. `counts` are those before its marks
/// changed.
fn recount_file(counts: &mut [FileCounts], files: &[File<'_>], index: usize)
    requires { AreCountsButFile counts.old files.now index }
    ensures { counts.new ≡ files_counts files.now }
{
    if index < files.len() {
        counts[index].recount(&files[index]);
    }
}

/// Counts the line that `key` names as `checked` now, and what followed in its file.
fn count_line(counts: &mut [FileCounts], files: &[File<'_>], key: LineKey, checked: bool)
    requires { AreCountsButLineAt counts.old files.now key checked }
    ensures { counts.new ≡ files_counts files.now }
{
    if key.file_idx < files.len() {
        counts[key.file_idx].count_line(&files[key.file_idx], key.section_idx, checked);
    }
}

/// Counts each of `files` anew. `counts` are those before their marks changed.
fn recount_files(counts: &mut [FileCounts], files: &[File<'_>])
    requires { AreCountsButAllMarks counts.old files.now }
    ensures { counts.new ≡ files_counts files.now }
{
    for (index, file) in files.iter().enumerate() {
        counts[index].recount(file);
    }
}

impl StateCounts {
    /// Returns the counts of `files`, whose sizes together must be within the limit for a state.
    ///
    /// # Errors
    /// `AllocError`: an allocation failed.
    pub fn new(alloc: Global, files: &[File<'_>]) -> Result<StateCounts, AllocError>
        requires { sum_by file_size files.now ≤ max_items }
        ensures { IfOk result (λ counts. counts ≡ counts_of files.now) }
    {
        let mut counts = Vec::with_capacity(alloc, files.len())?;
        for file in files {
            counts.push(FileCounts::new(alloc, file)?)?;
        }
        let mut counts = StateCounts {
            files: Items::from(counts),
            checked_lines: 0,
            changed_files: 0,
        };
        counts.add_up(files);
        Ok(counts)
    }

    /// Sets the totals to those of `files`, whose counts `self` has.
    fn add_up(&mut self, files: &[File<'_>])
        requires counted { self.old.files ≡ files_counts files.now }
        requires fits { sum_by file_size files.now ≤ max_items }
        ensures { self.new ≡ counts_of files.now }
    {
        let counts = self.files.as_slice();
        let checked_lines = checked_in_files(files, counts);
        let changed_files = changed_in_files(counts);
        self.checked_lines = checked_lines;
        self.changed_files = changed_files;
    }

    /// Takes what a file added to the totals, `before`, from them, and adds what it adds now, `after`.
    fn exchange(&mut self, before: Share, after: Share)
        requires lines { before.lines ≤ self.old.checked_lines }
        requires lines_fit { self.old.checked_lines - before.lines + after.lines < 2 ^ 64 }
        requires changed { before.changed ≤ self.old.changed_files }
        requires changed_fit { self.old.changed_files - before.changed + after.changed < 2 ^ 64 }
        ensures { self.new ≡ exchanged self.old before after }
    {
        self.checked_lines = self.checked_lines - before.lines + after.lines;
        self.changed_files = self.changed_files - before.changed + after.changed;
    }

    /// Counts file `index` of `files` anew, if there is one. `before` is what it added to the totals
    /// before its marks changed.
    fn recount_at(&mut self, files: &[File<'_>], index: usize, before: Share)
        requires { AreStateCountsButFile self.old files.now index before }
        ensures { self.new ≡ counts_of files.now }
    {
        recount_file(self.files.as_mut_slice(), files, index);
        let after = share_at(self.files.as_slice(), files, index);
        self.exchange(before, after);
    }

    /// Counts the line that `key` names as `checked` now, and what followed in its file. `changed` is 1
    /// if the file had a checked item before, else 0.
    fn count_line_at(&mut self, files: &[File<'_>], key: LineKey, checked: bool, changed: usize)
        requires { AreStateCountsButLine self.old files.now key checked changed }
        ensures { self.new ≡ counts_of files.now }
    {
        count_line(self.files.as_mut_slice(), files, key, checked);
        let had = mark_count(!checked);
        let has = mark_count(checked);
        let still_changed = changed_at(self.files.as_slice(), files, key.file_idx);
        let before = Share {
            lines: had,
            changed,
        };
        let after = Share {
            lines: has,
            changed: still_changed,
        };
        self.exchange(before, after);
    }

    /// Toggles the file that `key` names, and counts it anew.
    fn toggle_file(&mut self, files: &mut [File<'_>], key: FileKey)
        requires counted { self.old ≡ counts_of files.old }
        requires fits { sum_by file_size files.old ≤ max_items }
        ensures files { files.new ≡ with_key_toggled (keys.File key) files.old }
        ensures counts { self.new ≡ counts_of files.new }
    {
        let before = share_at(self.files.as_slice(), files, key.file_idx);
        toggles::toggle_key(files, SelectionKey::File(key));
        self.recount_at(files, key.file_idx, before);
    }

    /// Toggles the section that `key` names, and counts its file anew.
    fn toggle_section(&mut self, files: &mut [File<'_>], key: SectionKey)
        requires counted { self.old ≡ counts_of files.old }
        requires fits { sum_by file_size files.old ≤ max_items }
        ensures files { files.new ≡ with_key_toggled (keys.Section key) files.old }
        ensures counts { self.new ≡ counts_of files.new }
    {
        let before = share_at(self.files.as_slice(), files, key.file_idx);
        toggles::toggle_key(files, SelectionKey::Section(key));
        self.recount_at(files, key.file_idx, before);
    }

    /// Toggles the line that `key` names, and counts it and the marks that follow. Reads other
    /// sections only if one of them changes the mode.
    fn toggle_line(&mut self, files: &mut [File<'_>], key: LineKey)
        requires counted { self.old ≡ counts_of files.old }
        requires fits { sum_by file_size files.old ≤ max_items }
        ensures files { files.new ≡ with_key_toggled (keys.Line key) files.old }
        ensures counts { self.new ≡ counts_of files.new }
    {
        let mark = line_mark_at(files, key);
        let changed = changed_at(self.files.as_slice(), files, key.file_idx);
        toggle_line_in(self.files.as_slice(), files, key);
        match mark {
            Some(was_checked) => self.count_line_at(files, key, !was_checked, changed),
            None => {}
        }
    }

    /// Toggles what `key` names, as [`toggles::toggle_key`] does, and keeps the counts of `files`,
    /// whose sizes together must be within the limit for a state. A line costs no count of others.
    pub fn toggle_key(&mut self, files: &mut [File<'_>], key: SelectionKey)
        requires counted { self.old ≡ counts_of files.old }
        requires fits { sum_by file_size files.old ≤ max_items }
        ensures files { files.new ≡ with_key_toggled key files.old }
        ensures counts { self.new ≡ counts_of files.new }
    {
        match key {
            SelectionKey::None => {}
            SelectionKey::File(key) => self.toggle_file(files, key),
            SelectionKey::Section(key) => self.toggle_section(files, key),
            SelectionKey::Line(key) => self.toggle_line(files, key),
        }
    }

    /// Inverts every mark of `files`, as [`toggles::invert_all`] does, and keeps their counts.
    pub fn invert_all(&mut self, files: &mut [File<'_>])
        requires counted { self.old ≡ counts_of files.old }
        requires fits { sum_by file_size files.old ≤ max_items }
        ensures files { files.new ≡ with_all_inverted files.old }
        ensures counts { self.new ≡ counts_of files.new }
    {
        toggles::invert_all(files);
        recount_files(self.files.as_mut_slice(), files);
        self.add_up(files);
    }

    /// Sets every mark of `files`, as [`toggles::set_all`] does, and keeps their counts.
    pub fn set_all(&mut self, files: &mut [File<'_>])
        requires counted { self.old ≡ counts_of files.old }
        requires fits { sum_by file_size files.old ≤ max_items }
        ensures files { files.new ≡ with_all_set files.old }
        ensures counts { self.new ≡ counts_of files.new }
    {
        toggles::set_all(files);
        recount_files(self.files.as_mut_slice(), files);
        self.add_up(files);
    }
}
