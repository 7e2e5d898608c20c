//! The rows of a file and of its sections.
ghost use Rattle.std.specs.Prelude.{◌≡◌, ◌+◌, ◌≤◌, ◌<◌, ◌^◌, false, length, IfOk, IsTrue, if◌then◌else◌};
ghost use Rattle.scm_types.specs.declared.keys.SelectionKey.TheVariants as keys;
ghost use Rattle.scm_types.specs.Keys.{has_key, section_key_of};
ghost use Rattle.scm_types.specs.Limits.{file_size, max_items};
ghost use Rattle.scm_layout.specs.Refolds.{AreRowsButKey};
ghost use Rattle.scm_layout.specs.Rows.{HasFile, file_rows, folded_count, sections_rows};

use crate::section_folds::folded_after;
use crate::section_rows::{Unfolded, folded_count, is_expanded};
use crate::section_stack::SectionStack;
use scm_selection::key_set::KeySet;
use scm_types::keys::FileKey;
use scm_types::{File, SelectionKey};
use std::alloc::{AllocError, Global};

/// The rows of a file.
#[derive(Debug, Drop)]
pub struct FileRows {
    /// The first row, which is the header's.
    pub top: usize,
    /// The end of the rows, exclusive.
    pub end: usize,
    /// How many sections of changed lines are folded.
    pub folded: usize,
    /// The rows of each section, shown or not, counted from the row below the header.
    pub sections: SectionStack,
}

/// Returns how many rows a file has whose sections have `height` rows.
fn height_with(is_expanded: bool, height: usize) -> usize
    requires { height + 1 < 2 ^ 64 }
    ensures { result ≡ 1 + (if is_expanded then height else 0) }
{
    if is_expanded { 1 + height } else { 1 }
}

/// Returns whether `file`, which has key `key`, is unfolded.
fn is_file_unfolded(unfolded: Unfolded<'_>, key: FileKey, file: &File<'_>) -> bool
    requires { IsTrue unfolded.are_all → HasFile unfolded.keys.now key file.now }
    ensures { result ≡ has_key unfolded.entry.keys.now (keys.File key) }
{
    unfolded.are_all || unfolded.keys.contains(SelectionKey::File(key))
}

impl FileRows {
    /// Returns the rows of `file` from row 0 on, if the files and sections of `set` are unfolded.
    ///
    /// # Errors
    /// `AllocError`: an allocation failed.
    pub(crate) fn new(
        alloc: Global,
        set: &KeySet,
        key: FileKey,
        file: &File<'_>,
    ) -> Result<FileRows, AllocError>
        requires { file_size file.now ≤ max_items }
        ensures { IfOk result (λ rows. rows ≡ file_rows set.now key file.now) }
    {
        let sections = SectionStack::blank(alloc, file.sections.len())?;
        let mut rows = FileRows {
            top: 0,
            end: 0,
            folded: 0,
            sections,
        };
        let unfolded = Unfolded {
            keys: set,
            are_all: false,
        };
        rows.refold(unfolded, key, file);
        Ok(rows)
    }

    /// Finds the rows of `file` and its sections anew, from row 0 on.
    pub(crate) fn refold(&mut self, unfolded: Unfolded<'_>, key: FileKey, file: &File<'_>)
        requires lengths { length self.old.sections ≡ length file.now.sections }
        requires fits { file_size file.now ≤ max_items }
        requires all { IsTrue unfolded.are_all → HasFile unfolded.keys.now key file.now }
        ensures { self.new ≡ file_rows unfolded.entry.keys.now key file.now }
    {
        let sections = file.sections.as_slice();
        let height = self.sections.refold(unfolded, key, sections);
        self.top = 0;
        self.end = height_with(is_file_unfolded(unfolded, key, file), height);
        self.folded = folded_count(unfolded, key, sections);
    }

    /// Mends the rows of the sections of `file`, which has key `key`, after section `index`, if there
    /// is one, was folded or unfolded.
    fn refold_section(&mut self, set: &KeySet, key: FileKey, file: &File<'_>, index: usize)
        requires rows { AreRowsButKey self.old set.now key file.now
            (keys.Section (section_key_of key index)) }
        ensures folded { self.new.folded ≡ folded_count set.now key 0 file.now.sections }
        ensures sections { self.new.sections
            ≡ sections_rows set.now key (length file.now.sections) 0 0 false file.now.sections }
    {
        let sections = file.sections.as_slice();
        if index < sections.len() {
            self.sections.refold_section(set, key, sections, index);
            let is_unfolded = is_expanded(set, key, index);
            self.folded = folded_after(self.folded, &sections[index], is_unfolded);
        }
    }

    /// Mends the rows of the sections of `file`, which has key `file_key`, after `key` was folded or
    /// unfolded. They change if it names a section.
    fn refold_sections(
        &mut self,
        set: &KeySet,
        file_key: FileKey,
        file: &File<'_>,
        key: SelectionKey,
    )
        requires rows { AreRowsButKey self.old set.now file_key file.now key }
        ensures folded { self.new.folded ≡ folded_count set.now file_key 0 file.now.sections }
        ensures sections { self.new.sections ≡ sections_rows set.now file_key
            (length file.now.sections) 0 0 false file.now.sections }
    {
        match key {
            SelectionKey::Section(key) => self.refold_section(set, file_key, file, key.section_idx),
            SelectionKey::None | SelectionKey::File(_) | SelectionKey::Line(_) => {}
        }
    }

    /// Mends the rows of `file`, which has key `file_key`, after `key`, which names or lies in it, was
    /// folded or unfolded. Then they are from row 0 on.
    pub(crate) fn refold_key(
        &mut self,
        set: &KeySet,
        file_key: FileKey,
        file: &File<'_>,
        key: SelectionKey,
    )
        requires rows { AreRowsButKey self.old set.now file_key file.now key }
        ensures { self.new ≡ file_rows set.now file_key file.now }
    {
        self.refold_sections(set, file_key, file, key);
        let height = self.sections.last_end();
        self.top = 0;
        self.end = height_with(set.contains(SelectionKey::File(file_key)), height);
    }
}
