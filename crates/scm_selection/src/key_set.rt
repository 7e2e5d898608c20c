//! A set of keys, as that of the unfolded files and sections.
ghost use Rattle.std.specs.Prelude.{◌≡◌, ◌++◌, [], filter, not, IfErr, OnErr, OnOk, IfOk};
ghost use Rattle.scm_errors.specs.declared.error.RecordError.TheVariants.{OutOfMemory};
ghost use Rattle.scm_selection.specs.KeyFlags.{flagged_in, flagged_keys, flagged_sections, has_each};
ghost use Rattle.scm_selection.specs.KeyLists.{all_keys, is_line, is_section};
ghost use Rattle.scm_selection.specs.KeySet.{has_key, key_set, is_same_set, with_key, with_key_flipped, without_key};

use crate::key_flags::{FileFlags, are_files_set, flags_of_files, has_flag, is_flagged, put_flag};
use crate::key_lists::{file_key, section_key};
use scm_types::{File, Items, RecordError, SelectionKey};
use std::alloc::Global;
use std::collections::BTreeSet;
use std::marker::Model;

/// A set of keys, which contracts see as their list in ascending order.
///
/// A set of all sections of a state, and of all its files, has a flag for each of them, and a tree for
/// all other keys. Any other set has the tree alone.
#[derive(Debug, Drop)]
pub struct KeySet {
    /// The flags of files and sections. The set has the keys whose flag is set.
    flags: Items<FileFlags>,
    /// The keys without a flag, and perhaps some with one.
    others: BTreeSet<SelectionKey>,
}

impl Model for KeySet {
    ghost use Rattle.std.specs.Prelude.{◌++◌, List};
    ghost use Rattle.scm_types.specs.declared.keys.SelectionKey.{SelectionKey};
    ghost use Rattle.scm_selection.specs.KeyFlags.{flagged_keys};
    ghost use Rattle.scm_selection.specs.KeySet.{key_set};

    ghost Value = { List SelectionKey };

    ghost view = { λ set. key_set (set.others.keys ++ flagged_keys 0 set.flags) };
}

impl KeySet {
    /// Returns the empty set. It takes memory from `alloc` once keys are added.
    pub fn new(alloc: Global) -> KeySet
        ensures { result ≡ [] }
    {
        KeySet {
            flags: Items::new(alloc),
            others: BTreeSet::new(alloc),
        }
    }

    /// Returns the set of the keys of all sections of `files` that are not context.
    ///
    /// # Errors
    /// `OutOfMemory`: an allocation failed.
    pub fn of_sections(alloc: Global, files: &[File<'_>]) -> Result<KeySet, RecordError>
        ensures ok { IfOk result
            (λ set. set ≡ key_set (filter is_section (all_keys files.now))) }
        ensures err { IfErr result (λ e. e ≡ OutOfMemory) }
    {
        let flags = flags_of_files(alloc, false, files)?;
        let others = BTreeSet::new(alloc);
        Ok(KeySet { flags, others })
    }

    /// Returns the set of the keys of `files`, and of all their sections that are not context.
    ///
    /// # Errors
    /// `OutOfMemory`: an allocation failed.
    pub fn of_files(alloc: Global, files: &[File<'_>]) -> Result<KeySet, RecordError>
        ensures ok { IfOk result
            (λ set. set ≡ key_set (filter (λ key. not (is_line key)) (all_keys files.now))) }
        ensures err { IfErr result (λ e. e ≡ OutOfMemory) }
    {
        let flags = flags_of_files(alloc, true, files)?;
        let others = BTreeSet::new(alloc);
        Ok(KeySet { flags, others })
    }

    /// Returns whether the set has `key`.
    pub fn contains(&self, key: SelectionKey) -> bool
        ensures { result ≡ has_key self.now key }
    {
        let is_other = self.others.contains(&key);
        let is_set = is_flagged(self.flags.as_slice(), key);
        is_other | is_set
    }

    /// Returns whether the set and `other` have the same keys.
    pub fn is_same(&self, other: &KeySet) -> bool
        ensures { result ≡ is_same_set self.now other.now }
    {
        let own = self.flags.as_slice();
        let theirs = other.flags.as_slice();
        has_each_key(other, &self.others, own) && has_each_key(self, &other.others, theirs)
    }

    /// Returns whether the set has exactly the keys of `files`, and of all their sections that are not
    /// context. If each of these has a flag, and no other key has, no set is made for it.
    ///
    /// # Errors
    /// `OutOfMemory`: an allocation failed.
    pub fn has_exactly_files(&self, alloc: Global, files: &[File<'_>]) -> Result<bool, RecordError>
        ensures ok { IfOk result (λ has_exactly. has_exactly ≡ is_same_set self.now
            (key_set (filter (λ key. not (is_line key)) (all_keys files.now)))) }
        ensures err { IfErr result (λ e. e ≡ OutOfMemory) }
    {
        if self.others.is_empty() && are_files_set(self.flags.as_slice(), files) {
            return Ok(true);
        }
        let all = KeySet::of_files(alloc, files)?;
        Ok(self.is_same(&all))
    }

    /// Adds `key` to the set.
    ///
    /// # Errors
    /// `OutOfMemory`: an allocation failed; the set is unchanged.
    pub fn insert(&mut self, key: SelectionKey) -> Result<(), RecordError>
        ensures ok { OnOk result (self.new ≡ with_key self.old key) }
        ensures unchanged { OnErr result (self.new ≡ self.old) }
        ensures err { IfErr result (λ e. e ≡ OutOfMemory) }
    {
        if has_flag(self.flags.as_slice(), key) {
            put_flag(self.flags.as_mut_slice(), key, true);
            return Ok(());
        }
        self.others.insert(key)?;
        Ok(())
    }

    /// Removes `key` from the set, if the set has it.
    pub fn remove(&mut self, key: SelectionKey)
        ensures { self.new ≡ without_key self.old key }
    {
        put_flag(self.flags.as_mut_slice(), key, false);
        self.others.remove(&key);
    }

    /// Removes `key` from the set if the set has it, else adds it.
    ///
    /// # Errors
    /// `OutOfMemory`: an allocation failed; the set is unchanged.
    pub fn flip(&mut self, key: SelectionKey) -> Result<(), RecordError>
        ensures ok { OnOk result (self.new ≡ with_key_flipped self.old key) }
        ensures unchanged { OnErr result (self.new ≡ self.old) }
        ensures err { IfErr result (λ e. e ≡ OutOfMemory) }
    {
        if self.contains(key) {
            self.remove(key);
            Ok(())
        } else {
            self.insert(key)
        }
    }
}

/// Returns whether `set` has each of `keys`.
fn has_each_of(set: &KeySet, keys: &BTreeSet<SelectionKey>) -> bool
    ensures { result ≡ has_each set.now keys.now.keys }
{
    for key in keys {
        if !set.contains(*key) {
            return false;
        }
    }
    true
}

/// Returns whether `set` has the key of each section of file `file` whose flag is set.
fn has_each_section(set: &KeySet, file: usize, flags: &[bool]) -> bool
    ensures { result ≡ has_each set.now (flagged_sections file 0 flags.now) }
{
    for section in 0..flags.len() {
        if flags[section] && !set.contains(section_key(file, section)) {
            return false;
        }
    }
    true
}

/// Returns whether `set` has the key of file `file`, if its flag is set, and of each of its sections
/// whose flag is set.
fn has_each_in(set: &KeySet, file: usize, flags: &FileFlags) -> bool
    ensures { result ≡ has_each set.now (flagged_in file flags.now) }
{
    if flags.is_set && !set.contains(file_key(file)) {
        return false;
    }
    has_each_section(set, file, flags.sections.as_slice())
}

/// Returns whether `set` has the key of each file and section whose flag is set.
fn has_each_flagged(set: &KeySet, flags: &[FileFlags]) -> bool
    ensures { result ≡ has_each set.now (flagged_keys 0 flags.now) }
{
    for file in 0..flags.len() {
        if !has_each_in(set, file, &flags[file]) {
            return false;
        }
    }
    true
}

/// Returns whether `set` has each of `others`, and each key whose flag is set.
fn has_each_key(set: &KeySet, others: &BTreeSet<SelectionKey>, flags: &[FileFlags]) -> bool
    ensures { result ≡ has_each set.now (others.now.keys ++ flagged_keys 0 flags.now) }
{
    has_each_of(set, others) && has_each_flagged(set, flags)
}

/// Returns the set of `keys`.
///
/// # Errors
/// `OutOfMemory`: an allocation failed.
pub fn key_set_of(alloc: Global, keys: &[SelectionKey]) -> Result<KeySet, RecordError>
    ensures ok { IfOk result (λ set. set ≡ key_set keys.now) }
    ensures err { IfErr result (λ e. e ≡ OutOfMemory) }
{
    let mut set = KeySet::new(alloc);
    for key in keys {
        set.insert(*key)?;
    }
    Ok(set)
}
