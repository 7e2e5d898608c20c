//! Plans: toggles that lead from the marks of a state to others, and folds that are closed again.
ghost use Rattle.std.specs.Prelude.{◌≡◌, ◌++◌, [], IfErr, IfOk, OnOk, fold, map, slice_get};
ghost use Rattle.scm_errors.specs.declared.error.RecordError.TheVariants.{OutOfMemory};
ghost use Rattle.scm_front_items.specs.Targets.{key_of};
ghost use Rattle.scm_front_items.specs.Plans.{common_of_file, common_with, file_folds, fold_of, is_folded, is_left, is_mode_to, is_some_as, is_unchecked_first, list_in, section_around, section_folds, sections_agree, with_file_deeds, with_plan, with_first_deeds, with_line_deed, with_line_deeds, with_deeds_of_lines, with_mark_deed, with_mode_deed, with_mode_deeds, with_part_deeds, with_section_deeds, with_common_deeds, with_deeds_of_sections, with_unmark_deed, with_whole_deeds};

use crate::runs::is_mode;
use crate::steps::agree;
use crate::targets::{Deed, Target, is_as};
use scm_selection::KeySet;
use scm_selection::key_lists::{file_key, line_key, section_key};
use scm_types::{File, Items, RecordError, Section, SectionChangedLine, SelectionKey, Tristate};
use std::alloc::Global;

/// The parts of a plan, in the order in which they are done.
#[derive(Clone, Copy, Debug, PartialEq, Eq)]
pub enum Part {
    /// Whole files, and the mode changes of others, which may change more marks of their files.
    First,
    /// Sections and lines that then still have other marks.
    Last,
}

/// The mark that all of some marks have.
#[derive(Clone, Copy)]
enum Common {
    /// There is no mark.
    Nothing,
    /// Each mark is this one.
    Mark(bool),
    /// Some marks are checked, and some are not.
    Mixed,
}

/// Returns what marks have in common after `mark`.
fn common_with(common: Common, mark: bool) -> Common
    ensures { result ≡ common_with common mark }
{
    match common {
        Common::Nothing => Common::Mark(mark),
        Common::Mark(other) => {
            if is_as(other, mark) {
                Common::Mark(other)
            } else {
                Common::Mixed
            }
        }
        Common::Mixed => Common::Mixed,
    }
}

/// Returns what `marks` have in common, after others that have `before`.
fn common_of(before: Common, marks: &[bool]) -> Common
    ensures { result ≡ fold common_with before marks.now }
{
    let mut common = before;
    for mark in marks {
        common = common_with(common, *mark);
    }
    common
}

/// Returns what all marks of a file have in common.
fn common_of_file(marks: &[Items<bool>]) -> Common
    ensures { result ≡ common_of_file marks.now }
{
    let mut common = Common::Nothing;
    for section in marks {
        common = common_of(common, section.as_slice());
    }
    common
}

// ---- marks that are wanted

/// Returns no marks.
fn no_marks<'a>() -> &'a [bool]
    ensures { result.now ≡ [] }
{
    &[]
}

/// Returns the marks of section `index` of `wanted`, or none if it has fewer.
fn marks_at(wanted: &[Items<bool>], index: usize) -> &[bool]
    ensures { result.now ≡ list_in (slice_get wanted.now index) }
{
    match wanted.get(index) {
        None => no_marks(),
        Some(marks) => marks.as_slice(),
    }
}

/// Returns no lists of marks.
fn no_lists<'a>() -> &'a [Items<bool>]
    ensures { result.now ≡ [] }
{
    &[]
}

/// Returns the marks of file `index` of `wanted`, or none if it has fewer.
fn lists_at(wanted: &[Items<Items<bool>>], index: usize) -> &[Items<bool>]
    ensures { result.now ≡ list_in (slice_get wanted.now index) }
{
    match wanted.get(index) {
        None => no_lists(),
        Some(marks) => marks.as_slice(),
    }
}

/// Returns mark `index` of `marks`, if there is one.
fn mark_of(marks: &[bool], index: usize) -> Option<bool>
    ensures { result ≡ slice_get marks.now index }
{
    match marks.get(index) {
        None => None,
        Some(mark) => Some(*mark),
    }
}

/// Returns whether `found` is `mark`.
fn is_some_as(mark: bool, found: Option<bool>) -> bool
    ensures { result ≡ is_some_as mark found }
{
    match found {
        None => false,
        Some(other) => is_as(mark, other),
    }
}

/// Returns whether `sections` have the marks `wanted`, as far as there are any.
fn have_wanted(sections: &[Section<'_>], wanted: &[Items<bool>]) -> bool
    ensures { result ≡ sections_agree wanted.now 0 sections.now }
{
    for (index, section) in sections.iter().enumerate() {
        if !agree(section, 0, marks_at(wanted, index)) {
            return false;
        }
    }
    true
}

// ---- deeds that set marks

/// Adds a deed to `deeds` that sets the marks of `key` to `mark`.
fn push_mark(deeds: &mut Vec<Deed>, key: SelectionKey, mark: bool) -> Result<(), RecordError>
    ensures ok { OnOk result (deeds.new.items ≡ with_mark_deed key mark deeds.old.items) }
    ensures err { IfErr result (λ e. e ≡ OutOfMemory) }
{
    deeds.push(Deed::Mark(Target {
        key,
        is_checked: mark,
    }))?;
    Ok(())
}

/// Returns whether a toggle unchecks a file or section that has `tristate`, although it is to be `mark`.
fn is_unchecked_first(tristate: Tristate, mark: bool) -> bool
    ensures { result ≡ is_unchecked_first tristate mark }
{
    match tristate {
        Tristate::Partial => mark,
        Tristate::True | Tristate::False => false,
    }
}

/// Adds a deed to `deeds` that unchecks `key`, which has `tristate`, if its first toggle does so
/// although it is to be `mark`.
fn push_unmark(
    deeds: &mut Vec<Deed>,
    key: SelectionKey,
    tristate: Tristate,
    mark: bool,
) -> Result<(), RecordError>
    ensures ok { OnOk result (deeds.new.items ≡ with_unmark_deed key tristate mark deeds.old.items) }
    ensures err { IfErr result (λ e. e ≡ OutOfMemory) }
{
    if is_unchecked_first(tristate, mark) {
        push_mark(deeds, key, false)?;
    }
    Ok(())
}

/// Adds deeds to `deeds` that set the marks of the file or section `key`, which has `tristate`, to `mark`.
/// One that is partly checked is unchecked by its first toggle.
fn push_whole(
    deeds: &mut Vec<Deed>,
    key: SelectionKey,
    tristate: Tristate,
    mark: bool,
) -> Result<(), RecordError>
    ensures ok { OnOk result (deeds.new.items ≡ with_whole_deeds key tristate mark deeds.old.items) }
    ensures err { IfErr result (λ e. e ≡ OutOfMemory) }
{
    push_unmark(deeds, key, tristate, mark)?;
    push_mark(deeds, key, mark)
}

/// Returns whether `section` changes the mode of its file, and its mark is to be `mark`.
fn is_mode_to(mark: bool, section: &Section<'_>, wanted: &[bool]) -> bool
    ensures { result ≡ is_mode_to mark section.now wanted.now }
{
    let is_wanted = is_some_as(mark, mark_of(wanted, 0));
    is_mode(section) & is_wanted
}

/// Adds a deed for the mode change `key` to `deeds`, if `section` is one that is to be `mark`.
fn push_mode(
    deeds: &mut Vec<Deed>,
    key: SelectionKey,
    mark: bool,
    section: &Section<'_>,
    wanted: &[bool],
) -> Result<(), RecordError>
    ensures ok { OnOk result (deeds.new.items
        ≡ with_mode_deed key mark section.now wanted.now deeds.old.items) }
    ensures err { IfErr result (λ e. e ≡ OutOfMemory) }
{
    if is_mode_to(mark, section, wanted) {
        push_mark(deeds, key, mark)?;
    }
    Ok(())
}

/// Adds deeds to `deeds` for the mode changes of file `file` that are to be `mark`.
fn push_modes(
    deeds: &mut Vec<Deed>,
    file: usize,
    mark: bool,
    sections: &[Section<'_>],
    wanted: &[Items<bool>],
) -> Result<(), RecordError>
    ensures ok { OnOk result (deeds.new.items
        ≡ with_mode_deeds file mark wanted.now 0 sections.now deeds.old.items) }
    ensures err { IfErr result (λ e. e ≡ OutOfMemory) }
{
    for (index, section) in sections.iter().enumerate() {
        let key = section_key(file, index);
        push_mode(deeds, key, mark, section, marks_at(wanted, index))?;
    }
    Ok(())
}

/// Adds the first deeds for file `index` to `deeds`: the whole file if all of it is to have one mark,
/// else its mode changes, which may change other marks. Those that are to be unchecked come first.
/// `common` is what the marks `wanted` have in common.
fn push_first(
    deeds: &mut Vec<Deed>,
    common: Common,
    index: usize,
    file: &File<'_>,
    wanted: &[Items<bool>],
) -> Result<(), RecordError>
    ensures ok { OnOk result (deeds.new.items
        ≡ with_first_deeds common index file.now wanted.now deeds.old.items) }
    ensures err { IfErr result (λ e. e ≡ OutOfMemory) }
{
    let sections = file.sections.as_slice();
    match common {
        Common::Nothing => Ok(()),
        Common::Mark(mark) => push_whole(deeds, file_key(index), file.tristate(), mark),
        Common::Mixed => {
            push_modes(deeds, index, false, sections, wanted)?;
            push_modes(deeds, index, true, sections, wanted)
        }
    }
}

/// Adds a deed for the line `key` to `deeds`, if its mark is not `wanted`.
fn push_line(
    deeds: &mut Vec<Deed>,
    key: SelectionKey,
    line: &SectionChangedLine<'_>,
    wanted: Option<bool>,
) -> Result<(), RecordError>
    ensures ok { OnOk result (deeds.new.items ≡ with_line_deed key line.now wanted deeds.old.items) }
    ensures err { IfErr result (λ e. e ≡ OutOfMemory) }
{
    match wanted {
        None => Ok(()),
        Some(mark) => {
            if is_as(mark, line.is_checked) {
                Ok(())
            } else {
                push_mark(deeds, key, mark)
            }
        }
    }
}

/// Adds deeds for the lines of section `section` of file `file` to `deeds` whose marks are not `wanted`.
fn push_lines(
    deeds: &mut Vec<Deed>,
    file: usize,
    section: usize,
    lines: &[SectionChangedLine<'_>],
    wanted: &[bool],
) -> Result<(), RecordError>
    ensures ok { OnOk result (deeds.new.items
        ≡ with_line_deeds file section wanted.now 0 lines.now deeds.old.items) }
    ensures err { IfErr result (λ e. e ≡ OutOfMemory) }
{
    for (index, line) in lines.iter().enumerate() {
        let key = line_key(file, section, index);
        push_line(deeds, key, line, mark_of(wanted, index))?;
    }
    Ok(())
}

/// Adds deeds for the lines of section `index` to `deeds` whose marks are not `wanted`.
fn push_lines_of(
    deeds: &mut Vec<Deed>,
    file: usize,
    index: usize,
    section: &Section<'_>,
    wanted: &[bool],
) -> Result<(), RecordError>
    ensures ok { OnOk result (deeds.new.items
        ≡ with_deeds_of_lines file index section.now wanted.now deeds.old.items) }
    ensures err { IfErr result (λ e. e ≡ OutOfMemory) }
{
    match section {
        Section::Changed { lines } => push_lines(deeds, file, index, lines.as_slice(), wanted),
        Section::Unchanged { .. } | Section::FileMode { .. } | Section::Binary { .. } => Ok(()),
    }
}

/// Adds deeds for section `index` of file `file` to `deeds`: the whole section if all of it is to have
/// one mark, else its lines. `common` is what the marks `wanted` have in common.
fn push_section_by(
    deeds: &mut Vec<Deed>,
    common: Common,
    file: usize,
    index: usize,
    section: &Section<'_>,
    wanted: &[bool],
) -> Result<(), RecordError>
    ensures ok { OnOk result (deeds.new.items
        ≡ with_common_deeds common file index section.now wanted.now deeds.old.items) }
    ensures err { IfErr result (λ e. e ≡ OutOfMemory) }
{
    match common {
        Common::Nothing => Ok(()),
        Common::Mark(mark) => push_whole(deeds, section_key(file, index), section.tristate(), mark),
        Common::Mixed => push_lines_of(deeds, file, index, section, wanted),
    }
}

/// Returns whether `section` has the marks `wanted`, as far as there are any, or changes the mode of
/// its file.
fn is_left(section: &Section<'_>, wanted: &[bool]) -> bool
    ensures { result ≡ is_left section.now wanted.now }
{
    let is_done = agree(section, 0, wanted);
    is_done | is_mode(section)
}

/// Adds deeds for section `index` of file `file` to `deeds`, unless it has the marks `wanted`. Mode
/// changes have none.
fn push_section(
    deeds: &mut Vec<Deed>,
    file: usize,
    index: usize,
    section: &Section<'_>,
    wanted: &[bool],
) -> Result<(), RecordError>
    ensures ok { OnOk result (deeds.new.items
        ≡ with_section_deeds file index section.now wanted.now deeds.old.items) }
    ensures err { IfErr result (λ e. e ≡ OutOfMemory) }
{
    if is_left(section, wanted) {
        return Ok(());
    }
    let common = common_of(Common::Nothing, wanted);
    push_section_by(deeds, common, file, index, section, wanted)
}

/// Adds deeds for the sections of file `file` to `deeds` whose marks are not `wanted`.
fn push_sections(
    deeds: &mut Vec<Deed>,
    file: usize,
    sections: &[Section<'_>],
    wanted: &[Items<bool>],
) -> Result<(), RecordError>
    ensures ok { OnOk result (deeds.new.items
        ≡ with_deeds_of_sections file wanted.now 0 sections.now deeds.old.items) }
    ensures err { IfErr result (λ e. e ≡ OutOfMemory) }
{
    for (index, section) in sections.iter().enumerate() {
        push_section(deeds, file, index, section, marks_at(wanted, index))?;
    }
    Ok(())
}

/// Adds the deeds of `part` for file `index` to `deeds`, if it has not the marks `wanted`.
fn push_part(
    deeds: &mut Vec<Deed>,
    part: Part,
    index: usize,
    file: &File<'_>,
    wanted: &[Items<bool>],
) -> Result<(), RecordError>
    ensures ok { OnOk result (deeds.new.items
        ≡ with_part_deeds part index file.now wanted.now deeds.old.items) }
    ensures err { IfErr result (λ e. e ≡ OutOfMemory) }
{
    match part {
        Part::First => push_first(deeds, common_of_file(wanted), index, file, wanted),
        Part::Last => push_sections(deeds, index, file.sections.as_slice(), wanted),
    }
}

/// Adds the deeds of `part` for file `index` to `deeds`. A file with the marks `wanted` has none.
fn push_file(
    deeds: &mut Vec<Deed>,
    part: Part,
    index: usize,
    file: &File<'_>,
    wanted: &[Items<bool>],
) -> Result<(), RecordError>
    ensures ok { OnOk result (deeds.new.items
        ≡ with_file_deeds part index file.now wanted.now deeds.old.items) }
    ensures err { IfErr result (λ e. e ≡ OutOfMemory) }
{
    if have_wanted(file.sections.as_slice(), wanted) {
        return Ok(());
    }
    push_part(deeds, part, index, file, wanted)
}

/// Adds the deeds of `part` to `deeds` that lead from `files` to the marks `wanted`.
///
/// # Errors
///
/// - `OutOfMemory`: an allocation failed; some deeds may have been added.
pub fn push_deeds(
    deeds: &mut Vec<Deed>,
    part: Part,
    files: &[File<'_>],
    wanted: &[Items<Items<bool>>],
) -> Result<(), RecordError>
    ensures ok { OnOk result (deeds.new.items
        ≡ with_plan part wanted.now 0 files.now deeds.old.items) }
    ensures err { IfErr result (λ e. e ≡ OutOfMemory) }
{
    for (index, file) in files.iter().enumerate() {
        push_file(deeds, part, index, file, lists_at(wanted, index))?;
    }
    Ok(())
}

// ---- folds

/// Returns the key of the section that `key` names or lies in, or `None` if it is a file's.
fn section_around(key: SelectionKey) -> SelectionKey
    ensures { result ≡ section_around key }
{
    match key {
        SelectionKey::Section(key) => SelectionKey::Section(key),
        SelectionKey::Line(key) => SelectionKey::Section(key.section()),
        SelectionKey::None | SelectionKey::File(_) => SelectionKey::None,
    }
}

/// Returns whether `key` names something that is not `expanded`.
fn is_folded(expanded: &KeySet, key: SelectionKey) -> bool
    ensures { result ≡ is_folded expanded.now key }
{
    match key {
        SelectionKey::None => false,
        SelectionKey::File(_) | SelectionKey::Section(_) | SelectionKey::Line(_) => {
            !expanded.contains(key)
        }
    }
}

/// Adds a deed to `deeds` that folds `key` again, if it is folded now.
fn push_fold(deeds: &mut Vec<Deed>, expanded: &KeySet, key: SelectionKey) -> Result<(), RecordError>
    ensures ok { OnOk result (deeds.new.items ≡ deeds.old.items ++ fold_of expanded.now key) }
    ensures err { IfErr result (λ e. e ≡ OutOfMemory) }
{
    if is_folded(expanded, key) {
        deeds.push(Deed::Fold(key))?;
    }
    Ok(())
}

/// Adds deeds to `deeds` that fold the sections of `keys` again.
fn push_section_folds(
    deeds: &mut Vec<Deed>,
    expanded: &KeySet,
    keys: &[SelectionKey],
) -> Result<(), RecordError>
    ensures ok { OnOk result (deeds.new.items
        ≡ deeds.old.items ++ section_folds expanded.now keys.now) }
    ensures err { IfErr result (λ e. e ≡ OutOfMemory) }
{
    for index in 0..keys.len() {
        push_fold(deeds, expanded, section_around(keys[index]))?;
    }
    Ok(())
}

/// Adds deeds to `deeds` that fold the files of `keys` again.
fn push_file_folds(
    deeds: &mut Vec<Deed>,
    expanded: &KeySet,
    keys: &[SelectionKey],
) -> Result<(), RecordError>
    ensures ok { OnOk result (deeds.new.items
        ≡ deeds.old.items ++ file_folds expanded.now keys.now) }
    ensures err { IfErr result (λ e. e ≡ OutOfMemory) }
{
    for index in 0..keys.len() {
        push_fold(deeds, expanded, keys[index].file())?;
    }
    Ok(())
}

/// Adds deeds to `deeds` that fold again what jumps to `keys` unfold, if `expanded` is what is unfolded
/// before them: first sections, then files.
///
/// # Errors
///
/// - `OutOfMemory`: an allocation failed; some deeds may have been added.
pub fn push_folds(
    deeds: &mut Vec<Deed>,
    expanded: &KeySet,
    keys: &[SelectionKey],
) -> Result<(), RecordError>
    ensures ok { OnOk result (deeds.new.items
        ≡ (deeds.old.items ++ section_folds expanded.now keys.now)
        ++ file_folds expanded.now keys.now) }
    ensures err { IfErr result (λ e. e ≡ OutOfMemory) }
{
    push_section_folds(deeds, expanded, keys)?;
    push_file_folds(deeds, expanded, keys)
}

/// Returns the keys of `deeds`.
///
/// # Errors
///
/// - `OutOfMemory`: an allocation failed.
pub fn keys_of(alloc: Global, deeds: &[Deed]) -> Result<Vec<SelectionKey>, RecordError>
    ensures ok { IfOk result (λ keys. keys.items ≡ map key_of deeds.now) }
    ensures err { IfErr result (λ e. e ≡ OutOfMemory) }
{
    let mut keys = Vec::new(alloc);
    for index in 0..deeds.len() {
        keys.push(deeds[index].key())?;
    }
    Ok(keys)
}
