//! Moves of the selection. The code steps through files, sections and lines, and makes no list.
//! Their indexes count from 0.
ghost use Rattle.std.specs.Prelude.{◌≡◌, ◌∷◌, [], ◌+◌, List, drop, is_some, length, position, slice_get, take};
ghost use Rattle.scm_types.specs.declared.line.SectionChangedLine.{SectionChangedLine};
ghost use Rattle.scm_selection.specs.KeySet.{has_key, is_key};
ghost use Rattle.scm_selection.specs.KeyLists.{all_keys, file_key, files_keys, is_visible, line_keys, section_key, section_keys, sections_keys, visible_keys};
ghost use Rattle.scm_selection.specs.Moves.{inner_key, is_inside, is_same_kind, next_key, of_kind, previous_key};
ghost use Rattle.scm_selection.specs.KeysAround.{first_stop, is_editable_in, is_key_of, is_stop, keys_after, keys_after_file, keys_after_section, keys_before, keys_before_file, keys_before_section, last_stop, lines_at, lines_of, may_stop_inside, sections_at};

use crate::key_kinds::{has_inside, is_in_file, is_inside, is_same_kind};
use crate::key_lists::{file_key, line_key, section_key};
use crate::key_set::KeySet;
use scm_types::{File, Section, SelectionKey};

/// The kind of keys at which a move stops.
#[derive(Clone, Copy)]
pub enum Reach {
    /// Each visible key.
    Visible,
    /// The visible keys of the same kind as this key.
    SameKind(SelectionKey),
    /// Sections if this key is a file, lines if it is a section. They may be hidden.
    Inside(SelectionKey),
}

/// Returns whether `key` is visible if the keys of `expanded` are unfolded.
fn is_visible(expanded: &KeySet, key: SelectionKey) -> bool
    ensures { result ≡ is_visible (has_key expanded.now) key }
{
    match key {
        SelectionKey::None => false,
        SelectionKey::File(_) => true,
        SelectionKey::Section(key) => expanded.contains(SelectionKey::File(key.file())),
        SelectionKey::Line(key) => {
            expanded.contains(SelectionKey::File(key.file()))
                && expanded.contains(SelectionKey::Section(key.section()))
        }
    }
}

/// Returns whether a move stops at `key`.
fn is_stop(reach: Reach, expanded: &KeySet, key: SelectionKey) -> bool
    ensures { result ≡ is_stop reach (has_key expanded.now) key }
{
    match reach {
        Reach::Visible => is_visible(expanded, key),
        Reach::SameKind(selection) => { is_same_kind(selection, key) && is_visible(expanded, key) }
        Reach::Inside(selection) => is_inside(selection, key),
    }
}

/// Returns whether a move may stop at a section or a line of file `file`.
fn may_stop_inside(reach: Reach, expanded: &KeySet, file: usize) -> bool
    ensures { result ≡ may_stop_inside reach (has_key expanded.now) file }
{
    match reach {
        Reach::Visible => expanded.contains(file_key(file)),
        Reach::SameKind(selection) => is_in_file(selection) && expanded.contains(file_key(file)),
        Reach::Inside(selection) => has_inside(selection),
    }
}

/// Returns `key` if a move stops at it.
fn stop_at(reach: Reach, expanded: &KeySet, key: SelectionKey) -> Option<SelectionKey>
    ensures { result ≡ first_stop reach (has_key expanded.now) (key ∷ []) }
{
    if is_stop(reach, expanded, key) {
        Some(key)
    } else {
        None
    }
}

/// Returns the empty list of sections.
fn no_sections<'a, 'b>() -> &'a [Section<'b>]
    ensures { result.now ≡ [] }
{
    &[]
}

/// Returns the sections of file `file`, or none if there is no such file.
fn sections_at<'a, 'b>(files: &'a [File<'b>], file: usize) -> &'a [Section<'b>]
    ensures { result.now ≡ sections_at files.now file }
{
    match files.get(file) {
        None => no_sections(),
        Some(file) => file.sections.as_slice(),
    }
}

/// Returns the number of changed lines of `section`.
fn line_count(section: &Section<'_>) -> usize
    ensures { result ≡ length (lines_of section.now) }
{
    match section {
        Section::Changed { lines } => lines.as_slice().len(),
        Section::Unchanged { .. } | Section::FileMode { .. } | Section::Binary { .. } => 0,
    }
}

/// Returns the number of changed lines of section `section`, or 0 if there is no such section.
fn line_count_at(sections: &[Section<'_>], section: usize) -> usize
    ensures { result ≡ length (lines_at sections.now section) }
{
    match sections.get(section) {
        None => 0,
        Some(section) => line_count(section),
    }
}

/// Returns whether section `section` exists and is not context.
fn is_editable_at(sections: &[Section<'_>], section: usize) -> bool
    ensures { result ≡ is_editable_in (slice_get sections.now section) }
{
    match sections.get(section) {
        None => false,
        Some(section) => section.is_editable(),
    }
}

/// Returns whether `key` names a file, a section that is not context, or a changed line of `files`.
pub fn is_key_of(files: &[File<'_>], key: SelectionKey) -> bool
    ensures { result ≡ is_key_of files.now key }
{
    match key {
        SelectionKey::None => false,
        SelectionKey::File(key) => key.commit_idx == 0 && key.file_idx < files.len(),
        SelectionKey::Section(key) => {
            key.commit_idx == 0 && is_editable_at(sections_at(files, key.file_idx), key.section_idx)
        }
        SelectionKey::Line(key) => {
            key.commit_idx == 0
                && key.line_idx < line_count_at(sections_at(files, key.file_idx), key.section_idx)
        }
    }
}

/// Returns the first stop among lines `from..count` of a section.
fn first_of_lines(
    reach: Reach,
    expanded: &KeySet,
    file: usize,
    section: usize,
    from: usize,
    count: usize,
) -> Option<SelectionKey>
    ensures { (lines : List SectionChangedLine) → length lines ≡ count
        → result ≡ first_stop reach (has_key expanded.now)
        (line_keys file section from (drop from lines)) }
{
    if from < count {
        stop_at(reach, expanded, line_key(file, section, from))
    } else {
        None
    }
}

/// Returns the first stop among the keys of section `index`.
fn first_of_section(
    reach: Reach,
    expanded: &KeySet,
    file: usize,
    index: usize,
    section: &Section<'_>,
) -> Option<SelectionKey>
    ensures { result ≡ first_stop reach (has_key expanded.now)
        (section_keys file index section.now) }
{
    if !section.is_editable() {
        return None;
    }
    let found = stop_at(reach, expanded, section_key(file, index));
    if found.is_some() {
        return found;
    }
    first_of_lines(reach, expanded, file, index, 0, line_count(section))
}

/// Returns the first stop among the keys of sections `from..`. Reads no section where none can be a
/// stop.
fn first_of_sections(
    reach: Reach,
    expanded: &KeySet,
    file: usize,
    from: usize,
    sections: &[Section<'_>],
) -> Option<SelectionKey>
    ensures { result ≡ first_stop reach (has_key expanded.now)
        (sections_keys file from (drop from sections.now)) }
{
    if !may_stop_inside(reach, expanded, file) {
        return None;
    }
    for index in from..sections.len() {
        let found = first_of_section(reach, expanded, file, index, &sections[index]);
        if found.is_some() {
            return found;
        }
    }
    None
}

/// Returns the first stop among the keys of file `index`.
fn first_of_file(
    reach: Reach,
    expanded: &KeySet,
    index: usize,
    file: &File<'_>,
) -> Option<SelectionKey>
    ensures { result ≡ first_stop reach (has_key expanded.now)
        (file_key index ∷ sections_keys index 0 file.now.sections) }
{
    let found = stop_at(reach, expanded, file_key(index));
    if found.is_some() {
        return found;
    }
    first_of_sections(reach, expanded, index, 0, file.sections.as_slice())
}

/// Returns the first stop among the keys of files `from..`.
fn first_of_files(
    reach: Reach,
    expanded: &KeySet,
    from: usize,
    files: &[File<'_>],
) -> Option<SelectionKey>
    ensures { result ≡ first_stop reach (has_key expanded.now)
        (files_keys from (drop from files.now)) }
{
    for index in from..files.len() {
        let found = first_of_file(reach, expanded, index, &files[index]);
        if found.is_some() {
            return found;
        }
    }
    None
}

/// Returns the first stop after the keys of file `file`.
fn first_after_file(
    reach: Reach,
    expanded: &KeySet,
    files: &[File<'_>],
    file: usize,
) -> Option<SelectionKey>
    ensures { result ≡ first_stop reach (has_key expanded.now) (keys_after_file files.now file) }
{
    if file < files.len() {
        first_of_files(reach, expanded, file + 1, files)
    } else {
        None
    }
}

/// Returns the first stop among the keys of the sections after `section`.
fn first_of_later_sections(
    reach: Reach,
    expanded: &KeySet,
    file: usize,
    section: usize,
    sections: &[Section<'_>],
) -> Option<SelectionKey>
    ensures { result ≡ first_stop reach (has_key expanded.now)
        (sections_keys file (section + 1) (drop (section + 1) sections.now)) }
{
    if section < sections.len() {
        first_of_sections(reach, expanded, file, section + 1, sections)
    } else {
        None
    }
}

/// Returns the first stop after the keys of section `section`.
fn first_after_section(
    reach: Reach,
    expanded: &KeySet,
    files: &[File<'_>],
    file: usize,
    section: usize,
) -> Option<SelectionKey>
    ensures { result ≡ first_stop reach (has_key expanded.now)
        (keys_after_section files.now file section) }
{
    let sections = sections_at(files, file);
    let found = first_of_later_sections(reach, expanded, file, section, sections);
    if found.is_some() {
        return found;
    }
    first_after_file(reach, expanded, files, file)
}

/// Returns the first stop among the lines after `line`.
fn first_of_later_lines(
    reach: Reach,
    expanded: &KeySet,
    file: usize,
    section: usize,
    line: usize,
    count: usize,
) -> Option<SelectionKey>
    ensures { (lines : List SectionChangedLine) → length lines ≡ count
        → result ≡ first_stop reach (has_key expanded.now)
        (line_keys file section (line + 1) (drop (line + 1) lines)) }
{
    if line < count {
        first_of_lines(reach, expanded, file, section, line + 1, count)
    } else {
        None
    }
}

/// Returns the first stop after `key`.
fn first_after(
    reach: Reach,
    expanded: &KeySet,
    files: &[File<'_>],
    key: SelectionKey,
) -> Option<SelectionKey>
    ensures { result ≡ first_stop reach (has_key expanded.now) (keys_after files.now key) }
{
    match key {
        SelectionKey::None => None,
        SelectionKey::File(key) => {
            let file = key.file_idx;
            let found = first_of_sections(reach, expanded, file, 0, sections_at(files, file));
            if found.is_some() {
                return found;
            }
            first_after_file(reach, expanded, files, file)
        }
        SelectionKey::Section(key) => {
            let file = key.file_idx;
            let section = key.section_idx;
            let count = line_count_at(sections_at(files, file), section);
            let found = first_of_lines(reach, expanded, file, section, 0, count);
            if found.is_some() {
                return found;
            }
            first_after_section(reach, expanded, files, file, section)
        }
        SelectionKey::Line(key) => {
            let file = key.file_idx;
            let section = key.section_idx;
            let count = line_count_at(sections_at(files, file), section);
            let found = first_of_later_lines(reach, expanded, file, section, key.line_idx, count);
            if found.is_some() {
                return found;
            }
            first_after_section(reach, expanded, files, file, section)
        }
    }
}

/// Returns the last stop among lines `0..upto` of a section with `count` lines.
fn last_of_lines(
    reach: Reach,
    expanded: &KeySet,
    file: usize,
    section: usize,
    upto: usize,
    count: usize,
) -> Option<SelectionKey>
    ensures { (lines : List SectionChangedLine) → length lines ≡ count
        → result ≡ last_stop reach (has_key expanded.now)
        (line_keys file section 0 (take upto lines)) }
{
    let end = upto.min(count);
    if end == 0 {
        None
    } else {
        stop_at(reach, expanded, line_key(file, section, end - 1))
    }
}

/// Returns the last stop among the keys of section `index`.
fn last_of_section(
    reach: Reach,
    expanded: &KeySet,
    file: usize,
    index: usize,
    section: &Section<'_>,
) -> Option<SelectionKey>
    ensures { result ≡ last_stop reach (has_key expanded.now)
        (section_keys file index section.now) }
{
    if !section.is_editable() {
        return None;
    }
    let count = line_count(section);
    let found = last_of_lines(reach, expanded, file, index, count, count);
    if found.is_some() {
        return found;
    }
    stop_at(reach, expanded, section_key(file, index))
}

/// Returns the last stop among the keys of sections `0..upto`. Reads no section where none can be a
/// stop.
fn last_of_sections(
    reach: Reach,
    expanded: &KeySet,
    file: usize,
    upto: usize,
    sections: &[Section<'_>],
) -> Option<SelectionKey>
    ensures { result ≡ last_stop reach (has_key expanded.now)
        (sections_keys file 0 (take upto sections.now)) }
{
    if !may_stop_inside(reach, expanded, file) {
        return None;
    }
    let end = upto.min(sections.len());
    for step in 0..end {
        let index = end - 1 - step;
        let found = last_of_section(reach, expanded, file, index, &sections[index]);
        if found.is_some() {
            return found;
        }
    }
    None
}

/// Returns the last stop among the keys of file `index`.
fn last_of_file(
    reach: Reach,
    expanded: &KeySet,
    index: usize,
    file: &File<'_>,
) -> Option<SelectionKey>
    ensures { result ≡ last_stop reach (has_key expanded.now)
        (file_key index ∷ sections_keys index 0 file.now.sections) }
{
    let sections = file.sections.as_slice();
    let found = last_of_sections(reach, expanded, index, sections.len(), sections);
    if found.is_some() {
        return found;
    }
    stop_at(reach, expanded, file_key(index))
}

/// Returns the last stop among the keys of files `0..upto`.
fn last_of_files(
    reach: Reach,
    expanded: &KeySet,
    upto: usize,
    files: &[File<'_>],
) -> Option<SelectionKey>
    ensures { result ≡ last_stop reach (has_key expanded.now) (keys_before_file files.now upto) }
{
    let end = upto.min(files.len());
    for step in 0..end {
        let index = end - 1 - step;
        let found = last_of_file(reach, expanded, index, &files[index]);
        if found.is_some() {
            return found;
        }
    }
    None
}

/// Returns the last stop before the keys of section `section`.
fn last_before_section(
    reach: Reach,
    expanded: &KeySet,
    files: &[File<'_>],
    file: usize,
    section: usize,
) -> Option<SelectionKey>
    ensures { result ≡ last_stop reach (has_key expanded.now)
        (keys_before_section files.now file section) }
{
    let found = last_of_sections(reach, expanded, file, section, sections_at(files, file));
    if found.is_some() {
        return found;
    }
    let found = stop_at(reach, expanded, file_key(file));
    if found.is_some() {
        return found;
    }
    last_of_files(reach, expanded, file, files)
}

/// Returns the last stop before `key`.
fn last_before(
    reach: Reach,
    expanded: &KeySet,
    files: &[File<'_>],
    key: SelectionKey,
) -> Option<SelectionKey>
    ensures { result ≡ last_stop reach (has_key expanded.now) (keys_before files.now key) }
{
    match key {
        SelectionKey::None => None,
        SelectionKey::File(key) => last_of_files(reach, expanded, key.file_idx, files),
        SelectionKey::Section(key) => {
            last_before_section(reach, expanded, files, key.file_idx, key.section_idx)
        }
        SelectionKey::Line(key) => {
            let file = key.file_idx;
            let section = key.section_idx;
            let count = line_count_at(sections_at(files, file), section);
            let found = last_of_lines(reach, expanded, file, section, key.line_idx, count);
            if found.is_some() {
                return found;
            }
            let found = stop_at(reach, expanded, section_key(file, section));
            if found.is_some() {
                return found;
            }
            last_before_section(reach, expanded, files, file, section)
        }
    }
}

/// Returns whether `key` is one of the visible keys of `files`.
pub fn is_visible_key(expanded: &KeySet, files: &[File<'_>], key: SelectionKey) -> bool
    ensures { result
        ≡ is_some (position (is_key key) (visible_keys (has_key expanded.now) files.now)) }
{
    is_key_of(files, key) && is_visible(expanded, key)
}

/// Returns the visible key after `selection`, or `selection` if there is none.
/// Returns `otherwise` if `selection` is not a visible key.
pub fn next_visible(
    expanded: &KeySet,
    files: &[File<'_>],
    selection: SelectionKey,
    otherwise: SelectionKey,
) -> SelectionKey
    ensures { result
        ≡ next_key (visible_keys (has_key expanded.now) files.now) selection otherwise }
{
    if is_visible_key(expanded, files, selection) {
        first_after(Reach::Visible, expanded, files, selection).unwrap_or(selection)
    } else {
        otherwise
    }
}

/// Returns the visible key before `selection`, or `selection` if there is none.
/// Returns `otherwise` if `selection` is not a visible key.
pub fn previous_visible(
    expanded: &KeySet,
    files: &[File<'_>],
    selection: SelectionKey,
    otherwise: SelectionKey,
) -> SelectionKey
    ensures { result
        ≡ previous_key (visible_keys (has_key expanded.now) files.now) selection otherwise }
{
    if is_visible_key(expanded, files, selection) {
        last_before(Reach::Visible, expanded, files, selection).unwrap_or(selection)
    } else {
        otherwise
    }
}

/// Returns the visible key of the same kind after `selection`, or `selection` if there is none.
/// Returns `otherwise` if `selection` is not a visible key.
pub fn next_of_kind(
    expanded: &KeySet,
    files: &[File<'_>],
    selection: SelectionKey,
    otherwise: SelectionKey,
) -> SelectionKey
    ensures { result ≡ next_key
        (of_kind (visible_keys (has_key expanded.now) files.now) selection)
        selection otherwise }
{
    if is_visible_key(expanded, files, selection) {
        first_after(Reach::SameKind(selection), expanded, files, selection).unwrap_or(selection)
    } else {
        otherwise
    }
}

/// Returns the visible key of the same kind before `selection`, or `selection` if there is none.
/// Returns `otherwise` if `selection` is not a visible key.
pub fn previous_of_kind(
    expanded: &KeySet,
    files: &[File<'_>],
    selection: SelectionKey,
    otherwise: SelectionKey,
) -> SelectionKey
    ensures { result ≡ previous_key
        (of_kind (visible_keys (has_key expanded.now) files.now) selection)
        selection otherwise }
{
    if is_visible_key(expanded, files, selection) {
        last_before(Reach::SameKind(selection), expanded, files, selection).unwrap_or(selection)
    } else {
        otherwise
    }
}

/// Returns the first section after a selected file, or the first line after a selected section.
/// That key may be hidden. If there is none, returns `selection`.
pub fn first_inside(expanded: &KeySet, files: &[File<'_>], selection: SelectionKey) -> SelectionKey
    ensures { result ≡ inner_key (all_keys files.now) selection }
{
    if is_key_of(files, selection) {
        first_after(Reach::Inside(selection), expanded, files, selection).unwrap_or(selection)
    } else {
        selection
    }
}
