//! A search over the items of a state.
ghost use Rattle.std.specs.Prelude.{◌≡◌, fold, true, false, ◌&&◌};
ghost use Rattle.std.specs.List.{list_any};
ghost use Rattle.scm_front_items.specs.Occurs.{has_pattern, is_capital};
ghost use Rattle.scm_front_items.specs.Search.{
  found_after,
  file_index,
  file_items,
  is_above,
  is_equal,
  is_hit,
  is_less,
  is_towards,
  item,
  item_around,
  item_towards,
  line_index,
  line_items,
  other_end,
  section_index,
  section_items,
  sections_items,
};

use crate::occurs::{has_capital, has_pattern};
use scm_selection::key_lists::{file_key, line_key};
use scm_types::{File, Section, SectionChangedLine, SelectionKey};

/// The direction of a search.
#[derive(Clone, Copy, Debug, PartialEq, Eq)]
pub enum Way {
    /// Towards the first row of the document.
    Up,
    /// Towards the last row of the document.
    Down,
}

/// What is searched for, and from where.
#[derive(Clone, Copy)]
struct Quest<'a> {
    /// The direction of the search.
    way: Way,
    /// The pattern, in bytes of UTF-8.
    pattern: &'a [u8],
    /// Whether the pattern has a capital letter, so that case matters.
    is_exact: bool,
    /// The item where the search begins.
    selection: SelectionKey,
}

/// Returns the index of the file that `key` names or lies in.
pub(crate) fn file_index(key: SelectionKey) -> Option<usize>
    ensures { result ≡ file_index key }
{
    match key {
        SelectionKey::None => None,
        SelectionKey::File(key) => Some(key.file_idx),
        SelectionKey::Section(key) => Some(key.file_idx),
        SelectionKey::Line(key) => Some(key.file_idx),
    }
}

/// Returns the index of the section that `key` names or lies in.
fn section_index(key: SelectionKey) -> Option<usize>
    ensures { result ≡ section_index key }
{
    match key {
        SelectionKey::None | SelectionKey::File(_) => None,
        SelectionKey::Section(key) => Some(key.section_idx),
        SelectionKey::Line(key) => Some(key.section_idx),
    }
}

/// Returns the index of the line that `key` names.
fn line_index(key: SelectionKey) -> Option<usize>
    ensures { result ≡ line_index key }
{
    match key {
        SelectionKey::None | SelectionKey::File(_) | SelectionKey::Section(_) => None,
        SelectionKey::Line(key) => Some(key.line_idx),
    }
}

/// Returns whether `index` is less than `other`. No index is less than any.
fn is_less(index: Option<usize>, other: Option<usize>) -> bool
    ensures { result ≡ is_less index other }
{
    match (index, other) {
        (None, None) => false,
        (None, Some(_)) => true,
        (Some(_), None) => false,
        (Some(index), Some(other)) => index < other,
    }
}

/// Returns whether `index` and `other` are equal.
pub(crate) fn is_equal(index: Option<usize>, other: Option<usize>) -> bool
    ensures { result ≡ is_equal index other }
{
    match (index, other) {
        (None, None) => true,
        (None, Some(_)) => false,
        (Some(_), None) => false,
        (Some(index), Some(other)) => index == other,
    }
}

/// Returns whether `key` stands above `other` on the screen: before it, or around it.
pub(crate) fn is_above(key: SelectionKey, other: SelectionKey) -> bool
    ensures { result ≡ is_above key other }
{
    let in_line = is_less(line_index(key), line_index(other));
    let same_section = is_equal(section_index(key), section_index(other));
    let in_section = is_less(section_index(key), section_index(other));
    let same_file = is_equal(file_index(key), file_index(other));
    let in_file = is_less(file_index(key), file_index(other));
    // `&`, `|`: one branch for the prover
    in_file | (same_file & (in_section | (same_section & in_line)))
}

/// Returns whether `key` stands in direction `way` of `selection`.
pub fn is_towards(way: Way, selection: SelectionKey, key: SelectionKey) -> bool
    ensures { result ≡ is_towards way selection key }
{
    match way {
        Way::Down => is_above(selection, key),
        Way::Up => is_above(key, selection),
    }
}

/// Returns whether the search finds the item `key` with `text`.
fn is_hit(quest: &Quest<'_>, key: SelectionKey, text: &str) -> bool
    requires { quest.now.is_exact ≡ list_any is_capital quest.now.pattern.now }
    ensures { result
        ≡ is_hit quest.now.way quest.now.pattern.now quest.now.selection (item key text.now) }
{
    is_towards(quest.way, quest.selection, key)
        && has_pattern(quest.is_exact, quest.pattern, text.as_bytes())
}

/// Returns what is found after the item `key` with `text`, if `found` was found before it: downwards
/// the first, upwards the last. An item below a found one is not looked at.
fn found_after(
    quest: &Quest<'_>,
    found: Option<SelectionKey>,
    key: SelectionKey,
    text: &str,
) -> Option<SelectionKey>
    requires { quest.now.is_exact ≡ list_any is_capital quest.now.pattern.now }
    ensures { result ≡ found_after quest.now.way
        (is_hit quest.now.way quest.now.pattern.now quest.now.selection) found
        (item key text.now) }
{
    match (quest.way, found) {
        (Way::Down, Some(first)) => Some(first),
        (Way::Down, None) => {
            if is_hit(quest, key, text) {
                Some(key)
            } else {
                None
            }
        }
        (Way::Up, found) => {
            if is_hit(quest, key, text) {
                Some(key)
            } else {
                found
            }
        }
    }
}

/// Returns what is found after the lines of section `section`, if `found` was found before them.
fn after_lines(
    quest: &Quest<'_>,
    found: Option<SelectionKey>,
    file: usize,
    section: usize,
    lines: &[SectionChangedLine<'_>],
) -> Option<SelectionKey>
    requires { quest.now.is_exact ≡ list_any is_capital quest.now.pattern.now }
    ensures { result ≡ fold (found_after quest.now.way
        (is_hit quest.now.way quest.now.pattern.now quest.now.selection)) found
        (line_items file section 0 lines.now) }
{
    let mut nearest = found;
    for index in 0..lines.len() {
        let key = line_key(file, section, index);
        nearest = found_after(quest, nearest, key, lines[index].line.as_str());
    }
    nearest
}

/// Returns what is found after section `index`, if `found` was found before it.
fn after_section(
    quest: &Quest<'_>,
    found: Option<SelectionKey>,
    file: usize,
    index: usize,
    section: &Section<'_>,
) -> Option<SelectionKey>
    requires { quest.now.is_exact ≡ list_any is_capital quest.now.pattern.now }
    ensures { result ≡ fold (found_after quest.now.way
        (is_hit quest.now.way quest.now.pattern.now quest.now.selection)) found
        (section_items file index section.now) }
{
    match section {
        Section::Changed { lines } => after_lines(quest, found, file, index, lines.as_slice()),
        Section::Unchanged { .. } | Section::FileMode { .. } | Section::Binary { .. } => found,
    }
}

/// Returns what is found after the sections of file `file`, if `found` was found before them.
fn after_sections(
    quest: &Quest<'_>,
    found: Option<SelectionKey>,
    file: usize,
    sections: &[Section<'_>],
) -> Option<SelectionKey>
    requires { quest.now.is_exact ≡ list_any is_capital quest.now.pattern.now }
    ensures { result ≡ fold (found_after quest.now.way
        (is_hit quest.now.way quest.now.pattern.now quest.now.selection)) found
        (sections_items file 0 sections.now) }
{
    let mut nearest = found;
    for index in 0..sections.len() {
        nearest = after_section(quest, nearest, file, index, &sections[index]);
    }
    nearest
}

/// Returns what is found after file `index`, if `found` was found before it.
fn after_file(
    quest: &Quest<'_>,
    found: Option<SelectionKey>,
    index: usize,
    file: &File<'_>,
) -> Option<SelectionKey>
    requires { quest.now.is_exact ≡ list_any is_capital quest.now.pattern.now }
    ensures { result ≡ fold (found_after quest.now.way
        (is_hit quest.now.way quest.now.pattern.now quest.now.selection)) found
        (file_items index file.now) }
{
    let found = found_after(quest, found, file_key(index), file.path.as_str());
    after_sections(quest, found, index, file.sections.as_slice())
}

/// Returns what is found after all of `files`, if nothing was found before them.
fn after_files(quest: &Quest<'_>, files: &[File<'_>]) -> Option<SelectionKey>
    requires { quest.now.is_exact ≡ list_any is_capital quest.now.pattern.now }
    ensures { result ≡ item_towards quest.now.way quest.now.pattern.now files.now
        quest.now.selection }
{
    let mut nearest = None;
    for index in 0..files.len() {
        nearest = after_file(quest, nearest, index, &files[index]);
    }
    nearest
}

/// Returns the nearest item below `selection`, or above it, whose text has `pattern`: a file by its
/// path, or a changed line. Folded items count. Returns `None` if there is none.
///
/// Case matters only if `pattern` has a capital letter of ASCII. No text has the empty pattern.
pub fn item_towards(
    way: Way,
    pattern: &str,
    files: &[File<'_>],
    selection: SelectionKey,
) -> Option<SelectionKey>
    ensures { result ≡ item_towards way pattern.now files.now selection }
{
    let pattern = pattern.as_bytes();
    let quest = Quest {
        way,
        pattern,
        is_exact: has_capital(pattern),
        selection,
    };
    after_files(&quest, files)
}

/// Returns where a search in direction `way` goes on when it has come to the end of `files`.
fn other_end(way: Way, files: &[File<'_>]) -> SelectionKey
    ensures { result ≡ other_end way files.now }
{
    match way {
        Way::Down => SelectionKey::None,
        Way::Up => file_key(files.len()),
    }
}

/// Returns the item that [`item_towards`] returns. If there is none, the search goes on at the other end:
/// below the last item with the first, above the first with the last. So `None` says that no item has
/// `pattern`.
pub fn item_around(
    way: Way,
    pattern: &str,
    files: &[File<'_>],
    selection: SelectionKey,
) -> Option<SelectionKey>
    ensures { result ≡ item_around way pattern.now files.now selection }
{
    match item_towards(way, pattern, files, selection) {
        Some(key) => Some(key),
        None => item_towards(way, pattern, files, other_end(way, files)),
    }
}
