//! Tests of keys by their kind: file, section or line.
ghost use Rattle.std.specs.Prelude.{◌≡◌};
ghost use Rattle.scm_selection.specs.KeyLists.{is_file, is_line, is_section};
ghost use Rattle.scm_selection.specs.Moves.{has_inside, is_in_file, is_inside, is_same_kind};

use scm_types::SelectionKey;

/// Returns whether `key` is that of a file.
fn is_file(key: SelectionKey) -> bool
    ensures { result ≡ is_file key }
{
    match key {
        SelectionKey::File(_) => true,
        SelectionKey::None | SelectionKey::Section(_) | SelectionKey::Line(_) => false,
    }
}

/// Returns whether `key` is that of a section.
fn is_section(key: SelectionKey) -> bool
    ensures { result ≡ is_section key }
{
    match key {
        SelectionKey::Section(_) => true,
        SelectionKey::None | SelectionKey::File(_) | SelectionKey::Line(_) => false,
    }
}

/// Returns whether `key` is that of a line.
fn is_line(key: SelectionKey) -> bool
    ensures { result ≡ is_line key }
{
    match key {
        SelectionKey::Line(_) => true,
        SelectionKey::None | SelectionKey::File(_) | SelectionKey::Section(_) => false,
    }
}

/// Returns whether `key` is that of a section or a line.
pub(crate) fn is_in_file(key: SelectionKey) -> bool
    ensures { result ≡ is_in_file key }
{
    match key {
        SelectionKey::Section(_) | SelectionKey::Line(_) => true,
        SelectionKey::None | SelectionKey::File(_) => false,
    }
}

/// Returns whether `key` is that of a file or a section.
pub(crate) fn has_inside(key: SelectionKey) -> bool
    ensures { result ≡ has_inside key }
{
    match key {
        SelectionKey::File(_) | SelectionKey::Section(_) => true,
        SelectionKey::None | SelectionKey::Line(_) => false,
    }
}

/// Returns whether `key` is a section if `selection` is a file, or a line if it is a section.
/// It need not lie in `selection`.
pub fn is_inside(selection: SelectionKey, key: SelectionKey) -> bool
    ensures { result ≡ is_inside selection key }
{
    match selection {
        SelectionKey::File(_) => is_section(key),
        SelectionKey::Section(_) => is_line(key),
        SelectionKey::None | SelectionKey::Line(_) => false,
    }
}

/// Returns whether `selection` and `key` are both files, both sections or both lines.
pub fn is_same_kind(selection: SelectionKey, key: SelectionKey) -> bool
    ensures { result ≡ is_same_kind selection key }
{
    match selection {
        SelectionKey::None => false,
        SelectionKey::File(_) => is_file(key),
        SelectionKey::Section(_) => is_section(key),
        SelectionKey::Line(_) => is_line(key),
    }
}
