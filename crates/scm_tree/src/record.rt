//! A record of a path: four bytes that say which trees have it and what the marks ask for, and the path.

ghost use Rattle.std.specs.Prelude.{◌≡◌, ◌==◌, ◌||◌};
ghost use Rattle.std.specs.Option.{option_map};
ghost use Rattle.scm_tree.specs.Records.{ask_of, is_sound, record_of, seen_record, version_of, wanted_by};

use crate::Version;

/// What marks ask for at a path.
#[derive(Clone, Copy)]
pub(crate) enum Ask {
    /// The path is not shown: what is there stays.
    Keep,

    /// No file.
    Nothing,

    /// The version of the old tree.
    Old,

    /// The version of the new tree.
    New,

    /// A version that is chosen.
    Chosen,
}

/// A record of a path.
#[derive(Clone, Copy)]
pub(crate) struct Record<'a> {
    /// The path.
    pub(crate) path: &'a [u8],

    /// Whether the old tree has it.
    pub(crate) is_old: bool,

    /// Whether the new tree has it.
    pub(crate) is_new: bool,

    /// What the marks ask for there.
    pub(crate) ask: Ask,

    /// Whether it is the other path of the renamed file to which the record before belongs.
    pub(crate) is_second: bool,
}

/// Returns whether `byte` is one of two letters.
fn is_either(byte: u8, letter: u8, other: u8) -> bool
    ensures { result ≡ (byte == letter || byte == other) }
{
    (byte == letter) | (byte == other)
}

/// Returns what a byte asks for.
fn ask_of(byte: u8) -> Option<Ask>
    ensures { result ≡ ask_of byte }
{
    if byte == b'=' {
        Some(Ask::Keep)
    } else if byte == b'-' {
        Some(Ask::Nothing)
    } else if byte == b'o' {
        Some(Ask::Old)
    } else if byte == b'n' {
        Some(Ask::New)
    } else if byte == b'c' {
        Some(Ask::Chosen)
    } else {
        None
    }
}

/// Returns whether a record's bytes go together: a tree has the path, and the version that is asked for is there.
fn is_sound(row: &Record<'_>) -> bool
    ensures { result ≡ is_sound row.now.ask row.now.is_old row.now.is_new
        row.now.is_second }
{
    match row.ask {
        Ask::Keep => !row.is_second & (row.is_old | row.is_new),
        Ask::Old => row.is_old,
        Ask::New => row.is_new,
        Ask::Nothing | Ask::Chosen => row.is_old | row.is_new,
    }
}

/// Returns the record that `bytes` are, if they are one.
pub(crate) fn record_of<'a>(bytes: &'a [u8]) -> Option<Record<'a>>
    ensures { option_map seen_record result ≡ record_of bytes.now }
{
    let [old, new, ask, begin, path @ ..] = bytes else {
        return None;
    };
    let Some(ask) = ask_of(*ask) else {
        return None;
    };
    let is_readable = is_either(*old, b'o', b'-')
        & is_either(*new, b'n', b'-')
        & is_either(*begin, b' ', b'+');
    let record = Record {
        path,
        is_old: *old == b'o',
        is_new: *new == b'n',
        ask,
        is_second: *begin != b' ',
    };
    if is_readable & is_sound(&record) {
        Some(record)
    } else {
        None
    }
}

/// The version of the old tree, as a number of contents.
pub(crate) const OLD: usize = 0;

/// The version of the new tree.
pub(crate) const NEW: usize = 1;

/// A version that is chosen.
const CHOSEN: usize = 2;

/// Returns the version with this number.
pub(crate) fn version_of(contents: usize) -> Version
    ensures { result ≡ version_of contents }
{
    Version { mode: 0, contents }
}

/// Returns the version that marks ask for.
pub(crate) fn asked_version(ask: Ask) -> Option<Version>
    ensures { result ≡ wanted_by ask }
{
    match ask {
        Ask::Keep | Ask::Nothing => None,
        Ask::Old => Some(version_of(OLD)),
        Ask::New => Some(version_of(NEW)),
        Ask::Chosen => Some(version_of(CHOSEN)),
    }
}
