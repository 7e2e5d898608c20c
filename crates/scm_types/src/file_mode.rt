//! The mode of a file: absent, or the bits of Unix.
ghost use Rattle.std.specs.Prelude.{◌≡◌, ◌≤ℤ◌, pos, unsigned_abs, Some, Ok};
ghost use Rattle.std.specs.Result.{OkIff};
ghost use Rattle.scm_types.specs.declared.file_mode.FileMode.TheVariants.{Unix};
ghost use Rattle.scm_types.specs.Mode.{is_absent, mode_text};

use serde::{Deserialize, Serialize};
use std::fmt;
use std::num::TryFromIntError;

/// The mode of a file.
#[derive(Clone, Copy, Debug, PartialEq, Eq, PartialOrd, Ord, Hash, Serialize, Deserialize)]
pub enum FileMode {
    /// The file exists, with these bits of Unix.
    Unix(usize),

    /// The file does not exist.
    Absent,
}

impl FileMode {
    /// The usual mode of a file: its owner can read and write it, all others can read it.
    pub const FILE_DEFAULT: FileMode = FileMode::Unix(0o100644);

    /// Returns whether the file does not exist.
    pub fn is_absent(self) -> bool
        ensures { result ≡ is_absent self }
    {
        match self {
            FileMode::Unix(_) => false,
            FileMode::Absent => true,
        }
    }
}

/// Prints the octal digits of the mode, or `<absent>`.
impl fmt::Display for FileMode {
    ghost output = { λ mode. Some (mode_text mode) };

    fn fmt<W: fmt::Write>(&self, f: &mut fmt::Formatter<W>) -> fmt::Result {
        match self {
            FileMode::Unix(mode) => write!(f, "{mode:o}"),
            FileMode::Absent => write!(f, "<absent>"),
        }
    }
}

impl From<usize> for FileMode {
    ghost from_gives = { λ bits mode. mode ≡ Unix bits };

    fn from(bits: usize) -> FileMode {
        FileMode::Unix(bits)
    }
}

/// Converts bits of Unix. It always succeeds.
impl TryFrom<u32> for FileMode {
    type Error = TryFromIntError;

    ghost try_from_gives = { λ bits mode. mode ≡ Ok (Unix bits) };

    fn try_from(bits: u32) -> Result<FileMode, TryFromIntError> {
        Ok(FileMode::Unix(bits as usize))
    }
}

/// Converts bits of Unix. It fails exactly for negative numbers.
impl TryFrom<i32> for FileMode {
    type Error = TryFromIntError;

    ghost try_from_gives = { λ bits mode. OkIff mode (pos 0 ≤ℤ bits) (Unix (unsigned_abs bits)) };

    fn try_from(bits: i32) -> Result<FileMode, TryFromIntError> {
        Ok(FileMode::Unix(usize::try_from(bits)?))
    }
}
