//! A law of files that a caller hands in as bytes, as the contract of a function that does nothing.
ghost use Rattle.scm_diff.specs.Files.{GivesBytesBack};
ghost use Rattle.scm_c_values.specs.Texts.{ShowsChange, bytes_in, given_change};

use scm_types::File;

/// Proves the promise from bytes to bytes: if `file` shows how the bytes `old` become the bytes `new`,
/// its sides are these bytes. A version that does not exist has no bytes.
pub fn added_bytes_come_back(
    path: &[u8],
    old_path: &[u8],
    old: &[u8],
    old_mode: usize,
    new: &[u8],
    new_mode: usize,
    file: &File<'_>,
)
    ensures { ShowsChange (given_change path.now old_path.now old.now old_mode new.now new_mode)
        file.now
        → GivesBytesBack (bytes_in old.now old_mode) (bytes_in new.now new_mode) file.now }
{}
