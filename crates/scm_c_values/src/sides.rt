//! One side of a file, as a C program reads it.
ghost use Rattle.std.specs.Prelude.{◌≡◌, ◌<◌, IfSome, Some, true};
ghost use Rattle.scm_types.specs.Split.{side_of};
ghost use Rattle.scm_c_values.specs.Codes.{IsCode};
ghost use Rattle.scm_c_values.specs.Buffers.{over};
ghost use Rattle.scm_c_values.specs.States.{TellsSide, bits_of_mode, bytes_of_contents, code_of_contents, told_of_side};

use crate::buffers::write_text;
use crate::codes;
use scm_types::{File, FileMode, SelectedChanges, SelectedContents};
use std::alloc::Global;

/// One side of a file.
#[repr(C)]
#[derive(Clone, Copy)]
pub struct Side {
    /// The kind of the contents: `SIDE_UNCHANGED`, `SIDE_TEXT` or `SIDE_BINARY`.
    pub contents: u32,
    /// The bits of the mode. `usize::MAX` is no file.
    pub mode: usize,
    /// The number of bytes of the contents.
    pub len: usize,
}

/// Returns the code of the kind of `contents`.
fn contents_code(contents: &SelectedContents<'_>) -> u32
    ensures { result ≡ code_of_contents contents.now }
{
    match contents {
        SelectedContents::Unchanged => codes::SIDE_UNCHANGED,
        SelectedContents::Binary { .. } => codes::SIDE_BINARY,
        SelectedContents::Text { .. } => codes::SIDE_TEXT,
    }
}

/// Returns the bytes of `contents`: its text, or none.
fn contents_bytes<'s>(contents: &'s SelectedContents<'_>) -> &'s [u8]
    ensures { result.now ≡ bytes_of_contents contents.now }
{
    match contents {
        SelectedContents::Text { contents } => contents.as_str().as_bytes(),
        SelectedContents::Unchanged | SelectedContents::Binary { .. } => &[],
    }
}

/// Returns the bits of `mode`. `usize::MAX` is no file.
fn mode_bits(mode: FileMode) -> usize
    ensures { result ≡ bits_of_mode mode }
{
    match mode {
        FileMode::Unix(bits) => bits,
        FileMode::Absent => usize::MAX,
    }
}

/// Writes the bytes of `side` to `out`, clipped to its length. Returns what there is to tell.
fn write_side(side: &SelectedChanges<'_>, out: &mut [u8]) -> Side
    ensures told { result ≡ told_of_side side.now }
    ensures written { out.new ≡ over (bytes_of_contents side.now.contents) out.old }
{
    let contents = contents_code(&side.contents);
    let mode = mode_bits(side.file_mode);
    let len = write_text(contents_bytes(&side.contents), out);
    Side {
        contents,
        mode,
        len,
    }
}

/// Returns the selected side of `file` if `selected`, or the other side. Returns `None` if an
/// allocation failed.
fn side_of<'s>(
    alloc: Global,
    file: &'s File<'static>,
    selected: bool,
) -> Option<SelectedChanges<'s>>
    ensures { IfSome result (λ side. side ≡ side_of selected file.now) }
{
    match file.get_selected_contents(alloc) {
        Ok((chosen, other)) => { if selected { Some(chosen) } else { Some(other) } }
        Err(_) => None,
    }
}

/// Writes the bytes of a side of `file` to `out`, clipped to its length, and what there is to tell
/// to `told`. Returns the code of the call.
pub fn tell_side(
    alloc: Global,
    file: &File<'static>,
    selected: bool,
    out: &mut [u8],
    told: &mut Side,
) -> u32
    ensures code { IsCode true 0 result }
    ensures told { result ≡ 0
        → TellsSide (Some (side_of selected file.now)) out.old out.new told.new }
    ensures unwritten { 0 < result → (out.new ≡ out.old) × (told.new ≡ told.old) }
{
    match side_of(alloc, file, selected) {
        Some(side) => {
            *told = write_side(&side, out);
            codes::DONE
        }
        None => codes::NO_MEMORY,
    }
}
