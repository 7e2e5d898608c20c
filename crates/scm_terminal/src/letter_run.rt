//! Letters that follow one another in one style: behind the first, each is written by its byte alone.
ghost use Rattle.std.specs.Prelude.{◌≤◌, IfOk, IfSome, length, string_bytes};
ghost use Rattle.scm_terminal.specs.LetterRun.{ArePushed, IsLetterHere};

use crate::pen::{Pass, Pen};
use crate::styled_cell::StyledCell;
use std::alloc::AllocError;

/// Returns the letter of `cell`, if `pass` writes it by its byte alone where `pen` is.
fn letter_here(pen: &Pen, cell: &StyledCell, pass: Pass) -> Option<u8>
    ensures { IfSome result (λ b. IsLetterHere pen.now pass cell.now b) }
{
    match pass {
        Pass::Blanks => None,
        Pass::Symbols => None,
        Pass::Letters => {
            if pen.writes(cell.style()) {
                cell.letter()
            } else {
                None
            }
        }
    }
}

/// Appends the bytes of the letters of `cells` from `from` on, as far as `pass` writes each by its byte alone
/// behind `pen`, and returns their end.
pub(crate) fn push_letters(
    text: &mut String,
    cells: &[StyledCell],
    from: usize,
    pen: &Pen,
    pass: Pass,
) -> Result<usize, AllocError>
    requires from { from ≤ length cells.now }
    ensures low { IfOk result (λ end. from ≤ end) }
    ensures high { IfOk result (λ end. end ≤ length cells.now) }
    ensures pushed { IfOk result (λ end. ArePushed pass pen.now cells.now from
        (string_bytes text.old) end (string_bytes text.new)) }
{
    let mut end = from;
    'letters: while end < cells.len() {
        match letter_here(pen, &cells[end], pass) {
            None => return Ok(end),
            Some(byte) => text.push(byte as char)?,
        }
        end += 1;
    }
    Ok(end)
}
