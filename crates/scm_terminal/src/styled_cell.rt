//! One column of a row of a painter's last picture.
ghost use Rattle.std.specs.Prelude.{◌≡◌, ◌↔◌, ◌∷◌, [], IsTrue, IfSome, OnOk, option_map};
ghost use Rattle.std.specs.Int.{is_in_range};
ghost use Rattle.scm_terminal.specs.CellText.{letter_in, symbol_of_text};
ghost use Rattle.scm_terminal.specs.Letters.{HasAscii, ShowsByte, ShowsLetter};
ghost use Rattle.scm_terminal.specs.StyledCell.{First, Later, cell_of, letter_of, symbol_of_cell};

use crate::cell_text::CellText;
use crate::numbered_style::NumberedStyle;
use std::alloc::{AllocError, Global};
use std::marker::Model;

/// The content of one column: the first column of a symbol in a style, or a later column of one.
#[derive(Drop)]
pub(crate) struct StyledCell {
    /// The symbol's byte if it is one printable character of ASCII. The symbol and whether it
    /// begins here count only if this is no such character.
    byte: u8,

    /// Whether a symbol begins here.
    is_first: bool,

    /// The style of the symbol that begins here.
    style: NumberedStyle,

    /// The symbol that begins here, or an empty text.
    symbol: String,
}

impl Model for StyledCell {
    ghost use Rattle.scm_terminal.specs.StyledCell.{StyledCell as Content};

    ghost Value = { Content };

    ghost use Rattle.scm_terminal.specs.StyledCellView.{shown_cell};

    ghost view = { shown_cell };
}

/// Returns whether `byte` is a printable character of ASCII.
fn is_printable(byte: u8) -> bool
    ensures { result ≡ is_in_range 0x20 0x7E byte }
{
    0x20 <= byte && byte <= 0x7E
}

/// Returns the byte of `symbol` if it has one byte, and otherwise 0.
fn letter_of(symbol: &str) -> u8
    ensures { result ≡ letter_of symbol.now }
{
    if symbol.len() == 1 {
        symbol.as_bytes()[0]
    } else {
        0
    }
}

impl StyledCell {
    /// Makes a cell where no symbol begins.
    pub(crate) fn new(alloc: Global) -> StyledCell
        ensures { result ≡ Later }
    {
        StyledCell {
            byte: 0,
            is_first: false,
            style: NumberedStyle::plain(),
            symbol: String::new(alloc),
        }
    }

    /// Returns the text of the column.
    pub(crate) fn text(&self) -> CellText<'_>
        ensures symbol { symbol_of_text result ≡ symbol_of_cell self.now }
        ensures ascii { HasAscii (letter_in result) }
    {
        if is_printable(self.byte) {
            CellText::Letter(self.byte)
        } else if self.is_first {
            CellText::Symbol(self.symbol.as_str())
        } else {
            CellText::Nothing
        }
    }

    /// Returns the style of the symbol that begins here.
    pub(crate) fn style(&self) -> NumberedStyle
        ensures { self.now ≡ cell_of (symbol_of_cell self.now) result }
    {
        self.style
    }

    /// Returns whether the cell is known to show a symbol of one byte, without a look at its text.
    pub(crate) fn is_byte(&self) -> bool
        ensures { IsTrue result → ShowsByte self.now }
    {
        is_printable(self.byte)
    }

    /// Returns the printable character that the cell is known to show without a look at its text.
    pub(crate) fn letter(&self) -> Option<u8>
        ensures { IfSome result (λ b. ShowsLetter self.now b) }
    {
        if is_printable(self.byte) {
            Some(self.byte)
        } else {
            None
        }
    }

    /// Returns whether the cell is known to show the printable character `byte` in `style`, without a
    /// look at its text.
    pub(crate) fn is_same_byte(&self, byte: u8, style: NumberedStyle) -> bool
        requires { IsTrue (is_in_range 0x20 0x7E byte) }
        ensures { IsTrue result → self.now ≡ First (byte ∷ []) style }
    {
        let same_byte = self.byte == byte;
        let same_style = self.style.code() == style.code();
        // `&`: one branch for the prover
        same_byte & same_style
    }

    /// Returns whether the cell shows the printable character `byte` in `style`.
    pub(crate) fn is_letter(&self, byte: u8, style: NumberedStyle) -> bool
        requires { IsTrue (is_in_range 0x20 0x7E byte) }
        ensures { IsTrue result ↔ (self.now ≡ First (byte ∷ []) style) }
    {
        let has_style = self.style.code() == style.code();
        if is_printable(self.byte) {
            let is_text = self.byte == byte;
            // `&`: one branch for the prover
            return is_text & has_style;
        }
        let is_text = letter_of(self.symbol.as_str()) == byte;
        self.is_first & is_text & has_style
    }

    /// Returns whether the cell shows `symbol` in `style`, or a later column if `symbol` is
    /// `None`.
    pub(crate) fn is_showing(&self, symbol: Option<&str>, style: NumberedStyle) -> bool
        ensures { IsTrue result
            ↔ (self.now ≡ cell_of (option_map (λ s. s.now) symbol.entry) style) }
    {
        match symbol {
            None => !is_printable(self.byte) && !self.is_first,
            Some(symbol) => {
                let is_style = self.style.code() == style.code();
                if is_printable(self.byte) {
                    let is_text = letter_of(symbol) == self.byte;
                    // `&`: one branch for the prover
                    return is_text & is_style;
                }
                let is_text = self.symbol.as_str() == symbol;
                self.is_first & is_text & is_style
            }
        }
    }

    /// Sets the cell to the printable character `byte` in `style`. Keeps the memory of its symbol.
    pub(crate) fn show_letter(&mut self, byte: u8, style: NumberedStyle)
        requires { IsTrue (is_in_range 0x20 0x7E byte) }
        ensures { self.new ≡ First (byte ∷ []) style }
    {
        self.byte = byte;
        self.style = style;
    }

    /// Sets the cell to `symbol` in `style`, or to a later column if `symbol` is `None`.
    pub(crate) fn show(
        &mut self,
        symbol: Option<&str>,
        style: NumberedStyle,
    ) -> Result<(), AllocError>
        ensures { OnOk result (self.new ≡ cell_of (option_map (λ s. s.now) symbol.entry) style) }
    {
        self.byte = 0;
        self.is_first = symbol.is_some();
        self.style = style;
        self.symbol.clear();
        self.symbol.push_str(symbol.unwrap_or(""))?;
        Ok(())
    }
}
