//! One column of a row.
ghost use Rattle.std.specs.Prelude.{◌≡◌, ◌-◌, ◌^◌, ◌<◌, ◌∷◌, [], IsTrue, OnOk, length, option_map, slice_index_or};
ghost use Rattle.std.specs.Int.{is_in_range};
ghost use Rattle.scm_cells.specs.Cell.{blank, byte_cell, char_cell, single_byte, ascii_of, drawn_text};
ghost use Rattle.scm_cells.specs.Cluster.{is_printable};
ghost use Rattle.scm_cells.specs.FrameText.{is_frame_char};
ghost use Rattle.scm_cells.specs.Symbols.{symbol_of};

use std::alloc::{AllocError, Global};
use std::marker::Model;

/// The printable characters of ASCII, in order.
const PRINTABLE: &str = " !\"#$%&'()*+,-./0123456789:;<=>?@ABCDEFGHIJKLMNOPQRSTUVWXYZ[\\]^_`\
    abcdefghijklmnopqrstuvwxyz{|}~";

/// Returns whether the code is that of a printable character of ASCII.
fn is_printable_code(code: u32) -> bool
    ensures { result ≡ is_in_range 0x20 0x7E code }
{
    0x20 <= code && code <= 0x7E
}

/// Returns the character at `index` of a printable text.
fn character_at(text: &str, index: usize) -> &str
    requires printable { IsTrue (is_printable text.now) }
    requires index { index < length text.now }
    ensures { result.now ≡ slice_index_or text.now index 0 ∷ [] }
{
    &text[index..index + 1]
}

/// Returns the text of a printable character of ASCII.
fn printable_text(code: u32) -> &'static str
    requires { IsTrue (is_in_range 0x20 0x7E code) }
    ensures { result.now ≡ code ∷ [] }
{
    character_at(PRINTABLE, (code - 0x20) as usize)
}

/// Returns the text of an edge or corner of a frame, or of a mark. Returns `None` for any other
/// character.
fn drawn_text(code: u32) -> Option<&'static str>
    ensures { option_map (λ s. s.now) result ≡ drawn_text code }
{
    match code {
        0x2500 => Some("─"),
        0x2502 => Some("│"),
        0x250C => Some("┌"),
        0x2510 => Some("┐"),
        0x2514 => Some("└"),
        0x2518 => Some("┘"),
        0xB1 => Some("±"),
        0x2022 => Some("•"),
        0x2026 => Some("…"),
        0x2190 => Some("←"),
        0x2191 => Some("↑"),
        0x2192 => Some("→"),
        0x2193 => Some("↓"),
        0x22EE => Some("⋮"),
        0x23CE => Some("⏎"),
        0x25CF => Some("●"),
        0x25D0 => Some("◐"),
        0xFFFD => Some("\u{FFFD}"),
        _ => None,
    }
}

/// Returns the byte of a text that is one printable character of ASCII.
fn single_byte(text: &str) -> Option<u8>
    ensures { result ≡ single_byte text.now }
{
    let bytes = text.as_bytes();
    if bytes.len() == 1 && is_printable_code(bytes[0] as u32) {
        Some(bytes[0])
    } else {
        None
    }
}

/// A column of a symbol, at its offset from the symbol's first column.
#[derive(Drop)]
pub struct Column {
    /// The symbol's character if that is one character of a frame text, else 0. The other fields
    /// count only if this is no printable character of ASCII.
    code: u32,

    /// The width of the symbol, in columns.
    width: u16,

    /// The number of its columns before this one.
    offset: u16,

    /// The symbol that begins here, or empty. It counts only if `code` is 0.
    symbol: String,
}

impl Model for Column {
    ghost use Rattle.scm_cells.specs.Cell.{Cell, cell_of};

    ghost Value = { Cell };

    ghost view = { cell_of };
}

impl Column {
    /// Returns a space.
    pub(crate) fn blank(alloc: Global) -> Column
        ensures { result ≡ blank }
    {
        Column {
            code: 0x20,
            width: 1,
            offset: 0,
            symbol: String::new(alloc),
        }
    }

    /// Makes the column a space. Keeps the memory of its symbol.
    pub(crate) fn clear(&mut self)
        ensures { self.new ≡ blank }
    {
        self.code = 0x20;
    }

    /// Makes the column a symbol of one byte. Keeps the memory of its symbol.
    pub(crate) fn set_byte(&mut self, byte: u8)
        requires { IsTrue (is_in_range 0x20 0x7E byte) }
        ensures { self.new ≡ byte_cell byte }
    {
        self.code = byte as u32;
    }

    /// Makes the column a symbol of one character of a frame text. Keeps the memory of its symbol.
    pub(crate) fn set_character(&mut self, character: char)
        requires { IsTrue (is_frame_char character) }
        ensures { self.new ≡ char_cell character }
    {
        self.code = character as u32;
        self.width = 1;
        self.offset = 0;
    }

    /// Makes the column the first of a symbol of `width` columns. Allocates only if the symbol is
    /// longer than what the column's memory has room for.
    pub(crate) fn set_first(&mut self, symbol: &str, width: usize) -> Result<(), AllocError>
        requires { width < 2 ^ 16 }
        ensures { OnOk result (
            self.new ≡ record { symbol = symbol.now; width = width; offset = 0 }) }
    {
        if width == 1 {
            if let Some(byte) = single_byte(symbol) {
                self.code = byte as u32;
                return Ok(());
            }
        }
        self.symbol.clear();
        self.symbol.push_str(symbol)?;
        self.code = 0;
        self.width = width as u16;
        self.offset = 0;
        Ok(())
    }

    /// Makes the column a later one of a symbol of `width` columns, `offset` columns after its
    /// first. Keeps the memory of its symbol.
    pub(crate) fn set_later(&mut self, width: usize, offset: usize)
        requires width { width < 2 ^ 16 }
        requires offset { offset < 2 ^ 16 }
        ensures { self.new ≡ record { symbol = []; width = width; offset = offset } }
    {
        self.symbol.clear();
        self.code = 0;
        self.width = width as u16;
        self.offset = offset as u16;
    }

    /// Returns the symbol, or the empty text at a later column of one.
    pub fn symbol(&self) -> &str
        ensures { result.now ≡ self.now.symbol }
    {
        if is_printable_code(self.code) {
            return printable_text(self.code);
        }
        match drawn_text(self.code) {
            Some(text) => text,
            None => self.symbol.as_str(),
        }
    }

    /// Returns the byte of the symbol if that is one printable character of ASCII, from a space to
    /// a tilde, in one column.
    pub fn ascii(&self) -> Option<u8>
        ensures { result ≡ ascii_of self.now }
    {
        if is_printable_code(self.code) {
            Some(self.code as u8)
        } else if self.width == 1 && self.offset == 0 {
            single_byte(self.symbol())
        } else {
            None
        }
    }

    /// Returns the symbol that begins here, if one does.
    pub(crate) fn first_symbol(&self) -> Option<&str>
        ensures { option_map (λ s. s.now) result ≡ symbol_of self.now }
    {
        if self.offset() == 0 {
            Some(self.symbol())
        } else {
            None
        }
    }

    /// Returns the number of columns from this one to the end of its symbol.
    pub(crate) fn columns_left(&self) -> usize
        ensures { result ≡ self.now.width - self.now.offset }
    {
        if is_printable_code(self.code) {
            1
        } else {
            self.width.saturating_sub(self.offset) as usize
        }
    }

    /// Returns the number of columns of the symbol before this one.
    pub(crate) fn offset(&self) -> usize
        ensures { result ≡ self.now.offset }
    {
        if is_printable_code(self.code) {
            0
        } else {
            self.offset as usize
        }
    }
}
