//! The pen: the cursor and the style of the terminal while a row is written, as far as known.
ghost use Rattle.std.specs.Prelude.{◌≡◌, ◌&&◌, ◌<◌, ◌^◌, ◌∷◌, [], ◌++◌, IfOk, OnOk, option_map, string_bytes};
ghost use Rattle.std.specs.List.{flat_map};
ghost use Rattle.scm_terminal.specs.Painting.{
  is_style_set,
  move_commands,
  style_commands,
  new_pen,
  pen_after,
  cell_commands,
  passed,
};
ghost use Rattle.scm_terminal.specs.Letters.{HasAscii};
ghost use Rattle.scm_terminal.specs.Sent.{cell_sent};
ghost use Rattle.scm_terminal.specs.StyledCell.{First, Later, cell_of};
ghost use Rattle.scm_terminal.specs.Terminal.{bytes_of};

use crate::numbered_style::NumberedStyle;
use crate::sent::Sent;
use crate::style::push_style;
use std::alloc::AllocError;

/// A pass over the cells of a row: which columns it writes.
#[derive(Clone, Copy)]
pub(crate) enum Pass {
    /// A space at each later column of a symbol, and at symbols of several bytes between them.
    Blanks,
    /// The symbols of several bytes.
    Symbols,
    /// The symbols of one byte.
    Letters,
}

/// The cursor and the style of the terminal before a cell is written, as far as known.
#[derive(Clone, Copy)]
pub(crate) struct Pen {
    /// Whether the cursor is known to be at that cell.
    is_there: bool,

    /// The style in which the terminal writes, if known.
    style: Option<NumberedStyle>,
}

/// Returns whether `style` is `set`, the terminal's current style, if known.
fn is_style_set(set: Option<NumberedStyle>, style: NumberedStyle) -> bool
    ensures { result ≡ is_style_set set style }
{
    match set {
        None => false,
        Some(set) => set.code() == style.code(),
    }
}

/// Unless `is_there`, appends the bytes that move the cursor to `row` and `column`, both counted
/// from 0.
#[tactic(auto, unfolding(crate::specs::Terminal::bytes_of))]
fn push_move(text: &mut String, is_there: bool, row: usize, column: usize) -> Result<(), AllocError>
    requires row { row < 2 ^ 16 }
    requires column { column < 2 ^ 16 }
    ensures { let commands = move_commands is_there row column in
        OnOk result (string_bytes text.new ≡ string_bytes text.old ++ flat_map bytes_of commands) }
{
    if is_there {
        return Ok(());
    }
    let row = row + 1;
    let column = column + 1;
    write!(text, "\x1b[{row};{column}H")?;
    Ok(())
}

/// Unless `set` is `style`, appends the bytes that set `style`.
#[tactic(auto, unfolding(crate::specs::Terminal::bytes_of))]
fn push_set(
    text: &mut String,
    set: Option<NumberedStyle>,
    style: NumberedStyle,
) -> Result<(), AllocError>
    ensures { let commands = style_commands set style in
        OnOk result (string_bytes text.new ≡ string_bytes text.old ++ flat_map bytes_of commands) }
{
    if is_style_set(set, style) {
        return Ok(());
    }
    push_style(text, style.style())?;
    Ok(())
}

impl Pen {
    /// Makes the pen at the beginning of a row: nothing is known.
    pub(crate) fn new() -> Pen
        ensures { result ≡ new_pen }
    {
        Pen {
            is_there: false,
            style: None,
        }
    }

    /// Appends the bytes that write what `pass` puts of `sent`, which is at `row` and `column`,
    /// both counted from 0. Returns the pen after it.
    #[tactic(auto, unfolding(crate::specs::Terminal::bytes_of))]
    pub(crate) fn push_cell(
        self,
        text: &mut String,
        row: usize,
        column: usize,
        sent: Sent<'_>,
        pass: Pass,
    ) -> Result<Pen, AllocError>
        requires row { row < 2 ^ 16 }
        requires column { column < 2 ^ 16 }
        requires ascii { HasAscii sent.letter }
        ensures pen { IfOk result
            (λ p. p ≡ pen_after self (passed pass self.is_there (cell_sent sent.entry))) }
        ensures bytes { let put = passed pass self.is_there (cell_sent sent.entry) in
            let commands = cell_commands row column self put 0 in OnOk result
            (string_bytes text.new ≡ string_bytes text.old ++ flat_map bytes_of commands) }
    {
        match sent.letter {
            Some(byte) => self.push_byte(text, row, column, byte, sent.style, pass),
            None => self.push_text(text, row, column, sent.symbol, sent.style, pass),
        }
    }

    /// Appends the bytes that write what `pass` puts of the character `byte` of ASCII in `style`,
    /// which is at `row` and `column`, both counted from 0. Returns the pen after it.
    pub(crate) fn push_byte(
        self,
        text: &mut String,
        row: usize,
        column: usize,
        byte: u8,
        style: NumberedStyle,
        pass: Pass,
    ) -> Result<Pen, AllocError>
        requires row { row < 2 ^ 16 }
        requires column { column < 2 ^ 16 }
        requires ascii { byte < 128 }
        ensures pen { IfOk result
            (λ p. p ≡ pen_after self (passed pass self.is_there (First (byte ∷ []) style))) }
        ensures bytes { let put = passed pass self.is_there (First (byte ∷ []) style) in
            let commands = cell_commands row column self put 0 in OnOk result
            (string_bytes text.new ≡ string_bytes text.old ++ flat_map bytes_of commands) }
    {
        match pass {
            Pass::Blanks => Ok(self.past()),
            Pass::Symbols => Ok(self.past()),
            Pass::Letters => self.push_letter(text, row, column, byte, style),
        }
    }

    /// Appends the bytes that write what `pass` puts of `symbol` in `style`, which is at `row` and
    /// `column`, both counted from 0. Returns the pen after it.
    #[tactic(auto, unfolding(crate::specs::Terminal::bytes_of))]
    fn push_text(
        self,
        text: &mut String,
        row: usize,
        column: usize,
        symbol: Option<&str>,
        style: NumberedStyle,
        pass: Pass,
    ) -> Result<Pen, AllocError>
        requires row { row < 2 ^ 16 }
        requires column { column < 2 ^ 16 }
        ensures pen { let cell = cell_of (option_map (λ s. s.now) symbol.entry) style in IfOk result
            (λ p. p ≡ pen_after self (passed pass self.is_there cell)) }
        ensures bytes { let cell = cell_of (option_map (λ s. s.now) symbol.entry) style in
            let commands = cell_commands row column self (passed pass self.is_there cell) 0 in
            OnOk result
            (string_bytes text.new ≡ string_bytes text.old ++ flat_map bytes_of commands) }
    {
        match pass {
            Pass::Blanks => match symbol {
                None => self.push_letter(text, row, column, b' ', NumberedStyle::plain()),
                Some(symbol) => {
                    // `&`: one branch for the prover
                    let is_next = self.is_there & (symbol.len() != 1);
                    if is_next {
                        return self.push_letter(text, row, column, b' ', NumberedStyle::plain());
                    }
                    Ok(self.past())
                }
            },
            Pass::Symbols => match symbol {
                None => Ok(self.past()),
                Some(symbol) => {
                    if symbol.len() == 1 {
                        return Ok(self.past());
                    }
                    self.push_symbol(text, row, column, symbol, style)
                }
            },
            Pass::Letters => match symbol {
                None => Ok(self.past()),
                Some(symbol) => {
                    if symbol.len() == 1 {
                        return self.push_symbol(text, row, column, symbol, style);
                    }
                    Ok(self.past())
                }
            },
        }
    }

    /// Returns whether the terminal writes at the pen's cell in `style` as it is.
    pub(crate) fn writes(&self, style: NumberedStyle) -> bool
        ensures { result ≡ (self.now.is_there && is_style_set self.now.style style) }
    {
        // `&`: one branch for the prover
        self.is_there & is_style_set(self.style, style)
    }

    /// Returns the pen after a cell where nothing is put.
    pub(crate) fn past(self) -> Pen
        ensures { result ≡ pen_after self Later }
    {
        Pen {
            is_there: false,
            style: self.style,
        }
    }

    /// Appends the bytes that put the character `byte` of ASCII in `style` at `row` and `column`,
    /// both counted from 0. Returns the pen after it.
    #[tactic(auto, unfolding(crate::specs::Terminal::bytes_of))]
    fn push_letter(
        self,
        text: &mut String,
        row: usize,
        column: usize,
        byte: u8,
        style: NumberedStyle,
    ) -> Result<Pen, AllocError>
        requires row { row < 2 ^ 16 }
        requires column { column < 2 ^ 16 }
        requires ascii { byte < 128 }
        ensures pen { IfOk result (λ p. p ≡ pen_after self (First (byte ∷ []) style)) }
        ensures bytes { let commands = cell_commands row column self (First (byte ∷ []) style) 0 in
            OnOk result
            (string_bytes text.new ≡ string_bytes text.old ++ flat_map bytes_of commands) }
    {
        let after = Pen {
            is_there: true,
            style: Some(style),
        };
        // `&`: one branch for the prover
        let is_next = self.is_there & is_style_set(self.style, style);
        if is_next {
            text.push(byte as char)?;
            return Ok(after);
        }
        push_move(text, self.is_there, row, column)?;
        push_set(text, self.style, style)?;
        text.push(byte as char)?;
        Ok(after)
    }

    /// Appends the bytes that put `symbol` in `style` at `row` and `column`, both counted from 0.
    /// Returns the pen after it.
    #[tactic(auto, unfolding(crate::specs::Terminal::bytes_of))]
    fn push_symbol(
        self,
        text: &mut String,
        row: usize,
        column: usize,
        symbol: &str,
        style: NumberedStyle,
    ) -> Result<Pen, AllocError>
        requires row { row < 2 ^ 16 }
        requires column { column < 2 ^ 16 }
        ensures pen { IfOk result (λ p. p ≡ pen_after self (First symbol.now style)) }
        ensures bytes { let commands = cell_commands row column self (First symbol.now style) 0 in
            OnOk result
            (string_bytes text.new ≡ string_bytes text.old ++ flat_map bytes_of commands) }
    {
        // `&`: one branch for the prover
        let is_there = self.is_there & (symbol.len() == 1);
        push_move(text, is_there, row, column)?;
        push_set(text, self.style, style)?;
        text.push_str(symbol)?;
        Ok(Pen {
            is_there: symbol.len() == 1,
            style: Some(style),
        })
    }
}
