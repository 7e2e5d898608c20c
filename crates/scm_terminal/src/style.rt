//! The style of each place of a screen, and the bytes that set a style: the SGR parameters of
//! ECMA-48.
ghost use Rattle.std.specs.Prelude.{◌≡◌, ◌≤◌, ℕ, ◌++◌, OnOk, length, string_bytes};
ghost use Rattle.scm_cells.specs.declared.style.Style.{Style};
ghost use Rattle.scm_terminal.specs.StyledCell.{row_of_styles};
ghost use Rattle.scm_terminal.specs.Style.{
  bit,
  colour_code,
  colour_of,
  style_code,
  style_of_code,
  colour_bytes,
  text_if,
  style_bytes,
};

use crate::bytes::has_bit;
use crate::numbered_style::NumberedStyle;
use scm_cells::{Colour, Style};
use std::alloc::AllocError;

/// The style of each place of a screen.
///
/// An implementation that returns `Style::PLAIN` everywhere paints in the terminal's own colours.
pub trait Styles {
    ghost styled: { Self → ℕ → ℕ → Style };

    /// Returns the style of the place at `row` and `column`, both counted from 0.
    fn style(&self, row: usize, column: usize) -> Style
        ensures { result ≡ styled self.now row column };

    /// Sets `styles` to the styles of the places of row `row`, counted from 0: one for each column,
    /// from column 0 on.
    fn row_styles(&self, row: usize, styles: &mut [NumberedStyle])
        ensures { styles.new ≡ row_of_styles (styled self.now) row (length styles.old) }
    {
        let mut column = 0;
        for style in styles.iter_mut() {
            *style = NumberedStyle::new(self.style(row, column));
            column += 1;
        }
    }
}

/// Returns the number of `colour`: 0 for the terminal's own colour, and otherwise 1 to 8.
fn colour_code(colour: Option<Colour>) -> u8
    ensures value { result ≡ colour_code colour }
    ensures bound { result ≤ 8 }
{
    match colour {
        None => 0,
        Some(Colour::Black) => 1,
        Some(Colour::Red) => 2,
        Some(Colour::Green) => 3,
        Some(Colour::Yellow) => 4,
        Some(Colour::Blue) => 5,
        Some(Colour::Magenta) => 6,
        Some(Colour::Cyan) => 7,
        Some(Colour::White) => 8,
    }
}

/// Returns 1 if `is_on`, and otherwise 0.
fn bit(is_on: bool) -> u8
    ensures value { result ≡ bit is_on }
    ensures bound { result ≤ 1 }
{
    if is_on { 1 } else { 0 }
}

/// Returns the number of `style`, below 256. Two styles with the same number are equal.
#[tactic(auto, unfolding(crate::specs::Style::style_code))]
pub(crate) fn code_of(style: Style) -> u8
    ensures { result ≡ style_code style }
{
    let lines = bit(style.underlined) + 2 * bit(style.reversed);
    let flags = bit(style.bold) + 2 * (bit(style.dim) + 2 * lines);
    colour_code(style.colour) + 16 * flags
}

/// Returns the colour with the number `code`, or `None` if no colour has it.
fn colour_of(code: u8) -> Option<Colour>
    ensures { result ≡ colour_of code }
{
    match code {
        1 => Some(Colour::Black),
        2 => Some(Colour::Red),
        3 => Some(Colour::Green),
        4 => Some(Colour::Yellow),
        5 => Some(Colour::Blue),
        6 => Some(Colour::Magenta),
        7 => Some(Colour::Cyan),
        8 => Some(Colour::White),
        _ => None,
    }
}

/// Returns the style with the number `code`.
#[tactic(auto, unfolding(crate::specs::Style::style_of_code))]
pub(crate) fn style_of_code(code: u8) -> Style
    ensures { result ≡ style_of_code code }
{
    let number = u16::from(code);
    Style {
        colour: colour_of(code % 16),
        bold: has_bit(16, number),
        dim: has_bit(32, number),
        underlined: has_bit(64, number),
        reversed: has_bit(128, number),
    }
}

/// Returns the SGR parameter of `colour` with its semicolon, or nothing for the terminal's own.
fn colour_text(colour: Option<Colour>) -> &'static str
    ensures { result.now ≡ colour_bytes colour }
{
    match colour {
        None => "",
        Some(Colour::Black) => ";30",
        Some(Colour::Red) => ";31",
        Some(Colour::Green) => ";32",
        Some(Colour::Yellow) => ";33",
        Some(Colour::Blue) => ";34",
        Some(Colour::Magenta) => ";35",
        Some(Colour::Cyan) => ";36",
        Some(Colour::White) => ";37",
    }
}

/// Returns `text` if `is_on`, and otherwise nothing.
fn text_if(is_on: bool, text: &'static str) -> &'static str
    ensures { result.now ≡ text_if is_on text.now }
{
    if is_on { text } else { "" }
}

/// Appends the bytes that set `style`: an SGR sequence that resets the previous style first.
#[tactic(auto, unfolding(crate::specs::Style::style_bytes))]
pub(crate) fn push_style(text: &mut String, style: Style) -> Result<(), AllocError>
    ensures { OnOk result (string_bytes text.new ≡ string_bytes text.old ++ style_bytes style) }
{
    text.push_str("\x1b[0")?;
    text.push_str(text_if(style.bold, ";1"))?;
    text.push_str(text_if(style.dim, ";2"))?;
    text.push_str(text_if(style.underlined, ";4"))?;
    text.push_str(text_if(style.reversed, ";7"))?;
    text.push_str(colour_text(style.colour))?;
    text.push_str("m")?;
    Ok(())
}
