//! A style by its number, which compares and copies it at once.
ghost use Rattle.std.specs.Prelude.{◌≡◌, ◌==◌, IsTrue};
ghost use Rattle.scm_terminal.specs.Style.{plain_style, style_code};

use crate::style::{code_of, style_of_code};
use scm_cells::Style;
use std::marker::Model;

/// A style, kept as its number. Contracts see the style.
#[derive(Clone, Copy)]
pub struct NumberedStyle {
    /// The number of the style.
    code: u8,
}

impl Model for NumberedStyle {
    ghost use Rattle.scm_cells.specs.declared.style.Style.{Style};

    ghost Value = { Style };

    ghost use Rattle.scm_terminal.specs.NumberedStyle.{has_own_number, own_style, with_number, with_number_of};

    ghost view = { own_style };

    ghost invariant = { has_own_number };

    ghost inverse = { with_number };

    ghost inverse_ok = { with_number_of };
}

impl NumberedStyle {
    /// Returns `style` with its number.
    pub fn new(style: Style) -> NumberedStyle
        ensures { result ≡ style }
    {
        NumberedStyle {
            code: code_of(style),
        }
    }

    /// Returns the plain style with its number.
    pub(crate) fn plain() -> NumberedStyle
        ensures { result ≡ plain_style }
    {
        NumberedStyle::new(Style::PLAIN)
    }

    /// Returns the style.
    pub fn style(self) -> Style
        ensures { result ≡ self }
    {
        style_of_code(self.code)
    }

    /// Returns whether both styles are the same.
    pub fn is_same(self, other: NumberedStyle) -> bool
        ensures same { IsTrue result → self ≡ other }
        ensures code { result ≡ (style_code self == style_code other) }
    {
        self.code() == other.code()
    }

    /// Returns the number of the style. Two styles with the same number are equal.
    pub(crate) fn code(self) -> u8
        ensures { result ≡ style_code self }
    {
        self.code
    }
}
