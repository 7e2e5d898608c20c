//! The colour and attributes of a symbol.
ghost use Rattle.std.specs.Prelude.{◌≡◌, Some, true};

/// One of the eight basic colours of a terminal.
#[derive(Clone, Copy, Debug, Eq, PartialEq)]
pub enum Colour {
    /// Black, `ESC [ 30 m`.
    Black,
    /// Red, `ESC [ 31 m`.
    Red,
    /// Green, `ESC [ 32 m`.
    Green,
    /// Yellow, `ESC [ 33 m`.
    Yellow,
    /// Blue, `ESC [ 34 m`.
    Blue,
    /// Magenta, `ESC [ 35 m`.
    Magenta,
    /// Cyan, `ESC [ 36 m`.
    Cyan,
    /// White, `ESC [ 37 m`.
    White,
}

/// The colour and attributes of a symbol.
///
/// `Style::PLAIN.bold().coloured(Colour::Red)` is bold and red.
#[derive(Clone, Copy, Debug, Eq, PartialEq)]
pub struct Style {
    /// The colour of the symbol, or `None` for the terminal's own.
    pub colour: Option<Colour>,

    /// Whether the symbol is bold.
    pub bold: bool,

    /// Whether the symbol is dim.
    pub dim: bool,

    /// Whether the symbol is underlined.
    pub underlined: bool,

    /// Whether the colours of the symbol and of its background are exchanged.
    pub reversed: bool,
}

impl Style {
    /// The terminal's own colour, without attributes.
    pub const PLAIN: Style = Style {
        colour: None,
        bold: false,
        dim: false,
        underlined: false,
        reversed: false,
    };

    /// Returns this style with the colour `colour`.
    pub fn coloured(self, colour: Colour) -> Style
        ensures { result ≡ record self { colour = Some colour } }
    {
        Style {
            colour: Some(colour),
            ..self
        }
    }

    /// Returns this style, made bold.
    pub fn bold(self) -> Style
        ensures { result ≡ record self { bold = true } }
    {
        Style { bold: true, ..self }
    }

    /// Returns this style, made dim.
    pub fn dim(self) -> Style
        ensures { result ≡ record self { dim = true } }
    {
        Style { dim: true, ..self }
    }

    /// Returns this style, made underlined.
    pub fn underlined(self) -> Style
        ensures { result ≡ record self { underlined = true } }
    {
        Style {
            underlined: true,
            ..self
        }
    }

    /// Returns this style with the colours of the symbol and of its background exchanged.
    pub fn reversed(self) -> Style
        ensures { result ≡ record self { reversed = true } }
    {
        Style {
            reversed: true,
            ..self
        }
    }
}
