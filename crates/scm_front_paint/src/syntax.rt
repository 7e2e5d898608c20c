//! Syntax: what a host says of the parts of a line, and how it looks.
ghost use Rattle.std.specs.Prelude.{◌≡◌};
ghost use Rattle.scm_front_paint.specs.Syntax.{in_syntax, syntax_style};

use scm_cells::{Colour, Style};

/// What a part of a line is in its language.
#[derive(Clone, Copy, Debug, PartialEq, Eq)]
pub enum Syntax {
    /// A word of the language. It is bold.
    Keyword,
    /// A name, as of a function or of a type. It is cyan.
    Name,
    /// A text: a string or a character. It is yellow.
    Text,
    /// A number. It is magenta.
    Number,
    /// A comment. It is dim.
    Comment,
    /// Anything else. It is plain.
    Other,
}

/// A part of a line, in bytes of its text. Bytes are counted from 0.
#[derive(Clone, Copy, Debug, PartialEq, Eq)]
pub struct SyntaxSpan {
    /// The first byte.
    pub start: usize,
    /// The end, exclusive.
    pub end: usize,
    /// What the part is.
    pub syntax: Syntax,
}

/// Returns the style of `syntax`. A theme changes it as all others.
pub fn syntax_style(syntax: Syntax) -> Style
    ensures { result ≡ syntax_style syntax }
{
    match syntax {
        Syntax::Keyword => Style::PLAIN.bold(),
        Syntax::Name => Style::PLAIN.coloured(Colour::Cyan),
        Syntax::Text => Style::PLAIN.coloured(Colour::Yellow),
        Syntax::Number => Style::PLAIN.coloured(Colour::Magenta),
        Syntax::Comment => Style::PLAIN.dim(),
        Syntax::Other => Style::PLAIN,
    }
}

/// Returns what `style` becomes where a span has the style `own`. A reversed style, as of the selected line, stays.
pub(crate) fn in_syntax(own: Style, style: Style) -> Style
    ensures { result ≡ in_syntax own style }
{
    if style.reversed { style } else { own }
}
