//! Themes: what becomes of a style when it is painted.
ghost use Rattle.std.specs.Prelude.{◌≡◌, None, false, option_map};
ghost use Rattle.scm_cells.specs.declared.style.Style.{Style as Painted};
ghost use Rattle.scm_terminal.specs.Style.{plain_style};
ghost use Rattle.scm_front_paint.specs.declared.themes.Theme.{Theme};
ghost use Rattle.scm_front_paint.specs.declared.themes.Theme.TheVariants.{NoColours};
ghost use Rattle.scm_front_paint.specs.Themes.{is_dull, on_dark, on_light, themed};

use scm_cells::{Colour, Style};

/// The colours of a terminal.
#[derive(Clone, Copy, Debug, PartialEq, Eq)]
pub enum Theme {
    /// A dark background: light colours.
    Dark,
    /// A light background: dark colours, none of which is bold, and nothing is dim.
    Light,
    /// Sixteen colours on a dark background: each colour is the bright one.
    Sixteen,
    /// No colours: bold, underlined and reversed alone.
    NoColours,
}

/// Returns the colour for `colour` on a light background.
fn on_light(colour: Colour) -> Colour
    ensures { result ≡ on_light colour }
{
    match colour {
        Colour::Black => Colour::Black,
        Colour::Red => Colour::Red,
        Colour::Green => Colour::Blue,
        Colour::Yellow => Colour::Magenta,
        Colour::Blue => Colour::Magenta,
        Colour::Magenta => Colour::Magenta,
        Colour::Cyan => Colour::Blue,
        Colour::White => Colour::Black,
    }
}

/// Returns the colour for `colour` on a light background, if it is not the terminal's own.
fn any_on_light(colour: Option<Colour>) -> Option<Colour>
    ensures { result ≡ option_map on_light colour }
{
    match colour {
        None => None,
        Some(colour) => Some(on_light(colour)),
    }
}

/// Returns the colour for `colour` on a dark background.
fn on_dark(colour: Colour) -> Colour
    ensures { result ≡ on_dark colour }
{
    match colour {
        Colour::Black => Colour::Black,
        Colour::Red => Colour::Red,
        Colour::Green => Colour::Green,
        Colour::Yellow => Colour::Yellow,
        Colour::Blue => Colour::Cyan,
        Colour::Magenta => Colour::Magenta,
        Colour::Cyan => Colour::Cyan,
        Colour::White => Colour::White,
    }
}

/// Returns the colour for `colour` on a dark background, if it is not the terminal's own.
fn any_on_dark(colour: Option<Colour>) -> Option<Colour>
    ensures { result ≡ option_map on_dark colour }
{
    match colour {
        None => None,
        Some(colour) => Some(on_dark(colour)),
    }
}

/// Returns whether `colour` is too dark on a dark background, unless it is bright.
fn is_dull(colour: Option<Colour>) -> bool
    ensures { result ≡ is_dull colour }
{
    match colour {
        None => false,
        Some(Colour::Red | Colour::Magenta) => true,
        Some(Colour::Black | Colour::Green | Colour::Yellow) => false,
        Some(Colour::Blue | Colour::Cyan | Colour::White) => false,
    }
}

/// Returns what `style` becomes in `theme`.
pub fn themed(theme: Theme, style: Style) -> Style
    ensures { result ≡ themed theme style }
{
    match theme {
        Theme::Dark => Style {
            colour: any_on_dark(style.colour),
            bold: style.bold | is_dull(style.colour),
            ..style
        },
        Theme::Light => Style {
            colour: any_on_light(style.colour),
            bold: style.bold & !style.colour.is_some(),
            dim: false,
            ..style
        },
        Theme::Sixteen => Style {
            colour: any_on_dark(style.colour),
            bold: style.bold | style.colour.is_some(),
            ..style
        },
        Theme::NoColours => Style {
            colour: None,
            dim: false,
            ..style
        },
    }
}

/// Proves what themes keep.
///
/// A plain symbol stays plain in each theme. Without colours no symbol has a colour or is dim, and what is bold, underlined
/// or reversed stays so. In each theme what is reversed or underlined stays so.
///
/// This is a law: the function does nothing, and is there for its contract.
pub fn themes_keep_attributes()
    ensures plain { (theme : Theme) → themed theme plain_style ≡ plain_style }
    ensures colours { (style : Painted) → (themed NoColours style).colour ≡ None }
    ensures dim { (style : Painted) → (themed NoColours style).dim ≡ false }
    ensures bold { (style : Painted) → (themed NoColours style).bold ≡ style.bold }
    ensures reversed { (theme : Theme) (style : Painted)
        → (themed theme style).reversed ≡ style.reversed }
    ensures underlined { (theme : Theme) (style : Painted)
        → (themed theme style).underlined ≡ style.underlined }
{}
