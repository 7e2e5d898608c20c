//! The screen of a window.
ghost use Rattle.std.specs.Prelude.{◌≡◌};
ghost use Rattle.scm_c_values.specs.Screens.{screen_of};

use scm_record::TerminalKind;

/// The most columns of a screen: a wider window shows that many.
const MAX_COLUMNS: usize = 1000;

/// The most rows of a screen: a higher window shows that many.
const MAX_ROWS: usize = 1000;

/// Returns the screen of a window of `width` columns and `height` rows.
pub fn screen(width: u16, height: u16) -> TerminalKind
    ensures { result ≡ screen_of width height }
{
    TerminalKind::Testing {
        width: (width as usize).min(MAX_COLUMNS),
        height: (height as usize).min(MAX_ROWS),
    }
}
