//! The styles of a screen: those of the session, with the spans of its lines, words set off and a range underlined,
//! in a theme.
ghost use Rattle.std.specs.Prelude.{◌≡◌, length};
ghost use Rattle.scm_terminal.specs.StyledCell.{row_of_styles};
ghost use Rattle.scm_front_paint.specs.ShownView.{moved_style, style_in};

use crate::columns::with_words;
use crate::line_words::LineWords;
use crate::range::has_row;
use crate::restyling::{put_in_theme, set_off_words, style_runs, underline_if, underlined};
use crate::runs::with_runs;
use crate::syntax_lines::SyntaxLines;
use crate::syntax_rows::runs_on;
use crate::themes::{Theme, themed};
use crate::words::columns_on;
use scm_record::{LiveSession, NumberedStyle, SelectionKey, Style, Styles};

/// The styles of a session's screen.
#[derive(Clone, Copy)]
pub(crate) struct Shown<'a, 'state> {
    /// The session.
    pub(crate) session: &'a LiveSession<'state>,
    /// What is set off on each row.
    pub(crate) words: &'a [Option<LineWords>],
    /// The lines that have spans.
    pub(crate) syntax: &'a SyntaxLines,
    /// The line at which a range is begun, or `None`.
    pub(crate) anchor: SelectionKey,
    /// The theme.
    pub(crate) theme: Theme,
}

impl<'a, 'state> Styles for Shown<'a, 'state> {
    ghost styled = { style_in };

    fn style(&self, row: usize, column: usize) -> Style
        ensures { result ≡ style_in self.now row column }
    {
        let style = self.session.style(row, column);
        let style = with_runs(runs_on(self.syntax, self.session, row), column, style);
        let style = with_words(columns_on(self.words, row), column, style);
        let is_in = has_row(self.session, self.anchor, row);
        themed(self.theme, underlined(is_in, style))
    }

    /// Sets `styles` to the styles of the places of row `row`, counted from 0. The session finds its styles
    /// of a row at once.
    fn row_styles(&self, row: usize, styles: &mut [NumberedStyle])
        ensures { styles.new ≡ row_of_styles (style_in self.now) row (length styles.old) }
    {
        self.session.row_styles(row, styles);
        style_runs(runs_on(self.syntax, self.session, row), styles);
        set_off_words(columns_on(self.words, row), styles);
        underline_if(has_row(self.session, self.anchor, row), styles);
        put_in_theme(self.theme, styles);
    }
}

/// The styles of the columns of a screen from column `x` on.
#[derive(Clone, Copy)]
pub(crate) struct Moved<'a, 'b, 'state> {
    /// The screen.
    pub(crate) shown: &'a Shown<'b, 'state>,
    /// The first column.
    pub(crate) x: usize,
}

impl<'a, 'b, 'state> Styles for Moved<'a, 'b, 'state> {
    ghost styled = { moved_style };

    fn style(&self, row: usize, column: usize) -> Style
        ensures { result ≡ moved_style self.now row column }
    {
        self.shown.style(row, column.saturating_add(self.x))
    }
}
