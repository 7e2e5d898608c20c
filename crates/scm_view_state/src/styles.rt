//! The style of each place of the screen.
ghost use Rattle.std.specs.Prelude.{◌≡◌, true};
ghost use Rattle.scm_view_state.specs.Styles.{
  component_style,
  header_style,
  in_colour,
  is_button,
  is_focused_in,
  item_style,
  kind_style,
  plain,
  reversed_if,
  selected_style,
  style_of,
  toggle_style,
};

use crate::items::ItemKind;
use crate::view_state::ViewState;
use scm_cells::{Colour, Style};
use scm_view::{ComponentId, FileKey, QuitDialog, QuitDialogButtonId, SelectionKey};

/// Returns `style`, reversed if `is_reversed`.
fn reversed_if(is_reversed: bool, style: Style) -> Style
    ensures { result ≡ reversed_if is_reversed style }
{
    if is_reversed { style.reversed() } else { style }
}

/// Returns the plain style, reversed.
fn reversed() -> Style
    ensures { result ≡ reversed_if true plain }
{
    Style::PLAIN.reversed()
}

/// Returns the style of symbols in `colour`.
fn in_colour(colour: Colour) -> Style
    ensures { result ≡ in_colour colour }
{
    Style::PLAIN.coloured(colour)
}

/// Returns the style of an unselected section or line of kind `kind`.
fn kind_style(kind: ItemKind) -> Style
    ensures { result ≡ kind_style kind }
{
    match kind {
        ItemKind::Nothing => Style::PLAIN,
        ItemKind::File => Style::PLAIN,
        ItemKind::Section => Style::PLAIN,
        ItemKind::Context => Style::PLAIN.dim(),
        ItemKind::Added => in_colour(Colour::Green),
        ItemKind::Removed => in_colour(Colour::Red),
        ItemKind::Mode => in_colour(Colour::Blue),
        ItemKind::Binary => in_colour(Colour::Blue),
    }
}

/// Returns whether `focused` and `button` are the same button of the quit dialog.
fn is_button(focused: QuitDialogButtonId, button: QuitDialogButtonId) -> bool
    ensures { result ≡ is_button focused button }
{
    match focused {
        QuitDialogButtonId::Quit => match button {
            QuitDialogButtonId::Quit => true,
            QuitDialogButtonId::GoBack => false,
        },
        QuitDialogButtonId::GoBack => match button {
            QuitDialogButtonId::Quit => false,
            QuitDialogButtonId::GoBack => true,
        },
    }
}

/// Returns whether `dialog` is open and its focused button is `button`.
fn is_focused_in(dialog: Option<QuitDialog>, button: QuitDialogButtonId) -> bool
    ensures { result ≡ is_focused_in dialog button }
{
    match dialog {
        None => false,
        Some(dialog) => is_button(dialog.focused_button, button),
    }
}

impl<'state> ViewState<'state> {
    /// Returns `style`, reversed if `key` is selected.
    fn selected_style(&self, key: SelectionKey, style: Style) -> Style
        ensures { result ≡ selected_style self.now key style }
    {
        reversed_if(self.is_selected(key), style)
    }

    /// Returns the style of the section or line `key`. If `key` is a file, it is plain.
    fn item_style(&self, key: SelectionKey) -> Style
        ensures { result ≡ item_style self.now key }
    {
        match key {
            SelectionKey::None => Style::PLAIN,
            SelectionKey::File(_) => Style::PLAIN,
            SelectionKey::Section(_) => self.selected_style(key, kind_style(self.item_kind(key))),
            SelectionKey::Line(_) => self.selected_style(key, kind_style(self.item_kind(key))),
        }
    }

    /// Returns the style of the header of file `key`.
    fn header_style(&self, key: FileKey) -> Style
        ensures { result ≡ header_style self.now key }
    {
        if self.is_selected(SelectionKey::File(key)) {
            in_colour(Colour::Blue).reversed()
        } else {
            Style::PLAIN
        }
    }

    /// Returns the style of an unselected toggle box.
    fn toggle_style(&self) -> Style
        ensures { result ≡ toggle_style self.now }
    {
        if self.state.is_read_only {
            Style::PLAIN.dim()
        } else {
            Style::PLAIN.bold()
        }
    }

    /// Returns the style of a place that `id` owns, on row `row` of the screen, counted from 0.
    fn component_style(&self, row: usize, id: ComponentId) -> Style
        ensures { result ≡ component_style self.now row id }
    {
        match id {
            ComponentId::MenuBar => reversed_if(row == 0, Style::PLAIN),
            ComponentId::Menu(_) => reversed(),
            ComponentId::MenuItem(_) => reversed(),
            ComponentId::FileViewHeader(key) => self.header_style(key),
            ComponentId::SelectableItem(key) => self.item_style(key),
            ComponentId::ToggleBox(key) => self.selected_style(key, self.toggle_style()),
            ComponentId::ExpandBox(key) => self.selected_style(key, Style::PLAIN.bold()),
            ComponentId::CommitEditMessageButton(_) => Style::PLAIN,
            ComponentId::QuitDialog => Style::PLAIN,
            ComponentId::QuitDialogButton(button) => {
                reversed_if(is_focused_in(self.quit_dialog, button), Style::PLAIN)
            }
            ComponentId::HelpDialog => Style::PLAIN,
            ComponentId::HelpDialogQuitButton => reversed(),
            ComponentId::App => Style::PLAIN,
            ComponentId::AppFiles => Style::PLAIN,
            ComponentId::MenuHeader => Style::PLAIN,
            ComponentId::CommitMessageView => Style::PLAIN,
        }
    }

    /// Returns the style of a place on row `row` of the screen, counted from 0, if a click there
    /// acts on `owner`.
    pub fn style(&self, row: usize, owner: Option<ComponentId>) -> Style
        ensures { result ≡ style_of self.now row owner }
    {
        match owner {
            None => Style::PLAIN,
            Some(id) => self.component_style(row, id),
        }
    }
}
