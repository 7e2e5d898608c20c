//! The ids of the components on the screen.
ghost use Rattle.scm_widgets.specs.QuitButtons.{is_quit, is_go_back};
ghost use Rattle.std.specs.Prelude.{◌≡◌};

use scm_render::Clickable;
use scm_types::{FileKey, SelectionKey};

/// A component on the screen.
#[derive(Clone, Copy, Debug, PartialEq, Eq, PartialOrd, Ord, Hash)]
pub enum ComponentId {
    /// The whole screen.
    App,
    /// The document of a commit.
    AppFiles,
    /// The menu bar, on the screen's first row.
    MenuBar,
    /// The items of the open menu.
    MenuHeader,
    /// The header of a menu in the bar, by the menu's index, counted from 0.
    Menu(usize),
    /// An item of the open menu, by its index, counted from 0.
    MenuItem(usize),
    /// A commit's message.
    CommitMessageView,
    /// The button that edits a commit's message, by the commit's index, counted from 0.
    CommitEditMessageButton(usize),
    /// The header of a file.
    FileViewHeader(FileKey),
    /// A file, a section or a line.
    SelectableItem(SelectionKey),
    /// The checkbox of a file, a section or a line.
    ToggleBox(SelectionKey),
    /// The expand box of a file or a section.
    ExpandBox(SelectionKey),
    /// The quit dialog.
    QuitDialog,
    /// A button of the quit dialog.
    QuitDialogButton(QuitDialogButtonId),
    /// The help dialog, with the keyboard shortcuts.
    HelpDialog,
    /// The button that closes the help dialog.
    HelpDialogQuitButton,
}

impl Clickable for ComponentId {
    ghost use Rattle.scm_widgets.specs.Clicks.{is_clickable as clicks_on};

    ghost clicks = { clicks_on };

    fn is_clickable(&self) -> bool {
        match self {
            ComponentId::App => false,
            ComponentId::AppFiles => false,
            ComponentId::MenuBar => true,
            ComponentId::MenuHeader => false,
            ComponentId::Menu(_) => true,
            ComponentId::MenuItem(_) => true,
            ComponentId::CommitMessageView => false,
            ComponentId::CommitEditMessageButton(_) => true,
            ComponentId::FileViewHeader(_) => true,
            ComponentId::SelectableItem(_) => true,
            ComponentId::ToggleBox(_) => true,
            ComponentId::ExpandBox(_) => true,
            ComponentId::QuitDialog => true,
            ComponentId::QuitDialogButton(_) => true,
            ComponentId::HelpDialog => true,
            ComponentId::HelpDialogQuitButton => true,
        }
    }
}

/// A button of the quit dialog.
#[derive(Clone, Copy, Debug, PartialEq, Eq, PartialOrd, Ord, Hash)]
pub enum QuitDialogButtonId {
    /// The button that quits and gives up the changes.
    Quit,
    /// The button that closes the dialog and keeps the changes.
    GoBack,
}

impl QuitDialogButtonId {
    /// Returns whether this is the button that quits.
    pub fn is_quit(self) -> bool
        ensures { result ≡ is_quit self }
    {
        match self {
            QuitDialogButtonId::Quit => true,
            QuitDialogButtonId::GoBack => false,
        }
    }

    /// Returns whether this is the button that keeps the changes.
    pub fn is_go_back(self) -> bool
        ensures { result ≡ is_go_back self }
    {
        match self {
            QuitDialogButtonId::Quit => false,
            QuitDialogButtonId::GoBack => true,
        }
    }
}
