//! The events that a recorder handles.

/// A slot of the store of screens, for one screenshot.
#[derive(Clone, Copy, Debug, PartialEq, Eq)]
pub struct TestingScreenshot {
    /// The index of the slot in its store, counted from 0.
    pub place: usize,
}

impl TestingScreenshot {
    ghost use Rattle.std.specs.Prelude.{◌≡◌};

    /// Returns the event that takes a screenshot into this slot.
    pub fn event(&self) -> Event
        ensures { result ≡ Event.TakeScreenshot self.now }
    {
        Event::TakeScreenshot(*self)
    }
}

/// An action of the user, or one that the recorder queues itself.
#[derive(Clone, Copy, Debug, PartialEq, Eq)]
pub enum Event {
    /// Nothing.
    None,
    /// Accept the marks.
    QuitAccept,
    /// Cancel. If changes would be lost, ask first.
    QuitCancel,
    /// Cancel as `QuitCancel` does, but at once if the quit dialog is open.
    QuitInterrupt,
    /// Close what is open, for example a dialog.
    QuitEscape,
    /// Store the text of the screen.
    TakeScreenshot(TestingScreenshot),
    /// Clear the screen and redraw it.
    Redraw,
    /// Scroll until the selection is visible.
    EnsureSelectionInViewport,
    /// Scroll up by one row.
    ScrollUp,
    /// Scroll down by one row.
    ScrollDown,
    /// Scroll up by the height of the screen.
    PageUp,
    /// Scroll down by the height of the screen.
    PageDown,
    /// Select the previous item.
    FocusPrev,
    /// Select the previous item of the same kind.
    FocusPrevSameKind,
    /// Select an item half a screen further up.
    FocusPrevPage,
    /// Select the next item.
    FocusNext,
    /// Select the next item of the same kind.
    FocusNextSameKind,
    /// Select an item half a screen further down.
    FocusNextPage,
    /// Select the first item inside.
    FocusInner,
    /// Select the enclosing item, or fold.
    FocusOuter {
        /// Whether a selected, expanded section is folded first.
        fold_section: bool,
    },
    /// Toggle the selected item.
    ToggleItem,
    /// Toggle the selected item, and select the next item of its kind.
    ToggleItemAndAdvance,
    /// Invert every mark.
    ToggleAll,
    /// Check everything, or uncheck everything if all is checked.
    ToggleAllUniform,
    /// Fold or unfold the selected item.
    ExpandItem,
    /// Fold or unfold everything.
    ExpandAll,
    /// Click on a place of the screen.
    Click {
        /// The row, counted from 0 at the top.
        row: usize,
        /// The column, counted from 0 on the left.
        column: usize,
    },
    /// Switch between one commit and two side by side.
    ToggleCommitViewMode,
    /// Edit the message of the commit.
    EditCommitMessage,
    /// Open or close the help.
    Help,
}
