//! The lines that the rows of a live session's screen show.
ghost use Rattle.std.specs.Prelude.{◌≡◌, ℕ, ◌+◌, ◌<◌, ◌^◌, IfSome};
ghost use Rattle.scm_record.specs.FrameQueries.{hit};
ghost use Rattle.scm_record.specs.Frames.{IsSceneOf, KnowsRow, Scene};
ghost use Rattle.scm_record.specs.ShownLines.{line_after, line_of, line_of_key, line_on};

use crate::frame::DrawnFrame;
use crate::live::LiveSession;
use scm_layout_index::RowOwners;
use scm_types::LineKey;
use scm_view::{ComponentId, SelectionKey};

/// Returns the line that `key` names, if it names one.
fn line_of_key(key: SelectionKey) -> Option<LineKey>
    ensures { result ≡ line_of_key key }
{
    match key {
        SelectionKey::Line(key) => Some(key),
        SelectionKey::None | SelectionKey::File(_) | SelectionKey::Section(_) => None,
    }
}

/// Returns the line of the component `id`, if it is one.
fn line_of(id: Option<ComponentId>) -> Option<LineKey>
    ensures { result ≡ line_of id }
{
    match id {
        Some(ComponentId::SelectableItem(key)) => line_of_key(key),
        None
        | Some(ComponentId::App)
        | Some(ComponentId::AppFiles)
        | Some(ComponentId::CommitMessageView)
        | Some(ComponentId::CommitEditMessageButton(_))
        | Some(ComponentId::MenuBar)
        | Some(ComponentId::MenuHeader)
        | Some(ComponentId::Menu(_))
        | Some(ComponentId::MenuItem(_))
        | Some(ComponentId::FileViewHeader(_))
        | Some(ComponentId::ToggleBox(_))
        | Some(ComponentId::ExpandBox(_))
        | Some(ComponentId::HelpDialog)
        | Some(ComponentId::HelpDialogQuitButton)
        | Some(ComponentId::QuitDialog)
        | Some(ComponentId::QuitDialogButton(_)) => None,
    }
}

/// The lines that rows of a screen show, from a row on.
#[derive(Clone, Copy, Debug, PartialEq, Eq)]
pub struct ShownLines {
    /// The line that the first of the rows shows, if any. The rows below it show those that follow in its
    /// section.
    pub first: Option<LineKey>,
    /// The number of rows, at least 1.
    pub rows: usize,
}

impl ShownLines {
    /// Returns the line on row `below` of these rows, counted from 0, if they show lines.
    pub fn line(self, below: usize) -> Option<LineKey>
        requires { IfSome self.first (λ first. first.line_idx + below < 2 ^ 64) }
        ensures { result ≡ line_after self below }
    {
        match self.first {
            None => None,
            Some(first) => Some(first.section().line(first.line_idx + below)),
        }
    }
}

/// Returns the line on row `row` of the screen alone, of which `owners` were found, or no line for the rows to the
/// end of the screen if these have no component.
fn rows_without(
    frame: &DrawnFrame,
    owners: &Option<RowOwners>,
    scroll: usize,
    row: usize,
) -> ShownLines
    requires { KnowsRow owners.now frame.now.places (scroll + row) }
    ensures some { 0 < result.rows }
    ensures low { (n : ℕ) → n < result.rows
        → IfSome result.first (λ first. first.line_idx + n < 2 ^ 64) }
    ensures lines { (scene : Scene) → IsSceneOf scene frame.now → (n : ℕ) → n < result.rows
        → line_of (hit scene scroll (row + n) 8) ≡ line_after result n }
{
    let bare = frame.bare_rows(scroll, row);
    if 0 < bare {
        ShownLines {
            first: None,
            rows: bare,
        }
    } else {
        ShownLines {
            first: line_of(frame.run_among(owners, scroll, row, 8).owner),
            rows: 1,
        }
    }
}

/// Returns the lines that rows of the screen show from row `row` on, counted from 0, while the screen shows
/// `frame`, scrolled to row `scroll` of the document.
fn lines_of_rows(frame: &DrawnFrame, scroll: usize, row: usize) -> ShownLines
    ensures some { 0 < result.rows }
    ensures low { (n : ℕ) → n < result.rows
        → IfSome result.first (λ first. first.line_idx + n < 2 ^ 64) }
    ensures lines { (scene : Scene) → IsSceneOf scene frame.now → (n : ℕ) → n < result.rows
        → line_of (hit scene scroll (row + n) 8) ≡ line_after result n }
{
    let owners = frame.row_owners(scroll, row);
    match frame.lines_among(&owners, scroll, row, 9) {
        None => rows_without(frame, &owners, scroll, row),
        Some(lines) => ShownLines {
            first: Some(lines.first),
            rows: lines.rows,
        },
    }
}

impl<'state> LiveSession<'state> {
    /// Returns the line that row `row` of the screen shows, if nothing lies over it, and how many rows from
    /// there on show it and the lines that follow in its section. Rows are counted from 0.
    ///
    /// A row shows a line if a click on column 8, where the sign of a changed line stands, acts on that line.
    pub fn lines_from(&self, row: usize) -> ShownLines
        ensures some { 0 < result.rows }
        ensures low { (n : ℕ) → n < result.rows
            → IfSome result.first (λ first. first.line_idx + n < 2 ^ 64) }
        ensures lines { (n : ℕ) → n < result.rows
            → line_on self.now (row + n) ≡ line_after result n }
    {
        lines_of_rows(&self.frame, self.session.scroll(), row)
    }
}
