//! The index of an inline frame by the rows of a layout: hit tests, the row ranges of keys, and the
//! extent.
ghost use Rattle.std.specs.Prelude.{◌≡◌, ℕ, ◌<◌, ◌≤◌, ◌^◌, ◌++◌, nat_lt, if◌then◌else◌, is_some, None, Some, option_map, IfOk, IfErr, OnOk, IsTrue};
ghost use Rattle.scm_errors.specs.declared.error.RecordError.TheVariants.{OutOfMemory};
ghost use Rattle.scm_types.specs.Limits.{is_accepted_state, max_scroll};
ghost use Rattle.scm_document.specs.HeaderRects.{message_rects};
ghost use Rattle.scm_rows.specs.Heights.{message_height};
ghost use Rattle.scm_overlay.specs.Tables.{menus_with};
ghost use Rattle.scm_view.specs.ViewState.{ViewState, commit_at};
ghost use Rattle.scm_view.specs.Window.{extent, owner, span};
ghost use Rattle.scm_layout_index.specs.LayoutIndex.{AreRowsOf, IsInline, IsLayoutIndexOf};

use crate::overlays::Overlays;
use crate::row_pieces::end_of_files;
use crate::shared_rows::SharedRows;
use scm_document::CommitMessageView;
use scm_document::index_pieces::push_pinned;
use scm_overlay::menu_bar::MenuBar;
use scm_types::{Commit, Items, RecordError, SelectionKey};
use scm_view::frame_measures::{document_run, joined, joined_with, push_help, push_quit, screen};
use scm_view_state::ViewState;
use scm_widgets::ids::ComponentId;
use scm_widgets::overlay_rects::OverlayRect;
use std::alloc::{AllocError, Global};

/// The index of an inline frame: the owner of each place, the rows of each key, and the extent. It
/// has what lies over the document, and the rows that the frame was drawn by.
#[derive(Drop)]
pub struct LayoutIndex {
    /// The width of the screen, in columns.
    pub(crate) width: u16,
    /// The row of the document to which a header may be pinned: that below the menu bar.
    pub(crate) pinned: usize,
    /// The key that was selected when the frame was drawn.
    pub(crate) selection: SelectionKey,
    /// What lies over the rows of files.
    pub(crate) rects: Overlays,
    /// The extent: the number of rows that the frame spans.
    extent: usize,
    /// The rows of the files and sections.
    pub(crate) rows: SharedRows,
}

/// Adds the rectangle of the button that edits the message of the first of `commits`, if it has
/// one. Returns how many rows the message has: three, or none without a message.
fn push_message(rects: &mut Vec<OverlayRect>, commits: &Items<Commit>) -> Result<usize, AllocError>
    ensures rows { IfOk result (λ n. n ≡ message_height (commit_at 0 commits.now).message) }
    ensures most { IfOk result (λ n. n ≤ 3) }
    ensures ok { OnOk result (rects.new.items ≡ rects.old.items
        ++ message_rects 0 (is_some (commit_at 0 commits.now).message)) }
{
    match commits.get(0) {
        None => Ok(0),
        Some(commit) => {
            let view = CommitMessageView {
                commit_idx: 0,
                commit,
            };
            view.push_rects(rects)?;
            Ok(view.height())
        }
    }
}

impl LayoutIndex {
    /// Returns the index of the frame that shows `view_state` on a screen of `width` columns and
    /// `height` rows, with the menu bar `menu_bar` that its open menu makes. The screen's first row
    /// shows row `scroll` of the document, and the session's layout has the rows `rows`.
    ///
    /// # Errors
    ///
    /// `OutOfMemory`: an allocation failed.
    #[tactic(auto, using(scm_types::proofs::LimitLemmas::scroll_room))]
    pub fn new(
        alloc: Global,
        view_state: &ViewState<'_>,
        menu_bar: &MenuBar<'_>,
        rows: SharedRows,
        width: u16,
        height: u16,
        scroll: usize,
    ) -> Result<LayoutIndex, RecordError>
        requires shown { IsInline view_state.now width height scroll }
        requires bar { menu_bar.now ≡ menus_with view_state.now.open_menu }
        requires rows { AreRowsOf rows view_state.now }
        ensures ok { IfOk result
            (λ index. IsLayoutIndexOf width height scroll view_state.now index) }
        ensures err { IfErr result (λ e. e ≡ OutOfMemory) }
    {
        let files = &rows.layout_rows().files;
        let columns = usize::from(width);
        let screen = screen(width, height, scroll);
        let mut rects = Vec::new(alloc);
        let message = push_message(&mut rects, &view_state.state.commits)?;
        let pinned = rows.pieces_on(view_state.selection, scroll + 1, scroll + 1);
        push_pinned(&mut rects, columns, scroll + 1, pinned)?;
        let bar = menu_bar.push_rects(alloc, &mut rects, screen)?;
        let quit = push_quit(alloc, &mut rects, screen, view_state.quit_dialog)?;
        let help = push_help(alloc, &mut rects, screen, view_state.is_help_open)?;
        let below = usize::from(height).saturating_sub(1);
        let end = end_of_files(1 + message, files);
        let document = document_run(below, message, files.is_empty(), end);
        let run = joined_with(
            joined_with(joined((scroll, scroll + bar), document), quit),
            help,
        );
        let overlays = Overlays::new(rects);
        Ok(LayoutIndex {
            width,
            pinned: scroll + 1,
            selection: view_state.selection,
            rects: overlays,
            extent: run.1.saturating_sub(run.0),
            rows,
        })
    }

    /// Returns the component that owns the place at `row` of the document and `column` of the
    /// screen, if any. Columns off the screen have no owner.
    pub fn owner(&self, row: usize, column: usize) -> Option<ComponentId>
        ensures { (w h s : ℕ) (shown : ViewState) → IsLayoutIndexOf w h s shown self.now →
            result ≡ (if nat_lt column w then owner w h s shown row column else None) }
    {
        self.owner_on(&self.row_owners(row), column)
    }

    /// If the item of `key` is visible, returns its first row in the document and its number of
    /// rows.
    pub fn span(&self, key: SelectionKey) -> Option<(usize, usize)>
        ensures { (w h s : ℕ) (shown : ViewState) → IsLayoutIndexOf w h s shown self.now →
            result ≡ span shown key }
    {
        self.rows.rows_by_key(key)
    }

    /// Returns the number of rows that the document, the menu bar and the open dialogs span.
    pub fn extent(&self) -> usize
        ensures { (w h s : ℕ) (shown : ViewState) → IsLayoutIndexOf w h s shown self.now →
            result ≡ extent w h s shown }
    {
        self.extent
    }
}
