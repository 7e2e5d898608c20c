//! The index of an inline frame: hit tests, the row ranges of keys, and the extent.
ghost use Rattle.std.specs.Prelude.{◌≡◌, ℕ, nat_lt, if◌then◌else◌, None, IfOk, IfErr};
ghost use Rattle.scm_errors.specs.declared.error.RecordError.TheVariants.{OutOfMemory};
ghost use Rattle.scm_view.specs.ViewState.{ViewState};
ghost use Rattle.scm_view.specs.Window.{IsPlain, ShowsInline, extent, owner, span};
ghost use Rattle.scm_view.specs.Index.{IsIndexOf, owner_in};

use crate::app_view::AppView;
use crate::frame_measures::{document_run, joined, joined_with, push_help, push_quit, screen};
use scm_document::commit_view::push_pieces;
use scm_document::index_pieces::{Piece, pieces_among, push_pinned};
use scm_document::key_rows::find_in;
use scm_types::{RecordError, SelectionKey};
use scm_widgets::ids::ComponentId;
use scm_widgets::overlay_rects::{OverlayRect, overlay_owner};
use std::alloc::Global;

/// The index of an inline frame: the owner of each place, the rows of each key, and the extent. It
/// needs memory for each file and section, but not for their lines. An answer walks over them.
#[derive(Drop)]
pub struct FrameIndex {
    /// The width of the screen, in columns.
    width: u16,
    /// The rectangles over the rows of files: the message's button, the pinned header, the menu bar
    /// with its open menu, and the dialogs. Where two overlap, the later one owns the place.
    rects: Vec<OverlayRect>,
    /// The files and their visible sections, with their row ranges.
    pieces: Vec<Piece>,
    /// The extent: the number of rows that the frame spans.
    extent: usize,
}

impl FrameIndex {
    /// Returns the index of the frame of `view` on a screen of `width` columns and `height` rows.
    /// The screen's first row shows row `scroll` of the document.
    ///
    /// # Errors
    ///
    /// `OutOfMemory`: an allocation failed.
    #[tactic(auto, using(scm_types::proofs::LimitLemmas::scroll_room))]
    pub fn new(
        alloc: Global,
        view: &AppView<'_>,
        width: u16,
        height: u16,
        scroll: usize,
    ) -> Result<FrameIndex, RecordError>
        requires shows { ShowsInline view.now width height scroll }
        ensures ok { IfOk result (λ index. (shown : ViewState) → IsPlain view.now shown width height
            → IsIndexOf width height scroll shown index) }
        ensures err { IfErr result (λ e. e ≡ OutOfMemory) }
    {
        let commit = &view.commit_views.as_slice()[0];
        let message = commit.commit_message_view.height();
        let views = commit.file_views.as_slice();
        let columns = usize::from(width);
        let screen = screen(width, height, scroll);
        let mut rects = Vec::new(alloc);
        let mut pieces = Vec::new(alloc);
        let end = push_pieces(&mut pieces, scroll + 1, 1 + message, views)?;
        commit.commit_message_view.push_rects(&mut rects)?;
        let pinned = pieces_among(&pieces, scroll + 1);
        push_pinned(&mut rects, columns, scroll + 1, pinned)?;
        let bar = view.menu_bar.push_rects(alloc, &mut rects, screen)?;
        let quit = push_quit(alloc, &mut rects, screen, view.quit_dialog)?;
        let is_help_open = view.help_dialog.is_some();
        let help = push_help(alloc, &mut rects, screen, is_help_open)?;
        let rows = usize::from(height).saturating_sub(1);
        let document = document_run(rows, message, views.is_empty(), end);
        let run = joined_with(
            joined_with(joined((scroll, scroll + bar), document), quit),
            help,
        );
        let extent = run.1.saturating_sub(run.0);
        Ok(FrameIndex {
            width,
            rects,
            pieces,
            extent,
        })
    }

    /// Returns the component that owns the place at `row` of the document and `column` of the
    /// screen, if any. Columns off the screen have no owner.
    pub fn owner(&self, row: usize, column: usize) -> Option<ComponentId>
        ensures { (w h s : ℕ) (shown : ViewState) → IsIndexOf w h s shown self.now →
            result ≡ (if nat_lt column w then owner w h s shown row column else None) }
    {
        self.owner_in(row, column)
    }

    /// If the item of `key` is visible, returns its first row in the document and its number of
    /// rows.
    pub fn span(&self, key: SelectionKey) -> Option<(usize, usize)>
        ensures { (w h s : ℕ) (shown : ViewState) → IsIndexOf w h s shown self.now →
            result ≡ span shown key }
    {
        find_in(&self.pieces, key)
    }

    /// Returns the number of rows that the document, the menu bar and the open dialogs span.
    pub fn extent(&self) -> usize
        ensures { (w h s : ℕ) (shown : ViewState) → IsIndexOf w h s shown self.now →
            result ≡ extent w h s shown }
    {
        self.extent
    }

    /// Returns the owner of the place at `row` and `column`, if any.
    fn owner_in(&self, row: usize, column: usize) -> Option<ComponentId>
        ensures { result ≡ owner_in self.now row column }
    {
        let width = usize::from(self.width);
        if width <= column {
            return None;
        }
        let overlay = overlay_owner(&self.rects, row, column);
        match overlay {
            Some(_) => overlay,
            None => pieces_among(&self.pieces, row)?.owner(width, row, column),
        }
    }
}
