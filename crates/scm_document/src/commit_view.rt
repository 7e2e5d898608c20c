//! The document of a commit.
ghost use Rattle.scm_document.specs.declared.commit_view.CommitViewMode.TheVariants.{Inline};
ghost use Rattle.scm_document.specs.ViewColumns.{view_count, view_width};
ghost use Rattle.std.specs.Prelude.{◌≡◌, ◌+◌, ◌<◌, ◌^◌, ◌++◌, ◌&&◌, int_lt, pos, ◌+ℤ◌, Some, None, map, OnOk, IfOk, length};
ghost use Rattle.scm_cells.specs.Rect.{InRange};
ghost use Rattle.scm_cells.specs.Mask.{MaskInRange, SideInRange};
ghost use Rattle.scm_document.specs.Counts.{document_counts};
ghost use Rattle.scm_document.specs.DocumentCalls.{pinned_header_call, pinned_call, one_file_call, files_call, body_call};
ghost use Rattle.scm_document.specs.Rows.{shown_file, file_rows, document_of};
ghost use Rattle.scm_document.specs.ViewPieces.{files_height};
ghost use Rattle.scm_document.specs.Pieces.{files_pieces};
ghost use Rattle.scm_document.specs.Pictures.{mask_row, commit_picture};
ghost use Rattle.scm_render.specs.Draws.{CanDraw, HasDrawn};
ghost use Rattle.scm_widgets.specs.Pictures.{to_end};

use crate::commit_message_view::CommitMessageView;
use crate::file_view::FileView;
use crate::index_pieces::Piece;
use crate::no_files::draw_no_files;
use scm_cells::Mask;
use scm_render::{Component, Viewport};
use scm_types::{Items, RecordError};
use scm_widgets::ids::ComponentId;
use scm_widgets::mask_extent::{draw_under, to_end};
use std::alloc::{AllocError, Global};

/// Whether one commit is shown, or two side by side.
#[derive(Clone, Copy)]
pub enum CommitViewMode {
    /// The first commit alone.
    Inline,
    /// The first two commits, side by side.
    Adjacent,
}

/// The document of a commit: its message, and its files below.
#[derive(Drop)]
pub struct CommitView<'a> {
    /// View of the commit's message.
    pub commit_message_view: CommitMessageView<'a>,
    /// Views of the files, in order.
    pub file_views: Items<FileView<'a>>,
}

/// Returns the first row that the mask shows.
fn mask_row(viewport: &Viewport<ComponentId>) -> isize
    ensures row { result ≡ mask_row viewport.now.canvas.sight }
    ensures in_range { InRange result }
{
    let mask = viewport.mask();
    mask.y
}

/// Returns the mask from column `x` to the end of the mask in sight: on `height` rows from row `y` on,
/// or on all of them.
fn rest_mask(viewport: &Viewport<ComponentId>, x: isize, y: isize, height: Option<usize>) -> Mask
    requires x { InRange x }
    requires y { InRange y }
    requires end { SideInRange y height }
    ensures mask { result ≡ record {
      x = x;
      y = y;
      width = Some (to_end viewport.now.canvas.sight x);
      height = height;
    } }
    ensures in_range { MaskInRange result }
{
    Mask {
        x,
        y,
        width: Some(to_end(viewport, x)),
        height,
    }
}

/// Returns whether `row` is below row `above` and above row `below`.
fn is_between(above: isize, row: isize, below: isize) -> bool
    ensures { result ≡ (int_lt above row && int_lt row below) }
{
    // `&`: one branch for the prover
    (above < row) & (row < below)
}

/// Draws the header of `file` under a mask of one row.
fn draw_header(
    viewport: &mut Viewport<ComponentId>,
    x: isize,
    y: isize,
    file: &FileView<'_>,
) -> Result<(), RecordError>
    requires { CanDraw viewport.old (pinned_header_call (shown_file file.now) x y) }
    ensures { HasDrawn viewport.old viewport.new result
        (pinned_header_call (shown_file file.now) x y) }
{
    let header = file.header();
    let row = rest_mask(viewport, x, y, Some(1));
    draw_under(viewport, row, x, y, &header)
}

/// Draws the sticky header of `file` on the mask's first row, if the file begins above that row and
/// ends below it. The file has the rows `y..below`.
fn draw_pinned(
    viewport: &mut Viewport<ComponentId>,
    x: isize,
    y: isize,
    below: isize,
    file: &FileView<'_>,
) -> Result<(), RecordError>
    requires below { below ≡ y +ℤ pos (length (file_rows (shown_file file.now))) }
    requires picture { CanDraw viewport.old (pinned_call (shown_file file.now) x y) }
    ensures { HasDrawn viewport.old viewport.new result (pinned_call (shown_file file.now) x y) }
{
    let row = mask_row(viewport);
    if is_between(y, row, below) {
        draw_header(viewport, x, row, file)
    } else {
        Ok(())
    }
}

/// Draws `file` and its sticky header, and returns the row below the file.
fn draw_file(
    viewport: &mut Viewport<ComponentId>,
    x: isize,
    y: isize,
    file: &FileView<'_>,
) -> Result<isize, RecordError>
    requires { CanDraw viewport.old (one_file_call (shown_file file.now) x y) }
    ensures draws { HasDrawn viewport.old viewport.new result
        (one_file_call (shown_file file.now) x y) }
    ensures below { IfOk result (λ row. row ≡ y +ℤ pos (length (file_rows (shown_file file.now)))) }
{
    let below = file.row_below(y);
    let rows = rest_mask(viewport, x, y, None);
    draw_under(viewport, rows, x, y, file)?;
    draw_pinned(viewport, x, y, below, file)?;
    Ok(below)
}

/// Draws `files` from row `y` on.
fn draw_files(
    viewport: &mut Viewport<ComponentId>,
    x: isize,
    y: isize,
    files: &[FileView<'_>],
) -> Result<(), RecordError>
    requires { CanDraw viewport.old (files_call (map shown_file files.now) x y) }
    ensures { HasDrawn viewport.old viewport.new result
        (files_call (map shown_file files.now) x y) }
{
    let mut row = y;
    for file in files {
        row = draw_file(viewport, x, row, file)?;
    }
    Ok(())
}

/// Draws the files below a message of `height` rows, or the empty-state text.
fn draw_body(
    viewport: &mut Viewport<ComponentId>,
    x: isize,
    y: isize,
    height: usize,
    files: &[FileView<'_>],
) -> Result<(), RecordError>
    requires { CanDraw viewport.old (body_call (map shown_file files.now) x y (y +ℤ pos height)) }
    ensures { HasDrawn viewport.old viewport.new result
        (body_call (map shown_file files.now) x y (y +ℤ pos height)) }
{
    if files.is_empty() {
        draw_no_files(viewport, x, y)
    } else {
        let first = y.strict_add_unsigned(height);
        draw_files(viewport, x, first, files)
    }
}

/// Adds the pieces of the files of `views` and of their sections to `pieces`. Returns the row below
/// them. The first file begins on row `top`; a header may be pinned to row `pinned`.
///
/// # Errors
/// `AllocError`: an allocation failed.
pub fn push_pieces(
    pieces: &mut Vec<Piece>,
    pinned: usize,
    top: usize,
    views: &[FileView<'_>],
) -> Result<usize, AllocError>
    requires { top + files_height views.now < 2 ^ 62 }
    ensures end { IfOk result (λ end. end ≡ top + files_height views.now) }
    ensures ok { OnOk result
        (pieces.new.items ≡ pieces.old.items ++ files_pieces pinned top views.now) }
{
    let mut row = top;
    for view in views {
        row = view.push_pieces(pieces, pinned, row)?;
    }
    Ok(row)
}

impl<'a> Component for CommitView<'a> {
    type Id = ComponentId;

    ghost use Rattle.scm_widgets.specs.declared.ids.ComponentId.TheVariants as ids;

    ghost key = { λ v. ids.AppFiles };

    ghost picture = { commit_picture };

    ghost rows = { λ v s x y. (document_counts (document_of v) s y).rows };

    ghost calls = { λ v s x y. (document_counts (document_of v) s y).calls };

    fn id(&self) -> ComponentId {
        ComponentId::AppFiles
    }

    fn draw(
        &self,
        _alloc: Global,
        viewport: &mut Viewport<ComponentId>,
        x: isize,
        y: isize,
    ) -> Result<(), RecordError> {
        let height = self.commit_message_view.height();
        let files = self.file_views.as_slice();
        viewport.draw_part(x, y, &self.commit_message_view)?;
        draw_body(viewport, x, y, height, files)
    }
}

impl CommitViewMode {
    /// Returns the number of documents that this mode draws, at most.
    pub fn view_count(self) -> usize
        ensures { result ≡ view_count self }
    {
        match self {
            CommitViewMode::Inline => 1,
            CommitViewMode::Adjacent => 2,
        }
    }

    /// Returns the width of each document on a screen of `columns` columns.
    pub fn view_width(self, columns: usize) -> usize
        ensures { result ≡ view_width self columns }
    {
        match self {
            CommitViewMode::Inline => columns,
            CommitViewMode::Adjacent => (columns.saturating_sub(1) / 2).min(120),
        }
    }
}
