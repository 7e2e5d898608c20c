//! What the indexes of an inline frame measure: the screen, row ranges, and the rectangles of the dialogs.
ghost use Rattle.std.specs.Prelude.{◌≡◌, ◌<◌, ◌≤◌, ◌^◌, ◌++◌, if◌then◌else◌, None, Some, option_map, IfOk, OnOk};
ghost use Rattle.scm_types.specs.Limits.{max_scroll};
ghost use Rattle.scm_widgets.specs.DrawBounds.{RectIsInDrawBounds};
ghost use Rattle.scm_widgets.specs.Screens.{screen};
ghost use Rattle.scm_overlay.specs.Tables.{help_dialog, quit_dialog};
ghost use Rattle.scm_overlay.specs.OverlayRects.{dialog_run, help_dialog_rects, quit_dialog_rects};
ghost use Rattle.scm_view.specs.Runs.{document_run, joined, joined_with};

use scm_cells::Rect;
use scm_overlay::help_dialog::HelpDialog;
use scm_overlay::quit_dialog::QuitDialog;
use scm_render::centred_gap;
use scm_widgets::overlay_rects::OverlayRect;
use std::alloc::{AllocError, Global};

/// Returns the part of the document that a screen of `width` columns and `height` rows shows. Its
/// first row shows row `scroll` of the document.
#[tactic(auto, using(scm_types::proofs::LimitLemmas::scroll_room))]
pub fn screen(width: u16, height: u16, scroll: usize) -> Rect
    requires { scroll ≤ max_scroll }
    ensures { result ≡ screen width height scroll }
{
    Rect {
        x: 0,
        y: scroll as isize,
        width: usize::from(width),
        height: usize::from(height),
    }
}

/// Returns the least row range that holds both. A row range is its first row and its end row
/// (exclusive).
pub fn joined(run: (usize, usize), other: (usize, usize)) -> (usize, usize)
    ensures { result ≡ joined run other }
{
    (run.0.min(other.0), run.1.max(other.1))
}

/// Returns the least row range that holds `run` and, if there is one, `other`.
pub fn joined_with(run: (usize, usize), other: Option<(usize, usize)>) -> (usize, usize)
    ensures { result ≡ joined_with run other }
{
    match other {
        None => run,
        Some(other) => joined(run, other),
    }
}

/// Returns the row range that a document covers: `1..end`, or without files the rows of the message
/// and of the empty-state text. The message has `message` rows; `height` rows of the document are
/// visible.
pub fn document_run(height: usize, message: usize, is_empty: bool, end: usize) -> (usize, usize)
    requires height { height < 2 ^ 16 }
    requires message { message ≤ 3 }
    ensures { result ≡ document_run height message is_empty end }
{
    if !is_empty {
        return (1, end);
    }
    let row = 1 + centred_gap(height, 1, 50);
    let words = (row, row + 1);
    if message == 0 {
        words
    } else {
        joined((1, 1 + message), words)
    }
}

/// If the quit dialog is open, adds its rectangles and returns its row range. The screen shows the
/// part `screen` of the document.
///
/// # Errors
/// `AllocError`: an allocation failed.
pub fn push_quit(
    alloc: Global,
    rects: &mut Vec<OverlayRect>,
    screen: Rect,
    dialog: Option<QuitDialog>,
) -> Result<Option<(usize, usize)>, AllocError>
    requires { RectIsInDrawBounds screen }
    ensures rows { IfOk result (λ r. r
        ≡ option_map (λ q. dialog_run screen (quit_dialog q)) dialog) }
    ensures ok { OnOk result
        (rects.new.items ≡ rects.old.items ++ quit_dialog_rects screen dialog) }
{
    match dialog {
        None => Ok(None),
        Some(dialog) => Ok(Some(dialog.push_rects(alloc, rects, screen)?)),
    }
}

/// If the help dialog `is_open`, adds its rectangles and returns its row range. The screen shows the
/// part `screen` of the document.
///
/// # Errors
/// `AllocError`: an allocation failed.
pub fn push_help(
    alloc: Global,
    rects: &mut Vec<OverlayRect>,
    screen: Rect,
    is_open: bool,
) -> Result<Option<(usize, usize)>, AllocError>
    requires { RectIsInDrawBounds screen }
    ensures rows { IfOk result (λ r. r
        ≡ (if is_open then Some (dialog_run screen help_dialog) else None)) }
    ensures ok { OnOk result
        (rects.new.items ≡ rects.old.items ++ help_dialog_rects screen is_open) }
{
    if is_open {
        Ok(Some(HelpDialog().push_rects(alloc, rects, screen)?))
    } else {
        Ok(None)
    }
}
