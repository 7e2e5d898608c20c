//! The headings of files and sections: two boxes, and a title between them.
ghost use Rattle.scm_document.specs.DocumentCalls.{title_call, heading_call};
ghost use Rattle.scm_document.specs.Titles.{title_text};
ghost use Rattle.scm_render.specs.Draws.{CanDraw, HasDrawn};

use crate::title::{Title, show_title};
use scm_cells::{Mask, gap};
use scm_render::Viewport;
use scm_types::RecordError;
use scm_widgets::clipped_drawing::{show_blank, show_box};
use scm_widgets::ids::ComponentId;
use scm_widgets::mask_extent::fold_column;
use scm_widgets::tristate_box::TristateBox;
use std::alloc::Global;

/// Draws what is to the left of a fold box: `width` spaces, and over them a checkbox and a title.
fn draw_before_fold(
    alloc: Global,
    viewport: &mut Viewport<ComponentId>,
    x: isize,
    y: isize,
    width: usize,
    toggle_box: &TristateBox<ComponentId>,
    title: &Title<'_>,
) -> Result<(), RecordError>
    requires { CanDraw viewport.old
        (title_call toggle_box.now (title_text title.now) width x y) }
    ensures { HasDrawn viewport.old viewport.new result
        (title_call toggle_box.now (title_text title.now) width x y) }
{
    show_blank(viewport, x, y, width)?;
    show_box(viewport, x, y, toggle_box)?;
    show_title(alloc, viewport, x + 4, y, title)?;
    Ok(())
}

/// Draws a heading: a fold box at the end of the mask, and a checkbox and a title to its left.
pub(crate) fn draw_heading(
    alloc: Global,
    viewport: &mut Viewport<ComponentId>,
    x: isize,
    y: isize,
    toggle_box: &TristateBox<ComponentId>,
    expand_box: &TristateBox<ComponentId>,
    title: &Title<'_>,
) -> Result<(), RecordError>
    requires { CanDraw viewport.old (heading_call
        (record { toggle = toggle_box.now; fold = expand_box.now; title = title_text title.now })
        x y) }
    ensures { HasDrawn viewport.old viewport.new result (heading_call
        (record { toggle = toggle_box.now; fold = expand_box.now; title = title_text title.now })
        x y) }
{
    let fold_x = fold_column(viewport);
    let width = gap(x, fold_x);
    show_box(viewport, fold_x, y, expand_box)?;
    let outer = viewport.swap_mask(Some(Mask {
        x,
        y,
        width: Some(width),
        height: Some(1),
    }));
    draw_before_fold(alloc, viewport, x, y, width, toggle_box, title)?;
    viewport.swap_mask(outer);
    Ok(())
}
