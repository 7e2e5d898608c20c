//! The menu bar on the screen's first row, with its open menu.
ghost use Rattle.std.specs.Prelude.{◌≡◌, ◌+◌, ◌++◌, pos, ◌+ℤ◌, length, None, OnOk, IfOk};
ghost use Rattle.scm_cells.specs.Rect.{InRange};
ghost use Rattle.scm_render.specs.Picture.{PictureInRange};
ghost use Rattle.scm_widgets.specs.Buttons.{ArePlacedInRange};
ghost use Rattle.scm_widgets.specs.DrawBounds.{RectIsInDrawBounds};
ghost use Rattle.scm_overlay.specs.Menus.{menus_before, menu_bar_picture as as_drawn, open_menu, placed_headers, placed_open};
ghost use Rattle.scm_overlay.specs.OverlayRects.{menu_bar_rects, open_menu_height};

use crate::menu::{Menu, place_items};
use scm_cells::Rect;
use scm_render::{Component, Viewport};
use scm_types::{Items, RecordError};
use scm_widgets::button::button_width;
use scm_widgets::ids::ComponentId;
use scm_widgets::overlay_rects::OverlayRect;
use scm_widgets::placed_button::{PlacedButton, draw_buttons, push_buttons};
use std::alloc::{AllocError, Global};

/// The menu bar: the menu headers side by side on the screen's first row, which is blank otherwise,
/// and the open menu below its header.
#[derive(Drop)]
pub struct MenuBar<'a> {
    /// The menus, from the left.
    pub menus: Items<Menu<'a>>,
    /// The index of the open menu, counted from 0. An index past the menus opens none.
    pub expanded_menu_idx: Option<usize>,
}

/// Places the headers of `menus` side by side on row `y`, with one column between two. The first
/// one begins at column `x`.
fn place_headers<'m>(
    alloc: Global,
    x: isize,
    y: isize,
    menus: &'m [Menu<'_>],
) -> Result<Vec<PlacedButton<'m, ComponentId>>, AllocError>
    requires { ArePlacedInRange (placed_headers x y 0 menus.now) }
    ensures ok { IfOk result (λ placed. placed.items ≡ placed_headers x y 0 menus.now) }
{
    let mut placed = Vec::new(alloc);
    let mut column = x;
    for (menu_idx, menu) in menus.iter().enumerate() {
        let header = menu.header(menu_idx);
        let width = button_width(&header)?;
        placed.push(PlacedButton::new(column, y, width, header))?;
        column = column.strict_add_unsigned(width) + 1;
    }
    Ok(placed)
}

impl<'a> MenuBar<'a> {
    /// Returns the number of menus before the open one, or of all menus if none is open.
    fn open_idx(&self) -> usize
        ensures { result ≡ menus_before self.now.expanded_menu_idx (length self.now.menus) }
    {
        let count = self.menus.len();
        match self.expanded_menu_idx {
            Some(menu_idx) => menu_idx.min(count),
            None => count,
        }
    }

    /// Places the headers, the first one at column `x` of row `y`, and below its header the items
    /// of the open menu, if one is open.
    fn place_buttons(
        &self,
        alloc: Global,
        x: isize,
        y: isize,
    ) -> Result<Vec<PlacedButton<'_, ComponentId>>, AllocError>
        requires below { InRange (y +ℤ pos 1) }
        requires headers { ArePlacedInRange (placed_headers x y 0 self.now.menus) }
        requires items { ArePlacedInRange (placed_open x y (open_menu self.now)) }
        ensures ok { IfOk result (λ placed. placed.items
            ≡ placed_headers x y 0 self.now.menus ++ placed_open x y (open_menu self.now)) }
    {
        let menus = self.menus.as_slice();
        let mut placed = place_headers(alloc, x, y, menus)?;
        let open = self.open_idx();
        if menus.len() <= open {
            return Ok(placed);
        }
        let places = placed.as_slice();
        prove!(open < places.len());
        let column = places[open].rect.x;
        place_items(&mut placed, column, y + 1, menus[open].items.as_slice())?;
        Ok(placed)
    }

    /// Adds the rectangles of the bar, of its headers, and of the items of the open menu to
    /// `rects`. Returns the number of rows of the bar and the open menu. The screen shows the part
    /// `screen` of the document.
    ///
    /// # Errors
    /// `AllocError`: an allocation failed.
    pub fn push_rects(
        &self,
        alloc: Global,
        rects: &mut Vec<OverlayRect>,
        screen: Rect,
    ) -> Result<usize, AllocError>
        requires screen { RectIsInDrawBounds screen }
        requires picture { PictureInRange (as_drawn self.now
            (record { rect = screen; mask = None }) screen.x screen.y) }
        ensures rows { IfOk result (λ rows. rows ≡ 1 + open_menu_height (open_menu self.now)) }
        ensures ok { OnOk result
            (rects.new.items ≡ rects.old.items ++ menu_bar_rects screen self.now) }
    {
        let placed = self.place_buttons(alloc, screen.x, screen.y)?;
        let height = 1 + placed.len().saturating_sub(self.menus.len());
        rects.push(OverlayRect {
            id: ComponentId::MenuBar,
            rect: Rect { height, ..screen },
        })?;
        push_buttons(rects, placed.as_slice())?;
        Ok(height)
    }
}

impl<'a> Component for MenuBar<'a> {
    type Id = ComponentId;

    ghost use Rattle.scm_widgets.specs.declared.ids.ComponentId.TheVariants as ids;
    ghost use Rattle.scm_overlay.specs.Menus.{menu_bar_picture};

    ghost key = { λ b. ids.MenuBar };

    ghost use Rattle.scm_overlay.specs.Counts.{bar_calls};

    ghost picture = { menu_bar_picture };

    ghost rows = { λ b s x y. 0 };

    ghost calls = { λ b s x y. bar_calls b };

    fn id(&self) -> ComponentId {
        ComponentId::MenuBar
    }

    fn draw(
        &self,
        alloc: Global,
        viewport: &mut Viewport<ComponentId>,
        x: isize,
        y: isize,
    ) -> Result<(), RecordError> {
        viewport.draw_blank(viewport.rect().top_row())?;
        let menus = self.menus.as_slice();
        let headers = place_headers(alloc, x, y, menus)?;
        draw_buttons(viewport, headers.as_slice())?;
        let open = self.open_idx();
        if menus.len() <= open {
            return Ok(());
        }
        let places = headers.as_slice();
        prove!(open < places.len());
        let column = places[open].rect.x;
        viewport.draw_part(column, y + 1, &menus[open])?;
        Ok(())
    }
}
