//! A menu of the menu bar: its header and its items.
ghost use Rattle.std.specs.Prelude.{◌≡◌, ◌++◌, IfOk, OnOk};
ghost use Rattle.scm_widgets.specs.Buttons.{ArePlacedInRange};
ghost use Rattle.scm_overlay.specs.Menus.{header_button, item_button, placed_items, widest_item};

use scm_cells::Rect;
use scm_render::{Component, Viewport};
use scm_types::{Items, RecordError, Text};
use scm_widgets::button::{Button, button_width};
use scm_widgets::ids::ComponentId;
use scm_widgets::placed_button::PlacedButton;
use std::alloc::{AllocError, Global};

/// An item of a menu.
#[derive(Drop)]
pub struct MenuItem<'a> {
    /// The label of the item, without the brackets.
    pub label: Text<'a>,
}

impl<'a> MenuItem<'a> {
    /// Returns the button of the item, which is item `item_idx` of its menu, counted from 0.
    fn button(&self, item_idx: usize) -> Button<'_, ComponentId>
        ensures { result ≡ item_button item_idx self.now }
    {
        Button {
            id: ComponentId::MenuItem(item_idx),
            label: self.label.borrowed(),
            is_focused: false,
        }
    }
}

/// A menu. As a component it is the open menu: its items, one per row, on spaces as wide as the
/// widest item. An item that is wider than the screen is clipped, without an ellipsis.
#[derive(Drop)]
pub struct Menu<'a> {
    /// The label of the menu's header in the menu bar.
    pub label: Text<'a>,
    /// The items of the menu, from the top.
    pub items: Items<MenuItem<'a>>,
}

impl<'a> Menu<'a> {
    /// Returns the button of the menu's header in the menu bar, where the menu has the index
    /// `menu_idx`, counted from 0.
    pub fn header(&self, menu_idx: usize) -> Button<'_, ComponentId>
        ensures { result ≡ header_button menu_idx self.now }
    {
        Button {
            id: ComponentId::Menu(menu_idx),
            label: self.label.borrowed(),
            is_focused: false,
        }
    }
}

/// Returns the width of the widest item in columns, brackets included.
fn widest_item(items: &[MenuItem<'_>]) -> Result<usize, AllocError>
    ensures ok { IfOk result (λ n. n ≡ widest_item items.now) }
{
    let mut widest: usize = 0;
    for item in items {
        let width = button_width(&item.button(0))?;
        widest = widest.max(width);
    }
    Ok(widest)
}

/// Adds `items` in their places to `placed`: one per row from row `y` on, each from column `x` on.
pub(crate) fn place_items<'m>(
    placed: &mut Vec<PlacedButton<'m, ComponentId>>,
    x: isize,
    y: isize,
    items: &'m [MenuItem<'_>],
) -> Result<(), AllocError>
    requires { ArePlacedInRange (placed_items x y 0 items.now) }
    ensures ok { OnOk result (placed.new.items ≡ placed.old.items ++ placed_items x y 0 items.now) }
{
    let mut row = y;
    for (item_idx, item) in items.iter().enumerate() {
        let button = item.button(item_idx);
        let width = button_width(&button)?;
        placed.push(PlacedButton::new(x, row, width, button))?;
        row += 1;
    }
    Ok(())
}

impl<'a> Component for Menu<'a> {
    type Id = ComponentId;

    ghost use Rattle.scm_widgets.specs.declared.ids.ComponentId.TheVariants.{MenuHeader};
    ghost use Rattle.scm_overlay.specs.Menus.{menu_picture};

    ghost key = { λ m. MenuHeader };

    ghost use Rattle.std.specs.Prelude.{◌*◌, length};

    ghost picture = { λ m. menu_picture m.items };

    ghost rows = { λ m s x y. 0 };

    ghost calls = { λ m s x y. 2 * length m.items };

    fn id(&self) -> ComponentId {
        ComponentId::MenuHeader
    }

    fn draw(
        &self,
        alloc: Global,
        viewport: &mut Viewport<ComponentId>,
        x: isize,
        y: isize,
    ) -> Result<(), RecordError> {
        let width = widest_item(self.items.as_slice())?;
        let mut items = Vec::new(alloc);
        place_items(&mut items, x, y, self.items.as_slice())?;
        for item in &items {
            let place = item.rect;
            viewport.draw_blank(Rect {
                x: place.x,
                y: place.y,
                width,
                height: 1,
            })?;
            viewport.draw_part(place.x, place.y, &item.button)?;
        }
        Ok(())
    }
}
