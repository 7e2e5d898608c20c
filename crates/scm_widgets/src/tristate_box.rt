//! Boxes with three states: checkboxes and expand boxes.
ghost use Rattle.std.specs.Prelude.{◌≡◌, true, false};
ghost use Rattle.scm_widgets.specs.Boxes.{new_toggle_box, new_expand_box};
ghost use Rattle.scm_widgets.specs.Boxes.{is_fold_open};
ghost use Rattle.scm_widgets.specs.Texts.{icon_text, bracketed, box_text};

use crate::ids::ComponentId;
use scm_cells::Span;
use scm_render::{Component, Viewport};
use scm_types::{RecordError, SelectionKey, Tristate};
use std::alloc::Global;
use std::hash::Hash;

/// The kind of a box.
#[derive(Clone, Copy)]
pub enum TristateIconStyle {
    /// A checkbox: it shows a mark.
    Check,
    /// An expand box: it shows a fold.
    Expand,
}

/// A box with three states: a checkbox or an expand box.
#[derive(Drop)]
pub struct TristateBox<Id> {
    /// Whether it may use symbols beyond ASCII.
    pub use_unicode: bool,
    /// Whether the item of the box has the keyboard focus.
    pub is_focused: bool,
    /// Whether the user cannot change the state of the box.
    pub is_read_only: bool,
    /// The id of the box.
    pub id: Id,
    /// The state that the box shows.
    pub tristate: Tristate,
    /// The kind of the box: a checkbox or an expand box.
    pub icon_style: TristateIconStyle,
}

/// Returns the symbol of `tristate` in pointed, in round and in square brackets.
fn bracketed(
    use_unicode: bool,
    icon_style: TristateIconStyle,
    tristate: &Tristate,
) -> (&'static str, &'static str, &'static str)
    ensures pointed { result.0.now ≡ bracketed true false
        (icon_text use_unicode icon_style tristate.now) }
    ensures round { result.1.now ≡ bracketed false true
        (icon_text use_unicode icon_style tristate.now) }
    ensures square { result.2.now ≡ bracketed false false
        (icon_text use_unicode icon_style tristate.now) }
{
    match (icon_style, tristate) {
        (TristateIconStyle::Check, Tristate::False) => ("< >", "( )", "[ ]"),
        (TristateIconStyle::Check, Tristate::Partial) => {
            if use_unicode {
                ("<◐>", "(◐)", "[◐]")
            } else {
                ("<~>", "(~)", "[~]")
            }
        }
        (TristateIconStyle::Check, Tristate::True) => {
            if use_unicode {
                ("<●>", "(●)", "[●]")
            } else {
                ("<*>", "(*)", "[*]")
            }
        }
        (TristateIconStyle::Expand, Tristate::False) => ("<+>", "(+)", "[+]"),
        (TristateIconStyle::Expand, Tristate::Partial) => {
            if use_unicode {
                ("<±>", "(±)", "[±]")
            } else {
                ("<~>", "(~)", "[~]")
            }
        }
        (TristateIconStyle::Expand, Tristate::True) => ("<->", "(-)", "[-]"),
    }
}

/// Returns a copy of `tristate`, without an allocation.
fn copied(tristate: &Tristate) -> Tristate
    ensures { result ≡ tristate.now }
{
    match tristate {
        Tristate::False => Tristate::False,
        Tristate::Partial => Tristate::Partial,
        Tristate::True => Tristate::True,
    }
}

impl TristateBox<ComponentId> {
    /// Returns the checkbox of `key`, with Unicode symbols, neither focused nor read-only.
    pub fn toggle(key: SelectionKey, tristate: Tristate) -> TristateBox<ComponentId>
        ensures { result ≡ new_toggle_box key tristate }
    {
        TristateBox {
            use_unicode: true,
            is_focused: false,
            is_read_only: false,
            id: ComponentId::ToggleBox(key),
            tristate,
            icon_style: TristateIconStyle::Check,
        }
    }

    /// Returns the expand box of `key`, with Unicode symbols, neither focused nor read-only.
    pub fn expand(key: SelectionKey, tristate: Tristate) -> TristateBox<ComponentId>
        ensures { result ≡ new_expand_box key tristate }
    {
        TristateBox {
            use_unicode: true,
            is_focused: false,
            is_read_only: false,
            id: ComponentId::ExpandBox(key),
            tristate,
            icon_style: TristateIconStyle::Expand,
        }
    }
}

impl<Id: Copy> TristateBox<Id> {
    /// Returns a copy of the box, without an allocation.
    pub fn copied(&self) -> TristateBox<Id>
        ensures { result ≡ self.now }
    {
        TristateBox {
            use_unicode: self.use_unicode,
            is_focused: self.is_focused,
            is_read_only: self.is_read_only,
            id: self.id,
            tristate: copied(&self.tristate),
            icon_style: self.icon_style,
        }
    }

    /// Returns whether the item of this expand box is expanded, fully or in part.
    pub fn is_open(&self) -> bool
        ensures { result ≡ is_fold_open self.now }
    {
        match self.tristate {
            Tristate::False => false,
            Tristate::Partial | Tristate::True => true,
        }
    }

    /// Returns the symbol with its brackets: pointed if read-only, round if focused, else square.
    pub fn text(&self) -> &'static str
        ensures { result.now ≡ box_text self.now }
    {
        let (pointed, round, square) = bracketed(self.use_unicode, self.icon_style, &self.tristate);
        if self.is_read_only {
            pointed
        } else if self.is_focused {
            round
        } else {
            square
        }
    }
}

impl<Id: Copy + Eq + Hash + Drop> Component for TristateBox<Id> {
    type Id = Id;

    ghost use Rattle.scm_widgets.specs.Pictures.{box_picture};

    ghost key = { λ b. b.id };

    ghost picture = { box_picture };

    ghost rows = { λ b s x y. 0 };

    ghost calls = { λ b s x y. 1 };

    fn id(&self) -> Id {
        self.id
    }

    fn draw(
        &self,
        alloc: Global,
        viewport: &mut Viewport<Id>,
        x: isize,
        y: isize,
    ) -> Result<(), RecordError> {
        viewport.draw_span(x, y, &Span(self.text()))?;
        Ok(())
    }
}
