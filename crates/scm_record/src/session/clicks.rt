//! Mouse clicks: what each does, by the component that it hits.

use super::{ActiveSession, Flow};
use crate::frame::DrawnFrame;
use scm_input::Event;
use scm_types::RecordError;
use scm_types::keys::is_key;
use scm_view::{ComponentId, SelectionKey};
use scm_view_state::menus::event_of_item;
use std::alloc::AllocError;

impl<'state> ActiveSession<'state> {
    ghost use Rattle.std.specs.Prelude.{◌≡◌, IfErr, IfOk, OnOk};
    ghost use Rattle.scm_errors.specs.declared.error.RecordError.TheVariants.{OutOfMemory};
    ghost use Rattle.scm_record.specs.Frames.{IsSceneOf, Scene};
    ghost use Rattle.scm_record.specs.FrameQueries.{hit};
    ghost use Rattle.scm_record.specs.Session.{after_expand, after_item, after_menu, after_toggle, at_key};
    ghost use Rattle.scm_record.specs.Clicks.{after_box_click, after_click, after_click_on, item_event};

    /// Toggles `key` if it is selected; otherwise selects it.
    fn click_toggle_box(&mut self, key: SelectionKey) -> Result<(), RecordError>
        ensures ok { OnOk result (self.new ≡ after_box_click self.old key (after_toggle self.old)) }
        ensures err { IfErr result (λ e. e ≡ OutOfMemory) }
    {
        if is_key(key, self.view_state.selection) {
            self.toggle();
            Ok(())
        } else {
            self.go_to(key)
        }
    }

    /// Flips the fold of `key` if it is selected; otherwise selects it.
    fn click_expand_box(&mut self, key: SelectionKey) -> Result<(), RecordError>
        ensures ok { OnOk result (self.new ≡ after_box_click self.old key (after_expand self.old)) }
        ensures err { IfErr result (λ e. e ≡ OutOfMemory) }
    {
        if is_key(key, self.view_state.selection) {
            self.flip_fold()
        } else {
            self.go_to(key)
        }
    }

    /// Closes the menu with index `menu` if it is open; otherwise opens it.
    fn click_menu(&mut self, menu: usize)
        ensures { self.new ≡ after_menu self.old menu }
    {
        self.view_state.open_menu = match self.view_state.open_menu {
            Some(open) if open == menu => None,
            Some(_) | None => Some(menu),
        };
    }

    /// Returns the event of item `item` of the menu `open_menu`, if both exist.
    fn item_event(open_menu: Option<usize>, item: usize) -> Option<Event>
        ensures { result ≡ item_event open_menu item }
    {
        event_of_item(open_menu?, item)
    }

    /// Closes the menu, and pushes `event`, if any.
    fn click_item(&mut self, event: Option<Event>) -> Result<(), AllocError>
        ensures { OnOk result (self.new ≡ after_item self.old event) }
    {
        self.view_state.open_menu = None;
        match event {
            None => Ok(()),
            Some(event) => self.push(event),
        }
    }

    /// Handles a click on component `id` of a frame in which the menu `open_menu` was open.
    fn click_on(&mut self, open_menu: Option<usize>, id: ComponentId) -> Result<Flow, RecordError>
        ensures ok { IfOk result (λ flow. after_click_on open_menu self.old id
            ≡ record { session = self.new; flow = flow }) }
        ensures err { IfErr result (λ e. e ≡ OutOfMemory) }
    {
        match id {
            ComponentId::ToggleBox(key) => self.click_toggle_box(key)?,
            ComponentId::ExpandBox(key) => self.click_expand_box(key)?,
            ComponentId::FileViewHeader(key) => self.go_to(SelectionKey::File(key))?,
            ComponentId::SelectableItem(key) => self.go_to(key)?,
            ComponentId::CommitEditMessageButton(commit) => return Ok(self.edit_message(commit)?),
            ComponentId::MenuBar => self.view_state.open_menu = None,
            ComponentId::Menu(menu) => self.click_menu(menu),
            ComponentId::MenuItem(item) => self.click_item(ActiveSession::item_event(
                open_menu, item,
            ))?,
            ComponentId::QuitDialogButton(button) => return Ok(self.press_button(button)),
            ComponentId::HelpDialogQuitButton => self.view_state.is_help_open = false,
            ComponentId::QuitDialog
            | ComponentId::HelpDialog
            | ComponentId::App
            | ComponentId::AppFiles
            | ComponentId::MenuHeader
            | ComponentId::CommitMessageView => {}
        }
        Ok(Flow::GoOn)
    }

    /// Handles a click that hits component `id`, if any, of a frame in which the menu `open_menu`
    /// was open.
    fn click(
        &mut self,
        open_menu: Option<usize>,
        id: Option<ComponentId>,
    ) -> Result<Flow, RecordError>
        ensures ok { IfOk result (λ flow. after_click open_menu self.old id
            ≡ record { session = self.new; flow = flow }) }
        ensures err { IfErr result (λ e. e ≡ OutOfMemory) }
    {
        match id {
            None => Ok(Flow::GoOn),
            Some(id) => self.click_on(open_menu, id),
        }
    }

    /// Handles a click at `row` and `column` of the screen, counted from 0, with `frame` as the
    /// frame last drawn.
    pub(super) fn click_at(
        &mut self,
        frame: &DrawnFrame,
        row: usize,
        column: usize,
    ) -> Result<Flow, RecordError>
        ensures ok { IfOk result (λ flow. (scene : Scene) → IsSceneOf scene frame.now →
            after_click scene.open_menu self.old (hit scene self.old.scroll row column)
            ≡ record { session = self.new; flow = flow }) }
        ensures err { IfErr result (λ e. e ≡ OutOfMemory) }
    {
        self.click(frame.open_menu(), frame.hit(self.scroll, row, column))
    }
}
