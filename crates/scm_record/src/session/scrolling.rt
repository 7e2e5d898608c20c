//! Scrolling the screen over the document.
ghost use Rattle.std.specs.Prelude.{◌≡◌, ◌↔◌, IsTrue, [], ◌∷◌};
ghost use Rattle.scm_input.specs.declared.events.Event.TheVariants.{EnsureSelectionInViewport};

use super::ActiveSession;
use crate::frame::DrawnFrame;
use scm_input::Event;

/// Returns whether `events` is `EnsureSelectionInViewport` alone.
fn is_ensure_alone(events: &[Event]) -> bool
    ensures { IsTrue result ↔ events.now ≡ EnsureSelectionInViewport ∷ [] }
{
    matches!(events, [Event::EnsureSelectionInViewport])
}

impl<'state> ActiveSession<'state> {
    ghost use Rattle.std.specs.Prelude.{◌≡◌, ◌↔◌, ◌+◌, ◌-◌, IsTrue, [], ◌∷◌};
    ghost use Rattle.scm_input.specs.declared.events.Event.TheVariants.{EnsureSelectionInViewport};
    ghost use Rattle.scm_input.specs.declared.inputs.TerminalKind.{TerminalKind};
    ghost use Rattle.scm_record.specs.Frames.{HasSize, IsSceneOf, Scene};
    ghost use Rattle.scm_record.specs.FrameQueries.{scroll_to_show};
    ghost use Rattle.scm_record.specs.Session.{after_frame, with_scroll};
    ghost use Rattle.scm_record.specs.Pages.{after_scroll};
    ghost use Rattle.scm_record.specs.Step.{change};
    ghost use Rattle.scm_record.specs.Change.{stays};
    ghost use Rattle.scm_record.specs.Quiet.{IsQuiet, after_ensure};

    /// Scrolls so that the screen's first row shows `row` of the document, limited to the extent of
    /// `frame`.
    fn scroll_to(&mut self, frame: &DrawnFrame, row: usize)
        ensures { (scene : Scene) → IsSceneOf scene frame.now →
            self.new ≡ after_scroll scene self.old row }
    {
        self.scroll = frame.limited_scroll(row);
    }

    /// Scrolls up by `rows`.
    pub(super) fn scroll_up(&mut self, frame: &DrawnFrame, rows: usize)
        ensures { (scene : Scene) → IsSceneOf scene frame.now →
            self.new ≡ after_scroll scene self.old (self.old.scroll - rows) }
    {
        self.scroll_to(frame, self.scroll.saturating_sub(rows));
    }

    /// Scrolls down by `rows`.
    pub(super) fn scroll_down(&mut self, frame: &DrawnFrame, rows: usize)
        ensures { (scene : Scene) → IsSceneOf scene frame.now →
            self.new ≡ after_scroll scene self.old (self.old.scroll + rows) }
    {
        self.scroll_to(frame, self.scroll.saturating_add(rows));
    }

    /// Scrolls up by the height of the screen.
    pub(super) fn page_up(&mut self, frame: &DrawnFrame)
        ensures { (scene : Scene) → IsSceneOf scene frame.now →
            self.new ≡ after_scroll scene self.old (self.old.scroll - scene.height) }
    {
        self.scroll_up(frame, frame.height());
    }

    /// Scrolls down by the height of the screen.
    pub(super) fn page_down(&mut self, frame: &DrawnFrame)
        ensures { (scene : Scene) → IsSceneOf scene frame.now →
            self.new ≡ after_scroll scene self.old (self.old.scroll + scene.height) }
    {
        self.scroll_down(frame, frame.height());
    }

    /// Scrolls so that the selection is on the screen.
    pub(crate) fn show_selection(&mut self, frame: &DrawnFrame)
        ensures { (scene : Scene) → IsSceneOf scene frame.now →
            self.new ≡ with_scroll self.old
            (scroll_to_show scene self.old.scroll self.old.shown.selection) }
    {
        self.scroll = frame.scroll_to_show(self.scroll, self.view_state.selection);
    }

    /// Returns true only if `event` leaves the session unchanged: it is `None`, or
    /// `EnsureSelectionInViewport` with the selection already on the screen.
    pub(crate) fn is_kept_by(&self, frame: &DrawnFrame, event: Event) -> bool
        ensures { IsTrue result → (scene : Scene) → IsSceneOf scene frame.now →
            change scene self.now event ≡ stays self.now }
    {
        match event {
            Event::None => true,
            Event::EnsureSelectionInViewport => {
                frame.scroll_to_show(self.scroll, self.view_state.selection) == self.scroll
            }
            _ => false,
        }
    }

    /// Returns whether `EnsureSelectionInViewport` alone is pending.
    pub(crate) fn has_ensure_alone(&self) -> bool
        ensures { IsTrue result ↔ self.now.pending ≡ EnsureSelectionInViewport ∷ [] }
    {
        is_ensure_alone(self.pending.as_slice())
    }

    /// Returns whether the next turn is quiet: it has a plain frame, and then shows the selection, and
    /// nothing else. Nobody sees that frame.
    pub(crate) fn is_quiet(&self, frame: &DrawnFrame) -> bool
        ensures { IsTrue result ↔ IsQuiet self.now frame.now }
    {
        is_ensure_alone(self.pending.as_slice()) && frame.is_plain(self.view_state.view_mode)
    }

    /// Passes over the frame of a quiet turn: handles the pending `EnsureSelectionInViewport` by the
    /// rows of the layout, as if the session were drawn on `frame`.
    pub(crate) fn pass_unseen(&mut self, frame: &DrawnFrame)
        requires quiet { IsQuiet self.old frame.now }
        ensures { (kind : TerminalKind) → HasSize kind frame.now
            → self.new ≡ after_ensure kind (after_frame self.old) }
    {
        self.begin_frame();
        self.pending.clear();
        let selection = self.view_state.selection;
        self.scroll = frame.scroll_by_rows(&self.layout.rows, self.scroll, selection);
    }
}
