//! What a session is painted with: its painters, and the words of what accepting does.
ghost use Rattle.std.specs.Prelude.{◌≡◌, IfNone, IfSome, IsTrue, false, string_bytes};
ghost use Rattle.scm_front_paint.specs.Headings.{AreNamed, AreSomeNamed};
ghost use Rattle.scm_front_paint.specs.Seen.{files_of};
ghost use Rattle.scm_open_session.specs.Headings.{ChangesLabels, HaveLabels};
ghost use Rattle.scm_open_session.specs.Painters.{AreNew, Forget, HaveLabel, HaveTheme, HaveWords, IsLabelled};
ghost use Rattle.scm_open_session.specs.Paint.{ShowsPlain, ShowsRunning, ShowsView};

use crate::running::Running;
use scm_c_values::updates::{update_of, update_of_session};
use scm_front_paint::{FrontPainter, Label, Theme, View};
use scm_record::{LiveSession, OwnedText, Painter};
use std::alloc::Global;

/// What a session is painted with.
#[derive(Drop)]
pub struct Painters {
    /// The painter of a session without a layer, which knows what the terminal shows.
    pub plain: Painter,
    /// The painter of a session with a layer, which knows what the terminal shows, and the labels of sections.
    pub layered: FrontPainter,
    /// The colours of a layer.
    pub theme: Theme,
    /// What the status row of a layer says that accepting does.
    pub accept: OwnedText,
}

/// Shows `label` in the paints of `painter`, and returns whether it does. If an allocation failed, this is a
/// no-op.
fn try_label(painter: &mut FrontPainter, label: Label) -> bool
    ensures done { IsTrue result → IsLabelled label painter.old painter.new }
    ensures kept { result ≡ false → painter.new ≡ painter.old }
{
    painter.label(label).is_ok()
}

impl Painters {
    /// Returns the painters of a new session: dark, without labels, and without words of what accepting does.
    pub fn new(alloc: Global) -> Painters
        ensures { AreNew result }
    {
        Painters {
            plain: Painter::new(alloc),
            layered: FrontPainter::new(alloc, Theme::Dark),
            theme: Theme::Dark,
            accept: OwnedText::from(String::new(alloc)),
        }
    }

    /// Paints a layer in the colours of `theme` from now on. The next update of a layer has every row.
    pub fn set_theme(&mut self, theme: Theme)
        ensures { HaveTheme theme self.old self.new }
    {
        self.layered.set_theme(theme);
        self.theme = theme;
    }

    /// Says from now on by `text` what accepting does.
    pub fn name_accepting(&mut self, text: OwnedText)
        ensures { HaveWords text self.old self.new }
    {
        self.accept = text;
    }

    /// Shows `label` in a layer from the next update on, and returns whether it does. If an allocation failed,
    /// this is a no-op.
    pub fn label(&mut self, label: Label) -> bool
        ensures done { IsTrue result → HaveLabel label self.old self.new }
        ensures kept { result ≡ false → self.new ≡ self.old }
    {
        try_label(&mut self.layered, label)
    }

    /// Shows the heading above each section of `view` from the next update on, and returns whether each section shows
    /// it. If an allocation failed, some do.
    pub fn name_sections(&mut self, view: &View<'static>) -> bool
        ensures done { IsTrue result
            → HaveLabels (AreNamed (files_of view.now)) self.old self.new }
        ensures some { result ≡ false
            → HaveLabels (AreSomeNamed (files_of view.now)) self.old self.new }
    {
        try_name_sections(&mut self.layered, view)
    }

    /// Forgets what was painted, so that the next update has every row.
    pub fn forget(&mut self)
        ensures { Forget self.old self.new }
    {
        self.plain.forget();
        self.layered.set_theme(self.theme);
    }

    /// Returns the update that makes the terminal show `session`, if it shows what was painted last.
    /// Returns `None` if an allocation failed.
    fn plain_update(&mut self, alloc: Global, session: &LiveSession<'static>) -> Option<String>
        ensures shown { IfSome result (λ update.
            ShowsPlain session.now self.old self.new (string_bytes update)) }
        ensures theme { self.new.theme ≡ self.old.theme }
        ensures labels { self.new.layered.labels ≡ self.old.layered.labels }
        ensures accept { self.new.accept ≡ self.old.accept }
    {
        update_of_session(alloc, session, &mut self.plain)
    }

    /// Returns the update that makes the terminal show `view`, if it shows what was painted last. Returns
    /// `None` if an allocation failed.
    fn view_update(&mut self, alloc: Global, view: &View<'static>) -> Option<String>
        ensures shown { IfSome result (λ update.
            ShowsView view.now self.old self.new (string_bytes update)) }
        ensures theme { self.new.theme ≡ self.old.theme }
        ensures labels { self.new.layered.labels ≡ self.old.layered.labels }
        ensures accept { self.new.accept ≡ self.old.accept }
    {
        let bytes = self.layered.paint(view, self.accept.as_str()).ok()?;
        update_of(alloc, &bytes)
    }

    /// Returns the update that makes the terminal show `session`, if it shows what was painted last.
    /// Returns `None` if an allocation failed.
    fn try_update(&mut self, alloc: Global, session: &Running) -> Option<String>
        ensures shown { IfSome result (λ update.
            ShowsRunning session.now self.old self.new (string_bytes update)) }
        ensures theme { self.new.theme ≡ self.old.theme }
        ensures labels { self.new.layered.labels ≡ self.old.layered.labels }
        ensures accept { self.new.accept ≡ self.old.accept }
    {
        match session {
            Running::Plain(session) => self.plain_update(alloc, session),
            Running::Layered(view) => self.view_update(alloc, view),
        }
    }

    /// Returns the update that makes the terminal show `session`, if it shows what was painted last.
    /// Returns `None` if an allocation failed: then nothing counts as painted.
    pub fn update(&mut self, alloc: Global, session: &Running) -> Option<String>
        ensures shown { IfSome result (λ update.
            ShowsRunning session.now self.old self.new (string_bytes update)) }
        ensures forgotten { IfNone result (Forget self.old self.new) }
    {
        match self.try_update(alloc, session) {
            Some(update) => Some(update),
            None => {
                self.forget();
                None
            }
        }
    }
}

/// Shows the heading above each section of `view` in the paints of `painter`, and returns whether each section shows
/// it. If an allocation failed, some do.
fn try_name_sections(painter: &mut FrontPainter, view: &View<'static>) -> bool
    ensures done { IsTrue result
        → ChangesLabels (AreNamed (files_of view.now)) painter.old painter.new }
    ensures some { result ≡ false
        → ChangesLabels (AreSomeNamed (files_of view.now)) painter.old painter.new }
{
    painter.name_sections(view).is_ok()
}
