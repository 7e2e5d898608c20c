//! A view: a front on a terminal, which shows columns of the window from a column on.
ghost use Rattle.std.specs.Prelude.{◌≡◌, ◌+◌, ◌≤◌, IfErr, IfOk, OnErr, OnOk, string_bytes};
ghost use Rattle.scm_errors.specs.declared.error.RecordError.TheVariants.{OutOfMemory};
ghost use Rattle.scm_record.specs.Session.{message_text};
ghost use Rattle.scm_front.specs.declared.layer.FrontTurn.TheVariants as fronts;
ghost use Rattle.scm_front_paint.specs.Pane.{offset, with_size, with_x};
ghost use Rattle.scm_front_paint.specs.Seen.{IsSeen};
ghost use Rattle.scm_front_paint.specs.Views.{HandFails, HeardFails, IsFitted, IsHanded, IsShown, ViewBytes, ViewBytesFail, ViewDoes, ViewFails, ViewHears, ViewSayFails, ViewSays, ViewSilence, ViewSilenceFails, heard_by, is_kind, is_own};

use crate::pane::{Heard, Pane, heard_as, is_free, kind_for, offset, with_size, with_x};
use scm_front::{AcceptedState, Front, FrontEditing, FrontTurn, OwnKey};
use scm_record::{Decoder, Items, RecordError, TerminalEvent, TerminalKind};
use std::alloc::Global;
use std::marker::Model;

/// A front that waits for an event, on a terminal.
#[derive(Drop)]
pub struct View<'state> {
    /// The front.
    front: Front<'state>,
    /// Where the terminal stands over the session.
    pane: Pane,
}

impl<'state> Model for View<'state> {
    ghost use Rattle.scm_front_paint.specs.Seen.{IsSeen, Seen, seen};

    ghost Value = { Seen };

    ghost view = { λ v. seen v.front v.pane };

    ghost invariant = { λ v. IsSeen (seen v.front v.pane) };
}

/// A front that waits for the message of a commit, on a terminal.
#[derive(Drop)]
pub struct ViewEditing<'state> {
    /// The front.
    beneath: FrontEditing<'state>,
    /// Where the terminal stands over the session.
    pane: Pane,
}

impl<'state> Model for ViewEditing<'state> {
    ghost use Rattle.std.specs.Coded.{codes};
    ghost use Rattle.scm_record.specs.contracts.frame.DrawnFrame as drawn;
    ghost use Rattle.scm_front_paint.specs.Seen.{SeenEditing, is_narrow};

    ghost Value = { SeenEditing };

    ghost coded = { Prim.hlevel (codes, drawn.the_row.coded) };

    ghost view = { λ v. record { beneath = v.beneath; pane = v.pane } };

    ghost invariant = { λ v. is_narrow v.pane };
}

/// What a call of a view leads to.
#[derive(Drop)]
pub enum ViewTurn<'state> {
    /// The session beneath waits for the next event.
    Waiting(View<'state>),
    /// The session beneath waits for the message of a commit.
    Editing(ViewEditing<'state>),
    /// The session has ended, with the changes of this state accepted.
    Accepted(AcceptedState<'state>),
}

/// Returns whether two screens have the same size.
fn is_kind(kind: TerminalKind, other: TerminalKind) -> bool
    ensures { result ≡ is_kind kind other }
{
    let TerminalKind::Testing { width, height } = kind;
    let TerminalKind::Testing {
        width: other_width,
        height: other_height,
    } = other;
    width == other_width && height == other_height
}

/// Returns `front`, drawn on the screen for the terminal.
fn fitted<'state>(front: Front<'state>, pane: Pane) -> Result<Front<'state>, RecordError>
    ensures ok { IfOk result (λ next. IsFitted pane front.entry next) }
    ensures err { IfErr result (λ e. e ≡ OutOfMemory) }
{
    let kind = kind_for(pane, front.beneath());
    if is_kind(front.beneath().kind(), kind) {
        return Ok(front);
    }
    let mut front = front;
    front.resize(kind)?;
    Ok(front)
}

/// Returns the view of `front`, drawn on the screen for the terminal.
fn view_of<'state>(front: Front<'state>, pane: Pane) -> Result<View<'state>, RecordError>
    requires { pane.x + pane.width ≤ 65535 }
    ensures front { IfOk result (λ v. IsFitted pane front.entry v.front) }
    ensures pane { IfOk result (λ v. v.pane ≡ pane) }
    ensures err { IfErr result (λ e. e ≡ OutOfMemory) }
{
    let front = fitted(front, pane)?;
    Ok(View { front, pane })
}

/// Returns `turn` of the front, shown on the terminal.
///
/// # Errors
///
/// - `OutOfMemory`: an allocation failed; the front is dropped.
pub fn shown<'state>(turn: FrontTurn<'state>, pane: Pane) -> Result<ViewTurn<'state>, RecordError>
    requires { pane.x + pane.width ≤ 65535 }
    ensures ok { IfOk result (λ shown. IsShown pane turn.entry shown) }
    ensures err { IfErr result (λ e. e ≡ OutOfMemory) }
{
    match turn {
        FrontTurn::Waiting(front) => Ok(ViewTurn::Waiting(view_of(front, pane)?)),
        FrontTurn::Editing(beneath) => Ok(ViewTurn::Editing(ViewEditing { beneath, pane })),
        FrontTurn::Accepted(state) => Ok(ViewTurn::Accepted(state)),
    }
}

/// Shows the window of `front` from column `x` on, or from where it can be.
fn show_from<'state>(
    front: Front<'state>,
    pane: Pane,
    x: u16,
) -> Result<ViewTurn<'state>, RecordError>
    ensures ok { IfOk result (λ turn.
        IsShown (with_x pane x) (fronts.Waiting front.entry) turn) }
    ensures err { IfErr result (λ e. e ≡ OutOfMemory) }
{
    shown(FrontTurn::Waiting(front), with_x(pane, x))
}

/// Hands `event` to `front`.
fn hand<'state>(
    front: Front<'state>,
    pane: Pane,
    event: TerminalEvent,
) -> Result<ViewTurn<'state>, RecordError>
    requires { pane.x + pane.width ≤ 65535 }
    ensures ok { IfOk result (λ turn. IsHanded front.entry pane event turn) }
    ensures err { IfErr result (λ e. HandFails front.entry event e) }
{
    let turn = front.hear_all(&[event])?;
    shown(turn, pane)
}

impl<'state> View<'state> {
    /// Shows `front` from column 0 on, on a terminal of `width` columns and `height` rows. The session has
    /// the terminal's rows but the last, which is the status row.
    ///
    /// # Errors
    ///
    /// - `OutOfMemory`: an allocation failed; the front is dropped.
    pub fn new(front: Front<'state>, width: u16, height: u16) -> Result<View<'state>, RecordError>
        ensures front { IfOk result (λ v. IsFitted v.pane front.entry v.front) }
        ensures pane { IfOk result (λ v. v.pane ≡ record { x = 0; width = width; height = height }) }
        ensures err { IfErr result (λ e. e ≡ OutOfMemory) }
    {
        let pane = Pane {
            x: 0,
            width,
            height,
        };
        view_of(front, pane)
    }

    /// Returns whether `>`, `<` and the wheel with shift are the view's: no text is asked for, no dialog is
    /// open, and `event` is none of the user's own keys.
    fn is_own(&self, event: TerminalEvent) -> bool
        ensures { result ≡ is_own self.now event }
    {
        let is_unasked = !self.front.query().is_asking;
        let is_free = is_free(self.front.beneath());
        let has_none = !self.front.has_key(event);
        is_unasked & is_free & has_none
    }

    /// Returns what `event` of the terminal is.
    fn meaning(&self, event: TerminalEvent) -> Heard
        ensures { result ≡ heard_by self.now event }
    {
        let is_own = self.is_own(event);
        let session = self.front.beneath();
        heard_as(self.pane, is_own, offset(self.pane, session), event)
    }

    /// Does what is heard.
    fn act(self, heard: Heard) -> Result<ViewTurn<'state>, RecordError>
        ensures ok { IfOk result (λ turn. ViewDoes self.entry heard turn) }
        ensures err { IfErr result (λ e. HeardFails self.entry heard e) }
    {
        let View { front, pane } = self;
        match heard {
            Heard::Show(x) => show_from(front, pane, x),
            Heard::Hand(event) => hand(front, pane, event),
        }
    }

    /// Hears `event` of the terminal: `>`, `<` and the wheel with shift show the window from another column
    /// on, unless they are the user's own keys. All else goes to the front, with the mouse where it stands in
    /// the window.
    ///
    /// # Errors
    ///
    /// An error ends the session: the errors are those of [`Front::hear`].
    pub fn hear(self, event: TerminalEvent) -> Result<ViewTurn<'state>, RecordError>
        ensures ok { IfOk result (λ turn. ViewDoes self.entry (heard_by self.entry event) turn) }
        ensures err { IfErr result (λ e. HeardFails self.entry (heard_by self.entry event) e) }
    {
        let heard = self.meaning(event);
        self.act(heard)
    }

    /// Hears `events` of the terminal in order, up to the first that ends the session or asks for a
    /// message. Later events are dropped: they were typed at a screen that is gone.
    ///
    /// # Errors
    ///
    /// An error ends the session: the errors are those of [`Front::hear`].
    pub fn hear_all(self, events: &[TerminalEvent]) -> Result<ViewTurn<'state>, RecordError>
        ensures ok { IfOk result (λ turn. ViewHears self.entry events.now turn) }
        ensures err { IfErr result (λ e. ViewFails self.entry events.now e) }
    {
        let mut view = self;
        for event in events {
            match view.hear(*event)? {
                ViewTurn::Waiting(next) => view = next,
                ViewTurn::Editing(editing) => return Ok(ViewTurn::Editing(editing)),
                ViewTurn::Accepted(state) => return Ok(ViewTurn::Accepted(state)),
            }
        }
        Ok(ViewTurn::Waiting(view))
    }

    /// Decodes `bytes`, which the terminal sent, and hears their events in order, as
    /// [`View::hear_all`] does. `decoder` keeps an unfinished sequence.
    ///
    /// # Errors
    ///
    /// An error ends the session: the errors are those of [`Front::hear`].
    pub fn typed(
        self,
        alloc: Global,
        decoder: &mut Decoder,
        bytes: &[u8],
    ) -> Result<ViewTurn<'state>, RecordError>
        ensures ok { IfOk result (λ turn.
            ViewBytes self.entry decoder.old decoder.new bytes.now turn) }
        ensures err { IfErr result (λ e.
            ViewBytesFail self.entry decoder.old decoder.new bytes.now e) }
    {
        let found = decoder.decode(alloc, bytes)?;
        self.hear_all(found.as_slice())
    }

    /// Handles a silence of the terminal: hears the key that it means, if any.
    ///
    /// # Errors
    ///
    /// An error ends the session: the errors are those of [`Front::hear`].
    pub fn idle(self, decoder: &mut Decoder) -> Result<ViewTurn<'state>, RecordError>
        ensures ok { IfOk result (λ turn. ViewSilence self.entry decoder.old decoder.new turn) }
        ensures err { IfErr result (λ e.
            ViewSilenceFails self.entry decoder.old decoder.new e) }
    {
        match decoder.idle() {
            None => Ok(ViewTurn::Waiting(self)),
            Some(event) => self.hear_all(&[event]),
        }
    }

    /// Shows the session on a terminal of `width` columns and `height` rows.
    ///
    /// # Errors
    ///
    /// - `OutOfMemory`: an allocation failed; the session and the size are unchanged.
    pub fn resize(&mut self, width: u16, height: u16) -> Result<(), RecordError>
        ensures front { OnOk result (IsFitted self.new.pane self.old.front self.new.front) }
        ensures pane { OnOk result (self.new.pane ≡ with_size self.old.pane width height) }
        ensures unchanged { OnErr result (self.new.front ≡ self.old.front) }
        ensures same { OnErr result (self.new.pane ≡ self.old.pane) }
        ensures err { IfErr result (λ e. e ≡ OutOfMemory) }
    {
        let pane = with_size(self.pane, width, height);
        let kind = kind_for(pane, self.front.beneath());
        if is_kind(self.front.beneath().kind(), kind) {
            self.pane = pane;
            return Ok(());
        }
        self.front.resize(kind)?;
        self.pane = pane;
        Ok(())
    }

    /// Returns the front, to read.
    pub fn front(&self) -> &Front<'state>
        ensures { result.now ≡ self.now.front }
    {
        &self.front
    }

    /// Returns where the terminal stands over the session.
    pub fn pane(&self) -> Pane
        ensures value { result ≡ self.now.pane }
        ensures seen { IsSeen self.now }
        ensures high { result.height ≤ 65535 }
    {
        let _height = self.pane.height;
        self.pane
    }

    /// Returns how many columns of the window stand to the left of the terminal now.
    pub fn offset(&self) -> u16
        ensures { result ≡ offset self.now.pane self.now.front.beneath }
    {
        offset(self.pane, self.front.beneath())
    }

    /// Sets the keys of the user's own, as [`Front::set_keys`] does.
    pub fn set_keys(&mut self, keys: Items<OwnKey>)
        ensures front { self.new.front
            ≡ record self.old.front { kept = record self.old.front.kept { keys = keys } } }
        ensures pane { self.new.pane ≡ self.old.pane }
    {
        self.front.set_keys(keys);
    }

    /// Begins to log the calls of the session beneath, as [`Front::log`] does, and returns whether they are
    /// logged.
    pub fn log(&mut self) -> bool
        ensures { self.new ≡ self.old }
    {
        self.front.log()
    }

    /// Returns the front, and where the terminal stands over the session. [`shown`] makes a view of them
    /// again.
    pub fn into_parts(self) -> (Front<'state>, Pane)
        ensures front { result.0 ≡ self.entry.front }
        ensures pane { result.1 ≡ self.entry.pane }
        ensures narrow { result.1.x + result.1.width ≤ 65535 }
    {
        let View { front, pane } = self;
        (front, pane)
    }
}

impl<'state> ViewEditing<'state> {
    /// Returns the front, to read the message that is edited.
    pub fn beneath(&self) -> &FrontEditing<'state>
        ensures { result.now ≡ self.now.beneath }
    {
        &self.beneath
    }

    /// Sets the message of the commit to `text`, and returns what that leads to.
    ///
    /// # Errors
    ///
    /// An error ends the session: the errors are those of [`FrontEditing::answer`].
    pub fn answer(self, text: String) -> Result<ViewTurn<'state>, RecordError>
        ensures ok { IfOk result (λ turn. ViewSays self.entry (string_bytes text) turn) }
        ensures err { IfErr result (λ e. ViewSayFails self.entry (string_bytes text) e) }
    {
        let ViewEditing { beneath, pane } = self;
        let turn = beneath.answer(text)?;
        shown(turn, pane)
    }

    /// Keeps the message as it is, and returns what that leads to.
    ///
    /// # Errors
    ///
    /// An error ends the session: the errors are those of [`FrontEditing::keep`].
    pub fn keep(self) -> Result<ViewTurn<'state>, RecordError>
        ensures ok { IfOk result (λ turn. ViewSays self.entry (message_text
            self.entry.beneath.beneath.session self.entry.beneath.beneath.commit) turn) }
        ensures err { IfErr result (λ e. ViewSayFails self.entry (message_text
            self.entry.beneath.beneath.session self.entry.beneath.beneath.commit) e) }
    {
        let ViewEditing { beneath, pane } = self;
        let turn = beneath.keep()?;
        shown(turn, pane)
    }
}
