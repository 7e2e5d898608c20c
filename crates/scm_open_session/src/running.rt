//! A session that waits for an event or for a message, with or without a layer over it.
ghost use Rattle.std.specs.Prelude.{◌≡◌, IfSome, IsTrue, false, string_bytes};
ghost use Rattle.scm_open_session.specs.declared.open_session.Stage.TheVariants.{Editing as EditingStage, Waiting};
ghost use Rattle.scm_record.specs.Live.{on_screen};
ghost use Rattle.scm_record.specs.declared.live.Turn.TheVariants as turns;
ghost use Rattle.scm_front.specs.Logging.{IsLogged};
ghost use Rattle.scm_open_session.specs.Batches.{PressesAll};
ghost use Rattle.scm_open_session.specs.LayerCalls.{SetsStart};
ghost use Rattle.scm_open_session.specs.Layered.{ViewResizes};
ghost use Rattle.scm_open_session.specs.OwnKeys.{SetsKeys};
ghost use Rattle.scm_open_session.specs.Running.{edit_of, is_asking, is_edit_layered, is_layered, live_of, offset_of};
ghost use Rattle.scm_open_session.specs.Stages.{Idles, Presses, Resizes, Says, Types, stage_after, stage_of_view};
ghost use Rattle.scm_c_values.specs.Screens.{screen_of};

use crate::layer::{press, press_all, set_start};
use crate::open_session::Stage;
use scm_c_values::screens::screen;
use scm_front::{AcceptedState, Folds, Logging, OwnKey};
use scm_front_paint::{View, ViewEditing, ViewTurn};
use scm_record::{
    Decoder, Editing, Event, Items, LiveSession, RecordError, SelectionKey, TerminalKind, Turn,
};
use std::alloc::Global;

/// A session that waits for an event.
#[derive(Drop)]
pub enum Running {
    /// A session without a layer.
    Plain(LiveSession<'static>),
    /// A session with a layer over it.
    Layered(View<'static>),
}

/// A session that waits for the message of a commit.
#[derive(Drop)]
pub enum MessageEdit {
    /// A session without a layer.
    Plain(Editing<'static>),
    /// A session with a layer over it.
    Layered(ViewEditing<'static>),
}

/// Returns the stage after a call with the result `answer`.
pub(crate) fn stage_of(answer: Result<Turn<'static>, RecordError>) -> Stage
    ensures { result ≡ stage_after answer.entry }
{
    match answer {
        Ok(Turn::Waiting(session)) => Stage::Waiting(Running::Plain(session)),
        Ok(Turn::Editing(editing)) => Stage::Editing(MessageEdit::Plain(editing)),
        Ok(Turn::Accepted(state)) => Stage::Accepted(AcceptedState::unlogged(state)),
        Err(error) => Stage::Ended(error),
    }
}

/// Returns the stage after a call of a view with the result `answer`.
fn stage_of_view(answer: Result<ViewTurn<'static>, RecordError>) -> Stage
    ensures { result ≡ stage_of_view answer.entry }
{
    match answer {
        Ok(ViewTurn::Waiting(view)) => Stage::Waiting(Running::Layered(view)),
        Ok(ViewTurn::Editing(editing)) => Stage::Editing(MessageEdit::Layered(editing)),
        Ok(ViewTurn::Accepted(state)) => Stage::Accepted(state),
        Err(error) => Stage::Ended(error),
    }
}

impl Running {
    /// Returns the live session, which a layer lies over or not.
    pub fn live(&self) -> &LiveSession<'static>
        ensures { result.now ≡ live_of self.now }
    {
        match self {
            Running::Plain(session) => session,
            Running::Layered(view) => view.front().beneath(),
        }
    }

    /// Returns how many columns of the window are to the left of the terminal.
    pub fn offset(&self) -> u16
        ensures { result ≡ offset_of self.now }
    {
        match self {
            Running::Plain(_) => 0,
            Running::Layered(view) => view.offset(),
        }
    }

    /// Returns whether a layer lies over the session.
    pub fn is_layered(&self) -> bool
        ensures { result ≡ is_layered self.now }
    {
        match self {
            Running::Plain(_) => false,
            Running::Layered(_) => true,
        }
    }

    /// Begins to log the calls beneath the layer, if there is a layer and no call was made yet. Returns
    /// whether they are logged.
    pub fn log(&mut self) -> bool
        ensures is_layered { IsTrue result → IsTrue (is_layered self.old) }
        ensures kept { self.new ≡ self.old }
    {
        match self {
            Running::Plain(_) => false,
            Running::Layered(view) => view.log(),
        }
    }

    /// Returns what is logged of the calls beneath the layer, if there is a layer.
    pub fn logging(&self) -> Option<&Logging>
        ensures { IfSome result (λ logging.
            IsLogged logging.now (turns.Waiting (live_of self.now))) }
    {
        match self {
            Running::Plain(_) => None,
            Running::Layered(view) => Some(view.front().logging()),
        }
    }

    /// Returns whether the layer asks for a text.
    pub fn is_asking(&self) -> bool
        ensures { result ≡ is_asking self.now }
    {
        match self {
            Running::Plain(_) => false,
            Running::Layered(view) => view.front().query().is_asking,
        }
    }
}

impl MessageEdit {
    /// Returns the live session, to read the message that is edited.
    pub fn live(&self) -> &Editing<'static>
        ensures { result.now ≡ edit_of self.now }
    {
        match self {
            MessageEdit::Plain(editing) => editing,
            MessageEdit::Layered(view) => view.beneath().beneath(),
        }
    }

    /// Returns what is logged of the calls beneath the layer, if there is a layer.
    pub fn logging(&self) -> Option<&Logging>
        ensures { IfSome result (λ logging.
            IsLogged logging.now (turns.Editing (edit_of self.now))) }
    {
        match self {
            MessageEdit::Plain(_) => None,
            MessageEdit::Layered(view) => Some(view.beneath().logging()),
        }
    }

    /// Returns whether a layer lies over the session.
    pub fn is_layered(&self) -> bool
        ensures { result ≡ is_edit_layered self.now }
    {
        match self {
            MessageEdit::Plain(_) => false,
            MessageEdit::Layered(_) => true,
        }
    }
}

/// Returns the stage of `session` after `event`.
pub fn after_event(session: Running, event: Event) -> Stage
    ensures { Presses event (Waiting session) result }
{
    match session {
        Running::Plain(session) => stage_of(session.handle(event)),
        Running::Layered(view) => stage_of_view(press(view, event)),
    }
}

/// Returns the stage of `session` after `events` as one batch.
pub fn after_batch(session: Running, events: &[Event]) -> Stage
    ensures { PressesAll events.now (Waiting session) result }
{
    match session {
        Running::Plain(session) => stage_of(session.handle_all(events)),
        Running::Layered(view) => stage_of_view(press_all(view, events)),
    }
}

/// Returns the stage of `session` after `bytes` from a terminal.
pub fn after_bytes(alloc: Global, session: Running, decoder: &mut Decoder, bytes: &[u8]) -> Stage
    ensures { Types bytes.now decoder.old decoder.new (Waiting session) result }
{
    match session {
        Running::Plain(session) => stage_of(session.typed(decoder, bytes)),
        Running::Layered(view) => stage_of_view(view.typed(alloc, decoder, bytes)),
    }
}

/// Returns the stage of `session` after a silence of the terminal.
pub fn after_silence(session: Running, decoder: &mut Decoder) -> Stage
    ensures { Idles decoder.old decoder.new (Waiting session) result }
{
    match session {
        Running::Plain(session) => stage_of(session.idle(decoder)),
        Running::Layered(view) => stage_of_view(view.idle(decoder)),
    }
}

/// Returns the stage of `edit` after the message `text`.
pub fn after_message(edit: MessageEdit, text: String) -> Stage
    ensures { Says (string_bytes text) (EditingStage edit) result }
{
    match edit {
        MessageEdit::Plain(editing) => stage_of(editing.answer(text)),
        MessageEdit::Layered(view) => stage_of_view(view.answer(text)),
    }
}

/// Resizes the screen of `session`, and returns whether it did. If an allocation failed, this is a
/// no-op.
fn try_resize_plain(session: &mut LiveSession<'static>, kind: TerminalKind) -> bool
    ensures done { IsTrue result → session.new ≡ on_screen session.old kind }
    ensures kept { result ≡ false → session.new ≡ session.old }
{
    session.resize(kind).is_ok()
}

/// Shows `view` on a terminal of `width` columns and `height` rows, and returns whether it did. If an
/// allocation failed, this is a no-op.
fn try_resize_view(view: &mut View<'static>, width: u16, height: u16) -> bool
    ensures done { IsTrue result → ViewResizes (screen_of width height) view.old view.new }
    ensures kept { result ≡ false → view.new ≡ view.old }
{
    view.resize(width.min(1000), height.min(1000)).is_ok()
}

/// Resizes the terminal of `session` to `width` columns and `height` rows, and returns whether it did. If
/// an allocation failed, this is a no-op.
pub fn try_resize(session: &mut Running, width: u16, height: u16) -> bool
    ensures done { IsTrue result
        → Resizes (screen_of width height) (Waiting session.old) (Waiting session.new) }
    ensures kept { result ≡ false → session.new ≡ session.old }
{
    match session {
        Running::Plain(session) => try_resize_plain(session, screen(width, height)),
        Running::Layered(view) => try_resize_view(view, width, height),
    }
}

/// Returns the stage of `session` with `folds` and `first` selected, and whether it has a layer.
pub fn after_start(session: Running, folds: Folds, first: SelectionKey) -> (Stage, bool)
    ensures is_layered { result.1 ≡ is_layered session }
    ensures set { IsTrue result.1 → SetsStart folds first (Waiting session) result.0 }
    ensures kept { result.1 ≡ false → result.0 ≡ Waiting session }
{
    match session {
        Running::Plain(session) => (Stage::Waiting(Running::Plain(session)), false),
        Running::Layered(view) => (stage_of_view(set_start(view, folds, first)), true),
    }
}

/// Sets the keys of the user's own. Returns whether `session` has a layer.
pub fn set_keys(session: &mut Running, keys: Items<OwnKey>) -> bool
    ensures is_layered { result ≡ is_layered session.old }
    ensures set { IsTrue result → SetsKeys keys (Waiting session.old) (Waiting session.new) }
    ensures kept { result ≡ false → session.new ≡ session.old }
{
    match session {
        Running::Plain(_) => false,
        Running::Layered(view) => {
            view.set_keys(keys);
            true
        }
    }
}
