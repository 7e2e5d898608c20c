//! An open session of a C program, and what each call does to it.
ghost use Rattle.std.specs.Prelude.{◌≡◌, ◌<◌, [], IfErr, IfNone, IfOk, IfSome, IsTrue, Some, false, is_some, length, string_bytes, true};
ghost use Rattle.std.specs.Str.{is_utf8};
ghost use Rattle.scm_open_session.specs.declared.open_session.Stage.TheVariants.{Building};
ghost use Rattle.scm_open_session.specs.Stages.{Begins, Clicks, Idles, Presses, Resizes, Says, Types, click_at, is_editing, code_of_stage, end_of_stage, is_waiting};
ghost use Rattle.scm_c_values.specs.Screens.{screen_of};
ghost use Rattle.scm_c_values.specs.Codes.{IsCode, code_of_json, done_code};
ghost use Rattle.scm_open_session.specs.Results.{IsText};
ghost use Rattle.scm_open_session.specs.Owners.{key_of_stage, owner_of_stage, selected_of_stage};
ghost use Rattle.scm_open_session.specs.Paint.{ForgetsOpen, Updates, UpdatesStage};
ghost use Rattle.scm_open_session.specs.Painters.{AreNew};
ghost use Rattle.scm_terminal.specs.Decoders.{HasHeard};
ghost use Rattle.std.specs.Option.{option_copied};
ghost use Rattle.std.specs.Result.{result_map_both};
ghost use Rattle.scm_open_session.specs.Building.{BeginsState, Builds, Starts, code_at_stage, BuildsChange, code_of_change_at};
ghost use Rattle.scm_open_session.specs.Questions.{state_of_stage};
ghost use Rattle.scm_open_session.specs.FrontKeys.{TypesToKey, tells_keys};
ghost use Rattle.scm_open_session.specs.Batches.{PressesAll};
ghost use Rattle.scm_open_session.specs.Decoding.{DecodesOpen, Tells, TellsEvents};
ghost use Rattle.scm_c_values.specs.EventWords.{HearsBytes, HearsSilence};
ghost use Rattle.scm_c_values.specs.Texts.{seen_change};

use crate::painters::Painters;
use crate::running::{
    MessageEdit, Running, after_batch, after_bytes, after_event, after_message, after_silence,
    try_resize,
};
use crate::screen_calls::running_text;
use scm_c_values::additions::add_to_builder;
use scm_c_values::buffers::write_text;
use scm_c_values::codes;
use scm_c_values::codes::{resize_code, update_or_code};
use scm_c_values::ends::{failure_code, sentence};
use scm_c_values::event_words::words_of;
use scm_c_values::front_keys::{stop, told_key, told_length};
use scm_c_values::json_state::state_of;
use scm_c_values::owners::{Key, owner_at};
use scm_c_values::screens::screen;
use scm_c_values::texts::{TextChange, add_change};
use scm_embed::{Addition, StateBuilder};
use scm_front::AcceptedState;
use scm_record::{
    Decoder, Event, LiveSession, RecordError, RecordState, TerminalEvent, TerminalKind,
};
use scm_script::accepted_text;
use std::alloc::Global;
use std::mem;

/// What a session waits for.
#[derive(Drop)]
pub enum Stage {
    /// The state is made by calls, and the session has not begun.
    Building(StateBuilder),
    /// The session waits for an event.
    Waiting(Running),
    /// The session waits for the message of a commit.
    Editing(MessageEdit),
    /// The changes are accepted.
    Accepted(AcceptedState<'static>),
    /// The session ended with an error.
    Ended(RecordError),
}

/// An open session: its stage, and the two sides of its terminal.
#[derive(Drop)]
pub struct OpenSession {
    /// What the session waits for.
    pub(crate) stage: Stage,
    /// The decoder of what the terminal sends.
    pub(crate) decoder: Decoder,
    /// What the session is painted with.
    pub(crate) painter: Painters,
}

/// A session as a C program has it: `None` if it is closed.
pub type Session = Option<Box<OpenSession>>;

/// Returns the stage and the code of a session that begins with the state of `builder`, on a screen
/// of size `kind`.
fn start(alloc: Global, builder: StateBuilder, kind: TerminalKind) -> (Stage, u32)
    ensures { Starts kind (Building builder) result.0 result.1 }
{
    if !builder.is_accepted() {
        return (Stage::Building(builder), codes::NOT_ACCEPTED);
    }
    match LiveSession::new(alloc, kind, builder.into_state()) {
        Ok(session) => (Stage::Waiting(Running::Plain(session)), codes::DONE),
        Err(error) => (Stage::Ended(error), codes::NO_MEMORY),
    }
}

// A method that takes the stage out of a session calls a function over the stage alone. A `match` on a field of `self` would make
// the proof of each method take minutes.

/// Adds `addition` to the state that is made at `stage`. Returns the code of the call.
fn add_to_stage(alloc: Global, stage: &mut Stage, addition: Addition<'_>) -> u32
    ensures code { IsCode true (code_at_stage addition.entry stage.old) result }
    ensures added { result ≡ 0 → Builds addition.entry stage.old stage.new }
    ensures kept { 0 < result → stage.new ≡ stage.old }
{
    match stage {
        Stage::Building(builder) => add_to_builder(alloc, builder, addition),
        Stage::Waiting(_) => codes::NOT_NOW,
        Stage::Editing(_) => codes::NOT_NOW,
        Stage::Accepted(_) => codes::NOT_NOW,
        Stage::Ended(_) => codes::NOT_NOW,
    }
}

/// Adds the file that shows `change` to the state that is made at `stage`. Returns the code of the call.
fn add_change_to_stage(alloc: Global, stage: &mut Stage, change: TextChange<'_>) -> u32
    ensures code { IsCode true (code_of_change_at (seen_change change.entry) stage.old) result }
    ensures added { result ≡ 0 → BuildsChange (seen_change change.entry) stage.old stage.new }
    ensures kept { 0 < result → stage.new ≡ stage.old }
{
    match stage {
        Stage::Building(builder) => add_change(alloc, builder, change),
        Stage::Waiting(_) => codes::NOT_NOW,
        Stage::Editing(_) => codes::NOT_NOW,
        Stage::Accepted(_) => codes::NOT_NOW,
        Stage::Ended(_) => codes::NOT_NOW,
    }
}

/// Returns the stage and the code of a session that begins, on a screen of size `kind`.
fn begun(alloc: Global, stage: Stage, kind: TerminalKind) -> (Stage, u32)
    ensures { Starts kind stage result.0 result.1 }
{
    match stage {
        Stage::Building(builder) => start(alloc, builder, kind),
        other => (other, codes::NOT_NOW),
    }
}

/// Returns the stage after `event`, and whether the session waited for an event.
fn pressed(stage: Stage, event: Event) -> (Stage, bool)
    ensures is_waiting { result.1 ≡ is_waiting stage }
    ensures pressed { IsTrue result.1 → Presses event stage result.0 }
    ensures kept { result.1 ≡ false → result.0 ≡ stage }
{
    match stage {
        Stage::Waiting(session) => (after_event(session, event), true),
        other => (other, false),
    }
}

/// Returns the stage after `events` as one batch, and whether the session waited for an event.
fn pressed_all(stage: Stage, events: &[Event]) -> (Stage, bool)
    ensures is_waiting { result.1 ≡ is_waiting stage }
    ensures pressed { IsTrue result.1 → PressesAll events.now stage result.0 }
    ensures kept { result.1 ≡ false → result.0 ≡ stage }
{
    match stage {
        Stage::Waiting(session) => (after_batch(session, events), true),
        other => (other, false),
    }
}

/// Returns the stage after `bytes` from a terminal, and whether the session waited for an event.
fn heard(alloc: Global, stage: Stage, decoder: &mut Decoder, bytes: &[u8]) -> (Stage, bool)
    ensures is_waiting { result.1 ≡ is_waiting stage }
    ensures typed { IsTrue result.1 → Types bytes.now decoder.old decoder.new stage result.0 }
    ensures kept { result.1 ≡ false → (result.0 ≡ stage) × (decoder.new ≡ decoder.old) }
{
    match stage {
        Stage::Waiting(session) => (after_bytes(alloc, session, decoder, bytes), true),
        other => (other, false),
    }
}

/// Returns the stage after a silence of the terminal, and whether the session waited for an event.
fn rested(stage: Stage, decoder: &mut Decoder) -> (Stage, bool)
    ensures is_waiting { result.1 ≡ is_waiting stage }
    ensures silent { IsTrue result.1 → Idles decoder.old decoder.new stage result.0 }
    ensures kept { result.1 ≡ false → (result.0 ≡ stage) × (decoder.new ≡ decoder.old) }
{
    match stage {
        Stage::Waiting(session) => (after_silence(session, decoder), true),
        other => (other, false),
    }
}

/// Returns the stage after the message `text`, and whether the session waited for a message.
fn answered(stage: Stage, text: String) -> (Stage, bool)
    ensures is_editing { result.1 ≡ is_editing stage }
    ensures said { IsTrue result.1 → Says (string_bytes text) stage result.0 }
    ensures kept { result.1 ≡ false → result.0 ≡ stage }
{
    match stage {
        Stage::Editing(edit) => (after_message(edit, text), true),
        other => (other, false),
    }
}

/// Resizes the terminal of `stage` to `width` columns and `height` rows. Returns the code of the call.
fn resize_stage(stage: &mut Stage, width: u16, height: u16) -> u32
    ensures code { IsCode (is_waiting stage.old) (done_code (is_waiting stage.old)) result }
    ensures resized { result ≡ 0 → Resizes (screen_of width height) stage.old stage.new }
    ensures kept { 0 < result → stage.new ≡ stage.old }
{
    match stage {
        Stage::Waiting(session) => resize_code(try_resize(session, width, height)),
        Stage::Building(_) => codes::NOT_NOW,
        Stage::Editing(_) => codes::NOT_NOW,
        Stage::Accepted(_) => codes::NOT_NOW,
        Stage::Ended(_) => codes::NOT_NOW,
    }
}

/// Returns the update that makes the terminal show the session, if it shows what was painted last.
///
/// # Errors
/// - `NOT_NOW`: the session waits for no event.
/// - `NO_MEMORY`: an allocation failed; the next update has every row.
fn update_at(alloc: Global, stage: &Stage, painter: &mut Painters) -> Result<String, u32>
    ensures { UpdatesStage stage.now painter.old painter.new
        (result_map_both string_bytes (λ code. code) result) }
{
    match stage {
        Stage::Waiting(session) => update_or_code(painter.update(alloc, session)),
        Stage::Building(_) => Err(codes::NOT_NOW),
        Stage::Editing(_) => Err(codes::NOT_NOW),
        Stage::Accepted(_) => Err(codes::NOT_NOW),
        Stage::Ended(_) => Err(codes::NOT_NOW),
    }
}

impl OpenSession {
    /// Returns a session over the state with the JSON form `json`. Its screen has `width` columns
    /// and `height` rows.
    ///
    /// # Errors
    /// The code of the failure, as `gabro_new` returns it.
    pub fn new(alloc: Global, json: &[u8], width: u16, height: u16) -> Result<Box<OpenSession>, u32>
        ensures ok { IfOk result (λ inner. Begins json.now width height inner.value) }
        ensures good { IfOk result (λ inner. code_of_json json.now ≡ 0) }
        ensures err { IfErr result
            (λ code. IsCode (is_utf8 json.now) (code_of_json json.now) code) }
        ensures refused { IfErr result (λ code. 0 < code) }
    {
        let state = state_of(alloc, json)?;
        let Ok(session) = LiveSession::new(alloc, screen(width, height), state) else {
            return Err(codes::NO_MEMORY);
        };
        let stage = Stage::Waiting(Running::Plain(session));
        match OpenSession::at_stage(alloc, stage) {
            Some(inner) => Ok(inner),
            None => Err(codes::NO_MEMORY),
        }
    }

    /// Returns a session at `stage`. Nothing was typed and nothing is painted. Returns `None` if an
    /// allocation failed.
    pub(crate) fn at_stage(alloc: Global, stage: Stage) -> Option<Box<OpenSession>>
        ensures stage { IfSome result (λ inner. inner.value.stage ≡ stage) }
        ensures unheard { IfSome result (λ inner. HasHeard inner.value.decoder false []) }
        ensures unpainted { IfSome result (λ inner. AreNew inner.value.painter) }
    {
        let inner = OpenSession {
            stage,
            decoder: Decoder::new(),
            painter: Painters::new(alloc),
        };
        Box::new(alloc, inner).ok()
    }

    /// Returns a session over a state without commits and files, which later calls make. Returns
    /// `None` if an allocation failed.
    pub fn building(alloc: Global, is_read_only: bool) -> Option<Box<OpenSession>>
        ensures { IfSome result (λ inner. BeginsState is_read_only inner.value) }
    {
        OpenSession::at_stage(
            alloc,
            Stage::Building(StateBuilder::new(alloc, is_read_only)),
        )
    }

    /// Returns the code of what the session waits for.
    pub fn stage(&self) -> u32
        ensures { result ≡ code_of_stage self.now.stage }
    {
        match &self.stage {
            Stage::Building(_) => codes::BUILDING,
            Stage::Waiting(_) => codes::WAITING,
            Stage::Editing(_) => codes::EDITING,
            Stage::Accepted(_) => codes::ACCEPTED,
            Stage::Ended(_) => codes::ENDED,
        }
    }

    /// Returns the code of how the session ended, or `NOT_ENDED`.
    pub fn end(&self) -> u32
        ensures { result ≡ end_of_stage self.now.stage }
    {
        match &self.stage {
            Stage::Building(_) | Stage::Waiting(_) | Stage::Editing(_) => codes::NOT_ENDED,
            Stage::Accepted(_) => codes::END_ACCEPTED,
            Stage::Ended(error) => failure_code(error),
        }
    }

    /// Takes the stage, and leaves `Ended` in its place.
    pub(crate) fn take_stage(&mut self) -> Stage
        ensures stage { result ≡ self.old.stage }
        ensures decoder { self.new.decoder ≡ self.old.decoder }
        ensures painter { self.new.painter ≡ self.old.painter }
    {
        mem::replace(&mut self.stage, Stage::Ended(RecordError::OutOfMemory))
    }

    /// Adds `addition` to the state that is made. Returns the code of the call.
    pub fn add(&mut self, alloc: Global, addition: Addition<'_>) -> u32
        ensures code { IsCode true (code_at_stage addition.entry self.old.stage) result }
        ensures added { result ≡ 0 → Builds addition.entry self.old.stage self.new.stage }
        ensures decoder { self.new.decoder ≡ self.old.decoder }
        ensures painter { self.new.painter ≡ self.old.painter }
        ensures kept { 0 < result → self.new ≡ self.old }
    {
        add_to_stage(alloc, &mut self.stage, addition)
    }

    /// Adds the file that shows `change` to the state that is made. Returns the code of the call.
    pub fn add_change(&mut self, alloc: Global, change: TextChange<'_>) -> u32
        ensures code { IsCode true
            (code_of_change_at (seen_change change.entry) self.old.stage) result }
        ensures added { result ≡ 0
            → BuildsChange (seen_change change.entry) self.old.stage self.new.stage }
        ensures decoder { self.new.decoder ≡ self.old.decoder }
        ensures painter { self.new.painter ≡ self.old.painter }
        ensures kept { 0 < result → self.new ≡ self.old }
    {
        add_change_to_stage(alloc, &mut self.stage, change)
    }

    /// Begins the session with the state that is made, on a screen of `width` columns and `height`
    /// rows. Returns the code of the call.
    pub fn begin(&mut self, alloc: Global, width: u16, height: u16) -> u32
        ensures starts { Starts (screen_of width height) self.old.stage self.new.stage result }
        ensures decoder { self.new.decoder ≡ self.old.decoder }
        ensures painter { self.new.painter ≡ self.old.painter }
    {
        let (stage, code) = begun(alloc, self.take_stage(), screen(width, height));
        self.stage = stage;
        code
    }

    /// Returns the state that is made, shown or accepted, if any. A session that waits for a message
    /// lends none.
    pub fn state(&self) -> Option<&RecordState<'static>>
        ensures { option_copied result ≡ state_of_stage self.now.stage }
    {
        match &self.stage {
            Stage::Building(builder) => Some(builder.state()),
            Stage::Waiting(session) => Some(session.live().state()),
            Stage::Accepted(accepted) => Some(accepted.state()),
            Stage::Editing(_) | Stage::Ended(_) => None,
        }
    }

    /// Handles `event` if the session waits for an event, and returns whether it does.
    pub fn press(&mut self, event: Event) -> bool
        ensures is_waiting { result ≡ is_waiting self.old.stage }
        ensures pressed { IsTrue result → Presses event self.old.stage self.new.stage }
        ensures decoder { self.new.decoder ≡ self.old.decoder }
        ensures painter { self.new.painter ≡ self.old.painter }
        ensures kept { result ≡ false → self.new ≡ self.old }
    {
        let (stage, is_done) = pressed(self.take_stage(), event);
        self.stage = stage;
        is_done
    }

    /// Returns the event of a click at `row` and `column` of the screen, both counted from 0. With the layer
    /// the window may begin further left.
    fn click_at(&self, row: u16, column: u16) -> Event
        ensures { result ≡ click_at self.now.stage row column }
    {
        let before = match &self.stage {
            Stage::Waiting(session) => session.offset(),
            Stage::Building(_) | Stage::Editing(_) | Stage::Accepted(_) | Stage::Ended(_) => 0,
        };
        Event::Click {
            row: row as usize,
            column: before as usize + column as usize,
        }
    }

    /// Handles a click at `row`, `column` of the screen, both counted from 0, if the session waits for an
    /// event, and returns whether it does.
    pub fn click(&mut self, row: u16, column: u16) -> bool
        ensures is_waiting { result ≡ is_waiting self.old.stage }
        ensures clicked { IsTrue result → Clicks row column self.old.stage self.new.stage }
        ensures decoder { self.new.decoder ≡ self.old.decoder }
        ensures painter { self.new.painter ≡ self.old.painter }
        ensures kept { result ≡ false → self.new ≡ self.old }
    {
        let event = self.click_at(row, column);
        self.press(event)
    }

    /// Handles `events` as one batch if the session waits for an event, and returns whether it does.
    pub fn press_all(&mut self, events: &[Event]) -> bool
        ensures is_waiting { result ≡ is_waiting self.old.stage }
        ensures pressed { IsTrue result → PressesAll events.now self.old.stage self.new.stage }
        ensures decoder { self.new.decoder ≡ self.old.decoder }
        ensures painter { self.new.painter ≡ self.old.painter }
        ensures kept { result ≡ false → self.new ≡ self.old }
    {
        let (stage, is_done) = pressed_all(self.take_stage(), events);
        self.stage = stage;
        is_done
    }

    /// Writes to `out` the words of the events that `bytes` of a terminal complete, if they fit. Returns
    /// their length in bytes, or `None` if an allocation failed. No event is handled.
    pub fn decode(&mut self, alloc: Global, bytes: &[u8], out: &mut [u8]) -> Option<usize>
        ensures { DecodesOpen (HearsBytes bytes.now) self.old out.old self.new out.new result }
    {
        let mut decoder = self.decoder;
        let mut events = Vec::new(alloc);
        match decoder.feed(bytes, &mut events) {
            Ok(()) => self.tell_events(alloc, decoder, events.as_slice(), out),
            Err(_) => None,
        }
    }

    /// Writes to `out` the word of the event that a silence of the terminal completes, if it fits. Returns
    /// its length in bytes, or `None` if an allocation failed. No event is handled.
    pub fn decode_silence(&mut self, alloc: Global, out: &mut [u8]) -> Option<usize>
        ensures { DecodesOpen HearsSilence self.old out.old self.new out.new result }
    {
        let mut decoder = self.decoder;
        match decoder.idle() {
            Some(event) => self.tell_events(alloc, decoder, &[event], out),
            None => self.tell_events(alloc, decoder, &[], out),
        }
    }

    /// Writes the words of `events` to `out`, and keeps `decoder`, if they fit. Returns their length in
    /// bytes, or `None` if an allocation failed.
    fn tell_events(
        &mut self,
        alloc: Global,
        decoder: Decoder,
        events: &[TerminalEvent],
        out: &mut [u8],
    ) -> Option<usize>
        ensures { TellsEvents self.old decoder events.now out.old self.new out.new result }
    {
        match words_of(alloc, events) {
            Ok(words) => Some(self.tell(decoder, words.as_bytes(), out)),
            Err(_) => None,
        }
    }

    /// Writes `words` to `out`, and keeps `decoder`, if they fit. Returns their length in bytes.
    fn tell(&mut self, decoder: Decoder, words: &[u8], out: &mut [u8]) -> usize
        ensures len { result ≡ length words.now }
        ensures told { Tells self.old decoder words.now out.old self.new out.new }
    {
        if words.len() <= out.len() {
            self.decoder = decoder;
            write_text(words, out)
        } else {
            words.len()
        }
    }

    /// Handles `bytes` from a terminal if the session waits for an event, and returns whether it
    /// does.
    pub fn hear(&mut self, alloc: Global, bytes: &[u8]) -> bool
        ensures is_waiting { result ≡ is_waiting self.old.stage }
        ensures typed { IsTrue result
            → Types bytes.now self.old.decoder self.new.decoder self.old.stage self.new.stage }
        ensures painter { self.new.painter ≡ self.old.painter }
        ensures kept { result ≡ false → self.new ≡ self.old }
    {
        let (stage, is_done) = heard(alloc, self.take_stage(), &mut self.decoder, bytes);
        self.stage = stage;
        is_done
    }

    /// Handles `bytes` from a terminal up to the first key that a front end may want, if the session
    /// waits for an event. Returns how many bytes it took, and the code of that key, 0 without one. If
    /// the session waits for no event then, the other bytes are dropped, and there is no such key. While
    /// the layer asks for a text, it hears all keys, and the code is 0.
    pub fn hear_to_key(&mut self, alloc: Global, bytes: &[u8]) -> Option<(usize, u32)>
        ensures waits { is_some result ≡ is_waiting self.old.stage }
        ensures typed { IfSome result
            (λ told. TypesToKey bytes.now self.old self.new told.0 told.1) }
        ensures kept { IfNone result (self.new ≡ self.old) }
    {
        let (taken, key) = stop(self.decoder, bytes);
        if !self.hear(alloc, &bytes[..taken]) {
            return None;
        }
        let told = told_length(self.is_waiting(), taken, bytes.len());
        Some((told, told_key(self.tells_keys(), key)))
    }

    /// Returns whether the session waits for an event.
    fn is_waiting(&self) -> bool
        ensures { result ≡ is_waiting self.now.stage }
    {
        match &self.stage {
            Stage::Waiting(_) => true,
            Stage::Building(_) | Stage::Editing(_) | Stage::Accepted(_) | Stage::Ended(_) => false,
        }
    }

    /// Returns whether a front end is told of its keys: the session waits for an event, and the layer asks
    /// for no text.
    fn tells_keys(&self) -> bool
        ensures { result ≡ tells_keys self.now.stage }
    {
        match &self.stage {
            Stage::Waiting(session) => !session.is_asking(),
            Stage::Building(_) | Stage::Editing(_) | Stage::Accepted(_) | Stage::Ended(_) => false,
        }
    }

    /// Handles the silence of the terminal if the session waits for an event, and returns whether
    /// it does.
    pub fn idle(&mut self) -> bool
        ensures is_waiting { result ≡ is_waiting self.old.stage }
        ensures silent { IsTrue result
            → Idles self.old.decoder self.new.decoder self.old.stage self.new.stage }
        ensures painter { self.new.painter ≡ self.old.painter }
        ensures kept { result ≡ false → self.new ≡ self.old }
    {
        let (stage, is_done) = rested(self.take_stage(), &mut self.decoder);
        self.stage = stage;
        is_done
    }

    /// Answers with the message `text` if the session waits for one, and returns whether it does.
    pub fn answer(&mut self, text: String) -> bool
        ensures is_editing { result ≡ is_editing self.old.stage }
        ensures said { IsTrue result → Says (string_bytes text) self.old.stage self.new.stage }
        ensures decoder { self.new.decoder ≡ self.old.decoder }
        ensures painter { self.new.painter ≡ self.old.painter }
        ensures kept { result ≡ false → self.new ≡ self.old }
    {
        let (stage, is_done) = answered(self.take_stage(), text);
        self.stage = stage;
        is_done
    }

    /// Resizes the screen to `width` columns and `height` rows if the session waits for an event.
    /// Returns the code of the call.
    pub fn resize(&mut self, width: u16, height: u16) -> u32
        ensures code { IsCode (is_waiting self.old.stage)
            (done_code (is_waiting self.old.stage)) result }
        ensures resized { result ≡ 0
            → Resizes (screen_of width height) self.old.stage self.new.stage }
        ensures decoder { self.new.decoder ≡ self.old.decoder }
        ensures painter { self.new.painter ≡ self.old.painter }
        ensures kept { 0 < result → self.new ≡ self.old }
    {
        resize_stage(&mut self.stage, width, height)
    }

    /// Returns the update that makes the terminal show the session, if it shows what was painted
    /// last.
    ///
    /// # Errors
    /// - `NOT_NOW`: the session waits for no event.
    /// - `NO_MEMORY`: an allocation failed; the next update has every row.
    pub fn paint(&mut self, alloc: Global) -> Result<String, u32>
        ensures { Updates self.old self.new
            (result_map_both string_bytes (λ code. code) result) }
    {
        update_at(alloc, &self.stage, &mut self.painter)
    }

    /// Forgets what was painted, so that the next update has every row.
    pub fn repaint(&mut self)
        ensures { ForgetsOpen self.old self.new }
    {
        self.painter.forget();
    }

    /// Returns the text of the stage: the screen's rows with a layer's status row, the message to edit, the
    /// error's sentence, or the accepted state. With the accepted state come each file's two sides. It is empty while
    /// the state is made. Returns `None` if an allocation failed.
    pub fn text(&self, alloc: Global) -> Option<String>
        ensures { IfSome result (λ text. IsText self.now.stage self.now.painter (string_bytes text)) }
    {
        match &self.stage {
            Stage::Building(_) => Some(String::new(alloc)),
            Stage::Waiting(session) => running_text(alloc, session, &self.painter),
            Stage::Editing(edit) => String::from_str(alloc, edit.live().message()).ok(),
            Stage::Accepted(accepted) => accepted_text(alloc, accepted.state()),
            Stage::Ended(error) => sentence(alloc, error),
        }
    }

    /// Returns the code and the key of the owner at `row`, `column` of the screen. Both count from
    /// 0.
    pub fn owner(&self, row: u16, column: u16) -> (u32, Key)
        ensures code { result.0 ≡ owner_of_stage self.now.stage row column }
        ensures key { result.1 ≡ key_of_stage self.now.stage row column }
    {
        match &self.stage {
            Stage::Waiting(session) => {
                let before = session.offset() as usize;
                owner_at(session.live(), row as usize, before + column as usize)
            }
            Stage::Building(_) | Stage::Editing(_) | Stage::Accepted(_) | Stage::Ended(_) => {
                (codes::NOBODY, Key::none())
            }
        }
    }

    /// Returns the key of the selected item, if the session waits for an event.
    pub fn selected(&self) -> Option<Key>
        ensures { result ≡ selected_of_stage self.now.stage }
    {
        match &self.stage {
            Stage::Waiting(session) => Some(Key::of_item(session.live().view_state().selection)),
            Stage::Building(_) | Stage::Editing(_) | Stage::Accepted(_) | Stage::Ended(_) => None,
        }
    }
}
