//! Calls that tell how many events of a batch were handled. They need a session without a layer.
ghost use Rattle.std.specs.Prelude.{◌≡◌, ◌<◌, IfNone, IfSome, is_some, not, string_bytes, true};
ghost use Rattle.scm_c_values.specs.Codes.{IsCode, code_of_message, is_message};
ghost use Rattle.scm_c_values.specs.Pieces.{events_of_bytes};
ghost use Rattle.scm_open_session.specs.declared.open_session.Stage.TheVariants.{Editing as EditingStage, Waiting};
ghost use Rattle.scm_open_session.specs.declared.running.MessageEdit.TheVariants as edits;
ghost use Rattle.scm_open_session.specs.declared.running.Running.TheVariants as running;
ghost use Rattle.scm_open_session.specs.Boxes.{box_value};
ghost use Rattle.scm_open_session.specs.Counting.{HandsInAndCounts, PressesAndCounts, SaysAndCounts, code_of_counted, is_plain_editing, is_plain_waiting};
ghost use Rattle.scm_open_session.specs.Results.{code_where};
ghost use Rattle.scm_open_session.specs.Running.{is_edit_layered, is_layered};
ghost use Rattle.scm_open_session.specs.Stages.{ChangesStage};

use crate::open_session::{OpenSession, Session, Stage};
use crate::running::{MessageEdit, Running, stage_of};
use scm_c_values::batches::events_of;
use scm_c_values::codes;
use scm_c_values::inputs::message_of;
use scm_record::{Editing, Event, LiveSession};
use std::alloc::Global;

// ---- batches

/// Returns the stage of `session` after `events` as one batch, and how many of them were handled.
fn after_plain_batch(session: LiveSession<'static>, events: &[Event]) -> (Stage, usize)
    ensures { PressesAndCounts events.now result.1 (Waiting (running.Plain session.entry)) result.0 }
{
    let mut count = 0;
    let stage = stage_of(session.handle_and_count(events, &mut count));
    (stage, count)
}

/// Returns the stage of `session` after `events` as one batch, and how many of them were handled. With a layer the stage stays,
/// and there is no number.
fn after_counted_batch(session: Running, events: &[Event]) -> (Stage, Option<usize>)
    ensures is_counted { is_some result.1 ≡ not (is_layered session) }
    ensures pressed { IfSome result.1 (λ handled.
        PressesAndCounts events.now handled (Waiting session) result.0) }
    ensures kept { IfNone result.1 (result.0 ≡ Waiting session) }
{
    match session {
        Running::Plain(session) => {
            let (stage, handled) = after_plain_batch(session, events);
            (stage, Some(handled))
        }
        Running::Layered(view) => (Stage::Waiting(Running::Layered(view)), None),
    }
}

/// Returns the stage after `events` as one batch, and how many of them were handled. If the session waits for no event or has a
/// layer, the stage stays, and there is no number.
fn pressed_and_counted(stage: Stage, events: &[Event]) -> (Stage, Option<usize>)
    ensures is_counted { is_some result.1 ≡ is_plain_waiting stage }
    ensures pressed { IfSome result.1 (λ handled.
        PressesAndCounts events.now handled stage result.0) }
    ensures kept { IfNone result.1 (result.0 ≡ stage) }
{
    match stage {
        Stage::Waiting(session) => after_counted_batch(session, events),
        other => (other, None),
    }
}

/// Handles `events` as one batch, and writes to `handled` how many of them were handled. Returns the code of the call.
fn hand_in_and_count(session: &mut Session, events: &[Event], handled: &mut usize) -> u32
    ensures code { result ≡ code_where is_plain_waiting (box_value session.old) }
    ensures pressed { result ≡ 0 → ChangesStage (PressesAndCounts events.now handled.new)
        (box_value session.old) (box_value session.new) }
    ensures kept { 0 < result → box_value session.new ≡ box_value session.old }
    ensures unwritten { 0 < result → handled.new ≡ handled.old }
{
    match session {
        Some(inner) => match inner.press_and_count(events) {
            Some(count) => {
                *handled = count;
                codes::DONE
            }
            None => codes::NOT_NOW,
        },
        None => codes::CLOSED,
    }
}

/// Handles the events of `words`, which are separated by spaces, as one batch, and writes to `handled` how many of them were
/// handled. Returns the code of the call.
pub fn press_and_count(
    alloc: Global,
    session: &mut Session,
    words: &[u8],
    handled: &mut usize,
) -> u32
    ensures code { IsCode true
        (code_of_counted (events_of_bytes words.now) (box_value session.old)) result }
    ensures pressed { result ≡ 0 → HandsInAndCounts (events_of_bytes words.now) handled.new
        (box_value session.old) (box_value session.new) }
    ensures kept { 0 < result → box_value session.new ≡ box_value session.old }
    ensures unwritten { 0 < result → handled.new ≡ handled.old }
{
    match events_of(alloc, words) {
        Ok(events) => hand_in_and_count(session, events.as_slice(), handled),
        Err(code) => code,
    }
}

// ---- messages

/// Returns the stage of `edit` after the message `text`, and how many events of the rest of its batch were handled.
fn after_plain_message(edit: Editing<'static>, text: String) -> (Stage, usize)
    ensures { SaysAndCounts (string_bytes text) result.1
        (EditingStage (edits.Plain edit.entry)) result.0 }
{
    let mut later = 0;
    let stage = stage_of(edit.answer_and_count(text, &mut later));
    (stage, later)
}

/// Returns the stage of `edit` after the message `text`, and how many events of the rest of its batch were handled. With a layer
/// the stage stays, and there is no number.
fn after_counted_message(edit: MessageEdit, text: String) -> (Stage, Option<usize>)
    ensures is_counted { is_some result.1 ≡ not (is_edit_layered edit) }
    ensures said { IfSome result.1 (λ handled.
        SaysAndCounts (string_bytes text) handled (EditingStage edit) result.0) }
    ensures kept { IfNone result.1 (result.0 ≡ EditingStage edit) }
{
    match edit {
        MessageEdit::Plain(editing) => {
            let (stage, handled) = after_plain_message(editing, text);
            (stage, Some(handled))
        }
        MessageEdit::Layered(view) => (Stage::Editing(MessageEdit::Layered(view)), None),
    }
}

/// Returns the stage after the message `text`, and how many events of the rest of its batch were handled. If the session waits for
/// no message or has a layer, the stage stays, and there is no number.
fn answered_and_counted(stage: Stage, text: String) -> (Stage, Option<usize>)
    ensures is_counted { is_some result.1 ≡ is_plain_editing stage }
    ensures said { IfSome result.1 (λ handled.
        SaysAndCounts (string_bytes text) handled stage result.0) }
    ensures kept { IfNone result.1 (result.0 ≡ stage) }
{
    match stage {
        Stage::Editing(edit) => after_counted_message(edit, text),
        other => (other, None),
    }
}

/// Answers with the message `text`, and writes to `handled` how many events of the rest of its batch were handled. Returns the
/// code of the call.
fn say_and_count(session: &mut Session, text: String, handled: &mut usize) -> u32
    ensures code { result ≡ code_where is_plain_editing (box_value session.old) }
    ensures said { result ≡ 0 → ChangesStage (SaysAndCounts (string_bytes text) handled.new)
        (box_value session.old) (box_value session.new) }
    ensures kept { 0 < result → box_value session.new ≡ box_value session.old }
    ensures unwritten { 0 < result → handled.new ≡ handled.old }
{
    match session {
        Some(inner) => match inner.answer_and_count(text) {
            Some(later) => {
                *handled = later;
                codes::DONE
            }
            None => codes::NOT_NOW,
        },
        None => codes::CLOSED,
    }
}

/// Answers with the message `text`, if the session waits for a message, and writes to `handled` how many events of the rest of its
/// batch were handled. Returns the code of the call.
pub fn answer_and_count(
    alloc: Global,
    session: &mut Session,
    text: &[u8],
    handled: &mut usize,
) -> u32
    ensures code { IsCode (is_message text.now) (code_of_message text.now
        (code_where is_plain_editing (box_value session.old))) result }
    ensures said { result ≡ 0 → ChangesStage (SaysAndCounts text.now handled.new)
        (box_value session.old) (box_value session.new) }
    ensures kept { 0 < result → box_value session.new ≡ box_value session.old }
    ensures unwritten { 0 < result → handled.new ≡ handled.old }
{
    match message_of(alloc, text) {
        Ok(message) => say_and_count(session, message, handled),
        Err(code) => code,
    }
}

impl OpenSession {
    /// Handles `events` as one batch if the session waits for an event and has no layer. Returns how many of them were handled.
    fn press_and_count(&mut self, events: &[Event]) -> Option<usize>
        ensures is_counted { is_some result ≡ is_plain_waiting self.old.stage }
        ensures pressed { IfSome result (λ handled.
            PressesAndCounts events.now handled self.old.stage self.new.stage) }
        ensures decoder { self.new.decoder ≡ self.old.decoder }
        ensures painter { self.new.painter ≡ self.old.painter }
        ensures kept { IfNone result (self.new ≡ self.old) }
    {
        let (stage, handled) = pressed_and_counted(self.take_stage(), events);
        self.stage = stage;
        handled
    }

    /// Answers with the message `text` if the session waits for one and has no layer. Returns how many events of the rest of its
    /// batch were handled.
    fn answer_and_count(&mut self, text: String) -> Option<usize>
        ensures is_counted { is_some result ≡ is_plain_editing self.old.stage }
        ensures said { IfSome result (λ handled.
            SaysAndCounts (string_bytes text) handled self.old.stage self.new.stage) }
        ensures decoder { self.new.decoder ≡ self.old.decoder }
        ensures painter { self.new.painter ≡ self.old.painter }
        ensures kept { IfNone result (self.new ≡ self.old) }
    {
        let (stage, handled) = answered_and_counted(self.take_stage(), text);
        self.stage = stage;
        handled
    }
}
