//! The call that selects an item.
ghost use Rattle.std.specs.Prelude.{◌≡◌, ◌<◌};
ghost use Rattle.scm_record.specs.Jumps.{can_select};
ghost use Rattle.scm_open_session.specs.declared.open_session.Stage.TheVariants.{Waiting};
ghost use Rattle.scm_open_session.specs.declared.running.Running.TheVariants as running;
ghost use Rattle.scm_c_values.specs.Keys.{item_of_key};
ghost use Rattle.scm_open_session.specs.Boxes.{box_value};
ghost use Rattle.scm_open_session.specs.Running.{live_of};
ghost use Rattle.scm_open_session.specs.Selecting.{Selects, code_if_selectable, code_of_select, code_of_select_at};
ghost use Rattle.scm_open_session.specs.Stages.{ChangesStage};

use crate::open_session::{OpenSession, Session, Stage};
use crate::running::{Running, after_start};
use scm_c_values::codes;
use scm_c_values::owners::{Key, item_of_key};
use scm_front::Folds;
use scm_record::{LiveSession, SelectionKey};

/// Returns the stage of `session` with `key` selected.
fn selected_plain(session: LiveSession<'static>, key: SelectionKey) -> Stage
    ensures { Selects key (Waiting (running.Plain session.entry)) result }
{
    match session.select(key) {
        Ok(next) => Stage::Waiting(Running::Plain(next)),
        Err(error) => Stage::Ended(error),
    }
}

/// Returns the stage of `session` with `key` selected.
fn selected(session: Running, key: SelectionKey) -> Stage
    ensures { Selects key (Waiting session) result }
{
    match session {
        Running::Plain(session) => selected_plain(session, key),
        Running::Layered(view) => {
            let (stage, _) = after_start(Running::Layered(view), Folds::AsIs, key);
            stage
        }
    }
}

/// Returns the stage of `session` with `key` selected, if it can be, and the code of the call.
fn select_now(session: Running, key: SelectionKey) -> (Stage, u32)
    ensures code { result.1 ≡ code_if_selectable (can_select (live_of session) key) }
    ensures selected { result.1 ≡ 0 → Selects key (Waiting session) result.0 }
    ensures kept { 0 < result.1 → result.0 ≡ Waiting session }
{
    if session.live().can_select(key) {
        (selected(session, key), codes::DONE)
    } else {
        (Stage::Waiting(session), codes::NO_ITEM)
    }
}

/// Returns the stage with `key` selected, and the code of the call.
fn select_at(stage: Stage, key: SelectionKey) -> (Stage, u32)
    ensures code { result.1 ≡ code_of_select_at key stage }
    ensures selected { result.1 ≡ 0 → Selects key stage result.0 }
    ensures kept { 0 < result.1 → result.0 ≡ stage }
{
    match stage {
        Stage::Waiting(session) => select_now(session, key),
        other => (other, codes::NOT_NOW),
    }
}

impl OpenSession {
    /// Selects `key`. Returns the code of the call.
    fn select(&mut self, key: SelectionKey) -> u32
        ensures code { result ≡ code_of_select_at key self.old.stage }
        ensures selected { result ≡ 0 → Selects key self.old.stage self.new.stage }
        ensures decoder { self.new.decoder ≡ self.old.decoder }
        ensures painter { self.new.painter ≡ self.old.painter }
        ensures kept { 0 < result → self.new ≡ self.old }
    {
        let (stage, code) = select_at(self.take_stage(), key);
        self.stage = stage;
        code
    }
}

/// Selects `key`. Returns the code of the call.
fn select_item(session: &mut Session, key: SelectionKey) -> u32
    ensures code { result ≡ code_of_select key (box_value session.old) }
    ensures selected { result ≡ 0
        → ChangesStage (Selects key) (box_value session.old) (box_value session.new) }
    ensures kept { 0 < result → box_value session.new ≡ box_value session.old }
{
    match session {
        Some(inner) => inner.select(key),
        None => codes::CLOSED,
    }
}

/// Selects the item that `key` names, unfolds what it lies in, and scrolls to it. Returns the code of the
/// call.
pub fn select(session: &mut Session, key: &Key) -> u32
    ensures code { result ≡ code_of_select (item_of_key key.now) (box_value session.old) }
    ensures selected { result ≡ 0 → ChangesStage (Selects (item_of_key key.now))
        (box_value session.old) (box_value session.new) }
    ensures kept { 0 < result → box_value session.new ≡ box_value session.old }
{
    select_item(session, item_of_key(key))
}
