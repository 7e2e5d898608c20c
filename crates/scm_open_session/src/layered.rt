//! Stages with a layer: how a session begins with one, how it looks, and where it starts.
ghost use Rattle.std.specs.Prelude.{◌≡◌, ◌-◌, ◌<◌, IfErr, IfOk, IsTrue, false, true};
ghost use Rattle.scm_errors.specs.declared.error.RecordError.TheVariants.{OutOfMemory};
ghost use Rattle.scm_input.specs.declared.inputs.TerminalKind.TheVariants.{Testing};
ghost use Rattle.scm_types.specs.Limits.{is_accepted_state};
ghost use Rattle.scm_open_session.specs.declared.open_session.Stage.TheVariants.{Building};
ghost use Rattle.scm_open_session.specs.LayerCalls.{BeginsLayer, IsNewView, SetsStart, StartsView, has_layer, is_view};
ghost use Rattle.scm_open_session.specs.OwnKeys.{SetsKeys};
ghost use Rattle.scm_open_session.specs.Painters.{HaveLabel, HaveTheme, HaveWords};
ghost use Rattle.scm_c_values.specs.Codes.{IsCode, code_of_json, done_code};
ghost use Rattle.std.specs.Str.{is_utf8};

use crate::open_session::{OpenSession, Stage};
use crate::running::{Running, after_start, set_keys};
use scm_c_values::codes;
use scm_c_values::codes::resize_code;
use scm_c_values::json_state::state_of;
use scm_embed::StateBuilder;
use scm_front::{Folds, Front, OwnKey};
use scm_front_paint::{Label, Theme, View};
use scm_record::{Items, OwnedText, RecordError, RecordState, SelectionKey, TerminalKind};
use std::alloc::Global;

/// The most columns and rows of a terminal: a larger window shows that many.
const MAX: u16 = 1000;

/// Returns the screen of the session on a terminal of `width` columns and `height` rows, of which the last
/// one is the status row.
fn screen_above(width: u16, height: u16) -> TerminalKind
    ensures { result ≡ Testing width (height - 1) }
{
    TerminalKind::Testing {
        width: width as usize,
        height: (height as usize).saturating_sub(1),
    }
}

/// Returns a new view of `state`, on a terminal of `width` columns and `height` rows.
///
/// # Errors
///
/// - `OutOfMemory`: an allocation failed; the state is dropped.
fn new_view(
    alloc: Global,
    state: RecordState<'static>,
    width: u16,
    height: u16,
) -> Result<View<'static>, RecordError>
    requires { IsTrue (is_accepted_state state) }
    ensures ok { IfOk result (λ view. IsNewView state.entry width height view) }
    ensures err { IfErr result (λ e. e ≡ OutOfMemory) }
{
    let front = Front::new(alloc, screen_above(width, height), state)?;
    View::new(front, width, height)
}

/// Returns the stage and the code of a session that begins with the state of `builder` and a layer, on a
/// terminal of `width` columns and `height` rows.
fn start_view(alloc: Global, builder: StateBuilder, width: u16, height: u16) -> (Stage, u32)
    ensures { StartsView width height (Building builder) result.0 result.1 }
{
    if !builder.is_accepted() {
        return (Stage::Building(builder), codes::NOT_ACCEPTED);
    }
    match new_view(alloc, builder.into_state(), width.min(MAX), height.min(MAX)) {
        Ok(view) => (Stage::Waiting(Running::Layered(view)), codes::DONE),
        Err(error) => (Stage::Ended(error), codes::NO_MEMORY),
    }
}

/// Returns the stage and the code of a session that begins with a layer, on a terminal of `width` columns
/// and `height` rows.
fn begun_view(alloc: Global, stage: Stage, width: u16, height: u16) -> (Stage, u32)
    ensures { StartsView width height stage result.0 result.1 }
{
    match stage {
        Stage::Building(builder) => start_view(alloc, builder, width, height),
        other => (other, codes::NOT_NOW),
    }
}

/// Returns the stage with `folds` and `first` selected, and whether the session waited for an event with a
/// layer.
fn started(stage: Stage, folds: Folds, first: SelectionKey) -> (Stage, bool)
    ensures is_view { result.1 ≡ is_view stage }
    ensures set { IsTrue result.1 → SetsStart folds first stage result.0 }
    ensures kept { result.1 ≡ false → result.0 ≡ stage }
{
    match stage {
        Stage::Waiting(session) => after_start(session, folds, first),
        other => (other, false),
    }
}

/// Sets the keys of the user's own. Returns whether the session waited for an event with a layer.
fn set_stage_keys(stage: &mut Stage, keys: Items<OwnKey>) -> bool
    ensures is_view { result ≡ is_view stage.old }
    ensures set { IsTrue result → SetsKeys keys stage.old stage.new }
    ensures kept { result ≡ false → stage.new ≡ stage.old }
{
    match stage {
        Stage::Waiting(session) => set_keys(session, keys),
        Stage::Building(_) => false,
        Stage::Editing(_) => false,
        Stage::Accepted(_) => false,
        Stage::Ended(_) => false,
    }
}

/// Returns whether a session at `stage` has a layer.
fn has_layer(stage: &Stage) -> bool
    ensures { result ≡ has_layer stage.now }
{
    match stage {
        Stage::Waiting(session) => session.is_layered(),
        Stage::Editing(edit) => edit.is_layered(),
        Stage::Building(_) | Stage::Accepted(_) | Stage::Ended(_) => false,
    }
}

impl OpenSession {
    /// Returns a session with a layer over the state with the JSON form `json`. Its terminal has `width`
    /// columns and `height` rows.
    ///
    /// # Errors
    /// The code of the failure, as `gabro_new` returns it.
    pub fn layered(
        alloc: Global,
        json: &[u8],
        width: u16,
        height: u16,
    ) -> Result<Box<OpenSession>, u32>
        ensures ok { IfOk result (λ inner. BeginsLayer json.now width height inner.value) }
        ensures good { IfOk result (λ inner. code_of_json json.now ≡ 0) }
        ensures err { IfErr result (λ code.
            IsCode (is_utf8 json.now) (code_of_json json.now) code) }
        ensures refused { IfErr result (λ code. 0 < code) }
    {
        let state = state_of(alloc, json)?;
        let Ok(view) = new_view(alloc, state, width.min(MAX), height.min(MAX)) else {
            return Err(codes::NO_MEMORY);
        };
        let stage = Stage::Waiting(Running::Layered(view));
        match OpenSession::at_stage(alloc, stage) {
            Some(inner) => Ok(inner),
            None => Err(codes::NO_MEMORY),
        }
    }

    /// Begins the session with the state that is made and with a layer, on a terminal of `width` columns
    /// and `height` rows. Returns the code of the call.
    pub fn begin_layer(&mut self, alloc: Global, width: u16, height: u16) -> u32
        ensures starts { StartsView width height self.old.stage self.new.stage result }
        ensures decoder { self.new.decoder ≡ self.old.decoder }
        ensures painter { self.new.painter ≡ self.old.painter }
    {
        let (stage, code) = begun_view(alloc, self.take_stage(), width, height);
        self.stage = stage;
        code
    }

    /// Sets the theme of the layer, and returns whether there is one. The next update has every row.
    pub fn set_theme(&mut self, theme: Theme) -> bool
        ensures has_layer { result ≡ has_layer self.old.stage }
        ensures themed { IsTrue result → HaveTheme theme self.old.painter self.new.painter }
        ensures stage { self.new.stage ≡ self.old.stage }
        ensures decoder { self.new.decoder ≡ self.old.decoder }
        ensures kept { result ≡ false → self.new ≡ self.old }
    {
        let is_due = has_layer(&self.stage);
        if is_due {
            self.painter.set_theme(theme);
        }
        is_due
    }

    /// Sets the words by which the status row says what accepting does, and returns whether there is a
    /// layer.
    pub fn name_accepting(&mut self, text: OwnedText) -> bool
        ensures has_layer { result ≡ has_layer self.old.stage }
        ensures named { IsTrue result → HaveWords text self.old.painter self.new.painter }
        ensures stage { self.new.stage ≡ self.old.stage }
        ensures decoder { self.new.decoder ≡ self.old.decoder }
        ensures kept { result ≡ false → self.new ≡ self.old }
    {
        let is_due = has_layer(&self.stage);
        if is_due {
            self.painter.name_accepting(text);
        }
        is_due
    }

    /// Shows `label` from the next update on, if there is a layer. Returns the code of the call.
    pub fn label(&mut self, label: Label) -> u32
        ensures code { IsCode true (done_code (has_layer self.old.stage)) result }
        ensures labelled { result ≡ 0
            → HaveLabel label self.old.painter self.new.painter }
        ensures stage { self.new.stage ≡ self.old.stage }
        ensures decoder { self.new.decoder ≡ self.old.decoder }
        ensures kept { 0 < result → self.new ≡ self.old }
    {
        if !has_layer(&self.stage) {
            return codes::NOT_NOW;
        }
        resize_code(self.painter.label(label))
    }

    /// Unfolds what `folds` says, and selects `first`, if the session waits for an event with a layer, and
    /// returns whether it does.
    pub fn start(&mut self, folds: Folds, first: SelectionKey) -> bool
        ensures is_view { result ≡ is_view self.old.stage }
        ensures set { IsTrue result → SetsStart folds first self.old.stage self.new.stage }
        ensures decoder { self.new.decoder ≡ self.old.decoder }
        ensures painter { self.new.painter ≡ self.old.painter }
        ensures kept { result ≡ false → self.new ≡ self.old }
    {
        let (stage, is_done) = started(self.take_stage(), folds, first);
        self.stage = stage;
        is_done
    }

    /// Sets the keys of the user's own, if the session waits for an event with a layer, and returns whether
    /// it does.
    pub fn set_keys(&mut self, keys: Items<OwnKey>) -> bool
        ensures is_view { result ≡ is_view self.old.stage }
        ensures set { IsTrue result → SetsKeys keys self.old.stage self.new.stage }
        ensures decoder { self.new.decoder ≡ self.old.decoder }
        ensures painter { self.new.painter ≡ self.old.painter }
        ensures kept { result ≡ false → self.new ≡ self.old }
    {
        set_stage_keys(&mut self.stage, keys)
    }
}
