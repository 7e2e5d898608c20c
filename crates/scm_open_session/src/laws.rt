//! What is true of a session, whatever a program calls.
ghost use Rattle.std.specs.Prelude.{◌≡◌, ℕ, List, ◌-◌, min, IsTrue, Some};
ghost use Rattle.scm_types.specs.Limits.{is_accepted_state};
ghost use Rattle.scm_types.specs.declared.state.RecordState.{RecordState};
ghost use Rattle.scm_input.specs.declared.inputs.TerminalKind.{TerminalKind};
ghost use Rattle.scm_input.specs.declared.inputs.TerminalKind.TheVariants.{Testing};
ghost use Rattle.scm_record.specs.Session.{start};
ghost use Rattle.scm_record.specs.Keeping.{IsKept};
ghost use Rattle.scm_record.specs.LiveCalls.{AreRuns, Call};
ghost use Rattle.scm_record.specs.declared.live.Turn.{Turn};
ghost use Rattle.scm_open_session.specs.declared.open_session.OpenSession.{OpenSession as Open};
ghost use Rattle.scm_open_session.specs.declared.open_session.Stage.{Stage};
ghost use Rattle.scm_open_session.specs.declared.open_session.Stage.TheVariants.{Accepted, Building};
ghost use Rattle.scm_open_session.specs.Building.{Starts};
ghost use Rattle.scm_open_session.specs.LayerCalls.{BeginsLayer, StartsView};
ghost use Rattle.scm_open_session.specs.Stages.{Begins};
ghost use Rattle.scm_open_session.specs.Steps.{HasCome, Steps, turn_at};
ghost use Rattle.scm_c_values.specs.Screens.{screen_of};

use scm_record::live::sessions_are_runs;

/// Proves that the calls of a program are runs, with a layer or without one.
///
/// A session begins at the start of a state. Each call of a program that changes it is a list of calls of
/// the live session beneath, or ends it in an error. So
/// [`sessions_are_runs`](scm_record::live::sessions_are_runs) is true of it: it is a run for each screen, and
/// an accepted state differs from the given one only in marks and messages.
///
/// This is a law: the function does nothing, and is there for its contract.
pub fn calls_are_runs()
    // a session begins at the start of its state: `gabro_new`, `gabro_begin`
    ensures new { (json : List ℕ) (width height : ℕ) (inner : Open)
        (h : Begins json width height inner)
        → HasCome h.given (screen_of width height) inner.stage }
    ensures begin { (kind : TerminalKind) (given : RecordState) (stage : Stage)
        → Starts kind (Building given) stage 0 → HasCome given kind stage }
    // with a layer, on a screen with a row less: `gabro_new_layer`, `gabro_begin_layer`
    ensures new_layer { (json : List ℕ) (width height : ℕ) (inner : Open)
        (h : BeginsLayer json width height inner)
        → HasCome h.given (Testing (min width 1000) (min height 1000 - 1)) inner.stage }
    ensures begin_layer { (width height : ℕ) (given : RecordState) (stage : Stage)
        → StartsView width height (Building given) stage 0
        → HasCome given (Testing (min width 1000) (min height 1000 - 1)) stage }
    // each call goes on from there
    ensures goes_on { (given : RecordState) (kind : TerminalKind) (old new : Stage)
        → HasCome given kind old → Steps old new → HasCome given kind new }
    // so the calls are runs
    ensures runs { (given : RecordState) (kind : TerminalKind) (stage : Stage) (turn : Turn)
        → IsTrue (is_accepted_state given) → HasCome given kind stage
        → turn_at stage ≡ Some turn → (calls : List Call) × AreRuns (start given) kind calls turn }
    // and an accepted state is the given one but for marks and messages
    ensures kept { (given state : RecordState) (kind : TerminalKind)
        → IsTrue (is_accepted_state given) → HasCome given kind (Accepted state)
        → IsKept given state }
{
    sessions_are_runs();
}
