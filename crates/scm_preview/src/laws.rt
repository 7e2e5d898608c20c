//! What is true of a session that waits, before the user accepts.
ghost use Rattle.std.specs.Prelude.{◌≡◌, ◌⊎◌, ℕ, Bool, Some};
ghost use Rattle.scm_input.specs.declared.events.Event.TheVariants.{QuitAccept};
ghost use Rattle.scm_input.specs.declared.inputs.TerminalKind.{TerminalKind};
ghost use Rattle.scm_types.specs.declared.state.RecordState.{RecordState};
ghost use Rattle.scm_record.specs.Live.{Live};
ghost use Rattle.scm_c_values.specs.States.{answer_of, code_of_question, marks_at, side_at};
ghost use Rattle.scm_c_values.specs.Texts.{side_bytes_at};
ghost use Rattle.scm_open_session.specs.declared.open_session.OpenSession.{OpenSession as Open};
ghost use Rattle.scm_open_session.specs.Dialogs.{dialog_of};
ghost use Rattle.scm_open_session.specs.Questions.{asked_state};
ghost use Rattle.scm_open_session.specs.Stages.{ChangesStage, Presses, code_of_session};
ghost use Rattle.scm_open_session.specs.Steps.{HasCome};
ghost use Rattle.scm_preview.specs.Calls.{IsRefused, MayAccept, TellsTheSame};
ghost use Rattle.scm_preview.specs.Preview.{AcceptsWhatIsShown, CanAccept, FailsByMemory};

/// Proves what the event that accepts leads to, while neither the help nor the quit dialog is open: to the
/// state that the session shows before it, and to nothing else.
///
/// A session has no pending events between two calls.
///
/// This is a law: the function does nothing, and is there for its contract.
pub fn accepting_gives_what_is_shown()
    ensures leads { (l : Live) → CanAccept l → AcceptsWhatIsShown l }
    ensures fails { (l : Live) → CanAccept l → FailsByMemory l }
{}

/// Proves that what calls of C tell while the session waits is what they tell once it is accepted.
///
/// A session that has come from its start by calls, waits for an event and shows no dialog may accept. If the
/// next event is the one that accepts, as `gabro_press` hands it in, the session is accepted, unless an
/// allocation fails. Calls then ask the state that they asked before: so the sides of files are the same, byte
/// for byte. All of it holds with a layer, too.
///
/// This is a law: the function does nothing, and is there for its contract.
pub fn calls_tell_what_is_accepted()
    ensures may { (given : RecordState) (kind : TerminalKind) (inner : Open)
        → HasCome given kind inner.stage → code_of_session (Some inner) ≡ 0
        → dialog_of (Some inner) ≡ 0 → MayAccept inner }
    ensures accepts { (old new : Open) → MayAccept old
        → ChangesStage (Presses QuitAccept) (Some old) (Some new)
        → TellsTheSame old new ⊎ IsRefused new }
    // so these are the same, and so is the answer to each other question about the state
    ensures code { (old new : Open) → TellsTheSame old new → (file : ℕ) (selected : Bool)
        → code_of_question (side_bytes_at file selected) (asked_state (Some new))
        ≡ code_of_question (side_bytes_at file selected) (asked_state (Some old)) }
    ensures bytes { (old new : Open) → TellsTheSame old new → (file : ℕ) (selected : Bool)
        → answer_of (side_bytes_at file selected) (asked_state (Some new))
        ≡ answer_of (side_bytes_at file selected) (asked_state (Some old)) }
    ensures side { (old new : Open) → TellsTheSame old new → (file : ℕ) (selected : Bool)
        → answer_of (side_at file selected) (asked_state (Some new))
        ≡ answer_of (side_at file selected) (asked_state (Some old)) }
    ensures marks { (old new : Open) → TellsTheSame old new → (file : ℕ)
        → answer_of (marks_at file) (asked_state (Some new))
        ≡ answer_of (marks_at file) (asked_state (Some old)) }
{}
