//! What is true of marks that are handed in.
ghost use Rattle.std.specs.Prelude.{◌≡◌, ℕ, List, false, IsTrue};
ghost use Rattle.scm_types.specs.declared.state.RecordState.{RecordState};
ghost use Rattle.scm_embed.specs.Marked.{HasMarks, after_marks, fits_marks};

/// Proves what is set if marks are handed in: a file has these marks, and all else stays as it was.
///
/// If they are more or fewer than the file's items, or there is no such file, the state stays.
///
/// This is a law: the function does nothing, and is there for its contract.
pub fn marks_are_those_handed_in()
    ensures set { (i : ℕ) (bytes : List ℕ) (state : RecordState)
        → IsTrue (fits_marks i bytes state)
        → HasMarks i bytes state (after_marks i bytes state) }
    ensures kept { (i : ℕ) (bytes : List ℕ) (state : RecordState)
        → fits_marks i bytes state ≡ false → after_marks i bytes state ≡ state }
{}
