//! The state whose JSON form a caller hands in.
ghost use Rattle.std.specs.Prelude.{◌≡◌, ◌<◌, IfErr, IfOk, IsTrue, Some, option_and_then};
ghost use Rattle.std.specs.Str.{is_utf8};
ghost use Rattle.serde_json.specs.Read.{read};
ghost use Rattle.scm_types.specs.Limits.{is_accepted_state};
ghost use Rattle.scm_json.specs.Form as form_of;
ghost use Rattle.scm_c_values.specs.Codes.{IsCode, code_of_json};

use crate::codes;
use scm_json::read_state;
use scm_record::RecordState;
use std::alloc::Global;

/// Returns the state with the JSON form `json`.
///
/// # Errors
/// The code of the failure: `NOT_TEXT`, `BAD_STATE`, `NOT_ACCEPTED` or `NO_MEMORY`.
pub fn state_of(alloc: Global, json: &[u8]) -> Result<RecordState<'static>, u32>
    ensures text { IfOk result (λ given. IsTrue (is_utf8 json.now)) }
    ensures form { IfOk result
        (λ given. option_and_then form_of.state_of (read json.now) ≡ Some given) }
    ensures accepted { IfOk result (λ given. IsTrue (is_accepted_state given)) }
    ensures err { IfErr result (λ code. IsCode (is_utf8 json.now) (code_of_json json.now) code) }
    ensures refused { IfErr result (λ code. 0 < code) }
{
    let Ok(text) = str::from_utf8(json) else {
        return Err(codes::NOT_TEXT);
    };
    let state = match read_state(alloc, text) {
        Ok(Some(state)) => state,
        Ok(None) => return Err(codes::BAD_STATE),
        Err(_) => return Err(codes::NO_MEMORY),
    };
    if state.is_accepted() {
        Ok(state)
    } else {
        Err(codes::NOT_ACCEPTED)
    }
}
