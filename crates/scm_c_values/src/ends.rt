//! How a session ended: the code and the sentence of its error.
ghost use Rattle.std.specs.Prelude.{◌≡◌, ◌++◌, IfSome, string_bytes};
ghost use Rattle.scm_c_values.specs.Ends.{code_of_failure, sentence_of};

use crate::codes;
use scm_record::RecordError;
use std::alloc::Global;

/// Returns the code of `error`, with which a session ended.
pub fn failure_code(error: &RecordError) -> u32
    ensures { result ≡ code_of_failure error.now }
{
    match error {
        RecordError::Cancelled => codes::END_CANCELLED,
        RecordError::OutOfMemory => codes::END_NO_MEMORY,
        RecordError::SetUpTerminal(_) => codes::END_SET_UP,
        RecordError::CleanUpTerminal(_) => codes::END_CLEAN_UP,
        RecordError::RenderFrame(_) => codes::END_RENDER,
        RecordError::ReadInput(_) => codes::END_READ,
        RecordError::SerializeJson(_) => codes::END_SERIALIZE,
        RecordError::WriteFile(_) => codes::END_WRITE,
        RecordError::Other(_) => codes::END_OTHER,
        RecordError::Bug(_) => codes::END_BUG,
    }
}

/// Returns the two parts of the sentence of `error`: what happened, and the cause.
fn sentence_parts(error: &RecordError) -> (&'static str, &str)
    ensures { result.0.now ++ result.1.now ≡ sentence_of error.now }
{
    match error {
        RecordError::Cancelled => ("cancelled by user", ""),
        RecordError::OutOfMemory => ("out of memory", ""),
        RecordError::SetUpTerminal(cause) => ("failed to set up terminal: ", cause.as_str()),
        RecordError::CleanUpTerminal(cause) => ("failed to clean up terminal: ", cause.as_str()),
        RecordError::RenderFrame(cause) => ("failed to render new frame: ", cause.as_str()),
        RecordError::ReadInput(cause) => ("failed to read user input: ", cause.as_str()),
        RecordError::SerializeJson(cause) => ("failed to serialize JSON: ", cause.as_str()),
        RecordError::WriteFile(cause) => ("failed to wrote file: ", cause.as_str()),
        RecordError::Other(cause) => ("", cause.as_str()),
        RecordError::Bug(cause) => ("bug: ", cause.as_str()),
    }
}

/// Returns the sentence of `error`, or `None` if an allocation failed.
pub fn sentence(alloc: Global, error: &RecordError) -> Option<String>
    ensures { IfSome result (λ text. string_bytes text ≡ sentence_of error.now) }
{
    let (happened, cause) = sentence_parts(error);
    let mut text = String::new(alloc);
    text.push_str(happened).ok()?;
    text.push_str(cause).ok()?;
    Some(text)
}
