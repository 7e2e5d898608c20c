//! The log of the calls beneath a layer, as a script.
ghost use Rattle.std.specs.Prelude.{◌≡◌, ◌++◌, IfErr, IfOk, IfSome, IsTrue, OnOk, string_bytes};
ghost use Rattle.std.specs.List.{flat_map};
ghost use Rattle.scm_front.specs.declared.logging.LoggedCall.{LoggedCall as Call};
ghost use Rattle.scm_open_session.specs.LayerCalls.{is_view};
ghost use Rattle.scm_open_session.specs.Logging.{HasLogAt, IsLoggedAt, IsScriptAt, IsUnloggedCode, answer_line, batch_line, line_of, script_of, select_line, size_line};

use crate::open_session::{OpenSession, Stage};
use scm_c_values::codes;
use scm_c_values::event_words::words_of_list;
use scm_c_values::quoting::push_escaped_text;
use scm_front::{CallLog, LoggedCall, Logging};
use scm_record::{Event, SelectionKey, TerminalKind};
use std::alloc::{AllocError, Global};

/// Returns the line of the batch `events`.
fn batch_line(alloc: Global, events: &[Event]) -> Result<String, AllocError>
    ensures { IfOk result (λ line. string_bytes line ≡ batch_line events.now) }
{
    let words = words_of_list(alloc, events)?;
    Ok(format!(in alloc; "batch {words}\n")?)
}

/// Returns the line of the size `kind`.
fn size_line(alloc: Global, kind: TerminalKind) -> Result<String, AllocError>
    ensures { IfOk result (λ line. string_bytes line ≡ size_line kind) }
{
    let TerminalKind::Testing { width, height } = kind;
    Ok(format!(in alloc; "size {width} {height}\n")?)
}

/// Returns the line of a jump to `key`.
fn select_line(alloc: Global, key: SelectionKey) -> Result<String, AllocError>
    ensures { IfOk result (λ line. string_bytes line ≡ select_line key) }
{
    match key {
        SelectionKey::None => Ok(format!(in alloc; "select\n")?),
        SelectionKey::File(key) => {
            let file = key.file_idx;
            Ok(format!(in alloc; "select {file}\n")?)
        }
        SelectionKey::Section(key) => {
            let (file, section) = (key.file_idx, key.section_idx);
            Ok(format!(in alloc; "select {file} {section}\n")?)
        }
        SelectionKey::Line(key) => {
            let (file, section, line) = (key.file_idx, key.section_idx, key.line_idx);
            Ok(format!(in alloc; "select {file} {section} {line}\n")?)
        }
    }
}

/// Adds `text` to `script`.
fn push_text(script: &mut Vec<u8>, text: String) -> Result<(), AllocError>
    ensures { OnOk result (script.new.items ≡ script.old.items ++ string_bytes text) }
{
    script.extend_from_slice(text.as_bytes())
}

/// Adds the line of the answer `text` to `script`.
fn push_answer(script: &mut Vec<u8>, text: &str) -> Result<(), AllocError>
    ensures { OnOk result (script.new.items ≡ script.old.items ++ answer_line text.now) }
{
    script.extend_from_slice("answer \"".as_bytes())?;
    push_escaped_text(script, text.as_bytes())?;
    script.extend_from_slice("\"\n".as_bytes())
}

/// Adds the line of `call` to `script`.
fn push_line(alloc: Global, script: &mut Vec<u8>, call: &LoggedCall) -> Result<(), AllocError>
    ensures { OnOk result (script.new.items ≡ script.old.items ++ line_of call.now) }
{
    match call {
        LoggedCall::Pressed(event) => push_text(script, batch_line(alloc, &[*event])?),
        LoggedCall::Batched(events) => push_text(script, batch_line(alloc, events.as_slice())?),
        LoggedCall::Jumped(key) => push_text(script, select_line(alloc, *key)?),
        LoggedCall::Answered(text) => push_answer(script, text.as_str()),
        LoggedCall::Resized(kind) => push_text(script, size_line(alloc, *kind)?),
    }
}

/// Adds the lines of `calls` to `script`.
fn push_lines(alloc: Global, script: &mut Vec<u8>, calls: &[LoggedCall]) -> Result<(), AllocError>
    ensures { OnOk result (script.new.items
        ≡ script.old.items ++ flat_map (λ (call : Call). line_of call) calls.now) }
{
    for call in calls {
        push_line(alloc, script, call)?;
    }
    Ok(())
}

/// Returns the script of `log`.
fn script_of(alloc: Global, log: &CallLog) -> Result<Vec<u8>, AllocError>
    ensures { IfOk result (λ script. script.items ≡ script_of log.now) }
{
    let size = size_line(alloc, log.kind)?;
    let mut script = Vec::new(alloc);
    script.extend_from_slice(size.as_bytes())?;
    push_lines(alloc, &mut script, log.calls.as_slice())?;
    Ok(script)
}

/// Returns what is logged of the calls at `stage`, if the session has a layer and has not ended in an
/// error.
fn logging_at(stage: &Stage) -> Option<&Logging>
    ensures { IfSome result (λ logging. IsLoggedAt stage.now logging.now) }
{
    match stage {
        Stage::Waiting(session) => session.logging(),
        Stage::Editing(edit) => edit.logging(),
        Stage::Accepted(accepted) => Some(accepted.logging()),
        Stage::Building(_) | Stage::Ended(_) => None,
    }
}

/// Returns the log at `stage`.
///
/// # Errors
/// The code of the failure: `NOT_NOW` if there is no log, `NO_MEMORY` if it is lost.
fn log_at(stage: &Stage) -> Result<&CallLog, u32>
    ensures ok { IfOk result (λ log. HasLogAt stage.now log.now) }
    ensures err { IfErr result IsUnloggedCode }
{
    match logging_at(stage) {
        Some(Logging::On(log)) => Ok(log),
        Some(Logging::Lost) => Err(codes::NO_MEMORY),
        Some(Logging::Fresh | Logging::Off) | None => Err(codes::NOT_NOW),
    }
}

/// Begins to log the calls beneath the layer at `stage`, and returns whether they are logged.
fn begin_log_at(stage: &mut Stage) -> bool
    ensures is_view { IsTrue result → IsTrue (is_view stage.old) }
    ensures kept { stage.new ≡ stage.old }
{
    match stage {
        Stage::Waiting(session) => session.log(),
        Stage::Building(_) => false,
        Stage::Editing(_) => false,
        Stage::Accepted(_) => false,
        Stage::Ended(_) => false,
    }
}

impl OpenSession {
    /// Begins to log the calls beneath the layer, if the session waits with a layer and no call was made
    /// yet. Returns whether they are logged.
    pub fn begin_log(&mut self) -> bool
        ensures is_view { IsTrue result → IsTrue (is_view self.old.stage) }
        ensures kept { self.new ≡ self.old }
    {
        begin_log_at(&mut self.stage)
    }

    /// Returns the logged calls as a script.
    ///
    /// # Errors
    /// The code of the failure: `NOT_NOW` if there is no log, `NO_MEMORY` if an allocation failed.
    pub fn script(&self, alloc: Global) -> Result<Vec<u8>, u32>
        ensures ok { IfOk result (λ script. IsScriptAt self.now.stage script.items) }
        ensures err { IfErr result IsUnloggedCode }
    {
        let log = log_at(&self.stage)?;
        match script_of(alloc, log) {
            Ok(script) => Ok(script),
            Err(_) => Err(codes::NO_MEMORY),
        }
    }
}
