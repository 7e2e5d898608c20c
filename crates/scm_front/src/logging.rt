//! The log of the calls of the session beneath a layer.
ghost use Rattle.std.specs.Prelude.{◌≡◌, IfSome, Some};
ghost use Rattle.scm_front.specs.declared.logging.LoggedCall.TheVariants.{Answered, Batched};
ghost use Rattle.scm_front.specs.Logging.{BeginsLog, LogsCall, LogsMore, is_on};

use scm_record::{Event, Items, OwnedText, SelectionKey, TerminalKind};
use std::alloc::Global;
use std::mem;

/// A call of the session beneath a layer.
#[derive(Drop)]
pub enum LoggedCall {
    /// An event was handed in.
    Pressed(Event),
    /// Events were handed in as one batch.
    Batched(Items<Event>),
    /// An item was selected at once. The batches of moves that select it lead to the same session.
    Jumped(SelectionKey),
    /// The message that was asked for was handed in.
    Answered(OwnedText),
    /// The session was drawn on a screen of this size.
    Resized(TerminalKind),
}

/// All calls of the session beneath a layer.
#[derive(Drop)]
pub struct CallLog {
    /// The size of the screen before the first call.
    pub kind: TerminalKind,
    /// The calls, the oldest first.
    pub calls: Items<LoggedCall>,
    /// The allocator of the calls.
    pub alloc: Global,
}

/// Whether the calls of the session beneath a layer are logged.
#[derive(Drop)]
pub enum Logging {
    /// No call was made yet, and none is logged.
    Fresh,
    /// The calls are not logged.
    Off,
    /// All calls are logged.
    On(CallLog),
    /// The log is lost, since an allocation failed.
    Lost,
}

/// Returns whether the calls are logged.
fn is_on(logging: &Logging) -> bool
    ensures { result ≡ is_on logging.now }
{
    match logging {
        Logging::On(_) => true,
        Logging::Fresh | Logging::Off | Logging::Lost => false,
    }
}

/// Returns `log` with `call` as the newest one. If an allocation failed, or `call` is `None`, the log is
/// lost.
fn with_call(log: CallLog, call: Option<LoggedCall>) -> Logging
    ensures { LogsMore log call result }
{
    let Some(call) = call else {
        return Logging::Lost;
    };
    let mut log = log;
    match log.calls.push(call) {
        Ok(()) => Logging::On(log),
        Err(_) => Logging::Lost,
    }
}

/// Returns what is logged after `call`. `None` is a call of which there is no copy.
pub(crate) fn after_call(logging: Logging, call: Option<LoggedCall>) -> Logging
    ensures { LogsCall logging call result }
{
    match logging {
        Logging::Fresh | Logging::Off => Logging::Off,
        Logging::On(log) => with_call(log, call),
        Logging::Lost => Logging::Lost,
    }
}

/// Adds `call` to the log, if there is one.
pub(crate) fn add_call(logging: &mut Logging, call: LoggedCall)
    ensures { LogsCall logging.old (Some call) logging.new }
{
    let old = mem::replace(logging, Logging::Lost);
    *logging = after_call(old, Some(call));
}

/// Returns `logging` with the calls logged from now on, if none was made yet. The screen has the size
/// `kind`.
fn begun(logging: Logging, alloc: Global, kind: TerminalKind) -> Logging
    ensures { BeginsLog kind alloc logging result }
{
    match logging {
        Logging::Fresh => Logging::On(CallLog {
            kind,
            calls: Items::new(alloc),
            alloc,
        }),
        Logging::Off => Logging::Off,
        Logging::On(log) => Logging::On(log),
        Logging::Lost => Logging::Lost,
    }
}

/// Begins to log the calls, if none was made yet, and returns whether they are logged. The screen has the
/// size `kind`.
pub(crate) fn begin(logging: &mut Logging, alloc: Global, kind: TerminalKind) -> bool
    ensures begins { BeginsLog kind alloc logging.old logging.new }
    ensures is_on { result ≡ is_on logging.new }
{
    let old = mem::replace(logging, Logging::Lost);
    *logging = begun(old, alloc, kind);
    is_on(logging)
}

/// Returns the batch `events` for a log, or `None` if an allocation failed.
fn copied_batch(alloc: Global, events: &[Event]) -> Option<LoggedCall>
    ensures { IfSome result (λ call. call ≡ Batched events.now) }
{
    match Vec::from_slice(alloc, events) {
        Ok(copy) => Some(LoggedCall::Batched(Items::from(copy))),
        Err(_) => None,
    }
}

/// Returns the batch `events` for a log, or `None` if there is no log or an allocation failed.
pub(crate) fn batch_of(logging: &Logging, events: &[Event]) -> Option<LoggedCall>
    ensures { IfSome result (λ call. call ≡ Batched events.now) }
{
    match logging {
        Logging::On(log) => copied_batch(log.alloc, events),
        Logging::Fresh | Logging::Off | Logging::Lost => None,
    }
}

/// Returns the message `text` for a log, or `None` if an allocation failed.
fn copied_message(alloc: Global, text: &str) -> Option<LoggedCall>
    ensures { IfSome result (λ call. call ≡ Answered text.now) }
{
    match String::from_str(alloc, text) {
        Ok(copy) => Some(LoggedCall::Answered(OwnedText::from(copy))),
        Err(_) => None,
    }
}

/// Returns the message `text` for a log, or `None` if there is no log or an allocation failed.
pub(crate) fn message_of(logging: &Logging, text: &str) -> Option<LoggedCall>
    ensures { IfSome result (λ call. call ≡ Answered text.now) }
{
    match logging {
        Logging::On(log) => copied_message(log.alloc, text),
        Logging::Fresh | Logging::Off | Logging::Lost => None,
    }
}
