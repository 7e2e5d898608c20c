//! A session at a terminal: bytes in, bytes out.
ghost use Rattle.std.specs.Prelude.{List, IfOk, IfSome, IsTrue};
ghost use Rattle.scm_record.specs.Limits.{is_accepted_state};
ghost use Rattle.scm_record.specs.Keeping.{IsKept};
ghost use Rattle.scm_record.specs.LiveCalls.{Call, Path};
ghost use Rattle.scm_record.specs.declared.live.Turn.TheVariants.{Waiting};

use crate::live::without_editor;
use scm_record::live::sessions_are_runs;
use scm_record::{Decoder, LiveSession, Painter, RecordError, RecordState, TerminalKind, Turn};
use std::alloc::Global;

/// Adds to `shown` the bytes that draw the session, and hands in `came`, the bytes from the
/// terminal.
fn show_and_type<'a>(
    session: LiveSession<'a>,
    decoder: &mut Decoder,
    painter: &mut Painter,
    came: &[u8],
    shown: &mut String,
) -> Result<Turn<'a>, RecordError>
    ensures path { IfOk result (λ turn.
        (calls : List Call) × Path (Waiting session.entry) calls turn) }
{
    let frame = session.paint(painter)?;
    shown.push_str(frame.as_str())?;
    session.typed(decoder, came)
}

/// Hands in `chunks` of bytes from a terminal, until the session has ended or no chunk is left.
/// Adds to `shown` the bytes that draw the session before each chunk.
///
/// Here a tool would write to its terminal and read from it.
pub fn type_in<'a>(
    alloc: Global,
    session: LiveSession<'a>,
    chunks: &[&[u8]],
    shown: &mut String,
) -> Result<Turn<'a>, RecordError>
    ensures path { IfOk result (λ turn.
        (calls : List Call) × Path (Waiting session.entry) calls turn) }
{
    let mut decoder = Decoder::new();
    let mut painter = Painter::new(alloc);
    let mut session = session;
    for chunk in chunks {
        let turn = show_and_type(session, &mut decoder, &mut painter, chunk, shown)?;
        session = match without_editor(turn)? {
            Turn::Waiting(session) => session,
            ended => return Ok(ended),
        };
    }
    Ok(Turn::Waiting(session))
}

/// Returns the accepted state after the bytes of `chunks`, or `None` if they do not end the
/// session. Adds to `shown` the bytes that draw the session on the way.
pub fn choose_at_terminal<'a>(
    alloc: Global,
    kind: TerminalKind,
    state: RecordState<'a>,
    chunks: &[&[u8]],
    shown: &mut String,
) -> Result<Option<RecordState<'a>>, RecordError>
    requires { IsTrue (is_accepted_state state) }
    ensures kept { IfOk result (λ accepted. IfSome accepted (λ marked. IsKept state.entry marked)) }
{
    let session = LiveSession::new(alloc, kind, state)?;
    let turn = type_in(alloc, session, chunks, shown)?;
    sessions_are_runs();
    match turn {
        Turn::Accepted(marked) => Ok(Some(marked)),
        Turn::Waiting(_) | Turn::Editing(_) => Ok(None),
    }
}
