//! Jumps to a key: it is selected at once, as moves of the selection would select it.
ghost use Rattle.std.specs.Prelude.{◌≡◌, IfErr, IfOk, IsTrue, List, None};
ghost use Rattle.scm_errors.specs.declared.error.RecordError.TheVariants.{OutOfMemory};
ghost use Rattle.scm_types.specs.declared.keys.SelectionKey.{SelectionKey};
ghost use Rattle.scm_types.specs.declared.state.RecordState.{RecordState};
ghost use Rattle.scm_input.specs.declared.events.Event.{Event};
ghost use Rattle.scm_input.specs.declared.inputs.TerminalKind.{TerminalKind};
ghost use Rattle.scm_selection.specs.KeysAround.{is_key_of};
ghost use Rattle.scm_record.specs.Session.{start};
ghost use Rattle.scm_record.specs.Live.{Live};
ghost use Rattle.scm_record.specs.LiveCalls.{BatchLeads, Call, Path};
ghost use Rattle.scm_record.specs.Jumps.{LeadToKey, after_selecting, can_select};
ghost use Rattle.scm_record.specs.declared.live.Turn.TheVariants.{Waiting};

use crate::live::{LiveSession, show_selection};
use scm_selection::moves::is_key_of;
use scm_types::{RecordError, SelectionKey};

impl<'state> LiveSession<'state> {
    /// Returns whether `key` can be selected at once: the quit dialog is closed, and `key` names a file, a
    /// section that is not context, or a changed line of the state.
    pub fn can_select(&self, key: SelectionKey) -> bool
        ensures { result ≡ can_select self.now key }
    {
        !self.session.is_quit_dialog_open() && is_key_of(self.state().files.as_slice(), key)
    }

    /// Selects `key`, unfolds the file and the section that contain it, and scrolls so that the screen
    /// shows it. If `key` cannot be selected, returns the session as it is.
    ///
    /// Some batch of `FocusPrev`, `FocusNext` and `ExpandItem` leads to the same session. This call finds
    /// no such batch: it takes the time of one move, wherever `key` is.
    ///
    /// # Errors
    ///
    /// An error ends the session.
    ///
    /// - `OutOfMemory`: an allocation failed.
    pub fn select(self, key: SelectionKey) -> Result<LiveSession<'state>, RecordError>
        ensures ok { IfOk result (λ l. l ≡ after_selecting self.entry key) }
        ensures err { IfErr result (λ e. e ≡ OutOfMemory) }
    {
        if !self.can_select(key) {
            return Ok(self);
        }
        let LiveSession {
            session,
            frame,
            kind,
        } = self;
        let mut session = session;
        session.select(key)?;
        show_selection(session, frame, kind)
    }
}

/// Proves that moves of the selection reach every file, every section that is not context and every
/// changed line.
///
/// While the quit dialog is closed, some batch of `FocusPrev`, `FocusNext` and `ExpandItem` selects the
/// item. It unfolds the file and the section that contain it, and changes no other fold. After the
/// batch the screen shows the item.
///
/// This is a law: the function does nothing, and is there for its contract.
pub fn moves_reach_every_key()
    ensures { (given : RecordState) (kind : TerminalKind) (calls : List Call) (l : Live)
        (key : SelectionKey)
        → Path (Waiting (record { session = start given; kind = kind })) calls (Waiting l)
        → l.session.shown.quit_dialog ≡ None
        → IsTrue (is_key_of l.session.shown.state.files key)
        → (moves : List Event) × LeadToKey l key moves }
{}

/// Proves that a jump to a key is a batch of moves, so that a session with jumps is still a run.
///
/// The batch is one of those of [`moves_reach_every_key`].
///
/// This is a law: the function does nothing, and is there for its contract.
pub fn jumps_are_batches()
    ensures { (given : RecordState) (kind : TerminalKind) (calls : List Call) (l : Live)
        (key : SelectionKey)
        → Path (Waiting (record { session = start given; kind = kind })) calls (Waiting l)
        → IsTrue (can_select l key)
        → (moves : List Event) × BatchLeads l moves (Waiting (after_selecting l key)) }
{}
