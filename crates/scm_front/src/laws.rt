//! What is true of a front, whatever is typed.
ghost use Rattle.std.specs.Prelude.{◌≡◌, ℕ, Bool, List, [], ◌∷◌, IsTrue, None, false};
ghost use Rattle.scm_input.specs.declared.events.Event.{Event};
ghost use Rattle.scm_input.specs.declared.events.Event.TheVariants.{EnsureSelectionInViewport, FocusNext, ToggleItem};
ghost use Rattle.scm_record.specs.Session.{Session, after_frame, after_select, after_toggle, visible};
ghost use Rattle.scm_record.specs.Moves.{next_key};
ghost use Rattle.scm_record.specs.KeyLists.{first_key};
ghost use Rattle.scm_record.specs.Frames.{scene_of};
ghost use Rattle.scm_record.specs.Change.{stays};
ghost use Rattle.scm_record.specs.Step.{change};
ghost use Rattle.scm_record.specs.Live.{Live};
ghost use Rattle.scm_record.specs.LiveCalls.{EventLeads};
ghost use Rattle.scm_types.specs.Limits.{is_accepted_state};
ghost use Rattle.scm_types.specs.declared.state.RecordState.{RecordState};
ghost use Rattle.scm_input.specs.declared.inputs.TerminalKind.{TerminalKind};
ghost use Rattle.scm_record.specs.Session.{start};
ghost use Rattle.scm_record.specs.Keeping.{IsKept};
ghost use Rattle.scm_record.specs.LiveCalls.{AreRuns, Call, Path};
ghost use Rattle.scm_record.specs.declared.live.Turn.{Turn};
ghost use Rattle.scm_record.specs.declared.live.Turn.TheVariants.{Waiting, Accepted};
ghost use Rattle.scm_front.specs.Presses.{PressesLead};
ghost use Rattle.scm_types.specs.declared.keys.SelectionKey.{SelectionKey};
ghost use Rattle.scm_front_items.specs.declared.places.Place.{Place};
ghost use Rattle.scm_front_items.specs.Targets.{after_deeds};
ghost use Rattle.scm_front.specs.Scrolling.{QuietRound};
ghost use Rattle.scm_front.specs.Free.{IsFree};
ghost use Rattle.scm_front.specs.Fronts.{Does, FrontPath, Input, beneath_of, files_of, is_restoring, marks_of, range_deeds, selection_of};
ghost use Rattle.scm_front.specs.Recording.{Recalls};
ghost use Rattle.scm_front.specs.Logging.{HasLog};
ghost use Rattle.scm_front.specs.declared.logging.CallLog.{CallLog};
ghost use Rattle.scm_front.specs.declared.actions.Action.{Action};
ghost use Rattle.scm_front.specs.declared.actions.Action.TheVariants.{Click, Go, Mark, Pass, Redo, Undo};
ghost use Rattle.scm_front.specs.declared.kept.Notice.TheVariants.{Redone, Undone};
ghost use Rattle.scm_front.specs.declared.layer.Front.{Front};
ghost use Rattle.scm_front.specs.declared.layer.FrontTurn.{FrontTurn};

use scm_record::live::sessions_are_runs;

/// Proves that the session beneath a front goes through calls of a live session.
///
/// Whatever is typed and handed in, each thing that the layer does is a list of events of the session
/// beneath, which goes from turn to turn by them. So [`sessions_are_runs`] is true of the session
/// beneath: it is a run for each screen, and an accepted state differs from the given one only in
/// marks and messages.
///
/// This is a law: the function does nothing, and is there for its contract.
pub fn fronts_are_runs()
    // inputs are calls of the session beneath
    ensures path { (turn last : FrontTurn) (inputs : List Input) (calls : List Call)
        → FrontPath turn inputs calls last → Path (beneath_of turn) calls (beneath_of last) }
    // so they are runs
    ensures runs { (given : RecordState) (kind : TerminalKind) (turn last : FrontTurn)
        (inputs : List Input) (calls : List Call) → IsTrue (is_accepted_state given)
        → beneath_of turn ≡ Waiting (record { session = start given; kind = kind })
        → FrontPath turn inputs calls last → AreRuns (start given) kind calls (beneath_of last) }
    // and an accepted state is the given one but for marks and messages
    ensures kept { (given state : RecordState) (kind : TerminalKind) (turn last : FrontTurn)
        (inputs : List Input) (calls : List Call) → IsTrue (is_accepted_state given)
        → beneath_of turn ≡ Waiting (record { session = start given; kind = kind })
        → FrontPath turn inputs calls last → beneath_of last ≡ Accepted state
        → IsKept given state }
{
    sessions_are_runs();
}

/// Proves that the logged calls are calls of the session beneath, and lead to where it is.
///
/// The log begins at the start of a state. It has each call, in order: an event, a batch, a message or
/// a new size. A jump has its item there, and is one batch of moves. So the same calls of a live session
/// without a layer are runs that lead there.
///
/// This is a law: the function does nothing, and is there for its contract.
pub fn logged_calls_are_runs()
    ensures path { (log : CallLog) (turn : Turn) (h : HasLog log turn)
        → Path (Waiting (record { session = start h.given; kind = log.kind })) h.calls turn }
    // so they are runs
    ensures runs { (log : CallLog) (turn : Turn) (h : HasLog log turn)
        → AreRuns (start h.given) log.kind h.calls turn }
    // and an accepted state is the one at the start but for marks and messages
    ensures kept { (log : CallLog) (state : RecordState) (h : HasLog log (Accepted state))
        → IsKept h.given state }
{
    sessions_are_runs();
}

/// Proves what a range marks.
///
/// While the session hears the layer's keys, its files after a range are those before it with each line
/// toggled, in order, whose mark is not as it is to be. So all rules of a toggle are true of a range.
///
/// This is a law: the function does nothing, and is there for its contract.
pub fn ranges_are_toggles()
    ensures { (l last : Live) (anchor : SelectionKey) (calls : List Call) → IsFree l
        → QuietRound l (range_deeds l anchor) (selection_of l) calls (Waiting last)
        → files_of last ≡ after_deeds (files_of l) (range_deeds l anchor) }
{}

/// Proves what an undo restores.
///
/// If an event, a click or a range changed marks, and the layer says that it is undone, all marks are those
/// before it. Actions that change no mark may come between. A redo after an undo leads to the
/// marks before the undo, and an undo after a redo to those before the redo.
///
/// This is a law: the function does nothing, and is there for its contract.
pub fn undos_restore_marks()
    ensures event { (f g h : Front) (event : Event) (calls more : List Call)
        → Does f (Pass event) calls (FrontTurn.Waiting g) → (marks_of g ≡ marks_of f → ⊥)
        → Does g Undo more (FrontTurn.Waiting h) → h.kept.word ≡ Undone
        → marks_of h ≡ marks_of f }
    ensures range { (f g h : Front) (calls more : List Call)
        → Does f Mark calls (FrontTurn.Waiting g) → (marks_of g ≡ marks_of f → ⊥)
        → Does g Undo more (FrontTurn.Waiting h) → h.kept.word ≡ Undone
        → marks_of h ≡ marks_of f }
    // a click that changes marks is undone as a whole, also if it was handed in twice
    ensures click { (f g h : Front) (row column : ℕ) (calls more : List Call)
        → Does f (Click row column) calls (FrontTurn.Waiting g) → (marks_of g ≡ marks_of f → ⊥)
        → Does g Undo more (FrontTurn.Waiting h) → h.kept.word ≡ Undone
        → marks_of h ≡ marks_of f }
    // the history recalls the marks before a change, until other marks change
    ensures recalls_event { (f g : Front) (event : Event) (calls : List Call)
        → Does f (Pass event) calls (FrontTurn.Waiting g) → (marks_of g ≡ marks_of f → ⊥)
        → Recalls (marks_of f) (marks_of g) g.kept.history }
    ensures recalls_range { (f g : Front) (calls : List Call)
        → Does f Mark calls (FrontTurn.Waiting g) → (marks_of g ≡ marks_of f → ⊥)
        → Recalls (marks_of f) (marks_of g) g.kept.history }
    ensures recalls_click { (f g : Front) (row column : ℕ) (calls : List Call)
        → Does f (Click row column) calls (FrontTurn.Waiting g) → (marks_of g ≡ marks_of f → ⊥)
        → Recalls (marks_of f) (marks_of g) g.kept.history }
    ensures later { (before : List (List (List Bool))) (f g : Front) (action : Action)
        (calls : List Call) → Recalls before (marks_of f) f.kept.history
        → Does f action calls (FrontTurn.Waiting g) → is_restoring action ≡ false
        → marks_of g ≡ marks_of f → Recalls before (marks_of g) g.kept.history }
    ensures undo { (before : List (List (List Bool))) (f g : Front) (calls : List Call)
        → Recalls before (marks_of f) f.kept.history → Does f Undo calls (FrontTurn.Waiting g)
        → g.kept.word ≡ Undone → marks_of g ≡ before }
    ensures redo { (f g h : Front) (calls more : List Call)
        → Does f Undo calls (FrontTurn.Waiting g) → g.kept.word ≡ Undone
        → Does g Redo more (FrontTurn.Waiting h) → h.kept.word ≡ Redone
        → marks_of h ≡ marks_of f }
    ensures again { (f g h : Front) (calls more : List Call)
        → Does f Redo calls (FrontTurn.Waiting g) → g.kept.word ≡ Redone
        → Does g Undo more (FrontTurn.Waiting h) → h.kept.word ≡ Undone
        → marks_of h ≡ marks_of f }
{}

/// Proves that a move to a place changes no mark.
///
/// This is a law: the function does nothing, and is there for its contract.
pub fn moves_keep_marks()
    ensures { (f g : Front) (place : Place) (calls : List Call)
        → Does f (Go place) calls (FrontTurn.Waiting g)
        → files_of g.beneath ≡ files_of f.beneath }
{}

/// Proves which session an event leads to.
///
/// An event leads to at most one session that waits. If the event leaves nothing pending, that is
/// the session after the event and a frame. If the event scrolls to the selection after the next
/// frame, as each move does, its view state is that of the session after the event.
///
/// This is a law: the function does nothing, and is there for its contract.
pub fn events_have_one_turn()
    ensures one { (l a b : Live) (event : Event) → EventLeads l event (Waiting a)
        → EventLeads l event (Waiting b) → a ≡ b }
    // so the same events lead to the same session
    ensures replay { (l a b : Live) (events : List Event) → PressesLead l events (Waiting a)
        → PressesLead l events (Waiting b) → a ≡ b }
    // an event that leaves nothing pending, as a toggle
    ensures stays { (l next : Live) (event : Event) (t : Session) → l.session.pending ≡ []
        → change (scene_of l.kind l.session) l.session event ≡ stays t → t.pending ≡ []
        → EventLeads l event (Waiting next)
        → next ≡ record { session = after_frame t; kind = l.kind } }
    // an event that scrolls to the selection, as a move
    ensures moves { (l next : Live) (event : Event) (t : Session) → l.session.pending ≡ []
        → change (scene_of l.kind l.session) l.session event ≡ stays t
        → t.pending ≡ EnsureSelectionInViewport ∷ []
        → EventLeads l event (Waiting next) → next.session.shown ≡ t.shown }
    // a move down, if the quit dialog is closed
    ensures next { (l next : Live) → l.session.pending ≡ []
        → l.session.shown.quit_dialog ≡ None → EventLeads l FocusNext (Waiting next)
        → next.session.shown ≡ (after_select l.session (next_key (visible l.session)
        l.session.shown.selection (first_key l.session.shown.state.files))).shown }
    // a toggle, if the help and the quit dialog are closed
    ensures toggle { (l next : Live) → l.session.pending ≡ []
        → l.session.shown.quit_dialog ≡ None → l.session.shown.is_help_open ≡ false
        → EventLeads l ToggleItem (Waiting next)
        → next.session ≡ after_frame (after_toggle l.session) }
{}
