//! A live session: a program hands in events, one by one or in batches, and reads the screen after
//! each call.
ghost use Rattle.std.specs.Prelude.{◌≡◌, ℕ, ◌+◌, ◌++◌, ◌<◌, List, [], ◌∷◌, IfErr, IfOk, IsTrue, OnErr, OnOk, Some, string_bytes};
ghost use Rattle.scm_errors.specs.declared.error.RecordError.TheVariants.{OutOfMemory};
ghost use Rattle.scm_types.specs.Limits.{is_accepted_state};
ghost use Rattle.scm_input.specs.declared.inputs.TerminalKind.{TerminalKind};
ghost use Rattle.scm_input.specs.Script.{Read, Reply};
ghost use Rattle.scm_input.specs.declared.events.Event.TheVariants.{Click, EnsureSelectionInViewport};
ghost use Rattle.scm_record.specs.Session.{IsDrawable, Session, after_frame, message_of, message_text, start, without_pending};
ghost use Rattle.scm_record.specs.Live.{on_screen};
ghost use Rattle.scm_record.specs.Batches.{point_by};
ghost use Rattle.scm_record.specs.declared.session.Flow.TheVariants.{Edit, GoOn};
ghost use Rattle.scm_record.specs.RunContracts.{IsCurrent};
ghost use Rattle.scm_record.specs.Frames.{HasSize, IsSceneOf, columns_of, rows_of, scene_of};
ghost use Rattle.scm_record.specs.Step.{change};
ghost use Rattle.scm_record.specs.Clicks.{after_click};
ghost use Rattle.scm_record.specs.Quiet.{after_ensure};
ghost use Rattle.scm_record.specs.LiveCalls.{AreRuns, BatchFails, BatchLeads, Call, EndsIn, EventFails, EventLeads, Fails, IsFailedRun, IsRun, Leads, MessageFails, MessageLeads, Path, is_on_one_screen, live_setting};
ghost use Rattle.scm_record.specs.declared.live.Turn.{Turn};
ghost use Rattle.scm_record.specs.declared.live.Turn.TheVariants.{Accepted, Waiting};
ghost use Rattle.scm_record.specs.Headline.{IsInline, owner_at, window_of};
ghost use Rattle.scm_record.specs.Keeping.{IsKept};
ghost use Rattle.scm_record.specs.FrameQueries.{hit};
ghost use Rattle.scm_types.specs.declared.state.RecordState.{RecordState};

pub mod batches;
pub mod jumps;
pub mod lines;
mod marked;
mod painted;
pub mod typed;

use self::batches::{BatchEnd, handle_each};
use crate::frame::DrawnFrame;
use crate::runs::{draw_anew, no_such_place};
use crate::session::{ActiveSession, Flow};
use scm_cells::Grid;
use scm_input::{Event, TerminalKind};
use scm_types::{RecordError, RecordState};
use scm_view::ComponentId;
use scm_view_state::ViewState;
use std::alloc::{AllocError, Global};
use std::marker::Model;

/// A session that a program drives, while it waits for an event. The definition `Live` is its
/// value. What is large lies in boxes, since each call of a session moves it.
#[derive(Drop)]
pub struct LiveSession<'state> {
    /// The session, with no pending events.
    session: Box<ActiveSession<'state>>,
    /// The frame last drawn, which shows the session.
    frame: Box<DrawnFrame>,
    /// The screen's size.
    kind: TerminalKind,
}

impl<'state> Model for LiveSession<'state> {
    ghost use Rattle.scm_record.specs.Live.{Live};

    ghost Value = { Live };

    ghost use Rattle.scm_record.specs.LiveView.{IsWaiting};

    ghost view = { λ l. record { session = l.session.value; kind = l.kind } };

    ghost invariant = { λ l. IsWaiting l.kind l.session.value l.frame.value };
}

/// A session that a program drives, while it waits for the message of a commit. The definition
/// `LiveEdit` is its value.
#[derive(Drop)]
pub struct Editing<'state> {
    /// The session after the event that asked for the message.
    session: Box<ActiveSession<'state>>,
    /// The frame last drawn.
    frame: Box<DrawnFrame>,
    /// The screen's size.
    kind: TerminalKind,
    /// The index of the commit whose message is edited.
    commit: usize,
    /// The events of the batch after the one that asked for the message.
    rest: Vec<Event>,
}

impl<'state> Model for Editing<'state> {
    ghost use Rattle.std.specs.Coded.{codes};
    ghost use Rattle.scm_record.specs.Live.{LiveEdit};
    ghost use Rattle.scm_record.specs.contracts.frame.DrawnFrame as drawn;

    ghost Value = { LiveEdit };

    // a map of boxes has a code of its own
    ghost coded = { Prim.hlevel (codes, drawn.the_row.coded) };

    ghost use Rattle.scm_record.specs.LiveView.{IsEditing};

    ghost view = { λ l. record {
      session = l.session.value;
      kind = l.kind;
      commit = l.commit;
      frame = l.frame.value;
      rest = l.rest.items;
    } };

    ghost invariant = { λ l. IsEditing l.kind l.session.value l.frame.value l.commit };
}

/// What a call of a live session leads to.
#[derive(Drop)]
pub enum Turn<'state> {
    /// The session waits for the next event.
    Waiting(LiveSession<'state>),
    /// The session waits for the message of a commit.
    Editing(Editing<'state>),
    /// The session has ended, with the changes of this state accepted.
    Accepted(RecordState<'state>),
}

/// Draws the session on `frame`, and takes the pending events.
fn advance(
    session: &mut ActiveSession<'_>,
    frame: &mut DrawnFrame,
) -> Result<Vec<Event>, RecordError>
    requires drawable { IsDrawable session.now }
    ensures shown { OnOk result ((kind : TerminalKind) → HasSize kind frame.old
        → IsSceneOf (scene_of kind (after_frame session.old)) frame.new) }
    ensures taken { IfOk result (λ pending. pending.items ≡ session.old.pending) }
    ensures rest { OnOk result (session.new ≡ without_pending (after_frame session.old)) }
    ensures err { IfErr result (λ e. e ≡ OutOfMemory) }
{
    draw_anew(session, frame, false)?;
    session.begin_frame();
    Ok(session.take_pending())
}

/// Draws the session on `frame`, unless `is_current`, and returns it as one that waits for an event.
fn wait<'state>(
    session: Box<ActiveSession<'state>>,
    frame: Box<DrawnFrame>,
    kind: TerminalKind,
    is_current: bool,
) -> Result<LiveSession<'state>, RecordError>
    requires drawable { IsDrawable session.value }
    requires calm { session.value.pending ≡ [] }
    requires sized { HasSize kind frame.value }
    requires current { IsTrue is_current → IsCurrent session.value frame.value }
    ensures ok { IfOk result (λ l. l
        ≡ record { session = after_frame session.entry.value; kind = kind }) }
    ensures err { IfErr result (λ e. e ≡ OutOfMemory) }
{
    let mut session = session;
    let mut frame = frame;
    draw_anew(&mut session, &mut frame, is_current)?;
    session.begin_frame();
    Ok(LiveSession {
        session,
        frame,
        kind,
    })
}

/// Handles the pending `EnsureSelectionInViewport` after a frame, and draws the session. A frame that
/// nobody sees is not painted.
fn show_selection<'state>(
    session: Box<ActiveSession<'state>>,
    frame: Box<DrawnFrame>,
    kind: TerminalKind,
) -> Result<LiveSession<'state>, RecordError>
    requires drawable { IsDrawable session.value }
    requires pending { session.value.pending ≡ EnsureSelectionInViewport ∷ [] }
    requires sized { HasSize kind frame.value }
    ensures ok { IfOk result (λ l. l ≡ record {
      session = after_frame (after_ensure kind (after_frame session.entry.value));
      kind = kind;
    }) }
    ensures err { IfErr result (λ e. e ≡ OutOfMemory) }
{
    let mut session = session;
    let mut frame = frame;
    if session.is_quiet(&frame) {
        session.pass_unseen(&frame);
        return wait(session, frame, kind, false);
    }
    advance(&mut session, &mut frame)?;
    let is_kept = session.is_kept_by(&frame, Event::EnsureSelectionInViewport);
    session.show_selection(&frame);
    wait(session, frame, kind, is_kept)
}

/// Returns the turn to which a batch leads that ended as `end` says. If the session goes on, handles
/// what is pending after a frame of its own, until nothing is. A frame that nobody sees is not painted.
/// If a message is asked for, keeps a copy of the rest of the batch.
fn turn_after<'state>(
    session: Box<ActiveSession<'state>>,
    frame: Box<DrawnFrame>,
    kind: TerminalKind,
    end: BatchEnd<'_>,
) -> Result<Turn<'state>, RecordError>
    requires drawable { IsDrawable session.value }
    requires all { end.flow ≡ GoOn → end.rest.now ≡ [] }
    requires said { (commit : ℕ) → end.flow ≡ Edit commit
        → message_of session.value commit ≡ Some (message_text session.value commit) }
    requires shown { (drawn : Session) × IsSceneOf (scene_of kind drawn) frame.value }
    requires current { IsTrue end.is_kept → IsCurrent session.value frame.value }
    ensures ok { IfOk result (λ turn.
        (drawn : Session) (reads : List Read) (edits : List Reply) (frames : ℕ)
        → IsSceneOf (scene_of kind drawn) frame.value
        → Leads (point_by (live_setting kind reads edits) drawn session.entry.value frames
        end.entry.flow end.entry.rest.now) kind reads edits turn) }
    ensures err { IfErr result (λ e.
        (drawn : Session) (reads : List Read) (edits : List Reply) (frames : ℕ)
        → IsSceneOf (scene_of kind drawn) frame.value
        → Fails (point_by (live_setting kind reads edits) drawn session.entry.value frames
        end.entry.flow end.entry.rest.now) e) }
{
    let mut session = session;
    let mut frame = frame;
    match end.flow {
        Flow::GoOn => {
            if session.has_ensure_alone() {
                return Ok(Turn::Waiting(show_selection(session, frame, kind)?));
            }
            if !session.has_pending() {
                return Ok(Turn::Waiting(wait(session, frame, kind, end.is_kept)?));
            }
            let pending = advance(&mut session, &mut frame)?;
            let next = handle_each(&mut session, &frame, &pending)?;
            turn_after(session, frame, kind, next)
        }
        Flow::Accept => Ok(Turn::Accepted(Box::into_inner(session).into_state())),
        Flow::Cancel => Err(RecordError::Cancelled),
        Flow::Edit(commit) => {
            let rest = Vec::from_slice(session.allocator(), end.rest)?;
            Ok(Turn::Editing(Editing {
                session,
                frame,
                kind,
                commit,
                rest,
            }))
        }
        Flow::Shoot(_) => Err(no_such_place(session.allocator())),
    }
}

/// Returns a copy of `text`.
fn copy_of(alloc: Global, text: &str) -> Result<String, AllocError>
    ensures { IfOk result (λ copy. string_bytes copy ≡ text.now) }
{
    let copy = String::from_str(alloc, text)?;
    Ok(copy)
}

impl<'state> LiveSession<'state> {
    /// Creates a session over `state`, drawn on a screen of size `kind`.
    ///
    /// The state has to be within the limits of [`RecordState::is_accepted`]. Commits without a
    /// message are added up to two.
    ///
    /// # Errors
    ///
    /// - `OutOfMemory`: an allocation failed; the state is dropped.
    pub fn new(
        alloc: Global,
        kind: TerminalKind,
        state: RecordState<'state>,
    ) -> Result<LiveSession<'state>, RecordError>
        requires { IsTrue (is_accepted_state state) }
        ensures ok { IfOk result (λ l. l ≡ record { session = start state.entry; kind = kind }) }
        ensures err { IfErr result (λ e. e ≡ OutOfMemory) }
    {
        let session = Box::new(alloc, ActiveSession::new(alloc, state)?)?;
        let frame = Box::new(alloc, DrawnFrame::new(alloc, kind)?)?;
        wait(session, frame, kind, false)
    }

    /// Handles `event`, and the events that it leaves pending, and returns what they lead to.
    ///
    /// # Errors
    ///
    /// An error ends the session.
    ///
    /// - `Cancelled`: the user cancelled.
    /// - `Other("no such screenshot place")`: the event is a screenshot.
    /// - `OutOfMemory`: an allocation failed.
    pub fn handle(self, event: Event) -> Result<Turn<'state>, RecordError>
        ensures ok { IfOk result (λ turn. EventLeads self.entry event turn) }
        ensures err { IfErr result (λ e. EventFails self.entry event e) }
    {
        self.handle_all(&[event])
    }

    /// Handles `events` as one batch, and the events that they leave pending, and returns what they
    /// lead to.
    ///
    /// A batch is one read of [`Recorder::run`](crate::Recorder::run). It has one frame: a click acts on
    /// what was drawn before the batch, and the session is drawn when all its events are handled. If an
    /// event asks for a message, [`Editing::answer`] handles the later ones. If an event ends the
    /// session, the later ones are dropped.
    ///
    /// # Errors
    ///
    /// An error ends the session: the errors are those of [`LiveSession::handle`].
    pub fn handle_all(self, events: &[Event]) -> Result<Turn<'state>, RecordError>
        ensures ok { IfOk result (λ turn. BatchLeads self.entry events.now turn) }
        ensures err { IfErr result (λ e. BatchFails self.entry events.now e) }
    {
        let mut handled = 0;
        self.handle_and_count(events, &mut handled)
    }

    /// Draws the session on a screen of size `kind`.
    ///
    /// The scroll stays, even if the document ends above it on the new screen. To return to the
    /// document, scroll; to show the selection, handle `EnsureSelectionInViewport`.
    ///
    /// # Errors
    ///
    /// - `OutOfMemory`: an allocation failed; the session is unchanged.
    pub fn resize(&mut self, kind: TerminalKind) -> Result<(), RecordError>
        ensures ok { OnOk result (self.new ≡ on_screen self.old kind) }
        ensures unchanged { OnErr result (self.new ≡ self.old) }
        ensures err { IfErr result (λ e. e ≡ OutOfMemory) }
    {
        let mut frame = DrawnFrame::new(self.session.allocator(), kind)?;
        draw_anew(&mut self.session, &mut frame, false)?;
        self.session.begin_frame();
        *self.frame = frame;
        self.kind = kind;
        Ok(())
    }

    /// Returns the screen's size.
    pub fn kind(&self) -> TerminalKind
        ensures { result ≡ self.now.kind }
    {
        self.kind
    }

    /// Returns the state, with its current marks and messages.
    pub fn state(&self) -> &RecordState<'state>
        ensures { result.now ≡ self.now.session.shown.state }
    {
        self.session.state()
    }

    /// Returns the view state, from which views are made.
    pub fn view_state(&self) -> &ViewState<'state>
        ensures value { result.now ≡ self.now.session.shown }
        ensures accepted { IsTrue (is_accepted_state result.now.state) }
    {
        self.session.view_state()
    }

    /// Returns the screen of the session as a grid of symbols.
    pub fn grid(&self) -> &Grid
        ensures width { result.now.width ≡ columns_of self.now.kind }
        ensures rows { result.now.rows ≡ (scene_of self.now.kind self.now.session).frame.rows }
        // inline, the rows are the window of the document
        ensures window { IsInline self.now.kind self.now.session
            → result.now.rows ≡ window_of self.now.kind self.now.session }
    {
        self.frame.grid()
    }

    /// Returns the row of the document that the first row of the screen shows, counted from 0.
    pub fn scroll(&self) -> usize
        ensures { result ≡ self.now.session.scroll }
    {
        self.session.scroll()
    }

    /// Returns the component that a click at `row` and `column` of the screen acts on, if any. Both
    /// are counted from 0.
    pub fn owner(&self, row: usize, column: usize) -> Option<ComponentId>
        ensures hit { result ≡ hit (scene_of self.now.kind self.now.session)
            self.now.session.scroll row column }
        // a click there is a click on that component
        ensures acts { change (scene_of self.now.kind self.now.session)
            self.now.session (Click row column)
            ≡ after_click self.now.session.shown.open_menu self.now.session result }
        // inline, it is the owner of that place in the document
        ensures owner { IsInline self.now.kind self.now.session
            → row < rows_of self.now.kind → column < columns_of self.now.kind
            → result ≡ owner_at self.now.kind self.now.session
            (self.now.session.scroll + row) column }
    {
        self.frame.hit(self.session.scroll(), row, column)
    }
}

impl<'state> Editing<'state> {
    /// Returns the index of the commit whose message is edited, counted from 0.
    pub fn commit(&self) -> usize
        ensures { result ≡ self.now.commit }
    {
        self.commit
    }

    /// Returns the message that is edited, as it is before the edit.
    pub fn message(&self) -> &str
        ensures text { result.now ≡ message_text self.now.session self.now.commit }
        ensures said { message_of self.now.session self.now.commit ≡ Some result.now }
    {
        self.session.message(self.commit)
    }

    /// Keeps the message as it is, and returns what that leads to.
    ///
    /// Call this if the user closes the editor without a change. It is an answer of the same text,
    /// and allocates a copy of it. To end the session instead, drop it.
    ///
    /// # Errors
    ///
    /// An error ends the session: the errors are those of [`Editing::answer`].
    pub fn keep(self) -> Result<Turn<'state>, RecordError>
        ensures ok { IfOk result (λ turn. MessageLeads self.entry
            (message_text self.entry.session self.entry.commit) turn) }
        ensures err { IfErr result (λ e. MessageFails self.entry
            (message_text self.entry.session self.entry.commit) e) }
    {
        let text = copy_of(self.session.allocator(), self.message())?;
        self.answer(text)
    }

    /// Sets the message of the commit to `text`, handles the rest of the batch that asked for it, and
    /// returns what that leads to.
    ///
    /// The session is not drawn in between: a click of the rest acts on what was drawn before the batch.
    /// An event of the rest may ask for a message again.
    ///
    /// # Errors
    ///
    /// An error ends the session.
    ///
    /// - `Other("commit message too long")`: `text` has more than 1,000,000 bytes.
    /// - `OutOfMemory`: an allocation failed.
    /// - any other: that of an event of the rest or one that was still pending, as
    ///   [`LiveSession::handle`] says.
    pub fn answer(self, text: String) -> Result<Turn<'state>, RecordError>
        ensures ok { IfOk result (λ turn. MessageLeads self.entry (string_bytes text) turn) }
        ensures err { IfErr result (λ e. MessageFails self.entry (string_bytes text) e) }
    {
        let mut handled = 0;
        self.answer_and_count(text, &mut handled)
    }
}

/// Proves that driving a session is the same as [`Recorder::run`](crate::Recorder::run) on the same
/// events.
///
/// Each `resize` starts a new run from the current session. In each run, an event or a batch that the
/// program hands in is a read of its own, and a message is an edit. The steps of the run lead to the
/// turn that the program got, and batches, clicks and confirmed quits are as in any run. An accepted
/// state is that of a confirmed quit. It differs from the given state only in marks and messages.
///
/// This is a law: the function does nothing, and is there for its contract.
pub fn sessions_are_runs()
    // on one screen: one run
    ensures one { (given : RecordState) (kind : TerminalKind) (calls : List Call) (turn : Turn)
        → IsTrue (is_accepted_state given)
        → Path (Waiting (record { session = start given; kind = kind })) calls turn
        → IsTrue (is_on_one_screen calls) → IsRun (start given) kind calls turn }
    // on one screen, up to the event, batch or message that ends the session in an error
    ensures failed { (given : RecordState) (kind : TerminalKind) (calls : List Call) (turn : Turn)
        (call : Call) (error : RecordError) → IsTrue (is_accepted_state given)
        → Path (Waiting (record { session = start given; kind = kind })) calls turn
        → IsTrue (is_on_one_screen calls) → EndsIn error turn call
        → IsFailedRun (start given) kind (calls ++ call ∷ []) error }
    // on any screens: a run for each
    ensures all { (given : RecordState) (kind : TerminalKind) (calls : List Call) (turn : Turn)
        → IsTrue (is_accepted_state given)
        → Path (Waiting (record { session = start given; kind = kind })) calls turn
        → AreRuns (start given) kind calls turn }
    // an accepted state differs from the given one only in marks and messages
    ensures kept { (given : RecordState) (kind : TerminalKind) (calls : List Call)
        (state : RecordState) → IsTrue (is_accepted_state given)
        → Path (Waiting (record { session = start given; kind = kind })) calls (Accepted state)
        → IsKept given state }
{}
