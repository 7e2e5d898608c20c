//! Runs: a session takes its events from an input, turn by turn, until it ends.
ghost use Rattle.std.specs.Prelude.{◌≡◌, ℕ, ◌+◌, false, IfErr, IfOk, IsTrue, OnErr, OnOk, string_bytes};
ghost use Rattle.scm_errors.specs.declared.error.RecordError.TheVariants.{OutOfMemory};
ghost use Rattle.scm_types.specs.Limits.{is_short_text};
ghost use Rattle.scm_input.specs.declared.events.Event.{Event};
ghost use Rattle.scm_input.specs.declared.inputs.TerminalKind.{TerminalKind};
ghost use Rattle.scm_input.specs.Script.{Replies, edit_of};
ghost use Rattle.scm_input.specs.Store.{Store, count_up, with_frame};
ghost use Rattle.scm_record.specs.Session.{IsDrawable, Session, after_frame, message_text};
ghost use Rattle.scm_record.specs.Frames.{HasSize, IsSceneOf, Scene, scene_of};
ghost use Rattle.scm_record.specs.FrameQueries.{shot_of};
ghost use Rattle.scm_record.specs.Run.{Before, Within, Goes, Setting, World, batch, after_edit, after_screenshot, no_such_place, setting, too_long, world_in, Reaches, Stops};
ghost use Rattle.scm_record.specs.RunContracts.{BatchStops, Ceases, Follows, Handles, IsCurrent, IsFault, RefusesEvent, Refuses, TurnStops, point_of};
ghost use Rattle.scm_record.specs.declared.runs.Next.TheVariants.{GoOn};
ghost use Rattle.scm_record.specs.Quiet.{IsQuiet, after_ensure};
ghost use Rattle.scm_record.specs.Ending.{EndsWith, FailsWith};

use crate::frame::DrawnFrame;
use crate::session::{ActiveSession, Flow};
use scm_input::{Event, RecordInput, Screens};
use scm_types::{RecordError, RecordState};
use std::alloc::Global;

/// What the run does after a batch of events.
#[derive(Clone, Copy)]
pub(crate) enum Next {
    /// Goes on.
    GoOn,
    /// Ends, with the changes accepted.
    Accept,
}

/// What a turn of a run leaves for the next one. The public `Turn` is another thing: what a call of
/// a live session leads to.
#[derive(Clone, Copy)]
struct TurnEnd {
    /// What the run does after the events of the turn.
    next: Next,
    /// Whether the frame already shows the session, so that the next turn need not draw it.
    is_current: bool,
}

/// Returns the fault of a screenshot at a place that the store lacks.
pub(crate) fn no_such_place(alloc: Global) -> RecordError
    ensures { IsFault no_such_place result }
{
    match String::from_str(alloc, "no such screenshot place") {
        Ok(words) => RecordError::Other(words),
        Err(_) => RecordError::OutOfMemory,
    }
}

/// Returns the fault of a message that is too long.
pub(crate) fn too_long(alloc: Global) -> RecordError
    ensures { IsFault too_long result }
{
    match String::from_str(alloc, "commit message too long") {
        Ok(words) => RecordError::Other(words),
        Err(_) => RecordError::OutOfMemory,
    }
}

/// Returns whether `text` is within the limit of a message.
pub(crate) fn is_short(text: &String) -> bool
    ensures { result ≡ is_short_text (string_bytes text.now) }
{
    text.len() <= RecordState::MAX_TEXT
}

/// Has the input edit the message of the commit at index `commit`, and returns its answer.
fn ask(
    session: &ActiveSession<'_>,
    input: &mut dyn RecordInput,
    commit: usize,
) -> Result<String, RecordError>
    ensures edit { Replies (message_text session.now commit) (edit_of result)
        (edits input.old) (edits input.new) }
    ensures reads { reads input.new ≡ reads input.old }
    ensures kind { kind input.new ≡ kind input.old }
{
    input.edit_commit_message(session.message(commit))
}

/// Has the input edit the message of the commit at index `commit`, and sets the answer as its
/// message.
fn edit(
    session: &mut ActiveSession<'_>,
    input: &mut dyn RecordInput,
    commit: usize,
) -> Result<(), RecordError>
    ensures ok { OnOk result ((store : Store) (frames : ℕ) →
        after_edit
        (world_in (setting (kind input.old) (reads input.old) (edits input.old) store)
        session.old frames) commit (edits input.old)
        ≡ Goes
        (world_in (setting (kind input.new) (reads input.new) (edits input.new) store)
        session.new frames)) }
    ensures err { IfErr result (λ e. (store : Store) (frames : ℕ) →
        Refuses e
        (world_in (setting (kind input.old) (reads input.old) (edits input.old) store)
        session.old frames)
        (after_edit
        (world_in (setting (kind input.old) (reads input.old) (edits input.old) store)
        session.old frames) commit (edits input.old))
        (world_in (setting (kind input.new) (reads input.new) (edits input.new) store)
        session.new frames)) }
    ensures kind { kind input.new ≡ kind input.old }
{
    let text = ask(session, input, commit)?;
    if is_short(&text) {
        session.set_message(commit, text);
        Ok(())
    } else {
        Err(too_long(session.allocator()))
    }
}

/// Keeps a screenshot at `place` of `screens`.
fn shoot(
    session: &ActiveSession<'_>,
    frame: &DrawnFrame,
    screens: &mut Screens,
    place: usize,
) -> Result<(), RecordError>
    ensures ok { OnOk result ((scene : Scene) (w : World) → IsSceneOf scene frame.now
        → w.texts ≡ screens.old.texts
        → after_screenshot w place (shot_of scene session.now.cleared)
        ≡ Goes (record w { texts = screens.new.texts })) }
    ensures err { IfErr result (λ e. (scene : Scene) (w : World) → w.texts ≡ screens.old.texts →
        Refuses e w (after_screenshot w place (shot_of scene session.now.cleared)) w) }
    ensures unchanged { OnErr result (screens.new ≡ screens.old) }
    ensures counted { screens.new.frames ≡ screens.old.frames }
{
    if screens.has_place(place) {
        let text = frame.text(session.allocator(), session.is_cleared())?;
        screens.keep(place, text);
        Ok(())
    } else {
        Err(no_such_place(session.allocator()))
    }
}

/// Handles `event`, with `frame` as the frame last drawn: edits and screenshots included.
fn handle(
    session: &mut ActiveSession<'_>,
    frame: &DrawnFrame,
    input: &mut dyn RecordInput,
    screens: &mut Screens,
    event: Event,
) -> Result<Next, RecordError>
    ensures ok { IfOk result (λ next. Follows (λ scene. IsSceneOf scene frame.now) event next
        session.old (setting (kind input.old) (reads input.old) (edits input.old) screens.old)
        session.new (setting (kind input.new) (reads input.new) (edits input.new) screens.new)) }
    ensures err { IfErr result (λ e. RefusesEvent (λ scene. IsSceneOf scene frame.now) event e
        session.old (setting (kind input.old) (reads input.old) (edits input.old) screens.old)
        session.new (setting (kind input.new) (reads input.new) (edits input.new) screens.new)) }
    ensures counted { screens.new.frames ≡ screens.old.frames }
    ensures kind { kind input.new ≡ kind input.old }
{
    match session.change(frame, event)? {
        Flow::GoOn => Ok(Next::GoOn),
        Flow::Accept => Ok(Next::Accept),
        Flow::Cancel => Err(RecordError::Cancelled),
        Flow::Edit(commit) => {
            edit(session, input, commit)?;
            Ok(Next::GoOn)
        }
        Flow::Shoot(place) => {
            shoot(session, frame, screens, place)?;
            Ok(Next::GoOn)
        }
    }
}

/// Handles `events` in order, up to one that ends the run.
fn handle_all(
    session: &mut ActiveSession<'_>,
    frame: &DrawnFrame,
    input: &mut dyn RecordInput,
    screens: &mut Screens,
    events: &[Event],
) -> Result<Next, RecordError>
    ensures ok { IfOk result (λ next. Handles (λ scene. IsSceneOf scene frame.now) events.now next
        session.old (setting (kind input.old) (reads input.old) (edits input.old) screens.old)
        session.new (setting (kind input.new) (reads input.new) (edits input.new) screens.new)) }
    ensures err { IfErr result (λ e. Ceases (λ scene. IsSceneOf scene frame.now) events.now e
        session.old (setting (kind input.old) (reads input.old) (edits input.old) screens.old)
        session.new (setting (kind input.new) (reads input.new) (edits input.new) screens.new)) }
    ensures counted { screens.new.frames ≡ screens.old.frames }
    ensures kind { kind input.new ≡ kind input.old }
{
    for event in events {
        match handle(session, frame, input, screens, *event)? {
            Next::GoOn => {}
            Next::Accept => return Ok(Next::Accept),
        }
    }
    Ok(Next::GoOn)
}

/// Returns true only if each of `events` leaves the session unchanged.
fn are_idle(session: &ActiveSession<'_>, frame: &DrawnFrame, events: &[Event]) -> bool
    ensures { IsTrue result → (a : Setting)
        → Handles (λ scene. IsSceneOf scene frame.now) events.now GoOn session.now a session.now a }
{
    for event in events {
        if !session.is_kept_by(frame, *event) {
            return false;
        }
    }
    true
}

/// Takes all pending events; if there are none, takes the next batch of the input.
fn next_batch(
    session: &mut ActiveSession<'_>,
    input: &mut dyn RecordInput,
) -> Result<Vec<Event>, RecordError>
    ensures ok { IfOk result (λ events. (store : Store) (frames : ℕ) →
        batch
        (world_in (setting (kind input.old) (reads input.old) (edits input.old) store)
        session.old frames) session.old.pending
        ≡ Within session.old
        (world_in (setting (kind input.old) (reads input.new) (edits input.new) store)
        session.new frames) events.items) }
    ensures err { IfErr result (λ e. (store : Store) (frames : ℕ) →
        BatchStops e
        (batch
        (world_in (setting (kind input.old) (reads input.old) (edits input.old) store)
        session.old frames) session.old.pending)
        (world_in (setting (kind input.old) (reads input.old) (edits input.old) store)
        session.old frames)
        (world_in (setting (kind input.old) (reads input.new) (edits input.new) store)
        session.new frames)) }
    ensures kind { kind input.new ≡ kind input.old }
    ensures kept { session.new.shown ≡ session.old.shown }
    ensures scroll { session.new.scroll ≡ session.old.scroll }
{
    if session.has_pending() {
        return Ok(session.take_pending());
    }
    if input.batches_left() == 0 {
        let words = String::from_str(session.allocator(), "no events left")?;
        return Err(RecordError::ReadInput(words));
    }
    input.next_events()
}

/// Draws the session on `frame`, unless `is_current` says that `frame` shows it already. If an
/// allocation fails, the frame keeps its size.
pub(crate) fn draw_anew(
    session: &mut ActiveSession<'_>,
    frame: &mut DrawnFrame,
    is_current: bool,
) -> Result<(), RecordError>
    requires drawable { IsDrawable session.old }
    requires current { IsTrue is_current → IsCurrent session.old frame.old }
    ensures shown { OnOk result ((kind : TerminalKind) (s : Session)
        → s.shown ≡ session.old.shown → s.scroll ≡ session.old.scroll
        → HasSize kind frame.old → IsSceneOf (scene_of kind s) frame.new) }
    ensures unchanged { session.new ≡ session.old }
    ensures err { IfErr result (λ e. e ≡ OutOfMemory) }
    ensures size { (kind : TerminalKind) → HasSize kind frame.old → HasSize kind frame.new }
{
    if is_current {
        return Ok(());
    }
    let alloc = session.allocator();
    frame.release_rows(alloc);
    let rows = session.share_rows()?;
    let layout = session.layout();
    frame.draw(alloc, session.view_state(), layout, rows, session.scroll())?;
    Ok(())
}

/// Draws the session on `frame`, unless `is_current`, and counts the frame.
fn draw(
    session: &mut ActiveSession<'_>,
    frame: &mut DrawnFrame,
    screens: &mut Screens,
    is_current: bool,
) -> Result<(), RecordError>
    requires drawable { IsDrawable session.now }
    requires current { IsTrue is_current → IsCurrent session.now frame.now }
    ensures shown { OnOk result ((kind : TerminalKind) → HasSize kind frame.old
        → IsSceneOf (scene_of kind session.new) frame.new) }
    ensures drawn { OnOk result (session.new ≡ after_frame session.old) }
    ensures counted { OnOk result (screens.new ≡ with_frame screens.old) }
    ensures err { IfErr result (λ e. e ≡ OutOfMemory) }
    ensures unchanged { OnErr result (screens.new ≡ screens.old) }
    ensures size { (kind : TerminalKind) → HasSize kind frame.old → HasSize kind frame.new }
{
    draw_anew(session, frame, is_current)?;
    session.begin_frame();
    screens.add_frame();
    Ok(())
}

/// Runs a quiet turn: counts its frame in `store`, paints nothing, and handles the pending
/// `EnsureSelectionInViewport`.
fn turn_unseen(session: &mut ActiveSession<'_>, frame: &DrawnFrame, store: &mut Screens)
    requires quiet { IsQuiet session.old frame.now }
    ensures shown { (kind : TerminalKind) → HasSize kind frame.now
        → session.new ≡ after_ensure kind (after_frame session.old) }
    ensures counted { store.new ≡ with_frame store.old }
{
    session.pass_unseen(frame);
    store.add_frame();
}

/// Runs one turn: draws a frame, and handles a batch of events. A quiet turn paints nothing.
fn turn(
    session: &mut ActiveSession<'_>,
    frame: &mut DrawnFrame,
    input: &mut dyn RecordInput,
    screens: &mut Screens,
    is_current: bool,
) -> Result<TurnEnd, RecordError>
    requires drawable { IsDrawable session.now }
    requires sized { HasSize (kind input.now) frame.now }
    requires current { IsTrue is_current → IsCurrent session.now frame.now }
    ensures ok { IfOk result (λ turn_end. (frames : ℕ) →
        Reaches (Before
        (world_in (setting (kind input.old) (reads input.old) (edits input.old) screens.old)
        session.old frames))
        (point_of turn_end.next
        (world_in (setting (kind input.new) (reads input.new) (edits input.new) screens.new)
        session.new (frames + 1)))) }
    ensures current { IfOk result (λ turn_end.
        IsTrue turn_end.is_current → IsCurrent session.new frame.new) }
    ensures counted { OnOk result (screens.new.frames ≡ count_up screens.old.frames) }
    ensures err { IfErr result (λ e. TurnStops e
        session.old (setting (kind input.old) (reads input.old) (edits input.old) screens.old)
        session.new (setting (kind input.new) (reads input.new) (edits input.new) screens.new)) }
    ensures size { (kind : TerminalKind) → HasSize kind frame.old → HasSize kind frame.new }
    ensures kind { kind input.new ≡ kind input.old }
{
    if session.is_quiet(frame) {
        turn_unseen(session, frame, screens);
        return Ok(TurnEnd {
            next: Next::GoOn,
            is_current: false,
        });
    }
    draw(session, frame, screens, is_current)?;
    let batch = next_batch(session, input)?;
    if are_idle(session, frame, &batch) {
        return Ok(TurnEnd {
            next: Next::GoOn,
            is_current: true,
        });
    }
    let next = handle_all(session, frame, input, screens, &batch)?;
    Ok(TurnEnd {
        next,
        is_current: false,
    })
}

/// Runs turns until the user accepts or the run fails.
pub(crate) fn run_to_end(
    session: &mut ActiveSession<'_>,
    frame: &mut DrawnFrame,
    input: &mut dyn RecordInput,
    screens: &mut Screens,
) -> Result<(), RecordError>
    requires drawable { IsDrawable session.now }
    requires sized { HasSize (kind input.now) frame.now }
    ensures ok { OnOk result (
        EndsWith session.old
        (setting (kind input.old) (reads input.old) (edits input.old) screens.old)
        (setting (kind input.new) (reads input.new) (edits input.new) screens.new)
        session.new.shown.state) }
    ensures err { IfErr result (λ e.
        FailsWith session.old
        (setting (kind input.old) (reads input.old) (edits input.old) screens.old)
        (setting (kind input.new) (reads input.new) (edits input.new) screens.new) e) }
    ensures kind { kind input.new ≡ kind input.old }
{
    let mut is_current = false;
    loop {
        let turn_end = turn(session, frame, input, screens, is_current)?;
        match turn_end.next {
            Next::GoOn => is_current = turn_end.is_current,
            Next::Accept => return Ok(()),
        }
    }
}
