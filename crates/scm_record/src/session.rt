//! A session in which a user selects changes, and how each event changes it.
ghost use Rattle.std.specs.Prelude.{◌≡◌, ◌≤◌, false, true, IfErr, IfOk, OnOk};
ghost use Rattle.scm_errors.specs.declared.error.RecordError.TheVariants.{OutOfMemory};
ghost use Rattle.scm_types.specs.Limits.{max_items, state_size};
ghost use Rattle.scm_layout.specs.Layouts.{layout_of};
ghost use Rattle.scm_layout_index.specs.FrameRows.{FitRows, noted};
ghost use Rattle.scm_types.specs.Keys.{has_key};
ghost use Rattle.scm_selection.specs.KeySet.{with_key};
ghost use Rattle.scm_record.specs.Session.{padded_commits, with_keys_above};

mod clicks;
mod dialogs;
mod folding;
mod marks;
mod messages;
mod moves;
mod scrolling;
mod view_mode;

use crate::frame::DrawnFrame;
use crate::pages::Way;
use scm_input::Event;
use scm_layout::Layout;
use scm_layout_index::{FrameRows, SharedRows};
use scm_selection::key_lists::first_key;
use scm_selection::key_set::KeySet;
use scm_types::{Commit, Items, RecordError, RecordState};
use scm_view::SelectionKey;
use scm_view_state::ViewState;
use std::alloc::{AllocError, Global};
use std::marker::Model;
use std::mem;

/// What the run does after an event.
#[derive(Clone, Copy)]
pub enum Flow {
    /// Goes on.
    GoOn,
    /// Ends, with the changes accepted.
    Accept,
    /// Ends, cancelled by the user.
    Cancel,
    /// Has the message of this commit edited, and then goes on.
    Edit(usize),
    /// Keeps the screen at this place of the store, and then goes on.
    Shoot(usize),
}

/// A session in which a user selects changes, as the code keeps it: the part that `Recorder` and
/// `LiveSession` share. The definition `Session` is its value.
#[derive(Drop)]
pub(crate) struct ActiveSession<'state> {
    /// The view state: the state, the selection, the expanded keys and what is open.
    view_state: ViewState<'state>,
    /// The layout of the state, with the expanded keys unfolded.
    layout: Layout,
    /// A copy of the layout's rows that frames share, and what folds changed since it was made.
    frame_rows: FrameRows,
    /// The row of the document that the screen's first row shows, counted from 0.
    scroll: usize,
    /// Whether the screen was cleared since the last frame.
    cleared: bool,
    /// The events to handle after the next frame, in order.
    pending: Vec<Event>,
}

impl<'state> Model for ActiveSession<'state> {
    ghost use Rattle.scm_record.specs.Session.{Session};

    ghost Value = { Session };

    ghost use Rattle.scm_record.specs.SessionView.{HasLayout, session_of};

    ghost view = { session_of };

    ghost invariant = { HasLayout };
}

impl<'state> ActiveSession<'state> {
    ghost use Rattle.std.specs.Prelude.{◌≡◌, ◌↔◌, ◌<◌, ◌≤◌, IfErr, IfOk, IsTrue, OnOk, length};
    ghost use Rattle.scm_errors.specs.declared.error.RecordError.TheVariants.{OutOfMemory};
    ghost use Rattle.scm_types.specs.Limits.{is_accepted_state};
    ghost use Rattle.scm_layout.specs.Layouts.{layout_of};
    ghost use Rattle.scm_layout_index.specs.LayoutIndex.{AreRowsOf};
    ghost use Rattle.scm_record.specs.Frames.{IsSceneOf, Scene};
    ghost use Rattle.scm_record.specs.Session.{after_frame, after_redraw, after_select, at_key, start, with_ensure, with_keys_above, with_pushed, without_pending};
    ghost use Rattle.scm_record.specs.SessionView.{with_expanded};
    ghost use Rattle.scm_record.specs.Step.{change};

    /// Creates a session over `state`, with commits without a message added up to two.
    ///
    /// The first file is selected, and each section that is more than context is expanded. The
    /// state has to be within the limits of [`RecordState::is_accepted`].
    ///
    /// # Errors
    ///
    /// - `OutOfMemory`: an allocation failed; the state is dropped.
    pub fn new(
        alloc: Global,
        state: RecordState<'state>,
    ) -> Result<ActiveSession<'state>, RecordError>
        requires { IsTrue (is_accepted_state state) }
        ensures ok { IfOk result (λ session. session ≡ start state.entry) }
        ensures err { IfErr result (λ e. e ≡ OutOfMemory) }
    {
        let RecordState {
            is_read_only,
            commits,
            files,
        } = state;
        let commits = pad(commits.into_inner())?;
        let expanded = KeySet::of_sections(alloc, files.as_slice())?;
        let selection = first_key(files.as_slice());
        let state = RecordState {
            is_read_only,
            commits: Items::from(commits),
            files,
        };
        let layout = Layout::new(alloc, &state, &expanded)?;
        Ok(ActiveSession {
            view_state: ViewState::new(state, selection, expanded),
            layout,
            frame_rows: FrameRows::new(),
            scroll: 0,
            cleared: false,
            pending: Vec::new(alloc),
        })
    }

    /// Returns the view state.
    pub(crate) fn view_state(&self) -> &ViewState<'state>
        ensures { result.now ≡ self.now.shown }
    {
        &self.view_state
    }

    /// Returns the layout of the state, with the expanded keys unfolded.
    pub(crate) fn layout(&self) -> &Layout
        ensures { result.now ≡ layout_of self.now.shown.state self.now.shown.expanded }
    {
        &self.layout
    }

    /// Returns the rows of the layout, for a frame to keep. Copies those that changed since the last
    /// copy.
    pub(crate) fn share_rows(&mut self) -> Result<SharedRows, AllocError>
        ensures rows { IfOk result (λ rows. AreRowsOf rows self.old.shown) }
        ensures unchanged { self.new ≡ self.old }
    {
        let alloc = *self.pending.allocator();
        self.frame_rows.share(alloc, &self.layout.rows)
    }

    /// Returns the row of the document that the screen's first row shows, counted from 0.
    pub(crate) fn scroll(&self) -> usize
        ensures { result ≡ self.now.scroll }
    {
        self.scroll
    }

    /// Returns the allocator of the pending events.
    pub(crate) fn allocator(&self) -> Global {
        *self.pending.allocator()
    }

    /// Adds `event` to the pending events.
    fn push(&mut self, event: Event) -> Result<(), AllocError>
        ensures { OnOk result (self.new ≡ with_pushed self.old event) }
    {
        self.pending.push(event)?;
        Ok(())
    }

    /// Clears the screen until the next frame.
    fn clear(&mut self)
        ensures { self.new ≡ after_redraw self.old }
    {
        self.cleared = true;
    }

    /// Returns whether the screen was cleared since the last frame.
    pub(crate) fn is_cleared(&self) -> bool
        ensures { result ≡ self.now.cleared }
    {
        self.cleared
    }

    /// Notes that a frame was drawn: the screen is no longer cleared.
    pub(crate) fn begin_frame(&mut self)
        ensures { self.new ≡ after_frame self.old }
    {
        self.cleared = false;
    }

    /// Pushes `EnsureSelectionInViewport`, so that the next frame is followed by a scroll to the
    /// selection.
    fn ensure_selection_in_viewport(&mut self) -> Result<(), AllocError>
        ensures { OnOk result (self.new ≡ with_ensure self.old) }
    {
        self.push(Event::EnsureSelectionInViewport)
    }

    /// Expands the file and the section that contain `key`.
    fn expand_containers(&mut self, key: SelectionKey) -> Result<(), RecordError>
        ensures ok { OnOk result (self.new
            ≡ with_expanded self.old (with_keys_above self.old.shown.expanded key)) }
        ensures err { IfErr result (λ e. e ≡ OutOfMemory) }
    {
        let shown = &mut self.view_state;
        expand_above(
            &mut self.layout,
            &mut self.frame_rows,
            &shown.state,
            &mut shown.expanded,
            key,
        )
    }

    /// Selects `key`, and expands the file and the section that contain it.
    fn go_to(&mut self, key: SelectionKey) -> Result<(), RecordError>
        ensures ok { OnOk result (self.new ≡ at_key self.old key) }
        ensures err { IfErr result (λ e. e ≡ OutOfMemory) }
    {
        self.expand_containers(key)?;
        self.view_state.selection = key;
        Ok(())
    }

    /// Selects `key` as `go_to` does, and pushes `EnsureSelectionInViewport`.
    pub(crate) fn select(&mut self, key: SelectionKey) -> Result<(), RecordError>
        ensures ok { OnOk result (self.new ≡ after_select self.old key) }
        ensures err { IfErr result (λ e. e ≡ OutOfMemory) }
    {
        self.go_to(key)?;
        self.ensure_selection_in_viewport()?;
        Ok(())
    }

    /// Handles `event`, with `frame` as the frame last drawn, and returns what the run does next.
    pub(crate) fn change(&mut self, frame: &DrawnFrame, event: Event) -> Result<Flow, RecordError>
        ensures ok { IfOk result (λ flow. (scene : Scene) → IsSceneOf scene frame.now →
            change scene self.old event ≡ record { session = self.new; flow = flow }) }
        ensures err { IfErr result (λ e. e ≡ OutOfMemory) }
    {
        match event {
            // an open quit dialog ignores the events that are for the document alone
            Event::ScrollUp
            | Event::ScrollDown
            | Event::PageUp
            | Event::PageDown
            | Event::FocusPrev
            | Event::FocusPrevSameKind
            | Event::FocusPrevPage
            | Event::FocusNext
            | Event::FocusNextSameKind
            | Event::FocusNextPage
            | Event::ToggleAll
            | Event::ToggleAllUniform
            | Event::ExpandItem
            | Event::ExpandAll
            | Event::EditCommitMessage
            | Event::QuitAccept
                if self.is_quit_dialog_open() => {}
            Event::None => {}
            Event::Redraw => self.clear(),
            Event::EnsureSelectionInViewport => self.show_selection(frame),
            Event::ToggleCommitViewMode => self.flip_mode(),
            Event::Help => self.flip_help(),
            Event::QuitEscape => self.escape(),
            Event::ScrollUp => self.scroll_up(frame, 1),
            Event::ScrollDown => self.scroll_down(frame, 1),
            Event::PageUp => self.page_up(frame),
            Event::PageDown => self.page_down(frame),
            Event::FocusPrev => self.select(self.neighbour(Way::Up))?,
            Event::FocusPrevSameKind => self.select(self.neighbour_of_kind(Way::Up))?,
            Event::FocusPrevPage => self.select(self.page_key(frame, Way::Up))?,
            Event::FocusNext => self.select(self.neighbour(Way::Down))?,
            Event::FocusNextSameKind => self.select(self.neighbour_of_kind(Way::Down))?,
            Event::FocusNextPage => self.select(self.page_key(frame, Way::Down))?,
            Event::ToggleAll => self.toggle_all(),
            Event::ToggleAllUniform => self.toggle_all_uniform(),
            Event::ExpandItem => self.flip_fold()?,
            Event::ExpandAll => self.flip_all_folds()?,
            Event::TakeScreenshot(shot) => return Ok(Flow::Shoot(shot.place)),
            Event::QuitAccept => return Ok(self.accept()),
            Event::QuitCancel => return Ok(self.cancel()),
            Event::QuitInterrupt => return Ok(self.interrupt()),
            Event::ToggleItem => return Ok(self.toggle_item()),
            Event::ToggleItemAndAdvance => return self.toggle_item_and_advance(),
            Event::EditCommitMessage => return Ok(self.edit_message(0)?),
            Event::FocusInner => return self.focus_inner(),
            Event::FocusOuter { fold_section } => return self.focus_outer(fold_section),
            Event::Click { row, column } => return self.click_at(frame, row, column),
        }
        Ok(Flow::GoOn)
    }

    /// Returns whether events are pending.
    pub(crate) fn has_pending(&self) -> bool
        ensures { IsTrue result ↔ (0 < length self.now.pending) }
    {
        !self.pending.is_empty()
    }

    /// Takes all pending events, in order.
    pub(crate) fn take_pending(&mut self) -> Vec<Event>
        ensures taken { result.items ≡ self.old.pending }
        ensures rest { self.new ≡ without_pending self.old }
    {
        let nothing = Vec::new(self.allocator());
        mem::replace(&mut self.pending, nothing)
    }

    /// Returns the state, with its current marks and messages.
    pub(crate) fn state(&self) -> &RecordState<'state>
        ensures { result.now ≡ self.now.shown.state }
    {
        &self.view_state.state
    }

    /// Returns the state, and drops the rest of the session.
    pub(crate) fn into_state(self) -> RecordState<'state>
        ensures { result ≡ self.entry.shown.state }
    {
        self.view_state.state
    }
}

/// Adds commits without a message to `commits`, up to two.
fn pad(commits: Vec<Commit>) -> Result<Vec<Commit>, AllocError>
    ensures { IfOk result (λ all. all.items ≡ padded_commits commits.items) }
{
    let mut commits = commits;
    while commits.len() < 2 {
        commits.push(Commit { message: None })?;
    }
    Ok(commits)
}

/// Notes in `copy` that `key` is unfolded, unless `expanded` has it already.
fn note_unfold(copy: &mut FrameRows, expanded: &KeySet, key: SelectionKey)
    ensures added { has_key expanded.now key ≡ false
        → copy.new ≡ noted key copy.old.copy copy.old.change }
    ensures kept { has_key expanded.now key ≡ true → copy.new ≡ copy.old }
{
    if !expanded.contains(key) {
        copy.note(key);
    }
}

/// Adds `key` to `expanded`, and keeps the layout of `state`. Notes in `copy`, that of its rows, if they
/// change.
fn unfold(
    layout: &mut Layout,
    copy: &mut FrameRows,
    state: &RecordState<'_>,
    expanded: &mut KeySet,
    key: SelectionKey,
) -> Result<(), RecordError>
    requires layout { layout.old ≡ layout_of state.now expanded.old }
    requires size { state_size state.now ≤ max_items }
    requires copy { FitRows copy.old layout.old.rows }
    ensures ok { OnOk result (expanded.new ≡ with_key expanded.old key) }
    ensures layout { layout.new ≡ layout_of state.now expanded.new }
    ensures copy { FitRows copy.new layout.new.rows }
    ensures err { IfErr result (λ e. e ≡ OutOfMemory) }
{
    note_unfold(copy, expanded, key);
    layout.unfold(state, expanded, key)
}

/// Expands the file and the section that contain `key`, and keeps the layout of `state`. Notes in
/// `copy`, that of its rows, if they change.
fn expand_above(
    layout: &mut Layout,
    copy: &mut FrameRows,
    state: &RecordState<'_>,
    expanded: &mut KeySet,
    key: SelectionKey,
) -> Result<(), RecordError>
    requires layout { layout.old ≡ layout_of state.now expanded.old }
    requires size { state_size state.now ≤ max_items }
    requires copy { FitRows copy.old layout.old.rows }
    ensures ok { OnOk result (expanded.new ≡ with_keys_above expanded.old key) }
    ensures layout { layout.new ≡ layout_of state.now expanded.new }
    ensures copy { FitRows copy.new layout.new.rows }
    ensures err { IfErr result (λ e. e ≡ OutOfMemory) }
{
    match key {
        SelectionKey::None | SelectionKey::File(_) => Ok(()),
        SelectionKey::Section(key) => {
            unfold(
                layout,
                copy,
                state,
                expanded,
                SelectionKey::File(key.file()),
            )
        }
        SelectionKey::Line(key) => {
            unfold(
                layout,
                copy,
                state,
                expanded,
                SelectionKey::File(key.file()),
            )?;
            unfold(
                layout,
                copy,
                state,
                expanded,
                SelectionKey::Section(key.section()),
            )
        }
    }
}
