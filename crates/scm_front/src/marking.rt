//! The deeds of the layer's actions: marks of a range, and marks that were.
ghost use Rattle.std.specs.Prelude.{◌≡◌, [], ◌++◌, IfErr, IfOk, IfSome, IsTrue, OnOk, map};
ghost use Rattle.scm_front_items.specs.Targets.{key_of};
ghost use Rattle.scm_errors.specs.declared.error.RecordError.TheVariants.{OutOfMemory};
ghost use Rattle.scm_selection.specs.KeySet.{has_key};
ghost use Rattle.scm_front_items.specs.Places.{moved_to};
ghost use Rattle.scm_front_items.specs.Plans.{file_folds, section_folds, with_plan};
ghost use Rattle.scm_front_items.specs.Runs.{marks_of_files, marks_with};
ghost use Rattle.scm_front_items.specs.Steps.{runs_of_range};
ghost use Rattle.scm_front.specs.Deeds.{SomeDeedsLead, SomeRoundLeads};
ghost use Rattle.scm_front.specs.Driving.{turn_of};
ghost use Rattle.scm_front.specs.Fronts.{HasMarks, destination, files_of, range_deeds, selection_of};
ghost use Rattle.scm_front.specs.Recording.{back_of};
ghost use Rattle.scm_front.specs.Scrolling.{SomeQuietRound};

use crate::begun::{Begun, BegunTurn};
use crate::deeds::{do_deeds, do_round};
use crate::scrolling::scroll_back;
use scm_front_items::places::moved_to;
use scm_front_items::plans::{self, Part};
use scm_front_items::{Deed, Marks, Place, Run, Step, ranges, runs, steps};
use scm_record::{Items, RecordError, SelectionKey};
use scm_view_state::ViewState;
use std::alloc::Global;

/// Returns the key that is selected.
pub(crate) fn selection_of(session: &Begun<'_>) -> SelectionKey
    ensures { result ≡ selection_of session.now }
{
    session.live().view_state().selection
}

/// Returns the item of `view` to which a move to `place` leads, or the selection if there is none.
fn place_in(alloc: Global, view: &ViewState<'_>, place: Place) -> Result<SelectionKey, RecordError>
    ensures ok { IfOk result (λ key. key ≡ moved_to place (has_key view.now.expanded)
        view.now.state.files view.now.selection) }
    ensures err { IfErr result (λ e. e ≡ OutOfMemory) }
{
    moved_to(
        alloc,
        place,
        &view.expanded,
        view.state.files.as_slice(),
        view.selection,
    )
}

/// Returns the item to which a move to `place` leads, or the selection if there is none.
pub(crate) fn destination(
    alloc: Global,
    session: &Begun<'_>,
    place: Place,
) -> Result<SelectionKey, RecordError>
    ensures ok { IfOk result (λ key. key ≡ destination place session.now) }
    ensures err { IfErr result (λ e. e ≡ OutOfMemory) }
{
    place_in(alloc, session.live().view_state(), place)
}

/// Adds deeds to `deeds` that fold again what jumps to `keys` unfold in `view`: first sections, then
/// files.
pub(crate) fn push_folds(
    deeds: &mut Vec<Deed>,
    view: &ViewState<'_>,
    keys: &[SelectionKey],
) -> Result<(), RecordError>
    ensures ok { OnOk result (deeds.new.items
        ≡ (deeds.old.items ++ section_folds view.now.expanded keys.now)
        ++ file_folds view.now.expanded keys.now) }
    ensures err { IfErr result (λ e. e ≡ OutOfMemory) }
{
    plans::push_folds(deeds, &view.expanded, keys)
}

/// Returns the deeds that set the marks of the range from `anchor` to the selection to that which its
/// first line gets.
pub(crate) fn range_deeds(
    alloc: Global,
    session: &Begun<'_>,
    anchor: SelectionKey,
) -> Result<Vec<Deed>, RecordError>
    ensures ok { IfOk result (λ deeds. deeds.items ≡ range_deeds session.now anchor) }
    ensures err { IfErr result (λ e. e ≡ OutOfMemory) }
{
    let view = session.live().view_state();
    let files = view.state.files.as_slice();
    let mut deeds = Vec::new(alloc);
    if view.state.is_read_only {
        return Ok(deeds);
    }
    let keys = ranges::lines_between(alloc, files, anchor, view.selection)?;
    let mark = ranges::mark_for(files, keys.as_slice());
    ranges::push_marking(&mut deeds, mark, keys.as_slice())?;
    push_folds(&mut deeds, view, keys.as_slice())?;
    Ok(deeds)
}

/// Returns the marks of the files from `anchor` to the selection, or `None` if an allocation failed.
pub(crate) fn runs_of_range(
    alloc: Global,
    session: &Begun<'_>,
    anchor: SelectionKey,
) -> Option<Items<Run>>
    ensures taken { IfSome result (λ runs. runs
        ≡ runs_of_range anchor (selection_of session.now) (files_of session.now)) }
    ensures calm { session.now.session.pending ≡ [] }
{
    let view = session.live().view_state();
    let files = view.state.files.as_slice();
    steps::runs_of_range(alloc, files, anchor, view.selection).ok()
}

/// The marks that are to be restored, and those of the same items before that.
#[derive(Drop)]
pub(crate) struct Restoring {
    /// All marks that the state is to have.
    pub(crate) wanted: Marks,
    /// The items that differ, with the marks that they have now.
    pub(crate) back: Step,
}

/// Returns what restoring `step` means in the state of `session`.
pub(crate) fn what_to_restore(
    alloc: Global,
    session: &Begun<'_>,
    step: &Step,
) -> Result<Restoring, RecordError>
    ensures wanted { IfOk result (λ r. r.wanted
        ≡ marks_with step.now (marks_of_files (files_of session.now))) }
    ensures back { IfOk result (λ r. r.back ≡ back_of (files_of session.now) step.now) }
{
    let files = session.live().state().files.as_slice();
    let marks = runs::marks_of_files(alloc, files)?;
    let now = steps::runs_now(alloc, files, step.runs.as_slice())?;
    Ok(Restoring {
        wanted: runs::marks_with(marks, step),
        back: Step {
            runs: now,
            bytes: step.bytes,
        },
    })
}

/// Returns `deeds` with others that fold again what they unfold, if `view` is the view state before them.
fn with_folds(
    alloc: Global,
    deeds: Vec<Deed>,
    view: &ViewState<'_>,
) -> Result<Vec<Deed>, RecordError>
    ensures ok { IfOk result (λ all. all.items
        ≡ (deeds.items ++ section_folds view.now.expanded (map key_of deeds.items))
        ++ file_folds view.now.expanded (map key_of deeds.items)) }
    ensures err { IfErr result (λ e. e ≡ OutOfMemory) }
{
    let mut deeds = deeds;
    let keys = plans::keys_of(alloc, deeds.as_slice())?;
    push_folds(&mut deeds, view, keys.as_slice())?;
    Ok(deeds)
}

/// Returns the deeds of `part` towards the marks `wanted`.
fn deeds_towards(
    alloc: Global,
    session: &Begun<'_>,
    part: Part,
    wanted: &Marks,
) -> Result<Vec<Deed>, RecordError>
    ensures ok { let plan = with_plan part wanted.now 0 (files_of session.now) [] in
        IfOk result (λ deeds. deeds.items
        ≡ (plan ++ section_folds session.now.session.shown.expanded (map key_of plan))
        ++ file_folds session.now.session.shown.expanded (map key_of plan)) }
    ensures err { IfErr result (λ e. e ≡ OutOfMemory) }
{
    let mut deeds = Vec::new(alloc);
    let view = session.live().view_state();
    plans::push_deeds(
        &mut deeds,
        part,
        view.state.files.as_slice(),
        wanted.as_slice(),
    )?;
    with_folds(alloc, deeds, view)
}

/// Does the first deeds towards the marks `wanted`, and folds again what that unfolds.
fn first_part<'state>(
    alloc: Global,
    session: Begun<'state>,
    wanted: &Marks,
) -> Result<BegunTurn<'state>, RecordError>
    ensures ok { IfOk result (λ turn. SomeDeedsLead session.entry (turn_of turn)) }
    ensures err { IfErr result (λ e. e ≡ OutOfMemory) }
{
    let deeds = deeds_towards(alloc, &session, Part::First, wanted)?;
    do_deeds(session, deeds.as_slice())
}

/// Does the last deeds towards the marks `wanted`, folds again what that unfolds, and selects `back` again.
fn last_part<'state>(
    alloc: Global,
    session: Begun<'state>,
    wanted: &Marks,
    back: SelectionKey,
) -> Result<BegunTurn<'state>, RecordError>
    ensures ok { IfOk result (λ turn. SomeRoundLeads session.entry back (turn_of turn)) }
    ensures err { IfErr result (λ e. e ≡ OutOfMemory) }
{
    let deeds = deeds_towards(alloc, &session, Part::Last, wanted)?;
    do_round(session, deeds.as_slice(), back)
}

/// Sets the marks of `session` to `wanted` by toggles, folds again what that unfolds, and selects what is
/// selected now again.
fn restore_marks<'state>(
    alloc: Global,
    session: Begun<'state>,
    wanted: &Marks,
) -> Result<BegunTurn<'state>, RecordError>
    ensures ok { IfOk result (λ turn.
        SomeRoundLeads session.entry (selection_of session.entry) (turn_of turn)) }
    ensures err { IfErr result (λ e. e ≡ OutOfMemory) }
{
    let back = selection_of(&session);
    let turn = first_part(alloc, session, wanted)?;
    match turn {
        BegunTurn::Waiting(mid) => last_part(alloc, mid, wanted, back),
        BegunTurn::Editing(editing) => Ok(BegunTurn::Editing(editing)),
        BegunTurn::Accepted(state) => Ok(BegunTurn::Accepted(state)),
    }
}

/// Sets the marks of `session` to `wanted`, as `restore_marks` does, and scrolls back to where the screen
/// began.
pub(crate) fn restore<'state>(
    alloc: Global,
    session: Begun<'state>,
    wanted: &Marks,
) -> Result<BegunTurn<'state>, RecordError>
    ensures ok { IfOk result (λ turn.
        SomeQuietRound session.entry (selection_of session.entry) (turn_of turn)) }
    ensures err { IfErr result (λ e. e ≡ OutOfMemory) }
{
    let scroll = session.live().scroll();
    let turn = restore_marks(alloc, session, wanted)?;
    scroll_back(turn, scroll)
}

/// Returns whether the session of `turn` waits with exactly the marks `wanted`.
pub(crate) fn is_restored(turn: &BegunTurn<'_>, wanted: &Marks) -> bool
    ensures { IsTrue result → HasMarks (turn_of turn.now) wanted.now }
{
    match turn {
        BegunTurn::Waiting(session) => {
            runs::are_marks(session.live().state().files.as_slice(), wanted.as_slice())
        }
        BegunTurn::Editing(_) | BegunTurn::Accepted(_) => false,
    }
}
