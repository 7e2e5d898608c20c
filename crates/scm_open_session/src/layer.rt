//! The view of a session with a layer: what calls do to it.
ghost use Rattle.std.specs.Prelude.{◌≡◌, IfErr, IfOk};
ghost use Rattle.scm_record.specs.LiveCalls.{BatchFails, EventFails};
ghost use Rattle.scm_errors.specs.declared.error.RecordError.TheVariants.{OutOfMemory};
ghost use Rattle.scm_open_session.specs.Layered.{OrRefused, ViewPresses, ViewPressesAll, ViewSets, folds_of, theme_of};

use scm_c_values::codes;
use scm_front::Folds;
use scm_front_paint::view::shown;
use scm_front_paint::{Theme, View, ViewTurn};
use scm_record::{Event, RecordError, SelectionKey};

/// Hands `event` to the session beneath `view`, and shows what comes of it.
///
/// # Errors
///
/// An error ends the session: the errors are those of the event, or an allocation failed.
pub fn press(view: View<'static>, event: Event) -> Result<ViewTurn<'static>, RecordError>
    ensures ok { IfOk result (λ turn. ViewPresses view.entry event turn) }
    ensures err { IfErr result (λ e. OrRefused (EventFails view.entry.front.beneath event) e) }
{
    let (front, pane) = view.into_parts();
    let turn = front.hand_in(event)?;
    shown(turn, pane)
}

/// Hands `events` to the session beneath `view` as one batch, and shows what comes of them.
///
/// # Errors
///
/// An error ends the session: the errors are those of the batch, or an allocation failed.
pub fn press_all(view: View<'static>, events: &[Event]) -> Result<ViewTurn<'static>, RecordError>
    ensures ok { IfOk result (λ turn. ViewPressesAll view.entry events.now turn) }
    ensures err { IfErr result (λ e. OrRefused (BatchFails view.entry.front.beneath events.now) e) }
{
    let (front, pane) = view.into_parts();
    let turn = front.hand_in_all(events)?;
    shown(turn, pane)
}

/// Unfolds in the session beneath `view` what `folds` says, selects `first` if there is such an item, and
/// shows what comes of it.
///
/// # Errors
///
/// An error ends the session.
///
/// - `OutOfMemory`: an allocation failed.
pub fn set_start(
    view: View<'static>,
    folds: Folds,
    first: SelectionKey,
) -> Result<ViewTurn<'static>, RecordError>
    ensures ok { IfOk result (λ turn. ViewSets folds first view.entry turn) }
    ensures err { IfErr result (λ e. e ≡ OutOfMemory) }
{
    let (front, pane) = view.into_parts();
    let turn = front.begin(folds, first)?;
    shown(turn, pane)
}

/// Returns the theme with the number `code`, if there is one.
pub fn theme_of(code: u32) -> Option<Theme>
    ensures { result ≡ theme_of code }
{
    match code {
        codes::DARK => Some(Theme::Dark),
        codes::LIGHT => Some(Theme::Light),
        codes::SIXTEEN => Some(Theme::Sixteen),
        codes::NO_COLOURS => Some(Theme::NoColours),
        _ => None,
    }
}

/// Returns the folds with the number `code`, if there are such.
pub fn folds_of(code: u32) -> Option<Folds>
    ensures { result ≡ folds_of code }
{
    match code {
        codes::AS_IT_IS => Some(Folds::AsIs),
        codes::ALL_FOLDED => Some(Folds::Folded),
        codes::ALL_OPEN => Some(Folds::Open),
        codes::OPEN_IF_IT_FITS => Some(Folds::Fitting),
        _ => None,
    }
}
