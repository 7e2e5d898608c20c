//! Marks the first line of a state. The modules are further callers of the libraries.
#![tactic(auto)]

ghost use Rattle.std.specs.Prelude.{◌≡◌, IfErr, IfOk, IsTrue, true};
ghost use Rattle.scm_record.specs.Limits.{is_accepted_state};
ghost use Rattle.scm_record.specs.Split.{side_of};
ghost use Rattle.scm_record.specs.Keeping.{IsKept};

use scm_record::{
    Event, File, RecordError, RecordState, Recorder, Screens, SelectedChanges, TestingInput,
};
use std::alloc::Global;

/// Marks the first line of `state`, by the keys that a user would press.
pub fn mark_first_line<'a>(
    alloc: Global,
    state: RecordState<'a>,
) -> Result<RecordState<'a>, RecordError>
    requires { IsTrue (is_accepted_state state) }
    ensures kept { IfOk result (λ marked. IsKept state.entry marked) }
{
    let keys = [
        Event::FocusInner,
        Event::FocusInner,
        Event::ToggleItem,
        Event::QuitAccept,
    ];
    let mut input = TestingInput::new(alloc, 80, 24, keys.to_vec(alloc)?)?;
    let mut screens = Screens::new(alloc);
    Recorder::new(alloc, state)?.run(&mut input, &mut screens)
}

/// Returns the part of `file` that goes into the commit.
pub fn selected_side<'a>(
    alloc: Global,
    file: &'a File<'_>,
) -> Result<SelectedChanges<'a>, RecordError>
    ensures ok { IfOk result (λ side. side ≡ side_of true file.now) }
    ensures err { IfErr result (λ error. error ≡ RecordError.OutOfMemory) }
{
    let (selected, _unselected) = file.get_selected_contents(alloc)?;
    Ok(selected)
}

#[cfg(test)]
mod caller_tests;
#[cfg(test)]
mod crate_tests;
pub mod drawing;
pub mod input;
pub mod live;
pub mod splitter;
pub mod terminal;
#[cfg(test)]
mod tests;
