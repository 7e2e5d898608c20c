//! The screen of a state, drawn without a recorder.
ghost use Rattle.std.specs.Prelude.{◌≡◌, ◌≤◌, [], IfErr, IfOk, IsTrue};
ghost use Rattle.scm_errors.specs.declared.error.RecordError.TheVariants.{OutOfMemory};
ghost use Rattle.scm_types.specs.Limits.{is_accepted_state, max_scroll};
ghost use Rattle.scm_types.specs.declared.keys.SelectionKey.TheVariants as keys;
ghost use Rattle.scm_view_state.specs.ViewState.{new_view_state};
ghost use Rattle.scm_view.specs.Window.{window};

use scm_record::{Grid, KeySet, RecordError, RecordState, SelectionKey, ViewState};
use std::alloc::Global;

/// Returns the screen of `width` columns and `height` rows that shows `state` from row `scroll` of
/// the document, with all files folded and nothing selected.
pub fn screen_of(
    alloc: Global,
    state: RecordState<'_>,
    width: u16,
    height: u16,
    scroll: usize,
) -> Result<Grid, RecordError>
    requires accepted { IsTrue (is_accepted_state state) }
    requires wide { 10 ≤ width }
    requires high { 2 ≤ height }
    requires scroll { scroll ≤ max_scroll }
    ensures ok { IfOk result (λ grid. grid.rows ≡
        window width height scroll (new_view_state state.entry keys.None [])) }
    ensures err { IfErr result (λ error. error ≡ OutOfMemory) }
{
    let view_state = ViewState::new(state, SelectionKey::None, KeySet::new(alloc));
    let view = view_state.app_view(alloc)?;
    let mut grid = Grid::new(alloc, width, height)?;
    view.paint(alloc, &mut grid, scroll)?;
    Ok(grid)
}
