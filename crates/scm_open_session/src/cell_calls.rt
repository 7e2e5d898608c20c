//! The call that tells the screen of a session as cells.
ghost use Rattle.std.specs.Prelude.{IfSome};
ghost use Rattle.scm_open_session.specs.Boxes.{box_value};
ghost use Rattle.scm_open_session.specs.Cells.{PlainCells, RunningCells, SessionCells, StageCells, TellsCells, TellsScreen};

use crate::open_session::{OpenSession, Session, Stage};
use crate::painters::Painters;
use crate::running::Running;
use scm_c_values::buffers::write_text;
use scm_c_values::codes;
use scm_record::LiveSession;
use scm_shown_cells::{Cell, CellList, ScreenInfo, ShownScreen, write_cells};
use std::alloc::Global;

/// Returns the cells of the screen of `session`. Returns `None` if an allocation failed.
fn plain_cells(alloc: Global, session: &LiveSession<'static>) -> Option<ShownScreen>
    ensures { IfSome result (λ screen. PlainCells session.now screen) }
{
    let grid = session.grid();
    let mut list = CellList::new(alloc);
    list.push_rows(alloc, grid, session).ok()?;
    Some(ShownScreen {
        list,
        columns: grid.width(),
        rows: grid.height(),
    })
}

/// Returns the cells of what a paint by `painters` shows of `session`. Returns `None` if an allocation failed.
fn running_cells(alloc: Global, session: &Running, painters: &Painters) -> Option<ShownScreen>
    ensures { IfSome result (λ screen. RunningCells session.now painters.now screen) }
{
    match session {
        Running::Plain(session) => plain_cells(alloc, session),
        Running::Layered(view) => painters.layered.cells(view, painters.accept.as_str()).ok(),
    }
}

/// Returns the cells of what a paint by `painters` shows at `stage`.
///
/// # Errors
/// - `NOT_NOW`: the session waits for no event.
/// - `NO_MEMORY`: an allocation failed.
fn stage_cells(alloc: Global, stage: &Stage, painters: &Painters) -> Result<ShownScreen, u32>
    ensures { StageCells stage.now painters.now result }
{
    match stage {
        Stage::Waiting(session) => match running_cells(alloc, session, painters) {
            Some(screen) => Ok(screen),
            None => Err(codes::NO_MEMORY),
        },
        Stage::Building(_) => Err(codes::NOT_NOW),
        Stage::Editing(_) => Err(codes::NOT_NOW),
        Stage::Accepted(_) => Err(codes::NOT_NOW),
        Stage::Ended(_) => Err(codes::NOT_NOW),
    }
}

impl OpenSession {
    /// Returns the cells of what a paint shows.
    ///
    /// # Errors
    /// The code of the failure: `NOT_NOW` or `NO_MEMORY`.
    fn cells(&self, alloc: Global) -> Result<ShownScreen, u32>
        ensures { StageCells self.now.stage self.now.painter result }
    {
        stage_cells(alloc, &self.stage, &self.painter)
    }
}

/// Returns the cells of what a paint of `session` shows.
///
/// # Errors
/// The code of the failure: `CLOSED`, `NOT_NOW` or `NO_MEMORY`.
fn session_cells(alloc: Global, session: &Session) -> Result<ShownScreen, u32>
    ensures { SessionCells (box_value session.now) result }
{
    match session {
        Some(inner) => inner.cells(alloc),
        None => Err(codes::CLOSED),
    }
}

/// Writes `screen` to `cells` and `out`, clipped to their lengths, and its size to `told`.
fn tell_screen(screen: &ShownScreen, cells: &mut [Cell], out: &mut [u8], told: &mut ScreenInfo)
    ensures { TellsScreen screen.now cells.old cells.new out.old out.new told.new }
{
    write_cells(screen.list.cells.as_slice(), cells);
    let _len = write_text(screen.list.text.as_bytes(), out);
    *told = screen.info();
}

/// Writes the cells of what a paint of `session` shows to `cells`, the text of their symbols to `out`, and the
/// size of the screen to `told`. Returns the code of the call.
pub fn cells(
    alloc: Global,
    session: &Session,
    cells: &mut [Cell],
    out: &mut [u8],
    told: &mut ScreenInfo,
) -> u32
    ensures { TellsCells (box_value session.now) cells.old cells.new out.old out.new
        told.old told.new result }
{
    match session_cells(alloc, session) {
        Ok(screen) => {
            tell_screen(&screen, cells, out, told);
            codes::DONE
        }
        Err(code) => code,
    }
}
