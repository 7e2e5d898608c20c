//! How much of a live session's state is marked, by the totals that the session keeps.
ghost use Rattle.std.specs.Prelude.{◌≡◌, ◌-◌, ◌^◌, min};
ghost use Rattle.scm_selection.specs.Counts.{changed_count};
ghost use Rattle.scm_record.specs.Marked.{checked_lines};

use crate::live::LiveSession;

impl<'state> LiveSession<'state> {
    /// Returns the number of files that are not wholly unchecked. Reads a kept total, and no file.
    pub fn changed_files(&self) -> usize
        ensures { result ≡ changed_count self.now.session.shown.state }
    {
        self.session.changed_files()
    }

    /// Returns the number of checked changed lines, at most `usize::MAX`. Reads a kept total, and no file.
    pub fn checked_lines(&self) -> usize
        ensures { result ≡ min (checked_lines self.now.session.shown.state.files) (2 ^ 64 - 1) }
    {
        self.session.checked_lines()
    }
}
