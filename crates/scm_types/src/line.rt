//! The changed lines of a section.
ghost use Rattle.std.specs.Prelude.{◌≡◌, true, false, not};
ghost use Rattle.scm_types.specs.Split.{takes};

use crate::text::Text;
use serde::{Deserialize, Serialize};

/// The kind of change of a line.
#[derive(Clone, Copy, Debug, PartialEq, Eq, PartialOrd, Ord, Hash, Serialize, Deserialize)]
pub enum ChangeType {
    /// The line was added.
    Added,

    /// The line was removed.
    Removed,
}

/// A changed line.
#[derive(Debug, Drop, PartialEq, Eq, Serialize, Deserialize)]
pub struct SectionChangedLine<'a> {
    /// Whether the change is selected.
    pub is_checked: bool,

    /// Whether the line was added or removed.
    pub change_type: ChangeType,

    /// The text of the line, with its line end.
    pub line: Text<'a>,
}

impl<'a> SectionChangedLine<'a> {
    /// Returns whether the line is in the text of the selected side, and not of the other side.
    pub(crate) fn is_selected(&self) -> bool
        ensures selected { result ≡ takes true self.now }
        ensures unselected { result ≡ not (takes false self.now) }
    {
        match self.change_type {
            ChangeType::Added => self.is_checked,
            ChangeType::Removed => !self.is_checked,
        }
    }
}
