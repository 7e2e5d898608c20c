//! A file with its changes and their marks.
ghost use Rattle.std.specs.Prelude.{◌≡◌, not};
ghost use Rattle.scm_types.specs.Marks.{file_marks, file_with_marks, tristate_of};

use crate::file_mode::FileMode;
use crate::items::Items;
use crate::section::Section;
use crate::text::Text;
use crate::tristate::{Seen, Tristate};
use serde::{Deserialize, Serialize};

/// A file with its changes.
#[derive(Debug, Drop, PartialEq, Eq, Serialize, Deserialize)]
pub struct File<'a> {
    /// The path of the file before a rename or a copy, or `None` if it was neither.
    pub old_path: Option<Text<'a>>,

    /// The path of the file, after a rename or a copy if there was one.
    pub path: Text<'a>,

    /// The mode of the file before its changes.
    pub file_mode: FileMode,

    /// The sections of the file, in order from its first line.
    pub sections: Items<Section<'a>>,
}

impl<'a> File<'a> {
    /// Returns whether none, some or all items of the file are checked.
    pub fn tristate(&self) -> Tristate
        ensures { result ≡ tristate_of (file_marks self.now) }
    {
        let mut seen = Seen::none();
        for section in self.sections.iter() {
            seen = section.add_marks_to(seen);
        }
        seen.tristate()
    }

    /// Sets the mark of every item of the file to `checked`.
    pub fn set_checked(&mut self, checked: bool)
        ensures { self.new ≡ file_with_marks (λ _. checked) self.old }
    {
        for section in self.sections.iter_mut() {
            section.set_checked(checked);
        }
    }

    /// Inverts the mark of every item of the file.
    pub fn toggle_all(&mut self)
        ensures { self.new ≡ file_with_marks not self.old }
    {
        for section in self.sections.iter_mut() {
            section.toggle_all();
        }
    }
}
