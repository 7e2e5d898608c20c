//! The sections of a file and their marks.
ghost use Rattle.std.specs.Prelude.{◌≡◌, not};
ghost use Rattle.scm_types.specs.Marks.{is_editable_section, section_marks, section_with_marks, tristate_of};
ghost use Rattle.scm_types.specs.Seen.{with_marks};

use crate::file_mode::FileMode;
use crate::items::Items;
use crate::line::SectionChangedLine;
use crate::text::Text;
use crate::tristate::{Seen, Tristate};
use serde::{Deserialize, Serialize};

/// A section of a file.
///
/// Its items, each with a checkbox, are the changed lines of `Changed`, and `FileMode` and
/// `Binary` themselves. `Unchanged` has none.
#[derive(Debug, Drop, PartialEq, Eq, Serialize, Deserialize)]
pub enum Section<'a> {
    /// Context lines.
    Unchanged {
        /// The lines, with their line ends.
        lines: Items<Text<'a>>,
    },

    /// Changed lines, each with its mark.
    Changed {
        /// The lines, with their line ends.
        lines: Items<SectionChangedLine<'a>>,
    },

    /// A change of the file's mode.
    FileMode {
        /// Whether the change is selected.
        is_checked: bool,

        /// The mode after the change.
        mode: FileMode,
    },

    /// A change of binary contents.
    Binary {
        /// Whether the change is selected.
        is_checked: bool,

        /// The text shown for the old contents.
        old_description: Option<Text<'a>>,

        /// The text shown for the new contents.
        new_description: Option<Text<'a>>,
    },
}

impl<'a> Section<'a> {
    /// Returns whether the section is of a kind with items: any but `Unchanged`.
    pub fn is_editable(&self) -> bool
        ensures { result ≡ is_editable_section self.now }
    {
        match self {
            Section::Unchanged { .. } => false,
            Section::Changed { .. } | Section::FileMode { .. } | Section::Binary { .. } => true,
        }
    }

    /// Returns whether none, some or all items of the section are checked.
    pub fn tristate(&self) -> Tristate
        ensures { result ≡ tristate_of (section_marks self.now) }
    {
        self.add_marks_to(Seen::none()).tristate()
    }

    /// Returns `before` with the marks of the section added.
    pub(crate) fn add_marks_to(&self, before: Seen) -> Seen
        ensures { result ≡ with_marks before (section_marks self.now) }
    {
        match self {
            Section::Unchanged { .. } => before,
            Section::Changed { lines } => {
                let mut seen = before;
                for line in lines.iter() {
                    seen = seen.with(line.is_checked);
                }
                seen
            }
            Section::FileMode { is_checked, .. } | Section::Binary { is_checked, .. } => {
                before.with(*is_checked)
            }
        }
    }

    /// Sets the mark of every item of the section to `checked`.
    pub fn set_checked(&mut self, checked: bool)
        ensures { self.new ≡ section_with_marks (λ _. checked) self.old }
    {
        match self {
            Section::Unchanged { .. } => {}
            Section::Changed { lines } => {
                for line in lines.iter_mut() {
                    line.is_checked = checked;
                }
            }
            Section::FileMode { is_checked, .. } => {
                *is_checked = checked;
            }
            Section::Binary { is_checked, .. } => {
                *is_checked = checked;
            }
        }
    }

    /// Inverts the mark of every item of the section.
    pub fn toggle_all(&mut self)
        ensures { self.new ≡ section_with_marks not self.old }
    {
        match self {
            Section::Unchanged { .. } => {}
            Section::Changed { lines } => {
                for line in lines.iter_mut() {
                    line.is_checked = !line.is_checked;
                }
            }
            Section::FileMode { is_checked, .. } => {
                *is_checked = !*is_checked;
            }
            Section::Binary { is_checked, .. } => {
                *is_checked = !*is_checked;
            }
        }
    }
}
