//! The split of a file into its selected and its unselected side.
ghost use Rattle.std.specs.Prelude.{◌≡◌, IfOk, IfErr, true, false, option_and_then};
ghost use Rattle.std.specs.Option.{option_copied};
ghost use Rattle.std.specs.List.{list_any};
ghost use Rattle.scm_types.specs.Joined.{text_of_lines};
ghost use Rattle.scm_types.specs.Split.{binary_change, has_changed_line, is_binary, is_emptied, last_binary_change, side_lines, side_mode, side_of, tail_of, text_side};

use crate::file::File;
use crate::file_mode::FileMode;
use crate::section::Section;
use crate::side_text::{SideText, join_sides};
use crate::text::{OwnedText, Text};
use scm_errors::RecordError;
use std::alloc::Global;

/// One side of a split file.
#[derive(Debug, Drop)]
pub struct SelectedChanges<'a> {
    /// The mode of the file on this side.
    pub file_mode: FileMode,

    /// The contents of the file on this side.
    pub contents: SelectedContents<'a>,
}

/// The contents of a file on one side of its split.
#[derive(Debug, Drop, PartialEq, Eq, PartialOrd, Ord, Hash)]
pub enum SelectedContents<'a> {
    /// The contents do not change: there is nothing to write.
    Unchanged,

    /// The contents are binary. The state does not have them.
    Binary {
        /// The text shown for the old contents.
        old_description: Option<Text<'a>>,

        /// The text shown for the new contents.
        new_description: Option<Text<'a>>,
    },

    /// The contents are this text.
    Text {
        /// The lines of the side, joined.
        contents: OwnedText,
    },
}

impl<'a> Section<'a> {
    /// Returns whether the section changes binary contents.
    fn is_binary(&self) -> bool
        ensures { result ≡ is_binary self.now }
    {
        matches!(self, Section::Binary { .. })
    }

    /// Returns whether the section has a changed line.
    fn has_changed_line(&self) -> bool
        ensures { result ≡ has_changed_line self.now }
    {
        match self {
            Section::Changed { lines } => lines.len() > 0,
            _ => false,
        }
    }
}

/// Returns whether some section has a changed line.
fn has_changed_line_in(sections: &[Section<'_>]) -> bool
    ensures { result ≡ list_any has_changed_line sections.now }
{
    sections.iter().any(|section| section.has_changed_line())
}

/// Borrows the text, if there is one.
fn borrow_text<'s>(text: &'s Option<Text<'_>>) -> Option<Text<'s>>
    ensures { result ≡ text.now }
{
    text.as_ref().map(|text| text.borrowed())
}

impl<'a> File<'a> {
    /// Returns the mode of the selected side if `selected`, or of the other side.
    fn side_mode(&self, selected: bool) -> FileMode
        ensures { result ≡ side_mode selected self.now }
    {
        for section in self.sections.iter() {
            if let Section::FileMode { is_checked, mode } = section {
                return if *is_checked == selected {
                    *mode
                } else {
                    self.file_mode
                };
            }
        }
        self.file_mode
    }

    /// Returns the last binary section and the sections after it, or else all sections.
    fn tail(&self) -> (Option<&Section<'a>>, &[Section<'a>])
        ensures binary { option_and_then binary_change (option_copied result.0)
            ≡ last_binary_change self.now.sections }
        ensures tail { result.1.now ≡ tail_of self.now.sections }
    {
        let sections = self.sections.as_slice();
        let mut binary = None;
        let mut start = 0;
        for (i, section) in sections.iter().enumerate() {
            if section.is_binary() {
                binary = Some(section);
                start = i + 1;
            }
        }
        (binary, &sections[start..])
    }

    /// Returns whether the side is the empty text, and not unchanged, if it has no lines.
    fn is_emptied(&self, tail: &[Section<'a>], selected: bool) -> bool
        requires { tail.now ≡ tail_of self.now.sections }
        ensures { result ≡ is_emptied selected self.now }
    {
        let is_there = !self.side_mode(selected).is_absent();
        let was_absent = self.file_mode.is_absent();
        let has_changed_line = has_changed_line_in(tail);
        // `&` and `|`: one branch for the prover
        is_there & (was_absent | (selected & has_changed_line))
    }

    /// Returns the contents of a side that no binary section replaces.
    fn side_text(
        &self,
        tail: &[Section<'a>],
        selected: bool,
        text: SideText,
    ) -> SelectedContents<'_>
        requires tail { tail.now ≡ tail_of self.now.sections }
        requires text { text ≡ text_of_lines (side_lines selected self.now) }
        ensures { result ≡ text_side (is_emptied selected self.now) (side_lines selected self.now) }
    {
        // `|`: one branch for the prover
        let is_text = text.has_line | self.is_emptied(tail, selected);
        if is_text {
            SelectedContents::Text {
                contents: OwnedText::from(text.text),
            }
        } else {
            SelectedContents::Unchanged
        }
    }

    /// Returns the selected side if `selected`, or the other side, with its joined lines `text`.
    fn side(&self, selected: bool, text: SideText) -> SelectedChanges<'_>
        requires { text ≡ text_of_lines (side_lines selected self.now) }
        ensures { result ≡ side_of selected self.now }
    {
        let (binary, tail) = self.tail();
        if let Some(
            Section::Binary {
                is_checked,
                old_description,
                new_description,
            },
        ) = binary
            && *is_checked == selected
        {
            return SelectedChanges {
                file_mode: self.side_mode(selected),
                contents: SelectedContents::Binary {
                    old_description: borrow_text(old_description),
                    new_description: borrow_text(new_description),
                },
            };
        }
        SelectedChanges {
            file_mode: self.side_mode(selected),
            contents: self.side_text(tail, selected, text),
        }
    }

    /// Returns the selected and the unselected side of the file.
    ///
    /// Modes: only the first `FileMode` section counts. If it is checked, the selected side has
    /// its mode, and the other side the file's mode. If it is unchecked, the reverse. Without one,
    /// both sides have the file's mode.
    ///
    /// Contents: only the sections after the last `Binary` section count, or all if there is
    /// none. The selected side is the context lines, the checked additions and the unchecked
    /// removals, in order. The other side is the context lines, the unchecked additions and the
    /// checked removals.
    ///
    /// A side without lines is `Unchanged`, with two exceptions that are the empty text:
    /// - The selected side, if some changed line counts and the side's mode is not `Absent`.
    /// - Either side whose mode is not `Absent`, if the file's own mode is `Absent`.
    ///
    /// The last `Binary` section replaces one side: the selected one if it is checked, else the
    /// other one. Its descriptions are borrowed.
    ///
    /// The time is linear in the size of the file.
    ///
    /// # Errors
    /// `OutOfMemory`: an allocation failed.
    pub fn get_selected_contents(
        &self,
        alloc: Global,
    ) -> Result<(SelectedChanges<'_>, SelectedChanges<'_>), RecordError>
        ensures selected { IfOk result (λ sides. sides.0 ≡ side_of true self.now) }
        ensures unselected { IfOk result (λ sides. sides.1 ≡ side_of false self.now) }
        ensures err { IfErr result (λ error. error ≡ RecordError.OutOfMemory) }
    {
        let (_, tail) = self.tail();
        let (selected, unselected) = join_sides(alloc, tail)?;
        let sides = (self.side(true, selected), self.side(false, unselected));
        Ok(sides)
    }
}
