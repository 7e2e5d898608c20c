//! Joins the texts of the two sides of a split.
ghost use Rattle.std.specs.Prelude.{◌≡◌, IfOk, OnOk, true, false, [], ◌∷◌};
ghost use Rattle.std.specs.List.{flat_map};
ghost use Rattle.scm_types.specs.Joined.{text_of_lines, with_lines, no_lines};
ghost use Rattle.scm_types.specs.Split.{changed_lines, section_lines};

use crate::line::SectionChangedLine;
use crate::section::Section;
use crate::text::Text;
use std::alloc::{AllocError, Global};
use std::marker::Model;

/// The lines of a side, joined.
#[derive(Drop)]
pub(crate) struct SideText {
    /// The lines, joined.
    pub(crate) text: String,

    /// Whether there is a line, which can be empty.
    pub(crate) has_line: bool,
}

impl Model for SideText {
    ghost use Rattle.scm_types.specs.Joined.{Joined};
    ghost use Rattle.std.specs.Prelude.{string_bytes};

    ghost Value = { Joined };

    ghost view = { λ s. record { text = string_bytes s.text; has_line = s.has_line } };
}

impl SideText {
    /// Returns a text without lines.
    pub(crate) fn new(alloc: Global) -> SideText
        ensures { result ≡ no_lines }
    {
        SideText {
            text: String::new(alloc),
            has_line: false,
        }
    }

    /// Adds `line` at the end.
    fn push(&mut self, line: &Text<'_>) -> Result<(), AllocError>
        ensures { OnOk result (self.new ≡ with_lines self.old (line.now ∷ [])) }
    {
        self.text.push_str(line.as_str())?;
        self.has_line = true;
        Ok(())
    }
}

/// Adds context lines to both sides.
fn push_context(
    lines: &[Text<'_>],
    selected: &mut SideText,
    unselected: &mut SideText,
) -> Result<(), AllocError>
    ensures selected { OnOk result (selected.new ≡ with_lines selected.old lines.now) }
    ensures unselected { OnOk result (unselected.new ≡ with_lines unselected.old lines.now) }
{
    for line in lines {
        selected.push(line)?;
        unselected.push(line)?;
    }
    Ok(())
}

/// Adds each changed line to its side.
fn push_changes(
    lines: &[SectionChangedLine<'_>],
    selected: &mut SideText,
    unselected: &mut SideText,
) -> Result<(), AllocError>
    ensures selected { OnOk result
        (selected.new ≡ with_lines selected.old (changed_lines true lines.now)) }
    ensures unselected { OnOk result
        (unselected.new ≡ with_lines unselected.old (changed_lines false lines.now)) }
{
    for line in lines {
        if line.is_selected() {
            selected.push(&line.line)?;
        } else {
            unselected.push(&line.line)?;
        }
    }
    Ok(())
}

/// Adds the lines of a section to their sides.
fn push_section(
    section: &Section<'_>,
    selected: &mut SideText,
    unselected: &mut SideText,
) -> Result<(), AllocError>
    ensures selected { OnOk result
        (selected.new ≡ with_lines selected.old (section_lines true section.now)) }
    ensures unselected { OnOk result
        (unselected.new ≡ with_lines unselected.old (section_lines false section.now)) }
{
    match section {
        Section::Unchanged { lines } => push_context(lines.as_slice(), selected, unselected),
        Section::Changed { lines } => push_changes(lines.as_slice(), selected, unselected),
        Section::FileMode { .. } | Section::Binary { .. } => Ok(()),
    }
}

/// Returns the texts of the selected side and of the other side of `sections`.
pub(crate) fn join_sides(
    alloc: Global,
    sections: &[Section<'_>],
) -> Result<(SideText, SideText), AllocError>
    ensures selected { IfOk result
        (λ sides. sides.0 ≡ text_of_lines (flat_map (section_lines true) sections.now)) }
    ensures unselected { IfOk result
        (λ sides. sides.1 ≡ text_of_lines (flat_map (section_lines false) sections.now)) }
{
    let mut selected = SideText::new(alloc);
    let mut unselected = SideText::new(alloc);
    for section in sections {
        push_section(section, &mut selected, &mut unselected)?;
    }
    Ok((selected, unselected))
}
