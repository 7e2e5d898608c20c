//! The text of a side of a file.
ghost use Rattle.std.specs.Prelude.{◌≡◌, ◌∷◌, [], IfOk, OnOk, false};
ghost use Rattle.std.specs.List.{flat_map};
ghost use Rattle.scm_types.specs.Split.{changed_lines, is_binary, section_lines, side_lines, tail_of, takes};
ghost use Rattle.scm_diff.specs.Sides.{closed_text, has_line_end, nothing_yet, side_text, text_of, with_line, with_lines};

use scm_types::{ChangeType, File, OwnedText, Section, SectionChangedLine, Text};
use std::alloc::{AllocError, Global};
use std::marker::Model;

/// A text that is joined line by line.
#[derive(Drop)]
struct Joiner {
    text: String,
    is_open: bool,
}

impl Model for Joiner {
    ghost use Rattle.scm_diff.specs.Sides.{TextSoFar};
    ghost use Rattle.std.specs.Prelude.{string_bytes};

    ghost Value = { TextSoFar };

    ghost view = { λ j. record { text = string_bytes j.text; is_open = j.is_open } };
}

/// Returns whether the text ends with a line end.
fn has_line_end(text: &str) -> bool
    ensures { result ≡ has_line_end text.now }
{
    text.ends_with('\n')
}

/// Returns whether the side has the line.
fn is_taken(line: &SectionChangedLine<'_>, selected: bool) -> bool
    ensures { result ≡ takes selected line.now }
{
    match line.change_type {
        ChangeType::Added => {
            if selected {
                line.is_checked
            } else {
                !line.is_checked
            }
        }
        ChangeType::Removed => {
            if selected {
                !line.is_checked
            } else {
                line.is_checked
            }
        }
    }
}

/// Returns whether the section is binary.
fn is_binary(section: &Section<'_>) -> bool
    ensures { result ≡ is_binary section.now }
{
    matches!(section, Section::Binary { .. })
}

/// Returns the sections after the last binary one, or all if there is none.
fn tail_of<'s, 'a>(sections: &'s [Section<'a>]) -> &'s [Section<'a>]
    ensures { result.now ≡ tail_of sections.now }
{
    let mut start = 0;
    for (i, section) in sections.iter().enumerate() {
        if is_binary(section) {
            start = i + 1;
        }
    }
    &sections[start..]
}

impl Joiner {
    /// Returns a text without lines.
    fn new(alloc: Global) -> Joiner
        ensures { result ≡ nothing_yet }
    {
        Joiner {
            text: String::new(alloc),
            is_open: false,
        }
    }

    /// Adds a line end, if the last line has none.
    fn close(&mut self) -> Result<(), AllocError>
        ensures { OnOk result (self.new ≡ record { text = closed_text self.old; is_open = false }) }
    {
        if self.is_open {
            self.text.push_str("\n")?;
        }
        self.is_open = false;
        Ok(())
    }

    /// Adds `line` at the end.
    fn push(&mut self, line: &Text<'_>) -> Result<(), AllocError>
        ensures { OnOk result (self.new ≡ with_line self.old line.now) }
    {
        self.close()?;
        self.text.push_str(line.as_str())?;
        self.is_open = !has_line_end(line.as_str());
        Ok(())
    }

    /// Adds the context lines.
    fn push_context(&mut self, lines: &[Text<'_>]) -> Result<(), AllocError>
        ensures { OnOk result (self.new ≡ with_lines self.old lines.now) }
    {
        for line in lines {
            self.push(line)?;
        }
        Ok(())
    }

    /// Adds the changed line, if the side has it.
    fn push_change(
        &mut self,
        line: &SectionChangedLine<'_>,
        selected: bool,
    ) -> Result<(), AllocError>
        ensures { OnOk result (self.new
            ≡ with_lines self.old (changed_lines selected (line.now ∷ []))) }
    {
        if is_taken(line, selected) {
            self.push(&line.line)?;
        }
        Ok(())
    }

    /// Adds the changed lines that the side has.
    fn push_changes(
        &mut self,
        lines: &[SectionChangedLine<'_>],
        selected: bool,
    ) -> Result<(), AllocError>
        ensures { OnOk result (self.new ≡ with_lines self.old (changed_lines selected lines.now)) }
    {
        for line in lines {
            self.push_change(line, selected)?;
        }
        Ok(())
    }

    /// Adds the lines of a section that the side has.
    fn push_section(&mut self, section: &Section<'_>, selected: bool) -> Result<(), AllocError>
        ensures { OnOk result (self.new
            ≡ with_lines self.old (section_lines selected section.now)) }
    {
        match section {
            Section::Unchanged { lines } => self.push_context(lines.as_slice()),
            Section::Changed { lines } => self.push_changes(lines.as_slice(), selected),
            Section::FileMode { .. } | Section::Binary { .. } => Ok(()),
        }
    }
}

/// Returns the lines of a side of the sections, joined.
fn join(alloc: Global, sections: &[Section<'_>], selected: bool) -> Result<Joiner, AllocError>
    ensures { IfOk result (λ joiner.
        joiner ≡ with_lines nothing_yet (flat_map (section_lines selected) sections.now)) }
{
    let mut joiner = Joiner::new(alloc);
    for section in sections {
        joiner.push_section(section, selected)?;
    }
    Ok(joiner)
}

/// Returns the text of the lines. A line without a line end gets one where another line follows.
///
/// # Errors
/// `AllocError`: an allocation failed.
pub(crate) fn text_of(alloc: Global, lines: &[Text<'_>]) -> Result<OwnedText, AllocError>
    ensures { IfOk result (λ text. text ≡ text_of lines.now) }
{
    let mut joiner = Joiner::new(alloc);
    joiner.push_context(lines)?;
    let Joiner { text, .. } = joiner;
    Ok(OwnedText::from(text))
}

/// Returns the text of the selected side of `file` if `selected`, or of the other side.
///
/// It has the lines of the split, in order. A line without a line end gets one where another line
/// follows: so two lines are never joined to one.
///
/// # Errors
/// `AllocError`: an allocation failed.
pub fn side_text(alloc: Global, file: &File<'_>, selected: bool) -> Result<OwnedText, AllocError>
    ensures { IfOk result (λ text. text ≡ side_text selected file.now) }
{
    let joiner = join(alloc, tail_of(file.sections.as_slice()), selected)?;
    let Joiner { text, .. } = joiner;
    Ok(OwnedText::from(text))
}
