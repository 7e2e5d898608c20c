//! The repair of a file's marks: it makes them fit each other after some were toggled alone.
ghost use Rattle.std.specs.Prelude.{◌≡◌, map, not};
ghost use Rattle.std.specs.List.{list_any};
ghost use Rattle.scm_types.specs.Repair.{file_after_repair, some_line, with_creation, with_deletion_unchecked, with_mode_checked, without_deletion};
ghost use Rattle.scm_types.specs.Same.{line_marks};

use crate::file::File;
use crate::file_mode::FileMode;
use crate::line::SectionChangedLine;
use crate::section::Section;

/// Returns whether some of `lines` is unchecked.
fn is_some_unchecked(lines: &[SectionChangedLine<'_>]) -> bool
    ensures { result ≡ list_any (λ line. not line.is_checked) lines.now }
{
    lines.iter().any(|line| !line.is_checked)
}

/// Returns whether some of `lines` is checked.
fn is_some_checked(lines: &[SectionChangedLine<'_>]) -> bool
    ensures { result ≡ list_any (λ line. line.is_checked) lines.now }
{
    lines.iter().any(|line| line.is_checked)
}

/// Returns whether some changed line of the section is unchecked.
fn has_unchecked_line(section: &Section<'_>) -> bool
    ensures { result ≡ list_any not (line_marks section.now) }
{
    match section {
        Section::Changed { lines } => is_some_unchecked(lines.as_slice()),
        Section::Unchanged { .. } | Section::FileMode { .. } | Section::Binary { .. } => false,
    }
}

/// Returns whether some changed line of the section is checked.
fn has_checked_line(section: &Section<'_>) -> bool
    ensures { result ≡ list_any (λ b. b) (line_marks section.now) }
{
    match section {
        Section::Changed { lines } => is_some_checked(lines.as_slice()),
        Section::Unchanged { .. } | Section::FileMode { .. } | Section::Binary { .. } => false,
    }
}

/// Returns whether some changed line of the sections is unchecked.
fn is_some_line_unchecked(sections: &[Section<'_>]) -> bool
    ensures { result ≡ some_line not sections.now }
{
    sections.iter().any(|section| has_unchecked_line(section))
}

/// Returns whether some changed line of the sections is checked.
fn is_some_line_checked(sections: &[Section<'_>]) -> bool
    ensures { result ≡ some_line (λ b. b) sections.now }
{
    sections.iter().any(|section| has_checked_line(section))
}

/// Unchecks the section if it deletes the file.
fn uncheck_deletion(section: &mut Section<'_>)
    ensures { section.new ≡ with_deletion_unchecked section.old }
{
    match section {
        Section::FileMode { is_checked, mode } => {
            if mode.is_absent() {
                *is_checked = false;
            }
        }
        Section::Unchanged { .. } | Section::Changed { .. } | Section::Binary { .. } => {}
    }
}

/// Checks the section if it changes the mode.
fn check_mode(section: &mut Section<'_>)
    ensures { section.new ≡ with_mode_checked section.old }
{
    match section {
        Section::FileMode { is_checked, .. } => {
            *is_checked = true;
        }
        Section::Unchanged { .. } | Section::Changed { .. } | Section::Binary { .. } => {}
    }
}

/// Unchecks each section of `sections` that deletes the file.
pub fn uncheck_deletions(sections: &mut [Section<'_>])
    ensures { sections.new ≡ map with_deletion_unchecked sections.old }
{
    for section in sections.iter_mut() {
        uncheck_deletion(section);
    }
}

/// Checks each section of `sections` that changes the file's mode.
pub fn check_modes(sections: &mut [Section<'_>])
    ensures { sections.new ≡ map with_mode_checked sections.old }
{
    for section in sections.iter_mut() {
        check_mode(section);
    }
}

/// Unchecks every deletion if some changed line is unchecked.
fn mend_deletions(sections: &mut [Section<'_>])
    ensures { sections.new ≡ without_deletion sections.old }
{
    if is_some_line_unchecked(sections) {
        uncheck_deletions(sections);
    }
}

/// Checks every mode change if some changed line is checked and `mode` is absent: the file is new.
fn mend_creation(mode: FileMode, sections: &mut [Section<'_>])
    ensures { sections.new ≡ with_creation mode sections.old }
{
    // `&`: one branch for the prover
    let is_made = mode.is_absent() & is_some_line_checked(sections);
    if is_made {
        check_modes(sections);
    }
}

impl<'a> File<'a> {
    /// Makes the marks of the file fit each other, in two steps.
    ///
    /// First, if some changed line is unchecked, unchecks each mode change to
    /// [`FileMode::Absent`]. Then, if the file's own mode is absent and some changed line is
    /// checked, checks each mode change.
    pub fn repair(&mut self)
        ensures { self.new ≡ file_after_repair self.old }
    {
        mend_deletions(self.sections.as_mut_slice());
        mend_creation(self.file_mode, self.sections.as_mut_slice());
    }
}
