//! Marks that were: runs of items of a section, with the mark of each.
ghost use Rattle.std.specs.Prelude.{◌≡◌, ◌++◌, false, IfErr, IfOk, OnOk, IsTrue, fold, length, map, slice_get};
ghost use Rattle.scm_types.specs.declared.line.SectionChangedLine.{SectionChangedLine as Line};
ghost use Rattle.scm_errors.specs.declared.error.RecordError.TheVariants.{OutOfMemory};
ghost use Rattle.scm_types.specs.Edits.{modify};
ghost use Rattle.scm_types.specs.Marks.{section_marks};
ghost use Rattle.scm_front_items.specs.Ranges.{is_mode_section};
ghost use Rattle.scm_front_items.specs.Runs.{marks_of_file, marks_of_files, marks_with, overwritten, with_run};

use scm_types::{File, Items, RecordError, Section, SectionChangedLine};
use std::alloc::Global;

/// The marks of some items of a section, from item `first` on. Indexes are counted from 0.
#[derive(Debug, Drop)]
pub struct Run {
    /// The index of the file.
    pub file: usize,
    /// The index of the section in the file.
    pub section: usize,
    /// The index of the first item.
    pub first: usize,
    /// The mark of each item.
    pub marks: Items<bool>,
}

/// Marks that were before an action.
#[derive(Debug, Drop)]
pub struct Step {
    /// The marks, by runs.
    pub runs: Items<Run>,
    /// About how many bytes they take.
    pub bytes: usize,
}

/// The marks of a state, by file and section.
pub type Marks = Items<Items<Items<bool>>>;

// ---- the marks of a state

/// Adds the marks of `lines` to `marks`.
fn push_line_marks(
    marks: &mut Items<bool>,
    lines: &[SectionChangedLine<'_>],
) -> Result<(), RecordError>
    ensures ok { OnOk result
        (marks.new ≡ marks.old ++ map (λ (l : Line). l.is_checked) lines.now) }
    ensures err { IfErr result (λ e. e ≡ OutOfMemory) }
{
    for line in lines {
        marks.push(line.is_checked)?;
    }
    Ok(())
}

/// Returns the marks of `section`, in order.
pub(crate) fn marks_of_section(
    alloc: Global,
    section: &Section<'_>,
) -> Result<Items<bool>, RecordError>
    ensures ok { IfOk result (λ marks. marks ≡ section_marks section.now) }
    ensures err { IfErr result (λ e. e ≡ OutOfMemory) }
{
    let mut marks = Items::new(alloc);
    match section {
        Section::Unchanged { .. } => {}
        Section::Changed { lines } => push_line_marks(&mut marks, lines.as_slice())?,
        Section::FileMode { is_checked, .. } => marks.push(*is_checked)?,
        Section::Binary { is_checked, .. } => marks.push(*is_checked)?,
    }
    Ok(marks)
}

/// Returns the marks of `file`, by section.
fn marks_of_file(alloc: Global, file: &File<'_>) -> Result<Items<Items<bool>>, RecordError>
    ensures ok { IfOk result (λ marks. marks ≡ marks_of_file file.now) }
    ensures err { IfErr result (λ e. e ≡ OutOfMemory) }
{
    let mut marks = Items::new(alloc);
    for section in file.sections.as_slice() {
        marks.push(marks_of_section(alloc, section)?)?;
    }
    Ok(marks)
}

/// Returns the marks of `files`, by file and section.
///
/// # Errors
///
/// - `OutOfMemory`: an allocation failed.
pub fn marks_of_files(alloc: Global, files: &[File<'_>]) -> Result<Marks, RecordError>
    ensures ok { IfOk result (λ marks. marks ≡ marks_of_files files.now) }
    ensures err { IfErr result (λ e. e ≡ OutOfMemory) }
{
    let mut marks = Items::new(alloc);
    for file in files {
        marks.push(marks_of_file(alloc, file)?)?;
    }
    Ok(marks)
}

/// Returns the mark of item `index` of `section`, counted from 0, if there is one.
pub(crate) fn mark_at(section: &Section<'_>, index: usize) -> Option<bool>
    ensures { result ≡ slice_get (section_marks section.now) index }
{
    match section {
        Section::Unchanged { .. } => None,
        Section::Changed { lines } => lines.get(index).map(|line| line.is_checked),
        Section::FileMode { is_checked, .. } if index == 0 => Some(*is_checked),
        Section::Binary { is_checked, .. } if index == 0 => Some(*is_checked),
        Section::FileMode { .. } | Section::Binary { .. } => None,
    }
}

/// Returns the number of marks of `section`.
pub(crate) fn mark_count(section: &Section<'_>) -> usize
    ensures { result ≡ length (section_marks section.now) }
{
    match section {
        Section::Unchanged { .. } => 0,
        Section::Changed { lines } => lines.len(),
        Section::FileMode { .. } | Section::Binary { .. } => 1,
    }
}

/// Returns whether `section` changes the mode of its file.
pub(crate) fn is_mode(section: &Section<'_>) -> bool
    ensures { result ≡ is_mode_section section.now }
{
    match section {
        Section::FileMode { .. } => true,
        Section::Unchanged { .. } | Section::Changed { .. } | Section::Binary { .. } => false,
    }
}

/// Returns whether `section` has exactly `marks`.
fn has_marks(section: &Section<'_>, marks: &[bool]) -> bool
    ensures same { IsTrue result → section_marks section.now ≡ marks.now }
    ensures unlike { result ≡ false → section_marks section.now ≡ marks.now → ⊥ }
{
    if mark_count(section) != marks.len() {
        return false;
    }
    for index in 0..marks.len() {
        match mark_at(section, index) {
            Some(mark) if mark == marks[index] => {}
            Some(_) | None => return false,
        }
    }
    true
}

/// Returns whether `sections` have exactly `marks`, one list a section.
fn have_marks(sections: &[Section<'_>], marks: &[Items<bool>]) -> bool
    ensures same { IsTrue result → map section_marks sections.now ≡ marks.now }
    ensures unlike { result ≡ false → map section_marks sections.now ≡ marks.now → ⊥ }
{
    if sections.len() != marks.len() {
        return false;
    }
    for index in 0..marks.len() {
        if !has_marks(&sections[index], marks[index].as_slice()) {
            return false;
        }
    }
    true
}

/// Returns whether the marks of `files` are exactly `marks`.
pub fn are_marks(files: &[File<'_>], marks: &[Items<Items<bool>>]) -> bool
    ensures same { IsTrue result → marks_of_files files.now ≡ marks.now }
    ensures unlike { result ≡ false → marks_of_files files.now ≡ marks.now → ⊥ }
{
    if files.len() != marks.len() {
        return false;
    }
    for index in 0..marks.len() {
        if !have_marks(files[index].sections.as_slice(), marks[index].as_slice()) {
            return false;
        }
    }
    true
}

// ---- a step over them

/// Writes `marks` over those of `old`, from index `first` on.
fn overwrite_slice(old: &mut [bool], first: usize, marks: &[bool])
    ensures { old.new ≡ overwritten first marks.now old.old }
{
    let mut place = first;
    for mark in marks {
        if place >= old.len() {
            return;
        }
        old[place] = *mark;
        place += 1;
    }
}

/// Writes `marks` over those of `old`, from index `first` on.
fn overwrite(old: &mut Items<bool>, first: usize, marks: &[bool])
    ensures { old.new ≡ overwritten first marks.now old.old }
{
    overwrite_slice(old.as_mut_slice(), first, marks);
}

/// Writes the marks of `run` over those of its section.
fn overwrite_section(sections: &mut [Items<bool>], run: &Run)
    ensures { sections.new
        ≡ modify (overwritten run.now.first run.now.marks) sections.old run.now.section }
{
    if run.section < sections.len() {
        overwrite(&mut sections[run.section], run.first, run.marks.as_slice());
    }
}

/// Writes the marks of `run` over those of its file.
fn overwrite_file(sections: &mut Items<Items<bool>>, run: &Run)
    ensures { sections.new
        ≡ modify (overwritten run.now.first run.now.marks) sections.old run.now.section }
{
    overwrite_section(sections.as_mut_slice(), run);
}

/// Writes the marks of `run` over `files`.
fn overwrite_run(files: &mut [Items<Items<bool>>], run: &Run)
    ensures { files.new ≡ with_run files.old run.now }
{
    if run.file < files.len() {
        overwrite_file(&mut files[run.file], run);
    }
}

/// Writes the marks of `runs` over `files`.
fn overwrite_runs(files: &mut [Items<Items<bool>>], runs: &[Run])
    ensures { files.new ≡ fold with_run files.old runs.now }
{
    for run in runs {
        overwrite_run(files, run);
    }
}

/// Returns `marks` with those of `step` written over them.
pub fn marks_with(marks: Marks, step: &Step) -> Marks
    ensures { result ≡ marks_with step.now marks }
{
    let mut marks = marks;
    overwrite_runs(marks.as_mut_slice(), step.runs.as_slice());
    marks
}
