//! What a step holds: the marks, before an action, of the items that it changes.
ghost use Rattle.std.specs.Prelude.{◌≡◌, ◌-◌, ◌++◌, ◌^◌, IfErr, IfOk, OnOk, Some, drop, min, option_to_list, slice_get, take};
ghost use Rattle.scm_types.specs.declared.keys.SelectionKey.TheVariants as keys;
ghost use Rattle.scm_errors.specs.declared.error.RecordError.TheVariants.{OutOfMemory};
ghost use Rattle.scm_types.specs.Marks.{section_marks};
ghost use Rattle.scm_front_items.specs.Runs.{run_bytes};
ghost use Rattle.scm_front_items.specs.Steps.{agree, bytes_of_runs, changed_runs, changed_step, file_number, file_runs, is_as_run, item_run, marks_at, run_now, runs_now, runs_of_files, runs_of_key, runs_of_range, runs_of_section, section_run, sections_runs, whole_run};
ghost use Rattle.scm_front_items.specs.Targets.{is_as, passes_if_there};

use crate::runs::{Run, Step, is_mode, mark_at, mark_count, marks_of_section};
use crate::targets::{is_as, sections_of};
use scm_types::{File, Items, LineKey, RecordError, Section, SectionKey, SelectionKey};
use std::alloc::Global;

// ---- runs of a state

/// Adds the run of section `index` of file `file` to `runs`, if it has marks.
fn push_whole(
    runs: &mut Items<Run>,
    alloc: Global,
    file: usize,
    index: usize,
    section: &Section<'_>,
) -> Result<(), RecordError>
    ensures ok { OnOk result
        (runs.new ≡ runs.old ++ whole_run file index (section_marks section.now)) }
    ensures err { IfErr result (λ e. e ≡ OutOfMemory) }
{
    if mark_count(section) > 0 {
        let marks = marks_of_section(alloc, section)?;
        runs.push(Run {
            file,
            section: index,
            first: 0,
            marks,
        })?;
    }
    Ok(())
}

/// Adds the run of section `index` of file `file` to `runs`. With `modes_alone` only if it changes the
/// file's mode.
fn push_section(
    runs: &mut Items<Run>,
    alloc: Global,
    modes_alone: bool,
    file: usize,
    index: usize,
    section: &Section<'_>,
) -> Result<(), RecordError>
    ensures ok { OnOk result
        (runs.new ≡ runs.old ++ section_run modes_alone file index section.now) }
    ensures err { IfErr result (λ e. e ≡ OutOfMemory) }
{
    if !modes_alone | is_mode(section) {
        push_whole(runs, alloc, file, index, section)?;
    }
    Ok(())
}

/// Adds the runs of the sections of file `file` to `runs`: all of them, or those alone that change its
/// mode.
fn push_sections(
    runs: &mut Items<Run>,
    alloc: Global,
    modes_alone: bool,
    file: usize,
    sections: &[Section<'_>],
) -> Result<(), RecordError>
    ensures ok { OnOk result
        (runs.new ≡ runs.old ++ sections_runs modes_alone file 0 sections.now) }
    ensures err { IfErr result (λ e. e ≡ OutOfMemory) }
{
    for (index, section) in sections.iter().enumerate() {
        push_section(runs, alloc, modes_alone, file, index, section)?;
    }
    Ok(())
}

/// Adds the runs of file `index` to `runs`, if it is one of `first` to `last`.
fn push_file(
    runs: &mut Items<Run>,
    alloc: Global,
    first: usize,
    last: usize,
    index: usize,
    file: &File<'_>,
) -> Result<(), RecordError>
    ensures ok { OnOk result (runs.new ≡ runs.old ++ file_runs first last index file.now) }
    ensures err { IfErr result (λ e. e ≡ OutOfMemory) }
{
    if (first <= index) & (index <= last) {
        push_sections(runs, alloc, false, index, file.sections.as_slice())?;
    }
    Ok(())
}

/// Returns the runs of files `first` to `last`, both included, counted from 0.
///
/// # Errors
///
/// - `OutOfMemory`: an allocation failed.
pub fn runs_of_files(
    alloc: Global,
    files: &[File<'_>],
    first: usize,
    last: usize,
) -> Result<Items<Run>, RecordError>
    ensures ok { IfOk result (λ runs. runs ≡ runs_of_files first last files.now) }
    ensures err { IfErr result (λ e. e ≡ OutOfMemory) }
{
    let mut runs = Items::new(alloc);
    for (index, file) in files.iter().enumerate() {
        push_file(&mut runs, alloc, first, last, index, file)?;
    }
    Ok(runs)
}

/// Returns the number of the file that `key` names or lies in, or 0.
fn file_number(key: SelectionKey) -> usize
    ensures { result ≡ file_number key }
{
    match key {
        SelectionKey::None => 0,
        SelectionKey::File(key) => key.file_idx,
        SelectionKey::Section(key) => key.file_idx,
        SelectionKey::Line(key) => key.file_idx,
    }
}

/// Returns the runs of the files from that of `a` to that of `b`, whichever of these stands above.
///
/// # Errors
///
/// - `OutOfMemory`: an allocation failed.
pub fn runs_of_range(
    alloc: Global,
    files: &[File<'_>],
    a: SelectionKey,
    b: SelectionKey,
) -> Result<Items<Run>, RecordError>
    ensures ok { IfOk result (λ runs. runs ≡ runs_of_range a b files.now) }
    ensures err { IfErr result (λ e. e ≡ OutOfMemory) }
{
    let from = file_number(a);
    let to = file_number(b);
    runs_of_files(alloc, files, from.min(to), from.max(to))
}

/// Adds what a toggle of `section` may change to `runs`, if it is section `index` of the `sections` of
/// file `file`.
fn push_toggled(
    runs: &mut Items<Run>,
    alloc: Global,
    file: usize,
    index: usize,
    sections: &[Section<'_>],
    section: &Section<'_>,
) -> Result<(), RecordError>
    ensures ok { OnOk result (runs.new
        ≡ runs.old ++ runs_of_section file index sections.now (Some section.now)) }
    ensures err { IfErr result (λ e. e ≡ OutOfMemory) }
{
    if is_mode(section) {
        push_sections(runs, alloc, false, file, sections)
    } else {
        push_sections(runs, alloc, true, file, sections)?;
        push_whole(runs, alloc, file, index, section)
    }
}

/// Returns the runs of all items whose marks a toggle of the section `key` may change.
fn runs_of_section(
    alloc: Global,
    files: &[File<'_>],
    key: SectionKey,
) -> Result<Items<Run>, RecordError>
    ensures ok { IfOk result (λ runs. runs ≡ runs_of_key files.now (keys.Section key)) }
    ensures err { IfErr result (λ e. e ≡ OutOfMemory) }
{
    let mut runs = Items::new(alloc);
    let sections = sections_of(files, key.file_idx);
    match sections.get(key.section_idx) {
        None => {}
        Some(section) => {
            push_toggled(
                &mut runs,
                alloc,
                key.file_idx,
                key.section_idx,
                sections,
                section,
            )?;
        }
    }
    Ok(runs)
}

/// Adds the run of item `item` of a section to `runs`, if its `mark` is there.
fn push_item(
    runs: &mut Items<Run>,
    alloc: Global,
    file: usize,
    section: usize,
    item: usize,
    mark: Option<bool>,
) -> Result<(), RecordError>
    ensures ok { OnOk result (runs.new ≡ runs.old ++ item_run file section item mark) }
    ensures err { IfErr result (λ e. e ≡ OutOfMemory) }
{
    match mark {
        None => Ok(()),
        Some(mark) => {
            let mut marks = Items::new(alloc);
            marks.push(mark)?;
            runs.push(Run {
                file,
                section,
                first: item,
                marks,
            })?;
            Ok(())
        }
    }
}

/// Returns the mark of item `item` of section `section` of file `file`, if it is there.
fn mark_in(files: &[File<'_>], file: usize, section: usize, item: usize) -> Option<bool>
    ensures { result ≡ slice_get (marks_at files.now file section) item }
{
    match sections_of(files, file).get(section) {
        None => None,
        Some(section) => mark_at(section, item),
    }
}

/// Returns the runs of all items whose marks a toggle of the line `key` may change.
fn runs_of_line(alloc: Global, files: &[File<'_>], key: LineKey) -> Result<Items<Run>, RecordError>
    ensures ok { IfOk result (λ runs. runs ≡ runs_of_key files.now (keys.Line key)) }
    ensures err { IfErr result (λ e. e ≡ OutOfMemory) }
{
    let mut runs = Items::new(alloc);
    push_sections(
        &mut runs,
        alloc,
        true,
        key.file_idx,
        sections_of(files, key.file_idx),
    )?;
    let mark = mark_in(files, key.file_idx, key.section_idx, key.line_idx);
    push_item(
        &mut runs,
        alloc,
        key.file_idx,
        key.section_idx,
        key.line_idx,
        mark,
    )?;
    Ok(runs)
}

/// Returns the runs of all items whose marks a toggle of `key` may change.
///
/// # Errors
///
/// - `OutOfMemory`: an allocation failed.
pub fn runs_of_key(
    alloc: Global,
    files: &[File<'_>],
    key: SelectionKey,
) -> Result<Items<Run>, RecordError>
    ensures ok { IfOk result (λ runs. runs ≡ runs_of_key files.now key) }
    ensures err { IfErr result (λ e. e ≡ OutOfMemory) }
{
    match key {
        SelectionKey::None => Ok(Items::new(alloc)),
        SelectionKey::File(key) => runs_of_files(alloc, files, key.file_idx, key.file_idx),
        SelectionKey::Section(key) => runs_of_section(alloc, files, key),
        SelectionKey::Line(key) => runs_of_line(alloc, files, key),
    }
}

// ---- the same items in another state

/// Returns whether the mark of item `index` of `section` is `mark`, if it is there.
fn is_mark_as(section: &Section<'_>, index: usize, mark: bool) -> bool
    ensures { result ≡ passes_if_there (is_as mark) (slice_get (section_marks section.now) index) }
{
    match mark_at(section, index) {
        None => true,
        Some(is_checked) => is_as(mark, is_checked),
    }
}

/// Returns whether the marks of `section` from item `first` on are `marks`, as far as there are any.
pub(crate) fn agree(section: &Section<'_>, first: usize, marks: &[bool]) -> bool
    ensures { result ≡ agree first marks.now (section_marks section.now) }
{
    let end = mark_count(section);
    let mut place = first;
    for mark in marks {
        if place >= end {
            return true;
        }
        if !is_mark_as(section, place, *mark) {
            return false;
        }
        place += 1;
    }
    true
}

/// Returns whether the items of `run` have its marks in `files`.
fn is_as_run(files: &[File<'_>], run: &Run) -> bool
    ensures { result ≡ is_as_run files.now run.now }
{
    match sections_of(files, run.file).get(run.section) {
        None => true,
        Some(section) => agree(section, run.first, run.marks.as_slice()),
    }
}

/// Adds the mark of item `index` of `section` to `marks`, if it is there.
fn push_mark(
    marks: &mut Items<bool>,
    section: &Section<'_>,
    index: usize,
) -> Result<(), RecordError>
    ensures ok { OnOk result (marks.new
        ≡ marks.old ++ option_to_list (slice_get (section_marks section.now) index)) }
    ensures err { IfErr result (λ e. e ≡ OutOfMemory) }
{
    if let Some(mark) = mark_at(section, index) {
        marks.push(mark)?;
    }
    Ok(())
}

/// Adds the marks of `section` from item `first` on to `marks`, at most `count`.
fn push_marks(
    marks: &mut Items<bool>,
    section: &Section<'_>,
    first: usize,
    count: usize,
) -> Result<(), RecordError>
    ensures ok { OnOk result
        (marks.new ≡ marks.old ++ take count (drop first (section_marks section.now))) }
    ensures err { IfErr result (λ e. e ≡ OutOfMemory) }
{
    let end = mark_count(section);
    for index in first..end.min(first.saturating_add(count)) {
        push_mark(marks, section, index)?;
    }
    Ok(())
}

/// Returns the items of `run` with their marks in `files`. Items that are not there are left out.
fn run_now(alloc: Global, files: &[File<'_>], run: &Run) -> Result<Run, RecordError>
    ensures ok { IfOk result (λ now. now ≡ run_now files.now run.now) }
    ensures err { IfErr result (λ e. e ≡ OutOfMemory) }
{
    let mut marks = Items::new(alloc);
    match sections_of(files, run.file).get(run.section) {
        None => {}
        Some(section) => push_marks(&mut marks, section, run.first, run.marks.len())?,
    }
    Ok(Run {
        file: run.file,
        section: run.section,
        first: run.first,
        marks,
    })
}

/// Returns the items of `runs` with their marks in `files`. Items that are not there are left out.
///
/// # Errors
///
/// - `OutOfMemory`: an allocation failed.
pub fn runs_now(alloc: Global, files: &[File<'_>], runs: &[Run]) -> Result<Items<Run>, RecordError>
    ensures ok { IfOk result (λ now. now ≡ runs_now files.now runs.now) }
    ensures err { IfErr result (λ e. e ≡ OutOfMemory) }
{
    let mut now = Items::new(alloc);
    for run in runs {
        now.push(run_now(alloc, files, run)?)?;
    }
    Ok(now)
}

// ---- steps

/// Returns about how many bytes `run` takes.
fn run_bytes(run: &Run) -> usize
    ensures { result ≡ min (run_bytes run.now) (2 ^ 64 - 1) }
{
    run.marks.len().saturating_add(64)
}

/// Returns about how many bytes `runs` take.
fn bytes_of_runs(runs: &[Run]) -> usize
    ensures { result ≡ bytes_of_runs runs.now }
{
    let mut bytes: usize = 0;
    for run in runs {
        bytes = bytes.saturating_add(run_bytes(run));
    }
    bytes
}

/// Returns those of `runs` whose items have other marks in `files`.
fn changed_runs(files: &[File<'_>], runs: Items<Run>) -> Items<Run>
    ensures { result ≡ changed_runs files.now runs }
{
    let mut runs = runs.into_inner();
    runs.retain(|run| !is_as_run(files, run));
    Items::from(runs)
}

/// Returns the step of those `runs` whose items have other marks in `files`.
pub fn changed_step(files: &[File<'_>], runs: Items<Run>) -> Step
    ensures { result ≡ changed_step files.now runs }
{
    let runs = changed_runs(files, runs);
    let bytes = bytes_of_runs(runs.as_slice());
    Step { runs, bytes }
}
