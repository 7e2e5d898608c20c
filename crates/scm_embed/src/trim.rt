//! Lists without unused room.
ghost use Rattle.std.specs.Prelude.{◌≡◌};

use crate::lists::take_list;
use scm_types::{File, Items, RecordState, Section};
use std::alloc::Global;

/// Gives back the room of `list` that no element uses, if a smaller block can be allocated.
fn trim_list<T: Drop>(alloc: Global, list: &mut Items<T>)
    ensures { list.new ≡ list.old }
{
    let mut all = take_list(alloc, list);
    all.shrink_to_fit();
    *list = Items::from(all);
}

/// Gives back the unused room of the lines of `section`.
fn trim_section(alloc: Global, section: &mut Section<'static>)
    ensures { section.new ≡ section.old }
{
    match section {
        Section::Unchanged { lines } => trim_list(alloc, lines),
        Section::Changed { lines } => trim_list(alloc, lines),
        Section::FileMode { .. } | Section::Binary { .. } => {}
    }
}

/// Gives back the unused room of the lines of each of `sections`.
fn trim_sections(alloc: Global, sections: &mut [Section<'static>])
    ensures { sections.new ≡ sections.old }
{
    for section in sections.iter_mut() {
        trim_section(alloc, section);
    }
}

/// Gives back the unused room of the sections of `file`, and of their lines.
fn trim_file(alloc: Global, file: &mut File<'static>)
    ensures { file.new ≡ file.old }
{
    trim_sections(alloc, file.sections.as_mut_slice());
    trim_list(alloc, &mut file.sections);
}

/// Gives back the unused room of each of `files`.
fn trim_files(alloc: Global, files: &mut [File<'static>])
    ensures { files.new ≡ files.old }
{
    for file in files.iter_mut() {
        trim_file(alloc, file);
    }
}

/// Returns `state` with its lists in no more room than they use, as far as memory can be had.
pub(crate) fn trimmed_state(state: RecordState<'static>) -> RecordState<'static>
    ensures { result ≡ state.entry }
{
    let RecordState {
        is_read_only,
        commits,
        files,
    } = state;
    let mut files = files.into_inner();
    let alloc = *files.allocator();
    trim_files(alloc, files.as_mut_slice());
    files.shrink_to_fit();
    RecordState {
        is_read_only,
        commits,
        files: Items::from(files),
    }
}
