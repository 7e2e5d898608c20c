//! The sections of the lines of a file that differs.
ghost use Rattle.std.specs.Prelude.{◌≡◌, ◌++◌, IfOk, OnOk};
ghost use Rattle.scm_diff.specs.Hunks.{AreHunks};
ghost use Rattle.scm_diff.specs.Sections.{AreHunkSections, AreSections, HasMore, IsWithin, context_sections};

use crate::hunk::Hunk;
use crate::merge::merged_lines;
use scm_types::{Items, Section, Text};
use std::alloc::{AllocError, Global};

/// Returns a copy of `lines`, which borrows what they borrow.
fn copy_of<'a>(alloc: Global, lines: &[Text<'a>]) -> Result<Vec<Text<'a>>, AllocError>
    ensures { IfOk result (λ copy. copy.items ≡ lines.now) }
{
    let mut copy = Vec::with_capacity(alloc, lines.len())?;
    for line in lines {
        copy.push(line.clone()?)?;
    }
    Ok(copy)
}

/// Adds a section of the context lines at the end of `sections`, if there are any.
fn push_context<'a>(
    alloc: Global,
    sections: &mut Vec<Section<'a>>,
    lines: &[Text<'a>],
) -> Result<(), AllocError>
    ensures { OnOk result (sections.new.items ≡ sections.old.items ++ context_sections lines.now) }
{
    if lines.is_empty() {
        return Ok(());
    }
    let copy = copy_of(alloc, lines)?;
    let section = Section::Unchanged {
        lines: Items::from(copy),
    };
    sections.push(section)?;
    Ok(())
}

/// Adds the context from line `done` of `old` on and the lines of `hunk` at the end of `sections`.
fn push_hunk_sections<'a>(
    alloc: Global,
    sections: &mut Vec<Section<'a>>,
    old: &[Text<'a>],
    new: &[Text<'a>],
    done: usize,
    hunk: Hunk,
) -> Result<(), AllocError>
    requires { IsWithin old.now new.now done hunk }
    ensures { OnOk result (HasMore (AreHunkSections old.now new.now done hunk)
        sections.old.items sections.new.items) }
{
    push_context(alloc, sections, &old[done..hunk.old_start])?;
    let removed = &old[hunk.old_start..hunk.old_end];
    let added = &new[hunk.new_start..hunk.new_end];
    let lines = merged_lines(alloc, removed, added)?;
    sections.push(Section::Changed {
        lines: Items::from(lines),
    })?;
    Ok(())
}

/// Adds the sections of the lines of `old` and `new`, which differ by `hunks`, at the end of
/// `sections`.
pub(crate) fn push_line_sections<'a>(
    alloc: Global,
    sections: &mut Vec<Section<'a>>,
    old: &[Text<'a>],
    new: &[Text<'a>],
    hunks: &[Hunk],
) -> Result<(), AllocError>
    requires { AreHunks old.now new.now hunks.now }
    ensures { OnOk result (HasMore (AreSections old.now new.now 0 hunks.now)
        sections.old.items sections.new.items) }
{
    let mut done = 0;
    for hunk in hunks {
        push_hunk_sections(alloc, sections, old, new, done, *hunk)?;
        done = hunk.old_end;
    }
    push_context(alloc, sections, &old[done..])?;
    Ok(())
}
