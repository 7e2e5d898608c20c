//! The sections of a merge.
ghost use Rattle.std.specs.Prelude.{◌≡◌, ◌++◌, ◌∷◌, [], IfOk, OnOk, false, map, slice_range, true};
ghost use Rattle.scm_diff.specs.Sections.{context_sections};
ghost use Rattle.scm_merge.specs.Parts.{Agreed, conflict_of, outcomes_from, outcomes_of, part_at};
ghost use Rattle.scm_merge.specs.Regions.{AreRegions};
ghost use Rattle.scm_merge.specs.Sections.{Continues, IsRegionWithin, conflict_sections, items_of, marked_line, nothing_chosen, sections_from, version_section};

use crate::lines::{push_lines, same_lines, shared_end, shared_start};
use crate::region::Region;
use scm_types::{ChangeType, Items, Section, SectionChangedLine, Text};
use std::alloc::{AllocError, Global};
use std::mem;

/// Adds a section of the context that is pending, if there is any, at the end of `sections`. Nothing
/// is pending then.
fn flush<'a>(
    alloc: Global,
    sections: &mut Vec<Section<'a>>,
    pending: &mut Vec<Text<'a>>,
) -> Result<(), AllocError>
    ensures sections { OnOk result (sections.new.items
        ≡ sections.old.items ++ context_sections pending.old.items) }
    ensures pending { OnOk result (pending.new.items ≡ []) }
{
    if pending.is_empty() {
        return Ok(());
    }
    let lines = mem::replace(pending, Vec::new(alloc));
    sections.push(Section::Unchanged {
        lines: Items::from(lines),
    })?;
    Ok(())
}

/// Returns the changed line with this mark.
fn marked_line<'a>(
    is_checked: bool,
    change_type: ChangeType,
    line: Text<'a>,
) -> SectionChangedLine<'a>
    ensures { result ≡ marked_line is_checked change_type line.entry }
{
    SectionChangedLine {
        is_checked,
        change_type,
        line,
    }
}

/// Returns the items of one version in a conflict.
fn items<'a>(
    alloc: Global,
    is_checked: bool,
    change_type: ChangeType,
    lines: &[Text<'a>],
) -> Result<Vec<SectionChangedLine<'a>>, AllocError>
    ensures { IfOk result (λ items.
        items.items ≡ map (marked_line is_checked change_type) (items_of lines.now)) }
{
    let mut items = Vec::with_capacity(alloc, lines.len())?;
    if lines.is_empty() {
        items.push(marked_line(is_checked, change_type, Text::from("")))?;
        return Ok(items);
    }
    for line in lines {
        items.push(marked_line(is_checked, change_type, line.clone()?))?;
    }
    Ok(items)
}

/// Adds the section of one version in a conflict at the end of `sections`.
fn push_version<'a>(
    alloc: Global,
    sections: &mut Vec<Section<'a>>,
    is_checked: bool,
    change_type: ChangeType,
    lines: &[Text<'a>],
) -> Result<(), AllocError>
    ensures { OnOk result (sections.new.items
        ≡ sections.old.items ++ version_section is_checked change_type lines.now ∷ []) }
{
    let found = items(alloc, is_checked, change_type, lines)?;
    sections.push(Section::Changed {
        lines: Items::from(found),
    })?;
    Ok(())
}

/// Adds the sections of a conflict at the end of `sections`, with nothing chosen.
fn push_conflict<'a>(
    alloc: Global,
    sections: &mut Vec<Section<'a>>,
    base: &[Text<'a>],
    ours: &[Text<'a>],
    theirs: &[Text<'a>],
) -> Result<(), AllocError>
    ensures { OnOk result (sections.new.items ≡ sections.old.items
        ++ conflict_sections nothing_chosen base.now ours.now theirs.now) }
{
    push_version(alloc, sections, false, ChangeType::Added, ours)?;
    push_version(alloc, sections, true, ChangeType::Removed, base)?;
    push_version(alloc, sections, false, ChangeType::Added, theirs)?;
    Ok(())
}

/// Adds what becomes of a part of which no two lists are equal: the sections of a conflict, and the
/// lines that ours and theirs share around it to the context.
fn push_conflict_part<'a>(
    alloc: Global,
    sections: &mut Vec<Section<'a>>,
    pending: &mut Vec<Text<'a>>,
    base: &[Text<'a>],
    ours: &[Text<'a>],
    theirs: &[Text<'a>],
) -> Result<(), AllocError>
    ensures { OnOk result (Continues
        (conflict_of (record { base = base.now; ours = ours.now; theirs = theirs.now }))
        sections.old.items sections.new.items pending.old.items pending.new.items) }
{
    let start = shared_start(ours, theirs);
    let end = shared_end(&ours[start..], &theirs[start..]);
    push_lines(pending, &ours[..start])?;
    flush(alloc, sections, pending)?;
    let our_lines = &ours[start..ours.len() - end];
    let their_lines = &theirs[start..theirs.len() - end];
    push_conflict(alloc, sections, base, our_lines, their_lines)?;
    push_lines(pending, &ours[ours.len() - end..])?;
    Ok(())
}

/// Adds what becomes of a part: lines to the context that is pending, or a conflict.
fn push_part<'a>(
    alloc: Global,
    sections: &mut Vec<Section<'a>>,
    pending: &mut Vec<Text<'a>>,
    base: &[Text<'a>],
    ours: &[Text<'a>],
    theirs: &[Text<'a>],
) -> Result<(), AllocError>
    ensures { OnOk result (Continues
        (outcomes_of (record { base = base.now; ours = ours.now; theirs = theirs.now }))
        sections.old.items sections.new.items pending.old.items pending.new.items) }
{
    if same_lines(ours, base) {
        push_lines(pending, theirs)?;
        return Ok(());
    }
    if same_lines(theirs, base) {
        push_lines(pending, ours)?;
        return Ok(());
    }
    if same_lines(ours, theirs) {
        push_lines(pending, ours)?;
        return Ok(());
    }
    push_conflict_part(alloc, sections, pending, base, ours, theirs)?;
    Ok(())
}

/// Adds the common lines from line `done` of the base on, and what becomes of the region after them.
fn push_region<'a>(
    alloc: Global,
    sections: &mut Vec<Section<'a>>,
    pending: &mut Vec<Text<'a>>,
    base: &[Text<'a>],
    ours: &[Text<'a>],
    theirs: &[Text<'a>],
    done: usize,
    region: Region,
) -> Result<(), AllocError>
    requires { IsRegionWithin base.now ours.now theirs.now done region }
    ensures { OnOk result (Continues
        (Agreed (slice_range base.now done region.base_start)
        ∷ outcomes_of (part_at base.now ours.now theirs.now region))
        sections.old.items sections.new.items pending.old.items pending.new.items) }
{
    push_lines(pending, &base[done..region.base_start])?;
    let base_part = &base[region.base_start..region.base_end];
    let our_part = &ours[region.ours_start..region.ours_end];
    let their_part = &theirs[region.theirs_start..region.theirs_end];
    push_part(alloc, sections, pending, base_part, our_part, their_part)?;
    Ok(())
}

/// Returns the sections of the merge of three lists of lines that differ in the regions.
pub(crate) fn merge_sections<'a>(
    alloc: Global,
    base: &[Text<'a>],
    ours: &[Text<'a>],
    theirs: &[Text<'a>],
    regions: &[Region],
) -> Result<Vec<Section<'a>>, AllocError>
    requires { AreRegions base.now ours.now theirs.now regions.now }
    ensures { IfOk result (λ sections. sections.items ≡ sections_from nothing_chosen []
        (outcomes_from base.now ours.now theirs.now 0 regions.now)) }
{
    let mut sections = Vec::new(alloc);
    let mut pending = Vec::new(alloc);
    let mut done = 0;
    for region in regions {
        push_region(
            alloc,
            &mut sections,
            &mut pending,
            base,
            ours,
            theirs,
            done,
            *region,
        )?;
        done = region.base_end;
    }
    push_lines(&mut pending, &base[done..])?;
    flush(alloc, &mut sections, &mut pending)?;
    Ok(sections)
}
