//! Additions of one line to the last section of a file. A failed addition leaves all as it was.
ghost use Rattle.std.specs.Prelude.{◌≡◌, ◌-◌, ◌∷◌, [], OnErr, OnOk, length};
ghost use Rattle.scm_types.specs.Edits.{modify};
ghost use Rattle.scm_embed.specs.Additions.{changed_line, with_changes, with_context, with_more_changes, with_more_context};

use crate::add::{ends_in_changes, ends_in_context};
use crate::lines::{changed_line, copy_of};
use crate::lists::push_item;
use scm_types::{ChangeType, Items, Section, SectionChangedLine, Text};
use std::alloc::{AllocError, Global};

/// Adds `line` to `section`, if it has context lines.
fn extend_context(
    alloc: Global,
    section: &mut Section<'static>,
    line: Text<'static>,
) -> Result<(), AllocError>
    ensures ok { OnOk result (section.new ≡ with_more_context (line.entry ∷ []) section.old) }
    ensures unchanged { OnErr result (section.new ≡ section.old) }
{
    match section {
        Section::Unchanged { lines } => push_item(alloc, lines, line),
        Section::Changed { .. } | Section::FileMode { .. } | Section::Binary { .. } => Ok(()),
    }
}

/// Adds `line` to `section`, if it has changed lines.
fn extend_changes(
    alloc: Global,
    section: &mut Section<'static>,
    line: SectionChangedLine<'static>,
) -> Result<(), AllocError>
    ensures ok { OnOk result (section.new ≡ with_more_changes (line.entry ∷ []) section.old) }
    ensures unchanged { OnErr result (section.new ≡ section.old) }
{
    match section {
        Section::Changed { lines } => push_item(alloc, lines, line),
        Section::Unchanged { .. } | Section::FileMode { .. } | Section::Binary { .. } => Ok(()),
    }
}

/// Adds `line` to the last of `sections`, if it has context lines.
fn extend_last_context(
    alloc: Global,
    sections: &mut [Section<'static>],
    line: Text<'static>,
) -> Result<(), AllocError>
    ensures ok { OnOk result (sections.new
        ≡ modify (with_more_context (line.entry ∷ [])) sections.old (length sections.old - 1)) }
    ensures unchanged { OnErr result (sections.new ≡ sections.old) }
{
    let last = sections.len().saturating_sub(1);
    if last < sections.len() {
        extend_context(alloc, &mut sections[last], line)
    } else {
        Ok(())
    }
}

/// Adds `line` to the last of `sections`, if it has changed lines.
fn extend_last_changes(
    alloc: Global,
    sections: &mut [Section<'static>],
    line: SectionChangedLine<'static>,
) -> Result<(), AllocError>
    ensures ok { OnOk result (sections.new
        ≡ modify (with_more_changes (line.entry ∷ [])) sections.old (length sections.old - 1)) }
    ensures unchanged { OnErr result (sections.new ≡ sections.old) }
{
    let last = sections.len().saturating_sub(1);
    if last < sections.len() {
        extend_changes(alloc, &mut sections[last], line)
    } else {
        Ok(())
    }
}

/// Adds a copy of `line` at the end of `sections`, as a context line.
pub(crate) fn add_context_line(
    alloc: Global,
    sections: &mut Items<Section<'static>>,
    line: &str,
) -> Result<(), AllocError>
    ensures ok { OnOk result (sections.new ≡ with_context (line.now ∷ []) sections.old) }
    ensures unchanged { OnErr result (sections.new ≡ sections.old) }
{
    let line = copy_of(alloc, line)?;
    if ends_in_context(sections.as_slice()) {
        extend_last_context(alloc, sections.as_mut_slice(), line)
    } else {
        let mut lines: Items<Text<'static>> = Items::new(alloc);
        push_item(alloc, &mut lines, line)?;
        push_item(alloc, sections, Section::Unchanged { lines })
    }
}

/// Adds a copy of `line` at the end of `sections`, as a changed line.
pub(crate) fn add_changed_line(
    alloc: Global,
    sections: &mut Items<Section<'static>>,
    is_checked: bool,
    change_type: ChangeType,
    line: &str,
) -> Result<(), AllocError>
    ensures ok { OnOk result (sections.new
        ≡ with_changes (changed_line is_checked change_type line.now ∷ []) sections.old) }
    ensures unchanged { OnErr result (sections.new ≡ sections.old) }
{
    let line = changed_line(is_checked, change_type, copy_of(alloc, line)?);
    if ends_in_changes(sections.as_slice()) {
        extend_last_changes(alloc, sections.as_mut_slice(), line)
    } else {
        let mut lines: Items<SectionChangedLine<'static>> = Items::new(alloc);
        push_item(alloc, &mut lines, line)?;
        push_item(alloc, sections, Section::Changed { lines })
    }
}
