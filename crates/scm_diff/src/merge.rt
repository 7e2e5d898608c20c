//! The changed lines of a hunk, in pairs.
ghost use Rattle.std.specs.Prelude.{◌≡◌, ◌<◌, ◌≤◌, [], ◌∷◌, ◌++◌, ℕ, IfNone, IfOk, IfSome, OnOk, Some, length, map, slice_get};
ghost use Rattle.scm_diff.specs.Pairs.{IsMerge, unchecked_line};

use crate::likeness::partners;
use scm_types::{ChangeType, SectionChangedLine, Text};
use std::alloc::{AllocError, Global};

/// Adds `text` at the end of `lines`, as an unchecked changed line.
fn push_line<'a>(
    lines: &mut Vec<SectionChangedLine<'a>>,
    change_type: ChangeType,
    text: &Text<'a>,
) -> Result<(), AllocError>
    ensures { OnOk result (lines.new.items
        ≡ lines.old.items ++ unchecked_line change_type text.now ∷ []) }
{
    let line = SectionChangedLine {
        is_checked: false,
        change_type,
        line: text.clone()?,
    };
    lines.push(line)?;
    Ok(())
}

/// Adds `texts` at the end of `lines`, as unchecked changed lines.
fn push_lines<'a>(
    lines: &mut Vec<SectionChangedLine<'a>>,
    change_type: ChangeType,
    texts: &[Text<'a>],
) -> Result<(), AllocError>
    ensures { OnOk result (lines.new.items
        ≡ lines.old.items ++ map (unchecked_line change_type) texts.now) }
{
    for text in texts {
        push_line(lines, change_type, text)?;
    }
    Ok(())
}

/// Returns the lines of both sides, paired one by one.
fn paired_lines<'a>(
    alloc: Global,
    removed: &[Text<'a>],
    added: &[Text<'a>],
) -> Result<Vec<SectionChangedLine<'a>>, AllocError>
    requires { length removed.now ≡ length added.now }
    ensures { IfOk result (λ lines. IsMerge removed.now added.now lines.items) }
{
    let mut lines = Vec::with_capacity(alloc, removed.len().saturating_mul(2))?;
    for (i, text) in removed.iter().enumerate() {
        push_line(&mut lines, ChangeType::Removed, text)?;
        push_line(&mut lines, ChangeType::Added, &added[i])?;
    }
    Ok(lines)
}

/// Returns the added line that `partners` names for removed line `i`, if it is line `least` or a
/// later one, and before line `end`.
fn partner_of(partners: &[usize], i: usize, least: usize, end: usize) -> Option<usize>
    ensures some { IfSome result (λ j. (least ≤ j) × (j < end)) }
    ensures none { IfNone result ((j : ℕ) → slice_get partners.now i ≡ Some j
        → least ≤ j → j < end → ⊥) }
{
    let j = match partners.get(i) {
        Some(place) => *place,
        None => return None,
    };
    if j < least {
        return None;
    }
    if j < end { Some(j) } else { None }
}

/// Returns the lines of both sides, merged: each removed line stands before the added line that
/// `partners` names for it, as far as these are in order.
fn merge_by<'a>(
    alloc: Global,
    removed: &[Text<'a>],
    added: &[Text<'a>],
    partners: &[usize],
) -> Result<Vec<SectionChangedLine<'a>>, AllocError>
    requires { ¬ (length removed.now ≡ length added.now) }
    ensures { IfOk result (λ lines. IsMerge removed.now added.now lines.items) }
{
    let count = removed.len().saturating_add(added.len());
    let mut lines = Vec::with_capacity(alloc, count)?;
    let mut next = 0;
    for (i, text) in removed.iter().enumerate() {
        if let Some(j) = partner_of(partners, i, next, added.len()) {
            push_lines(&mut lines, ChangeType::Added, &added[next..j])?;
            push_line(&mut lines, ChangeType::Removed, text)?;
            push_line(&mut lines, ChangeType::Added, &added[j])?;
            next = j + 1;
        } else {
            push_line(&mut lines, ChangeType::Removed, text)?;
        }
    }
    push_lines(&mut lines, ChangeType::Added, &added[next..])?;
    Ok(lines)
}

/// Returns the changed lines of a hunk, unchecked: each removed line stands right before the added
/// line that replaces it.
///
/// As many removed as added lines are paired one by one. Otherwise lines that are like each other
/// are paired, in order. A line without a partner stands alone: removed ones before added ones.
pub(crate) fn merged_lines<'a>(
    alloc: Global,
    removed: &[Text<'a>],
    added: &[Text<'a>],
) -> Result<Vec<SectionChangedLine<'a>>, AllocError>
    ensures { IfOk result (λ lines. IsMerge removed.now added.now lines.items) }
{
    if removed.len() == added.len() {
        return paired_lines(alloc, removed, added);
    }
    let places = partners(alloc, removed, added)?;
    merge_by(alloc, removed, added, places.as_slice())
}
