//! The lines of a text, as owned texts.
ghost use Rattle.std.specs.Prelude.{◌≡◌, ◌<◌, [], ◌∷◌, ◌++◌, IfNone, IfOk, IfSome, OnErr, OnOk, length, string_bytes};
ghost use Rattle.std.specs.List.{list_all};
ghost use Rattle.scm_types.specs.Limits.{is_short_text};
ghost use Rattle.scm_embed.specs.Lines.{BeginsWith, last_line, lines_of};
ghost use Rattle.scm_embed.specs.Additions.{changed_line, changed_lines};

use crate::lists::{make_room, put_list, take_list};
use crate::short_lines::short_line;
use scm_types::{ChangeType, Items, RecordState, SectionChangedLine, Text};
use std::alloc::{AllocError, Global};

/// Returns the first line of `text`, without its line end, and the text after it. Returns `None` if
/// there is no line end.
fn split_line(text: &str) -> Option<(&str, &str)>
    ensures none { IfNone result (lines_of text.now ≡ last_line text.now) }
    ensures some { IfSome result (λ parts.
        lines_of text.now ≡ (parts.0.now ++ 10 ∷ []) ∷ lines_of parts.1.now) }
    ensures shorter { IfSome result (λ parts. length parts.1.now < length text.now) }
{
    text.split_once('\n')
}

/// Returns whether `line` is within the limit with its line end.
fn is_short_with_end(line: &str) -> bool
    ensures { result ≡ is_short_text (line.now ++ 10 ∷ []) }
{
    line.len() < RecordState::MAX_TEXT
}

/// Returns whether each line of `text` is within the limit.
pub fn has_short_lines(text: &str) -> bool
    ensures { result ≡ list_all is_short_text (lines_of text.now) }
{
    if text.len() <= RecordState::MAX_TEXT {
        return true;
    }
    let mut rest = text;
    'cuts: while let Some((line, after)) = split_line(rest) {
        if !is_short_with_end(line) {
            return false;
        }
        rest = after;
    }
    rest.len() <= RecordState::MAX_TEXT
}

/// Returns how many lines `text` has, if it is not empty.
fn count_lines(text: &str) -> usize {
    let bytes = text.as_bytes();
    let ends = bytes.iter().filter(|byte| **byte == b'\n').count();
    if text.ends_with('\n') {
        ends
    } else {
        ends.saturating_add(1)
    }
}

/// Returns a copy of `text`.
pub(crate) fn copy_of(alloc: Global, text: &str) -> Result<Text<'static>, AllocError>
    ensures { IfOk result (λ copy. copy ≡ text.now) }
{
    let copy = String::from_str(alloc, text)?;
    Ok(Text::from(copy))
}

/// Returns a copy of `line` with a line end.
fn copy_with_line_end(alloc: Global, line: &str) -> Result<Text<'static>, AllocError>
    ensures { IfOk result (λ copy. copy ≡ line.now ++ 10 ∷ []) }
{
    let mut copy = String::with_capacity(alloc, line.len().saturating_add(1))?;
    copy.push_str(line)?;
    copy.push_str("\n")?;
    Ok(Text::from(copy))
}

/// Returns `line` with a line end. The shortest lines allocate nothing.
fn with_line_end(alloc: Global, line: &str) -> Result<Text<'static>, AllocError>
    ensures { IfOk result (λ text. text ≡ line.now ++ 10 ∷ []) }
{
    match short_line(line) {
        Some(short) => Ok(Text::from(short)),
        None => copy_with_line_end(alloc, line),
    }
}

/// Adds the lines of `text` at the end of `list`. If an allocation fails, some of them are added.
fn push_context(alloc: Global, list: &mut Vec<Text<'static>>, text: &str) -> Result<(), AllocError>
    ensures ok { OnOk result (list.new.items ≡ list.old.items ++ lines_of text.now) }
    ensures begins { BeginsWith list.old.items list.new.items }
{
    make_room(list, count_lines(text))?;
    let mut rest = text;
    'cuts: while let Some((line, after)) = split_line(rest) {
        list.push(with_line_end(alloc, line)?)?;
        rest = after;
    }
    if !rest.is_empty() {
        list.push(copy_of(alloc, rest)?)?;
    }
    Ok(())
}

/// Adds the lines of `text` at the end of `list`.
pub(crate) fn append_context(
    alloc: Global,
    list: &mut Items<Text<'static>>,
    text: &str,
) -> Result<(), AllocError>
    ensures ok { OnOk result (list.new ≡ list.old ++ lines_of text.now) }
    ensures unchanged { OnErr result (list.new ≡ list.old) }
{
    let mut all = take_list(alloc, list);
    let before = all.len();
    let done = push_context(alloc, &mut all, text);
    put_list(list, all, before, done.is_ok());
    done
}

/// Returns the changed line with `line` as its text.
pub(crate) fn changed_line(
    is_checked: bool,
    change_type: ChangeType,
    line: Text<'static>,
) -> SectionChangedLine<'static>
    ensures { result ≡ changed_line is_checked change_type line.entry }
{
    SectionChangedLine {
        is_checked,
        change_type,
        line,
    }
}

/// Adds the lines of `text` at the end of `list`, as changed lines with the same mark and kind. If an
/// allocation fails, some of them are added.
fn push_changes(
    alloc: Global,
    list: &mut Vec<SectionChangedLine<'static>>,
    is_checked: bool,
    change_type: ChangeType,
    text: &str,
) -> Result<(), AllocError>
    ensures ok { OnOk result (list.new.items
        ≡ list.old.items ++ changed_lines is_checked change_type text.now) }
    ensures begins { BeginsWith list.old.items list.new.items }
{
    make_room(list, count_lines(text))?;
    let mut rest = text;
    'cuts: while let Some((line, after)) = split_line(rest) {
        let line = with_line_end(alloc, line)?;
        list.push(changed_line(is_checked, change_type, line))?;
        rest = after;
    }
    if !rest.is_empty() {
        let line = copy_of(alloc, rest)?;
        list.push(changed_line(is_checked, change_type, line))?;
    }
    Ok(())
}

/// Adds the lines of `text` at the end of `list`, as changed lines with the same mark and kind.
pub(crate) fn append_changes(
    alloc: Global,
    list: &mut Items<SectionChangedLine<'static>>,
    is_checked: bool,
    change_type: ChangeType,
    text: &str,
) -> Result<(), AllocError>
    ensures ok { OnOk result (list.new
        ≡ list.old ++ changed_lines is_checked change_type text.now) }
    ensures unchanged { OnErr result (list.new ≡ list.old) }
{
    let mut all = take_list(alloc, list);
    let before = all.len();
    let done = push_changes(alloc, &mut all, is_checked, change_type, text);
    put_list(list, all, before, done.is_ok());
    done
}
