//! The owners of the columns of a row. A column is counted from the area's first one; left of the area it is
//! negative.
ghost use Rattle.std.specs.Prelude.{◌≡◌, ℕ, ◌<◌, ◌≤◌, ◌^◌, ◌∷◌, [], max, pos, int_lt, if◌then◌else◌, Some, None};
ghost use Rattle.scm_render.specs.Hits.{first_of_two};
ghost use Rattle.scm_widgets.specs.declared.ids.ComponentId.TheVariants as ids;
ghost use Rattle.scm_cells.specs.Clusters.{text_width};
ghost use Rattle.scm_render.specs.Drawing.{texts_width};
ghost use Rattle.scm_document.specs.Rows.{lent_text, line_id as id_of_line, line_texts};
ghost use Rattle.scm_document.specs.Texts.{number_text, path_text, sign_text};
ghost use Rattle.scm_strips.specs.Parts.{IsNear, changed_parts, context_part, counted, end_of_texts, header_parts, heading_from, heading_parts, is_between, is_in_header, message_parts, owner_in, row_parts, three};
ghost use Rattle.scm_strips.specs.ShownRows.{row_of};

use crate::shown::Shown;
use crate::widths::{changed_width, context_width, path_width};
use scm_types::{ChangeType, FileKey, LineKey, SelectionKey};
use scm_widgets::ids::ComponentId;

/// Returns whether `column` is in `from..to`.
fn is_between(from: isize, to: isize, column: isize) -> bool
    ensures { result ≡ is_between from to column }
{
    from <= column && column < to
}

/// Returns whether `column` is before `end`. An `end` that is too great to count is held at the greatest
/// `usize`, which no column reaches.
fn is_before(column: isize, end: usize) -> bool
    ensures { (whole : ℕ) → end ≡ counted whole → result ≡ int_lt column (pos whole) }
{
    column < 0 || column.unsigned_abs() < end
}

/// Returns whether `column` is in `from..end`, where `end` is held as in `is_before`.
fn is_up_to(from: isize, end: usize, column: isize) -> bool
    ensures { (whole : ℕ) → end ≡ counted whole → result ≡ is_between from (pos whole) column }
{
    from <= column && is_before(column, end)
}

/// Returns the end of texts of `width` columns from column `first` on, or 0 if they have no column, but at
/// least `least`. It is held at the greatest `usize`.
fn end_of_texts(first: usize, width: usize, least: usize) -> usize
    requires { least < 2 ^ 16 }
    ensures { (whole : ℕ) → width ≡ counted whole
        → result ≡ counted (max least (end_of_texts first whole)) }
{
    if width == 0 {
        least
    } else {
        first.saturating_add(width).max(least)
    }
}

/// Returns `id` if it owns `column` as one of three columns from column `first` on.
#[tactic(auto, unfolding(crate::specs::Parts::owner_in))]
fn box_owner(first: isize, id: ComponentId, column: isize) -> Option<ComponentId>
    requires { IsNear first }
    ensures { result ≡ owner_in (three first id ∷ []) column }
{
    if is_between(first, first + 3, column) {
        Some(id)
    } else {
        None
    }
}

/// Returns the box of a heading that owns `column`, in an area of `width` columns: the checkbox from column
/// `indent` on, or the fold box.
#[tactic(auto, unfolding(crate::specs::Parts::owner_in))]
fn heading_owner(
    width: usize,
    indent: usize,
    toggle: ComponentId,
    fold: ComponentId,
    column: isize,
) -> Option<ComponentId>
    requires width { width < 2 ^ 16 }
    requires indent { indent ≤ 2 }
    ensures { result ≡ owner_in (heading_parts width indent toggle fold) column }
{
    let first = indent as isize;
    if is_between(first, first + 3, column) {
        Some(toggle)
    } else {
        box_owner(width as isize - 3, fold, column)
    }
}

/// Returns the first column of a header, in an area of `width` columns: 0, or in fewer than four columns
/// that of the fold box or of the title's ellipsis, left of the area.
#[tactic(auto, using(crate::proofs::OwnerLemmas::from_wide, crate::proofs::OwnerLemmas::from_three, crate::proofs::OwnerLemmas::from_narrow))]
fn header_from(width: usize) -> isize
    requires { width < 2 ^ 16 }
    ensures { (title : ℕ) → result ≡ heading_from width 0 title }
{
    if 4 <= width {
        0
    } else if width == 3 {
        -1
    } else {
        width as isize - 3
    }
}

/// Returns whether the header of a file has `column`, in an area of `width` columns.
fn is_of_header(width: usize, old_path: Option<&str>, path: &str, column: isize) -> bool
    requires { width < 2 ^ 16 }
    ensures { result ≡ is_in_header width
        (text_width (path_text (lent_text old_path.entry) path.now)) column }
{
    if is_between(0, width as isize, column) {
        return true;
    }
    let end = end_of_texts(4, path_width(old_path, path), width.max(3));
    is_up_to(header_from(width), end, column)
}

/// Returns `first`, or `second` if `first` is `None`.
fn first_of_two(first: Option<ComponentId>, second: Option<ComponentId>) -> Option<ComponentId>
    ensures { result ≡ first_of_two first second }
{
    match first {
        Some(_) => first,
        None => second,
    }
}

/// Returns the id of the header of file `key` if `is_in`.
fn header_id(is_in: bool, key: FileKey) -> Option<ComponentId>
    ensures { result ≡ (if is_in then Some (ids.FileViewHeader key) else None) }
{
    if is_in {
        Some(ComponentId::FileViewHeader(key))
    } else {
        None
    }
}

/// Returns the part of a file's header that owns `column`, if any, in an area of `width` columns.
fn header_owner(
    width: usize,
    key: FileKey,
    boxes: (ComponentId, ComponentId),
    old_path: Option<&str>,
    path: &str,
    column: isize,
) -> Option<ComponentId>
    requires { width < 2 ^ 16 }
    ensures { result ≡ owner_in (header_parts width key boxes.0 boxes.1
        (text_width (path_text (lent_text old_path.entry) path.now))) column }
{
    let part = heading_owner(width, 0, boxes.0, boxes.1, column);
    let header = header_id(is_of_header(width, old_path, path, column), key);
    first_of_two(part, header)
}

/// Returns the component id of `line`.
fn line_id(line: LineKey) -> ComponentId
    ensures { result ≡ id_of_line line }
{
    ComponentId::SelectableItem(SelectionKey::Line(line))
}

/// Returns the owner of `column` on the row of changed line `key`, if any, in an area of `width` columns.
#[tactic(auto, unfolding(crate::specs::Parts::owner_in))]
fn changed_owner(
    width: usize,
    key: LineKey,
    toggle: ComponentId,
    change_type: ChangeType,
    line: &str,
    column: isize,
) -> Option<ComponentId>
    requires { width < 2 ^ 16 }
    ensures { result ≡ owner_in (changed_parts width key toggle
        (texts_width (line_texts (sign_text change_type) line.now))) column }
{
    if is_between(4, 7, column) {
        return Some(toggle);
    }
    if is_between(0, width as isize, column) {
        return Some(line_id(key));
    }
    let end = end_of_texts(8, changed_width(change_type, line), width.max(7));
    if is_up_to(0, end, column) {
        Some(line_id(key))
    } else {
        None
    }
}

/// Returns the owner of `column` on the row of a line of context, if any, in an area of `width` columns.
#[tactic(auto, unfolding(crate::specs::Parts::owner_in))]
fn context_owner(
    width: usize,
    key: LineKey,
    number: usize,
    line: &str,
    column: isize,
) -> Option<ComponentId>
    requires { width < 2 ^ 16 }
    ensures { result ≡ owner_in (context_part width key
        (texts_width (line_texts (number_text number) line.now)) ∷ []) column }
{
    if is_between(0, width as isize, column) {
        return Some(line_id(key));
    }
    let end = end_of_texts(4, context_width(number, line), width);
    if is_up_to(0, end, column) {
        Some(line_id(key))
    } else {
        None
    }
}

/// Returns the owner of `column` on the row of the message of `commit`, if any.
#[tactic(auto, unfolding(crate::specs::Parts::owner_in))]
fn message_owner(commit: usize, column: isize) -> Option<ComponentId>
    ensures { result ≡ owner_in (message_parts commit) column }
{
    if is_between(0, 14, column) {
        Some(ComponentId::CommitEditMessageButton(commit))
    } else {
        None
    }
}

/// Returns the part of a row that owns `column`, if any, in an area of `width` columns. Parts are not cut at the
/// area. A part has the columns of its text, which is measured only for a column outside of the area.
#[tactic(auto, unfolding(crate::specs::Parts::owner_in))]
pub fn row_owner(width: usize, what: &Shown<'_>, column: isize) -> Option<ComponentId>
    requires { width < 2 ^ 16 }
    ensures { result ≡ owner_in (row_parts width (row_of what.now)) column }
{
    match what {
        Shown::File {
            key,
            toggle_box,
            expand_box,
            old_path,
            path,
        } => {
            let boxes = (toggle_box.id, expand_box.id);
            header_owner(width, *key, boxes, *old_path, path, column)
        }
        Shown::Section {
            toggle_box,
            expand_box,
            ..
        } => heading_owner(width, 2, toggle_box.id, expand_box.id, column),
        Shown::Line {
            key,
            toggle_box,
            change_type,
            line,
        } => changed_owner(width, *key, toggle_box.id, *change_type, line, column),
        Shown::Mode { toggle_box, .. } => box_owner(2, toggle_box.id, column),
        Shown::Binary { toggle_box, .. } => box_owner(2, toggle_box.id, column),
        Shown::Context { key, number, line } => {
            context_owner(width, *key, *number, line, column)
        }
        Shown::Message { commit, .. } => message_owner(*commit, column),
        Shown::Dots { .. } => None,
        Shown::Blank => None,
        Shown::Margin => None,
        Shown::Words => None,
    }
}
