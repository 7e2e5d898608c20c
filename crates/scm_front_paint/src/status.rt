//! The status row: what it says, and what it shows.
ghost use Rattle.std.specs.Prelude.{◌≡◌, ◌+◌, ◌-◌, ◌<◌, ◌≤◌, ◌^◌, count_by, sum_by, IfErr, IfOk, IfSome, string_bytes};
ghost use Rattle.std.specs.List.{concat};
ghost use Rattle.scm_errors.specs.declared.error.RecordError.TheVariants.{OutOfMemory};
ghost use Rattle.scm_cells.specs.Replaced.{line_pieces};
ghost use Rattle.scm_front_paint.specs.Blank.{IsBlankGrid};
ghost use Rattle.scm_front_paint.specs.LineEnds.{ShowsEnd};
ghost use Rattle.scm_front_paint.specs.Status.{
  ShowsLeft,
  columns_before,
  counts_text,
  fit_or,
  is_item,
  is_range,
  item_text,
  left_column,
  left_of,
  line_text,
  long_text,
  on_left,
  path_text,
  right_of,
  right_text,
  said_or,
  said_text,
  short_text,
  sideways_text,
  status_screen,
  tail_column,
  text_of_key,
  text_of_notice,
};

use crate::blanks::blank_grid;
use crate::line_end::end_within;
use crate::range::range_text;
use scm_front::{Front, Notice};
use scm_record::{
    File, Grid, RecordError, Section, SelectionKey, push_spans_from_line, text_width,
};
use scm_types::OwnedText;
use std::alloc::Global;

/// What a text on the left of the status row is.
#[derive(Clone, Copy)]
pub(crate) enum LeftKind {
    /// A text that is being typed. It comes before all else, and its beginning is cut off last of all.
    Typed,
    /// What the layer says. It comes before all else, and its end is cut off last of all.
    Said,
    /// The selected item. It has the columns that are left, and its beginning is cut off.
    Item,
}

/// What stands on the left of the status row.
#[derive(Drop)]
pub(crate) struct LeftText {
    /// What the text is.
    pub(crate) kind: LeftKind,
    /// The text.
    pub(crate) text: OwnedText,
}

/// Returns the text of changed line `line` of section `section` of file `file`, or an empty text if
/// there is no such line. Indexes are counted from 0.
fn line_text<'a>(files: &'a [File<'_>], file: usize, section: usize, line: usize) -> &'a str
    ensures { result.now ≡ line_text files.now file section line }
{
    match files.get(file) {
        None => "",
        Some(file) => match file.sections.get(section) {
            Some(Section::Changed { lines }) => match lines.get(line) {
                None => "",
                Some(line) => line.line.as_str(),
            },
            Some(Section::Unchanged { .. })
            | Some(Section::FileMode { .. })
            | Some(Section::Binary { .. })
            | None => "",
        },
    }
}

/// Returns the path of file `file`, or an empty text if there is no such file.
fn path_text<'a>(files: &'a [File<'_>], file: usize) -> &'a str
    ensures { result.now ≡ path_text files.now file }
{
    match files.get(file) {
        None => "",
        Some(file) => file.path.as_str(),
    }
}

/// Returns the path of the file that `key` names, or the text of the changed line; otherwise an empty
/// text.
fn text_of_key<'a>(files: &'a [File<'_>], key: SelectionKey) -> &'a str
    ensures { result.now ≡ text_of_key files.now key }
{
    match key {
        SelectionKey::None | SelectionKey::Section(_) => "",
        SelectionKey::File(key) => path_text(files, key.file_idx),
        SelectionKey::Line(key) => line_text(files, key.file_idx, key.section_idx, key.line_idx),
    }
}

/// Returns `text` with replacements for the characters that a screen cannot show.
pub(crate) fn with_replacements(alloc: Global, text: &str) -> Result<String, RecordError>
    ensures ok { IfOk result (λ shown. string_bytes shown ≡ concat (line_pieces text.now)) }
    ensures err { IfErr result (λ e. e ≡ OutOfMemory) }
{
    let mut spans = Vec::new(alloc);
    push_spans_from_line(text, &mut spans)?;
    let mut shown = String::new(alloc);
    for span in &spans {
        shown.push_str(span.0)?;
    }
    Ok(shown)
}

/// Returns what the layer says of the last key, or an empty text. A text that is asked for, one that was not
/// found, and a range have texts of their own.
fn text_of_notice(notice: Notice) -> &'static str
    ensures { result.now ≡ text_of_notice notice }
{
    match notice {
        Notice::Nothing | Notice::Pressed | Notice::Asking | Notice::NotFound | Notice::Range => "",
        Notice::FromTop => "search goes on at the top",
        Notice::FromEnd => "search goes on at the end",
        Notice::NoLine => "a range begins at a line",
        Notice::NoMessage => "no message to edit",
        Notice::Undone => "undone",
        Notice::Redone => "done again",
        Notice::NothingToUndo => "nothing to undo",
        Notice::NothingToRedo => "nothing to do again",
        Notice::NotRestored => "not restored; nothing is left to undo",
    }
}

/// Returns the text of the selected item, with replacements for the characters that a screen cannot show, or an
/// end of it, of which the last `columns` columns are those of the whole.
fn item_end(alloc: Global, front: &Front<'_>, columns: usize) -> Result<String, RecordError>
    ensures ok { IfOk result (λ text.
        ShowsEnd columns (string_bytes text) (item_text front.now)) }
    ensures err { IfErr result (λ e. e ≡ OutOfMemory) }
{
    let view = front.beneath().view_state();
    let text = text_of_key(view.state.files.as_slice(), view.selection);
    end_within(alloc, text, columns)
}

/// Returns whether `notice` says that a range is begun.
fn is_range(notice: Notice) -> bool
    ensures { result ≡ is_range notice }
{
    match notice {
        Notice::Range => true,
        Notice::Nothing
        | Notice::Pressed
        | Notice::Asking
        | Notice::NotFound
        | Notice::FromTop
        | Notice::FromEnd
        | Notice::NoLine
        | Notice::NoMessage
        | Notice::Undone
        | Notice::Redone
        | Notice::NothingToUndo
        | Notice::NothingToRedo
        | Notice::NotRestored => false,
    }
}

/// Returns what the layer says of the last key or of a range, or an empty text.
fn said_text(alloc: Global, front: &Front<'_>) -> Result<String, RecordError>
    ensures ok { IfOk result (λ text. string_bytes text ≡ said_text front.now) }
    ensures err { IfErr result (λ e. e ≡ OutOfMemory) }
{
    let notice = front.notice();
    if is_range(notice) {
        range_text(alloc, front)
    } else {
        let text = String::from_str(alloc, text_of_notice(notice))?;
        Ok(text)
    }
}

/// Returns what stands on the left of the status row if no text is asked for or was not found: `said`, or
/// the end of the selected item that `columns` columns show, if nothing is said.
#[tactic(auto, using(crate::proofs::StatusEndLemmas::left_same))]
fn said_or(
    alloc: Global,
    said: &str,
    front: &Front<'_>,
    columns: usize,
) -> Result<LeftText, RecordError>
    ensures ok { IfOk result (λ l.
        ShowsLeft columns l (said_or said.now (item_text front.now))) }
    ensures err { IfErr result (λ e. e ≡ OutOfMemory) }
{
    if said.is_empty() {
        let text = item_end(alloc, front, columns)?;
        Ok(on_left(LeftKind::Item, text))
    } else {
        let text = String::from_str(alloc, said)?;
        Ok(on_left(LeftKind::Said, text))
    }
}

/// Returns `text` as one on the left.
fn on_left(kind: LeftKind, text: String) -> LeftText
    ensures { result ≡ on_left kind (string_bytes text) }
{
    LeftText {
        kind,
        text: OwnedText::from(text),
    }
}

/// Returns what stands on the left of the status row: the text that is typed, the text that was not
/// found, the keys of the layer while the help is open, what the layer says of the last key, or the
/// end of the selected item that `columns` columns show.
#[tactic(auto, using(crate::proofs::StatusEndLemmas::left_same))]
pub(crate) fn left_of(
    alloc: Global,
    front: &Front<'_>,
    columns: usize,
) -> Result<LeftText, RecordError>
    ensures ok { IfOk result (λ l. ShowsLeft columns l (left_of front.now)) }
    ensures err { IfErr result (λ e. e ≡ OutOfMemory) }
{
    let query = front.query();
    if query.is_asking {
        let typed = query.typed.as_str();
        let text = format!(in alloc; "/{typed}")?;
        Ok(on_left(LeftKind::Typed, text))
    } else if query.is_missing {
        let sought = query.sought.as_str();
        let text = format!(in alloc; "not found: {sought}")?;
        Ok(on_left(LeftKind::Said, text))
    } else if front.beneath().view_state().is_help_open {
        let keys = "/ n N: search  v: range  u ctrl-r: undo, redo  < >: sideways";
        let text = String::from_str(alloc, keys)?;
        Ok(on_left(LeftKind::Said, text))
    } else {
        let said = said_text(alloc, front)?;
        said_or(alloc, said.as_str(), front, columns)
    }
}

/// Returns whether a text of `kind` is the selected item.
fn is_item(kind: LeftKind) -> bool
    ensures { result ≡ is_item kind }
{
    match kind {
        LeftKind::Typed | LeftKind::Said => false,
        LeftKind::Item => true,
    }
}

/// Returns how many columns `left` has before all else: what is typed or said as many as it is wide, and
/// the selected item none.
fn columns_before(left: &LeftText) -> usize
    ensures { result ≡ columns_before left.now }
{
    if is_item(left.kind) {
        0
    } else {
        text_width(left.text.as_str())
    }
}

/// Returns `text` if it fits into `room` columns, or else `other`.
fn fit_or(room: usize, text: String, other: String) -> String
    ensures { string_bytes result ≡ fit_or room (string_bytes text) (string_bytes other) }
{
    if text_width(text.as_str()) <= room {
        text
    } else {
        other
    }
}

/// Returns what says that `x` columns of the window stand to the left of the terminal, or an empty text if
/// none does.
fn sideways_text(alloc: Global, x: usize) -> Result<String, RecordError>
    ensures ok { IfOk result (λ text. string_bytes text ≡ sideways_text x) }
    ensures err { IfErr result (λ e. e ≡ OutOfMemory) }
{
    if x == 0 {
        return Ok(String::new(alloc));
    }
    let text = format!(in alloc; "  >{x}")?;
    Ok(text)
}

/// Returns what says how many columns stand to the left, if any does, and how many `lines` and `files` are
/// marked.
fn counts_text(alloc: Global, x: usize, lines: usize, files: usize) -> Result<String, RecordError>
    ensures ok { IfOk result (λ text. string_bytes text ≡ counts_text x lines files) }
    ensures err { IfErr result (λ e. e ≡ OutOfMemory) }
{
    let sideways = sideways_text(alloc, x)?;
    let text = format!(in alloc; "{sideways}  lines: {lines}, files: {files}")?;
    Ok(text)
}

/// Returns `counts` if they fit into `room` columns, or else the `x` columns to the left.
fn short_text(alloc: Global, room: usize, x: usize, counts: String) -> Result<String, RecordError>
    ensures ok { IfOk result (λ text.
        string_bytes text ≡ short_text room x (string_bytes counts)) }
    ensures err { IfErr result (λ e. e ≡ OutOfMemory) }
{
    let sideways = sideways_text(alloc, x)?;
    let least = fit_or(room, sideways, String::new(alloc));
    Ok(fit_or(room, counts, least))
}

/// Returns `counts`, keys and `accept`, which says what accepting does. If they do not fit into `room`
/// columns, the keys are left out first.
fn long_text(
    alloc: Global,
    room: usize,
    x: usize,
    counts: String,
    accept: &str,
) -> Result<String, RecordError>
    ensures ok { IfOk result (λ text.
        string_bytes text ≡ long_text room x (string_bytes counts) accept.now) }
    ensures err { IfErr result (λ e. e ≡ OutOfMemory) }
{
    let few = format!(in alloc; "{counts}  {accept}")?;
    let all = format!(in alloc; "{counts}  /: search  ?: help  {accept}")?;
    let short = short_text(alloc, room, x, counts)?;
    let less = fit_or(room, few, short);
    Ok(fit_or(room, all, less))
}

/// Returns what stands on the right of the status row within `room` columns: the `x` columns to the left,
/// how many `lines` and `files` are marked, keys, and `accept`, which says what accepting does. If it does
/// not fit, the keys are left out first, then `accept`, then the counts.
fn right_text(
    alloc: Global,
    room: usize,
    x: usize,
    lines: usize,
    files: usize,
    accept: &str,
) -> Result<String, RecordError>
    ensures ok { IfOk result (λ text.
        string_bytes text ≡ right_text room x lines files accept.now) }
    ensures err { IfErr result (λ e. e ≡ OutOfMemory) }
{
    let counts = counts_text(alloc, x, lines, files)?;
    long_text(alloc, room, x, counts, accept)
}

/// Returns what stands on the right of the status row of `front`, which has `width` columns and `left` on
/// its left, while `x` columns stand to the left of the terminal: while the help is open, only `accept`.
pub(crate) fn right_of(
    alloc: Global,
    front: &Front<'_>,
    width: u16,
    left: &LeftText,
    x: usize,
    accept: &str,
) -> Result<String, RecordError>
    ensures ok { IfOk result (λ text.
        string_bytes text ≡ right_of front.now width left.now x accept.now) }
    ensures err { IfErr result (λ e. e ≡ OutOfMemory) }
{
    let room = (width as usize).saturating_sub(columns_before(left));
    let session = front.beneath();
    if session.view_state().is_help_open {
        let text = format!(in alloc; "  {accept}")?;
        Ok(fit_or(room, text, String::new(alloc)))
    } else {
        right_text(
            alloc,
            room,
            x,
            session.checked_lines(),
            session.changed_files(),
            accept,
        )
    }
}

/// Returns the column of a text of which the first `over` columns have no room: to the left of column 0.
fn tail_column(over: usize) -> isize
    ensures { result ≡ tail_column over }
{
    0_isize.strict_sub_unsigned(over.min(1_000_000_000))
}

/// Returns the column of a text on the left, of which `over` columns have no room: what is said loses its
/// end, all else its beginning.
fn left_column(kind: LeftKind, over: usize) -> isize
    ensures { result ≡ left_column kind over }
{
    match kind {
        LeftKind::Said => 0,
        LeftKind::Typed | LeftKind::Item => tail_column(over),
    }
}

/// Returns a grid of `width` columns and `height` rows of blanks, and below them the status row: `right`
/// at its end, and before it `left`, or the part of it that has room. It takes the memory of `kept`.
pub(crate) fn status_grid(
    alloc: Global,
    kept: Option<Grid>,
    width: u16,
    height: u16,
    left: &LeftText,
    right: &str,
) -> Result<Grid, RecordError>
    requires height { height < 65535 }
    requires kept { IfSome kept IsBlankGrid }
    ensures ok { IfOk result (λ grid. grid ≡ status_screen width height left.now right.now) }
    ensures err { IfErr result (λ e. e ≡ OutOfMemory) }
{
    let columns = width as usize;
    let row = height as usize;
    let room = columns.saturating_sub(text_width(right));
    let text = left.text.as_str();
    let over = text_width(text).saturating_sub(room);
    let column = left_column(left.kind, over);
    let mut grid = blank_grid(alloc, kept, width, height)?;
    grid.put(row, column, text, 0, room)?;
    grid.put(row, 0_isize.strict_add_unsigned(room), right, 0, columns)?;
    Ok(grid)
}
