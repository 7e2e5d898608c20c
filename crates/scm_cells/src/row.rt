//! A row of the grid as columns, and how a text is put on it.
ghost use Rattle.std.specs.Prelude.{◌≡◌, ℕ, IsTrue, is_some, Some, ◌+◌, ◌-◌, ◌^◌, ◌<◌, ◌≤◌, ◌++◌, pos, IfOk, IfSome, OnOk, OnErr, length, take, drop, slice_range, replicate, min, map, option_map, string_bytes};
ghost use Rattle.std.specs.Int.{int_max};
ghost use Rattle.std.specs.Str.{chars};
ghost use Rattle.unicode_segmentation.specs.Iter.{graphemes_left};
ghost use Rattle.scm_cells.specs.Rect.{or_zero};
ghost use Rattle.scm_cells.specs.Cell.{blank, byte_cell, char_cell};
ghost use Rattle.scm_cells.specs.Cluster.{is_printable};
ghost use Rattle.scm_cells.specs.Clusters.{text_width, visible_clusters};
ghost use Rattle.scm_cells.specs.Row.{IsWhole, cells_of, later_cells, whole_before, whole_after, overlay, put, row_text};
ghost use Rattle.scm_cells.specs.FrameText.{frame_width, is_frame_text};
ghost use Rattle.scm_cells.specs.Symbols.{symbol_in};
ghost use Rattle.scm_cells.specs.Tail.{IsBlankFrom};
ghost use Rattle.scm_cells.specs.Laying.{fit, columns_of, IsPassed, IsBegun};

use crate::column::Column;
use crate::rect::gap;
use crate::text::NextCluster;
use std::alloc::{AllocError, Global};
use unicode_segmentation::{Graphemes, UnicodeSegmentation};

/// Returns a row of `width` spaces.
pub(crate) fn blank_row(alloc: Global, width: usize) -> Result<Vec<Column>, AllocError>
    ensures { IfOk result (λ row. row.items ≡ replicate width blank) }
{
    let mut row = Vec::with_capacity(alloc, width)?;
    'columns: for _ in 0..width {
        row.push(Column::blank(alloc))?;
    }
    Ok(row)
}

/// Makes each column a space.
pub(crate) fn clear_row(columns: &mut [Column])
    ensures { columns.new ≡ replicate (length columns.old) blank }
{
    for column in columns.iter_mut() {
        column.clear();
    }
}

/// Makes each column a space, if each from the column `end` on is one.
pub(crate) fn clear_front(columns: &mut [Column], end: usize)
    requires { IsBlankFrom end columns.old }
    ensures { columns.new ≡ replicate (length columns.old) blank }
{
    let count = end.min(columns.len());
    clear_row(&mut columns[..count]);
}

/// Replaces a symbol that is cut by the end of `columns` by spaces. Does nothing if `is_whole`.
fn mend_before(columns: &mut [Column], is_whole: bool)
    requires { IsTrue is_whole → whole_before columns.old ≡ columns.old }
    ensures { columns.new ≡ whole_before columns.old }
{
    if is_whole {
        return;
    }
    let mut left = columns.len();
    for column in columns.iter_mut() {
        if column.columns_left() > left {
            column.clear();
        }
        left -= 1;
    }
}

/// Replaces a symbol that begins before `columns` by spaces. Does nothing if `is_whole`.
fn mend_after(columns: &mut [Column], is_whole: bool)
    requires { IsTrue is_whole → whole_after 0 columns.old ≡ columns.old }
    ensures { columns.new ≡ whole_after 0 columns.old }
{
    if is_whole {
        return;
    }
    let mut index = 0;
    for column in columns.iter_mut() {
        if column.offset() > index {
            column.clear();
        }
        index += 1;
    }
}

/// Makes each column the symbol of the byte at its place.
fn write_bytes(columns: &mut [Column], bytes: &[u8])
    requires printable { IsTrue (is_printable bytes.now) }
    requires size { length columns.old ≡ length bytes.now }
    ensures { columns.new ≡ map byte_cell bytes.now }
{
    let mut index = 0;
    for column in columns.iter_mut() {
        column.set_byte(bytes[index]);
        index += 1;
    }
}

/// Makes each column the symbol of the character at its place.
fn write_characters(columns: &mut [Column], text: &str)
    requires frame { IsTrue (is_frame_text text.now) }
    requires size { length columns.old ≤ length (chars text.now) }
    ensures { columns.new ≡ map char_cell (take (length columns.old) (chars text.now)) }
{
    let mut characters = text.chars();
    for column in columns.iter_mut() {
        let Some(character) = characters.next() else {
            return;
        };
        column.set_character(character);
    }
}

/// Lays the columns of a symbol of `width` columns after its first.
fn lay_rest(columns: &mut [Column], width: usize)
    requires count { length columns.old + 1 ≡ width }
    requires width { width < 2 ^ 16 }
    ensures { columns.new ≡ later_cells width 1 (length columns.old) }
{
    let mut offset = 1;
    for column in columns.iter_mut() {
        column.set_later(width, offset);
        offset += 1;
    }
}

/// Lays a symbol over all of `columns`.
fn lay_symbol(columns: &mut [Column], symbol: &str) -> Result<(), AllocError>
    requires some { 0 < length columns.old }
    requires width { length columns.old < 2 ^ 16 }
    ensures { OnOk result (columns.new ≡ cells_of (symbol.now, length columns.old)) }
{
    let width = columns.len();
    columns[0].set_first(symbol, width)?;
    if width == 1 {
        return Ok(());
    }
    lay_rest(&mut columns[1..], width);
    Ok(())
}

/// The outcome of laying clusters on a row.
#[derive(Clone, Copy)]
struct Laid {
    /// The first column after the laid clusters.
    end: usize,

    /// The width of the clusters that were read, with the one that did not fit.
    taken: usize,
}

/// Lays clusters from the column `start`, up to the first that does not fit.
fn lay_clusters(
    columns: &mut [Column],
    clusters: &mut Graphemes<'_>,
    start: usize,
) -> Result<Laid, AllocError>
    requires width { length columns.old < 2 ^ 16 }
    requires start { start ≤ length columns.old }
    requires few { columns_of (visible_clusters (graphemes_left clusters.old)) < 2 ^ 64 }
    ensures within { IfOk result (λ r. r.end ≤ length columns.old) }
    ensures laid { IfOk result (λ r. take r.end columns.new ≡ take start columns.old
        ++ fit (length columns.old - start) (visible_clusters (graphemes_left clusters.old))) }
    ensures taken { IfOk result (λ r. columns_of (visible_clusters (graphemes_left clusters.old))
        ≡ r.taken + columns_of (visible_clusters (graphemes_left clusters.new))) }
{
    let mut end = start;
    'clusters: while let Some((symbol, width)) = clusters.next_cluster() {
        if width > columns.len() - end {
            let taken = end - start + width;
            return Ok(Laid { end, taken });
        }
        lay_symbol(&mut columns[end..end + width], symbol)?;
        end += width;
    }
    let taken = end - start;
    Ok(Laid { end, taken })
}

/// Skips the clusters that begin within the next `columns` columns. Returns their width.
fn pass_over(clusters: &mut Graphemes<'_>, columns: usize) -> usize
    requires few { columns_of (visible_clusters (graphemes_left clusters.old)) < 2 ^ 64 }
    ensures passed { IsPassed columns (visible_clusters (graphemes_left clusters.old))
        (result - columns) (visible_clusters (graphemes_left clusters.new)) }
    ensures taken { columns_of (visible_clusters (graphemes_left clusters.old))
        ≡ result + columns_of (visible_clusters (graphemes_left clusters.new)) }
{
    let mut passed = 0;
    'clusters: while passed < columns {
        match clusters.next_cluster() {
            None => return passed,
            Some((_, width)) => passed += width,
        }
    }
    passed
}

/// Where the clipped text begins on the row.
#[derive(Clone, Copy)]
struct Start {
    /// The first column that is written.
    from: usize,

    /// The number of spaces for a cluster that crosses the low limit.
    blanks: usize,

    /// The width of the clusters that begin before the low limit.
    passed: usize,
}

/// Skips the clusters that begin before the column `low`, if the first begins at `column`.
fn begin(clusters: &mut Graphemes<'_>, column: isize, low: usize) -> Start
    requires low { low < 2 ^ 63 }
    requires few { columns_of (visible_clusters (graphemes_left clusters.old)) < 2 ^ 64 }
    ensures from { result.from ≡ or_zero (int_max column (pos low)) }
    ensures begun { IsBegun column low (visible_clusters (graphemes_left clusters.old))
        result.from result.blanks (visible_clusters (graphemes_left clusters.new)) }
    ensures taken { columns_of (visible_clusters (graphemes_left clusters.old))
        ≡ result.passed + columns_of (visible_clusters (graphemes_left clusters.new)) }
{
    let limit = low as isize;
    if column < limit {
        let before = limit.abs_diff(column);
        let passed = pass_over(clusters, before);
        Start {
            from: low,
            blanks: passed.saturating_sub(before),
            passed,
        }
    } else {
        Start {
            from: column as usize,
            blanks: 0,
            passed: 0,
        }
    }
}

/// Returns whether a symbol begins at `column`.
fn is_start(columns: &[Column], column: usize) -> bool
    ensures { result ≡ is_some (symbol_in columns.now column) }
{
    match columns.get(column) {
        Some(first) => first.offset() == 0,
        None => false,
    }
}

/// If the columns `from..end` cover a symbol in part, makes its other columns spaces. Reads the
/// columns beside only if `from` or `end` is inside a symbol.
fn mend_around(columns: &mut [Column], from: usize, end: usize)
    requires from { from ≤ end }
    requires end { end ≤ length columns.old }
    requires whole { IsWhole columns.old }
    ensures front { take from columns.new ≡ whole_before (take from columns.old) }
    ensures middle { slice_range columns.new from end ≡ slice_range columns.old from end }
    ensures back { drop end columns.new ≡ whole_after 0 (drop end columns.old) }
{
    let is_from_start = is_start(columns, from);
    let is_end_start = is_start(columns, end);
    if is_from_start & is_end_start {
        return;
    }
    let (front, rest) = columns.split_at_mut(from);
    let (_, back) = rest.split_at_mut(end - from);
    mend_before(front, is_from_start);
    mend_after(back, is_end_start);
}

/// Swaps the columns from `from` on with the columns `laid`. The other columns of a symbol that is
/// covered in part become spaces.
fn show(columns: &mut [Column], from: usize, laid: &mut [Column])
    requires end { from + length laid.old ≤ length columns.old }
    requires whole { IsWhole columns.old }
    ensures { columns.new ≡ overlay columns.old from laid.old }
{
    let width = laid.len();
    if width > 0 {
        mend_around(columns, from, from + width);
        columns[from..from + width].swap_with_slice(laid);
    }
}

/// Makes the columns `from..end` spaces, and the other columns of a symbol that they cover in part.
fn clear_between(columns: &mut [Column], from: usize, end: usize)
    requires end { end ≤ length columns.old }
    requires whole { IsWhole columns.old }
    ensures row { columns.new ≡ overlay columns.old from (replicate (end - from) blank) }
    ensures tail { (n : ℕ) → IsBlankFrom n columns.old → IsBlankFrom n columns.new }
{
    if from < end {
        mend_around(columns, from, end);
        clear_row(&mut columns[from..end]);
    }
}

/// Writes bytes on the columns from `from` on. The other columns of a symbol that they cover in
/// part become spaces.
fn write_over(columns: &mut [Column], from: usize, bytes: &[u8])
    requires printable { IsTrue (is_printable bytes.now) }
    requires some { 0 < length bytes.now }
    requires end { from + length bytes.now ≤ length columns.old }
    requires whole { IsWhole columns.old }
    ensures { columns.new ≡ overlay columns.old from (map byte_cell bytes.now) }
{
    let after = from + bytes.len();
    mend_around(columns, from, after);
    write_bytes(&mut columns[from..after], bytes);
}

/// Writes the first characters of a text on the columns `from..past`. The other columns of a symbol
/// that they cover in part become spaces.
fn write_text_over(columns: &mut [Column], from: usize, past: usize, text: &str)
    requires frame { IsTrue (is_frame_text text.now) }
    requires some { from < past }
    requires size { past - from ≤ length (chars text.now) }
    requires end { past ≤ length columns.old }
    requires whole { IsWhole columns.old }
    ensures { columns.new
        ≡ overlay columns.old from (map char_cell (take (past - from) (chars text.now))) }
{
    mend_around(columns, from, past);
    write_characters(&mut columns[from..past], text);
}

/// Lays `blanks` spaces and then clusters, as far as they fit.
fn lay(
    columns: &mut [Column],
    blanks: usize,
    clusters: &mut Graphemes<'_>,
) -> Result<Laid, AllocError>
    requires width { length columns.old < 2 ^ 16 }
    requires few { columns_of (visible_clusters (graphemes_left clusters.old)) < 2 ^ 64 }
    ensures within { IfOk result (λ r. r.end ≤ length columns.old) }
    ensures laid { IfOk result (λ r. take r.end columns.new
        ≡ replicate (min blanks (length columns.old)) blank
        ++ fit (length columns.old - blanks) (visible_clusters (graphemes_left clusters.old))) }
    ensures taken { IfOk result (λ r. columns_of (visible_clusters (graphemes_left clusters.old))
        ≡ r.taken + columns_of (visible_clusters (graphemes_left clusters.new))) }
{
    let blanks = blanks.min(columns.len());
    clear_row(&mut columns[..blanks]);
    lay_clusters(columns, clusters, blanks)
}

/// Puts a text on the row. Returns its remaining clusters, and the width of the clusters before
/// them. Lays the text on the columns `laid` first, so that the row stays if memory is refused.
pub(crate) fn put_row<'a>(
    columns: &mut [Column],
    laid: &mut [Column],
    column: isize,
    text: &'a str,
    low: usize,
    high: usize,
) -> Result<(Graphemes<'a>, usize), AllocError>
    requires width { length columns.old < 2 ^ 16 }
    requires high { high ≤ length columns.old }
    requires laid { length laid.old ≡ length columns.old }
    requires whole { IsWhole columns.old }
    ensures ok { OnOk result (columns.new ≡ put columns.old column text.now low high) }
    ensures err { OnErr result (columns.new ≡ columns.old) }
    ensures taken { IfOk result (λ r.
        text_width text.now ≡ r.1 + columns_of (visible_clusters (graphemes_left r.0))) }
{
    let mut clusters = text.graphemes(true);
    if low >= high {
        return Ok((clusters, 0));
    }
    let start = begin(&mut clusters, column, low);
    if start.from >= high {
        return Ok((clusters, start.passed));
    }
    let outcome = lay(&mut laid[start.from..high], start.blanks, &mut clusters)?;
    show(
        columns,
        start.from,
        &mut laid[start.from..start.from + outcome.end],
    );
    Ok((clusters, start.passed + outcome.taken))
}

/// Returns `column` as a column of a row, if it is not left of the column `low`.
pub(crate) fn column_from(column: isize, low: usize) -> Option<usize>
    ensures { IfSome result (λ from. (pos from ≡ column) × (low ≤ from)) }
{
    if column < 0 {
        return None;
    }
    let from = column as usize;
    if from < low { None } else { Some(from) }
}

/// Puts a frame text of `width` characters on the row, from the column `from` on: each character is
/// a symbol of one column. Returns the column behind the last one that is written, or 0 if none is.
pub(crate) fn put_frame_text(
    columns: &mut [Column],
    from: usize,
    text: &str,
    width: usize,
    high: usize,
) -> usize
    requires frame { frame_width text.now ≡ Some width }
    requires high { high ≤ length columns.old }
    requires whole { IsWhole columns.old }
    ensures row { (low : ℕ) → low ≤ from
        → columns.new ≡ put columns.old (pos from) text.now low high }
    ensures tail { (n : ℕ) → result ≤ n → IsBlankFrom n columns.old → IsBlankFrom n columns.new }
{
    let limit = high.min(from.saturating_add(width));
    if from < limit {
        write_text_over(columns, from, limit, text);
        limit
    } else {
        0
    }
}

/// Puts a text of printable ASCII on the row: each byte is a symbol of one column. Returns the column
/// behind the last one that is written, or 0 if none is.
pub(crate) fn put_printable(
    columns: &mut [Column],
    column: isize,
    text: &str,
    low: usize,
    high: usize,
) -> usize
    requires printable { IsTrue (is_printable text.now) }
    requires width { length columns.old < 2 ^ 16 }
    requires high { high ≤ length columns.old }
    requires whole { IsWhole columns.old }
    ensures row { columns.new ≡ put columns.old column text.now low high }
    ensures tail { (n : ℕ) → result ≤ n → IsBlankFrom n columns.old → IsBlankFrom n columns.new }
{
    let from = low.max(gap(0, column));
    if from >= high {
        return 0;
    }
    let bytes = text.as_bytes();
    let skipped = gap(column, low as isize);
    if skipped < bytes.len() {
        let count = (high - from).min(bytes.len() - skipped);
        write_over(columns, from, &bytes[skipped..skipped + count]);
        from + count
    } else {
        0
    }
}

/// Puts `width` spaces on the row from `column` on, clipped to the columns `low..high`.
pub(crate) fn put_spaces(
    columns: &mut [Column],
    column: isize,
    width: usize,
    low: usize,
    high: usize,
)
    requires high { high ≤ length columns.old }
    requires whole { IsWhole columns.old }
    ensures row { columns.new ≡ put columns.old column (replicate width 32) low high }
    ensures tail { (n : ℕ) → IsBlankFrom n columns.old → IsBlankFrom n columns.new }
{
    let start = gap(0, column);
    let visible = width.saturating_sub(gap(column, 0));
    let end = start.saturating_add(visible);
    clear_between(columns, low.max(start), high.min(end));
}

/// Returns the symbol that begins at `column`, if one does.
pub(crate) fn symbol_in(columns: &[Column], column: usize) -> Option<&str>
    ensures { option_map (λ s. s.now) result ≡ symbol_in columns.now column }
{
    columns.get(column)?.first_symbol()
}

/// Adds the symbols of the row between quotes, and a newline. Adds nothing for a row without
/// columns.
pub(crate) fn push_row(text: &mut String, columns: &[Column]) -> Result<(), AllocError>
    ensures { OnOk result (
        string_bytes text.new ≡ string_bytes text.old ++ row_text columns.now) }
{
    if columns.is_empty() {
        return Ok(());
    }
    text.push('"')?;
    for column in columns {
        text.push_str(column.symbol())?;
    }
    text.push_str("\"\n")?;
    Ok(())
}
