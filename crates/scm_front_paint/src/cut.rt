//! A cut of a screen with its labels: a grid of the columns from a column on.
ghost use Rattle.std.specs.Prelude.{◌≡◌, [], ◌∷◌, ℕ, ◌+◌, ◌-◌, ◌^◌, ◌<◌, ◌≤◌, IfErr, IfOk, IsTrue, OnOk, Some, length, max, min, option_map};
ghost use Rattle.scm_errors.specs.declared.error.RecordError.TheVariants.{OutOfMemory};
ghost use Rattle.scm_cells.specs.Symbols.{symbol_at, symbol_in, symbol_of};
ghost use Rattle.scm_front_paint.specs.Cut.{CutFails, IsCut, IsCutRow, IsLead, KeepsOthers, cut_symbol};
ghost use Rattle.scm_front_paint.specs.Labels.{symbol_under};
ghost use Rattle.scm_front_paint.specs.Source.{symbols_in};

use crate::source::Source;
use scm_cells::{Column, Grid};
use scm_errors::RecordError;
use std::alloc::Global;

/// Returns the number of columns from column `x` on before the next symbol of row `row`, or before the
/// end of the row.
fn lead_of(source: &Source<'_>, x: usize, row: usize) -> usize
    ensures few { result ≤ (symbols_in source.now).width - x }
    ensures is_lead { IsLead (symbols_in source.now) x row result }
{
    let width = source.width();
    for column in x..width {
        match source.symbol(row, column) {
            None => {}
            Some(_symbol) => return column - x,
        }
    }
    width.saturating_sub(x)
}

/// Returns whether two symbols are equal.
fn is_same(symbol: Option<&str>, other: Option<&str>) -> bool
    ensures { IsTrue result
        → option_map (λ s. s.now) symbol.entry ≡ option_map (λ s. s.now) other.entry }
{
    match (symbol, other) {
        (None, None) => true,
        (Some(symbol), Some(other)) => symbol == other,
        (None, Some(_)) | (Some(_), None) => false,
    }
}

/// Returns whether `own` and `other` have the same printable character of ASCII.
fn has_same_letter(own: &Column, other: &Column) -> bool
    ensures { IsTrue result → symbol_of own.now ≡ symbol_of other.now }
{
    match own.ascii() {
        None => false,
        Some(byte) => match other.ascii() {
            None => false,
            Some(same) => byte == same,
        },
    }
}

/// Returns the first column from `from` on, before `end`, where `columns` are not known to have the symbol that
/// `others` have `x` columns further right. If there is none, returns a column from `end` on, or one behind the end
/// of `columns` or of `others`.
fn end_of_same(columns: &[Column], others: &[Column], x: usize, from: usize, end: usize) -> usize
    ensures low { from ≤ result }
    ensures same { (c : ℕ) → from ≤ c → c < result
        → symbol_in columns.now c ≡ symbol_in others.now (x + c) }
{
    let stop = end.min(columns.len()).min(others.len().saturating_sub(x));
    let mut column = from;
    'letters: while column < stop {
        if !has_same_letter(&columns[column], &others[x + column]) {
            return column;
        }
        column += 1;
    }
    column
}

/// A row of a grid.
#[derive(Clone, Copy)]
struct RowOf<'a> {
    /// The grid.
    grid: &'a Grid,
    /// The row, counted from 0.
    row: usize,
}

/// Returns whether `own` has at the columns `from..end` the symbols that `other` has `x` columns further right.
fn is_same_part(own: RowOf<'_>, other: RowOf<'_>, x: usize, from: usize, end: usize) -> bool
    requires { x + end < 2 ^ 64 }
    ensures { IsTrue result → (c : ℕ) → from ≤ c → c < end
        → symbol_at own.entry.grid.now.rows own.entry.row c ≡ symbol_at other.entry.grid.now.rows other.entry.row (x + c) }
{
    let columns = own.grid.columns(own.row);
    let others = other.grid.columns(other.row);
    let mut column = end_of_same(columns, others, x, from, end);
    'places: while column < end {
        let symbol = own.grid.symbol(own.row, column);
        if !is_same(symbol, other.grid.symbol(other.row, x + column)) {
            return false;
        }
        column = end_of_same(columns, others, x, column + 1, end);
    }
    true
}

/// Returns whether the first `lead` columns of `own` are blank.
fn is_blank_part(own: RowOf<'_>, lead: usize) -> bool
    ensures { IsTrue result → (c : ℕ) → c < lead
        → symbol_at own.entry.grid.now.rows own.entry.row c ≡ Some (32 ∷ []) }
{
    for column in 0..lead {
        if !is_same(own.grid.symbol(own.row, column), Some(" ")) {
            return false;
        }
    }
    true
}

/// Returns the first column of a cut from column `x` on that shows a label, if its first `lead` columns are blank.
fn label_start(x: usize, lead: usize) -> usize
    ensures { result ≡ max (6 - x) lead }
{
    6_usize.saturating_sub(x).max(lead)
}

/// Returns the column of a cut from column `x` on before which `label` ends, if the cut ends before column `end`.
fn label_end(label: &Grid, x: usize, end: usize) -> usize
    ensures { result ≡ min (label.now.width - x) end }
{
    label.width().saturating_sub(x).min(end)
}

/// Returns whether `own` has at the columns `lead..end` the symbols that `under` has `x` columns further right, with
/// `label` over them.
fn is_labelled_part(
    own: RowOf<'_>,
    under: RowOf<'_>,
    label: &Grid,
    x: usize,
    lead: usize,
    end: usize,
) -> bool
    requires { x + end < 2 ^ 64 }
    ensures { IsTrue result → (c : ℕ) → lead ≤ c → c < end
        → symbol_at own.entry.grid.now.rows own.entry.row c ≡ symbol_under (Some label.now) (x + c)
        (symbol_at under.entry.grid.now.rows under.entry.row (x + c)) }
{
    let start = label_start(x, lead);
    let stop = label_end(label, x, end);
    let title = RowOf {
        grid: label,
        row: 0,
    };
    let is_before = is_same_part(own, under, x, lead, start.min(end));
    let is_title = is_same_part(own, title, x, start, stop);
    let is_behind = is_same_part(own, under, x, stop.max(start), end);
    // `&`: one branch for the prover
    is_before & is_title & is_behind
}

/// Returns whether `own` has at the columns `lead..end` the symbols that row `row` of `source` has `x` columns further
/// right.
fn is_rest(
    own: RowOf<'_>,
    source: &Source<'_>,
    x: usize,
    row: usize,
    lead: usize,
    end: usize,
) -> bool
    requires { x + end < 2 ^ 64 }
    ensures { IsTrue result → (c : ℕ) → lead ≤ c → c < end
        → symbol_at own.entry.grid.now.rows own.entry.row c ≡ (symbols_in source.now).at row (x + c) }
{
    let under = RowOf {
        grid: source.grid,
        row,
    };
    match source.label(row) {
        None => is_same_part(own, under, x, lead, end),
        Some(label) => is_labelled_part(own, under, label, x, lead, end),
    }
}

/// Returns whether row `row` of `cut` has the columns of that row of `source` from `x` on. The first `lead`
/// of them are blank.
fn is_cut_row(cut: &Grid, source: &Source<'_>, x: usize, row: usize, lead: usize) -> bool
    ensures { IsTrue result → (c : ℕ) → c < (symbols_in source.now).width - x
        → symbol_at cut.now.rows row c ≡ cut_symbol (symbols_in source.now) x row lead c }
{
    let end = source.width().saturating_sub(x);
    let own = RowOf { grid: cut, row };
    let is_blank = is_blank_part(own, lead);
    let is_rest = is_rest(own, source, x, row, lead, end);
    // `&`: one branch for the prover
    is_blank & is_rest
}

/// Appends to `letters` the printable characters of ASCII of `others` from column `x + from` on, up to the first
/// other symbol, and the first that `columns` have `x` columns further left. No more than up to column `x + end`.
///
/// # Errors
///
/// - `OutOfMemory`: an allocation failed.
fn push_letters(
    letters: &mut String,
    columns: &[Column],
    others: &[Column],
    x: usize,
    from: usize,
    end: usize,
) -> Result<(), RecordError>
    ensures err { IfErr result (λ e. e ≡ OutOfMemory) }
{
    let stop = end.min(columns.len()).min(others.len().saturating_sub(x));
    for column in from..stop {
        let Some(byte) = others[x + column].ascii() else {
            return Ok(());
        };
        if columns[column].ascii() == Some(byte) {
            return Ok(());
        }
        letters.push(byte as char)?;
    }
    Ok(())
}

/// Returns `letters`, or if there are none the symbol of `other` at column `column`.
fn letters_or_symbol<'a>(letters: &'a str, other: RowOf<'a>, column: usize) -> &'a str {
    if !letters.is_empty() {
        return letters;
    }
    match other.grid.symbol(other.row, column) {
        None => "",
        Some(symbol) => symbol,
    }
}

/// Puts `text` on row `row` of `cut` from column `column` on.
fn put_text(cut: &mut Grid, row: usize, column: usize, text: &str) -> Result<(), RecordError>
    requires row { row < length cut.old.rows }
    requires column { column < cut.old.width }
    ensures others { OnOk result (KeepsOthers cut.old cut.new row) }
    ensures err { IfErr result (λ e. CutFails e) }
{
    let width = cut.width();
    cut.put(row, 0_isize.strict_add_unsigned(column), text, 0, width)?;
    Ok(())
}

/// Puts on the columns `from..end` of row `row` of `cut` the symbols that `other` has `x` columns further right, where
/// they differ. `letters` is room for them.
fn put_part(
    cut: &mut Grid,
    row: usize,
    letters: &mut String,
    other: RowOf<'_>,
    x: usize,
    from: usize,
    end: usize,
) -> Result<(), RecordError>
    requires row { row < length cut.old.rows }
    requires end { end ≤ cut.old.width }
    ensures others { OnOk result (KeepsOthers cut.old cut.new row) }
    ensures err { IfErr result (λ e. CutFails e) }
{
    let others = other.grid.columns(other.row);
    let mut column = end_of_same(cut.columns(row), others, x, from, end);
    'places: while column < end {
        letters.clear();
        push_letters(letters, cut.columns(row), others, x, column, end)?;
        let text = letters_or_symbol(letters.as_str(), other, x.saturating_add(column));
        put_text(cut, row, column, text)?;
        let next = column.saturating_add(letters.len().max(1));
        column = end_of_same(cut.columns(row), others, x, next, end);
    }
    Ok(())
}

/// Puts on row `row` of `cut` what differs there from the columns of that row of `source` from `x` on. The first `lead`
/// of them are blank.
fn put_changes(
    alloc: Global,
    cut: &mut Grid,
    source: &Source<'_>,
    x: usize,
    row: usize,
    lead: usize,
) -> Result<(), RecordError>
    requires row { row < length cut.old.rows }
    requires width { cut.old.width ≡ (symbols_in source.now).width - x }
    ensures others { OnOk result (KeepsOthers cut.old cut.new row) }
    ensures err { IfErr result (λ e. CutFails e) }
{
    let end = source.width().saturating_sub(x);
    let under = RowOf {
        grid: source.grid,
        row,
    };
    let mut letters = String::with_capacity(alloc, end)?;
    cut.put_blank(row, 0, lead, 0, end);
    let Some(label) = source.label(row) else {
        return put_part(cut, row, &mut letters, under, x, lead, end);
    };
    let title = RowOf {
        grid: label,
        row: 0,
    };
    let start = label_start(x, lead);
    let stop = label_end(label, x, end);
    put_part(cut, row, &mut letters, under, x, lead, start.min(end))?;
    put_part(cut, row, &mut letters, title, x, start, stop)?;
    put_part(cut, row, &mut letters, under, x, stop.max(start), end)
}

/// Puts the symbols of row `row` of `source` from column `x` on on that row of `cut`, each by itself.
fn put_row(cut: &mut Grid, source: &Source<'_>, x: usize, row: usize) -> Result<(), RecordError>
    requires row { row < length cut.old.rows }
    requires width { cut.old.width ≡ (symbols_in source.now).width - x }
    ensures others { OnOk result (KeepsOthers cut.old cut.new row) }
    ensures err { IfErr result (λ e. CutFails e) }
{
    let columns = source.width().saturating_sub(x);
    cut.put_blank(row, 0, columns, 0, columns);
    for column in 0..columns {
        if let Some(symbol) = source.symbol(row, x + column) {
            cut.put(row, 0_isize.strict_add_unsigned(column), symbol, 0, columns)?;
        }
    }
    Ok(())
}

/// Returns the error of a symbol that is no cluster by itself. No text has such a symbol.
fn no_cut(alloc: Global) -> RecordError
    ensures { CutFails result }
{
    match String::from_str(alloc, "a symbol of the screen is no cluster by itself") {
        Ok(words) => RecordError::Bug(words),
        Err(_) => RecordError::OutOfMemory,
    }
}

/// Makes row `row` of `cut` the columns of that row of `source` from `x` on. A row that is as it should be
/// is only read.
fn cut_row(
    alloc: Global,
    cut: &mut Grid,
    source: &Source<'_>,
    x: usize,
    row: usize,
) -> Result<(), RecordError>
    requires row { row < length cut.old.rows }
    requires width { cut.old.width ≡ (symbols_in source.now).width - x }
    ensures ok { OnOk result (IsCutRow cut.new (symbols_in source.now) x row) }
    ensures others { OnOk result (KeepsOthers cut.old cut.new row) }
    ensures err { IfErr result (λ e. CutFails e) }
{
    let lead = lead_of(source, x, row);
    if is_cut_row(cut, source, x, row, lead) {
        return Ok(());
    }
    put_changes(alloc, cut, source, x, row, lead)?;
    if is_cut_row(cut, source, x, row, lead) {
        return Ok(());
    }
    put_row(cut, source, x, row)?;
    if is_cut_row(cut, source, x, row, lead) {
        Ok(())
    } else {
        Err(no_cut(alloc))
    }
}

/// Makes `cut` the columns of `source` from `x` on. It has their width and height.
fn cut_rows(alloc: Global, cut: &mut Grid, source: &Source<'_>, x: usize) -> Result<(), RecordError>
    requires width { cut.old.width ≡ (symbols_in source.now).width - x }
    requires height { length cut.old.rows ≡ (symbols_in source.now).height }
    ensures ok { OnOk result (IsCut cut.new (symbols_in source.now) x) }
    ensures err { IfErr result (λ e. CutFails e) }
{
    for row in 0..source.height() {
        cut_row(alloc, cut, source, x, row)?;
    }
    Ok(())
}

/// Returns `cut` if it has `width` columns and `height` rows, else a new grid that has.
fn with_size(alloc: Global, cut: Option<Grid>, width: u16, height: u16) -> Result<Grid, RecordError>
    ensures width { IfOk result (λ grid. grid.width ≡ width) }
    ensures height { IfOk result (λ grid. length grid.rows ≡ height) }
    ensures err { IfErr result (λ e. CutFails e) }
{
    if let Some(grid) = cut {
        if grid.width() == width as usize && grid.height() == height as usize {
            return Ok(grid);
        }
    }
    Grid::new(alloc, width, height)
}

/// Returns the columns of `source` from `x` on, in the memory of `cut`, an earlier cut, if that has the size.
pub(crate) fn cut_of(
    alloc: Global,
    cut: Option<Grid>,
    source: &Source<'_>,
    x: usize,
) -> Result<Grid, RecordError>
    ensures ok { IfOk result (λ new. IsCut new (symbols_in source.now) x) }
    ensures err { IfErr result (λ e. CutFails e) }
{
    let width = source.width().saturating_sub(x);
    let mut cut = with_size(alloc, cut, width as u16, source.height() as u16)?;
    cut_rows(alloc, &mut cut, source, x)?;
    Ok(cut)
}
