//! What is set off in a line of a pair: found anew, or kept from the screen before.
ghost use Rattle.std.specs.Prelude.{◌≡◌, IfErr, IfOk, IfSome, IsTrue, map, option_map};
ghost use Rattle.scm_errors.specs.declared.error.RecordError.TheVariants.{OutOfMemory};
ghost use Rattle.scm_diff.specs.Words.{AreSpans};
ghost use Rattle.scm_front_paint.specs.Words.{AreColumns, AreColumnsFor, HasBorders, columns_of_span};
ghost use Rattle.scm_front_paint.specs.WordsView.{AreFor, columns_in, pair_value};

use crate::columns::{Columns, columns_of_bytes};
use crate::line_words::LineWords;
use crate::pairs::PairOfLines;
use scm_diff::{WordSpan, word_spans};
use scm_record::RecordError;
use std::alloc::Global;

/// Returns the columns of a part in which the lines of `pair` differ, in a window that ends before column `edge`.
fn columns_of_span(
    alloc: Global,
    edge: usize,
    pair: PairOfLines<'_>,
    span: WordSpan,
) -> Result<Columns, RecordError>
    requires { HasBorders pair.old.now pair.new.now span }
    ensures ok { IfOk result (λ columns. columns
        ≡ columns_of_span edge pair.entry.is_old pair.entry.old.now pair.entry.new.now span) }
    ensures err { IfErr result (λ e. e ≡ OutOfMemory) }
{
    if pair.is_old {
        columns_of_bytes(alloc, edge, pair.old, span.old_start, span.old_end)
    } else {
        columns_of_bytes(alloc, edge, pair.new, span.new_start, span.new_end)
    }
}

/// Returns the columns of the parts in which the lines of `pair` differ, in a window that ends before column
/// `edge`.
fn columns_of_spans(
    alloc: Global,
    edge: usize,
    pair: PairOfLines<'_>,
    spans: &[WordSpan],
) -> Result<Vec<Columns>, RecordError>
    requires { AreSpans pair.old.now pair.new.now spans.now }
    ensures ok { IfOk result (λ columns. columns.items ≡ map
        (columns_of_span edge pair.entry.is_old pair.entry.old.now pair.entry.new.now) spans.now) }
    ensures err { IfErr result (λ e. e ≡ OutOfMemory) }
{
    let mut columns = Vec::with_capacity(alloc, spans.len())?;
    for span in spans {
        columns.push(columns_of_span(alloc, edge, pair, *span)?)?;
    }
    Ok(columns)
}

/// Returns what is set off in the line of `pair` that is meant, in a window that ends before column `edge`.
fn words_of_pair(
    alloc: Global,
    edge: usize,
    pair: PairOfLines<'_>,
) -> Result<LineWords, RecordError>
    ensures ok { IfOk result (λ words. AreColumns edge pair.entry.old.now pair.entry.new.now
        pair.entry.is_old words.columns) }
    ensures err { IfErr result (λ e. e ≡ OutOfMemory) }
{
    let spans = word_spans(alloc, pair.old, pair.new)?;
    let columns = columns_of_spans(alloc, edge, pair, spans.as_slice())?;
    let old = String::from_str(alloc, pair.old)?;
    let new = String::from_str(alloc, pair.new)?;
    Ok(LineWords {
        old,
        new,
        is_old: pair.is_old,
        edge,
        columns,
    })
}

/// Returns whether `words` were found for `pair` in a window that ends before column `edge`.
fn are_for(words: &LineWords, edge: usize, pair: PairOfLines<'_>) -> bool
    ensures { IsTrue result → AreFor edge words.now (pair_value pair.entry) }
{
    let is_old = words.old.as_str() == pair.old;
    let is_new = words.new.as_str() == pair.new;
    let is_side = words.is_old == pair.is_old;
    let is_edge = words.edge == edge;
    // `&`: one branch for the prover
    is_old & is_new & is_side & is_edge
}

/// Returns whether `words` were found for `pair` in a window that ends before column `edge`, if there are any.
fn is_for(words: &Option<LineWords>, edge: usize, pair: PairOfLines<'_>) -> bool
    ensures { IsTrue result → IfSome words.now (λ words. AreFor edge words (pair_value pair.entry)) }
{
    match words {
        None => false,
        Some(words) => are_for(words, edge, pair),
    }
}

/// Takes `kept`, if it was found for `pair` in a window that ends before column `edge`.
fn take_if_for(
    kept: &mut Option<LineWords>,
    edge: usize,
    pair: PairOfLines<'_>,
) -> Option<LineWords>
    ensures { IfSome result (λ words. AreFor edge words (pair_value pair.entry)) }
{
    if is_for(kept, edge, pair) {
        kept.take()
    } else {
        None
    }
}

/// Takes from `kept` what was found for `pair` in a window that ends before column `edge`, if that is there. Where
/// no row moved, it is at `row`.
fn take_for(
    kept: &mut [Option<LineWords>],
    row: usize,
    edge: usize,
    pair: PairOfLines<'_>,
) -> Option<LineWords>
    ensures { IfSome result (λ words. AreFor edge words (pair_value pair.entry)) }
{
    if row < kept.len() {
        if let Some(words) = take_if_for(&mut kept[row], edge, pair) {
            return Some(words);
        }
    }
    kept.iter_mut()
        .find_map(|words| take_if_for(words, edge, pair))
}

/// Returns what is set off in the line of `pair` that is meant, on row `row`, in a window that ends before column
/// `edge`: what is in `kept`, if that was found for `pair` in such a window.
fn words_for(
    alloc: Global,
    kept: &mut [Option<LineWords>],
    row: usize,
    edge: usize,
    pair: PairOfLines<'_>,
) -> Result<LineWords, RecordError>
    ensures ok { IfOk result (λ words. AreColumns edge pair.entry.old.now pair.entry.new.now
        pair.entry.is_old words.columns) }
    ensures err { IfErr result (λ e. e ≡ OutOfMemory) }
{
    match take_for(kept, row, edge, pair) {
        None => words_of_pair(alloc, edge, pair),
        Some(words) => Ok(words),
    }
}

/// Returns what is set off in the line of `pair` that is meant, on row `row`, if there is a pair, in a window that
/// ends before column `edge`: what is in `kept`, if that was found for the pair in such a window.
pub(crate) fn words_with(
    alloc: Global,
    edge: usize,
    pair: Option<PairOfLines<'_>>,
    kept: &mut [Option<LineWords>],
    row: usize,
) -> Result<Option<LineWords>, RecordError>
    ensures ok { IfOk result (λ words.
        AreColumnsFor edge (option_map pair_value pair.entry) (columns_in words)) }
    ensures err { IfErr result (λ e. e ≡ OutOfMemory) }
{
    match pair {
        None => Ok(None),
        Some(pair) => Ok(Some(words_for(alloc, kept, row, edge, pair)?)),
    }
}
