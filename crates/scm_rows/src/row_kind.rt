//! What each row of a section shows, and which row shows a line.
ghost use Rattle.std.specs.Prelude.{◌≡◌, ℕ, ◌<◌, IfSome};
ghost use Rattle.scm_rows.specs.Kinds.{context_kind, holds, line_of, row_kind};

use crate::section_place::SectionPlace;
use crate::section_shape::SectionShape;

/// What a row of a section shows.
#[derive(Clone, Copy, Debug)]
pub enum RowKind {
    /// The header of changed lines.
    Header,
    /// The changed line with this index.
    Line(usize),
    /// A mode or a binary.
    Mark,
    /// The line of context with this index.
    Context(usize),
    /// No line: the dots, or the only row of a section of context without lines.
    Blank,
}

/// Returns what row `row` of the section at `place` shows, which has `count` lines of context.
fn context_kind(place: SectionPlace, count: usize, row: usize) -> RowKind
    ensures { result ≡ context_kind place count row }
{
    let above = place.lines_above(count);
    let top = above + place.dots_height(count);
    let first = place.first_below(count);
    if row < above {
        RowKind::Context(row)
    } else if top <= row && row - top < count - first {
        RowKind::Context(first + (row - top))
    } else {
        RowKind::Blank
    }
}

/// Returns what row `row` of a section of shape `shape` at `place` shows.
pub fn row_kind(place: SectionPlace, shape: SectionShape, row: usize) -> RowKind
    ensures { result ≡ row_kind place shape row }
{
    match shape {
        SectionShape::Context { lines } => context_kind(place, lines, row),
        SectionShape::Changed => match row.checked_sub(1) {
            None => RowKind::Header,
            Some(line) => RowKind::Line(line),
        },
        SectionShape::Mark => RowKind::Mark,
    }
}

/// Returns the row of line `line` of the section at `place`, which has `count` lines of context, if
/// it is shown.
fn context_row(place: SectionPlace, count: usize, line: usize) -> Option<usize>
    ensures { (row : ℕ) → holds (line_of (context_kind place count row)) line ≡ holds result row }
{
    let above = place.lines_above(count);
    let top = above + place.dots_height(count);
    let first = place.first_below(count);
    if line < above {
        Some(line)
    } else if first <= line && line < count {
        Some(top + (line - first))
    } else {
        None
    }
}

/// Returns the row of line `line` of a section of shape `shape` at `place`, if it has one among the
/// section's `rows` rows.
pub fn row_of_line(
    place: SectionPlace,
    shape: SectionShape,
    rows: usize,
    line: usize,
) -> Option<usize>
    ensures row { (row : ℕ) → row < rows
        → holds (line_of (row_kind place shape row)) line ≡ holds result row }
    ensures fits { IfSome result (λ row. row < rows) }
{
    let row = match shape {
        SectionShape::Context { lines } => context_row(place, lines, line),
        SectionShape::Changed => line.checked_add(1),
        SectionShape::Mark => None,
    };
    row.filter(|row| *row < rows)
}
