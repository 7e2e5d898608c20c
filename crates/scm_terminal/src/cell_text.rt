//! The text of one column of a row.

/// The text of a column.
#[derive(Clone, Copy)]
pub(crate) enum CellText<'a> {
    /// No symbol begins in the column.
    Nothing,
    /// A symbol of one byte begins in the column.
    Letter(u8),
    /// A symbol begins in the column.
    Symbol(&'a str),
}
