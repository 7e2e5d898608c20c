//! What stands behind the markers of an open conflict.

/// What stands behind the markers of an open conflict, with a space before it: names of commits or
/// files, as texts like those of the file.
///
/// A label that is empty, or that has a line end (LF or CR), is left out.
#[derive(Clone, Copy, Debug)]
pub struct Labels<'a> {
    /// Stands behind `<<<<<<<`.
    pub ours: &'a str,

    /// Stands behind `|||||||`.
    pub base: &'a str,

    /// Stands behind `>>>>>>>`.
    pub theirs: &'a str,
}
