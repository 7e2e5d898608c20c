//! What a section is, whatever its marks.
ghost use Rattle.std.specs.Prelude.{◌≡◌};
ghost use Rattle.scm_rows.specs.Heights.{shape_of};
ghost use Rattle.scm_rows.specs.Lines.{is_changed};

use scm_types::Section;

/// What a section is, whatever its marks.
#[derive(Clone, Copy, Debug)]
pub enum SectionShape {
    /// Lines of context.
    Context {
        /// The number of lines.
        lines: usize,
    },
    /// Changed lines.
    Changed,
    /// A mark: a mode or a binary.
    Mark,
}

/// Returns what `section` is.
pub fn shape_of(section: &Section<'_>) -> SectionShape
    ensures { result ≡ shape_of section.now }
{
    match section {
        Section::Unchanged { lines } => SectionShape::Context { lines: lines.len() },
        Section::Changed { .. } => SectionShape::Changed,
        Section::FileMode { .. } | Section::Binary { .. } => SectionShape::Mark,
    }
}

/// Returns whether `section` has changed lines.
pub fn is_changed(section: &Section<'_>) -> bool
    ensures { result ≡ is_changed section.now }
{
    match section {
        Section::Changed { .. } => true,
        Section::Unchanged { .. } | Section::FileMode { .. } | Section::Binary { .. } => false,
    }
}
