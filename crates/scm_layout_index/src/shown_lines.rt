//! The changed line that a row shows: three columns of the row are its checkbox, and all others the
//! line.
ghost use Rattle.std.specs.Prelude.{◌≡◌};
ghost use Rattle.scm_layout_index.specs.ShownLines.{line_among, line_of_kind, shown_line};

use crate::row_owners::RowOwners;
use scm_document::index_pieces::RowPieces;
use scm_rows::RowKind;
use scm_types::{LineKey, SectionKey};

/// Returns the changed line that a row of kind `kind` in section `key` shows, if it shows one.
fn line_of_kind(key: SectionKey, kind: RowKind) -> Option<LineKey>
    ensures { result ≡ line_of_kind key kind }
{
    match kind {
        RowKind::Line(line) => Some(key.line(line)),
        RowKind::Header | RowKind::Mark | RowKind::Context(_) | RowKind::Blank => None,
    }
}

/// Returns the changed line on row `row` of the document, which the pieces `found` have, if any.
pub(crate) fn line_among(found: &RowPieces, row: usize) -> Option<LineKey>
    ensures { result ≡ line_among row found.now }
{
    if row == found.file.top {
        return None;
    }
    match &found.section {
        None => None,
        Some(section) => {
            let kind = section.kind_on(row.saturating_sub(section.top));
            line_of_kind(section.key, kind)
        }
    }
}

impl RowOwners {
    /// Returns the changed line that the row shows, if nothing lies over the row.
    pub(crate) fn line(&self) -> Option<LineKey>
        ensures { result ≡ shown_line self.now }
    {
        if self.is_covered {
            return None;
        }
        match &self.found {
            None => None,
            Some(found) => line_among(found, self.row),
        }
    }
}
