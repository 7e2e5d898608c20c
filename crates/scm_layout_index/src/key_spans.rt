//! The row range of a key, by the rows of a layout alone.
ghost use Rattle.std.specs.Prelude.{◌≡◌};
ghost use Rattle.scm_view.specs.ViewState.{ViewState};
ghost use Rattle.scm_view.specs.Window.{span};
ghost use Rattle.scm_layout_index.specs.LayoutIndex.{AreRowsOf};
ghost use Rattle.scm_layout_index.specs.SharedRows.{AreRowsOfState};

use crate::key_pieces::rows_by_key;
use scm_layout::StateRows;
use scm_types::SelectionKey;

/// If the item of `key` is visible, returns its first row in the document and its number of rows.
/// The layout of the session has the rows `rows`.
///
/// This is what [`LayoutIndex::span`](crate::LayoutIndex::span) returns for an inline frame of the
/// session, on any screen and at any scroll.
pub fn span_of_key(rows: &StateRows, key: SelectionKey) -> Option<(usize, usize)>
    requires { AreRowsOfState rows.now }
    ensures { (shown : ViewState) → AreRowsOf rows.now shown → result ≡ span shown key }
{
    rows_by_key(&rows.files, key)
}
