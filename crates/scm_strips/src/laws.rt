//! Laws of rows in an area: on all columns of a screen they are the strips of a document.
ghost use Rattle.scm_strips.specs.Laws.{RowsOwnStrips, RowsShowStrips};

/// Proves that a row that is shown in all columns of a screen, three or more, shows what its strip shows.
pub fn rows_show_strips()
    ensures { RowsShowStrips }
{}

/// Proves that a row that is shown in all columns of a screen, three or more, has the owners of its strip.
pub fn rows_own_strips()
    ensures { RowsOwnStrips }
{}
