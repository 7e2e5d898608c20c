//! Laws of the layout: what a session keeps is what its views have.
ghost use Rattle.scm_view_state.specs.ViewCounts.{CountsAreOfViews};
ghost use Rattle.scm_view_state.specs.ViewRows.{FoldsAreCounted, RowsAreOfViews};

/// The numbers that the view of each file and section has are those of the layout: whether none,
/// some or all of its items are checked, the number of the section among the editable ones, and
/// that of its first line.
pub fn counts_are_of_views()
    ensures { CountsAreOfViews }
{}

/// The first row and the end of each file are those of its view. So are those of its sections,
/// counted from the row below the header as if the file were unfolded.
pub fn rows_are_of_views()
    ensures { RowsAreOfViews }
{}

/// An expanded file is wholly open if no section of it is counted as folded, else partly.
pub fn folds_are_counted()
    ensures { FoldsAreCounted }
{}
