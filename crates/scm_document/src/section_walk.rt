//! The walk over the sections of a file that have rows. Drawing, measuring and indexing take it.
ghost use Rattle.std.specs.Prelude.{◌≡◌, [], drop, false, MatchOption};
ghost use Rattle.std.specs.Iterator.{YieldsFirstRef};
ghost use Rattle.scm_document.specs.Rows.{is_first_open};
ghost use Rattle.scm_document.specs.SectionWalk.{IsFirstVisible, sections_left, visible_views};

use crate::section_view::SectionView;
use scm_rows::section_heights::is_section_visible;

/// Returns whether there is a section at `index` and it is open.
fn is_open_at(views: &[SectionView<'_>], index: usize) -> bool
    ensures { result ≡ is_first_open (drop index views.now) }
{
    match views.get(index) {
        Some(view) => view.is_open(),
        None => false,
    }
}

/// Returns the index of the first section that has rows, and its view. `before` says whether the
/// section above all `views` is open.
fn first_visible<'v, 'a>(
    before: bool,
    views: &'v [SectionView<'a>],
) -> Option<(usize, &'v SectionView<'a>)>
    ensures cases { MatchOption result (visible_views before views.now ≡ [])
        (λ p. IsFirstVisible before views.now p.0 p.1.now) }
{
    let mut is_above_open = before;
    for (index, view) in views.iter().enumerate() {
        if is_section_visible(is_above_open, view.section, is_open_at(views, index + 1)) {
            return Some((index, view));
        }
        is_above_open = view.is_open();
    }
    None
}

/// A walk over the sections of a file that have rows, from the top down.
#[derive(Clone, Copy)]
pub(crate) struct SectionWalk<'v, 'a> {
    /// Whether the section above `views` is open.
    is_above_open: bool,
    /// The views that the walk has not reached.
    views: &'v [SectionView<'a>],
}

impl<'v, 'a> SectionWalk<'v, 'a> {
    /// Returns the walk over the sections of `views`, which are all sections of a file.
    pub(crate) fn new(views: &'v [SectionView<'a>]) -> SectionWalk<'v, 'a>
        ensures { sections_left result ≡ visible_views false views.now }
    {
        SectionWalk {
            is_above_open: false,
            views,
        }
    }

    /// Returns the next section that has rows, or `None` after the last one.
    pub(crate) fn next_section(&mut self) -> Option<&'v SectionView<'a>>
        ensures steps { YieldsFirstRef sections_left self.old result self.new }
    {
        let (index, view) = first_visible(self.is_above_open, self.views)?;
        *self = SectionWalk {
            is_above_open: view.is_open(),
            views: &self.views[index + 1..],
        };
        Some(view)
    }
}
