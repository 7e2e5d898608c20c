//! The folds of sections and files, as their expand boxes show them.
ghost use Rattle.std.specs.Prelude.{◌≡◌, ◌==◌};
ghost use Rattle.std.specs.List.{list_all};
ghost use Rattle.scm_types.specs.declared.keys.SelectionKey.TheVariants as keys;
ghost use Rattle.scm_types.specs.Keys.{has_key};
ghost use Rattle.scm_view.specs.ViewState.{section_fold};
ghost use Rattle.scm_view_state.specs.Folds.{fold_of, has_no_fold};

use crate::view_state::ViewState;
use scm_types::{Section, Tristate};
use scm_view::{FileKey, SectionKey, SectionView, SelectionKey};

/// Returns whether the section of `view` has no folded changed lines.
fn has_no_fold(view: &SectionView<'_>) -> bool
    ensures { result ≡ has_no_fold view.now }
{
    match view.section {
        Section::Changed { .. } => view.expand_box.tristate == Tristate::True,
        Section::Unchanged { .. } | Section::FileMode { .. } | Section::Binary { .. } => true,
    }
}

/// Returns whether no section of `views` has folded changed lines.
fn have_no_fold(views: &[SectionView<'_>]) -> bool
    ensures { result ≡ list_all has_no_fold views.now }
{
    views.iter().all(|view| has_no_fold(view))
}

/// Returns the fold of a file, by whether it is expanded and whether all its sections of changed lines
/// are.
fn fold_of(is_expanded: bool, are_all: bool) -> Tristate
    ensures { result ≡ fold_of is_expanded are_all }
{
    if !is_expanded {
        Tristate::False
    } else if are_all {
        Tristate::True
    } else {
        Tristate::Partial
    }
}

impl<'state> ViewState<'state> {
    /// Returns the fold of section `key`: `True` if it is unfolded, else `False`.
    pub fn section_fold(&self, key: SectionKey) -> Tristate
        ensures { result ≡ section_fold self.now key }
    {
        if self.is_expanded(SelectionKey::Section(key)) {
            Tristate::True
        } else {
            Tristate::False
        }
    }

    /// Returns the fold of file `key` with sections `views`: `False` if it is folded.
    /// If only some of its changed lines are folded, returns `Partial`.
    pub(crate) fn file_fold(&self, key: FileKey, views: &[SectionView<'_>]) -> Tristate
        ensures { result ≡ fold_of (has_key self.now.expanded (keys.File key))
            (list_all has_no_fold views.now) }
    {
        fold_of(
            self.is_expanded(SelectionKey::File(key)),
            have_no_fold(views),
        )
    }

    /// Returns the fold of file `key`, of which `folded` sections of changed lines are folded: `False`
    /// if it is folded itself, `Partial` if any of them is.
    pub fn counted_fold(&self, key: FileKey, folded: usize) -> Tristate
        ensures { result ≡ fold_of (has_key self.now.expanded (keys.File key)) (folded == 0) }
    {
        fold_of(self.is_expanded(SelectionKey::File(key)), folded == 0)
    }
}
