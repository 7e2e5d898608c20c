//! The layout of a view state.
ghost use Rattle.std.specs.Prelude.{◌≡◌, ◌≤◌, IfOk};
ghost use Rattle.scm_types.specs.Limits.{max_items, state_size};
ghost use Rattle.scm_selection.specs.KeyLists.{all_keys};
ghost use Rattle.scm_selection.specs.KeySet.{key_set};
ghost use Rattle.scm_layout.specs.Layouts.{IsLayoutOf, layout_of};

use crate::view_state::ViewState;
use scm_layout::Layout;
use std::alloc::{AllocError, Global};

impl<'state> ViewState<'state> {
    /// Returns the layout of the state, with the expanded keys unfolded. The state must be within the
    /// limit of its size.
    ///
    /// # Errors
    /// `AllocError`: an allocation failed.
    pub fn layout(&self, alloc: Global) -> Result<Layout, AllocError>
        requires { state_size self.now.state ≤ max_items }
        ensures { IfOk result
            (λ layout. layout ≡ layout_of self.now.state self.now.expanded) }
    {
        Layout::new(alloc, &self.state, &self.expanded)
    }

    /// Finds the rows of `layout`, a layout of the state, anew after the expanded keys changed. It does
    /// not allocate.
    pub fn refold(&self, layout: &mut Layout)
        requires layout { IsLayoutOf layout.old self.now.state }
        requires size { state_size self.now.state ≤ max_items }
        ensures { layout.new ≡ layout_of self.now.state self.now.expanded }
    {
        layout.refold(&self.state, &self.expanded);
    }
    /// Finds the rows of `layout`, a layout of the state, anew after all keys were expanded. It looks up
    /// no key, and does not allocate.
    pub fn refold_all(&self, layout: &mut Layout)
        requires layout { IsLayoutOf layout.old self.now.state }
        requires size { state_size self.now.state ≤ max_items }
        requires all { self.now.expanded ≡ key_set (all_keys self.now.state.files) }
        ensures { layout.new ≡ layout_of self.now.state self.now.expanded }
    {
        layout.refold_all(&self.state, &self.expanded);
    }
}
