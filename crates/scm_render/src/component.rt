//! Components, which draw themselves in a viewport.
ghost use Rattle.std.specs.Prelude.{◌≡◌, ℕ, ℤ};
ghost use Rattle.scm_render.specs.Picture.{Picture, PictureInRange};
ghost use Rattle.scm_render.specs.Canvas.{Sight};
ghost use Rattle.scm_errors.specs.declared.error.RecordError.TheVariants.{OutOfMemory};
ghost use Rattle.scm_render.specs.Draws.{Draws};

use crate::viewport::Viewport;
use scm_errors::RecordError;
use std::alloc::Global;
use std::hash::Hash;

/// A component, which draws itself in a viewport. Drawing adds the component's picture to the
/// viewport's canvas, and its rows and calls to the viewport's counts. They depend on the
/// component, its place, the part of the document on the screen, and the mask.
pub trait Component: Sized {
    /// The type of ids, which identify components.
    type Id: Copy + Eq + Hash + Drop;

    // The id of a component.
    ghost key: { Self → Self.Id };

    // The picture of the component at a column and row of the document, by what is in sight.
    ghost picture: { Self → Sight → ℤ → ℤ → Picture Self.Id };

    // The number of rows of the document that it begins there.
    ghost rows: { Self → Sight → ℤ → ℤ → ℕ };

    // The number of draw calls that it makes there.
    ghost calls: { Self → Sight → ℤ → ℤ → ℕ };

    /// Returns the id of the component.
    fn id(&self) -> Self::Id
        ensures { result ≡ key self.now };

    /// Draws the component with its corner at column `x` and row `y` of the document.
    ///
    /// # Errors
    /// `OutOfMemory`: an allocation failed; the frame is incomplete.
    fn draw(
        &self,
        alloc: Global,
        viewport: &mut Viewport<Self::Id>,
        x: isize,
        y: isize,
    ) -> Result<(), RecordError>
        requires { PictureInRange (picture self.now viewport.old.canvas.sight x y) }
        ensures { Draws viewport.old viewport.new result
            (picture self.now viewport.old.canvas.sight x y)
            (record {
              rows = rows self.now viewport.old.canvas.sight x y;
              calls = calls self.now viewport.old.canvas.sight x y;
            }) };
}
