//! The titles of headings. The text of a title is made only if it is on the screen.
ghost use Rattle.scm_widgets.specs.DrawCalls.{text_call};
ghost use Rattle.scm_render.specs.Draws.{CanDraw, HasDrawn};
ghost use Rattle.std.specs.Prelude.{◌<◌, ◌∷◌, []};
ghost use Rattle.std.specs.Prelude.{◌≡◌, IfOk, string_bytes};
ghost use Rattle.scm_cells.specs.Clusters.{text_width};
ghost use Rattle.scm_document.specs.Titles.{title_text};

use crate::texts::{path_text, section_text};
use crate::widths::{path_width, section_width};
use scm_cells::Span;
use scm_render::Viewport;
use scm_types::RecordError;
use scm_widgets::clipped_drawing::{cover_texts, is_on_screen, show_text};
use scm_widgets::ids::ComponentId;
use std::alloc::{AllocError, Global};

/// What a heading shows between its boxes.
#[derive(Drop)]
pub(crate) enum Title<'a> {
    /// The path of a file.
    File {
        /// Path before the change, if the file was renamed.
        old_path: Option<&'a str>,
        /// Path of the file.
        path: &'a str,
    },
    /// The number of a section among the file's editable sections.
    Section {
        /// Number of the section, counted from 1.
        number: usize,
        /// Number of editable sections of the file.
        total: usize,
    },
}

impl<'a> Title<'a> {
    /// Returns the title's text.
    ///
    /// # Errors
    /// `AllocError`: an allocation failed.
    pub fn text(&self, alloc: Global) -> Result<String, AllocError>
        ensures ok { IfOk result (λ s. string_bytes s ≡ title_text self.now) }
    {
        match self {
            Title::File { old_path, path } => path_text(alloc, *old_path, path),
            Title::Section { number, total } => section_text(alloc, *number, *total),
        }
    }

    /// Returns the title's width, in columns.
    ///
    /// # Errors
    /// `AllocError`: the width exceeds a `usize`; no memory holds such a title.
    pub fn width(&self) -> Result<usize, AllocError>
        ensures ok { IfOk result (λ n. n ≡ text_width (title_text self.now)) }
    {
        match self {
            Title::File { old_path, path } => path_width(*old_path, path),
            Title::Section { number, total } => Ok(section_width(*number, *total)),
        }
    }
}

/// Draws `title` on row `y`, from column `x` on. If it exceeds the mask, draws an ellipsis in its
/// last column.
pub(crate) fn show_title(
    alloc: Global,
    viewport: &mut Viewport<ComponentId>,
    x: isize,
    y: isize,
    title: &Title<'_>,
) -> Result<(), RecordError>
    requires { CanDraw viewport.old (text_call x y (title_text title.now ∷ [])) }
    ensures { HasDrawn viewport.old viewport.new result
        (text_call x y (title_text title.now ∷ [])) }
{
    if is_on_screen(viewport, y) {
        let text = title.text(alloc)?;
        show_text(viewport, x, y, &[Span(text.as_str())])?;
        Ok(())
    } else {
        let width = title.width()?;
        cover_texts(viewport, x, y, width);
        Ok(())
    }
}
