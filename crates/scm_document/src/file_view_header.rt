//! The header of a file.

use crate::heading::draw_heading;
use crate::title::Title;
use scm_render::{Component, Viewport};
use scm_types::{FileKey, RecordError};
use scm_widgets::clipped_drawing::begin_row;
use scm_widgets::ids::ComponentId;
use scm_widgets::tristate_box::TristateBox;
use std::alloc::Global;

/// The header of a file: the checkbox of its marks, its path, and its fold box.
#[derive(Drop)]
pub struct FileViewHeader<'a> {
    /// Key of the file.
    pub file_key: FileKey,
    /// Path of the file.
    pub path: &'a str,
    /// Path before the change, or `None` if the file was not renamed.
    pub old_path: Option<&'a str>,
    /// Whether the file is selected.
    pub is_selected: bool,
    /// Checkbox of the file's marks.
    pub toggle_box: TristateBox<ComponentId>,
    /// Fold box of the file.
    pub expand_box: TristateBox<ComponentId>,
}

impl<'a> Component for FileViewHeader<'a> {
    type Id = ComponentId;

    ghost use Rattle.scm_document.specs.Pictures.{header_picture};
    ghost use Rattle.scm_widgets.specs.declared.ids.ComponentId.TheVariants as ids;

    ghost key = { λ v. ids.FileViewHeader v.file_key };

    ghost use Rattle.scm_document.specs.Counts.{header_counts};

    ghost picture = { header_picture };

    ghost rows = { λ v s x y. (header_counts s.rect y).rows };

    ghost calls = { λ v s x y. (header_counts s.rect y).calls };

    fn id(&self) -> ComponentId {
        ComponentId::FileViewHeader(self.file_key)
    }

    fn draw(
        &self,
        alloc: Global,
        viewport: &mut Viewport<ComponentId>,
        x: isize,
        y: isize,
    ) -> Result<(), RecordError> {
        begin_row(viewport, y);
        let title = Title::File {
            old_path: self.old_path,
            path: self.path,
        };
        draw_heading(
            alloc,
            viewport,
            x,
            y,
            &self.toggle_box,
            &self.expand_box,
            &title,
        )?;
        Ok(())
    }
}
