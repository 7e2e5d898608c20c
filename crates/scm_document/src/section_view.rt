//! The view of a section of a file.
ghost use Rattle.std.specs.Prelude.{◌≡◌, ◌<◌};
ghost use Rattle.scm_document.specs.Counts.{rows_counts};
ghost use Rattle.scm_document.specs.DocumentCalls.{row_call, section_header_call, mark_call};
ghost use Rattle.scm_document.specs.Texts.{mode_change_text, binary_text, dots_text};
ghost use Rattle.scm_document.specs.Rows.{mark_of, section_box, line_box, line_number, numbered_row, changed_row, gap_row, view_row, row_on, section_height, section_rows, is_selected, is_line_selected};
ghost use Rattle.scm_types.specs.Keys.{line_key_of};
ghost use Rattle.scm_document.specs.Pictures.{section_picture};
ghost use Rattle.scm_render.specs.Draws.{CanDraw, HasDrawn};

use crate::heading::draw_heading;
use crate::section_line_view::{SectionLineView, SectionLineViewInner};
use crate::texts::{binary_text, dots_text, mode_change_text};
use crate::title::Title;
use scm_cells::Span;
use scm_render::{Component, Viewport};
use scm_types::{
    FileMode, LineKey, RecordError, Section, SectionChangedLine, SectionKey, SelectionKey, Tristate,
};
use scm_widgets::clipped_drawing::{begin_row, show_blank_rest, show_box, show_span, show_text};
use scm_widgets::ids::ComponentId;
use scm_widgets::mask_extent::{cover_rest, highlight};
use scm_widgets::tristate_box::TristateBox;
use std::alloc::Global;

/// What is selected in a section.
#[derive(Clone, Copy)]
pub enum SectionSelection {
    /// The section itself.
    SectionHeader,
    /// The changed line at this index, counted from 0.
    ChangedLine(usize),
}

/// A section of a file.
#[derive(Drop)]
pub struct SectionView<'a> {
    /// Whether symbols beyond ASCII may be used.
    pub use_unicode: bool,
    /// Whether the marks cannot be changed.
    pub is_read_only: bool,
    /// Key of the section.
    pub section_key: SectionKey,
    /// Checkbox of the section's marks.
    pub toggle_box: TristateBox<ComponentId>,
    /// Fold box of the section.
    pub expand_box: TristateBox<ComponentId>,
    /// What is selected in the section, if anything.
    pub selection: Option<SectionSelection>,
    /// Number of sections of the file.
    pub total_num_sections: usize,
    /// Number of the section among the file's editable sections, counted from 1.
    pub editable_section_num: usize,
    /// Number of editable sections of the file.
    pub total_num_editable_sections: usize,
    /// The section.
    pub section: &'a Section<'a>,
    /// Number of the section's first line in the file before the changes, counted from 1.
    pub line_start_num: usize,
}

/// Draws the row of a line: covers the row from column `x` on, and draws `view` over it.
fn draw_line_row(
    viewport: &mut Viewport<ComponentId>,
    x: isize,
    y: isize,
    view: &SectionLineView<'_>,
) -> Result<(), RecordError>
    requires { CanDraw viewport.old (row_call (view_row view.now) x y) }
    ensures { HasDrawn viewport.old viewport.new result (row_call (view_row view.now) x y) }
{
    cover_rest(viewport, x, y);
    viewport.draw_part(x + 2, y, view)?;
    Ok(())
}

/// Returns the checkbox state of a mark.
fn mark(is_checked: bool) -> Tristate
    ensures { result ≡ mark_of is_checked }
{
    Tristate::from(is_checked)
}

impl<'a> SectionView<'a> {
    /// Returns whether the section itself is selected.
    pub(crate) fn is_selected(&self) -> bool
        ensures { result ≡ is_selected self.now }
    {
        match self.selection {
            None => false,
            Some(SectionSelection::SectionHeader) => true,
            Some(SectionSelection::ChangedLine(_)) => false,
        }
    }

    /// Returns whether line `index` is selected.
    fn is_line_selected(&self, index: usize) -> bool
        ensures { result ≡ is_line_selected index self.now.selection }
    {
        match self.selection {
            None => false,
            Some(SectionSelection::SectionHeader) => false,
            Some(SectionSelection::ChangedLine(line)) => line == index,
        }
    }

    /// Returns the checkbox of the section's own mark.
    fn section_box(&self, is_checked: bool) -> TristateBox<ComponentId>
        ensures { result ≡ section_box self.now is_checked }
    {
        TristateBox {
            use_unicode: self.use_unicode,
            is_focused: self.is_selected(),
            is_read_only: self.is_read_only,
            ..TristateBox::toggle(SelectionKey::Section(self.section_key), mark(is_checked))
        }
    }

    /// Returns the checkbox of line `index`.
    fn line_box(&self, index: usize, is_checked: bool) -> TristateBox<ComponentId>
        ensures { result ≡ line_box self.now index is_checked }
    {
        TristateBox {
            use_unicode: self.use_unicode,
            is_focused: self.is_line_selected(index),
            is_read_only: self.is_read_only,
            ..TristateBox::toggle(
                SelectionKey::Line(self.section_key.line(index)),
                mark(is_checked),
            )
        }
    }

    /// Returns the view of line `index`, a line of context.
    fn context_view<'l>(&self, index: usize, line: &'l str) -> SectionLineView<'l>
        ensures { view_row result ≡ numbered_row self.now index line.now }
    {
        SectionLineView {
            line_key: self.section_key.line(index),
            inner: SectionLineViewInner::Unchanged {
                line,
                line_num: line_number(self.line_start_num, index),
            },
        }
    }

    /// Returns the view of line `index`, a changed line.
    fn changed_view<'l>(
        &self,
        index: usize,
        line: &'l SectionChangedLine<'a>,
    ) -> SectionLineView<'l>
        ensures { view_row result ≡ changed_row self.now index line.now }
    {
        SectionLineView {
            line_key: self.section_key.line(index),
            inner: SectionLineViewInner::Changed {
                toggle_box: self.line_box(index, line.is_checked),
                change_type: line.change_type,
                line: line.line.as_str(),
            },
        }
    }

    /// Draws the header of a section of changed lines.
    fn draw_header(
        &self,
        alloc: Global,
        viewport: &mut Viewport<ComponentId>,
        x: isize,
        y: isize,
    ) -> Result<(), RecordError>
        requires { CanDraw viewport.old (section_header_call self.now x y) }
        ensures { HasDrawn viewport.old viewport.new result (section_header_call self.now x y) }
    {
        begin_row(viewport, y);
        let title = Title::Section {
            number: self.editable_section_num,
            total: self.total_num_editable_sections,
        };
        draw_heading(
            alloc,
            viewport,
            x,
            y,
            &self.toggle_box,
            &self.expand_box,
            &title,
        )?;
        highlight(viewport, y, self.is_selected());
        Ok(())
    }

    /// Draws the only row of a `FileMode` or `Binary` section.
    fn draw_mark(
        &self,
        viewport: &mut Viewport<ComponentId>,
        x: isize,
        y: isize,
        is_checked: bool,
        text: &str,
    ) -> Result<(), RecordError>
        requires { CanDraw viewport.old (mark_call self.now is_checked text.now x y) }
        ensures { HasDrawn viewport.old viewport.new result
            (mark_call self.now is_checked text.now x y) }
    {
        let toggle_box = self.section_box(is_checked);
        begin_row(viewport, y);
        cover_rest(viewport, x, y);
        show_box(viewport, x, y, &toggle_box)?;
        show_text(viewport, x + 4, y, &[Span(text)])?;
        highlight(viewport, y, self.is_selected());
        Ok(())
    }

    /// Draws a row of a section of context that shows none of the section's `count` lines: the dots,
    /// or a blank row if there are no lines.
    fn draw_gap(
        &self,
        viewport: &mut Viewport<ComponentId>,
        x: isize,
        y: isize,
        count: usize,
    ) -> Result<(), RecordError>
        requires { CanDraw viewport.old (row_call (gap_row self.now count) x y) }
        ensures { HasDrawn viewport.old viewport.new result
            (row_call (gap_row self.now count) x y) }
    {
        begin_row(viewport, y);
        if count == 0 {
            show_blank_rest(viewport, x, y)?;
            Ok(())
        } else {
            cover_rest(viewport, x, y);
            show_span(viewport, x + 6, y, dots_text(self.use_unicode))?;
            Ok(())
        }
    }
}

/// Returns the number of line `index`, if the first line has number `start`. It saturates.
fn line_number(start: usize, index: usize) -> usize
    ensures { result ≡ line_number start index }
{
    start.saturating_add(index)
}

impl<'a> SectionView<'a> {
    /// Draws row `row` of the section, counted from 0, on row `y` of the document.
    fn draw_row(
        &self,
        alloc: Global,
        viewport: &mut Viewport<ComponentId>,
        x: isize,
        y: isize,
        row: usize,
    ) -> Result<(), RecordError>
        requires row { row < section_height self.now self.now.section.now }
        requires picture { CanDraw viewport.old (row_call (row_on self.now row) x y) }
        ensures { HasDrawn viewport.old viewport.new result
            (row_call (row_on self.now row) x y) }
    {
        let line = self.line_on(row);
        match self.section {
            Section::Unchanged { lines } => match line {
                Some(index) => {
                    let text = lines.as_slice()[index].as_str();
                    draw_line_row(viewport, x, y, &self.context_view(index, text))
                }
                None => self.draw_gap(viewport, x, y, lines.len()),
            },
            Section::Changed { lines } => match line {
                Some(index) => {
                    let changed = &lines.as_slice()[index];
                    draw_line_row(viewport, x, y, &self.changed_view(index, changed))
                }
                None => self.draw_header(alloc, viewport, x, y),
            },
            Section::FileMode { is_checked, mode } => {
                let text = mode_change_text(alloc, *mode)?;
                self.draw_mark(viewport, x, y, *is_checked, text.as_str())
            }
            Section::Binary {
                is_checked,
                old_description,
                new_description,
            } => {
                let text = binary_text(alloc, old_description, new_description)?;
                self.draw_mark(viewport, x, y, *is_checked, text.as_str())
            }
        }
    }
}

impl<'a> Component for SectionView<'a> {
    type Id = ComponentId;

    ghost use Rattle.scm_document.specs.Rows.{section_id};

    ghost key = { λ v. section_id v.section_key };

    ghost picture = { section_picture };

    ghost rows = { λ v s x y. (rows_counts (section_rows v) s.rect y).rows };

    ghost calls = { λ v s x y. (rows_counts (section_rows v) s.rect y).calls };

    fn id(&self) -> ComponentId {
        ComponentId::SelectableItem(SelectionKey::Section(self.section_key))
    }

    fn draw(
        &self,
        alloc: Global,
        viewport: &mut Viewport<ComponentId>,
        x: isize,
        y: isize,
    ) -> Result<(), RecordError> {
        // Where no boxes are kept, rows off the screen are passed over.
        let (first, end) = viewport.rows_to_draw(y, self.height());
        let mut at = y.strict_add_unsigned(first);
        for row in first..end {
            self.draw_row(alloc, viewport, x, at, row)?;
            at += 1;
        }
        Ok(())
    }
}
