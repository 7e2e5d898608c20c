//! The views of the sections of a file.
ghost use Rattle.std.specs.Prelude.{◌≡◌, ℕ, ◌+◌, ◌<◌, ◌≤◌, ◌^◌, false, length, get_or, IfOk};
ghost use Rattle.scm_types.specs.Limits.{file_size, max_items};
ghost use Rattle.scm_types.specs.Marks.{section_marks, tristate_of};
ghost use Rattle.scm_document.specs.declared.section_view.SectionView.{SectionView};
ghost use Rattle.scm_layout.specs.Counts.{file_counts, section_counts};
ghost use Rattle.scm_view.specs.ViewState.{section_view_of, section_views_of, selected_in, totals_of};
ghost use Rattle.scm_view_state.specs.Views.{lent_section, lent_sections, totals_in};

use crate::marks::tristate_by;
use crate::view_state::ViewState;
use scm_layout::{FileCounts, SectionCounts};
use scm_types::keys::is_key;
use scm_types::{File, Items, Section, Tristate};
use scm_view::{FileKey, SectionKey, SectionSelection, SectionView, SelectionKey};
use std::alloc::{AllocError, Global};

/// The number of sections of a file, and of those that can be edited.
#[derive(Clone, Copy)]
struct FileTotals {
    /// All sections.
    sections: usize,
    /// The sections that are not context.
    editable: usize,
}

/// What precedes a section in its file.
#[derive(Clone, Copy)]
struct Before {
    /// The number of sections that are not context.
    editable: usize,
    /// The number of lines of the old file.
    lines: usize,
}

/// Returns what is selected in section `key`, if anything.
fn selected_in(key: SectionKey, selection: SelectionKey) -> Option<SectionSelection>
    ensures { result ≡ selected_in key selection }
{
    match selection {
        SelectionKey::None | SelectionKey::File(_) => None,
        SelectionKey::Section(_) => {
            let is_itself = is_key(SelectionKey::Section(key), selection);
            is_itself.then_some(SectionSelection::SectionHeader)
        }
        SelectionKey::Line(line) => {
            let is_inside = is_key(
                SelectionKey::Section(key),
                SelectionKey::Section(line.section()),
            );
            is_inside.then_some(SectionSelection::ChangedLine(line.line_idx))
        }
    }
}

/// Returns the view of `section` with the mark `mark`, if `before` precedes it in a file with the
/// totals `totals`.
fn section_view<'a>(
    view_state: &ViewState<'_>,
    totals: FileTotals,
    key: SectionKey,
    before: Before,
    mark: Tristate,
    section: &'a Section<'a>,
) -> SectionView<'a>
    requires editable { before.editable + 1 < 2 ^ 64 }
    requires lines { before.lines + 1 < 2 ^ 64 }
    requires mark { mark ≡ tristate_of (section_marks section.now) }
    ensures { lent_section result ≡ section_view_of view_state.now (totals_in totals) key
        before.editable before.lines section.now }
{
    let header = SelectionKey::Section(key);
    SectionView {
        use_unicode: true,
        is_read_only: view_state.state.is_read_only,
        section_key: key,
        toggle_box: view_state.toggle_box(header, mark),
        expand_box: view_state.expand_box(header, view_state.section_fold(key)),
        selection: selected_in(key, view_state.selection),
        total_num_sections: totals.sections,
        editable_section_num: before.editable + 1,
        total_num_editable_sections: totals.editable,
        section,
        line_start_num: before.lines + 1,
    }
}

/// Returns the view of `section` with the counts `counts`, in a file with the totals `totals`.
fn counted_view<'a>(
    view_state: &ViewState<'_>,
    totals: FileTotals,
    key: SectionKey,
    counts: &SectionCounts,
    section: &'a Section<'a>,
) -> SectionView<'a>
    requires counted { counts.now
        ≡ section_counts counts.now.editable_before counts.now.lines_before section.now }
    requires editable { counts.now.editable_before + 1 < 2 ^ 64 }
    requires lines { counts.now.lines_before + 1 < 2 ^ 64 }
    ensures { lent_section result ≡ section_view_of view_state.now (totals_in totals) key
        counts.now.editable_before counts.now.lines_before section.now }
{
    let before = Before {
        editable: counts.editable_before,
        lines: counts.lines_before,
    };
    let mark = tristate_by(counts.checked, counts.items);
    section_view(view_state, totals, key, before, mark, section)
}

/// Returns the view of section `index`, counted from 0, of `file`, which has the counts `counts`. Reads
/// no line and no other section.
fn view_at<'a>(
    view_state: &ViewState<'_>,
    key: FileKey,
    counts: &FileCounts,
    index: usize,
    file: &'a File<'a>,
) -> SectionView<'a>
    requires counted { counts.now ≡ file_counts file.now }
    requires size { file_size file.now ≤ max_items }
    requires within { index < length file.now.sections }
    ensures { (d : SectionView) → lent_section result ≡ get_or (section_views_of view_state.now
        (totals_of file.now.sections) key 0 0 0 file.now.sections) index d }
{
    let sections = file.sections.as_slice();
    let counted = counts.sections.as_slice();
    let totals = FileTotals {
        sections: sections.len(),
        editable: counts.editable,
    };
    let key = key.section(index);
    let counted_section = &counted[index];
    let section = &sections[index];
    counted_view(view_state, totals, key, counted_section, section)
}

/// Returns the views of all sections of `file`, which has the counts `counts`. Reads no line.
pub(crate) fn counted_views<'a>(
    view_state: &ViewState<'_>,
    alloc: Global,
    key: FileKey,
    counts: &FileCounts,
    file: &'a File<'a>,
) -> Result<Items<SectionView<'a>>, AllocError>
    requires counted { counts.now ≡ file_counts file.now }
    requires size { file_size file.now ≤ max_items }
    ensures { IfOk result (λ views. lent_sections views ≡ section_views_of view_state.now
        (totals_of file.now.sections) key 0 0 0 file.now.sections) }
{
    let count = file.sections.len();
    let mut views = Vec::with_capacity(alloc, count)?;
    for index in 0..count {
        views.push(view_at(view_state, key, counts, index, file))?;
    }
    Ok(Items::from(views))
}
