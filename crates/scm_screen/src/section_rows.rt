//! What each row of a section shows.
ghost use Rattle.std.specs.Prelude.{◌≡◌, ◌<◌, ◌≤◌, ◌+◌, ◌^◌, length, get_or};
ghost use Rattle.scm_document.specs.Rows.{SectionRow, MarkRow, changed_row, gap_row, is_selected, mark_of, numbered_row, row_on, section_box, section_heading, section_height};
ghost use Rattle.scm_document.specs.Texts.{binary_text, mode_change_text};
ghost use Rattle.scm_layout.specs.Counts.{file_counts};
ghost use Rattle.scm_rows.specs.Context.{place};
ghost use Rattle.scm_rows.specs.Heights.{shape_of};
ghost use Rattle.scm_rows.specs.Kinds.{line_of, row_kind};
ghost use Rattle.scm_view.specs.ViewState.{ViewState, section_views_of, totals_of};
ghost use Rattle.scm_types.specs.Limits.{file_size, max_items};
ghost use Rattle.scm_document.specs.declared.section_view.SectionView.{SectionView};
ghost use Rattle.scm_strips.specs.Shows.{FileRow};
ghost use Rattle.scm_strips.specs.ShownRows.{row_of};
ghost use Rattle.scm_types.specs.Keys.{is_key};
ghost use Rattle.scm_types.specs.declared.keys.SelectionKey.TheVariants as keys;
ghost use Rattle.scm_screen.specs.Sections.{view_of};

use scm_layout::{FileCounts, SectionCounts};
use scm_rows::SectionPlace;
use scm_rows::row_kind::{RowKind, row_kind};
use scm_rows::section_shape::shape_of;
use scm_strips::Shown;
use scm_types::keys::is_key;
use scm_types::{
    File, FileKey, FileMode, Section, SectionChangedLine, SectionKey, SelectionKey, Text, Tristate,
};
use scm_view_state::ViewState;
use scm_view_state::marks::tristate_by;
use scm_widgets::ids::ComponentId;
use scm_widgets::tristate_box::TristateBox;

/// A section, and what its rows show of its file.
#[derive(Clone, Copy)]
pub(crate) struct CountedSection<'a> {
    /// Key of the section.
    pub(crate) key: SectionKey,
    /// The section.
    pub(crate) section: &'a Section<'a>,
    /// Counts of the section.
    pub(crate) counts: SectionCounts,
    /// Number of sections of the file.
    pub(crate) total: usize,
    /// Number of editable sections of the file.
    pub(crate) editable: usize,
}

/// Returns section `index` of `file`, which has the key `key` and the counts `counts`. Reads no line and no other
/// section.
pub(crate) fn counted_section<'a>(
    key: FileKey,
    counts: &FileCounts,
    index: usize,
    file: &'a File<'a>,
) -> CountedSection<'a>
    requires counts { counts.now ≡ file_counts file.now }
    requires size { file_size file.now ≤ max_items }
    requires within { index < length file.now.sections }
    ensures view { (s : ViewState) (d : SectionView) → view_of s result ≡ get_or (section_views_of s
        (totals_of file.now.sections) key 0 0 0 file.now.sections) index d }
    ensures editable { result.counts.editable_before + 1 < 2 ^ 64 }
    ensures lines { result.counts.lines_before + 1 < 2 ^ 64 }
{
    let sections = file.sections.as_slice();
    let counted = counts.sections.as_slice();
    let key = key.section(index);
    CountedSection {
        key,
        section: &sections[index],
        counts: counted[index],
        total: sections.len(),
        editable: counts.editable,
    }
}

/// Returns whether section `key` itself is selected.
fn is_selected(shown: &ViewState<'_>, key: SectionKey) -> bool
    ensures { result ≡ is_key (keys.Section key) shown.now.selection }
{
    is_key(SelectionKey::Section(key), shown.selection)
}

/// Returns the mark of one item.
pub(crate) fn mark_of(is_checked: bool) -> Tristate
    ensures { result ≡ mark_of is_checked }
{
    if is_checked {
        Tristate::True
    } else {
        Tristate::False
    }
}

/// Returns the checkbox of a section with one item.
#[tactic(auto, using(crate::proofs::SectionLemmas::header_selected))]
fn item_box(
    shown: &ViewState<'_>,
    counted: CountedSection<'_>,
    is_checked: bool,
) -> TristateBox<ComponentId>
    ensures { result ≡ section_box (view_of shown.now counted.entry) is_checked }
{
    shown.toggle_box(SelectionKey::Section(counted.key), mark_of(is_checked))
}

/// Returns the header of a section of changed lines.
#[tactic(auto, using(crate::proofs::SectionLemmas::header_selected))]
fn header(shown: &ViewState<'_>, counted: CountedSection<'_>) -> Shown<'static>
    requires { counted.counts.editable_before + 1 < 2 ^ 64 }
    ensures { row_of result ≡ FileRow (SectionRow (is_selected (view_of shown.now counted.entry))
        (section_heading (view_of shown.now counted.entry))) }
{
    let key = SelectionKey::Section(counted.key);
    let mark = tristate_by(counted.counts.checked, counted.counts.items);
    Shown::Section {
        is_selected: is_selected(shown, counted.key),
        toggle_box: shown.toggle_box(key, mark),
        expand_box: shown.expand_box(key, shown.section_fold(counted.key)),
        number: counted.counts.editable_before + 1,
        total: counted.editable,
    }
}

/// Returns the row of changed line `line`, which has index `index`.
#[tactic(auto, using(crate::proofs::SectionLemmas::line_selected))]
fn changed_line<'a>(
    shown: &ViewState<'_>,
    counted: CountedSection<'_>,
    index: usize,
    line: &'a SectionChangedLine<'a>,
) -> Shown<'a>
    ensures { row_of result ≡ FileRow (changed_row (view_of shown.now counted.entry) index line.now) }
{
    let key = counted.key.line(index);
    Shown::Line {
        key,
        toggle_box: shown.toggle_box(SelectionKey::Line(key), mark_of(line.is_checked)),
        change_type: line.change_type,
        line: line.line.as_str(),
    }
}

/// Returns the row of line of context `line`, which has index `index`.
fn context_line<'a>(
    shown: &ViewState<'_>,
    counted: CountedSection<'_>,
    index: usize,
    line: &'a str,
) -> Shown<'a>
    requires { counted.counts.lines_before + 1 < 2 ^ 64 }
    ensures { row_of result ≡ FileRow (numbered_row (view_of shown.now counted.entry) index line.now) }
{
    Shown::Context {
        key: counted.key.line(index),
        number: (counted.counts.lines_before + 1).saturating_add(index),
        line,
    }
}

/// Returns a row of a section of `count` lines of context that shows none of them.
fn gap(shown: &ViewState<'_>, counted: CountedSection<'_>, count: usize) -> Shown<'static>
    ensures { row_of result ≡ FileRow (gap_row (view_of shown.now counted.entry) count) }
{
    if count == 0 {
        Shown::Blank
    } else {
        Shown::Dots { use_unicode: true }
    }
}

/// Returns the row of a change of file mode.
#[tactic(auto, using(crate::proofs::SectionLemmas::header_selected))]
fn mode_row(
    shown: &ViewState<'_>,
    counted: CountedSection<'_>,
    is_checked: bool,
    mode: FileMode,
) -> Shown<'static>
    ensures { row_of result ≡ FileRow (MarkRow (is_selected (view_of shown.now counted.entry))
        (section_box (view_of shown.now counted.entry) is_checked) (mode_change_text mode)) }
{
    Shown::Mode {
        is_selected: is_selected(shown, counted.key),
        toggle_box: item_box(shown, counted, is_checked),
        mode,
    }
}

/// Returns the row of a change of binary contents.
#[tactic(auto, using(crate::proofs::SectionLemmas::header_selected))]
fn binary_row<'a>(
    shown: &ViewState<'_>,
    counted: CountedSection<'_>,
    is_checked: bool,
    old_description: &'a Option<Text<'a>>,
    new_description: &'a Option<Text<'a>>,
) -> Shown<'a>
    ensures { row_of result ≡ FileRow (MarkRow (is_selected (view_of shown.now counted.entry))
        (section_box (view_of shown.now counted.entry) is_checked)
        (binary_text old_description.now new_description.now)) }
{
    Shown::Binary {
        is_selected: is_selected(shown, counted.key),
        toggle_box: item_box(shown, counted, is_checked),
        old_description,
        new_description,
    }
}

/// Returns the place of a section among those of its file.
fn place_of(counted: CountedSection<'_>) -> SectionPlace
    ensures { result ≡ place counted.entry.total counted.entry.key.section_idx }
{
    SectionPlace {
        index: counted.key.section_idx,
        total: counted.total,
    }
}

/// Returns the line that row `row` of a section shows, if it shows one.
fn line_on(counted: CountedSection<'_>, row: usize) -> Option<usize>
    ensures { result ≡ line_of (row_kind (place counted.entry.total counted.entry.key.section_idx)
        (shape_of counted.entry.section.now) row) }
{
    match row_kind(place_of(counted), shape_of(counted.section), row) {
        RowKind::Line(line) | RowKind::Context(line) => Some(line),
        RowKind::Header | RowKind::Mark | RowKind::Blank => None,
    }
}

/// Returns what row `row` of a section shows, counted from 0. Makes no text.
pub(crate) fn shown_row<'a>(
    shown: &ViewState<'_>,
    counted: CountedSection<'a>,
    row: usize,
) -> Shown<'a>
    requires editable { counted.counts.editable_before + 1 < 2 ^ 64 }
    requires lines { counted.counts.lines_before + 1 < 2 ^ 64 }
    requires row { row < section_height (view_of shown.now counted) counted.section.now }
    ensures { row_of result ≡ FileRow (row_on (view_of shown.now counted.entry) row) }
{
    let line = line_on(counted, row);
    match counted.section {
        Section::Unchanged { lines } => match line {
            Some(index) => context_line(shown, counted, index, lines.as_slice()[index].as_str()),
            None => gap(shown, counted, lines.len()),
        },
        Section::Changed { lines } => match line {
            Some(index) => changed_line(shown, counted, index, &lines.as_slice()[index]),
            None => header(shown, counted),
        },
        Section::FileMode { is_checked, mode } => mode_row(shown, counted, *is_checked, *mode),
        Section::Binary {
            is_checked,
            old_description,
            new_description,
        } => binary_row(
            shown,
            counted,
            *is_checked,
            old_description,
            new_description,
        ),
    }
}
