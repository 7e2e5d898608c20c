//! Rows of a session's screen that name a section, and the labels that they show.
ghost use Rattle.std.specs.Prelude.{◌≡◌, ℕ, IfErr, IfOk, List, None, Some, false, if◌then◌else◌, is_some, length, slice_index_or};
ghost use Rattle.std.specs.List.{list_any};
ghost use Rattle.std.specs.Option.{option_or};
ghost use Rattle.scm_errors.specs.declared.error.RecordError.TheVariants.{OutOfMemory};
ghost use Rattle.scm_cells.specs.Screen.{Screen};
ghost use Rattle.scm_cells.specs.Symbols.{symbol_at};
ghost use Rattle.scm_record.specs.Live.{Live};
ghost use Rattle.scm_record.specs.Painted.{screen_of};
ghost use Rattle.scm_front_paint.specs.declared.labels.Label.{Label};
ghost use Rattle.scm_front_paint.specs.Headers.{AreRows, IsLabelledHeader, box_owner, folded_by, header_on, label_on, labelled, last_owner, section_of_key, text_of_header, title_end, toggled_by};
ghost use Rattle.scm_front_paint.specs.Labels.{is_of, is_title, text_of, with_label};

use crate::section_labels::SectionLabels;
use crate::shown_label::{ShownLabel, label_with};
use crate::source::has_title;
use crate::words::is_bare;
use scm_record::{ComponentId, LiveSession, RecordError, SectionKey, SelectionKey};
use std::alloc::Global;

/// Returns the section that `key` names, if it names one.
fn section_of_key(key: SelectionKey) -> Option<SectionKey>
    ensures { result ≡ section_of_key key }
{
    match key {
        SelectionKey::Section(key) => Some(key),
        SelectionKey::None | SelectionKey::File(_) | SelectionKey::Line(_) => None,
    }
}

/// Returns the section that the component `id` folds, if it is the fold box of one.
fn folded_by(id: Option<ComponentId>) -> Option<SectionKey>
    ensures { result ≡ folded_by id }
{
    match id {
        Some(ComponentId::ExpandBox(key)) => section_of_key(key),
        None
        | Some(ComponentId::App)
        | Some(ComponentId::AppFiles)
        | Some(ComponentId::CommitMessageView)
        | Some(ComponentId::CommitEditMessageButton(_))
        | Some(ComponentId::MenuBar)
        | Some(ComponentId::MenuHeader)
        | Some(ComponentId::Menu(_))
        | Some(ComponentId::MenuItem(_))
        | Some(ComponentId::FileViewHeader(_))
        | Some(ComponentId::SelectableItem(_))
        | Some(ComponentId::ToggleBox(_))
        | Some(ComponentId::HelpDialog)
        | Some(ComponentId::HelpDialogQuitButton)
        | Some(ComponentId::QuitDialog)
        | Some(ComponentId::QuitDialogButton(_)) => None,
    }
}

/// Returns the section that the component `id` toggles, if it is the checkbox of one.
fn toggled_by(id: Option<ComponentId>) -> Option<SectionKey>
    ensures { result ≡ toggled_by id }
{
    match id {
        Some(ComponentId::ToggleBox(key)) => section_of_key(key),
        None
        | Some(ComponentId::App)
        | Some(ComponentId::AppFiles)
        | Some(ComponentId::CommitMessageView)
        | Some(ComponentId::CommitEditMessageButton(_))
        | Some(ComponentId::MenuBar)
        | Some(ComponentId::MenuHeader)
        | Some(ComponentId::Menu(_))
        | Some(ComponentId::MenuItem(_))
        | Some(ComponentId::FileViewHeader(_))
        | Some(ComponentId::SelectableItem(_))
        | Some(ComponentId::ExpandBox(_))
        | Some(ComponentId::HelpDialog)
        | Some(ComponentId::HelpDialogQuitButton)
        | Some(ComponentId::QuitDialog)
        | Some(ComponentId::QuitDialogButton(_)) => None,
    }
}

/// Returns the section that a click at the end of row `row` of the screen of `session` folds, if it does.
fn folded_on(session: &LiveSession<'_>, row: usize) -> Option<SectionKey>
    ensures { result ≡ folded_by (last_owner session.now row) }
{
    let column = session.grid().width().saturating_sub(1);
    folded_by(session.owner(row, column))
}

/// Returns the section that the end of row `row` of the screen of `session` folds, which is `folded`, or else the
/// one that a checkbox on the row toggles, if there is one.
fn folded_or_toggled(
    session: &LiveSession<'_>,
    folded: Option<SectionKey>,
    row: usize,
) -> Option<SectionKey>
    ensures { result ≡ option_or folded (toggled_by (box_owner session.now row)) }
{
    match folded {
        Some(key) => Some(key),
        None => toggled_by(session.owner(row, 2)),
    }
}

/// Returns the section that row `row` of the screen of `session` names, if it names one and nothing lies
/// over the rows. `folded` is the section that a click at the end of the row folds, if it does.
fn header_on(
    session: &LiveSession<'_>,
    folded: Option<SectionKey>,
    row: usize,
) -> Option<SectionKey>
    requires { folded ≡ folded_by (last_owner session.now row) }
    ensures { result ≡ header_on session.now row }
{
    if is_bare(session) {
        folded_or_toggled(session, folded, row)
    } else {
        None
    }
}

/// Returns the column before which the title of a section ends on row `row` of the screen of `session`. `folded`
/// is the section that a click at the end of the row folds, if it does.
fn title_end(session: &LiveSession<'_>, folded: Option<SectionKey>, _row: usize) -> u16
    requires { folded ≡ folded_by (last_owner session.now _row) }
    ensures { result ≡ title_end session.now _row }
{
    let width = session.grid().width() as u16;
    if folded.is_some() {
        width.saturating_sub(3)
    } else {
        width
    }
}

/// Returns the text of the label of `section`, or an empty text if it has none.
fn text_of_header(labels: &SectionLabels, section: Option<SectionKey>) -> &str
    ensures { result.now ≡ text_of_header labels.now section }
{
    match section {
        None => "",
        Some(key) => labels.text_of(key.file_idx, key.section_idx),
    }
}

/// Returns the row of the label that row `row` of the screen of `session` shows, if it names a section that
/// has one: what is in `kept`, if that has it.
fn label_on(
    alloc: Global,
    labels: &SectionLabels,
    session: &LiveSession<'_>,
    kept: &mut [Option<ShownLabel>],
    row: usize,
) -> Result<Option<ShownLabel>, RecordError>
    ensures ok { IfOk result (λ label. label ≡ label_on labels.now session.now row) }
    ensures err { IfErr result (λ e. e ≡ OutOfMemory) }
{
    let folded = folded_on(session, row);
    let text = text_of_header(labels, header_on(session, folded, row));
    let end = title_end(session, folded, row);
    if text.is_empty() || !has_title(session.grid(), row, end as usize) {
        return Ok(None);
    }
    Ok(Some(label_with(alloc, kept, row, end, text)?))
}

/// Returns whether one of `rows` has a label.
fn has_label(rows: &[Option<ShownLabel>]) -> bool
    ensures { result ≡ list_any is_some rows.now }
{
    rows.iter().any(|row| row.is_some())
}

/// Returns `rows`, or none if none of them has a label.
fn labelled_rows(alloc: Global, rows: Vec<Option<ShownLabel>>) -> Vec<Option<ShownLabel>>
    ensures { (k : ℕ) → slice_index_or result.items k None ≡ slice_index_or rows.items k None }
{
    if has_label(rows.as_slice()) {
        rows
    } else {
        Vec::new(alloc)
    }
}

/// Returns the rows of the labels over the screen of `session`, of which `kept` were on the screen before: none if
/// no row shows a label.
pub(crate) fn label_rows(
    alloc: Global,
    labels: &SectionLabels,
    session: &LiveSession<'_>,
    kept: Vec<Option<ShownLabel>>,
) -> Result<Vec<Option<ShownLabel>>, RecordError>
    ensures ok { IfOk result (λ rows. AreRows labels.now session.now rows.items) }
    ensures err { IfErr result (λ e. e ≡ OutOfMemory) }
{
    let mut kept = kept;
    let mut rows = Vec::new(alloc);
    if labels.is_empty() {
        return Ok(rows);
    }
    for row in 0..session.grid().height() {
        rows.push(label_on(alloc, labels, session, kept.as_mut_slice(), row)?)?;
    }
    Ok(labelled_rows(alloc, rows))
}

/// Proves that labels change the titles of sections alone.
///
/// A row that shows a label names a section that has one. If it is a header, a click at its end folds that
/// section, and the label ends before the fold box. If it is the row of a mode or of binary contents, a click
/// on its checkbox toggles that section. The symbols of all other rows, and of all other columns of the row,
/// are those of the session's screen. So checkboxes and fold boxes keep their columns. A label is no part of a
/// session: who owns a place, and what a click there does, is as without labels.
///
/// This is a law: the function does nothing, and is there for its contract.
pub fn labels_change_headers_alone()
    ensures size { (labels : List Label) (l : Live)
        → ((labelled labels l).width ≡ (screen_of l).width)
        × ((labelled labels l).height ≡ length (screen_of l).rows) }
    ensures rows { (labels : List Label) (l : Live) (row c : ℕ) → label_on labels l row ≡ None
        → (labelled labels l).at row c ≡ symbol_at (screen_of l).rows row c }
    ensures columns { (labels : List Label) (l : Live) (row c : ℕ)
        → is_title (title_end l row) c ≡ false
        → (labelled labels l).at row c ≡ symbol_at (screen_of l).rows row c }
    ensures headers { (labels : List Label) (l : Live) (row : ℕ) (label : Screen)
        → label_on labels l row ≡ Some label → IsLabelledHeader labels l row label }
    // the label that was set last is that of its section, and all others stay
    ensures last { (label : Label) (labels : List Label) (file section : ℕ)
        → text_of (with_label label labels) file section
        ≡ (if is_of file section label then label.text else text_of labels file section) }
{}
