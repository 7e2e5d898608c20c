//! View states in words, and the words for keys and components.
use crate::checks::made;
use scm_samples::{number_of, state_of_letters};
use scm_selection::counts::{changed_count, message_count};
use scm_selection::key_lists::{first_key, section_keys};
use scm_selection::key_set::{KeySet, key_set_of};
use scm_types::{RecordError, RecordState};
use scm_view::{
    ComponentId, FileKey, LineKey, QuitDialog, QuitDialogButtonId, RowPlace, SelectionKey,
};
use scm_view_state::ViewState;
use std::alloc::Global;
use std::process::Abort;

// ---- keys and components

/// Returns the key of `word`: `f` and the number of a file, `s` and the numbers of a file and a
/// section, or `l` and the numbers of a file, a section and a line.
pub(crate) fn key_of(word: &str) -> SelectionKey {
    let mut numbers = word.trim_start_matches(['f', 's', 'l']).split('.');
    let commit_idx = 0;
    let file_idx = number_of(numbers.next());
    let section_idx = number_of(numbers.next());
    let line_idx = number_of(numbers.next());
    let file = FileKey {
        commit_idx,
        file_idx,
    };
    match word.chars().next() {
        Some('f') => SelectionKey::File(file),
        Some('s') => SelectionKey::Section(file.section(section_idx)),
        Some('l') => SelectionKey::Line(LineKey {
            commit_idx,
            file_idx,
            section_idx,
            line_idx,
        }),
        _ => SelectionKey::None,
    }
}

/// Returns what `word` says of a row: `m` and a row of the message, the key of a file for its
/// header, or the key of a section and a row of it.
pub(crate) fn place_of(word: &str) -> Option<RowPlace> {
    match key_of(word) {
        SelectionKey::File(key) => Some(RowPlace::File(key)),
        SelectionKey::Section(key) => {
            let row = number_of(word.split('.').skip(2).next());
            Some(RowPlace::Section(key, row))
        }
        SelectionKey::Line(_) => None,
        SelectionKey::None => {
            let row = word.strip_prefix('m');
            row.map(|row| RowPlace::Message(number_of(Some(row))))
        }
    }
}

/// Returns the component of `word`: `h` and the number of a file for its header, `t` and a key for
/// its toggle box, `e` and a key for its expand box, `menu` or `item` and a number, or a key.
fn id_of(word: &str) -> ComponentId {
    let letters = ['h', 'm', 'e', 'n', 'u', 'i', 't'];
    let number = number_of(Some(word.trim_start_matches(letters)));
    match word.chars().next() {
        Some('h') => ComponentId::FileViewHeader(FileKey {
            commit_idx: 0,
            file_idx: number,
        }),
        Some('t') => ComponentId::ToggleBox(key_of(word.trim_start_matches('t'))),
        Some('e') => ComponentId::ExpandBox(key_of(word.trim_start_matches('e'))),
        Some('m') => ComponentId::Menu(number),
        Some('i') => ComponentId::MenuItem(number),
        _ => ComponentId::SelectableItem(key_of(word)),
    }
}

/// Returns the component that `word` names, or `None` for `-`.
pub(crate) fn owner_of(word: &str) -> Option<ComponentId> {
    match word {
        "-" => None,
        "edit0" => Some(ComponentId::CommitEditMessageButton(0)),
        "bar" => Some(ComponentId::MenuBar),
        "quit" => Some(ComponentId::QuitDialog),
        "back" => Some(ComponentId::QuitDialogButton(QuitDialogButtonId::GoBack)),
        "leave" => Some(ComponentId::QuitDialogButton(QuitDialogButtonId::Quit)),
        "help" => Some(ComponentId::HelpDialog),
        "close" => Some(ComponentId::HelpDialogQuitButton),
        _ => Some(id_of(word)),
    }
}

// ---- view states

/// Returns the quit dialog that opens over `state`.
fn quit_dialog(state: &RecordState<'_>) -> QuitDialog {
    QuitDialog {
        num_commit_messages: message_count(state),
        num_changed_files: changed_count(state),
        focused_button: QuitDialogButtonId::Quit,
    }
}

/// Changes the key in `word`: behind `@` it is selected, behind `~` its fold is flipped.
fn change_key(view_state: &mut ViewState<'static>, word: &str) -> Result<(), RecordError> {
    match word.strip_prefix('@') {
        Some(key) => {
            view_state.selection = key_of(key);
            Ok(())
        }
        None => view_state
            .expanded
            .flip(key_of(word.trim_start_matches('~'))),
    }
}

/// Changes `view_state` as `word` says: unfolds all, or nothing, or opens a menu or a dialog, or
/// changes a key.
fn change(rt: &impl Abort, alloc: Global, view_state: &mut ViewState<'static>, word: &str) {
    match word {
        "all" => made(rt, view_state.expand_all(alloc)),
        "none" => view_state.fold_all(alloc),
        "help" => view_state.is_help_open = true,
        "quit" => view_state.quit_dialog = Some(quit_dialog(&view_state.state)),
        "menu0" => view_state.open_menu = Some(0),
        "menu2" => view_state.open_menu = Some(2),
        _ => made(rt, change_key(view_state, word)),
    }
}

/// Returns the keys of the sections of `state`.
fn section_set(rt: &impl Abort, alloc: Global, state: &RecordState<'static>) -> KeySet {
    let sections = made(rt, section_keys(alloc, state.files.as_slice()));
    made(rt, key_set_of(alloc, sections.as_slice()))
}

/// Returns the view state with which a session over `state` begins: all sections are unfolded, and
/// no file is.
fn start(rt: &impl Abort, alloc: Global, state: RecordState<'static>) -> ViewState<'static> {
    let expanded = section_set(rt, alloc, &state);
    let selection = first_key(state.files.as_slice());
    ViewState::new(state, selection, expanded)
}

/// Returns the view state of `words`: a state in letters, as a session begins with it, and what is
/// changed of it.
pub(crate) fn shown(rt: &impl Abort, alloc: Global, words: &str) -> ViewState<'static> {
    let mut words = words.split_whitespace();
    let state = made(rt, state_of_letters(alloc, words.next().unwrap_or("")));
    let mut view_state = start(rt, alloc, state);
    for word in words {
        change(rt, alloc, &mut view_state, word);
    }
    view_state
}
