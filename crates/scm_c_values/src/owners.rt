//! The owner of a place on the screen, as a C program sees it.
ghost use Rattle.std.specs.Prelude.{◌≡◌};
ghost use Rattle.scm_record.specs.Frames.{scene_of};
ghost use Rattle.scm_record.specs.FrameQueries.{hit};
ghost use Rattle.scm_c_values.specs.Keys.{
  item_of_key,
  key_of_component,
  key_of_commit,
  key_of_file,
  key_of_item,
  key_of_owner,
  no_key,
  code_of_component,
  code_of_kind,
  code_of_owner,
};

use crate::codes;
use scm_record::{
    ComponentId, FileKey, ItemKind, LineKey, LiveSession, SectionKey, SelectionKey, ViewState,
};

/// The indices of the item that a place belongs to, each counted from 0. `usize::MAX` is none.
#[repr(C)]
#[derive(Clone, Copy)]
pub struct Key {
    /// The index of the commit whose view shows the place, counted from 0.
    pub commit: usize,
    /// The index of the file in the state, counted from 0.
    pub file: usize,
    /// The index of the section in its file, counted from 0.
    pub section: usize,
    /// The index of the line in its section, counted from 0.
    pub line: usize,
}

impl Key {
    /// Returns the key that names nothing.
    pub fn none() -> Key
        ensures { result ≡ no_key }
    {
        Key {
            commit: usize::MAX,
            file: usize::MAX,
            section: usize::MAX,
            line: usize::MAX,
        }
    }

    /// Returns the key of commit `commit`.
    fn of_commit(commit: usize) -> Key
        ensures { result ≡ key_of_commit commit }
    {
        Key {
            commit,
            ..Key::none()
        }
    }

    /// Returns the key of a file.
    fn of_file(key: FileKey) -> Key
        ensures { result ≡ key_of_file key }
    {
        Key {
            commit: key.commit_idx,
            file: key.file_idx,
            ..Key::none()
        }
    }

    /// Returns the key of a selected file, section or line.
    pub fn of_item(key: SelectionKey) -> Key
        ensures { result ≡ key_of_item key }
    {
        match key {
            SelectionKey::None => Key::none(),
            SelectionKey::File(key) => Key::of_file(key),
            SelectionKey::Section(key) => Key {
                commit: key.commit_idx,
                file: key.file_idx,
                section: key.section_idx,
                ..Key::none()
            },
            SelectionKey::Line(key) => Key {
                commit: key.commit_idx,
                file: key.file_idx,
                section: key.section_idx,
                line: key.line_idx,
            },
        }
    }

    /// Returns the key of the item that component `id` belongs to.
    fn of_component(id: ComponentId) -> Key
        ensures { result ≡ key_of_component id }
    {
        match id {
            ComponentId::CommitEditMessageButton(commit) => Key::of_commit(commit),
            ComponentId::FileViewHeader(key) => Key::of_file(key),
            ComponentId::SelectableItem(key)
            | ComponentId::ToggleBox(key)
            | ComponentId::ExpandBox(key) => Key::of_item(key),
            ComponentId::App
            | ComponentId::AppFiles
            | ComponentId::MenuBar
            | ComponentId::MenuHeader
            | ComponentId::Menu(_)
            | ComponentId::MenuItem(_)
            | ComponentId::CommitMessageView
            | ComponentId::QuitDialog
            | ComponentId::QuitDialogButton(_)
            | ComponentId::HelpDialog
            | ComponentId::HelpDialogQuitButton => Key::none(),
        }
    }

    /// Returns the key of the item that `owner` belongs to.
    fn of_owner(owner: Option<ComponentId>) -> Key
        ensures { result ≡ key_of_owner owner }
    {
        match owner {
            None => Key::none(),
            Some(id) => Key::of_component(id),
        }
    }
}

/// Returns the code of `kind`.
fn kind_code(kind: ItemKind) -> u32
    ensures { result ≡ code_of_kind kind }
{
    match kind {
        ItemKind::Nothing => codes::NOBODY,
        ItemKind::File => codes::FILE_EDGE,
        ItemKind::Section => codes::SECTION,
        ItemKind::Context => codes::CONTEXT,
        ItemKind::Added => codes::ADDED,
        ItemKind::Removed => codes::REMOVED,
        ItemKind::Mode => codes::MODE,
        ItemKind::Binary => codes::BINARY,
    }
}

/// Returns the code of component `id`, in the view state `view_state`.
fn component_code(view_state: &ViewState<'_>, id: ComponentId) -> u32
    ensures { result ≡ code_of_component view_state.now id }
{
    match id {
        ComponentId::MenuBar | ComponentId::Menu(_) => codes::MENU,
        ComponentId::MenuItem(_) => codes::MENU_ITEM,
        ComponentId::CommitEditMessageButton(_) => codes::BUTTON,
        ComponentId::FileViewHeader(_) => codes::FILE,
        ComponentId::SelectableItem(key) => kind_code(view_state.item_kind(key)),
        ComponentId::ToggleBox(_) => codes::MARK,
        ComponentId::ExpandBox(_) => codes::FOLD,
        ComponentId::QuitDialog | ComponentId::HelpDialog => codes::DIALOG,
        ComponentId::QuitDialogButton(_) | ComponentId::HelpDialogQuitButton => codes::BUTTON,
        ComponentId::App
        | ComponentId::AppFiles
        | ComponentId::MenuHeader
        | ComponentId::CommitMessageView => codes::NOBODY,
    }
}

/// Returns the code of `owner`, in the view state `view_state`.
fn owner_code(view_state: &ViewState<'_>, owner: Option<ComponentId>) -> u32
    ensures { result ≡ code_of_owner view_state.now owner }
{
    match owner {
        None => codes::NOBODY,
        Some(id) => component_code(view_state, id),
    }
}

/// Returns the code and the key of the owner at `row`, `column` of the screen of `live`, both counted from 0.
pub fn owner_at(live: &LiveSession<'static>, row: usize, column: usize) -> (u32, Key)
    ensures code { result.0 ≡ code_of_owner live.now.session.shown
        (hit (scene_of live.now.kind live.now.session) live.now.session.scroll row column) }
    ensures key { result.1 ≡ key_of_owner
        (hit (scene_of live.now.kind live.now.session) live.now.session.scroll row column) }
{
    let owner = live.owner(row, column);
    (owner_code(live.view_state(), owner), Key::of_owner(owner))
}

/// Returns the item that `key` names.
pub fn item_of_key(key: &Key) -> SelectionKey
    ensures { result ≡ item_of_key key.now }
{
    if key.file == usize::MAX {
        SelectionKey::None
    } else if key.section == usize::MAX {
        SelectionKey::File(FileKey {
            commit_idx: key.commit,
            file_idx: key.file,
        })
    } else if key.line == usize::MAX {
        SelectionKey::Section(SectionKey {
            commit_idx: key.commit,
            file_idx: key.file,
            section_idx: key.section,
        })
    } else {
        SelectionKey::Line(LineKey {
            commit_idx: key.commit,
            file_idx: key.file,
            section_idx: key.section,
            line_idx: key.line,
        })
    }
}
