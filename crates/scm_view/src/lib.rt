//! The selector's whole screen: the document with what lies over it, the part of it that a terminal shows,
//! the owner of each place, and the laws of drawing.
#![tactic(auto)]

pub use app_view::AppView;
pub use frame_index::FrameIndex;
pub use row_index::RowIndex;
pub use scm_document::{
    CommitMessageView, CommitView, CommitViewMode, FileView, FileViewHeader, RowPlace,
    SectionLineView, SectionLineViewInner, SectionSelection, SectionView,
};
pub use scm_overlay::{Dialog, HelpDialog, Menu, MenuBar, MenuItem, QuitDialog};
pub use scm_types::{FileKey, LineKey, SectionKey, SelectionKey};
pub use scm_widgets::{Button, ComponentId, QuitDialogButtonId, TristateBox, TristateIconStyle};

mod app_view;
mod frame_index;
pub mod frame_measures;
pub mod laws;
mod row_index;
