//! The state of a selection, and its limits.
ghost use Rattle.std.specs.Prelude.{◌≡◌, ◌-◌, ◌^◌, [], false, min};
ghost use Rattle.scm_types.specs.Limits.{is_accepted_state, state_size};

use crate::file::File;
use crate::items::Items;
use crate::limits::{files_size, has_short_messages, has_short_texts_in_files};
use crate::text::OwnedText;
use serde::{Deserialize, Serialize};
use std::alloc::Global;

/// The state of a selection: commits, and files with their changes and marks.
#[derive(Debug, Drop, PartialEq, Eq, Serialize, Deserialize)]
pub struct RecordState<'a> {
    /// Whether the user cannot change the marks.
    pub is_read_only: bool,

    /// The commits that the changes go to. The first one gets the selected changes.
    pub commits: Items<Commit>,

    /// The files, in the order of display.
    pub files: Items<File<'a>>,
}

/// A commit to which changes go.
#[derive(Debug, Default, Drop, PartialEq, Eq, Serialize, Deserialize)]
pub struct Commit {
    /// The message, or `None` if there is nothing to edit.
    pub message: Option<OwnedText>,
}

impl<'a> RecordState<'a> {
    /// The greatest number of files, sections and lines together that an accepted state has.
    pub const MAX_ITEMS: usize = 16_000_000;

    /// The greatest scroll offset of a session, in rows.
    pub const MAX_SCROLL: usize = 2 * Self::MAX_ITEMS;

    /// The greatest length of each text of an accepted state, in bytes of UTF-8.
    pub const MAX_TEXT: usize = 1_000_000;

    /// Returns a state without commits and files that is not read-only. It takes no memory.
    pub fn empty(alloc: Global) -> RecordState<'a>
        ensures { result ≡ record { is_read_only = false; commits = []; files = [] } }
    {
        RecordState {
            is_read_only: false,
            commits: Items::new(alloc),
            files: Items::new(alloc),
        }
    }

    /// Returns the number of files, sections and lines together, at most `usize::MAX`.
    ///
    /// It is linear in the number of files and sections, and allocates nothing.
    pub fn size(&self) -> usize
        ensures { result ≡ min (state_size self.now) (2 ^ 64 - 1) }
    {
        files_size(self.files.as_slice())
    }

    /// Returns whether the state is within the limits.
    ///
    /// A state has at most two commits, and at most [`RecordState::MAX_ITEMS`] files, sections and
    /// lines together. Each message, path, old path, line and description has at most
    /// [`RecordState::MAX_TEXT`] bytes.
    ///
    /// The test is linear in the number of files, sections and lines, and allocates nothing.
    #[tactic(auto, unfolding(crate::specs::Limits::max_items))]
    pub fn is_accepted(&self) -> bool
        ensures { result ≡ is_accepted_state self.now }
    {
        self.commits.len() <= 2
            && has_short_messages(self.commits.as_slice())
            && self.size() <= Self::MAX_ITEMS
            && has_short_texts_in_files(self.files.as_slice())
    }
}
