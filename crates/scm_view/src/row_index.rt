//! An index of a document's rows: what each row shows, and which rows each key has.
ghost use Rattle.std.specs.Prelude.{◌≡◌, length, slice_get, IfOk, IfErr};
ghost use Rattle.std.specs.List.{flat_map};
ghost use Rattle.scm_errors.specs.declared.error.RecordError.TheVariants.{OutOfMemory};
ghost use Rattle.scm_document.specs.Rows.{document_of};
ghost use Rattle.scm_document.specs.DocumentRows.{rows_of_key};
ghost use Rattle.scm_view.specs.RowIndex.{ShowsAccepted};
ghost use Rattle.scm_document.specs.RowIndex.{index_of, part_on, top_in, rows_in};
ghost use Rattle.scm_document.specs.Pieces.{piece_parts};

use scm_document::commit_view::{CommitView, push_pieces};
use scm_document::index_pieces::Piece;
use scm_document::key_rows::find_in;
use scm_document::row_place::RowPlace;
use scm_types::{RecordError, SelectionKey};
use std::alloc::Global;
use std::marker::Model;

/// The rows of a document: how many its message has, and the row ranges of its files and sections.
#[derive(Drop)]
pub struct RowIndex {
    /// Number of rows of the message.
    message: usize,
    /// The files, each followed by its visible sections.
    pieces: Vec<Piece>,
}

impl Model for RowIndex {
    ghost use Rattle.std.specs.Prelude.{◌++◌};
    ghost use Rattle.std.specs.List.{flat_map};
    ghost use Rattle.scm_document.specs.RowIndex.{Index, message_parts};
    ghost use Rattle.scm_document.specs.Pieces.{piece_places, piece_parts};

    ghost Value = { Index };

    ghost view = { λ x. record {
      parts = message_parts 0 x.message ++ flat_map piece_parts x.pieces.items;
      places = flat_map piece_places x.pieces.items;
    } };
}

/// Returns what row `row` of the files and sections shows, counted from 0, if there is one.
fn place_in(pieces: &[Piece], row: usize) -> Option<RowPlace>
    ensures { result ≡ slice_get (flat_map piece_parts pieces.now) row }
{
    let mut left = row;
    for piece in pieces {
        let own = piece.own_rows();
        if left < own {
            return piece.part(left);
        }
        left -= own;
    }
    None
}

impl RowIndex {
    /// Returns the index of the document that `view` shows.
    ///
    /// # Errors
    /// `OutOfMemory`: an allocation failed.
    pub fn new(alloc: Global, view: &CommitView<'_>) -> Result<RowIndex, RecordError>
        requires { ShowsAccepted view.now }
        ensures ok { IfOk result (λ index. index ≡ index_of (document_of view.now)) }
        ensures err { IfErr result (λ e. e ≡ OutOfMemory) }
    {
        let message = view.commit_message_view.height();
        let mut pieces = Vec::new(alloc);
        push_pieces(&mut pieces, 0, message + 1, view.file_views.as_slice())?;
        Ok(RowIndex { message, pieces })
    }

    /// Returns what row `row` of the document shows, if anything. Allocates no memory.
    pub fn place(&self, row: usize) -> Option<RowPlace>
        ensures { result ≡ part_on self.now.parts row }
    {
        match row.checked_sub(1) {
            None => None,
            Some(left) => match left.checked_sub(self.message) {
                None => Some(RowPlace::Message(left)),
                Some(below) => place_in(self.pieces.as_slice(), below),
            },
        }
    }

    /// Returns the first row of `key` and how many rows it has, if it has any.
    fn find(&self, key: SelectionKey) -> Option<(usize, usize)>
        ensures { result ≡ rows_of_key key self.now.places }
    {
        find_in(self.pieces.as_slice(), key)
    }

    /// Returns the first row of `key`, if it has rows. Allocates no memory.
    pub fn top(&self, key: SelectionKey) -> Option<usize>
        ensures { result ≡ top_in self.now key }
    {
        match self.find(key) {
            Some((top, _)) => Some(top),
            None => None,
        }
    }

    /// Returns how many rows `key` has, if it has any. Allocates no memory.
    pub fn rows(&self, key: SelectionKey) -> Option<usize>
        ensures { result ≡ rows_in self.now key }
    {
        match self.find(key) {
            Some((_, rows)) => Some(rows),
            None => None,
        }
    }
}
