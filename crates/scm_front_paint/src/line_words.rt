//! What is set off in a line, as a painter keeps it.
use crate::columns::Columns;
use std::marker::Model;

/// What is set off in a line of a pair, with the lines for which it was found.
#[derive(Drop)]
pub(crate) struct LineWords {
    /// The removed line.
    pub(crate) old: String,
    /// The added line.
    pub(crate) new: String,
    /// Whether the removed line is meant.
    pub(crate) is_old: bool,
    /// The column before which the window ends.
    pub(crate) edge: usize,
    /// The columns of the words that differ, up to the window's edge.
    pub(crate) columns: Vec<Columns>,
}

impl Model for LineWords {
    ghost use Rattle.std.specs.Prelude.{string_bytes};
    ghost use Rattle.scm_front_paint.specs.LineValue.{LineValue};
    ghost use Rattle.scm_front_paint.specs.Words.{AreColumns};

    ghost Value = { LineValue };

    ghost view = { λ w. record {
      old = string_bytes w.old;
      new = string_bytes w.new;
      is_old = w.is_old;
      edge = w.edge;
      columns = w.columns.items;
    } };

    ghost invariant = { λ w.
        AreColumns w.edge (string_bytes w.old) (string_bytes w.new) w.is_old w.columns.items };
}
