//! The lines that have spans, by their keys.
ghost use Rattle.std.specs.Prelude.{◌≡◌, ◌==◌, [], length, IfErr, OnErr, OnOk};
ghost use Rattle.std.specs.Option.{option_copied};
ghost use Rattle.scm_errors.specs.declared.error.RecordError.TheVariants.{OutOfMemory};
ghost use Rattle.scm_front_paint.specs.Syntax.{IsWithLine, line_runs, line_with};

use crate::runs::{LineRuns, line_runs};
use crate::syntax::SyntaxSpan;
use scm_errors::RecordError;
use scm_types::LineKey;
use std::alloc::Global;
use std::collections::BTreeMap;
use std::marker::Model;

/// The lines that have spans. They are found by halves.
#[derive(Drop)]
pub(crate) struct SyntaxLines {
    /// The lines, by their keys.
    map: BTreeMap<LineKey, LineRuns>,
}

impl Model for SyntaxLines {
    ghost use Rattle.scm_front_paint.specs.Syntax.{Lines};

    ghost Value = { Lines };

    ghost view = { λ lines. lines.map.entries };
}

impl SyntaxLines {
    /// Returns no lines.
    pub(crate) fn new(alloc: Global) -> SyntaxLines
        ensures { result ≡ [] }
    {
        SyntaxLines {
            map: BTreeMap::new(alloc),
        }
    }

    /// Returns whether there are none.
    pub(crate) fn is_empty(&self) -> bool
        ensures { result ≡ (length self.now == 0) }
    {
        self.map.len() == 0
    }

    /// Returns the line with the key `key`, if it has spans.
    pub(crate) fn get(&self, key: LineKey) -> Option<&LineRuns>
        ensures { option_copied result ≡ line_with self.now key }
    {
        self.map.get(&key)
    }

    /// Gives the line with the key `key` and the text `text` the spans `spans`, in place of those that it had.
    ///
    /// # Errors
    ///
    /// - `OutOfMemory`: an allocation failed; the lines are unchanged.
    pub(crate) fn set(
        &mut self,
        alloc: Global,
        key: LineKey,
        text: &str,
        spans: &[SyntaxSpan],
    ) -> Result<(), RecordError>
        ensures ok { OnOk result
            (IsWithLine key (line_runs text.now spans.now) self.old self.new) }
        ensures unchanged { OnErr result (self.new ≡ self.old) }
        ensures err { IfErr result (λ e. e ≡ OutOfMemory) }
    {
        let line = line_runs(alloc, text, spans)?;
        self.map.insert(key, line)?;
        Ok(())
    }
}
