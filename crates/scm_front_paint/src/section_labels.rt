//! What the rows of sections show in place of their own texts: labels, and behind them those with headings.
ghost use Rattle.std.specs.Prelude.{◌≡◌, ◌==◌, ◌||◌, [], is_some, length, position, IfErr, OnErr, OnOk};
ghost use Rattle.scm_errors.specs.declared.error.RecordError.TheVariants.{OutOfMemory};
ghost use Rattle.scm_front_paint.specs.Headings.{AreNamed, AreSomeNamed};
ghost use Rattle.scm_front_paint.specs.Labels.{is_of, text_of, with_label};

use crate::headings::push_labels;
use crate::labels::{Label, Labels};
use scm_errors::RecordError;
use scm_types::File;
use std::alloc::Global;
use std::marker::Model;

/// Returns whether `label` is put among `own`, and not among `named`: `own` has one of its section, or `named` has
/// none at all.
fn is_own(own: &Labels, named: &Labels, label: &Label) -> bool
    ensures { result ≡ (is_some (position (is_of label.now.file label.now.section) own.now)
        || (length named.now == 0)) }
{
    let has_one = own.has(label.file, label.section);
    let is_unnamed = named.is_empty();
    // `|`: one branch for the prover
    has_one | is_unnamed
}

/// The labels of sections. The first label of a section counts.
#[derive(Drop)]
pub(crate) struct SectionLabels {
    /// Those that were set before sections were named.
    own: Labels,
    /// Those with headings, and those that were set behind them.
    named: Labels,
}

impl Model for SectionLabels {
    ghost use Rattle.std.specs.Prelude.{List, ◌++◌};
    ghost use Rattle.scm_front_paint.specs.declared.labels.Label.{Label};

    ghost Value = { List Label };

    ghost view = { λ labels. labels.own ++ labels.named };
}

impl SectionLabels {
    /// Returns no labels.
    pub(crate) fn new(alloc: Global) -> SectionLabels
        ensures { result ≡ [] }
    {
        SectionLabels {
            own: Labels::new(alloc),
            named: Labels::new(alloc),
        }
    }

    /// Returns whether there are none.
    pub(crate) fn is_empty(&self) -> bool
        ensures { result ≡ (length self.now == 0) }
    {
        let has_none = self.own.is_empty();
        let is_unnamed = self.named.is_empty();
        // `&`: one branch for the prover
        has_none & is_unnamed
    }

    /// Returns the text of the label of section `section` of file `file`, or an empty text if it has none.
    pub(crate) fn text_of(&self, file: usize, section: usize) -> &str
        ensures { result.now ≡ text_of self.now file section }
    {
        if self.own.has(file, section) {
            self.own.text_of(file, section)
        } else {
            self.named.text_of(file, section)
        }
    }

    /// Puts `label` in place of that of the same section, or behind the others if there is none.
    ///
    /// # Errors
    ///
    /// - `OutOfMemory`: an allocation failed; the labels are unchanged.
    pub(crate) fn set(&mut self, label: Label) -> Result<(), RecordError>
        ensures ok { OnOk result (self.new ≡ with_label label self.old) }
        ensures unchanged { OnErr result (self.new ≡ self.old) }
        ensures err { IfErr result (λ e. e ≡ OutOfMemory) }
    {
        if is_own(&self.own, &self.named, &label) {
            self.own.set(label)
        } else {
            self.named.set(label)
        }
    }

    /// Gives each section of changed lines of `files` a label with the heading above it, if there is one. A section
    /// that has a label keeps it.
    ///
    /// # Errors
    ///
    /// - `OutOfMemory`: an allocation failed; some sections have their labels.
    pub(crate) fn name(&mut self, alloc: Global, files: &[File<'_>]) -> Result<(), RecordError>
        ensures ok { OnOk result (AreNamed files.now self.old self.new) }
        ensures some { OnErr result (AreSomeNamed files.now self.old self.new) }
        ensures err { IfErr result (λ e. e ≡ OutOfMemory) }
    {
        push_labels(alloc, &mut self.named, files)
    }
}
