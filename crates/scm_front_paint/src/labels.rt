//! Labels of sections: texts that the rows of sections show in place of their own.
ghost use Rattle.std.specs.Prelude.{◌≡◌, ◌<◌, ◌≤◌, ◌==◌, ◌++◌, ◌∷◌, [], true, false, is_some, length, IfErr, IfOk, IsTrue, OnErr, OnOk, position, slice_set};
ghost use Rattle.std.specs.List.Sorted.{IsPartitionPoint};
ghost use Rattle.scm_errors.specs.declared.error.RecordError.TheVariants.{OutOfMemory};
ghost use Rattle.scm_front_paint.specs.Labels.{AreOrdered, is_before, is_of, label_screen, text_of, with_label};

use scm_cells::{Grid, text_width};
use scm_errors::RecordError;
use scm_types::{Items, OwnedText};
use std::alloc::Global;
use std::marker::Model;

/// A label of a section. Indexes are counted from 0.
#[derive(Drop)]
pub struct Label {
    /// The index of the file in the state.
    pub file: usize,
    /// The index of the section in the file.
    pub section: usize,
    /// What the row of the section shows in place of its own text. Nothing else is shown in place of an empty
    /// text: the section has no label then.
    pub text: OwnedText,
}

/// Returns whether `label` is of section `section` of file `file`.
fn is_of(file: usize, section: usize, label: &Label) -> bool
    ensures { result ≡ is_of file section label.now }
{
    let is_file = label.file == file;
    let is_section = label.section == section;
    // `&`: one branch for the prover
    is_file & is_section
}

/// Returns whether `label` is of a section before section `section` of file `file`.
fn is_before(file: usize, section: usize, label: &Label) -> bool
    ensures { result ≡ is_before file section label.now }
{
    let is_earlier = label.file < file;
    let is_file = label.file == file;
    let is_above = label.section < section;
    // `&` and `|`: one branch for the prover
    is_earlier | (is_file & is_above)
}

/// Returns how many of `labels` are of sections before section `section` of file `file`.
fn count_before(labels: &[Label], file: usize, section: usize) -> usize
    requires { AreOrdered labels.now }
    ensures bound { result ≤ length labels.now }
    ensures point { IsPartitionPoint (λ l. is_before file section l ≡ true)
        (λ l. is_before file section l ≡ false) labels.now result }
{
    labels.partition_point(|label| is_before(file, section, label))
}

/// Returns the index of the label of section `section` of file `file`, if it has one. Looks at few of `labels`,
/// which are in order.
fn position_by_halves(labels: &[Label], file: usize, section: usize) -> Option<usize>
    requires { AreOrdered labels.now }
    ensures { result ≡ position (is_of file section) labels.now }
{
    let index = count_before(labels, file, section);
    if index < labels.len() && is_of(file, section, &labels[index]) {
        Some(index)
    } else {
        None
    }
}

/// Returns the index of the label of section `section` of file `file`, if it has one. Looks at all `labels`.
fn position_of(labels: &[Label], file: usize, section: usize) -> Option<usize>
    ensures { result ≡ position (is_of file section) labels.now }
{
    labels.iter().position(|label| is_of(file, section, label))
}

/// Returns whether the last of `labels` is of a section before that of `label`, or there is none.
fn is_behind(labels: &[Label], label: &Label) -> bool
    ensures { IsTrue result → AreOrdered labels.now → AreOrdered (labels.now ++ label.now ∷ []) }
{
    match labels.last() {
        None => true,
        Some(last) => is_before(label.file, label.section, last),
    }
}

/// Puts `label` in place of label `index`.
fn replace_at(labels: &mut Items<Label>, index: usize, label: Label)
    requires { index < length labels.old }
    ensures { labels.new ≡ slice_set labels.old index label }
{
    labels.as_mut_slice()[index] = label;
}

/// Labels, of which each section has at most one. They are found by halves as long as each was set behind those
/// of earlier sections.
#[derive(Drop)]
pub(crate) struct Labels {
    /// The labels.
    list: Items<Label>,
    /// Whether each is of a section before those of the labels behind it.
    is_ordered: bool,
}

impl Model for Labels {
    ghost use Rattle.std.specs.Prelude.{IsTrue, List};
    ghost use Rattle.scm_front_paint.specs.declared.labels.Label.{Label};
    ghost use Rattle.scm_front_paint.specs.Labels.{AreOrdered};

    ghost Value = { List Label };

    ghost view = { λ labels. labels.list };

    ghost invariant = { λ labels. IsTrue labels.is_ordered → AreOrdered labels.list };
}

impl Labels {
    /// Returns no labels.
    pub(crate) fn new(alloc: Global) -> Labels
        ensures { result ≡ [] }
    {
        Labels {
            list: Items::new(alloc),
            is_ordered: true,
        }
    }

    /// Returns whether there are none.
    pub(crate) fn is_empty(&self) -> bool
        ensures { result ≡ (length self.now == 0) }
    {
        self.list.is_empty()
    }

    /// Returns the index of the label of section `section` of file `file`, if it has one.
    fn position(&self, file: usize, section: usize) -> Option<usize>
        ensures { result ≡ position (is_of file section) self.now }
    {
        let labels = self.list.as_slice();
        if self.is_ordered {
            position_by_halves(labels, file, section)
        } else {
            position_of(labels, file, section)
        }
    }

    /// Returns the text of the label of section `section` of file `file`, or an empty text if it has none.
    pub(crate) fn text_of(&self, file: usize, section: usize) -> &str
        ensures { result.now ≡ text_of self.now file section }
    {
        match self.position(file, section) {
            None => "",
            Some(index) => self.list.as_slice()[index].text.as_str(),
        }
    }

    /// Returns whether section `section` of file `file` has a label.
    pub(crate) fn has(&self, file: usize, section: usize) -> bool
        ensures { result ≡ is_some (position (is_of file section) self.now) }
    {
        self.position(file, section).is_some()
    }

    /// Puts `label` behind the others.
    ///
    /// # Errors
    ///
    /// - `OutOfMemory`: an allocation failed; the labels are unchanged.
    pub(crate) fn push(&mut self, label: Label) -> Result<(), RecordError>
        ensures ok { OnOk result (self.new ≡ self.old ++ label ∷ []) }
        ensures unchanged { OnErr result (self.new ≡ self.old) }
        ensures err { IfErr result (λ e. e ≡ OutOfMemory) }
    {
        let is_behind = is_behind(self.list.as_slice(), &label);
        self.list.push(label)?;
        self.is_ordered = self.is_ordered & is_behind;
        Ok(())
    }

    /// Puts `label` in place of that of the same section, or behind the others if there is none.
    ///
    /// # Errors
    ///
    /// - `OutOfMemory`: an allocation failed; the labels are unchanged.
    pub(crate) fn set(&mut self, label: Label) -> Result<(), RecordError>
        ensures ok { OnOk result (self.new ≡ with_label label self.old) }
        ensures unchanged { OnErr result (self.new ≡ self.old) }
        ensures err { IfErr result (λ e. e ≡ OutOfMemory) }
    {
        match self.position(label.file, label.section) {
            Some(index) => {
                replace_at(&mut self.list, index, label);
                Ok(())
            }
            None => self.push(label),
        }
    }
}

/// Returns a row of `end` columns with `text` as the title of a section, cut off as that is.
pub(crate) fn label_grid(alloc: Global, end: u16, text: &str) -> Result<Grid, RecordError>
    ensures ok { IfOk result (λ grid. grid ≡ label_screen end text.now) }
    ensures err { IfErr result (λ e. e ≡ OutOfMemory) }
{
    let high = end as usize;
    let mut grid = Grid::new(alloc, end, 1)?;
    grid.put(0, 6, text, 6, high)?;
    if high.saturating_sub(6) < text_width(text) {
        let last = 0_isize.strict_add_unsigned(high.saturating_sub(1));
        grid.put(0, last, "…", 6, high)?;
    }
    Ok(grid)
}
