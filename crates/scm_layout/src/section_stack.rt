//! The rows of the sections of a file, one below the other.
ghost use Rattle.std.specs.Prelude.{◌≡◌, ◌+◌, ◌≤◌, ◌<◌, Some, drop, false, get_or, length, map, slice_get, sum_by, IfOk, IsTrue};
ghost use Rattle.std.specs.List.Sorted.{IsNonDecreasingBy};
ghost use Rattle.scm_types.specs.Limits.{max_items, section_size};
ghost use Rattle.scm_rows.specs.Heights.{shape_of};
ghost use Rattle.scm_layout.specs.declared.section_rows.SectionRows.{SectionRows};
ghost use Rattle.scm_layout.specs.Refolds.{AreRowsButSection, last_end};
ghost use Rattle.scm_layout.specs.Rows.{HasAllSections, sections_height, sections_rows};
ghost use Rattle.scm_layout.specs.Searches.{SectionsFollow, count_to, section_on};
ghost use Rattle.scm_layout.specs.SectionStack.{first_or, rows_by, shapes_of};

use crate::section_folds::mend_tops;
use crate::section_rows::{SectionRows, Unfolded, narrow, refold_tops};
use scm_rows::SectionShape;
use scm_rows::section_shape::shape_of;
use scm_selection::key_set::KeySet;
use scm_types::keys::FileKey;
use scm_types::{Items, Section};
use std::alloc::{AllocError, Global};
use std::marker::Model;

/// The rows of the sections of a file, one below the other, which contracts see as their list. Rows are
/// counted from the row below the header of the file, indexes from 0.
///
/// A section begins where the one above it ends, so its end is not kept.
#[derive(Debug, Drop)]
pub struct SectionStack {
    /// The first row of each section.
    tops: Items<u32>,
    /// The end of the rows of the last section, exclusive, or 0 without sections.
    end: u32,
    /// What each section is.
    shapes: Items<SectionShape>,
}

impl Model for SectionStack {
    ghost use Rattle.std.specs.Prelude.{◌≡◌, List, length};
    ghost use Rattle.scm_layout.specs.declared.section_rows.SectionRows.{SectionRows};
    ghost use Rattle.scm_layout.specs.SectionStack.{rows_by};

    ghost Value = { List SectionRows };

    ghost view = { λ s. rows_by s.tops s.end s.shapes };

    ghost invariant = { λ s. length s.tops ≡ length s.shapes };
}

/// Returns the end of section `index`, if sections begin on the rows `tops`, and the last one ends at
/// `end`.
pub(crate) fn end_at(tops: &[u32], end: usize, index: usize) -> usize
    requires { index < length tops.now }
    ensures { result ≡ first_or (drop (index + 1) tops.now) end }
{
    let next = index + 1;
    if next < tops.len() {
        tops[next] as usize
    } else {
        end
    }
}

/// Returns the rows of section `index`, if sections begin on the rows `tops`, the last one ends at
/// `end`, and they are `shapes`.
fn row_at(tops: &[u32], end: usize, shapes: &[SectionShape], index: usize) -> SectionRows
    requires inside { index < length tops.now }
    requires lengths { length tops.now ≡ length shapes.now }
    ensures { slice_get (rows_by tops.now end shapes.now) index ≡ Some result }
{
    SectionRows {
        top: tops[index] as usize,
        end: end_at(tops, end, index),
        shape: shapes[index],
    }
}

/// Returns how many of `tops` are row `row` or above.
fn tops_to(tops: &[u32], row: usize) -> usize
    requires { IsNonDecreasingBy (λ top. top) tops.now }
    ensures count { result ≡ count_to (λ top. top) row tops.now }
    ensures most { result ≤ length tops.now }
{
    tops.partition_point(|top| *top as usize <= row)
}

/// Sets `shapes` to those of `sections`.
fn fill_shapes(shapes: &mut [SectionShape], sections: &[Section<'_>])
    requires { length shapes.old ≡ length sections.now }
    ensures { shapes.new ≡ map shape_of sections.now }
{
    for index in 0..sections.len() {
        shapes[index] = shape_of(&sections[index]);
    }
}

impl SectionStack {
    /// Returns the rows of `count` sections, whose rows are to be found.
    ///
    /// # Errors
    /// `AllocError`: an allocation failed.
    pub(crate) fn blank(alloc: Global, count: usize) -> Result<SectionStack, AllocError>
        ensures { IfOk result (λ stack. length stack ≡ count) }
    {
        let tops = vec![in alloc; 0_u32; count]?;
        let shapes = vec![in alloc; SectionShape::Mark; count]?;
        Ok(SectionStack {
            tops: Items::from(tops),
            end: 0,
            shapes: Items::from(shapes),
        })
    }

    /// Returns a copy.
    ///
    /// # Errors
    /// `AllocError`: an allocation failed.
    pub fn copy(&self, alloc: Global) -> Result<SectionStack, AllocError>
        ensures { IfOk result (λ copy. copy ≡ self.now) }
    {
        let tops = Vec::from_slice(alloc, self.tops.as_slice())?;
        let shapes = Vec::from_slice(alloc, self.shapes.as_slice())?;
        Ok(SectionStack {
            tops: Items::from(tops),
            end: self.end,
            shapes: Items::from(shapes),
        })
    }

    /// Moves all sections to the rows that they have in `other`, without an allocation. They are the
    /// same sections.
    pub fn move_as(&mut self, other: &SectionStack)
        requires { shapes_of self.old ≡ shapes_of other.now }
        ensures { self.new ≡ other.now }
    {
        self.tops
            .as_mut_slice()
            .copy_from_slice(other.tops.as_slice());
        self.end = other.end;
    }

    /// Returns the number of sections.
    pub fn count(&self) -> usize
        ensures { result ≡ length self.now }
    {
        self.tops.len()
    }

    /// Returns the rows of section `index`, if there is one.
    pub fn get(&self, index: usize) -> Option<SectionRows>
        ensures { result ≡ slice_get self.now index }
    {
        if index < self.tops.len() {
            let tops = self.tops.as_slice();
            Some(row_at(tops, self.end as usize, self.shapes.as_slice(), index))
        } else {
            None
        }
    }

    /// Returns the rows of section `index`, which there is.
    pub fn row(&self, index: usize) -> SectionRows
        requires { index < length self.now }
        ensures { (rows : SectionRows) → result ≡ get_or self.now index rows }
    {
        let tops = self.tops.as_slice();
        row_at(tops, self.end as usize, self.shapes.as_slice(), index)
    }

    /// Returns how many sections begin on row `row` or above.
    pub fn begun(&self, row: usize) -> usize
        requires { IsNonDecreasingBy (λ (r : SectionRows). r.top) self.now }
        ensures count { result ≡ count_to (λ (r : SectionRows). r.top) row self.now }
        ensures most { result ≤ length self.now }
    {
        tops_to(self.tops.as_slice(), row)
    }

    /// Returns the index of the section that has row `row`, if any.
    pub fn on(&self, row: usize) -> Option<usize>
        requires { SectionsFollow self.now }
        ensures { result ≡ section_on row self.now }
    {
        let count = self.begun(row);
        if count == 0 {
            return None;
        }
        let last = count - 1;
        if row < end_at(self.tops.as_slice(), self.end as usize, last) {
            Some(last)
        } else {
            None
        }
    }

    /// Returns the end of the last of the sections, exclusive, or 0 if there are none.
    pub(crate) fn last_end(&self) -> usize
        ensures { result ≡ last_end 0 self.now }
    {
        if self.tops.is_empty() {
            0
        } else {
            self.end as usize
        }
    }

    /// Finds the rows of `sections`, all sections of file `key`, anew. Returns how many rows they have.
    pub(crate) fn refold(
        &mut self,
        unfolded: Unfolded<'_>,
        key: FileKey,
        sections: &[Section<'_>],
    ) -> usize
        requires lengths { length self.old ≡ length sections.now }
        requires fits { length sections.now + sum_by section_size sections.now ≤ max_items }
        requires all { IsTrue unfolded.are_all → HasAllSections unfolded.keys.now key sections.now }
        ensures rows { self.new ≡ sections_rows unfolded.entry.keys.now key
            (length sections.now) 0 0 false sections.now }
        ensures height { result ≡ sections_height unfolded.entry.keys.now key
            (length sections.now) 0 false sections.now }
    {
        fill_shapes(self.shapes.as_mut_slice(), sections);
        let height = refold_tops(self.tops.as_mut_slice(), unfolded, key, sections);
        self.end = narrow(height);
        height
    }

    /// Mends the rows of `sections`, all sections of file `key`, after section `index` was folded or
    /// unfolded. Finds those of the section and of its neighbours anew, and moves those below.
    pub(crate) fn refold_section(
        &mut self,
        set: &KeySet,
        key: FileKey,
        sections: &[Section<'_>],
        index: usize,
    )
        requires rows { AreRowsButSection self.old set.now key sections.now index }
        requires index { index < length sections.now }
        requires fits { length sections.now + sum_by section_size sections.now ≤ max_items }
        ensures { self.new
            ≡ sections_rows set.now key (length sections.now) 0 0 false sections.now }
    {
        let end = self.end as usize;
        let end = mend_tops(self.tops.as_mut_slice(), end, set, key, sections, index);
        self.end = narrow(end);
    }
}
