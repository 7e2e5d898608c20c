//! The files of two trees and what marks ask for, path by path.
ghost use Rattle.std.specs.Prelude.{◌<◌, List, [], IfOk, OnOk, length};
ghost use Rattle.scm_tree.specs.declared.place.Entry.{Entry};
ghost use Rattle.scm_tree.specs.Places.{AreListed, IsOfMark, IsOfNew, IsOfOld};

use crate::adding::add;
use crate::row::Version;
use std::alloc::{AllocError, Global};

/// A file of a tree.
#[derive(Clone, Copy)]
pub struct Entry<'a> {
    /// The path.
    pub path: &'a [u8],

    /// The version there. The upper bits of its mode are the file's kind.
    pub version: Version,
}

/// What the marks of a shown file ask for at a path.
#[derive(Clone, Copy)]
pub struct Wish {
    /// The number of the shown file. Both paths of a renamed file have one.
    pub file: usize,

    /// The version that the marks ask for, or `None` for no file.
    pub wanted: Option<Version>,
}

/// A path of a shown file, and what its marks ask for there.
#[derive(Clone, Copy)]
pub struct Mark<'a> {
    /// The path.
    pub path: &'a [u8],

    /// What the marks ask for.
    pub wish: Wish,
}

/// A path, and what two trees and the marks have there.
#[derive(Clone, Copy)]
pub(crate) struct Place<'a> {
    pub(crate) path: &'a [u8],

    /// What the old tree has.
    pub(crate) current: Option<Version>,

    /// What the new tree has.
    pub(crate) goal: Option<Version>,

    /// What the marks ask for, if the path is shown.
    pub(crate) wish: Option<Wish>,
}

/// Returns the place of old entry `i`.
fn old_place<'a>(old: &[Entry<'a>], i: usize) -> Place<'a>
    requires { i < length old.now }
    ensures { IsOfOld old.now i result }
{
    let entry = &old[i];
    Place {
        path: entry.path,
        current: Some(entry.version),
        goal: None,
        wish: None,
    }
}

/// Returns the place of new entry `i`.
fn new_place<'a>(new: &[Entry<'a>], i: usize) -> Place<'a>
    requires { i < length new.now }
    ensures { IsOfNew new.now i result }
{
    let entry = &new[i];
    Place {
        path: entry.path,
        current: None,
        goal: Some(entry.version),
        wish: None,
    }
}

/// Returns the place of mark `i`.
fn marked_place<'a>(marks: &[Mark<'a>], i: usize) -> Place<'a>
    requires { i < length marks.now }
    ensures { IsOfMark marks.now i result }
{
    let mark = &marks[i];
    Place {
        path: mark.path,
        current: None,
        goal: None,
        wish: Some(mark.wish),
    }
}

/// Adds the places of all new entries to `places`, which has those of old ones.
///
/// # Errors
/// `AllocError`: an allocation failed.
fn add_new<'a>(places: &mut Vec<Place<'a>>, new: &[Entry<'a>]) -> Result<(), AllocError>
    ensures { OnOk result ((old : List Entry) → AreListed old [] [] places.old.items
        → AreListed old new.now [] places.new.items) }
{
    for i in 0..new.len() {
        add(places, new_place(new, i))?;
    }
    Ok(())
}

/// Adds the places of all marks to `places`, which has those of entries.
///
/// # Errors
/// `AllocError`: an allocation failed.
fn add_marks<'a>(places: &mut Vec<Place<'a>>, marks: &[Mark<'a>]) -> Result<(), AllocError>
    ensures { OnOk result ((old new : List Entry) → AreListed old new [] places.old.items
        → AreListed old new marks.now places.new.items) }
{
    for i in 0..marks.len() {
        add(places, marked_place(marks, i))?;
    }
    Ok(())
}

/// Returns the places of all entries and marks, one after another.
///
/// # Errors
/// `AllocError`: an allocation failed.
pub(crate) fn places_of<'a>(
    alloc: Global,
    old: &[Entry<'a>],
    new: &[Entry<'a>],
    marks: &[Mark<'a>],
) -> Result<Vec<Place<'a>>, AllocError>
    ensures { IfOk result (λ places. AreListed old.now new.now marks.now places.items) }
{
    let mut places = Vec::new(alloc);
    for i in 0..old.len() {
        add(&mut places, old_place(old, i))?;
    }
    add_new(&mut places, new)?;
    add_marks(&mut places, marks)?;
    Ok(places)
}
