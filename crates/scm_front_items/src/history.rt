//! What undo and redo keep: steps, each with the marks before an action.
ghost use Rattle.std.specs.Prelude.{◌≡◌, ◌++◌, [], IfNone, nat_le, option_to_list};
ghost use Rattle.scm_front_items.specs.Histories.{KeepsStep, bounded, bytes_of, fits, no_history};

use crate::runs::Step;
use scm_types::Items;
use std::alloc::Global;

/// The greatest number of steps that are kept for undo.
pub const MAX_STEPS: usize = 100;

/// The greatest number of bytes that the steps for undo take.
pub const MAX_BYTES: usize = 4_000_000;

/// The marks before the last actions, and after those that were undone.
#[derive(Debug, Drop)]
pub struct History {
    /// Steps to undo, the oldest first.
    undos: Items<Step>,
    /// Steps to do again, the oldest first.
    redos: Items<Step>,
}

/// Returns whether `steps` take at most `room` bytes.
fn have_room(steps: &[Step], room: usize) -> bool
    ensures { result ≡ nat_le (bytes_of steps.now) room }
{
    let mut left = room;
    for step in steps {
        if step.bytes > left {
            return false;
        }
        left -= step.bytes;
    }
    true
}

/// Returns whether `steps` are within the bounds.
fn fits(steps: &[Step]) -> bool
    ensures { result ≡ fits steps.now }
{
    let are_few = steps.len() <= MAX_STEPS;
    let have_room = have_room(steps, MAX_BYTES);
    are_few & have_room
}

/// Returns `steps` without the oldest ones, until they are within the bounds.
fn bounded(steps: Items<Step>) -> Items<Step>
    ensures { result ≡ bounded steps }
{
    let mut steps = steps.into_inner();
    while !steps.is_empty() && !fits(steps.as_slice()) {
        steps.remove(0);
    }
    Items::from(steps)
}

/// Returns `steps` with `step` as the newest one, without the oldest ones that are too many. If an
/// allocation fails, no step is left.
fn with_step(alloc: Global, steps: Items<Step>, step: Step) -> Items<Step>
    ensures { KeepsStep steps step result }
{
    let mut steps = steps;
    match steps.push(step) {
        Ok(()) => bounded(steps),
        Err(_) => Items::new(alloc),
    }
}

impl History {
    /// Returns a history without steps.
    pub fn new(alloc: Global) -> History
        ensures { result ≡ no_history }
    {
        History {
            undos: Items::new(alloc),
            redos: Items::new(alloc),
        }
    }

    /// Keeps `step`, the marks before an action. What was undone cannot be done again.
    ///
    /// Drops the oldest steps if there are more than [`MAX_STEPS`], or they take more than
    /// [`MAX_BYTES`]. If an allocation fails, drops all.
    pub fn remember(&mut self, alloc: Global, step: Step)
        ensures undos { KeepsStep self.old.undos step self.new.undos }
        ensures redos { self.new.redos ≡ [] }
    {
        let undos = std::mem::replace(&mut self.undos, Items::new(alloc));
        self.undos = with_step(alloc, undos, step);
        self.redos = Items::new(alloc);
    }

    /// Drops all steps.
    pub fn forget(&mut self, alloc: Global)
        ensures { self.new ≡ no_history }
    {
        self.undos = Items::new(alloc);
        self.redos = Items::new(alloc);
    }

    /// Takes the newest step to undo, if any.
    pub fn take_undo(&mut self) -> Option<Step>
        ensures taken { self.old.undos ≡ self.new.undos ++ option_to_list result }
        ensures none { IfNone result (self.old.undos ≡ []) }
        ensures redos { self.new.redos ≡ self.old.redos }
    {
        self.undos.pop()
    }

    /// Takes the newest step to do again, if any.
    pub fn take_redo(&mut self) -> Option<Step>
        ensures taken { self.old.redos ≡ self.new.redos ++ option_to_list result }
        ensures none { IfNone result (self.old.redos ≡ []) }
        ensures undos { self.new.undos ≡ self.old.undos }
    {
        self.redos.pop()
    }

    /// Keeps `step`, the marks before an undo, to do them again.
    pub fn keep_redo(&mut self, alloc: Global, step: Step)
        ensures redos { KeepsStep self.old.redos step self.new.redos }
        ensures undos { self.new.undos ≡ self.old.undos }
    {
        let redos = std::mem::replace(&mut self.redos, Items::new(alloc));
        self.redos = with_step(alloc, redos, step);
    }

    /// Keeps `step`, the marks before a redo, to undo them.
    pub fn keep_undo(&mut self, alloc: Global, step: Step)
        ensures undos { KeepsStep self.old.undos step self.new.undos }
        ensures redos { self.new.redos ≡ self.old.redos }
    {
        let undos = std::mem::replace(&mut self.undos, Items::new(alloc));
        self.undos = with_step(alloc, undos, step);
    }
}
