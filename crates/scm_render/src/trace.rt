//! The boxes of components.
ghost use Rattle.std.specs.Prelude.{◌≡◌, [], OnOk, OnErr, IfErr};
ghost use Rattle.std.specs.HashMap.{InsertsAll, IsUnchanged};
ghost use Rattle.scm_cells.specs.Rect.{RectInRange, union_of};
ghost use Rattle.scm_render.specs.Around.{no_rect};
ghost use Rattle.scm_errors.specs.declared.error.RecordError.TheVariants.{OutOfMemory};

use scm_cells::Rect;
use scm_errors::RecordError;
use std::alloc::Global;
use std::collections::HashMap;
use std::hash::Hash;

/// The box of a component, with its timestamp.
#[derive(Clone, Copy, Debug, Eq, Ord, PartialEq, PartialOrd)]
pub struct DrawnRect {
    /// The least rectangle around all that the component and its parts drew or covered. Columns and
    /// rows are those of the document.
    pub rect: Rect,
    /// The rank of the component in the order in which components began, counted from 0.
    pub timestamp: usize,
}

/// The box of each component, by its id.
pub type DrawnRects<Id> = HashMap<Id, DrawnRect>;

/// The bounding rectangle of a drawing, and the boxes of its components.
#[derive(Drop)]
pub struct DrawTrace<Id: Eq + Hash> {
    /// The least rectangle around all that was drawn.
    pub rect: Rect,
    /// The box of each component.
    pub components: DrawnRects<Id>,
}

impl<Id: Copy + Eq + Hash + Drop> DrawTrace<Id> {
    /// Returns an empty trace: a rectangle of zeros, and no boxes.
    pub fn new(alloc: Global) -> DrawTrace<Id>
        ensures rect { result.rect ≡ no_rect }
        ensures boxes { result.components.entries ≡ [] }
    {
        DrawTrace {
            rect: Rect::default(),
            components: HashMap::new(alloc),
        }
    }

    /// Grows the trace's rectangle to contain `rect`. An empty `rect` is ignored.
    pub fn merge_rect(&mut self, rect: Rect)
        requires left { RectInRange self.old.rect }
        requires right { RectInRange rect }
        ensures rect { self.new.rect ≡ union_of self.old.rect rect }
        ensures boxes { self.new.components ≡ self.old.components }
    {
        self.rect = self.rect.union_bounding(rect);
    }

    /// Grows the trace's rectangle to contain that of `other`, and adds the boxes of `other`. They
    /// replace boxes of the same ids.
    ///
    /// # Errors
    /// `OutOfMemory`: an allocation failed; the trace is unchanged.
    pub fn merge(&mut self, other: DrawTrace<Id>) -> Result<(), RecordError>
        requires left { RectInRange self.old.rect }
        requires right { RectInRange other.rect }
        ensures rect { OnOk result (self.new.rect ≡ union_of self.old.rect other.rect) }
        ensures boxes { OnOk result (
            InsertsAll Id.eq self.old.components other.components.entries self.new.components) }
        ensures kept_rect { OnErr result (self.new.rect ≡ self.old.rect) }
        ensures kept_boxes { OnErr result (IsUnchanged self.old.components self.new.components) }
        ensures err { IfErr result (λ e. e ≡ OutOfMemory) }
    {
        let DrawTrace { rect, components } = other;
        self.components.reserve(components.len())?;
        self.merge_rect(rect);
        for (id, drawn) in components {
            match self.components.insert(id, drawn) {
                Ok(_) => {}
                Err(_) => unreachable!(),
            }
        }
        Ok(())
    }
}
