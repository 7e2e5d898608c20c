//! The store of screens that runs keep for their caller.
ghost use Rattle.std.specs.Prelude.{◌≡◌, Some, map, option_map, string_bytes};
ghost use Rattle.scm_types.specs.Edits.{modify};

use crate::events::TestingScreenshot;
use scm_types::RecordError;
use std::alloc::Global;
use std::marker::Model;

/// The screens that runs stored, by slot, and the number of frames that they drew.
#[derive(Drop)]
pub struct Screens {
    /// The last text stored in each slot, if any.
    texts: Vec<Option<String>>,
    /// The number of frames drawn.
    frames: usize,
}

impl Model for Screens {
    ghost use Rattle.scm_input.specs.Store.{Store};

    ghost Value = { Store };

    ghost use Rattle.scm_input.specs.StoreView.{store_of};

    ghost view = { store_of };
}

impl Screens {
    ghost use Rattle.std.specs.Prelude.{◌≡◌, length, nat_lt, string_bytes, IfErr, IfOk, OnErr, OnOk, []};
    ghost use Rattle.scm_errors.specs.declared.error.RecordError.TheVariants.{OutOfMemory};
    ghost use Rattle.scm_input.specs.Store.{Store, text_at, with_place, with_frame, with_text_at};

    /// Returns a store without slots, with a count of 0 frames.
    pub fn new(alloc: Global) -> Screens
        ensures { result ≡ record { texts = []; frames = 0 } }
    {
        Screens {
            texts: Vec::new(alloc),
            frames: 0,
        }
    }

    /// Adds a slot and returns it: 0, then 1 and so on.
    ///
    /// # Errors
    /// `OutOfMemory`: an allocation failed; the store is unchanged.
    pub fn place(&mut self) -> Result<TestingScreenshot, RecordError>
        ensures place { IfOk result (λ shot. shot.place ≡ length self.old.texts) }
        ensures ok { OnOk result (self.new ≡ with_place self.old) }
        ensures err { IfErr result (λ e. e ≡ OutOfMemory) }
        ensures unchanged { OnErr result (self.new ≡ self.old) }
    {
        let place = self.texts.len();
        self.texts.push(None)?;
        Ok(TestingScreenshot { place })
    }

    /// Returns the last screen stored in the slot `shot`, or else `<this screenshot was never
    /// assigned>`.
    pub fn text(&self, shot: TestingScreenshot) -> &str
        ensures { result.now ≡ text_at self.now shot.place }
    {
        match self.texts.get(shot.place) {
            Some(Some(text)) => text.as_str(),
            _ => "<this screenshot was never assigned>",
        }
    }

    /// Returns the number of frames that runs drew, or `usize::MAX` if there were more.
    pub fn frames(&self) -> usize
        ensures { result ≡ self.now.frames }
    {
        self.frames
    }

    /// Returns whether the store has the slot `place`.
    pub fn has_place(&self, place: usize) -> bool
        ensures { result ≡ nat_lt place (length self.now.texts) }
    {
        place < self.texts.len()
    }

    /// Stores the screen `text` in the slot `place`, if the store has it.
    pub fn keep(&mut self, place: usize, text: String)
        ensures { self.new ≡ with_text_at self.old place (string_bytes text) }
    {
        put_at(&mut self.texts, place, text);
    }

    /// Adds 1 to the number of frames of the store, saturating.
    pub fn add_frame(&mut self)
        ensures { self.new ≡ with_frame self.old }
    {
        self.frames = self.frames.saturating_add(1);
    }
}

/// Replaces the text at index `place`, if there is one.
fn put_at(texts: &mut Vec<Option<String>>, place: usize, text: String)
    ensures { map (λ t. option_map string_bytes t) texts.new.items
        ≡ modify (λ _. Some (string_bytes text))
        (map (λ t. option_map string_bytes t) texts.old.items) place }
{
    if place < texts.len() {
        texts[place] = Some(text);
    }
}
