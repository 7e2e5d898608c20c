//! A sample component that allocates while drawing, for ids of any type, and an id that a click may
//! hit.
ghost use Rattle.std.specs.Prelude.{◌≡◌, IfOk, IfErr, string_bytes};
ghost use Rattle.scm_screen_tests.specs.Tags.{boxed_text};
ghost use Rattle.scm_errors.specs.declared.error.RecordError.TheVariants.{OutOfMemory};

use scm_cells::Span;
use scm_errors::RecordError;
use scm_render::{Clickable, Component, Viewport};
use std::alloc::Global;
use std::hash::Hash;

/// Returns `label` between brackets, which are round if `is_focused`.
pub(crate) fn boxed(alloc: Global, is_focused: bool, label: &str) -> Result<String, RecordError>
    ensures ok { IfOk result (λ text. string_bytes text ≡ boxed_text is_focused label.now) }
    ensures err { IfErr result (λ e. e ≡ OutOfMemory) }
{
    let mut text = String::new(alloc);
    text.push_str(if is_focused { "(" } else { "[" })?;
    text.push_str(label)?;
    text.push_str(if is_focused { ")" } else { "]" })?;
    Ok(text)
}

/// A label between brackets, for ids of any type. Drawing it allocates its text.
#[derive(Drop)]
pub struct Tag<'a, K> {
    pub id: K,
    pub label: &'a str,
    pub is_focused: bool,
}

impl<'a, K: Copy + Eq + Hash + Drop> Component for Tag<'a, K> {
    type Id = K;

    ghost use Rattle.scm_screen_tests.specs.Tags.{tag_picture};

    ghost key = { λ c. c.id };

    ghost picture = { λ c s x y. tag_picture c.is_focused c.label.now s x y };

    ghost rows = { λ c s x y. 0 };

    ghost calls = { λ c s x y. 1 };

    fn id(&self) -> K {
        self.id
    }

    fn draw(
        &self,
        alloc: Global,
        viewport: &mut Viewport<K>,
        x: isize,
        y: isize,
    ) -> Result<(), RecordError> {
        let text = boxed(alloc, self.is_focused, self.label)?;
        viewport.draw_span(x, y, &Span(text.as_str()))?;
        Ok(())
    }
}

/// A number as an id. A click acts on every number but 0.
#[derive(Clone, Copy, Debug, Eq, Hash, PartialEq)]
pub struct Spot {
    pub number: u8,
}

impl Clickable for Spot {
    ghost use Rattle.std.specs.Prelude.{nat_lt};

    ghost clicks = { λ spot. nat_lt 0 spot.number };

    fn is_clickable(&self) -> bool {
        0 < self.number
    }
}
