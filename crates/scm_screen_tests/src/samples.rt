//! Sample components, from one text to texts under nested masks. Each has a picture, and is proved
//! to draw it.
ghost use Rattle.scm_cells.specs.Mask.{MaskInRange};
ghost use Rattle.scm_screen_tests.specs.Masks.{MaskInRange-prop};

use scm_cells::{Mask, Span};
use scm_errors::RecordError;
use scm_render::{Component, Viewport, laws};
use std::alloc::Global;

/// A text.
#[derive(Drop)]
pub struct Caption {
    pub id: u8,
    pub text: &'static str,
}

impl Component for Caption {
    type Id = u8;

    ghost use Rattle.scm_screen_tests.specs.Samples.{caption_picture};

    ghost key = { λ c. c.id };

    ghost picture = { caption_picture };

    ghost rows = { λ c s x y. 0 };

    ghost calls = { λ c s x y. 1 };

    fn id(&self) -> u8 {
        self.id
    }

    fn draw(
        &self,
        _alloc: Global,
        viewport: &mut Viewport<u8>,
        x: isize,
        y: isize,
    ) -> Result<(), RecordError> {
        viewport.draw_text(x, y, &[Span(self.text)])?;
        Ok(())
    }
}

/// A text, and another on the row below it.
#[derive(Drop)]
pub struct Pair {
    pub id: u8,
    pub first: Caption,
    pub second: Caption,
}

impl Component for Pair {
    type Id = u8;

    ghost use Rattle.scm_screen_tests.specs.Samples.{pair_picture};

    ghost key = { λ c. c.id };

    ghost picture = { pair_picture };

    ghost rows = { λ c s x y. 0 };

    ghost calls = { λ c s x y. 2 };

    fn id(&self) -> u8 {
        self.id
    }

    fn draw(
        &self,
        _alloc: Global,
        viewport: &mut Viewport<u8>,
        x: isize,
        y: isize,
    ) -> Result<(), RecordError> {
        laws::pictures_are_composed::<u8>();
        laws::parts_are_in_range::<u8>();
        laws::calls_have_rects::<u8>();
        laws::counts_add_up();
        viewport.draw_component(x, y, &self.first)?;
        viewport.draw_component(x, y + 1, &self.second)?;
        Ok(())
    }
}

/// A text under a mask.
#[derive(Drop)]
pub struct Pane {
    pub id: u8,
    pub mask: Mask,
    pub caption: Caption,
    ghost in_range: { MaskInRange mask } by { MaskInRange-prop mask },
}

impl Component for Pane {
    type Id = u8;

    ghost use Rattle.scm_screen_tests.specs.Samples.{pane_picture};

    ghost key = { λ c. c.id };

    ghost picture = { pane_picture };

    ghost rows = { λ c s x y. 0 };

    ghost calls = { λ c s x y. 1 };

    fn id(&self) -> u8 {
        self.id
    }

    fn draw(
        &self,
        _alloc: Global,
        viewport: &mut Viewport<u8>,
        x: isize,
        y: isize,
    ) -> Result<(), RecordError> {
        laws::pictures_are_composed::<u8>();
        let outer = viewport.swap_mask(Some(self.mask));
        viewport.draw_component(x, y, &self.caption)?;
        viewport.swap_mask(outer);
        Ok(())
    }
}

/// A pane, and a text on the row below it, both drawn under a mask. The pane then sets its own.
#[derive(Drop)]
pub struct Nest {
    pub id: u8,
    pub mask: Mask,
    pub pane: Pane,
    pub below: Caption,
    ghost in_range: { MaskInRange mask } by { MaskInRange-prop mask },
}

impl Component for Nest {
    type Id = u8;

    ghost use Rattle.scm_screen_tests.specs.Samples.{nest_picture};

    ghost key = { λ c. c.id };

    ghost picture = { nest_picture };

    ghost rows = { λ c s x y. 0 };

    ghost calls = { λ c s x y. 2 };

    fn id(&self) -> u8 {
        self.id
    }

    fn draw(
        &self,
        _alloc: Global,
        viewport: &mut Viewport<u8>,
        x: isize,
        y: isize,
    ) -> Result<(), RecordError> {
        laws::pictures_are_composed::<u8>();
        laws::parts_are_in_range::<u8>();
        laws::calls_have_rects::<u8>();
        laws::counts_add_up();
        let outer = viewport.swap_mask(Some(self.mask));
        viewport.draw_component(x, y, &self.pane)?;
        viewport.draw_component(x, y + 1, &self.below)?;
        viewport.swap_mask(outer);
        Ok(())
    }
}

/// Texts, each on the row below the previous one.
#[derive(Drop)]
pub struct Column {
    pub id: u8,
    pub captions: Vec<Caption>,
}

impl Component for Column {
    type Id = u8;

    ghost use Rattle.scm_screen_tests.specs.Samples.{column_picture};

    ghost key = { λ c. c.id };

    ghost use Rattle.std.specs.Prelude.{length};

    ghost picture = { λ c s x y. column_picture c.captions.items s x y };

    ghost rows = { λ c s x y. 0 };

    ghost calls = { λ c s x y. length c.captions.items };

    fn id(&self) -> u8 {
        self.id
    }

    fn draw(
        &self,
        _alloc: Global,
        viewport: &mut Viewport<u8>,
        x: isize,
        y: isize,
    ) -> Result<(), RecordError> {
        laws::pictures_are_composed::<u8>();
        laws::parts_are_in_range::<u8>();
        laws::calls_have_rects::<u8>();
        laws::counts_add_up();
        let mut row = y;
        for caption in &self.captions {
            viewport.draw_component(x, row, caption)?;
            row += 1;
        }
        Ok(())
    }
}
