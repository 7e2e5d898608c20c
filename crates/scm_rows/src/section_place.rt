//! The lines of context that a section shows, by its place among the sections of its file.
ghost use Rattle.std.specs.Prelude.{◌≡◌, ◌-◌, ◌≤◌};
ghost use Rattle.scm_rows.specs.Context.{are_all_shown, context_height, dots_height, first_below, has_dots, is_first, is_last, lines_above};

/// The place of a section among the sections of its file.
#[derive(Clone, Copy, Debug)]
pub struct SectionPlace {
    /// The index of the section, counted from 0.
    pub index: usize,
    /// The number of sections of the file.
    pub total: usize,
}

impl SectionPlace {
    /// Returns whether the section is the first of its file.
    fn is_first(self) -> bool
        ensures { result ≡ is_first self }
    {
        self.index == 0
    }

    /// Returns whether the section is the last of its file.
    fn is_last(self) -> bool
        ensures { result ≡ is_last self }
    {
        match self.total.checked_sub(1) {
            None => false,
            Some(last) => self.index == last,
        }
    }

    /// Returns whether all of `count` lines of context are shown: at most 6, between two sections.
    fn are_all_shown(self, count: usize) -> bool
        ensures { result ≡ are_all_shown self count }
    {
        let is_first = self.is_first();
        let is_last = self.is_last();
        // `&`: one branch for the prover
        !is_first & (!is_last & (count <= 6))
    }

    /// Returns how many of `count` lines of context are shown above the dots.
    pub fn lines_above(self, count: usize) -> usize
        ensures lines { result ≡ lines_above self count }
        ensures most { result ≤ count }
        ensures few { result ≤ 6 }
    {
        if self.are_all_shown(count) {
            count
        } else if self.is_first() {
            0
        } else {
            count.min(3)
        }
    }

    /// Returns whether `count` lines of context have a row of dots.
    pub fn has_dots(self, count: usize) -> bool
        ensures { result ≡ has_dots self count }
    {
        let is_whole = self.are_all_shown(count);
        // `&`: one branch for the prover
        !is_whole & (count > 3)
    }

    /// Returns how many rows of dots `count` lines of context have: 0 or 1.
    pub fn dots_height(self, count: usize) -> usize
        ensures rows { result ≡ dots_height self count }
        ensures most { result ≤ 1 }
    {
        if self.has_dots(count) { 1 } else { 0 }
    }

    /// Returns the index of the first line that is shown below the dots; `count` if there is none.
    pub fn first_below(self, count: usize) -> usize
        ensures line { result ≡ first_below self count }
        ensures most { result ≤ count }
        ensures few { count - result ≤ 3 }
    {
        if self.are_all_shown(count) {
            count
        } else if self.is_last() {
            count
        } else {
            count.saturating_sub(3)
        }
    }

    /// Returns how many rows a section of `count` lines of context has.
    pub fn context_height(self, count: usize) -> usize
        ensures { result ≡ context_height self count }
    {
        if count == 0 {
            1
        } else {
            let above = self.lines_above(count);
            let below = count - self.first_below(count);
            above + (self.dots_height(count) + below)
        }
    }
}
