//! Whether none, some or all of a list of items are checked.
ghost use Rattle.std.specs.Prelude.{◌≡◌, if◌then◌else◌};
ghost use Rattle.scm_types.specs.declared.tristate.Tristate.TheVariants as tristate;
ghost use Rattle.scm_types.specs.Seen.{none_seen, seen_tristate, with_mark};

/// Whether none, some or all of a list of items are checked.
#[derive(Clone, Debug, Drop, PartialEq, Eq, PartialOrd, Ord, Hash)]
pub enum Tristate {
    /// No item is checked, or there are no items.
    False,

    /// Some items are checked, but not all.
    Partial,

    /// All items are checked, and there is at least one.
    True,
}

impl From<bool> for Tristate {
    ghost from_gives = { λ b t. t ≡ (if b then tristate.True else tristate.False) };

    fn from(value: bool) -> Tristate {
        if value {
            Tristate::True
        } else {
            Tristate::False
        }
    }
}

/// The marks seen so far in a list.
#[derive(Clone, Copy)]
pub(crate) struct Seen {
    /// Whether a checked item was seen.
    checked: bool,

    /// Whether an unchecked item was seen.
    unchecked: bool,
}

impl Seen {
    /// Returns the value before the first mark.
    pub(crate) fn none() -> Seen
        ensures { result ≡ none_seen }
    {
        Seen {
            checked: false,
            unchecked: false,
        }
    }

    /// Returns the value after `mark`.
    pub(crate) fn with(self, mark: bool) -> Seen
        ensures { result ≡ with_mark self mark }
    {
        Seen {
            checked: self.checked || mark,
            unchecked: self.unchecked || !mark,
        }
    }

    /// Returns the tristate of the marks seen.
    pub(crate) fn tristate(self) -> Tristate
        ensures { result ≡ seen_tristate self }
    {
        if !self.checked {
            Tristate::False
        } else if self.unchecked {
            Tristate::Partial
        } else {
            Tristate::True
        }
    }
}
