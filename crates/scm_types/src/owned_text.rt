//! Owned texts of a state.
ghost use Rattle.std.specs.Prelude.{◌≡◌, ◌==◌, ℕ, List, length, Some, nat_eq, refl};
ghost use Rattle.std.specs.Ordering.{nat_cmp};
ghost use Rattle.std.specs.Hash as fed;
ghost use Rattle.std.specs.String.{string_bytes};
ghost use Rattle.std.specs.Cmp;
ghost use Rattle.std.specs.Cmp.{partial_equiv_from_equiv};
ghost use Rattle.std.specs.Cmp.Rules.{hashing};
ghost use Rattle.std.specs.Cmp.Lexicographic.{pointwise, slice_cmp, nat_list_eq_equiv, nat_list_cmp_total, texts_ties, texts_po};
ghost use Rattle.std.proofs.Common.{rules};

use serde::{Described, Deserialize, Deserializer, Format, Serialize, Serializer};
use std::alloc::{AllocError, Global};
use std::cmp::Ordering;
use std::fmt;
use std::hash::{Hash, Hasher};
use std::marker::Model;
use std::ops::DerefStr;

/// An owned text that contracts see as its bytes.
///
/// It converts from and to a `String` without an allocation, and derefs to a `&str`. Lengths are
/// in bytes of UTF-8.
#[derive(Debug, Drop)]
pub struct OwnedText {
    inner: String,
}

impl Model for OwnedText {
    ghost Value = { List ℕ };

    ghost view = { λ a. string_bytes a.inner };
}

impl OwnedText {
    /// Returns the text as a `&str`.
    pub fn as_str(&self) -> &str
        ensures { result.now ≡ self.now }
    {
        self.inner.as_str()
    }

    /// Returns the length of the text, in bytes of UTF-8.
    pub fn len(&self) -> usize
        ensures { result ≡ length self.now }
    {
        self.inner.len()
    }

    /// Returns whether the text is empty.
    pub fn is_empty(&self) -> bool
        ensures { result ≡ (length self.now == 0) }
    {
        self.inner.is_empty()
    }

    /// Returns the text as a `String`, without an allocation.
    pub fn into_inner(self) -> String
        ensures { string_bytes result ≡ self }
    {
        let OwnedText { inner } = self;
        inner
    }
}

impl From<String> for OwnedText {
    ghost from_gives = { λ s t. t ≡ string_bytes s };

    fn from(text: String) -> OwnedText {
        OwnedText { inner: text }
    }
}

impl DerefStr for OwnedText {
    ghost deref_gives = { λ t bytes. bytes ≡ t };

    fn deref(&self) -> &str {
        self.as_str()
    }
}

impl Clone for OwnedText {
    ghost is_clone = { λ t copy. copy ≡ t };

    fn clone(&self) -> Result<OwnedText, AllocError> {
        Ok(OwnedText {
            inner: self.inner.clone()?,
        })
    }
}

impl PartialEq for OwnedText {
    ghost eq = { pointwise nat_eq };

    ghost laws = { partial_equiv_from_equiv nat_list_eq_equiv };

    fn eq(&self, other: &Self) -> bool {
        self.as_str() == other.as_str()
    }
}

impl Eq for OwnedText {
    ghost laws = { nat_list_eq_equiv };
}

impl PartialOrd for OwnedText {
    ghost partial_cmp = { λ x y. Some (slice_cmp nat_cmp x y) };

    ghost laws = { texts_po };

    fn partial_cmp(&self, other: &Self) -> Option<Ordering> {
        Some(self.cmp(other))
    }
}

impl Ord for OwnedText {
    ghost cmp = { slice_cmp nat_cmp };

    ghost total = { nat_list_cmp_total };

    ghost matches_partial_cmp = { λ x y. refl };

    ghost matches_eq = { texts_ties };

    fn cmp(&self, other: &Self) -> Ordering {
        self.as_str().cmp(other.as_str())
    }
}

impl Hash for OwnedText {
    ghost hash_input = { fed.str };

    ghost respects_eq = { Prim.search (hashing, rules) };

    fn hash<H: Hasher>(&self, state: &mut H) {
        self.as_str().hash(state);
    }
}

impl fmt::Display for OwnedText {
    ghost output = { λ t. Some t };

    fn fmt<W: fmt::Write>(&self, f: &mut fmt::Formatter<W>) -> fmt::Result {
        let s = self.as_str();
        f.pad(s)
    }
}

impl Described for OwnedText {}

impl Serialize for OwnedText {
    fn serialize<S: Serializer>(&self, out: &mut S) -> Result<(), S::Error> {
        self.inner.serialize(out)
    }
}

impl<'de> Deserialize<'de> for OwnedText {
    fn deserialize<F: Format>(
        alloc: Global,
        from: &mut Deserializer<'de, '_, F>,
    ) -> Result<OwnedText, F::Error> {
        Ok(OwnedText {
            inner: String::deserialize(alloc, from)?,
        })
    }
}
