//! The lists of a state, as slices.
ghost use Rattle.std.specs.Prelude.{◌≡◌, ◌<◌, ◌↔◌, ◌==◌, ◌++◌, ◌-◌, ◌∷◌, ◌^◌, [], List, length, IfErr, IfOk, IfSome, IsSome, is_ok, if◌then◌else◌, slice_get, slice_index_or};
ghost use Rattle.std.specs.Option.{option_copied, option_to_list};
ghost use Rattle.std.specs.Cmp.Lexicographic.{pointwise, lists_per, lists_equiv};
ghost use Rattle.std.specs.Borrow.{sem};
ghost use Rattle.std.specs.declared.alloc.Global.{Global};
ghost use Rattle.std.specs.Iterator.Runs.{EveryRun, ItemsAre, ItemsMapTo};
ghost use Rattle.std.specs.Slice.Iter.{iter_mut_rest, iter_mut_steps, iter_rest, iter_steps};
ghost use Rattle.std.specs.Vec.Iter.{into_iter_items, into_iter_len, into_iter_steps};
ghost use Rattle.scm_types.specs.Lending.{lends_item, lends_item_if, lends_iter, lends_slice};

use serde::{Described, Deserialize, Deserializer, Format, Serialize, Serializer};
use std::alloc::{AllocError, AllocFailed, Global};
use std::marker::Model;
use std::ops::{DerefSlice, DerefSliceMut, Index, IndexMut};
use std::{slice, vec};

/// A list of the state: a `Vec` that contracts see as the list of its elements.
///
/// It converts from and to a `Vec` without an allocation, and derefs to a slice. Indexes are
/// counted from 0.
#[derive(Debug, Drop)]
pub struct Items<T> {
    inner: Vec<T>,
}

impl<T> Model for Items<T> {
    ghost use Rattle.std.specs.Prelude.{List};

    ghost Value = { List T };

    ghost view = { λ a. a.inner.items };
}

impl<T> Items<T> {
    /// Returns an empty list, without an allocation.
    pub fn new(alloc: Global) -> Self
        ensures { result ≡ [] }
    {
        Items {
            inner: Vec::new(alloc),
        }
    }

    /// Returns an empty list with room for `capacity` elements.
    ///
    /// # Errors
    /// `AllocError`: an allocation failed.
    pub fn with_capacity(alloc: Global, capacity: usize) -> Result<Self, AllocError>
        ensures { IfOk result (λ items. items ≡ []) }
    {
        let inner = Vec::with_capacity(alloc, capacity)?;
        Ok(Items { inner })
    }

    /// Returns the number of elements of the list.
    pub fn len(&self) -> usize
        ensures { result ≡ length self.now }
    {
        self.inner.len()
    }

    /// Returns whether the list has no elements.
    pub fn is_empty(&self) -> bool
        ensures { result ≡ (length self.now == 0) }
    {
        self.inner.is_empty()
    }

    /// Returns the elements of the list as a slice.
    pub fn as_slice(&self) -> &[T]
        ensures { result.now ≡ self.now }
    {
        self.inner.as_slice()
    }

    /// Returns the elements of the list as a slice, to change them in place.
    pub fn as_mut_slice(&mut self) -> &mut [T]
        ensures* writes_back { sem 𝓛 (lends_slice T.row self.entry result) }
        ensures value { result.now ≡ self.old }
    {
        self.inner.as_mut_slice()
    }

    /// Returns the element at `index`, counted from 0, or `None` if `index` is past the end.
    pub fn get(&self, index: usize) -> Option<&T>
        ensures { option_copied result ≡ slice_get self.now index }
    {
        self.as_slice().get(index)
    }

    /// Returns the element at `index`, counted from 0, to change it in place. Returns `None` if
    /// `index` is past the end.
    pub fn get_mut(&mut self, index: usize) -> Option<&mut T>
        ensures* writes_back { sem 𝓛 (lends_item_if T.row self.entry index result) }
        ensures variant { IsSome result ↔ (index < length self.old) }
        ensures value { IfSome result (λ x. x.now ≡ slice_index_or self.old index x.now) }
    {
        self.inner.get_mut(index)
    }

    /// Returns the last element of the list, or `None` if the list is empty.
    pub fn last(&self) -> Option<&T>
        ensures { option_copied result ≡ slice_get self.now (length self.now - 1) }
    {
        self.as_slice().last()
    }

    /// Adds `value` at the end of the list.
    ///
    /// # Errors
    /// `AllocFailed`: an allocation failed; the list is unchanged, and the error returns `value`.
    pub fn push(&mut self, value: T) -> Result<(), AllocFailed<T>>
        ensures items { self.new ≡ (if is_ok result then self.old ++ value ∷ [] else self.old) }
        ensures value_returned { IfErr result (λ error. error.value ≡ value) }
    {
        self.inner.push(value)
    }

    /// Removes and returns the last element of the list, or returns `None` if the list is empty.
    pub fn pop(&mut self) -> Option<T>
        ensures items { self.old ≡ self.new ++ option_to_list result }
        ensures variant { IsSome result ↔ (0 < length self.old) }
    {
        self.inner.pop()
    }

    /// Returns the elements of the list as a `Vec`, without an allocation.
    pub fn into_inner(self) -> Vec<T>
        ensures { result.items ≡ self }
    {
        let Items { inner } = self;
        inner
    }
}

impl<T> From<Vec<T>> for Items<T> {
    ghost from_gives = { λ v a. a ≡ v.items };

    fn from(list: Vec<T>) -> Items<T> {
        Items { inner: list }
    }
}

impl<T> DerefSlice for Items<T> {
    type Elem = T;

    ghost deref_gives = { λ xs ys. ys ≡ xs };

    fn deref(&self) -> &[T] {
        self.as_slice()
    }
}

impl<T> DerefSliceMut for Items<T> {
    fn deref_mut(&mut self) -> &mut [T]
        ensures* writes_back { sem 𝓛 (lends_slice T.row self.entry result) }
        ensures value { result.now ≡ self.old }
    {
        self.as_mut_slice()
    }
}

impl<T> Index<usize> for Items<T> {
    type Output = T;

    ghost can_index = { λ xs i. i < length xs };

    ghost index_gives = { λ xs i x. x ≡ slice_index_or xs i x };

    fn index(&self, index: usize) -> &T {
        &self.inner[index]
    }
}

impl<T> IndexMut<usize> for Items<T> {
    fn index_mut(&mut self, index: usize) -> &mut T
        requires { index < length self.old }
        ensures* writes_back { sem 𝓛 (lends_item T.row self.entry index result) }
        ensures value { result.now ≡ slice_index_or self.old index result.now }
    {
        &mut self.inner[index]
    }
}

impl<'a, T> IntoIterator for &'a Items<T> {
    type Item = &'a T;

    type IntoIter = slice::Iter<'a, T>;

    ghost into_iter_gives = { λ xs it. (iter_rest it ≡ xs.now) × (length (iter_rest it) < 2 ^ 64)
        × EveryRun (iter_steps {A = T}) (λ p. ItemsMapTo p (λ x. x.now) (iter_rest p.from)) };

    fn into_iter(self) -> slice::Iter<'a, T> {
        self.as_slice().iter()
    }
}

/// In proved code, loop over `iter_mut()` instead: its contract is easier to use.
impl<'a, T> IntoIterator for &'a mut Items<T> {
    type Item = &'a mut T;

    type IntoIter = slice::IterMut<'a, T>;

    ghost into_iter_gives = { λ xs it. (iter_mut_rest it ≡ xs.now)
        × (length (iter_mut_rest it) < 2 ^ 64)
        × EveryRun (iter_mut_steps {A = T})
        (λ p. ItemsMapTo p (λ x. x.now) (iter_mut_rest p.from)) };

    fn into_iter(self) -> slice::IterMut<'a, T>
        ensures* writes_back { sem 𝓛 (lends_iter T.row self.entry result) }
        ensures into_iter_gives { (iter_mut_rest result ≡ self.old)
            × (length (iter_mut_rest result) < 2 ^ 64)
            × EveryRun (iter_mut_steps {A = T})
            (λ p. ItemsMapTo p (λ x. x.now) (iter_mut_rest p.from)) }
    {
        self.as_mut_slice().iter_mut()
    }
}

impl<T: Drop> IntoIterator for Items<T> {
    type Item = T;

    type IntoIter = vec::IntoIter<T>;

    ghost into_iter_gives = { λ xs it. (into_iter_items it ≡ xs) × (into_iter_len it < 2 ^ 64)
        × EveryRun (into_iter_steps {X = T} {Z = Global})
        (λ p. ItemsAre p (into_iter_items p.from)) };

    fn into_iter(self) -> vec::IntoIter<T> {
        self.into_inner().into_iter()
    }
}

impl<T: Drop> FromIterator<T> for Items<T> {
    type Alloc = Global;

    ghost from_iter_gives = { λ xs items. items ≡ xs };

    fn from_iter<U: IntoIterator<Item = T>>(
        alloc: Global,
        iter: U,
    ) -> Result<Items<T>, AllocError> {
        let list = Vec::from_iter(alloc, iter)?;
        Ok(Items::from(list))
    }
}

/// Adds elements at the end. If an allocation fails, the elements before it are added.
impl<T: Drop> Extend<T> for Items<T> {
    ghost extend_gives = { λ old xs new. new ≡ old ++ xs };

    fn extend<U: IntoIterator<Item = T>>(&mut self, iter: U) -> Result<(), AllocError> {
        self.inner.extend(iter)
    }
}

impl<T: PartialEq> PartialEq for Items<T> {
    ghost eq = { pointwise T.eq };

    ghost laws = { lists_per T.laws };

    fn eq(&self, other: &Self) -> bool {
        self.inner == other.inner
    }
}

impl<T: Eq> Eq for Items<T> {
    ghost laws = { lists_equiv T.Eq.laws };
}

impl<T> Described for Items<T> {}

impl<T: Serialize> Serialize for Items<T> {
    fn serialize<S: Serializer>(&self, out: &mut S) -> Result<(), S::Error> {
        self.inner.serialize(out)
    }
}

impl<'de, T: Deserialize<'de>> Deserialize<'de> for Items<T> {
    fn deserialize<F: Format>(
        alloc: Global,
        from: &mut Deserializer<'de, '_, F>,
    ) -> Result<Items<T>, F::Error> {
        Ok(Items {
            inner: Vec::deserialize(alloc, from)?,
        })
    }
}
