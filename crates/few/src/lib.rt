//! A few values in a fixed place.

#![tactic(auto)]

ghost use Rattle.std.specs.Prelude.{◌≡◌, ◌+◌, ◌<◌, ◌≤◌, ◌==◌, ◌↔◌, [], ◌∷◌, ◌++◌, length, IsOk, OnOk, OnErr, OnSome, IfNone, slice_get, remove};

use std::alloc::AllocError;

/// There is no room for what was to be added.
#[derive(Clone, Copy, Debug, PartialEq, Eq)]
pub struct Full;

/// At most `CAP` values, in order, which lie in the value itself: the first `size` of `places`.
// The kit's `ArrayVec` cannot be copied. No `Model`, since what holds one is not copied when it is passed on
// by value and used again.
#[derive(Copy)]
pub struct Few<T, const CAP: usize> {
    places: [T; CAP],
    size: usize,
    ghost few: { size ≤ CAP },
    ghost long: { length places ≡ CAP },
}

impl<T: Copy, const CAP: usize> Clone for Few<T, CAP> {
    ghost is_clone = { λ few copy. copy ≡ few };

    ghost is_infallible = { λ _. Unit {0} };

    fn clone(&self) -> Result<Few<T, CAP>, AllocError> {
        Ok(*self)
    }
}

impl<T: Copy, const CAP: usize> Few<T, CAP> {
    ghost use Rattle.few.specs.Few.{items};

    /// None yet. Unused places hold `blank`.
    pub fn new(blank: T) -> Self
        ensures { items result ≡ [] }
    {
        Few {
            places: [blank; CAP],
            size: 0,
        }
    }

    /// How many there are.
    pub fn len(&self) -> usize
        ensures value { result ≡ length (items self.now) }
        ensures fits { result ≤ CAP }
    {
        self.as_slice().len()
    }

    /// Whether there is none.
    pub fn is_empty(&self) -> bool
        ensures { result ≡ (length (items self.now) == 0) }
    {
        self.size == 0
    }

    /// Whether there is no room for one more.
    pub fn is_full(&self) -> bool
        ensures value { result ≡ (length (items self.now) == CAP) }
        ensures fits { length (items self.now) ≤ CAP }
    {
        self.size == CAP
    }

    /// The values, in order.
    pub fn as_slice(&self) -> &[T]
        ensures value { result.now ≡ items self.now }
        ensures fits { length result.now ≤ CAP }
    {
        &self.places[..self.size]
    }

    /// Adds a value at the end.
    pub fn push(&mut self, value: T) -> Result<(), Full>
        ensures variant { IsOk result ↔ (length (items self.old) < CAP) }
        ensures ok { OnOk result (items self.new ≡ items self.old ++ value ∷ []) }
        ensures err { OnErr result (self.new ≡ self.old) }
        ensures full { OnErr result (length (items self.old) ≡ CAP) }
    {
        if self.is_full() {
            return Err(Full);
        }
        self.places[self.size] = value;
        self.size += 1;
        Ok(())
    }

    /// Adds values at the end: all of them, or none where they do not fit.
    pub fn append(&mut self, values: &[T]) -> Result<(), Full>
        ensures variant { IsOk result ↔ (length (items self.old) + length values.now ≤ CAP) }
        ensures ok { OnOk result (items self.new ≡ items self.old ++ values.now) }
        ensures err { OnErr result (self.new ≡ self.old) }
    {
        if values.len() > CAP - self.size {
            return Err(Full);
        }
        let end = self.size + values.len();
        let places = &mut self.places[..];
        places[self.size..end].copy_from_slice(values);
        self.size = end;
        Ok(())
    }

    /// Takes out the value at `index`, if there is one. The later ones move up.
    pub fn remove(&mut self, index: usize) -> Option<T>
        ensures value { result ≡ slice_get (items self.old) index }
        ensures some { OnSome result (items self.new ≡ remove (items self.old) index) }
        ensures none { IfNone result (self.new ≡ self.old) }
    {
        if index >= self.size {
            return None;
        }
        let value = self.places[index];
        self.places.copy_within(index + 1..self.size, index);
        self.size -= 1;
        Some(value)
    }
}
