// Memory for entries, of which there are at most MAX_EFFECTS: what an ArrayVec means, for entries that need no Default.
// The library's blanks what it drops, and so asks for one. Assumes nothing.
ghost use Rattle.std.specs.Prelude.{◌≡◌, ◌+◌, ◌-◌, ◌<◌, ◌≤◌, [], ◌∷◌, ◌++◌, length, IsPermutation, MatchOption, slice_index_or, slice_set};
ghost use Rattle.std.specs.List.Sorted.{IsSortedWithin};
ghost use Rattle.std.specs.Ordering.{is_lt};

use crate::effects::MAX_EFFECTS;
use std::marker::Model;

// The entries are the first `len` slots; the others hold whatever was there.
#[derive(Drop)]
pub(crate) struct Memory<T> {
    slots: [T; MAX_EFFECTS],
    len: usize,
}

impl<T> Model for Memory<T> {
    ghost use Rattle.std.specs.Prelude.{◌≡◌, ◌≤◌, length, take};
    ghost use Rattle.arrayvec.specs.ArrayVec.{ArrayVec as Items, array_vec_code};

    ghost Value = { Items T };

    ghost coded = { array_vec_code T.code };

    ghost view = { λ m. record { items = take m.len m.slots } };

    ghost invariant = { λ m. (m.len ≤ 2048) × (length m.slots ≡ 2048) };
}

impl<T: Copy> Memory<T> {
    // No entries, in slots that hold `blank`.
    pub(crate) fn filled(blank: T) -> Self
        ensures { result.items ≡ [] }
    {
        Memory {
            slots: [blank; MAX_EFFECTS],
            len: 0,
        }
    }

    // No entries.
    pub(crate) fn clear(&mut self)
        ensures { self.new.items ≡ [] }
    {
        self.len = 0;
    }

    // One entry more.
    pub(crate) fn push(&mut self, x: T)
        requires { length self.old.items < 2048 }
        ensures { self.new.items ≡ self.old.items ++ x ∷ [] }
    {
        self.slots[self.len] = x;
        self.len += 1;
    }

    // The last entry, if there is one.
    pub(crate) fn last(&self) -> Option<T>
        ensures { MatchOption result (length self.now.items ≡ 0) (λ x. (0 < length self.now.items) × (x ≡ slice_index_or self.now.items (length self.now.items - 1) x)) }
    {
        self.as_slice().last().copied()
    }

    // Writes over the last entry.
    pub(crate) fn set_last(&mut self, x: T)
        requires { 0 < length self.old.items }
        ensures { self.new.items ≡ slice_set self.old.items (length self.old.items - 1) x }
    {
        self.slots[self.len - 1] = x;
    }

    // All entries.
    pub(crate) fn as_slice(&self) -> &[T]
        ensures value { result.now ≡ self.now.items }
        ensures fits { length result.now ≤ 2048 }
    {
        &self.slots[..self.len]
    }

    // Sorts the entries.
    pub(crate) fn sort_unstable(&mut self)
    where
        T: Ord,
        ensures permutation { IsPermutation self.old.items self.new.items }
        ensures sorted { IsSortedWithin (λ x y. is_lt (T.cmp x y)) self.new.items 0 (length self.new.items) }
    {
        self.slots[..self.len].sort_unstable();
    }
}
