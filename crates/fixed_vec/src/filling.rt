ghost use Rattle.std.specs.Prelude.{◌≡◌, [], ◌∷◌, ◌++◌, ◌+◌, ◌<◌, ◌≤◌, length, OnOk, OnErr, slice_set, nat_le};
ghost use Rattle.fixed_vec.specs.FixedVec.{items, content, Added, Removed, Popped};

use crate::{FixedVec, Full};
use std::ops::DerefSlice;

impl<T: Copy, const N: usize> FixedVec<T, N> {
    // With no item; the filler stands in its slots and is never read.
    pub fn new(filler: T) -> FixedVec<T, N>
        ensures { items result ≡ [] }
    {
        FixedVec {
            slots: [filler; N],
            len: 0,
        }
    }

    // Puts an item behind the others, on top, where there is room.
    pub fn push(&mut self, item: T) -> Result<(), Full>
        ensures top { Added N (content self.old) item (content self.new) result }
        ensures last { OnOk result (items self.new ≡ items self.old ++ item ∷ []) }
        ensures full { OnErr result (N ≤ length (items self.old)) }
        ensures kept { OnErr result (self.new ≡ self.old) }
    {
        let end = self.len;
        if end >= N {
            return Err(Full);
        }
        self.slots[end] = item;
        self.len = end + 1;
        Ok(())
    }

    // Puts items behind the others, where there is room for all of them.
    pub fn extend_from_slice(&mut self, more: &[T]) -> Result<(), Full>
        ensures last { OnOk result (items self.new ≡ items self.old ++ more.now) }
        ensures full { OnErr result (N < length (items self.old) + length more.now) }
        ensures kept { OnErr result (self.new ≡ self.old) }
    {
        if more.len() > N - self.len {
            return Err(Full);
        }
        let end = self.len + more.len();
        let slots = &mut self.slots[..];
        slots[self.len..end].copy_from_slice(more);
        self.len = end;
        Ok(())
    }

    // Takes the last item off, the top, if there is one.
    pub fn pop(&mut self) -> Option<T>
        ensures top { Removed (content self.old) (content self.new) result }
        ensures last { Popped (items self.old) (items self.new) result }
    {
        if self.len == 0 {
            return None;
        }
        self.len -= 1;
        Some(self.slots[self.len])
    }

    // Puts an item in the place of another one; where none stands, nothing changes.
    #[tactic(auto, using(crate::proofs::FixedVecs::replaced))]
    pub fn set(&mut self, at: usize, item: T)
        ensures { items self.new ≡ slice_set (items self.old) at item }
    {
        if at < self.len {
            self.slots[at] = item;
        }
    }

    // Takes every item off.
    pub fn clear(&mut self)
        ensures { items self.new ≡ [] }
    {
        self.len = 0;
    }

    // How many items are in use.
    pub fn len(&self) -> usize
        ensures value { result ≡ length (items self.now) }
        ensures few { result ≤ N }
    {
        self.as_slice().len()
    }

    // Whether there is no room for one more item.
    pub fn is_full(&self) -> bool
        ensures { result ≡ nat_le N (length (items self.now)) }
    {
        self.len >= N
    }

    // The items in order.
    pub fn as_slice(&self) -> &[T]
        ensures value { result.now ≡ items self.now }
        ensures few { length result.now ≤ N }
    {
        &self.slots[..self.len]
    }
}

// Each method of slices is a method of the vector, over its items.
impl<T: Copy, const N: usize> DerefSlice for FixedVec<T, N> {
    type Elem = T;

    ghost deref_gives = { λ v xs. (xs ≡ items v) × (length xs ≤ N) };

    fn deref(&self) -> &[T] {
        self.as_slice()
    }
}
