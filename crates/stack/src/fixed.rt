ghost use Rattle.std.specs.Prelude.{◌≡◌, ℕ, ◌≤◌, [], length, take, Some};
ghost use Rattle.stack.specs.Slots.{counted};

use crate::error::{NotWithinCapacityError, ReallocationError};
use crate::generic::NonZeroInxGenericStack;
use crate::lent::{pop_slot, push_slot, read_slot, replace_slot, room_of};

/// A stack over slots that the caller lends. Those beyond 2^32 - 1 do not count.
#[derive(Drop)]
pub struct FixedStack<'a, U> {
    // a slice and a length, and no `Vec`: slots are lent, and nothing is on the heap, a rule of this project
    slots: &'a mut [U],
    len: usize,
    // the list is in the lent slots that count
    ghost within: { len ≤ counted (length slots.now) },
}

impl<'a, U: Copy> FixedStack<'a, U> {
    ghost use Rattle.stack.specs.Fixed.{fixed_list, fixed_lent};

    /// An empty stack; what the lent slots hold is passed over.
    pub fn new(slots: &'a mut [U]) -> FixedStack<'a, U>
        ensures slots { fixed_list result ≡ [] }
        ensures settings { fixed_lent result ≡ length slots.old }
    {
        FixedStack { slots, len: 0 }
    }

    /// The lent slots, of which the first are the list. What the others hold is left free.
    pub fn into_slots(self) -> &'a mut [U]
        ensures front { take (length (fixed_list self.entry)) result.now ≡ fixed_list self.entry }
        ensures long { length result.now ≡ fixed_lent self.entry }
    {
        let FixedStack { slots, .. } = self;
        slots
    }
}

impl<'a, U: Copy> NonZeroInxGenericStack for FixedStack<'a, U> {
    type Slot = U;

    ghost use Rattle.stack.specs.Fixed.{fixed_list, fixed_lent, FixedRegrown};
    ghost use Rattle.stack.specs.FixedLaws.{fixed_laws};

    ghost Config = { ℕ };

    ghost list = { fixed_list };

    ghost config = { fixed_lent };

    ghost room = { counted };

    ghost limit = { λ c. Some (counted c) };

    ghost laws = { fixed_laws };

    ghost regrown = { FixedRegrown };

    fn capacity(&self) -> usize {
        room_of(self.slots)
    }

    fn max_capacity(&self) -> Option<usize> {
        Some(self.capacity())
    }

    fn len(&self) -> usize {
        self.len
    }

    fn get(&self, n: usize) -> Option<U> {
        read_slot(self.slots, self.len, n)
    }

    fn replace(&mut self, n: usize, u: U) -> Option<U> {
        replace_slot(self.slots, self.len, n, u)
    }

    fn push_within_capacity(&mut self, u: U) -> Result<(), NotWithinCapacityError> {
        let room = self.capacity();
        push_slot(self.slots, &mut self.len, room, u)
    }

    fn pop(&mut self) -> Option<U> {
        pop_slot(self.slots, &mut self.len)
    }

    fn clear(&mut self) {
        self.len = 0;
    }

    fn reallocate_min_capacity(&mut self, r: usize) -> Result<(), ReallocationError> {
        if r > self.capacity() {
            return Err(ReallocationError::BeyondMaxCapacity);
        }
        Ok(())
    }
}
