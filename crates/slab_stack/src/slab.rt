ghost use Rattle.std.specs.Prelude.{◌≡◌, ℕ, ◌≤◌, min, [], length, take, if◌then◌else◌, None, nat_lt};
ghost use Rattle.outcome.specs.Outcome.{done, refused};
ghost use Rattle.stack.specs.Outcomes.{of_reallocation};
ghost use Rattle.stack.specs.Slots.{counted};

use stack::lent::{pop_slot, push_slot, read_slot, replace_slot, room_of};
use stack::{NonZeroInxGenericStack, NotWithinCapacityError, ReallocationError};

/// A stack over lent slots whose capacity grows up to their number, and that has no maximum. Slots beyond 2^32 - 1
/// do not count.
#[derive(Drop)]
pub struct SlabStack<'a, U> {
    // a slice and a length, as in the fixed stack
    slots: &'a mut [U],
    len: usize,
    room: usize,
    ghost within: { len ≤ room },
    // the capacity is had: it is lent, and counts
    ghost lent: { room ≤ counted (length slots.now) },
}

impl<'a, U: Copy> SlabStack<'a, U> {
    ghost use Rattle.slab_stack.specs.Slab.{slab_list, slab_config, slab_lent};

    /// An empty stack with room for the request, or for the lent slots where those are fewer.
    pub fn with_min_capacity(slots: &'a mut [U], request: usize) -> SlabStack<'a, U>
        ensures slots { slab_list result ≡ [] }
        ensures settings { slab_config result ≡ (min request (counted (length slots.old)), length slots.old) }
    {
        let room = request.min(room_of(slots));
        SlabStack {
            slots,
            len: 0,
            room,
        }
    }

    /// How many slots are lent, of those that count.
    pub fn lent(&self) -> usize
        ensures { result ≡ counted (slab_lent self.now) }
    {
        room_of(self.slots)
    }

    /// Whether a reallocation could have so many slots: 7 where they are not lent.
    pub fn test(&self, n: usize) -> Result<(), ReallocationError>
        ensures { of_reallocation result ≡ (if nat_lt (counted (slab_lent self.now)) n then refused 7 else done tt) }
    {
        if n > self.lent() {
            return Err(ReallocationError::AllocError);
        }
        Ok(())
    }

    /// The lent slots, of which the first are the list. What the others hold is left free.
    pub fn into_slots(self) -> &'a mut [U]
        ensures front { take (length (slab_list self.entry)) result.now ≡ slab_list self.entry }
        ensures long { length result.now ≡ slab_lent self.entry }
    {
        let SlabStack { slots, .. } = self;
        slots
    }
}

// Six of these, and `into_slots`, are those of the fixed stack, a line each that hands on; a trait for how a capacity
// grows, so as to write them once, would be longer than they are.
impl<'a, U: Copy> NonZeroInxGenericStack for SlabStack<'a, U> {
    type Slot = U;

    ghost use Rattle.slab_stack.specs.Slab.{slab_list, slab_config, SlabRegrown};
    ghost use Rattle.slab_stack.specs.SlabLaws.{slab_laws};

    ghost Config = { ℕ × ℕ };

    ghost list = { slab_list };

    ghost config = { slab_config };

    ghost room = { λ c. c.0 };

    ghost limit = { λ c. None };

    ghost regrown = { SlabRegrown };

    ghost laws = { slab_laws };

    fn capacity(&self) -> usize {
        self.room
    }

    fn max_capacity(&self) -> Option<usize> {
        None
    }

    fn len(&self) -> usize {
        self.len
    }

    fn get(&self, n: usize) -> Option<U> {
        read_slot(self.slots, self.len, n)
    }

    fn replace(&mut self, n: usize, u: U) -> Option<U> {
        replace_slot(self.slots, self.len, n, u)
    }

    fn push_within_capacity(&mut self, u: U) -> Result<(), NotWithinCapacityError> {
        push_slot(self.slots, &mut self.len, self.room, u)
    }

    fn pop(&mut self) -> Option<U> {
        pop_slot(self.slots, &mut self.len)
    }

    fn clear(&mut self) {
        self.len = 0;
    }

    fn reallocate_min_capacity(&mut self, r: usize) -> Result<(), ReallocationError> {
        self.room = if r > self.room {
            self.test(r)?;
            self.lent().min(r.max(2 * self.room))
        } else {
            r.max(self.len)
        };
        Ok(())
    }
}
