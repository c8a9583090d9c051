ghost use Rattle.std.specs.Prelude.{◌≡◌, ℕ, List, [], length, if◌then◌else◌, Option, ◌==◌, nat_lt};
ghost use Rattle.outcome.specs.Outcome.{Outcome, done, refused};
ghost use Rattle.stack.specs.Outcomes.{of_push, of_reallocation};
ghost use Rattle.kinds.specs.Places.{slot_at, slot_put};
ghost use Rattle.stack.specs.Laws.{Laws};
ghost use Rattle.stack.specs.Slots.{pushed_to, popped_from};

use crate::error::{NotWithinCapacityError, ReallocationError};

/// What no capacity exceeds: an index has at most 32 bits, and none is 0.
pub const MAX_CAPACITY: usize = 4_294_967_295;

/// A list of slots, counted from 1, with a capacity that it never exceeds.
pub trait NonZeroInxGenericStack {
    /// What the list is of.
    type Slot: Copy;

    // what fixes capacity and maximum: only a reallocation, or a new limit, changes it
    ghost Config: { Type 0 };

    ghost list: { Self → List Self.Slot };

    ghost config: { Self → Config };

    ghost room: { Config → ℕ };

    ghost limit: { Config → Option ℕ };

    // what a reallocation of so many slots, to a request, with an outcome, may leave
    ghost regrown: { Config → ℕ → ℕ → Outcome (Unit {0}) → Config → Type 0 };

    // what holds of every stack of the type
    ghost laws: { Laws list config room limit regrown };

    /// How many slots the stack has room for.
    fn capacity(&self) -> usize
        ensures { result ≡ room (config self.now) };

    /// What the capacity can never exceed, where there is such a number.
    fn max_capacity(&self) -> Option<usize>
        ensures { result ≡ limit (config self.now) };

    /// How many slots there are.
    fn len(&self) -> usize
        ensures { result ≡ length (list self.now) };

    /// Whether there are no slots.
    fn is_empty(&self) -> bool
        ensures { result ≡ (length (list self.now) == 0) }
    {
        self.len() == 0
    }

    /// The slot at a place.
    fn get(&self, n: usize) -> Option<Self::Slot>
        ensures { result ≡ slot_at (list self.now) n };

    /// The slot at a place gives way to another, and comes back; where there is no such place, nothing changes.
    fn replace(&mut self, n: usize, u: Self::Slot) -> Option<Self::Slot>
        ensures answer { result ≡ slot_at (list self.old) n }
        ensures slots { list self.new ≡ slot_put (list self.old) n u }
        ensures kept { config self.new ≡ config self.old };

    /// One slot more at the end; 1 where there is no room, and then nothing changes.
    fn push_within_capacity(&mut self, u: Self::Slot) -> Result<(), NotWithinCapacityError>
        ensures answer { of_push result ≡ (if nat_lt (length (list self.old)) (room (config self.old)) then done tt else refused 1) }
        ensures slots { list self.new ≡ pushed_to (room (config self.old)) (list self.old) u }
        ensures kept { config self.new ≡ config self.old };

    /// The last slot goes, and comes back.
    fn pop(&mut self) -> Option<Self::Slot>
        ensures answer { result ≡ slot_at (list self.old) (length (list self.old)) }
        ensures slots { list self.new ≡ popped_from (list self.old) }
        ensures kept { config self.new ≡ config self.old };

    /// All slots go; the settings stay.
    fn clear(&mut self)
        ensures slots { list self.new ≡ [] }
        ensures kept { config self.new ≡ config self.old };

    /// Makes room for so many slots at least; 6 beyond the maximum, 7 where the slots are not to be had.
    fn reallocate_min_capacity(&mut self, r: usize) -> Result<(), ReallocationError>
        ensures slots { list self.new ≡ list self.old }
        ensures grown { regrown (config self.old) (length (list self.old)) r (of_reallocation result) (config self.new) };
}
