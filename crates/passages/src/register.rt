ghost use Rattle.std.specs.Prelude.{◌≡◌, ◌≤◌, length};
ghost use Rattle.passages.specs.State.{register_of, opened, tally_of};

use answers::answer::Tally;
use arena::DirectArena;
use kinds::DirectSlot;
use limited::LimitedStack;
use numbering::{Pointer, SeasonGen};
use slab_stack::SlabStack;

pub type Slot = DirectSlot<SeasonGen, u32>;

pub type Register<'a> = DirectArena<Pointer, u32, LimitedStack<SlabStack<'a, Slot>>>;

// What a register has room for at first.
const REQUEST: usize = 16;

/// An empty register over the slots that the caller lends.
pub fn open<'a>(slots: &'a mut [Slot]) -> Register<'a>
    ensures state { register_of result ≡ opened (length slots.old) }
{
    let slab = SlabStack::with_min_capacity(slots, REQUEST);
    DirectArena::new(LimitedStack::new(slab))
}

/// What the register holds.
pub fn tally(register: &Register<'_>) -> Tally
    ensures held { result ≡ tally_of (register_of register.now) }
    ensures indexed { result.slots ≤ 65535 }
{
    Tally {
        count: register.len(),
        slots: register.slots(),
        capacity: register.capacity(),
    }
}
