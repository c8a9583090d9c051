ghost use Rattle.std.specs.Prelude.{◌≡◌, [], length};
ghost use Rattle.stack.specs.Fixed.{fixed_list, fixed_lent};

use arena::DirectArena;
use kinds::DirectSlot;
use numbering::{Pointer, SeasonGen};
use stack::FixedStack;

pub type PointerSlot = DirectSlot<SeasonGen, Pointer>;

/// The directory of a compression, or of some joined: at each pointer of then the pointer that came of it.
pub type Directory<'a> = DirectArena<Pointer, Pointer, FixedStack<'a, PointerSlot>>;

/// An empty directory over the slots that the caller lends.
pub fn open_directory<'a>(slots: &'a mut [PointerSlot]) -> Directory<'a>
    ensures slots { fixed_list result ≡ [] }
    ensures lent { fixed_lent result ≡ length slots.old }
{
    DirectArena::new(FixedStack::new(slots))
}
