// The register of a season.
ghost use Rattle.std.specs.Prelude.{◌≡◌, [], length, min};
ghost use Rattle.passages.specs.State.{register_of, capacity_of};
ghost use Rattle.stack.specs.Slots.{counted};
ghost use Rattle.trails.specs.Chronicle.{Chronicle};

use passages::{Register, Slot, open};

// The slots that a short index reaches.
const REACHED: usize = 65_535;

/// An empty register with room for all slots that the caller lends and a pointer reaches: a season asks for no capacity.
#[tactic(auto, using(crate::proofs::Chronicles::new_chronicle))]
pub fn open_register<'a>(slots: &'a mut [Slot]) -> Register<'a>
    ensures slots { (register_of result).slots ≡ [] }
    ensures capacity { capacity_of (register_of result) ≡ min (counted (length slots.old)) 65535 }
    ensures chronicle { Chronicle [] [] (register_of result).slots }
{
    let lent = slots.len();
    let mut register = open(slots);
    let _ = register.set_max_capacity(lent);
    let _ = register.reallocate_min_capacity(lent.min(REACHED));
    register
}
