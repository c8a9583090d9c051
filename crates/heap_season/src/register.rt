// Registers and directories over any stack, and what each answer says of one.
ghost use Rattle.std.specs.Prelude.{◌≡◌};
ghost use Rattle.heap_season.specs.Season.{record_at, tally_of};

use answers::answer::{Concerned, Tally};
use arena::DirectArena;
use kinds::DirectSlot;
use numbering::{Pointer, SeasonGen};
use stack::NonZeroInxGenericStack;

pub type Slot = DirectSlot<SeasonGen, u32>;

pub type PointerSlot = DirectSlot<SeasonGen, Pointer>;

pub type Register<S> = DirectArena<Pointer, u32, S>;

pub type Directory<D> = DirectArena<Pointer, Pointer, D>;

pub(crate) fn record_at(p: Pointer, value: u32) -> Concerned
    ensures { result ≡ record_at p value }
{
    Concerned::Record {
        slot: p.inx.raw,
        generation: p.generation.season,
        value,
    }
}

pub(crate) fn tally<V: Copy, S: NonZeroInxGenericStack<Slot = DirectSlot<SeasonGen, V>>>(
    arena: &DirectArena<Pointer, V, S>,
) -> Tally
    ensures held { result ≡ tally_of (S.list arena.now) (S.room (S.config arena.now)) }
{
    Tally {
        count: arena.len(),
        slots: arena.slots(),
        capacity: arena.capacity(),
    }
}
