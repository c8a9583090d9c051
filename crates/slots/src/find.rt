ghost use Rattle.std.specs.Prelude.{◌≡◌};
ghost use Rattle.history.specs.Slots.{to, at, is_free};
ghost use Rattle.slots.specs.Records.{named, found};
ghost use Rattle.slots.specs.Found.{held_in};

use kinds::{DirectSlot, PtrGen};
use stack::NonZeroInxGenericStack;

/// A record where it was found.
#[derive(Clone, Copy)]
pub struct Found<G, V> {
    pub slot: usize,
    pub generation: G,
    pub value: V,
}

/// The record of a slot, if it has one.
pub fn record_at<G: Copy, V: Copy, S: NonZeroInxGenericStack<Slot = DirectSlot<G, V>>>(
    m: &S,
    slot: usize,
) -> Option<Found<G, V>>
    ensures { held_in result ≡ named slot (S.list m.now) }
{
    match m.get(slot) {
        Some(DirectSlot::Allocated(generation, value)) => Some(Found {
            slot,
            generation,
            value,
        }),
        _ => None,
    }
}

/// The record of a slot, if it has one under this generation.
pub fn find_record<G: PtrGen, V: Copy, S: NonZeroInxGenericStack<Slot = DirectSlot<G, V>>>(
    m: &S,
    slot: usize,
    cited: G,
) -> Option<Found<G, V>>
    ensures { held_in result ≡ found G.eq (to slot cited) (S.list m.now) }
{
    // one match with a guard, where a filter of `record_at` would do: a rule of this project for this question
    match m.get(slot) {
        Some(DirectSlot::Allocated(generation, value)) if generation == cited => Some(Found {
            slot,
            generation,
            value,
        }),
        _ => None,
    }
}

/// Whether a slot is free, or there is no such slot.
pub fn is_vacant<G: Copy, V: Copy, S: NonZeroInxGenericStack<Slot = DirectSlot<G, V>>>(
    m: &S,
    slot: usize,
) -> bool
    ensures { result ≡ is_free (at slot (S.list m.now)) }
{
    record_at(m, slot).is_none()
}
