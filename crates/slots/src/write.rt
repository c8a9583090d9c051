ghost use Rattle.std.specs.Prelude.{◌≡◌, ◌+◌, ◌≤◌, max, true, length, Some};
ghost use Rattle.kinds.specs.declared.slot.DirectSlot.TheVariants.{Free, Allocated};
ghost use Rattle.kinds.specs.Places.{slot_at};
ghost use Rattle.history.specs.Slots.{to, at, count, is_held, write};
ghost use Rattle.slots.specs.Outcomes.{of_insertion};
ghost use Rattle.slots.specs.Records.{taken, filled};
ghost use Rattle.slots.specs.Inserted.{insert_answer, Inserted};

use crate::error::DirectInsertionError;
use kinds::DirectSlot;
use stack::NonZeroInxGenericStack;

// Adds free slots until there are n.
fn fill_to<G: Copy, V: Copy, S: NonZeroInxGenericStack<Slot = DirectSlot<G, V>>>(
    m: &mut S,
    n: usize,
)
    requires { n ≤ S.room (S.config m.old) }
    ensures slots { S.list m.new ≡ filled (S.list m.old) n }
    ensures kept { S.config m.new ≡ S.config m.old }
{
    for _ in m.len()..n {
        let _ = m.push_within_capacity(DirectSlot::Free);
    }
}

/// A record comes into a slot behind those that are there, and within the capacity; free slots are added up to it.
// It comes as a generation and a value, here and below: a rule of this project for what is put into slots.
#[tactic(auto, using(crate::proofs::Places::write_behind))]
pub fn append_record<G: Copy, V: Copy, S: NonZeroInxGenericStack<Slot = DirectSlot<G, V>>>(
    m: &mut S,
    n: usize,
    generation: G,
    value: V,
)
    requires behind { length (S.list m.old) + 1 ≤ n }
    requires high { n ≤ S.room (S.config m.old) }
    ensures slots { S.list m.new ≡ write n (Allocated generation value) (S.list m.old) }
    ensures counted { count (S.list m.new) ≡ count (S.list m.old) + 1 }
    ensures long { length (S.list m.new) ≡ max n (length (S.list m.old)) }
    ensures kept { S.config m.new ≡ S.config m.old }
{
    fill_to(m, n - 1);
    let _ = m.push_within_capacity(DirectSlot::Allocated(generation, value));
}

// A record comes into a slot that is there, and free.
#[tactic(auto, using(crate::proofs::Places::write_free))]
fn take_free<G: Copy, V: Copy, S: NonZeroInxGenericStack<Slot = DirectSlot<G, V>>>(
    m: &mut S,
    n: usize,
    generation: G,
    value: V,
)
    requires { slot_at (S.list m.old) n ≡ Some Free }
    ensures slots { S.list m.new ≡ write n (Allocated generation value) (S.list m.old) }
    ensures counted { count (S.list m.new) ≡ count (S.list m.old) + 1 }
    ensures long { length (S.list m.new) ≡ max n (length (S.list m.old)) }
    ensures kept { S.config m.new ≡ S.config m.old }
{
    let _ = m.replace(n, DirectSlot::Allocated(generation, value));
}

/// Brings in a record at a slot's number; free slots are added up to it. 1 beyond the capacity, 2 where the slot is
/// taken.
#[inline]
pub fn insert_record<G: Copy, V: Copy, S: NonZeroInxGenericStack<Slot = DirectSlot<G, V>>>(
    m: &mut S,
    n: usize,
    generation: G,
    value: V,
) -> Result<(), DirectInsertionError>
    ensures answer { of_insertion result ≡ insert_answer (S.room (S.config m.old)) (to n generation) (S.list m.old) }
    ensures left { Inserted (of_insertion result) n (Allocated generation value) (S.list m.old) (S.list m.new) }
    ensures kept { S.config m.new ≡ S.config m.old }
{
    // a slot that is there is within the capacity
    match m.get(n) {
        Some(DirectSlot::Allocated(..)) => Err(DirectInsertionError::ExistingElementAtIndex),
        Some(DirectSlot::Free) => {
            take_free(m, n, generation, value);
            Ok(())
        }
        None => {
            if n == 0 || n > m.capacity() {
                return Err(DirectInsertionError::NotWithinCapacity);
            }
            append_record(m, n, generation, value);
            Ok(())
        }
    }
}

/// A slot that holds a record gives way to another: the record with a new value, or a free slot.
#[tactic(auto, using(crate::proofs::Places::write_held))]
pub fn overwrite<G: Copy, V: Copy, S: NonZeroInxGenericStack<Slot = DirectSlot<G, V>>>(
    m: &mut S,
    n: usize,
    slot: DirectSlot<G, V>,
)
    requires { is_held (at n (S.list m.old)) ≡ true }
    ensures slots { S.list m.new ≡ write n slot (S.list m.old) }
    ensures counted { count (S.list m.new) + 1 ≡ count (S.list m.old) + taken slot }
    ensures long { length (S.list m.new) ≡ length (S.list m.old) }
    ensures kept { S.config m.new ≡ S.config m.old }
{
    let _ = m.replace(n, slot);
}
