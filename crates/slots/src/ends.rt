ghost use Rattle.std.specs.Prelude.{◌≡◌, ◌+◌, ◌-◌, ◌≤◌, not, length, is_some, ◌==◌};
ghost use Rattle.history.specs.Slots.{count, held, trimmed};
ghost use Rattle.slots.specs.Records.{first_of, last_of, first_from, last_to, ends_free};
ghost use Rattle.slots.specs.Found.{held_in, Within};

use crate::find::{Found, record_at};
use kinds::DirectSlot;
use stack::NonZeroInxGenericStack;

// The two searches are one chain each, which differ in `rev`; one function for both would take the range from its
// caller, and could not say which record it finds. The slot itself is asked first: where most slots are taken, a walk
// goes from one to the next and begins no search.

// The record in the lowest slot behind `n`.
fn record_above<G: Copy, V: Copy, S: NonZeroInxGenericStack<Slot = DirectSlot<G, V>>>(
    m: &S,
    n: usize,
) -> Option<Found<G, V>>
    ensures first { held_in result ≡ first_from (n + 1) (held 1 (S.list m.now)) }
    ensures within { Within result (length (S.list m.now)) }
{
    (n..m.len()).find_map(|place| record_at(m, place + 1))
}

// The record in the highest slot before `n`.
fn record_below<G: Copy, V: Copy, S: NonZeroInxGenericStack<Slot = DirectSlot<G, V>>>(
    m: &S,
    n: usize,
) -> Option<Found<G, V>>
    ensures last { held_in result ≡ last_to (n - 1) (held 1 (S.list m.now)) }
    ensures within { Within result (length (S.list m.now)) }
{
    (0..n.saturating_sub(1).min(m.len()))
        .rev()
        .find_map(|place| record_at(m, place + 1))
}

/// The record in the lowest slot from `n` on; none where no record stands there.
#[tactic(auto, using(crate::proofs::Searches::here_first, crate::proofs::Searches::past_first, crate::proofs::Searches::stands_within))]
pub fn record_at_or_above<G: Copy, V: Copy, S: NonZeroInxGenericStack<Slot = DirectSlot<G, V>>>(
    m: &S,
    n: usize,
) -> Option<Found<G, V>>
    ensures first { held_in result ≡ first_from n (held 1 (S.list m.now)) }
    ensures within { Within result (length (S.list m.now)) }
{
    record_at(m, n).or_else(|| record_above(m, n))
}

/// The record in the highest slot up to `n`; none where no record stands there.
#[tactic(auto, using(crate::proofs::Searches::here_last, crate::proofs::Searches::past_last, crate::proofs::Searches::stands_within))]
pub fn record_at_or_below<G: Copy, V: Copy, S: NonZeroInxGenericStack<Slot = DirectSlot<G, V>>>(
    m: &S,
    n: usize,
) -> Option<Found<G, V>>
    ensures last { held_in result ≡ last_to n (held 1 (S.list m.now)) }
    ensures within { Within result (length (S.list m.now)) }
{
    record_at(m, n).or_else(|| record_below(m, n))
}

/// The record in the lowest slot; none where no record stands.
#[tactic(auto, using(crate::proofs::Searches::all_from, crate::proofs::Searches::first_counted))]
pub fn first_record<G: Copy, V: Copy, S: NonZeroInxGenericStack<Slot = DirectSlot<G, V>>>(
    m: &S,
) -> Option<Found<G, V>>
    ensures first { held_in result ≡ first_of (held 1 (S.list m.now)) }
    ensures absent { is_some result ≡ not (count (S.list m.now) == 0) }
    ensures within { Within result (length (S.list m.now)) }
{
    record_at_or_above(m, 1)
}

/// The record in the highest slot; none where no record stands.
#[tactic(auto, using(crate::proofs::Searches::all_to, crate::proofs::Searches::last_counted))]
pub fn last_record<G: Copy, V: Copy, S: NonZeroInxGenericStack<Slot = DirectSlot<G, V>>>(
    m: &S,
) -> Option<Found<G, V>>
    ensures last { held_in result ≡ last_of (held 1 (S.list m.now)) }
    ensures absent { is_some result ≡ not (count (S.list m.now) == 0) }
    ensures within { Within result (length (S.list m.now)) }
{
    record_at_or_below(m, m.len())
}

// Whether there is a last slot and it is free.
fn ends_free<G: Copy, V: Copy, S: NonZeroInxGenericStack<Slot = DirectSlot<G, V>>>(m: &S) -> bool
    ensures { result ≡ ends_free (S.list m.now) }
{
    matches!(m.get(m.len()), Some(DirectSlot::Free))
}

/// Pops free slots from the end, at most `num`, and answers how many went.
#[tactic(auto, using(crate::proofs::Trims::pop_one, crate::proofs::Trims::trimmed_next, crate::proofs::Trims::trimmed_stays))]
pub fn pop_free<G: Copy, V: Copy, S: NonZeroInxGenericStack<Slot = DirectSlot<G, V>>>(
    m: &mut S,
    num: usize,
) -> usize
    ensures answer { result ≡ length (S.list m.old) - length (trimmed num (S.list m.old)) }
    ensures slots { S.list m.new ≡ trimmed num (S.list m.old) }
    ensures counted { count (S.list m.new) ≡ count (S.list m.old) }
    ensures long { length (S.list m.new) ≤ length (S.list m.old) }
    ensures kept { S.config m.new ≡ S.config m.old }
{
    for popped in 0..num {
        if !ends_free(m) {
            return popped;
        }
        let _ = m.pop();
    }
    num
}
