use crate::inputs::{Inputs, Register, Season, contents, fill, free_slots, pointers};
use arena::advancer::{Advancer, PtrAdvancer};
use kinds::PtrInx;
use stack::FixedStack;
use std::alloc::AllocError;

// one step for each record, and one more, which finds none
#[inline(never)]
fn walk<I: PtrInx>(
    arena: &Register<'_, I, u32>,
    mut advancer: PtrAdvancer<Season<I>>,
    sum: u64,
) -> u64 {
    let mut sum = sum;
    for _ in 0..arena.len().saturating_add(1) {
        if let Some(p) = advancer.advance(arena) {
            let n = p.inx.try_into_usize().unwrap_or(0);
            sum = sum.wrapping_add(n as u64 ^ u64::from(p.generation.season));
        }
    }
    sum
}

/// Walks over all records, forward or backward.
pub(crate) fn walks<I: PtrInx>(inputs: Inputs<'_>, rev: bool) -> Result<u64, AllocError> {
    let standing = pointers::<I>(inputs.alloc, inputs.standing)?;
    let mut lent = free_slots(inputs.alloc, inputs.slots)?;
    let mut arena = Register::<I, u32>::new(FixedStack::new(&mut lent));
    fill(&mut arena, &standing);
    let mut sum = 0;
    for _ in 0..inputs.rounds {
        let advancer = if rev {
            arena.rev_advancer()
        } else {
            arena.advancer()
        };
        sum = walk(&arena, advancer, sum);
    }
    Ok(contents(&arena, sum))
}
