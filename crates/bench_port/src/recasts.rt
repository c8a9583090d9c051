use crate::inputs::{Inputs, Register, Season, free_slots, mixed, pointers};
use arena::advancer::Advancer;
use kinds::PtrInx;
use stack::FixedStack;
use std::alloc::AllocError;

type Directory<'a, I> = Register<'a, I, Season<I>>;

fn fill_directory<I: PtrInx>(
    directory: &mut Directory<'_, I>,
    from: &[Season<I>],
    to: &[Season<I>],
) {
    for (p, q) in from.iter().zip(to) {
        let _ = directory.direct_insert_within_capacity(*p, *q);
    }
}

#[inline(never)]
fn recast_once<I: PtrInx>(arena: &mut Directory<'_, I>, directory: &Directory<'_, I>) -> bool {
    arena.recast(directory).is_ok()
}

fn contents<I: PtrInx>(arena: &Directory<'_, I>, sum: u64) -> u64 {
    let mut sum = mixed(sum, arena.slots() as u64);
    let mut advancer = arena.advancer();
    for _ in 0..arena.len() {
        if let Some(p) = advancer.advance(arena) {
            let q = arena.get(p).unwrap_or(p);
            sum = mixed(sum, q.inx.try_into_usize().unwrap_or(0) as u64);
            sum = mixed(sum, u64::from(q.generation.season));
        }
    }
    sum
}

/// Recasts of an arena of pointers through a directory that leads each pointer to another that it holds.
pub(crate) fn recast<I: PtrInx>(inputs: Inputs<'_>) -> Result<u64, AllocError> {
    let standing = pointers::<I>(inputs.alloc, inputs.standing)?;
    let asked = pointers::<I>(inputs.alloc, inputs.asked)?;
    let mut lent = free_slots(inputs.alloc, inputs.slots)?;
    let mut directory = Directory::<I>::new(FixedStack::new(&mut lent));
    fill_directory(&mut directory, &standing, &asked);
    let mut lent_too = free_slots(inputs.alloc, inputs.slots)?;
    let mut arena = Directory::<I>::new(FixedStack::new(&mut lent_too));
    fill_directory(&mut arena, &standing, &standing);
    let mut sum = 0_u64;
    for _ in 0..inputs.rounds {
        let accepted = recast_once(&mut arena, &directory);
        sum = sum.wrapping_add(u64::from(accepted));
    }
    Ok(contents(&arena, sum))
}
