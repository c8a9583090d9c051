use crate::inputs::{Inputs, Register, Season, contents, fill, free_slots, pointers};
use kinds::PtrInx;
use outcome::InvalidationResult;
use stack::FixedStack;
use std::alloc::AllocError;

// what a call adds to the checksum that finds nothing
const NONE: u64 = 1_000_003;

#[inline(never)]
fn insert_all<I: PtrInx>(arena: &mut Register<'_, I, u32>, asked: &[Season<I>], sum: u64) -> u64 {
    let mut sum = sum;
    for p in asked {
        let accepted = arena
            .direct_insert_within_capacity(*p, p.generation.season)
            .is_ok();
        sum = sum.wrapping_add(if accepted { 1 } else { NONE });
    }
    sum
}

/// Insertions into an arena that is empty.
pub(crate) fn insert<I: PtrInx>(inputs: Inputs<'_>) -> Result<u64, AllocError> {
    let asked = pointers::<I>(inputs.alloc, inputs.asked)?;
    let mut lent = free_slots(inputs.alloc, inputs.slots)?;
    let mut arena = Register::<I, u32>::new(FixedStack::new(&mut lent));
    let mut sum = 0;
    for _ in 0..inputs.rounds {
        let _ = arena.clear();
        sum = insert_all(&mut arena, &asked, sum);
    }
    Ok(contents(&arena, sum))
}

/// Fillings alone, which the workloads on an arena that is filled anew begin with.
pub(crate) fn fills<I: PtrInx>(inputs: Inputs<'_>) -> Result<u64, AllocError> {
    let standing = pointers::<I>(inputs.alloc, inputs.standing)?;
    let mut lent = free_slots(inputs.alloc, inputs.slots)?;
    let mut arena = Register::<I, u32>::new(FixedStack::new(&mut lent));
    for _ in 0..inputs.rounds {
        fill(&mut arena, &standing);
    }
    Ok(contents(&arena, 0))
}

#[inline(never)]
fn get_all<I: PtrInx>(arena: &Register<'_, I, u32>, asked: &[Season<I>], sum: u64) -> u64 {
    let mut sum = sum;
    for p in asked {
        sum = sum.wrapping_add(arena.get(*p).map_or(NONE, u64::from));
    }
    sum
}

/// Questions by pointer.
pub(crate) fn get<I: PtrInx>(inputs: Inputs<'_>) -> Result<u64, AllocError> {
    let standing = pointers::<I>(inputs.alloc, inputs.standing)?;
    let asked = pointers::<I>(inputs.alloc, inputs.asked)?;
    let mut lent = free_slots(inputs.alloc, inputs.slots)?;
    let mut arena = Register::<I, u32>::new(FixedStack::new(&mut lent));
    fill(&mut arena, &standing);
    let mut sum = 0;
    for _ in 0..inputs.rounds {
        sum = get_all(&arena, &asked, sum);
    }
    Ok(contents(&arena, sum))
}

#[inline(never)]
fn edit_all<I: PtrInx>(arena: &mut Register<'_, I, u32>, asked: &[Season<I>], sum: u64) -> u64 {
    let mut sum = sum;
    for p in asked {
        let value = p.generation.season.wrapping_mul(3);
        sum = sum.wrapping_add(arena.edit(*p, value).map_or(NONE, u64::from));
    }
    sum
}

/// Edits by pointer.
pub(crate) fn edit<I: PtrInx>(inputs: Inputs<'_>) -> Result<u64, AllocError> {
    let standing = pointers::<I>(inputs.alloc, inputs.standing)?;
    let asked = pointers::<I>(inputs.alloc, inputs.asked)?;
    let mut lent = free_slots(inputs.alloc, inputs.slots)?;
    let mut arena = Register::<I, u32>::new(FixedStack::new(&mut lent));
    fill(&mut arena, &standing);
    let mut sum = 0;
    for _ in 0..inputs.rounds {
        sum = edit_all(&mut arena, &asked, sum);
    }
    Ok(contents(&arena, sum))
}

#[inline(never)]
fn remove_all<I: PtrInx>(arena: &mut Register<'_, I, u32>, asked: &[Season<I>], sum: u64) -> u64 {
    let mut sum = sum;
    for p in asked {
        sum = sum.wrapping_add(match arena.remove(*p) {
            InvalidationResult::Success(value) => u64::from(value),
            _ => NONE,
        });
    }
    sum
}

/// Removals by pointer, each time from an arena that is filled anew.
pub(crate) fn remove<I: PtrInx>(inputs: Inputs<'_>) -> Result<u64, AllocError> {
    let standing = pointers::<I>(inputs.alloc, inputs.standing)?;
    let asked = pointers::<I>(inputs.alloc, inputs.asked)?;
    let mut lent = free_slots(inputs.alloc, inputs.slots)?;
    let mut arena = Register::<I, u32>::new(FixedStack::new(&mut lent));
    let mut sum = 0;
    for _ in 0..inputs.rounds {
        fill(&mut arena, &standing);
        sum = remove_all(&mut arena, &asked, sum);
    }
    Ok(contents(&arena, sum))
}
