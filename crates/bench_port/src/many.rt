use crate::inputs::{Inputs, Register, Season, contents, fill, free_slots, pointers};
use kinds::PtrInx;
use mapper::AddCorrection;
use stack::FixedStack;
use std::alloc::{AllocError, Global};

// how many records a list edit names
const LIST: usize = 8;

const CORRECTION: AddCorrection = AddCorrection { correction: 1 };

fn indices<I: PtrInx>(alloc: Global, pointers: &[Season<I>]) -> Result<Vec<I>, AllocError> {
    pointers.iter().map(|p| p.inx).collect(alloc)
}

#[inline(never)]
fn edit_lists<I: PtrInx>(arena: &mut Register<'_, I, u32>, asked: &[I], sum: u64) -> u64 {
    let mut sum = sum;
    for list in asked.chunks_exact(LIST) {
        let accepted = arena.get_disjoint_inx_mut(list, &mut CORRECTION).is_ok();
        sum = sum.wrapping_add(if accepted { 1 } else { 3 });
    }
    sum
}

/// List edits by index, so many records at a time.
pub(crate) fn list_edit<I: PtrInx>(inputs: Inputs<'_>) -> Result<u64, AllocError> {
    let standing = pointers::<I>(inputs.alloc, inputs.standing)?;
    let asked = indices(inputs.alloc, &pointers::<I>(inputs.alloc, inputs.asked)?)?;
    let mut lent = free_slots(inputs.alloc, inputs.slots)?;
    let mut arena = Register::<I, u32>::new(FixedStack::new(&mut lent));
    fill(&mut arena, &standing);
    let mut sum = 0;
    for _ in 0..inputs.rounds {
        sum = edit_lists(&mut arena, &asked, sum);
    }
    Ok(contents(&arena, sum))
}

#[inline(never)]
fn compress_once<I: PtrInx>(arena: &mut Register<'_, I, u32>) {
    let _ = arena.compress_with(&mut CORRECTION);
}

/// Compressions, each time of an arena that is filled anew.
pub(crate) fn compress<I: PtrInx>(inputs: Inputs<'_>) -> Result<u64, AllocError> {
    let standing = pointers::<I>(inputs.alloc, inputs.standing)?;
    let mut lent = free_slots(inputs.alloc, inputs.slots)?;
    let mut arena = Register::<I, u32>::new(FixedStack::new(&mut lent));
    for _ in 0..inputs.rounds {
        fill(&mut arena, &standing);
        compress_once(&mut arena);
    }
    Ok(contents(&arena, 0))
}

#[inline(never)]
fn clone_once<I: PtrInx>(arena: &mut Register<'_, I, u32>, source: &Register<'_, I, u32>) -> bool {
    arena.clone_from_with(source, &mut CORRECTION).is_ok()
}

/// Clones of one arena into another that has room for it.
pub(crate) fn clone_from<I: PtrInx>(inputs: Inputs<'_>) -> Result<u64, AllocError> {
    let standing = pointers::<I>(inputs.alloc, inputs.standing)?;
    let mut lent = free_slots(inputs.alloc, inputs.slots)?;
    let mut source = Register::<I, u32>::new(FixedStack::new(&mut lent));
    fill(&mut source, &standing);
    let mut lent_too = free_slots(inputs.alloc, inputs.slots)?;
    let mut arena = Register::<I, u32>::new(FixedStack::new(&mut lent_too));
    let mut sum = 0_u64;
    for _ in 0..inputs.rounds {
        let accepted = clone_once(&mut arena, &source);
        sum = sum.wrapping_add(u64::from(accepted));
    }
    Ok(contents(&arena, sum))
}
