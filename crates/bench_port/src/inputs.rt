use arena::DirectArena;
use arena::advancer::Advancer;
use kinds::{DirectSlot, PtrInx, PtrOf};
use numbering::SeasonGen;
use stack::FixedStack;
use std::alloc::{AllocError, Global};

/// A slot's number and a season, as the driver gives them.
#[repr(C)]
#[derive(Clone, Copy)]
pub struct Cited {
    pub slot: u32,
    pub season: u32,
}

/// What a workload is given: how many slots are lent, what stands at first, what is asked for, in order, and how often.
#[derive(Clone, Copy)]
pub struct Inputs<'a> {
    pub alloc: Global,
    pub slots: usize,
    pub standing: &'a [Cited],
    pub asked: &'a [Cited],
    pub rounds: usize,
}

pub type Season<I> = PtrOf<I, SeasonGen>;

pub type Slot<V> = DirectSlot<SeasonGen, V>;

pub type Register<'a, I, V> = DirectArena<Season<I>, V, FixedStack<'a, Slot<V>>>;

/// The pointers that are cited, those left out whose number has no index.
pub(crate) fn pointers<I: PtrInx>(
    alloc: Global,
    cited: &[Cited],
) -> Result<Vec<Season<I>>, AllocError> {
    let mut pointers = vec![in alloc]?;
    for c in cited {
        if let Some(inx) = I::try_from_usize(c.slot as usize) {
            pointers.push(PtrOf {
                inx,
                generation: SeasonGen { season: c.season },
            })?;
        }
    }
    Ok(pointers)
}

/// So many free slots, to be lent.
pub(crate) fn free_slots<V: Copy>(alloc: Global, n: usize) -> Result<Vec<Slot<V>>, AllocError> {
    vec![in alloc; DirectSlot::Free; n]
}

/// Inserts at each pointer its season as the value.
pub(crate) fn fill<I: PtrInx>(arena: &mut Register<'_, I, u32>, pointers: &[Season<I>]) {
    let _ = arena.clear();
    for p in pointers {
        let _ = arena.direct_insert_within_capacity(*p, p.generation.season);
    }
}

/// A checksum that goes on by one more number, in which the order of the numbers counts.
pub(crate) fn mixed(sum: u64, x: u64) -> u64 {
    sum.wrapping_mul(6_364_136_223_846_793_005).wrapping_add(x)
}

/// A checksum of all records, with their places.
pub(crate) fn contents<I: PtrInx>(arena: &Register<'_, I, u32>, sum: u64) -> u64 {
    let mut sum = mixed(sum, arena.slots() as u64);
    let mut advancer = arena.advancer();
    for _ in 0..arena.len() {
        if let Some(p) = advancer.advance(arena) {
            sum = mixed(sum, p.inx.try_into_usize().unwrap_or(0) as u64);
            sum = mixed(sum, u64::from(p.generation.season));
            sum = mixed(sum, u64::from(arena.get(p).unwrap_or(0)));
        }
    }
    sum
}
