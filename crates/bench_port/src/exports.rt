use crate::inputs::{Cited, Inputs, Register, Season, Slot};
use crate::many::{clone_from, compress, list_edit};
use crate::recasts::recast;
use crate::single::{edit, fills, get, insert, remove};
use crate::walks::walks;
use kinds::PtrInx;
use numbering::ShortInx;
use sheets::SheetInx;
use std::alloc::{AllocError, Global};
use std::mem::size_of;

// the workloads by the numbers that the driver gives them
fn run<I: PtrInx>(work: u32, inputs: Inputs<'_>) -> Result<u64, AllocError> {
    match work {
        0 => insert::<I>(inputs),
        1 => get::<I>(inputs),
        2 => edit::<I>(inputs),
        3 => remove::<I>(inputs),
        4 => list_edit::<I>(inputs),
        5 => compress::<I>(inputs),
        6 => clone_from::<I>(inputs),
        7 => walks::<I>(inputs, false),
        8 => walks::<I>(inputs, true),
        9 => recast::<I>(inputs),
        10 => fills::<I>(inputs),
        _ => Ok(0),
    }
}

/// Carries out a workload so many times, over short indices. Answers a checksum of all that the calls answered and left; 0
/// where memory was not to be had.
#[unsafe(no_mangle)]
pub extern "C" fn bench_short(
    alloc: Global,
    work: u32,
    slots: usize,
    standing: &[Cited],
    asked: &[Cited],
    rounds: usize,
) -> u64 {
    let inputs = Inputs {
        alloc,
        slots,
        standing,
        asked,
        rounds,
    };
    run::<ShortInx>(work, inputs).unwrap_or(0)
}

/// The same over sheets and lines.
#[unsafe(no_mangle)]
pub extern "C" fn bench_sheet(
    alloc: Global,
    work: u32,
    slots: usize,
    standing: &[Cited],
    asked: &[Cited],
    rounds: usize,
) -> u64 {
    let inputs = Inputs {
        alloc,
        slots,
        standing,
        asked,
        rounds,
    };
    run::<SheetInx>(work, inputs).unwrap_or(0)
}

/// How many bytes a slot takes, with a season and a value of 32 bits.
#[unsafe(no_mangle)]
pub extern "C" fn bench_slot_bytes() -> usize {
    size_of::<Slot<u32>>()
}

/// The same with a pointer of a short index as the value.
#[unsafe(no_mangle)]
pub extern "C" fn bench_pair_bytes() -> usize {
    size_of::<Slot<Season<ShortInx>>>()
}

/// How many bytes an arena takes, beside its slots.
#[unsafe(no_mangle)]
pub extern "C" fn bench_arena_bytes() -> usize {
    size_of::<Register<ShortInx, u32>>()
}
