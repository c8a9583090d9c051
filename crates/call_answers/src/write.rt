// What is written of an arena, of a record and of a refusal.

use arena::{ArenaReallocationError, DirectArena};
use call_script::kind::{Kind, write_pointer};
use call_script::value::Value;
use kinds::DirectSlot;
use stack::{NonZeroInxGenericStack, ReallocationError};
use std::alloc::AllocError;

/// The number of a refusal to make room.
pub(crate) fn refusal(error: ArenaReallocationError) -> u8 {
    match error {
        ArenaReallocationError::Stack(ReallocationError::BeyondMaxCapacity) => 6,
        ArenaReallocationError::Stack(ReallocationError::AllocError)
        | ArenaReallocationError::BeyondIndices => 7,
    }
}

/// `ok`, or the number of the refusal.
pub(crate) fn write_room(
    answer: Result<(), ArenaReallocationError>,
    out: &mut String,
) -> Result<(), AllocError> {
    match answer {
        Ok(()) => out.push_str("ok"),
        Err(error) => write!(out, "{}", refusal(error)),
    }
}

fn write_numbers(
    records: usize,
    slots: usize,
    capacity: usize,
    most: Option<usize>,
    out: &mut String,
) -> Result<(), AllocError> {
    write!(out, " | {records} {slots} {capacity} ")?;
    match most {
        Some(most) => write!(out, "{most}"),
        None => out.push_str("-"),
    }
}

/// Records, slots, the stack's capacity and its maximum.
pub(crate) fn write_tail<P: Kind, V: Copy, S: NonZeroInxGenericStack<Slot = DirectSlot<P::Gen, V>>>(
    arena: &DirectArena<P, V, S>,
    out: &mut String,
) -> Result<(), AllocError> {
    write_numbers(
        arena.len(),
        arena.slots(),
        arena.backing().capacity(),
        arena.max_capacity(),
        out,
    )
}

pub(crate) fn write_record<P: Kind, V: Value<P>>(
    generation: P::Gen,
    value: V,
    out: &mut String,
) -> Result<(), AllocError> {
    P::write_gen(generation, out)?;
    out.push_str(":")?;
    value.write(out)
}

/// `ok` and the value, or 3.
pub(crate) fn write_value<P: Kind, V: Value<P>>(
    found: Option<V>,
    out: &mut String,
) -> Result<(), AllocError> {
    match found {
        Some(value) => {
            out.push_str("ok ")?;
            value.write(out)
        }
        None => out.push_str("3"),
    }
}

/// `ok` and the generation with the value, or 3.
pub(crate) fn write_pair<P: Kind, V: Value<P>>(
    found: Option<(P::Gen, V)>,
    out: &mut String,
) -> Result<(), AllocError> {
    match found {
        Some((generation, value)) => {
            out.push_str("ok ")?;
            write_record::<P, V>(generation, value, out)
        }
        None => out.push_str("3"),
    }
}

/// `ok` and the pointer, or what stands for none.
pub(crate) fn write_found<P: Kind>(
    found: Option<P>,
    none: &str,
    out: &mut String,
) -> Result<(), AllocError> {
    match found {
        Some(p) => {
            out.push_str("ok ")?;
            write_pointer(p, out)
        }
        None => out.push_str(none),
    }
}

// Each slot from the first on: `.` where it is free.
fn write_slots<P: Kind, V: Value<P>, S: NonZeroInxGenericStack<Slot = DirectSlot<P::Gen, V>>>(
    arena: &DirectArena<P, V, S>,
    out: &mut String,
) -> Result<(), AllocError> {
    out.push_str(" |")?;
    for place in 0..arena.slots() {
        match arena.backing().get(place + 1) {
            Some(DirectSlot::Allocated(generation, value)) => {
                out.push_str(" ")?;
                write_record::<P, V>(generation, value, out)?;
            }
            _ => out.push_str(" .")?,
        }
    }
    Ok(())
}

/// The tail, and each slot.
pub(crate) fn write_dump<
    P: Kind,
    V: Value<P>,
    S: NonZeroInxGenericStack<Slot = DirectSlot<P::Gen, V>>,
>(arena: &DirectArena<P, V, S>, out: &mut String) -> Result<(), AllocError> {
    out.push_str("ok")?;
    write_tail(arena, out)?;
    write_slots(arena, out)
}
