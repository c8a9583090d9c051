// Calls on one arena, and the answers to them.

use crate::list::{edit_list, edit_pointers, witness, write_report};
use crate::write::{write_dump, write_found, write_pair, write_room, write_tail, write_value};
use arena::DirectArena;
use arena::drain::Drain;
use call_script::call::{ChangeAll, Cited, Giving, One, Question, Taking};
use call_script::correction::Correction;
use call_script::kind::{Kind, write_pointer};
use call_script::value::Value;
use call_script::word::Fault;
use kinds::{DirectSlot, Ptr, PtrInx};
use outcome::{InvalidationOption, InvalidationResult};
use slots::DirectInsertionError;
use stack::{MaxCapacityReductionError, NonZeroInxGenericStack, SetMaxCapacity};
use std::alloc::{AllocError, Global};

fn write_insertion(
    answer: Result<(), DirectInsertionError>,
    out: &mut String,
) -> Result<(), AllocError> {
    out.push_str(match answer {
        Ok(()) => "ok",
        Err(DirectInsertionError::NotWithinCapacity) => "1",
        Err(DirectInsertionError::ExistingElementAtIndex) => "2",
    })
}

fn write_yes(yes: bool, out: &mut String) -> Result<(), AllocError> {
    out.push_str(if yes { "yes" } else { "no" })
}

fn write_amount(amount: usize, out: &mut String) -> Result<(), AllocError> {
    write!(out, "ok {amount}")
}

// Questions that leave the arena as it is.
fn ask<P: Kind, V: Value<P>, S: NonZeroInxGenericStack<Slot = DirectSlot<P::Gen, V>>>(
    arena: &DirectArena<P, V, S>,
    question: &Question<P>,
    out: &mut String,
) -> Result<(), AllocError> {
    match question {
        Question::Get(p) => write_value(arena.get(*p), out),
        Question::Contains(p) => write_yes(arena.contains(*p), out),
        Question::GetInx(inx) => write_pair::<P, V>(arena.get_inx(*inx), out),
        Question::First => write_found(arena.find_first_inx_ptr(), "none", out),
        Question::Last => write_found(arena.find_last_inx_ptr(), "none", out),
        Question::Capacity => write_amount(arena.capacity(), out),
        Question::Dump => write_dump(arena, out),
    }
}

// A record gets a value.
fn give<P: Kind, V: Value<P>, S: NonZeroInxGenericStack<Slot = DirectSlot<P::Gen, V>>>(
    arena: &mut DirectArena<P, V, S>,
    call: &Giving<P>,
    value: V,
    out: &mut String,
) -> Result<(), AllocError> {
    match call {
        Giving::Insert(p) => write_insertion(arena.direct_insert_within_capacity(*p, value), out)?,
        Giving::Edit(p) => write_value(arena.edit(*p, value), out)?,
        Giving::EditInx(inx) => write_pair::<P, V>(arena.edit_inx(*inx, value), out)?,
    }
    write_tail(arena, out)
}

fn take<P: Kind, V: Value<P>, S: NonZeroInxGenericStack<Slot = DirectSlot<P::Gen, V>>>(
    arena: &mut DirectArena<P, V, S>,
    call: &Taking<P>,
    out: &mut String,
) -> Result<(), AllocError> {
    match call {
        Taking::Remove(p) => write_value(arena.remove(*p).allow(), out)?,
        Taking::RemoveInx(inx) => write_pair::<P, V>(arena.remove_inx(*inx).allow(), out)?,
        Taking::Invalidate(p) => write_found(arena.invalidate(*p).allow(), "3", out)?,
    }
    write_tail(arena, out)
}

fn compress<P: Kind, V: Value<P>, S: NonZeroInxGenericStack<Slot = DirectSlot<P::Gen, V>>>(
    heap: Global,
    arena: &mut DirectArena<P, V, S>,
    correction: Correction,
    out: &mut String,
) -> Result<(), Fault> {
    let mut witness = witness::<P, V>(heap, correction)?;
    let _ = arena.compress_with(&mut witness);
    write_report(&witness, out)?;
    Ok(write_tail(arena, out)?)
}

// Takes out so many records at most, and ends the drain.
fn drain<P: Kind, V: Value<P>, S: NonZeroInxGenericStack<Slot = DirectSlot<P::Gen, V>>>(
    arena: &mut DirectArena<P, V, S>,
    most: usize,
    out: &mut String,
) -> Result<(), AllocError> {
    let mut drain = arena.drain();
    let written = write_drained(arena, &mut drain, most, out);
    let _ = drain.finish(arena);
    written
}

fn write_taken<P: Kind, V: Value<P>>(p: P, value: V, out: &mut String) -> Result<(), AllocError> {
    out.push_str(" ")?;
    write_pointer(p, out)?;
    out.push_str(":")?;
    value.write(out)
}

fn write_drained<P: Kind, V: Value<P>, S: NonZeroInxGenericStack<Slot = DirectSlot<P::Gen, V>>>(
    arena: &mut DirectArena<P, V, S>,
    drain: &mut Drain<P>,
    most: usize,
    out: &mut String,
) -> Result<(), AllocError> {
    out.push_str("ok")?;
    for _ in 0..most {
        let Some(taken) = drain.next(arena) else {
            return out.push_str(" none");
        };
        let (p, value) = taken.allow();
        write_taken(p, value, out)?;
    }
    Ok(())
}

// Calls on the arena as a whole.
fn change_all<P: Kind, V: Value<P>, S: NonZeroInxGenericStack<Slot = DirectSlot<P::Gen, V>>>(
    arena: &mut DirectArena<P, V, S>,
    call: &ChangeAll,
    out: &mut String,
) -> Result<(), AllocError> {
    match call {
        ChangeAll::Clear => {
            let _ = arena.clear();
            out.push_str("ok")?;
        }
        ChangeAll::Trim(most) => write_amount(arena.pop_free_end_slots(*most), out)?,
        ChangeAll::Reserve(wanted) => write_room(arena.reallocate_min_capacity(*wanted), out)?,
        ChangeAll::Drain(most) => drain(arena, *most, out)?,
    }
    write_tail(arena, out)
}

/// Makes a call that any arena has, and writes the answer to it.
pub(crate) fn answer<P: Kind, V: Value<P>, S: NonZeroInxGenericStack<Slot = DirectSlot<P::Gen, V>>>(
    heap: Global,
    arena: &mut DirectArena<P, V, S>,
    call: &One<P>,
    out: &mut String,
) -> Result<(), Fault> {
    match call {
        One::Ask(question) => ask(arena, question, out).map_err(Fault::from),
        One::Give(call, datum) => give(arena, call, V::of(*datum)?, out).map_err(Fault::from),
        One::Take(call) => take(arena, call, out).map_err(Fault::from),
        One::ChangeAll(call) => change_all(arena, call, out).map_err(Fault::from),
        One::Compress(d) => compress(heap, arena, *d, out),
        One::Limit(_) | One::Recast(_) => Err(Fault::Malformed),
    }
}

/// Makes a list edit, and writes the answer to it.
pub(crate) fn answer_list<
    P: Kind,
    V: Value<P>,
    S: NonZeroInxGenericStack<Slot = DirectSlot<P::Gen, V>>,
>(
    heap: Global,
    arena: &mut DirectArena<P, V, S>,
    correction: Correction,
    cited: &Cited<P>,
    out: &mut String,
) -> Result<(), Fault> {
    let witness = witness::<P, V>(heap, correction)?;
    match cited {
        Cited::Indices(indices) => edit_list(arena, witness, indices.as_slice(), out)?,
        Cited::Pointers(pointers) => edit_pointers(arena, witness, pointers.as_slice(), out)?,
    }
    Ok(write_tail(arena, out)?)
}

/// Sets the maximum of an arena whose stack lets it.
pub(crate) fn limit<P: Kind, V: Copy, S: SetMaxCapacity<Slot = DirectSlot<P::Gen, V>>>(
    arena: &mut DirectArena<P, V, S>,
    most: usize,
    out: &mut String,
) -> Result<(), AllocError> {
    out.push_str(match arena.set_max_capacity(most) {
        Ok(()) => "ok",
        Err(MaxCapacityReductionError) => "8",
    })?;
    write_tail(arena, out)
}
