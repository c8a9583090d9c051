// Calls on two arenas, and the answers to them.

use crate::list::witness;
use crate::write::{refusal, write_room, write_tail};
use arena::DirectArena;
use call_script::call::Two;
use call_script::correction::Correction;
use call_script::kind::{Kind, write_pointer};
use call_script::value::Value;
use call_script::word::Fault;
use directory::{DirectoryError, compress_into};
use kinds::DirectSlot;
use mapper::Recaster;
use stack::NonZeroInxGenericStack;
use std::alloc::{AllocError, Global};

fn clone_from<
    P: Kind,
    V: Value<P>,
    S: NonZeroInxGenericStack<Slot = DirectSlot<P::Gen, V>>,
    T: NonZeroInxGenericStack<Slot = DirectSlot<P::Gen, V>>,
>(
    heap: Global,
    arena: &mut DirectArena<P, V, S>,
    source: &DirectArena<P, V, T>,
    correction: Correction,
    out: &mut String,
) -> Result<(), Fault> {
    let mut witness = witness::<P, V>(heap, correction)?;
    write_room(arena.clone_from_with(source, &mut witness), out)?;
    Ok(write_tail(arena, out)?)
}

fn transfer_from<
    P: Kind,
    V: Value<P>,
    S: NonZeroInxGenericStack<Slot = DirectSlot<P::Gen, V>>,
    T: NonZeroInxGenericStack<Slot = DirectSlot<P::Gen, V>>,
>(
    heap: Global,
    arena: &mut DirectArena<P, V, S>,
    source: &mut DirectArena<P, V, T>,
    generation: P::Gen,
    correction: Correction,
    out: &mut String,
) -> Result<(), Fault> {
    let mut witness = witness::<P, V>(heap, correction)?;
    let verdict = arena.transfer_reallocating(generation, source, &mut witness);
    write_room(verdict, out)?;
    write_tail(arena, out)?;
    Ok(write_tail(source, out)?)
}

fn write_directed(answer: Result<(), DirectoryError>, out: &mut String) -> Result<(), AllocError> {
    match answer {
        Ok(()) => out.push_str("ok"),
        Err(DirectoryError::NoRoom(error)) => write!(out, "10 {}", refusal(error)),
    }
}

/// The report goes into the directory; a refusal shows the directory's number and what it carries.
pub(crate) fn compress_to<
    P: Kind,
    V: Value<P>,
    S: NonZeroInxGenericStack<Slot = DirectSlot<P::Gen, V>>,
    D: NonZeroInxGenericStack<Slot = DirectSlot<P::Gen, P>>,
>(
    heap: Global,
    arena: &mut DirectArena<P, V, S>,
    directory: &mut DirectArena<P, P, D>,
    correction: Correction,
    out: &mut String,
) -> Result<(), Fault> {
    let mut witness = witness::<P, V>(heap, correction)?;
    write_directed(compress_into(arena, directory, &mut witness), out)?;
    write_tail(arena, out)?;
    Ok(write_tail(directory, out)?)
}

fn write_behind<P: Kind>(word: &str, p: P, out: &mut String) -> Result<(), AllocError> {
    out.push_str(word)?;
    write_pointer(p, out)
}

/// The new pointer, or 9 and the pointer asked for.
pub(crate) fn recast_one<P: Kind, D: NonZeroInxGenericStack<Slot = DirectSlot<P::Gen, P>>>(
    directory: &DirectArena<P, P, D>,
    p: P,
    out: &mut String,
) -> Result<(), AllocError>
where
    DirectArena<P, P, D>: Recaster<P>,
{
    match directory.recast_item(p) {
        Ok(new) => write_behind("ok ", new, out),
        Err(lost) => write_behind("9 ", lost.pointer, out),
    }
}

fn recast_by<
    P: Kind + Value<P>,
    S: NonZeroInxGenericStack<Slot = DirectSlot<P::Gen, P>>,
    D: NonZeroInxGenericStack<Slot = DirectSlot<P::Gen, P>>,
>(
    arena: &mut DirectArena<P, P, S>,
    directory: &DirectArena<P, P, D>,
    out: &mut String,
) -> Result<(), AllocError> {
    match arena.recast(directory) {
        Ok(()) => out.push_str("ok")?,
        Err(lost) => write_behind("9 ", lost.pointer, out)?,
    }
    write_tail(arena, out)
}

fn join_with<
    P: Kind,
    S: NonZeroInxGenericStack<Slot = DirectSlot<P::Gen, P>>,
    D: NonZeroInxGenericStack<Slot = DirectSlot<P::Gen, P>>,
>(
    arena: &mut DirectArena<P, P, S>,
    directory: &DirectArena<P, P, D>,
    out: &mut String,
) -> Result<(), AllocError> {
    arena.join(directory);
    out.push_str("ok")?;
    write_tail(arena, out)
}

/// Makes a call on two arenas of one kind of value, and writes the answer to it.
pub(crate) fn alike<
    P: Kind,
    V: Value<P>,
    S: NonZeroInxGenericStack<Slot = DirectSlot<P::Gen, V>>,
    T: NonZeroInxGenericStack<Slot = DirectSlot<P::Gen, V>>,
>(
    heap: Global,
    arena: &mut DirectArena<P, V, S>,
    other: &mut DirectArena<P, V, T>,
    call: Two<P>,
    out: &mut String,
) -> Result<(), Fault> {
    match call {
        Two::CloneFrom(d) => clone_from(heap, arena, other, d, out),
        Two::TransferFrom(generation, d) => transfer_from(heap, arena, other, generation, d, out),
        _ => Err(Fault::Malformed),
    }
}

/// The same of two directories.
pub(crate) fn directories<
    P: Kind + Value<P>,
    S: NonZeroInxGenericStack<Slot = DirectSlot<P::Gen, P>>,
    T: NonZeroInxGenericStack<Slot = DirectSlot<P::Gen, P>>,
>(
    heap: Global,
    arena: &mut DirectArena<P, P, S>,
    other: &mut DirectArena<P, P, T>,
    call: Two<P>,
    out: &mut String,
) -> Result<(), Fault> {
    match call {
        Two::CompressInto(d) => compress_to(heap, arena, other, d, out),
        Two::RecastBy => Ok(recast_by(arena, other, out)?),
        Two::JoinWith => Ok(join_with(arena, other, out)?),
        _ => alike(heap, arena, other, call, out),
    }
}
