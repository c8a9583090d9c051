// List edits, and what the mapper of a compression was shown.

use crate::write::write_record;
use arena::DirectArena;
use bulk::GetDisjointMutError;
use call_script::correction::{Correction, Witness};
use call_script::kind::{Kind, write_pointer};
use call_script::value::Value;
use call_script::word::Fault;
use kinds::DirectSlot;
use stack::NonZeroInxGenericStack;
use std::alloc::{AllocError, Global};

/// The mapper of a call, where the arena's values can be corrected so.
pub(crate) fn witness<P: Kind, V: Value<P>>(
    heap: Global,
    correction: Correction,
) -> Result<Witness<P>, Fault> {
    if V::admits(correction.amount()) {
        return Ok(Witness::new(heap, correction));
    }
    Err(Fault::Malformed)
}

fn write_disjoint(error: GetDisjointMutError, out: &mut String) -> Result<(), AllocError> {
    match error {
        GetDisjointMutError::IndexOutOfBounds => out.push_str("4"),
        GetDisjointMutError::OverlappingIndices => out.push_str("5"),
    }
}

fn write_shown<P: Kind, V: Value<P>>(
    shown: Option<(P::Gen, V)>,
    out: &mut String,
) -> Result<(), AllocError> {
    let Some((generation, value)) = shown else {
        return Ok(());
    };
    out.push_str(" ")?;
    write_record::<P, V>(generation, value, out)
}

fn write_shown_value<P: Kind, V: Value<P>>(
    shown: Option<V>,
    out: &mut String,
) -> Result<(), AllocError> {
    let Some(value) = shown else {
        return Ok(());
    };
    out.push_str(" ")?;
    value.write(out)
}

/// The records of a list are shown as they stand after the edit.
pub(crate) fn edit_list<
    P: Kind,
    V: Value<P>,
    S: NonZeroInxGenericStack<Slot = DirectSlot<P::Gen, V>>,
>(
    arena: &mut DirectArena<P, V, S>,
    mut witness: Witness<P>,
    indices: &[P::Inx],
    out: &mut String,
) -> Result<(), AllocError> {
    if let Err(error) = arena.get_disjoint_inx_mut(indices, &mut witness) {
        return write_disjoint(error, out);
    }
    out.push_str("ok")?;
    for inx in indices {
        write_shown::<P, V>(arena.get_inx(*inx), out)?;
    }
    Ok(())
}

/// The values of a list of pointers, after the edit.
pub(crate) fn edit_pointers<
    P: Kind,
    V: Value<P>,
    S: NonZeroInxGenericStack<Slot = DirectSlot<P::Gen, V>>,
>(
    arena: &mut DirectArena<P, V, S>,
    mut witness: Witness<P>,
    pointers: &[P],
    out: &mut String,
) -> Result<(), AllocError> {
    if let Err(error) = arena.get_disjoint_mut(pointers, &mut witness) {
        return write_disjoint(error, out);
    }
    out.push_str("ok")?;
    for p in pointers {
        write_shown_value(arena.get(*p), out)?;
    }
    Ok(())
}

fn write_move<P: Kind>(old: P, new: P, out: &mut String) -> Result<(), AllocError> {
    out.push_str(" ")?;
    write_pointer(old, out)?;
    out.push_str("->")?;
    write_pointer(new, out)
}

/// The report of a compression is what the mapper was shown.
pub(crate) fn write_report<P: Kind>(witness: &Witness<P>, out: &mut String) -> Result<(), Fault> {
    let pairs = witness.pairs().ok_or(Fault::NoMemory)?;
    out.push_str("ok")?;
    for (old, new) in pairs {
        write_move(*old, *new, out)?;
    }
    Ok(())
}
