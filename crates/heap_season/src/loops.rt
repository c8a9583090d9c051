// Many calls of a season at once, and the lines that are written of them.
ghost use Rattle.std.specs.Prelude.{◌≡◌, ◌++◌, string_bytes, OnOk};
ghost use Rattle.answers.specs.Shown.{reply_of};
ghost use Rattle.heap_season.specs.Season.{line_of, held_line};

use crate::calls::{held, insert, remove, reserve};
use crate::register::{Register, Slot};
use answers::answer::Answer;
use answers::write::add_line;
use numbering::pointer;
use stack::NonZeroInxGenericStack;
use std::alloc::AllocError;

/// The season of the records that come and go many at once.
pub(crate) const SEASON: u32 = 1;

/// Writes the line of an answer, behind the name of its call.
pub(crate) fn add(out: &mut String, call: &str, answer: Answer) -> Result<(), AllocError>
    ensures { OnOk result (string_bytes out.new ≡ string_bytes out.old ++ line_of call.now (reply_of answer)) }
{
    out.push_str(call)?;
    out.push_str(" ")?;
    add_line(out, answer)
}

// Brings in a record, with ten times its slot's number for its value; where there is no room it is asked for first, and
// a line says so.
fn insert_growing<S: NonZeroInxGenericStack<Slot = Slot>>(
    out: &mut String,
    register: &mut Register<S>,
    slot: u16,
) -> Result<(), AllocError> {
    if usize::from(slot) > register.capacity() {
        add(out, "reserve", reserve(register, u32::from(slot)))?;
    }
    let _ = insert(register, pointer(slot, SEASON), 10 * u32::from(slot));
    Ok(())
}

/// Brings in so many records, at each third slot.
pub(crate) fn fill<S: NonZeroInxGenericStack<Slot = Slot>>(
    out: &mut String,
    register: &mut Register<S>,
    records: u16,
) -> Result<(), AllocError> {
    for k in 0..records {
        insert_growing(out, register, k.saturating_add(1).saturating_mul(3))?;
    }
    add(out, "held", held(register))
}

/// Takes out the records at so many slots, from the first on, each so far from the one before.
pub(crate) fn remove_each<S: NonZeroInxGenericStack<Slot = Slot>>(
    out: &mut String,
    register: &mut Register<S>,
    first: u16,
    apart: u16,
    slots: u16,
) -> Result<(), AllocError>
    ensures line { OnOk result (string_bytes out.new ≡ string_bytes out.old ++ held_line (S.list register.new) (S.room (S.config register.new))) }
    ensures kept { S.config register.new ≡ S.config register.old }
{
    for k in 0..slots {
        let slot = first.saturating_add(apart.saturating_mul(k));
        let _ = remove(register, pointer(slot, SEASON));
    }
    add(out, "held", held(register))
}
