// What each call of a script does to the register, and whether it was carried out.
// Slot, generation and value are fields of a call and of an answer: a struct between would only be taken apart again.
ghost use Rattle.std.specs.Prelude.{◌≡◌};
ghost use Rattle.answers.specs.Refusals.{of_verdict};
ghost use Rattle.lines.specs.declared.call.Call.TheVariants.{Insert, Edit, Get, Remove, Trim, Reserve, Limit, Clear, Compress};
ghost use Rattle.passages.specs.State.{register_of, state_of};
ghost use Rattle.stack.specs.Fixed.{fixed_list};
ghost use Rattle.steps.specs.Model.{alone, outcome, recast_outcome, register_after, state_after};

use answers::answer::Concerned;
use answers::refusal::Refusal;
use directory::compress_into;
use mapper::{KeepValues, Recaster};
use numbering::pointer;
use passages::{Directory, Register};

pub(crate) fn insert(
    register: &mut Register<'_>,
    slot: u16,
    generation: u32,
    value: u32,
) -> Result<Concerned, Refusal>
    ensures answer { of_verdict result ≡ outcome (alone (register_of register.old)) (Insert slot generation value) }
    ensures after { register_of register.new ≡ register_after (alone (register_of register.old)) (Insert slot generation value) }
{
    register.direct_insert_within_capacity(pointer(slot, generation), value)?;
    Ok(Concerned::Record {
        slot,
        generation,
        value,
    })
}

pub(crate) fn get(register: &Register<'_>, slot: u16, generation: u32) -> Result<Concerned, Refusal>
    ensures { of_verdict result ≡ outcome (alone (register_of register.now)) (Get slot generation) }
{
    let value = register
        .get(pointer(slot, generation))
        .ok_or(Refusal::NotFound)?;
    Ok(Concerned::Record {
        slot,
        generation,
        value,
    })
}

pub(crate) fn edit(
    register: &mut Register<'_>,
    slot: u16,
    generation: u32,
    value: u32,
) -> Result<Concerned, Refusal>
    ensures answer { of_verdict result ≡ outcome (alone (register_of register.old)) (Edit slot generation value) }
    ensures after { register_of register.new ≡ register_after (alone (register_of register.old)) (Edit slot generation value) }
{
    let value = register
        .edit(pointer(slot, generation), value)
        .ok_or(Refusal::NotFound)?;
    Ok(Concerned::Record {
        slot,
        generation,
        value,
    })
}

pub(crate) fn remove(
    register: &mut Register<'_>,
    slot: u16,
    generation: u32,
) -> Result<Concerned, Refusal>
    ensures answer { of_verdict result ≡ outcome (alone (register_of register.old)) (Remove slot generation) }
    ensures after { register_of register.new ≡ register_after (alone (register_of register.old)) (Remove slot generation) }
{
    let value = register
        .remove(pointer(slot, generation))
        .allow()
        .ok_or(Refusal::NotFound)?;
    Ok(Concerned::Record {
        slot,
        generation,
        value,
    })
}

pub(crate) fn trim(register: &mut Register<'_>, count: u32) -> Result<Concerned, Refusal>
    ensures answer { of_verdict result ≡ outcome (alone (register_of register.old)) (Trim count) }
    ensures after { register_of register.new ≡ register_after (alone (register_of register.old)) (Trim count) }
{
    // `as`, here and below: std has no `From` from 32 bits to `usize`, and not more than `count` were popped
    let popped = register.pop_free_end_slots(count as usize);
    Ok(Concerned::Value(popped as u32))
}

pub(crate) fn reserve(register: &mut Register<'_>, request: u32) -> Result<Concerned, Refusal>
    ensures answer { of_verdict result ≡ outcome (alone (register_of register.old)) (Reserve request) }
    ensures after { register_of register.new ≡ register_after (alone (register_of register.old)) (Reserve request) }
{
    register.reallocate_min_capacity(request as usize)?;
    Ok(Concerned::Value(request))
}

pub(crate) fn limit(register: &mut Register<'_>, limit: u32) -> Result<Concerned, Refusal>
    ensures answer { of_verdict result ≡ outcome (alone (register_of register.old)) (Limit limit) }
    ensures after { register_of register.new ≡ register_after (alone (register_of register.old)) (Limit limit) }
{
    register.set_max_capacity(limit as usize)?;
    Ok(Concerned::Value(limit))
}

pub(crate) fn clear(register: &mut Register<'_>) -> Result<Concerned, Refusal>
    ensures answer { of_verdict result ≡ outcome (alone (register_of register.old)) Clear }
    ensures after { register_of register.new ≡ register_after (alone (register_of register.old)) Clear }
{
    let _ = register.clear();
    Ok(Concerned::Nothing)
}

// The count fits: each record has a slot with an index of 16 bits.
pub(crate) fn compress(
    register: &mut Register<'_>,
    latest: &mut Directory<'_>,
) -> Result<Concerned, Refusal>
    ensures answer { of_verdict result ≡ outcome (state_of register.old latest.old) Compress }
    ensures after { state_of register.new latest.new ≡ state_after (state_of register.old latest.old) Compress }
{
    compress_into(register, latest, &mut KeepValues)?;
    Ok(Concerned::Value(register.len() as u32))
}

pub(crate) fn recast(
    latest: &Directory<'_>,
    slot: u16,
    generation: u32,
) -> Result<Concerned, Refusal>
    ensures { of_verdict result ≡ recast_outcome (fixed_list latest.now) slot generation }
{
    let today = latest.recast_item(pointer(slot, generation))?;
    Ok(Concerned::Pointer {
        slot: today.inx.raw,
        generation: today.generation.season,
    })
}
