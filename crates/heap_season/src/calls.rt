// The calls of a season, over any stack: each makes one call on an arena, and answers for it.
ghost use Rattle.std.specs.Prelude.{◌≡◌, ◌-◌, min, [], length, nat_lt, IfOk, OnErr};
ghost use Rattle.answers.specs.Refusals.{of_verdict};
ghost use Rattle.answers.specs.declared.answer.Concerned.TheVariants.{Value, Nothing};
ghost use Rattle.arena.specs.Answers.{value_answer};
ghost use Rattle.arena.specs.Reserve.{Reallocated};
ghost use Rattle.history.specs.Calls as history;
ghost use Rattle.history.specs.Calls.{entry, went, pointer as by_pointer, Step};
ghost use Rattle.history.specs.Directories.{Filled, joined_with, recast_by};
ghost use Rattle.history.specs.Mapped.{kept, records, report};
ghost use Rattle.history.specs.Slots.{count, trimmed};
ghost use Rattle.numbering.specs.Kinds.{season_alike};
ghost use Rattle.outcome.specs.Outcome.{done, refused};
ghost use Rattle.directory.specs.Find.{led_to};
ghost use Rattle.slots.specs.Inserted.{insert_answer};
ghost use Rattle.slots.specs.Records.{found};
ghost use Rattle.stack.specs.Limits.{limit_answer};
ghost use Rattle.heap_season.specs.Season.{view, point, tally_of, record_at, shown, bare, held_answer, found_answer};

use crate::register::{Directory, PointerSlot, Register, Slot, record_at, tally};
use answers::answer::{Answer, Concerned};
use answers::refusal::Refusal;
use arena::{ArenaReallocationError, DirectArena};
use directory::compress_into;
use directory::find::find as find_through;
use kinds::DirectSlot;
use mapper::{KeepValues, Recaster};
use numbering::{Pointer, SeasonGen};
use stack::{NonZeroInxGenericStack, SetMaxCapacity};

/// What is held, with no call.
pub(crate) fn held<V: Copy, S: NonZeroInxGenericStack<Slot = DirectSlot<SeasonGen, V>>>(
    arena: &DirectArena<Pointer, V, S>,
) -> Answer
    ensures shows { of_verdict result.verdict ≡ done Nothing }
    ensures held { result.tally ≡ tally_of (S.list arena.now) (S.room (S.config arena.now)) }
{
    Answer {
        verdict: Ok(Concerned::Nothing),
        tally: tally(arena),
    }
}

pub(crate) fn insert<S: NonZeroInxGenericStack<Slot = Slot>>(
    register: &mut Register<S>,
    p: Pointer,
    value: u32,
) -> Answer
    ensures answer { of_verdict result.verdict ≡ shown (λ _. record_at p value) (insert_answer (min (S.room (S.config register.old)) 65535) (view p) (S.list register.old)) }
    ensures step { Step season_alike (entry (history.insert (view p) value) (of_verdict result.verdict)) (S.list register.old) (S.list register.new) }
    ensures held { result.tally ≡ tally_of (S.list register.new) (S.room (S.config register.new)) }
    ensures kept { S.config register.new ≡ S.config register.old }
{
    let verdict = match register.direct_insert_within_capacity(p, value) {
        Ok(()) => Ok(record_at(p, value)),
        Err(error) => Err(Refusal::from(error)),
    };
    Answer {
        verdict,
        tally: tally(register),
    }
}

pub(crate) fn remove<S: NonZeroInxGenericStack<Slot = Slot>>(
    register: &mut Register<S>,
    p: Pointer,
) -> Answer
    ensures answer { of_verdict result.verdict ≡ shown (λ u. record_at p u) (value_answer (found season_alike (view p) (S.list register.old))) }
    ensures step { Step season_alike (entry (history.remove (by_pointer (view p))) (of_verdict result.verdict)) (S.list register.old) (S.list register.new) }
    ensures held { result.tally ≡ tally_of (S.list register.new) (S.room (S.config register.new)) }
    ensures kept { S.config register.new ≡ S.config register.old }
{
    let verdict = match register.remove(p).allow() {
        Some(value) => Ok(record_at(p, value)),
        None => Err(Refusal::NotFound),
    };
    Answer {
        verdict,
        tally: tally(register),
    }
}

/// Asks for room for so many slots.
pub(crate) fn reserve<V: Copy, S: NonZeroInxGenericStack<Slot = DirectSlot<SeasonGen, V>>>(
    arena: &mut DirectArena<Pointer, V, S>,
    request: u32,
) -> Answer
    ensures shows { IfOk result.verdict (λ c. c ≡ Value request) }
    ensures step { Step season_alike (entry (history.reallocate request) (of_verdict result.verdict)) (S.list arena.old) (S.list arena.new) }
    ensures grown { Reallocated S.regrown (nat_lt 65535 request) (S.config arena.old) (length (S.list arena.new)) request (bare (of_verdict result.verdict)) (S.config arena.new) }
    ensures held { result.tally ≡ tally_of (S.list arena.new) (S.room (S.config arena.new)) }
{
    // `as`: std has no `From` from 32 bits to `usize`, here and below
    let verdict = match arena.reallocate_min_capacity(request as usize) {
        Ok(()) => Ok(Concerned::Value(request)),
        Err(error) => Err(Refusal::from(error)),
    };
    Answer {
        verdict,
        tally: tally(arena),
    }
}

pub(crate) fn limit<V: Copy, S: SetMaxCapacity<Slot = DirectSlot<SeasonGen, V>>>(
    arena: &mut DirectArena<Pointer, V, S>,
    most: u32,
) -> Answer
    ensures shows { IfOk result.verdict (λ c. c ≡ Value most) }
    ensures step { Step season_alike (entry (history.limit most) (of_verdict result.verdict)) (S.list arena.old) (S.list arena.new) }
    ensures answer { bare (of_verdict result.verdict) ≡ limit_answer (length (S.list arena.new)) most }
    ensures held { result.tally ≡ tally_of (S.list arena.new) (S.room (S.config arena.new)) }
{
    let verdict = match arena.set_max_capacity(most as usize) {
        Ok(()) => Ok(Concerned::Value(most)),
        Err(error) => Err(Refusal::from(error)),
    };
    Answer {
        verdict,
        tally: tally(arena),
    }
}

/// Pops so many free slots from the end at most.
pub(crate) fn trim<S: NonZeroInxGenericStack<Slot = Slot>>(
    register: &mut Register<S>,
    most: u32,
) -> Answer
    ensures answer { of_verdict result.verdict ≡ done (Value (length (S.list register.old) - length (trimmed most (S.list register.old)))) }
    ensures step { Step season_alike (entry (history.trim most) (of_verdict result.verdict)) (S.list register.old) (S.list register.new) }
    ensures held { result.tally ≡ tally_of (S.list register.new) (S.room (S.config register.new)) }
    ensures kept { S.config register.new ≡ S.config register.old }
{
    // not more than `most` were popped
    let popped = register.pop_free_end_slots(most as usize);
    Answer {
        verdict: Ok(Concerned::Value(popped as u32)),
        tally: tally(register),
    }
}

pub(crate) fn clear<V: Copy, S: NonZeroInxGenericStack<Slot = DirectSlot<SeasonGen, V>>>(
    arena: &mut DirectArena<Pointer, V, S>,
) -> Answer
    ensures shows { of_verdict result.verdict ≡ done Nothing }
    ensures slots { S.list arena.new ≡ [] }
    ensures held { result.tally ≡ tally_of (S.list arena.new) (S.room (S.config arena.new)) }
    ensures kept { S.config arena.new ≡ S.config arena.old }
{
    let _ = arena.clear();
    held(arena)
}

/// Compresses a register into a directory, which may have to be given room.
pub(crate) fn compress<
    S: NonZeroInxGenericStack<Slot = Slot>,
    D: NonZeroInxGenericStack<Slot = PointerSlot>,
>(register: &mut Register<S>, directory: &mut Directory<D>) -> Answer
    ensures shows { IfOk result.verdict (λ c. c ≡ Value (count (S.list register.new))) }
    ensures refusal { OnErr result.verdict (of_verdict result.verdict ≡ refused 10) }
    ensures step { Step season_alike (entry (history.compress kept) (of_verdict result.verdict)) (S.list register.old) (S.list register.new) }
    ensures filled { Filled season_alike point (went (of_verdict result.verdict)) (report (records (S.list register.old))) (D.list directory.old) (D.list directory.new) }
    ensures held { result.tally ≡ tally_of (S.list register.new) (S.room (S.config register.new)) }
    ensures kept { S.config register.new ≡ S.config register.old }
{
    let verdict = match compress_into(register, directory, &mut KeepValues) {
        // the count fits: each record has a slot with an index of 16 bits
        Ok(()) => Ok(Concerned::Value(register.len() as u32)),
        Err(error) => Err(Refusal::from(error)),
    };
    Answer {
        verdict,
        tally: tally(register),
    }
}

/// The pointer that a directory holds at another.
pub(crate) fn recast<D: NonZeroInxGenericStack<Slot = PointerSlot>>(
    directory: &Directory<D>,
    p: Pointer,
) -> Answer
    ensures answer { of_verdict result.verdict ≡ held_answer (recast_by season_alike view (D.list directory.now) p) }
    ensures held { result.tally ≡ tally_of (D.list directory.now) (D.room (D.config directory.now)) }
{
    let verdict = match directory.recast_item(p) {
        Ok(today) => Ok(Concerned::Pointer {
            slot: today.inx.raw,
            generation: today.generation.season,
        }),
        Err(error) => Err(Refusal::from(error)),
    };
    Answer {
        verdict,
        tally: tally(directory),
    }
}

/// Joins a directory with the next one.
pub(crate) fn join<
    D: NonZeroInxGenericStack<Slot = PointerSlot>,
    E: NonZeroInxGenericStack<Slot = PointerSlot>,
>(directory: &mut Directory<D>, next: &Directory<E>) -> Answer
    ensures shows { of_verdict result.verdict ≡ done Nothing }
    ensures slots { D.list directory.new ≡ joined_with season_alike view (D.list directory.old) (E.list next.now) }
    ensures held { result.tally ≡ tally_of (D.list directory.new) (D.room (D.config directory.new)) }
    ensures kept { D.config directory.new ≡ D.config directory.old }
{
    directory.join(next);
    held(directory)
}

/// The record of a register that a pointer leads to through a directory.
pub(crate) fn find<
    S: NonZeroInxGenericStack<Slot = Slot>,
    D: NonZeroInxGenericStack<Slot = PointerSlot>,
>(register: &Register<S>, directory: &Directory<D>, p: Pointer) -> Answer
    ensures answer { of_verdict result.verdict ≡ found_answer (led_to season_alike view (S.list register.now) (D.list directory.now) p) }
    ensures held { result.tally ≡ tally_of (S.list register.now) (S.room (S.config register.now)) }
{
    let verdict = match find_through(register, directory, p) {
        Some((today, value)) => Ok(record_at(today, value)),
        None => Err(Refusal::NotFound),
    };
    Answer {
        verdict,
        tally: tally(register),
    }
}

/// Asks the stack itself for room, past its arena, which refuses what has no index. The register is made anew over the
/// stack, and so it is cleared.
pub(crate) fn request<S: NonZeroInxGenericStack<Slot = Slot>>(
    register: Register<S>,
    slots: usize,
) -> (Register<S>, Answer)
    ensures grown { S.regrown (S.config register) (length (S.list register)) slots (bare (of_verdict result.1.verdict)) (S.config result.0) }
    ensures slots { S.list result.0 ≡ [] }
    ensures held { result.1.tally ≡ tally_of (S.list result.0) (S.room (S.config result.0)) }
{
    let mut stack = register.into_stack();
    let asked = stack.reallocate_min_capacity(slots);
    let register = DirectArena::new(stack);
    let verdict = match asked {
        Ok(()) => Ok(Concerned::Nothing),
        Err(error) => Err(Refusal::from(ArenaReallocationError::from(error))),
    };
    let answer = Answer {
        verdict,
        tally: tally(&register),
    };
    (register, answer)
}
