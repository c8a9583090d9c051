ghost use Rattle.std.specs.Prelude.{◌≡◌, ◌≤◌, ◌+◌, ℕ, cond, length, nat_lt};
ghost use Rattle.kinds.specs.Places.{in_range};
ghost use Rattle.directory.specs.Outcomes.{of_directory, carried};
ghost use Rattle.arena.specs.Outcomes.{of_arena_reallocation, beyond_indices};
ghost use Rattle.history.specs.Mapped.{records, report, shown_by};
ghost use Rattle.history.specs.Calls.{compress as compression, went, entry, Step};
ghost use Rattle.history.specs.Directories.{Filled, HoldsAfter};
ghost use Rattle.bulk.specs.Given.{given, left, point};
ghost use Rattle.bulk.specs.Brought.{last_slot};
ghost use Rattle.arena.specs.Answers.{cited};
ghost use Rattle.arena.specs.Reserve.{MadeRoom};

use crate::error::DirectoryError;
use arena::{ArenaReallocationError, DirectArena};
use kinds::{DirectSlot, Ptr, PtrInx};
use mapper::Mapper;
use stack::NonZeroInxGenericStack;
use std::marker::{Model, PhantomData};

// Gives each record that it is shown the pointer at which a compression leaves it: the next slot, and its generation.
#[derive(Drop)]
struct NewPointers<P: Ptr> {
    moved: usize,
    of: PhantomData<P>,
}

// So many records as have an index were moved at most: an arena has no more.
impl<P: Ptr> Model for NewPointers<P> {
    ghost use Rattle.std.specs.Prelude.{ℕ, ◌≤◌};

    ghost Value = { ℕ };

    ghost view = { λ m. m.moved };

    ghost invariant = { λ m. m.moved ≤ P.Inx.largest };
}

impl<P: Ptr, V: Copy> Mapper<P, P, V, P> for NewPointers<P> {
    ghost State = { ℕ };

    ghost state = { λ m. m };

    ghost next = { λ w _ _ _. cond (in_range (w + 1) P.Inx.largest) (w + 1) w };

    ghost mapped = { λ w old _ _. cond (in_range (w + 1) P.Inx.largest) (P.made (P.Inx.indexed (w + 1)) (P.mark old)) old };

    fn map(&mut self, old: P, _new: P, _value: V) -> P {
        match P::Inx::try_from_usize(self.moved + 1) {
            Some(inx) => {
                self.moved += 1;
                P::from_raw(inx, old.generation())
            }
            None => old,
        }
    }
}

fn new_pointers<P: Ptr>() -> NewPointers<P>
    ensures { result ≡ 0 }
{
    NewPointers {
        moved: 0,
        of: PhantomData,
    }
}

// Fills a directory with the report of the compression that the arena is about to get.
fn fill<
    P: Ptr,
    V: Copy,
    S: NonZeroInxGenericStack<Slot = DirectSlot<P::Gen, V>>,
    D: NonZeroInxGenericStack<Slot = DirectSlot<P::Gen, P>>,
>(
    directory: &mut DirectArena<P, P, D>,
    arena: &DirectArena<P, V, S>,
) -> Result<(), ArenaReallocationError>
    ensures filled { Filled P.Gen.eq (point P.Inx.indexed P.made) (went (of_arena_reallocation result)) (report (records (S.list arena.now))) (D.list directory.old) (D.list directory.new) }
    ensures holds { HoldsAfter (cited P.Inx.number P.index P.mark) (went (of_arena_reallocation result)) (report (records (S.list arena.now))) (D.list directory.new) }
    ensures grown { MadeRoom D.regrown D.room P.Inx.largest (length (D.list directory.old)) (last_slot (records (S.list arena.now))) (of_arena_reallocation result) (D.config directory.old) (D.config directory.new) }
    ensures whose { beyond_indices result ≡ nat_lt P.Inx.largest (last_slot (records (S.list arena.now))) }
{
    directory.clone_from_with(arena, &mut new_pointers())
}

/// Compresses an arena, and fills the directory with the report: at each old pointer the new one. Where the directory
/// has no room for the last record's slot, and is given none, neither is changed.
pub fn compress_into<
    P: Ptr,
    V: Copy,
    S: NonZeroInxGenericStack<Slot = DirectSlot<P::Gen, V>>,
    D: NonZeroInxGenericStack<Slot = DirectSlot<P::Gen, P>>,
    F: Mapper<P, P, V, V>,
>(
    arena: &mut DirectArena<P, V, S>,
    directory: &mut DirectArena<P, P, D>,
    mapper: &mut F,
) -> Result<(), DirectoryError>
    ensures step { Step P.Gen.eq (entry (compression (given F.next F.mapped P.Inx.indexed P.made (F.state mapper.old))) (of_directory result)) (S.list arena.old) (S.list arena.new) }
    ensures filled { Filled P.Gen.eq (point P.Inx.indexed P.made) (went (of_directory result)) (report (records (S.list arena.old))) (D.list directory.old) (D.list directory.new) }
    ensures holds { HoldsAfter (cited P.Inx.number P.index P.mark) (went (of_directory result)) (report (records (S.list arena.old))) (D.list directory.new) }
    ensures grown { MadeRoom D.regrown D.room P.Inx.largest (length (D.list directory.old)) (last_slot (records (S.list arena.old))) (of_arena_reallocation (carried result)) (D.config directory.old) (D.config directory.new) }
    ensures whose { beyond_indices (carried result) ≡ nat_lt P.Inx.largest (last_slot (records (S.list arena.old))) }
    ensures mapper { F.state mapper.new ≡ cond (went (of_directory result)) (left F.next F.mapped P.Inx.indexed P.made (F.state mapper.old) (shown_by (report (records (S.list arena.old))) (records (S.list arena.old)))) (F.state mapper.old) }
    ensures kept { S.config arena.new ≡ S.config arena.old }
{
    fill(directory, arena)?;
    let _ = arena.compress_with(mapper);
    Ok(())
}
