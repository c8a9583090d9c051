//! What no call script says of arenas: a mapper of one's own, two kinds of pointer in one call, the lender's array, a slab
//! without a limit, `find`, and what lies between the steps of a drain. It may use `directory` and every library below it.
//! Nothing uses it. An example that a script can show stands in crates/beside/examples.

#![tactic(auto)]

ghost use Rattle.std.specs.Prelude.{◌≡◌, ◌+◌, ◌*◌, ℕ, [], min};
ghost use Rattle.kinds.specs.Places.{or_zero};
ghost use Rattle.arena.specs.Advance.{record_given, forward, drained};
ghost use Rattle.arena_tests.specs.Digits.{appended};

use arena::DirectArena;
use kinds::{DirectSlot, Ptr, PtrInx};
use outcome::InvalidationOption;
use stack::NonZeroInxGenericStack;

/// Takes out the first record, and then all the others: a drain that ends early. A drain is never let go: `must-fail`
/// tries one that is not finished, and one that is asked again.
pub fn take_first<P: Ptr, V: Copy, S: NonZeroInxGenericStack<Slot = DirectSlot<P::Gen, V>>>(
    arena: &mut DirectArena<P, V, S>,
) -> Option<InvalidationOption<(P, V)>>
    ensures first { result ≡ drained (λ n γ. P.made (P.Inx.indexed n) γ) (record_given P.Inx.largest (forward 1) (S.list arena.old)) }
    ensures cleared { S.list arena.new ≡ [] }
    ensures kept { S.config arena.new ≡ S.config arena.old }
{
    let mut drain = arena.drain();
    let first = drain.next(arena);
    let _ = drain.finish(arena);
    first
}

#[cfg(test)]
mod tests {
    use super::take_first;
    use arena::advancer::{Advancer, PtrAdvancer};
    use arena::{ArenaReallocationError, DirectArena};
    use bulk::GetDisjointMutError;
    use directory::find::find;
    use directory::{DirectoryError, compress_into};
    use kinds::{DirectSlot, Ptr, PtrInx, PtrOf};
    use limited::LimitedStack;
    use mapper::{AddCorrection, KeepValues, Mapper};
    use numbering::{SeasonGen, ShortInx, Unmarked};
    use outcome::{InvalidationOption, InvalidationResult};
    use sheets::SheetInx;
    use slab_stack::SlabStack;
    use stack::{FixedStack, NonZeroInxGenericStack, ReallocationError, SetMaxCapacity};

    type Short = PtrOf<ShortInx, SeasonGen>;

    type Slot = DirectSlot<SeasonGen, u32>;

    type Register<'a> = DirectArena<Short, u32, FixedStack<'a, Slot>>;

    type WideSlot = DirectSlot<SeasonGen, u64>;

    type WideRegister<'a> = DirectArena<Short, u64, SlabStack<'a, WideSlot>>;

    type ShortSlot = DirectSlot<SeasonGen, Short>;

    type Directory<'a> = DirectArena<Short, Short, SlabStack<'a, ShortSlot>>;

    type Sheet = PtrOf<SheetInx, Unmarked>;

    type Line = DirectSlot<Unmarked, u64>;

    type Book<'a> = DirectArena<Sheet, u64, LimitedStack<FixedStack<'a, Line>>>;

    /// Appends the slot of a pointer to a number, as its last digit; it stops at the largest.
    fn append<P: Ptr>(digits: usize, p: P) -> usize
        ensures { result ≡ appended digits (or_zero (P.Inx.number (P.index p))) }
    {
        digits
            .saturating_mul(10)
            .saturating_add(p.inx().try_into_usize().unwrap_or(0))
    }

    /// Makes values a thousand times as large, and notes the slots of the old and the new pointers, a digit each.
    #[derive(Drop)]
    struct Trail {
        old: usize,
        new: usize,
    }

    impl<Q: Ptr, P: Ptr> Mapper<Q, P, u32, u64> for Trail {
        ghost State = { ℕ × ℕ };

        ghost state = { λ m. (m.old, m.new) };

        ghost next = { λ w q p _. (appended w.0 (or_zero (Q.Inx.number (Q.index q))), appended w.1 (or_zero (P.Inx.number (P.index p)))) };

        ghost mapped = { λ _ _ _ v. v * 1000 };

        fn map(&mut self, old: Q, new: P, value: u32) -> u64 {
            self.old = append(self.old, old);
            self.new = append(self.new, new);
            u64::from(value) * 1000
        }
    }

    /// Gives each record its number, in the order in which they are shown.
    #[derive(Drop)]
    struct Numbering {
        next: u32,
    }

    impl Mapper<Short, Short, u32, u32> for Numbering {
        ghost State = { ℕ };

        ghost state = { λ m. m.next };

        ghost next = { λ n _ _ _. min (n + 1) 4294967295 };

        ghost mapped = { λ n _ _ _. n };

        fn map(&mut self, _old: Short, _new: Short, _value: u32) -> u32 {
            let number = self.next;
            self.next = number.saturating_add(1);
            number
        }
    }

    fn of(n: u16, season: u32) -> Short {
        PtrOf {
            inx: ShortInx { raw: n },
            generation: SeasonGen { season },
        }
    }

    fn on(sheet: u16, line: u16) -> Sheet {
        PtrOf {
            inx: SheetInx { sheet, line },
            generation: Unmarked,
        }
    }

    // in slot n, of season n + 100
    fn put(a: &mut Register, n: u16) -> bool {
        a.direct_insert_within_capacity(of(n, 100 + u32::from(n)), u32::from(n))
            .is_ok()
    }

    type Room = Result<(), ArenaReallocationError>;

    const NO_SLOT_LENT: Room = Err(ArenaReallocationError::Stack(ReallocationError::AllocError));

    fn copy(a: &mut WideRegister, source: &Register, trail: &mut Trail) -> Room {
        a.clone_from_with(source, trail)
    }

    fn report(a: &mut Register, d: &mut Directory, correction: u32) -> Result<(), DirectoryError> {
        compress_into(a, d, &mut AddCorrection { correction })
    }

    fn value_on(book: &Book, sheet: u16, line: u16) -> u64 {
        book.get(on(sheet, line)).unwrap_or(0)
    }

    // a record on each line, with its number
    fn fill(book: &mut Book) {
        for sheet in 0..40 {
            for line in 1..=200 {
                let value = u64::from(sheet) * 200 + u64::from(line);
                let _ = book.direct_insert_within_capacity(on(sheet, line), value);
            }
        }
    }

    // the records and the slots after it
    fn compress(book: &mut Book) -> (usize, usize) {
        let _ = book.compress_with(&mut KeepValues);
        (book.len(), book.slots())
    }

    #[test]
    fn numbers_without_an_index(rt: HostRuntime) {
        assert!(rt; ShortInx::try_from_usize(0).is_none());
        assert!(rt; ShortInx::try_from_usize(65_536).is_none());
        assert!(rt; SheetInx::try_from_usize(0).is_none());
        assert!(rt; SheetInx::try_from_usize(8_001).is_none());
    }

    #[test]
    fn a_slab_up_to_what_is_lent(rt: HostRuntime) {
        let mut lent = [7_u32; 8];
        let mut slab = SlabStack::with_min_capacity(&mut lent, 3);
        assert!(rt; slab.test(8) == Ok(()) && slab.test(9) == Err(ReallocationError::AllocError));
        assert!(rt; slab.capacity() == 3);
        assert!(rt; slab.reallocate_min_capacity(4) == Ok(()) && slab.capacity() == 6);
        assert!(rt; slab.reallocate_min_capacity(9) == Err(ReallocationError::AllocError));
        assert!(rt; slab.reallocate_min_capacity(0) == Ok(()) && slab.capacity() == 0);
        let mut stack = LimitedStack::new(SlabStack::with_min_capacity(slab.into_slots(), 3));
        let pushed = stack.push_within_capacity(9).is_ok();
        let limited = stack.set_max_capacity(1).is_ok();
        let full = stack.push_within_capacity(9).is_err();
        let below = stack.set_max_capacity(0).is_err();
        let slots = stack.into_inner().into_slots();
        assert!(rt; pushed && limited && full && below && slots.len() == 8 && slots[0] == 9);
    }

    #[test]
    fn the_lender_finds_the_slots_in_its_own(rt: HostRuntime) {
        let mut lent = [Slot::Free; 2];
        {
            let mut a = Register::new(FixedStack::new(&mut lent));
            assert!(rt; put(&mut a, 2));
            let _ = a.into_stack().into_slots();
        }
        assert!(rt; lent[0] == Slot::Free);
        assert!(rt; lent[1] == Slot::Allocated(SeasonGen { season: 102 }, 2));
    }

    type Edited = Result<(), GetDisjointMutError>;

    const ABSENT: Edited = Err(GetDisjointMutError::IndexOutOfBounds);

    const TWICE: Edited = Err(GetDisjointMutError::OverlappingIndices);

    // What list edits of the records in slots 1 and 4 of four answer.
    const BY_INDEX: [([u16; 2], Edited); 4] = [
        ([1, 0], ABSENT),
        ([9, 9], ABSENT),
        ([1, 3], ABSENT),
        ([3, 3], TWICE),
    ];

    const BY_POINTER: [([(u16, u32); 2], Edited); 3] = [
        ([(1, 101), (4, 9)], ABSENT),
        ([(1, 101), (9, 101)], ABSENT),
        ([(4, 104), (4, 104)], TWICE),
    ];

    #[test]
    fn the_lent_slots_come_back(rt: HostRuntime) {
        let mut lent = [Slot::Free; 4];
        let below = LimitedStack::new(SlabStack::with_min_capacity(&mut lent, 3));
        let mut a = DirectArena::<Short, u32, _>::new(below);
        assert!(rt; a.direct_insert_within_capacity(of(2, 9), 20) == Ok(()));
        let slots = a.into_stack().into_inner().into_slots();
        assert!(rt; slots.len() == 4 && slots[0] == Slot::Free);
        assert!(rt; slots[1] == Slot::Allocated(SeasonGen { season: 9 }, 20));
    }

    #[test]
    fn a_refused_list_edit_shows_its_mapper_nothing(rt: HostRuntime) {
        let mut lent = [Slot::Free; 4];
        let mut a = Register::new(FixedStack::new(&mut lent));
        let mut numbering = Numbering { next: 100 };
        assert!(rt; put(&mut a, 1) && put(&mut a, 4));
        for ([i, j], refused) in BY_INDEX {
            let list = [ShortInx { raw: i }, ShortInx { raw: j }];
            assert!(rt; a.get_disjoint_inx_mut(&list, &mut numbering) == refused);
        }
        for ([p, q], refused) in BY_POINTER {
            let list = [of(p.0, p.1), of(q.0, q.1)];
            assert!(rt; a.get_disjoint_mut(&list, &mut numbering) == refused);
        }
        assert!(rt; numbering.next == 100 && a.get(of(4, 104)) == Some(4));
        let list = [of(1, 101), of(4, 104)];
        assert!(rt; a.get_disjoint_mut(&list, &mut numbering) == Ok(()));
        assert!(rt; numbering.next == 102 && a.get(of(4, 104)) == Some(101));
    }

    #[test]
    fn no_call_says_that_a_generation_is_used_up(rt: HostRuntime) {
        let mut lent = [Slot::Free; 4];
        let mut a = Register::new(FixedStack::new(&mut lent));
        assert!(rt; put(&mut a, 1) && put(&mut a, 2) && put(&mut a, 3));
        assert!(rt; a.remove(of(1, 101)) == InvalidationResult::Success(1));
        let second = (SeasonGen { season: 102 }, 2);
        assert!(rt; a.remove_inx(ShortInx { raw: 2 }) == InvalidationResult::Success(second));
        assert!(rt; a.compress_with(&mut KeepValues).is_success() && a.clear().is_success());
    }

    #[test]
    fn an_arena_over_a_slab_that_runs_out(rt: HostRuntime) {
        let mut lent = [Slot::Free; 8];
        let mut source = Register::new(FixedStack::new(&mut lent));
        let mut room = [WideSlot::Free; 5];
        let mut a = WideRegister::new(SlabStack::with_min_capacity(&mut room, 2));
        let mut trail = Trail { old: 0, new: 0 };
        assert!(rt; put(&mut source, 3) && copy(&mut a, &source, &mut trail) == Ok(()));
        assert!(rt; trail.old == 3 && trail.new == 3 && a.capacity() == 4);
        assert!(rt; put(&mut source, 6) && copy(&mut a, &source, &mut trail) == NO_SLOT_LENT);
        assert!(rt; trail.old == 3 && a.capacity() == 4 && a.get(of(3, 103)) == Some(3000));
        assert!(rt; a.slots() == 3 && a.len() == 1);
    }

    #[test]
    fn a_directory_over_a_slab_that_runs_out(rt: HostRuntime) {
        let mut lent = [Slot::Free; 8];
        let mut lines = [ShortSlot::Free; 6];
        let mut a = Register::new(FixedStack::new(&mut lent));
        let mut d = Directory::new(SlabStack::with_min_capacity(&mut lines, 2));
        assert!(rt; put(&mut a, 5) && report(&mut a, &mut d, u32::MAX - 4) == Ok(()));
        assert!(rt; d.capacity() == 5 && a.get(of(1, 105)) == Some(u32::MAX));
        let no_room = Err(DirectoryError::NoRoom(ArenaReallocationError::Stack(
            ReallocationError::AllocError,
        )));
        assert!(rt; put(&mut a, 8) && report(&mut a, &mut d, 1) == no_room);
        assert!(rt; a.get(of(8, 108)) == Some(8) && d.len() == 1);
    }

    const BEYOND: Room = Err(ArenaReallocationError::Stack(ReallocationError::BeyondMaxCapacity));

    fn enter(book: &mut Book, source: &mut Register, trail: &mut Trail) -> Room {
        book.transfer_reallocating(Unmarked, source, trail)
    }

    #[test]
    fn transferring_between_kinds(rt: HostRuntime) {
        let mut lent = [Slot::Free; 8];
        let mut source = Register::new(FixedStack::new(&mut lent));
        let mut lines = [Line::Free; 2];
        let mut book = Book::new(LimitedStack::new(FixedStack::new(&mut lines)));
        let mut trail = Trail { old: 0, new: 0 };
        assert!(rt; put(&mut source, 2) && put(&mut source, 7));
        assert!(rt; book.direct_insert_within_capacity(on(0, 2), 4) == Ok(()));
        assert!(rt; enter(&mut book, &mut source, &mut trail) == Ok(()));
        assert!(rt; trail.old == 27 && trail.new == 12 && book.len() == 2 && book.slots() == 2);
        assert!(rt; value_on(&book, 0, 1) == 2000 && value_on(&book, 0, 2) == 7000);
        assert!(rt; source.is_empty() && source.slots() == 7);
        let mut room = [WideSlot::Free; 2];
        let mut a = WideRegister::new(SlabStack::with_min_capacity(&mut room, 2));
        let season = SeasonGen { season: 9 };
        assert!(rt; a.transfer_reallocating(season, &mut book, &mut KeepValues) == Ok(()));
        assert!(rt; a.len() == 2 && a.get(of(2, 9)) == Some(7000) && book.is_empty());
    }

    #[test]
    fn a_refused_transfer_changes_neither_arena(rt: HostRuntime) {
        let mut lent = [Slot::Free; 8];
        let mut source = Register::new(FixedStack::new(&mut lent));
        let mut lines = [Line::Free; 1];
        let mut book = Book::new(LimitedStack::new(FixedStack::new(&mut lines)));
        let mut room = [WideSlot::Free; 1];
        let mut a = WideRegister::new(SlabStack::with_min_capacity(&mut room, 1));
        let mut trail = Trail { old: 0, new: 0 };
        assert!(rt; put(&mut source, 3) && put(&mut source, 8));
        assert!(rt; book.direct_insert_within_capacity(on(0, 1), 4) == Ok(()));
        assert!(rt; enter(&mut book, &mut source, &mut trail) == BEYOND);
        let season = SeasonGen { season: 9 };
        assert!(rt; a.transfer_reallocating(season, &mut source, &mut trail) == NO_SLOT_LENT);
        assert!(rt; trail.old == 0 && a.slots() == 0 && a.capacity() == 1);
        assert!(rt; book.len() == 1 && value_on(&book, 0, 1) == 4);
        assert!(rt; source.len() == 2 && source.get(of(8, 108)) == Some(8));
    }

    fn seek(a: &Register, d: &Directory, p: Short) -> Option<(Short, u32)> {
        find(a, d, p)
    }

    #[test]
    fn a_record_is_found_through_two_compressions(rt: HostRuntime) {
        let mut lent = [Slot::Free; 8];
        let mut a = Register::new(FixedStack::new(&mut lent));
        let mut first = [ShortSlot::Free; 8];
        let mut d = Directory::new(SlabStack::with_min_capacity(&mut first, 8));
        let mut second = [ShortSlot::Free; 8];
        let mut e = Directory::new(SlabStack::with_min_capacity(&mut second, 8));
        assert!(rt; put(&mut a, 2) && put(&mut a, 3) && put(&mut a, 6));
        assert!(rt; report(&mut a, &mut d, 0) == Ok(()) && a.remove(of(1, 102)).is_success());
        assert!(rt; a.edit(of(2, 103), 31) == Some(31) && report(&mut a, &mut e, 0) == Ok(()));
        d.join(&e);
        assert!(rt; seek(&a, &d, of(2, 102)).is_none() && seek(&a, &d, of(3, 104)).is_none());
        assert!(rt; seek(&a, &d, of(3, 103)) == Some((of(1, 103), 31)));
        assert!(rt; seek(&a, &d, of(6, 106)) == Some((of(2, 106), 6)));
        assert!(rt; a.remove(of(1, 103)).is_success() && seek(&a, &d, of(3, 103)).is_none());
    }

    #[test]
    fn which_error_stands_behind_a_refusal(rt: HostRuntime) {
        let mut lines = [Line::Free; 8];
        let mut book = Book::new(LimitedStack::new(FixedStack::new(&mut lines)));
        assert!(rt; book.reallocate_min_capacity(8_000) == BEYOND);
        let indices = Err(ArenaReallocationError::BeyondIndices);
        assert!(rt; book.reallocate_min_capacity(8_001) == indices);
    }

    #[test]
    fn compressing_a_whole_book(rt: HostRuntime) {
        let mut lent = [Line::Free; 8000];
        let mut book = Book::new(LimitedStack::new(FixedStack::new(&mut lent)));
        fill(&mut book);
        assert!(rt; compress(&mut book) == (8000, 8000) && value_on(&book, 39, 200) == 8000);
        assert!(rt; book.remove(on(20, 1)).is_success() && compress(&mut book) == (7999, 7999));
        assert!(rt; value_on(&book, 39, 199) == 8000 && value_on(&book, 39, 200) == 0);
        assert!(rt; value_on(&book, 19, 200) == 4000 && value_on(&book, 20, 1) == 4002);
    }

    #[test]
    fn an_arena_that_changes_between_the_steps_of_a_drain(rt: HostRuntime) {
        let mut lent = [Slot::Free; 4];
        let mut a = Register::new(FixedStack::new(&mut lent));
        let mut nothing = <PtrAdvancer<Short> as Advancer<Register>>::empty();
        assert!(rt; put(&mut a, 2) && nothing.advance(&a).is_none());
        let mut drain = a.drain();
        let _ = a.clear();
        let inserted = put(&mut a, 3);
        let third = drain.next(&mut a);
        let none = drain.next(&mut a).is_none();
        let (len, slots) = (a.len(), a.slots());
        let behind = put(&mut a, 4);
        let finished = drain.finish(&mut a).is_success();
        assert!(rt;
            finished && inserted && none && len == 0 && slots == 3 && behind && a.slots() == 0
        );
        assert!(rt; third == Some(InvalidationOption::Success((of(3, 103), 3))));
        assert!(rt; put(&mut a, 1) && put(&mut a, 3));
        assert!(rt; take_first(&mut a) == Some(InvalidationOption::Success((of(1, 101), 1))));
        assert!(rt; a.slots() == 0);
    }
}
