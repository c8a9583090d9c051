//! Examples of the heap stack: capacities up and down, what is refused, slots of three types, and a limit above it.
//! It may use `heap_stack`, `limited` and every library below them, `heap_block` too, and nothing uses it.
//! A new call on the heap stack gets its examples here, at the limits and refused, in few calls each.

#![tactic(auto)]

pub mod blocks;
pub mod never_refused;

#[cfg(test)]
mod tests {
    use heap_stack::HeapStack;
    use limited::LimitedStack;
    use stack::{
        MaxCapacityReductionError, NonZeroInxGenericStack, NotWithinCapacityError,
        ReallocationError, SetMaxCapacity,
    };
    use std::alloc::Global;

    type Numbers = HeapStack<u64, Global>;

    #[derive(Clone, Copy, Debug, PartialEq, Eq)]
    struct Passage {
        lock: u16,
        boats: u8,
        water: u64,
    }

    fn passage_of(n: u16) -> Passage {
        Passage {
            lock: n,
            boats: 7,
            water: u64::from(n) * 1_000_000_007,
        }
    }

    // A call on a stack of numbers. Those that push begin with 70 and go on by one.
    #[derive(Clone, Copy)]
    enum Call {
        Ask(usize),
        Push(u64),
        /// So many pushes, up to the first that is refused.
        PushSome(u32),
        /// The same, where one slot more is asked for whenever there is no room.
        PushGrowing(u32),
        /// Whether there are so many slots, which hold 70, 71 and so on.
        CountsUp(u32),
        Pop,
        Get(usize),
        Replace(usize, u64),
        Clear,
    }

    #[derive(Clone, Copy, Debug, PartialEq, Eq)]
    enum Said {
        Done,
        /// 1
        Full,
        /// 6
        Beyond,
        /// 7
        NoMemory,
        Slot(u64),
        Nothing,
        /// How many went in.
        Pushed(u32),
        No,
    }

    // A call, what is answered, and the slots and the capacity afterwards.
    type Step = (Call, Said, usize, usize);

    fn said_of_asking(asked: Result<(), ReallocationError>) -> Said {
        match asked {
            Ok(()) => Said::Done,
            Err(ReallocationError::BeyondMaxCapacity) => Said::Beyond,
            Err(ReallocationError::AllocError) => Said::NoMemory,
        }
    }

    fn said_of_slot(slot: Option<u64>) -> Said {
        slot.map_or(Said::Nothing, Said::Slot)
    }

    fn push<S: NonZeroInxGenericStack<Slot = u64>>(s: &mut S, n: u64) -> Said {
        match s.push_within_capacity(n) {
            Ok(()) => Said::Done,
            Err(NotWithinCapacityError) => Said::Full,
        }
    }

    fn push_some<S: NonZeroInxGenericStack<Slot = u64>>(s: &mut S, most: u32) -> u32 {
        for n in 0..most {
            if s.push_within_capacity(70 + u64::from(n)).is_err() {
                return n;
            }
        }
        most
    }

    fn push_growing<S: NonZeroInxGenericStack<Slot = u64>>(s: &mut S, most: u32) -> u32 {
        for n in 0..most {
            if s.len() == s.capacity() && s.reallocate_min_capacity(n as usize + 1).is_err() {
                return n;
            }
            if s.push_within_capacity(70 + u64::from(n)).is_err() {
                return n;
            }
        }
        most
    }

    fn counts_up<S: NonZeroInxGenericStack<Slot = u64>>(s: &S, slots: u32) -> bool {
        for n in 0..slots {
            if s.get(n as usize + 1) != Some(70 + u64::from(n)) {
                return false;
            }
        }
        s.len() == slots as usize && s.get(slots as usize + 1).is_none()
    }

    fn answer<S: NonZeroInxGenericStack<Slot = u64>>(s: &mut S, call: Call) -> Said {
        match call {
            Call::Ask(r) => said_of_asking(s.reallocate_min_capacity(r)),
            Call::Push(n) => push(s, n),
            Call::PushSome(most) => Said::Pushed(push_some(s, most)),
            Call::PushGrowing(most) => Said::Pushed(push_growing(s, most)),
            Call::CountsUp(slots) if counts_up(s, slots) => Said::Done,
            Call::CountsUp(_) => Said::No,
            Call::Pop => said_of_slot(s.pop()),
            Call::Get(n) => said_of_slot(s.get(n)),
            Call::Replace(n, u) => said_of_slot(s.replace(n, u)),
            Call::Clear => {
                s.clear();
                Said::Done
            }
        }
    }

    // The place of the first step that goes otherwise.
    fn first_wrong<S: NonZeroInxGenericStack<Slot = u64>>(
        s: &mut S,
        steps: &[Step],
    ) -> Option<usize> {
        for (place, (call, wanted, slots, capacity)) in steps.iter().enumerate() {
            let right = answer(s, *call) == *wanted
                && s.len() == *slots
                && s.is_empty() == (*slots == 0)
                && s.capacity() == *capacity;
            if !right {
                return Some(place);
            }
        }
        None
    }

    const NEW: [Step; 7] = [
        (Call::Push(1), Said::Full, 0, 0),
        (Call::Pop, Said::Nothing, 0, 0),
        (Call::Get(1), Said::Nothing, 0, 0),
        (Call::Replace(1, 5), Said::Nothing, 0, 0),
        (Call::Clear, Said::Done, 0, 0),
        (Call::Ask(0), Said::Done, 0, 0),
        (Call::CountsUp(0), Said::Done, 0, 0),
    ];

    #[test]
    fn a_new_stack_has_no_room(rt: HostRuntime) {
        let mut s = Numbers::new(rt.alloc());
        assert!(rt; s.capacity() == 0 && s.max_capacity().is_none());
        assert!(rt; first_wrong(&mut s, &NEW).is_none());
    }

    // The capacity and the slots of a stack made with a request.
    fn made(heap: Global, request: usize) -> Result<(usize, usize), ReallocationError> {
        let s = Numbers::with_min_capacity(heap, request)?;
        Ok((s.capacity(), s.len()))
    }

    #[test]
    fn made_with_a_request(rt: HostRuntime) {
        for (request, capacity) in [(0, 0), (1, 4), (4, 4), (5, 5), (300, 300)] {
            assert!(rt; made(rt.alloc(), request) == Ok((capacity, 0)));
        }
        assert!(rt; made(rt.alloc(), 4_294_967_296) == Err(ReallocationError::AllocError));
    }

    const UP_AND_DOWN: [Step; 17] = [
        (Call::Ask(1), Said::Done, 0, 4),
        (Call::Ask(4), Said::Done, 0, 4),
        (Call::Ask(5), Said::Done, 0, 8),
        (Call::Ask(8), Said::Done, 0, 8),
        (Call::PushSome(6), Said::Pushed(6), 6, 8),
        (Call::Ask(17), Said::Done, 6, 17),
        (Call::Ask(9), Said::Done, 6, 9),
        // below the list, which stays
        (Call::Ask(2), Said::Done, 6, 6),
        (Call::CountsUp(6), Said::Done, 6, 6),
        (Call::Push(76), Said::Full, 6, 6),
        (Call::Ask(7), Said::Done, 6, 12),
        (Call::Clear, Said::Done, 0, 12),
        (Call::Ask(3), Said::Done, 0, 4),
        (Call::Ask(0), Said::Done, 0, 0),
        (Call::Ask(2), Said::Done, 0, 4),
        (Call::PushSome(9), Said::Pushed(4), 4, 4),
        (Call::CountsUp(4), Said::Done, 4, 4),
    ];

    const BEYOND_32_BITS: [Step; 7] = [
        (Call::Ask(4_294_967_296), Said::NoMemory, 0, 0),
        (Call::Ask(usize::MAX), Said::NoMemory, 0, 0),
        (Call::Ask(3), Said::Done, 0, 4),
        (Call::PushSome(3), Said::Pushed(3), 3, 4),
        (Call::Ask(4_294_967_296), Said::NoMemory, 3, 4),
        (Call::Ask(usize::MAX), Said::NoMemory, 3, 4),
        (Call::CountsUp(3), Said::Done, 3, 4),
    ];

    const PUSHED_AND_POPPED: [Step; 16] = [
        (Call::Ask(5), Said::Done, 0, 5),
        (Call::PushSome(5), Said::Pushed(5), 5, 5),
        (Call::Push(75), Said::Full, 5, 5),
        (Call::CountsUp(5), Said::Done, 5, 5),
        (Call::Pop, Said::Slot(74), 4, 5),
        (Call::Pop, Said::Slot(73), 3, 5),
        (Call::CountsUp(3), Said::Done, 3, 5),
        (Call::Push(9), Said::Done, 4, 5),
        (Call::Get(4), Said::Slot(9), 4, 5),
        (Call::Pop, Said::Slot(9), 3, 5),
        (Call::Pop, Said::Slot(72), 2, 5),
        (Call::Pop, Said::Slot(71), 1, 5),
        (Call::Pop, Said::Slot(70), 0, 5),
        (Call::Pop, Said::Nothing, 0, 5),
        (Call::Pop, Said::Nothing, 0, 5),
        (Call::Get(1), Said::Nothing, 0, 5),
    ];

    const READ_AND_REPLACED: [Step; 18] = [
        (Call::Ask(6), Said::Done, 0, 6),
        (Call::PushSome(3), Said::Pushed(3), 3, 6),
        (Call::Get(0), Said::Nothing, 3, 6),
        (Call::Get(1), Said::Slot(70), 3, 6),
        (Call::Get(3), Said::Slot(72), 3, 6),
        (Call::Get(4), Said::Nothing, 3, 6),
        (Call::Get(6), Said::Nothing, 3, 6),
        (Call::Get(usize::MAX), Said::Nothing, 3, 6),
        (Call::Replace(0, 1), Said::Nothing, 3, 6),
        (Call::Replace(4, 1), Said::Nothing, 3, 6),
        (Call::Replace(usize::MAX, 1), Said::Nothing, 3, 6),
        (Call::CountsUp(3), Said::Done, 3, 6),
        (Call::Replace(1, 10), Said::Slot(70), 3, 6),
        (Call::Replace(3, 30), Said::Slot(72), 3, 6),
        (Call::Get(1), Said::Slot(10), 3, 6),
        (Call::Get(2), Said::Slot(71), 3, 6),
        (Call::Get(3), Said::Slot(30), 3, 6),
        (Call::Replace(1, 11), Said::Slot(10), 3, 6),
    ];

    const A_THOUSAND: [Step; 4] = [
        (Call::PushGrowing(1000), Said::Pushed(1000), 1000, 1024),
        (Call::CountsUp(1000), Said::Done, 1000, 1024),
        (Call::Ask(0), Said::Done, 1000, 1000),
        (Call::CountsUp(1000), Said::Done, 1000, 1000),
    ];

    const CLEARED: [Step; 10] = [
        (Call::PushGrowing(20), Said::Pushed(20), 20, 32),
        (Call::Clear, Said::Done, 0, 32),
        (Call::Pop, Said::Nothing, 0, 32),
        (Call::Get(1), Said::Nothing, 0, 32),
        (Call::Replace(1, 5), Said::Nothing, 0, 32),
        (Call::Push(70), Said::Done, 1, 32),
        (Call::CountsUp(1), Said::Done, 1, 32),
        (Call::Clear, Said::Done, 0, 32),
        (Call::PushGrowing(33), Said::Pushed(33), 33, 64),
        (Call::CountsUp(33), Said::Done, 33, 64),
    ];

    // Each on a stack of its own: capacities up and down; requests that change nothing; pushes up to the capacity and pops down
    // to none; slots read and replaced; a thousand pushes over reallocations; a stack used again after it was cleared.
    #[test]
    fn calls_in_turn(rt: HostRuntime) {
        let heap = rt.alloc();
        assert!(rt; first_wrong(&mut Numbers::new(heap), &UP_AND_DOWN).is_none());
        let mut grown = Numbers::new(heap);
        assert!(rt; first_wrong(&mut grown, &BEYOND_32_BITS).is_none());
        assert!(rt; grown.max_capacity().is_none());
        assert!(rt; first_wrong(&mut Numbers::new(heap), &PUSHED_AND_POPPED).is_none());
        assert!(rt; first_wrong(&mut Numbers::new(heap), &READ_AND_REPLACED).is_none());
        assert!(rt; first_wrong(&mut Numbers::new(heap), &A_THOUSAND).is_none());
        assert!(rt; first_wrong(&mut Numbers::new(heap), &CLEARED).is_none());
    }

    #[test]
    fn slots_of_three_fields(rt: HostRuntime) {
        let mut s = HeapStack::<Passage, Global>::new(rt.alloc());
        assert!(rt; s.reallocate_min_capacity(2) == Ok(()) && s.capacity() == 4);
        assert!(rt; s.push_within_capacity(passage_of(3)) == Ok(()));
        assert!(rt; s.push_within_capacity(passage_of(65_535)) == Ok(()));
        assert!(rt; s.reallocate_min_capacity(9) == Ok(()) && s.capacity() == 9);
        assert!(rt; s.get(1) == Some(passage_of(3)) && s.get(2) == Some(passage_of(65_535)));
        assert!(rt;
            s.replace(1, passage_of(4)) == Some(passage_of(3))
                && s.pop() == Some(passage_of(65_535))
        );
        assert!(rt; s.get(1) == Some(passage_of(4)) && s.len() == 1);
    }

    #[derive(Clone, Copy, Debug, PartialEq, Eq)]
    struct Wide {
        words: [u64; 9],
    }

    #[test]
    fn slots_of_many_bytes(rt: HostRuntime) {
        let mut s = HeapStack::<Wide, Global>::new(rt.alloc());
        assert!(rt; s.reallocate_min_capacity(3) == Ok(()) && s.capacity() == 4);
        assert!(rt; s.push_within_capacity(Wide { words: [8; 9] }) == Ok(()));
        assert!(rt; s.push_within_capacity(Wide { words: [9; 9] }) == Ok(()));
        assert!(rt; s.get(1) == Some(Wide { words: [8; 9] }) && s.len() == 2);
        assert!(rt;
            s.reallocate_min_capacity(7) == Ok(()) && s.pop() == Some(Wide { words: [9; 9] })
        );
    }

    // Whether a stack of 256 MiB is had so many times, each let go before the next.
    fn made_and_let_go(heap: Global, times: u32) -> bool {
        for _ in 0..times {
            if Numbers::with_min_capacity(heap, 33_554_432).is_err() {
                return false;
            }
        }
        true
    }

    #[test]
    fn stacks_that_are_let_go_give_their_memory_back(rt: HostRuntime) {
        assert!(rt; made_and_let_go(rt.alloc(), 600_000));
    }

    #[test]
    fn slots_of_no_bytes(rt: HostRuntime) {
        let mut s = HeapStack::<(), Global>::new(rt.alloc());
        assert!(rt; s.push_within_capacity(()) == Err(NotWithinCapacityError));
        assert!(rt; s.reallocate_min_capacity(5) == Ok(()) && s.capacity() == 5);
        assert!(rt; s.push_within_capacity(()) == Ok(()) && s.len() == 1);
        assert!(rt; s.get(1) == Some(()) && s.get(2).is_none());
        assert!(rt; s.reallocate_min_capacity(0) == Ok(()) && s.capacity() == 4);
        assert!(rt; s.pop() == Some(()) && s.pop().is_none());
    }

    const UNDER_A_LIMIT: [Step; 4] = [
        (Call::Ask(7), Said::Beyond, 0, 0),
        (Call::PushGrowing(7), Said::Pushed(6), 6, 6),
        (Call::CountsUp(6), Said::Done, 6, 6),
        (Call::Push(76), Said::Full, 6, 6),
    ];

    #[test]
    fn a_limit_above_the_heap(rt: HostRuntime) {
        let mut s = LimitedStack::new(Numbers::new(rt.alloc()));
        assert!(rt; s.max_capacity() == Some(0));
        assert!(rt; first_wrong(&mut s, &[(Call::Ask(1), Said::Beyond, 0, 0)]).is_none());
        assert!(rt; s.set_max_capacity(6) == Ok(()) && s.capacity() == 0);
        assert!(rt; first_wrong(&mut s, &UNDER_A_LIMIT).is_none());
        assert!(rt; s.set_max_capacity(5) == Err(MaxCapacityReductionError) && s.capacity() == 6);
        // the heap below has room for 8
        assert!(rt; s.set_max_capacity(100) == Ok(()) && s.capacity() == 8);
        assert!(rt; s.into_inner().capacity() == 8);
    }

    const UP_TO_THE_ROOM_BELOW: [Step; 1] = [(Call::PushSome(9), Said::Pushed(8), 8, 8)];

    const NO_ROOM_BELOW: [Step; 2] = [
        (Call::Ask(4_294_967_296), Said::NoMemory, 8, 8),
        (Call::CountsUp(8), Said::Done, 8, 8),
    ];

    #[test]
    fn a_limit_at_first_is_the_room_below(rt: HostRuntime) {
        let mut below = Numbers::new(rt.alloc());
        assert!(rt; push_growing(&mut below, 5) == 5 && below.capacity() == 8);
        let mut s = LimitedStack::new(below);
        assert!(rt; s.is_empty() && s.max_capacity() == Some(8));
        assert!(rt; first_wrong(&mut s, &UP_TO_THE_ROOM_BELOW).is_none());
        assert!(rt; s.set_max_capacity(usize::MAX) == Ok(()));
        assert!(rt; first_wrong(&mut s, &NO_ROOM_BELOW).is_none());
    }

    // It passes with and without memory, so that it can be run with an allocation that fails:
    // `rt try --test --fail-alloc 2`, where other tests rightly fail.
    #[test]
    fn want_of_memory_changes_nothing(rt: HostRuntime) {
        let mut s = Numbers::new(rt.alloc());
        let asked = s.reallocate_min_capacity(3);
        assert!(rt; asked == Ok(()) || asked == Err(ReallocationError::AllocError));
        let room = if asked.is_ok() { 4 } else { 0 };
        assert!(rt; s.capacity() == room);
        let pushed = push_some(&mut s, 9);
        assert!(rt; pushed as usize == room && counts_up(&s, pushed));
        let asked = s.reallocate_min_capacity(10);
        assert!(rt; asked == Ok(()) || asked == Err(ReallocationError::AllocError));
        let room = if asked.is_ok() { 10 } else { room };
        assert!(rt; s.capacity() == room && counts_up(&s, pushed));
        // a smaller block has to be given too, but none for no slots
        let asked = s.reallocate_min_capacity(0);
        assert!(rt; asked == Ok(()) || asked == Err(ReallocationError::AllocError) && pushed > 0);
        assert!(rt; s.capacity() == if asked.is_ok() { pushed as usize } else { room });
        assert!(rt; counts_up(&s, pushed));
    }
}
