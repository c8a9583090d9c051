// A script from its first line to its last: one answer line for each.

use crate::pool::{Pool, slots_of};
use arena::DirectArena;
use call_answers::held::Held;
use call_script::call::Of;
use call_script::kind::{Kind, Kinds, Least, Written};
use call_script::parse::making;
use call_sections::{Calls, Lends, answer_all};
use heap_stack::HeapStack;
use kinds::{DirectSlot, PtrGen, PtrInx, PtrOf};
use limited::LimitedStack;
use numbering::{SeasonGen, ShortInx, Unmarked};
use sheets::SheetInx;
use slab_stack::SlabStack;
use stack::{FixedStack, NonZeroInxGenericStack, SetMaxCapacity};
use std::alloc::{AllocError, Global};
use text::split::Lines;

// An arena that asks for more slots than this is not made.
const LARGEST_ARENA: usize = 1 << 20;

// How many slots the arenas of some lines are lent.
#[derive(Clone, Copy)]
struct SlotsWanted {
    numbers: usize,
    pointers: usize,
}

fn wanted<P: Kind>(lines: &[&[u8]]) -> SlotsWanted {
    let mut wanted = SlotsWanted {
        numbers: 0,
        pointers: 0,
    };
    for line in lines {
        let Some(making) = making(line) else {
            continue;
        };
        let slots = slots_of::<P>(making.request);
        if slots > LARGEST_ARENA {
            continue;
        }
        match making.of {
            Of::Numbers => wanted.numbers = wanted.numbers.saturating_add(slots),
            Of::Pointers => wanted.pointers = wanted.pointers.saturating_add(slots),
        }
    }
    wanted
}

// An arena over one of three stacks.
type Any<I, G, V, F, L, H> = Held<
    DirectArena<PtrOf<I, G>, V, F>,
    DirectArena<PtrOf<I, G>, V, L>,
    DirectArena<PtrOf<I, G>, V, H>,
>;

// The calls of a section whose arenas are made of these pools. It is generic in the stacks, so that the check builds what
// three of them mean together once, and of stacks without a name.
fn answer_over<
    I: PtrInx + Written,
    G: PtrGen + Written,
    F: NonZeroInxGenericStack<Slot = DirectSlot<G, u32>> + Drop,
    L: SetMaxCapacity<Slot = DirectSlot<G, u32>> + Drop,
    H: NonZeroInxGenericStack<Slot = DirectSlot<G, u32>> + Drop,
    T: NonZeroInxGenericStack<Slot = DirectSlot<G, PtrOf<I, G>>> + Drop,
    M: SetMaxCapacity<Slot = DirectSlot<G, PtrOf<I, G>>> + Drop,
    K: NonZeroInxGenericStack<Slot = DirectSlot<G, PtrOf<I, G>>> + Drop,
    A: Lends<Any<I, G, u32, F, L, H>> + Drop,
    B: Lends<Any<I, G, PtrOf<I, G>, T, M, K>> + Drop,
>(
    heap: Global,
    numbers: A,
    pointers: B,
    calls: Calls<'_>,
    out: &mut String,
) -> Result<(), AllocError> {
    answer_all::<PtrOf<I, G>, Any<I, G, u32, F, L, H>, Any<I, G, PtrOf<I, G>, T, M, K>, A, B>(
        heap, numbers, pointers, calls, out,
    )
}

fn answer_calls<'a, I: PtrInx + Written, G: PtrGen + Written>(
    heap: Global,
    numbers: Pool<'a, DirectSlot<G, u32>>,
    pointers: Pool<'a, DirectSlot<G, PtrOf<I, G>>>,
    calls: Calls<'_>,
    out: &mut String,
) -> Result<(), AllocError> {
    answer_over::<
        I,
        G,
        FixedStack<'a, DirectSlot<G, u32>>,
        LimitedStack<SlabStack<'a, DirectSlot<G, u32>>>,
        HeapStack<DirectSlot<G, u32>, Global>,
        FixedStack<'a, DirectSlot<G, PtrOf<I, G>>>,
        LimitedStack<SlabStack<'a, DirectSlot<G, PtrOf<I, G>>>>,
        HeapStack<DirectSlot<G, PtrOf<I, G>>, Global>,
        _,
        _,
    >(heap, numbers, pointers, calls, out)
}

// Lends a section its slots, and answers its calls.
fn answer_section<I: PtrInx + Written, G: PtrGen + Written>(
    heap: Global,
    calls: Calls<'_>,
    out: &mut String,
) -> Result<(), AllocError> {
    let wanted = wanted::<PtrOf<I, G>>(calls.lines);
    let mut numbers = vec![in heap; DirectSlot::Free; wanted.numbers]?;
    let mut pointers = vec![in heap; DirectSlot::Free; wanted.pointers]?;
    out.push_str("ok\n")?;
    answer_calls::<I, G>(
        heap,
        Pool::new(numbers.as_mut_slice()),
        Pool::new(pointers.as_mut_slice()),
        calls,
        out,
    )
}

// A line that names the kinds begins a section, whether or not there are such kinds.
fn begins_section(line: &[u8]) -> bool {
    line.starts_with(b"kinds ")
}

// Answers a section by the kinds that its first line names; false where there are no such kinds.
fn answer_kinds(
    heap: Global,
    first: &[u8],
    lines: &[&[u8]],
    number: usize,
    out: &mut String,
) -> Result<bool, AllocError> {
    let Some((kinds, least)) = Kinds::read(first) else {
        return Ok(false);
    };
    let calls = Calls {
        lines,
        number,
        least,
    };
    match kinds {
        Kinds::ShortSeason => answer_section::<ShortInx, SeasonGen>(heap, calls, out)?,
        Kinds::ShortUnmarked => answer_section::<ShortInx, Unmarked>(heap, calls, out)?,
        Kinds::SheetSeason => answer_section::<SheetInx, SeasonGen>(heap, calls, out)?,
        Kinds::SheetUnmarked => answer_section::<SheetInx, Unmarked>(heap, calls, out)?,
    }
    Ok(true)
}

fn write_bad(number: usize, out: &mut String) -> Result<(), AllocError> {
    writeln!(out, "bad line {number}")
}

/// One answer line for each line of a script.
pub(crate) fn run(heap: Global, script: &[u8]) -> Result<String, AllocError> {
    let mut out = String::new(heap);
    let lines: Vec<&[u8]> = Lines::new(script).collect(heap)?;
    let mut number: usize = 1;
    for section in lines.as_slice().chunk_by(|_, next| !begins_section(next)) {
        let answered = match section.split_first() {
            Some((first, calls)) if begins_section(first) => {
                answer_kinds(heap, first, calls, number.saturating_add(1), &mut out)?
            }
            _ => false,
        };
        if !answered {
            for place in 0..section.len() {
                write_bad(number.saturating_add(place), &mut out)?;
            }
        }
        number = number.saturating_add(section.len());
    }
    Ok(out)
}
