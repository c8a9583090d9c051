// The three seasons: over the heap, under a limit, and with two directories that are joined.
ghost use Rattle.std.specs.Prelude.{◌≡◌, ◌++◌, string_bytes, OnOk};
ghost use Rattle.heap_season.specs.Season.{recast_and_find_lines};

use crate::calls::{
    clear, compress, find, held, insert, join, limit, recast, request, reserve, trim,
};
use crate::loops::{SEASON, add, fill, remove_each};
use crate::register::{Directory, PointerSlot, Register, Slot};
use answers::answer::Answer;
use heap_stack::HeapStack;
use limited::LimitedStack;
use numbering::{Pointer, pointer};
use stack::{NonZeroInxGenericStack, SetMaxCapacity};
use std::alloc::{AllocError, Global};

// More slots than any stack may have.
const TOO_MANY: usize = 1 << 32;

type HeapRegister = Register<HeapStack<Slot, Global>>;

type HeapDirectory = Directory<HeapStack<PointerSlot, Global>>;

/// The report of all three.
pub(crate) fn season(heap: Global) -> Result<String, AllocError> {
    let mut out = String::new(heap);
    out.push_str("call answer slot generation value count slots capacity\n")?;
    out.push_str("over the heap\n")?;
    over_heap(heap, &mut out)?;
    out.push_str("over the heap, under a limit\n")?;
    under_limit(heap, &mut out)?;
    out.push_str("two directories joined\n")?;
    joined(heap, &mut out)?;
    Ok(out)
}

// A register grows, is compressed, and shrinks to its records.
fn over_heap(heap: Global, out: &mut String) -> Result<(), AllocError> {
    let mut register = HeapRegister::new(HeapStack::new(heap));
    let mut directory = HeapDirectory::new(HeapStack::new(heap));
    grow_and_shrink(out, &mut register, &mut directory)?;
    let_go(out, register)
}

// The calls of a season stand in functions that borrow its arenas: each `?` of one that owns them gives heap memory back,
// and is proved at that price.
fn grow_and_shrink<
    S: NonZeroInxGenericStack<Slot = Slot>,
    D: NonZeroInxGenericStack<Slot = PointerSlot>,
>(
    out: &mut String,
    register: &mut Register<S>,
    directory: &mut Directory<D>,
) -> Result<(), AllocError> {
    grow(out, register)?;
    compress_and_show(out, register, directory)?;
    recast_and_find(out, register, directory, pointer(5997, SEASON))?;
    recast_and_find(out, register, directory, pointer(5994, SEASON))?;
    remove_each(out, register, 1301, 1, 34)?;
    add(
        out,
        "find",
        find(register, directory, pointer(5997, SEASON)),
    )?;
    shrink(out, register, 1300)
}

fn grow<S: NonZeroInxGenericStack<Slot = Slot>>(
    out: &mut String,
    register: &mut Register<S>,
) -> Result<(), AllocError> {
    add(out, "insert", insert(register, pointer(3, SEASON), 30))?;
    fill(out, register, 2000)?;
    add(out, "insert", insert(register, pointer(6000, 2), 1))?;
    remove_each(out, register, 9, 9, 666)?;
    add(out, "reserve", reserve(register, 65_536))
}

// The same under a limit, which is at first the heap's capacity, 0.
fn under_limit(heap: Global, out: &mut String) -> Result<(), AllocError> {
    let below = HeapStack::<Slot, Global>::new(heap);
    let mut register = Register::new(LimitedStack::new(below));
    let below = HeapStack::<PointerSlot, Global>::new(heap);
    let mut directory = Directory::new(LimitedStack::new(below));
    change_limits(out, &mut register, &mut directory)?;
    let_go(out, register)
}

fn change_limits<S: SetMaxCapacity<Slot = Slot>, D: SetMaxCapacity<Slot = PointerSlot>>(
    out: &mut String,
    register: &mut Register<S>,
    directory: &mut Directory<D>,
) -> Result<(), AllocError> {
    grow_to_limit(out, register)?;
    // the last record is in slot 2895
    add(out, "limit", limit(register, 2000))?;
    fill_under_limits(out, register, directory)?;
    recast_and_find(out, register, directory, pointer(2895, SEASON))?;
    recast_and_find(out, register, directory, pointer(2898, SEASON))?;
    shrink_to_limit(out, register)
}

fn grow_to_limit<S: SetMaxCapacity<Slot = Slot>>(
    out: &mut String,
    register: &mut Register<S>,
) -> Result<(), AllocError> {
    take_limit(out, register)?;
    fill(out, register, 1000)?;
    add(out, "insert", insert(register, pointer(3001, SEASON), 1))?;
    remove_each(out, register, 9, 9, 333)?;
    remove_each(out, register, 2901, 3, 34)
}

fn take_limit<S: SetMaxCapacity<Slot = Slot>>(
    out: &mut String,
    register: &mut Register<S>,
) -> Result<(), AllocError> {
    add(out, "insert", insert(register, pointer(3, SEASON), 30))?;
    add(out, "reserve", reserve(register, 3))?;
    add(out, "limit", limit(register, 3000))?;
    add(out, "reserve", reserve(register, 3001))
}

// The directory's limit leaves no room, too little, and just enough.
fn fill_under_limits<S: NonZeroInxGenericStack<Slot = Slot>, D: SetMaxCapacity<Slot = PointerSlot>>(
    out: &mut String,
    register: &mut Register<S>,
    directory: &mut Directory<D>,
) -> Result<(), AllocError> {
    compress_and_show(out, register, directory)?;
    add(out, "limit", limit(directory, 2800))?;
    compress_and_show(out, register, directory)?;
    add(out, "limit", limit(directory, 2895))?;
    compress_and_show(out, register, directory)
}

fn shrink_to_limit<S: SetMaxCapacity<Slot = Slot>>(
    out: &mut String,
    register: &mut Register<S>,
) -> Result<(), AllocError> {
    add(out, "limit", limit(register, 2000))?;
    add(out, "limit", limit(register, 643))?;
    remove_each(out, register, 601, 1, 44)?;
    shrink(out, register, 600)?;
    add(out, "reserve", reserve(register, 601))
}

// Two compressions, and a pointer from before both of them.
fn joined(heap: Global, out: &mut String) -> Result<(), AllocError> {
    let mut register = HeapRegister::new(HeapStack::new(heap));
    let mut first = HeapDirectory::new(HeapStack::new(heap));
    let mut second = HeapDirectory::new(HeapStack::new(heap));
    compress_twice(out, &mut register, &mut first, &mut second)?;
    let_go(out, register)
}

fn compress_twice<
    S: NonZeroInxGenericStack<Slot = Slot>,
    D: NonZeroInxGenericStack<Slot = PointerSlot>,
>(
    out: &mut String,
    register: &mut Register<S>,
    first: &mut Directory<D>,
    second: &mut Directory<D>,
) -> Result<(), AllocError> {
    fill(out, register, 100)?;
    remove_each(out, register, 9, 9, 33)?;
    compress_and_show(out, register, first)?;
    remove_each(out, register, 2, 2, 33)?;
    add(out, "insert", insert(register, pointer(500, 2), 5000))?;
    compress_and_show(out, register, second)?;
    join_and_find(out, register, first, second)
}

fn join_and_find<
    S: NonZeroInxGenericStack<Slot = Slot>,
    D: NonZeroInxGenericStack<Slot = PointerSlot>,
>(
    out: &mut String,
    register: &Register<S>,
    first: &mut Directory<D>,
    second: &mut Directory<D>,
) -> Result<(), AllocError> {
    add(out, "recast", recast(first, pointer(300, SEASON)))?;
    add(out, "recast", recast(second, pointer(67, SEASON)))?;
    add(out, "join", join(first, second))?;
    find_joined(out, register, first)?;
    add(out, "clear", clear(first))?;
    add(out, "clear", clear(second))?;
    add(out, "find", find(register, first, pointer(300, SEASON)))
}

fn find_joined<
    S: NonZeroInxGenericStack<Slot = Slot>,
    D: NonZeroInxGenericStack<Slot = PointerSlot>,
>(out: &mut String, register: &Register<S>, joined: &Directory<D>) -> Result<(), AllocError> {
    recast_and_find(out, register, joined, pointer(300, SEASON))?;
    recast_and_find(out, register, joined, pointer(6, SEASON))?;
    add(out, "recast", recast(joined, pointer(500, 2)))
}

// Compresses, and shows what the directory then holds.
fn compress_and_show<
    S: NonZeroInxGenericStack<Slot = Slot>,
    D: NonZeroInxGenericStack<Slot = PointerSlot>,
>(
    out: &mut String,
    register: &mut Register<S>,
    directory: &mut Directory<D>,
) -> Result<(), AllocError> {
    let (compressed, filled) = compressed(register, directory);
    add(out, "compress", compressed)?;
    add(out, "directory", filled)
}

// What a compression answers, and what the directory then holds.
fn compressed<
    S: NonZeroInxGenericStack<Slot = Slot>,
    D: NonZeroInxGenericStack<Slot = PointerSlot>,
>(register: &mut Register<S>, directory: &mut Directory<D>) -> (Answer, Answer) {
    let answer = compress(register, directory);
    (answer, held(directory))
}

// Where a pointer leads, and the record there.
fn recast_and_find<
    S: NonZeroInxGenericStack<Slot = Slot>,
    D: NonZeroInxGenericStack<Slot = PointerSlot>,
>(
    out: &mut String,
    register: &Register<S>,
    directory: &Directory<D>,
    p: Pointer,
) -> Result<(), AllocError>
    ensures { OnOk result (string_bytes out.new ≡ string_bytes out.old ++ recast_and_find_lines (S.list register.now) (S.room (S.config register.now)) (D.list directory.now) (D.room (D.config directory.now)) p) }
{
    add(out, "recast", recast(directory, p))?;
    add(out, "find", find(register, directory, p))
}

// Cuts the free end off, and asks for as little room as there are records, and then for less.
fn shrink<S: NonZeroInxGenericStack<Slot = Slot>>(
    out: &mut String,
    register: &mut Register<S>,
    records: u32,
) -> Result<(), AllocError> {
    add(out, "trim", trim(register, 20))?;
    add(out, "trim", trim(register, 100))?;
    add(out, "reserve", reserve(register, records))?;
    add(out, "reserve", reserve(register, records / 2))
}

// Clears a register, asks its stack for too much, and gives up its room.
fn let_go<S: NonZeroInxGenericStack<Slot = Slot> + Drop>(
    out: &mut String,
    mut register: Register<S>,
) -> Result<(), AllocError> {
    add(out, "clear", clear(&mut register))?;
    let (mut register, answer) = request(register, TOO_MANY);
    add(out, "request", answer)?;
    add(out, "reserve", reserve(&mut register, 0))
}
