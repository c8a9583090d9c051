ghost use Rattle.std.specs.Prelude.{◌≡◌, ◌≤◌, ℕ, [], length, take, Option, Some, true};
ghost use Rattle.std.specs.List.{list_all};
ghost use Rattle.kinds.specs.Places.{or_zero};
ghost use Rattle.bulk.specs.Outcomes.{of_disjoint};
ghost use Rattle.history.specs.Slots.{at, count, is_held};
ghost use Rattle.history.specs.Mapped.{records, in_place, those_named, put_all};
ghost use Rattle.history.specs.Calls.{distinct};
ghost use Rattle.bulk.specs.Given.{given, left};
ghost use Rattle.bulk.specs.Edits.{numbers, first_unconverted, scanned, all_held, fit, of_fit, edits_refusal, edits_answer, edited, shown};

use crate::error::GetDisjointMutError;
use crate::point::point;
use kinds::{DirectSlot, Ptr, PtrInx};
use mapper::Mapper;
use slots::{is_vacant, overwrite, record_at};
use stack::NonZeroInxGenericStack;

/// How the items of a list cite slots: by the number of each.
pub trait Citing<T: Copy>: Copy {
    ghost number: { T → Option ℕ };

    fn number(self, item: T) -> Option<usize>
        ensures { result ≡ number item };
}

/// Indices cite their own slots.
#[derive(Clone, Copy)]
pub struct ByIndex;

impl<I: PtrInx> Citing<I> for ByIndex {
    ghost number = { I.number };

    fn number(self, item: I) -> Option<usize> {
        item.try_into_usize()
    }
}

/// Pointers cite the slots of their indices.
#[derive(Clone, Copy)]
pub struct ByPointer;

impl<P: Ptr> Citing<P> for ByPointer {
    ghost number = { λ p. P.Inx.number (P.index p) };

    fn number(self, item: P) -> Option<usize> {
        item.inx().try_into_usize()
    }
}

// The number of an item's slot, or 0, which no slot has, where its index does not convert.
fn slot_of<T: Copy, C: Citing<T>>(by: C, item: T) -> usize
    ensures { result ≡ or_zero (C.number item) }
{
    by.number(item).unwrap_or(0)
}

// The place of the first item whose index does not convert.
fn first_unconverted<T: Copy, C: Citing<T>>(by: C, items: &[T]) -> Option<usize>
    ensures { result ≡ first_unconverted (numbers C.number items.now) }
{
    for (place, item) in items.iter().enumerate() {
        if slot_of(by, *item) == 0 {
            return Some(place);
        }
    }
    None
}

// Of each item in order: is there such a slot, and does it differ from those before it?
fn scan<T: Copy, C: Citing<T>>(by: C, items: &[T], slots: usize) -> Result<(), GetDisjointMutError>
    ensures { of_disjoint result ≡ scanned slots [] (numbers C.number items.now) }
{
    let mut answer = Ok(());
    'scan: for (place, item) in items.iter().enumerate() {
        let n = slot_of(by, *item);
        if n > slots {
            answer = Err(GetDisjointMutError::IndexOutOfBounds);
            break 'scan;
        }
        for earlier in &items[..place] {
            if slot_of(by, *earlier) == n {
                answer = Err(GetDisjointMutError::OverlappingIndices);
                break 'scan;
            }
        }
    }
    answer
}

// Whether an item cites an allocated slot.
fn is_taken<
    G: Copy,
    V: Copy,
    S: NonZeroInxGenericStack<Slot = DirectSlot<G, V>>,
    T: Copy,
    C: Citing<T>,
>(m: &S, by: C, item: T) -> bool
    ensures { result ≡ is_held (at (or_zero (C.number item)) (S.list m.now)) }
{
    !is_vacant(m, slot_of(by, item))
}

// Whether each item cites an allocated slot.
fn all_taken<
    G: Copy,
    V: Copy,
    S: NonZeroInxGenericStack<Slot = DirectSlot<G, V>>,
    T: Copy,
    C: Citing<T>,
>(m: &S, by: C, items: &[T]) -> bool
    ensures { result ≡ list_all (λ x. is_held (at (or_zero (C.number x)) (S.list m.now))) items.now }
{
    items.iter().all(|item| is_taken(m, by, *item))
}

// Whether no item cites the slot of another.
fn apart<T: Copy, C: Citing<T>>(by: C, items: &[T]) -> bool
    ensures { result ≡ distinct (numbers C.number items.now) }
{
    for (place, item) in items.iter().enumerate() {
        let n = slot_of(by, *item);
        for later in &items[place + 1..] {
            if slot_of(by, *later) == n {
                return false;
            }
        }
    }
    true
}

// The answer to a list that cites a slot that is not allocated, or one twice. Kept out of line: it is called seldom.
#[cold]
#[inline(never)]
fn refuse<T: Copy, C: Citing<T>>(
    by: C,
    items: &[T],
    slots: usize,
) -> Result<(), GetDisjointMutError>
    ensures { of_disjoint result ≡ edits_refusal (numbers C.number items.now) slots }
{
    if first_unconverted(by, items).is_some() {
        return Err(GetDisjointMutError::IndexOutOfBounds);
    }
    scan(by, items, slots)?;
    Err(GetDisjointMutError::IndexOutOfBounds)
}

// Edits the record of each item, in order.
fn edit_each<
    P: Ptr,
    V: Copy,
    S: NonZeroInxGenericStack<Slot = DirectSlot<P::Gen, V>>,
    F: Mapper<P, P, V, V>,
    T: Copy,
    C: Citing<T>,
>(m: &mut S, by: C, items: &[T], mapper: &mut F)
    requires indexed { length (S.list m.old) ≤ P.Inx.largest }
    requires held { all_held (numbers C.number items.now) (S.list m.old) ≡ true }
    requires apart { distinct (numbers C.number items.now) ≡ true }
    ensures slots { S.list m.new ≡ put_all (numbers C.number items.now) (given F.next F.mapped P.Inx.indexed P.made (F.state mapper.old) (in_place (those_named (numbers C.number items.now) (records (S.list m.old))))) (S.list m.old) }
    ensures mapper { F.state mapper.new ≡ left F.next F.mapped P.Inx.indexed P.made (F.state mapper.old) (in_place (those_named (numbers C.number items.now) (records (S.list m.old)))) }
    ensures counted { count (S.list m.new) ≡ count (S.list m.old) }
    ensures long { length (S.list m.new) ≡ length (S.list m.old) }
    ensures kept { S.config m.new ≡ S.config m.old }
{
    for item in items {
        let found = record_at(m, slot_of(by, *item)).unwrap();
        let pointer = point(found.slot, found.generation);
        let value = mapper.map(pointer, pointer, found.value);
        overwrite(
            m,
            found.slot,
            DirectSlot::Allocated(found.generation, value),
        );
    }
}

// Edits the records, if each slot is allocated and cited once, and answers whether it did.
#[tactic(auto, using(crate::proofs::Cited::mapped_all))]
fn edit_if_fit<
    P: Ptr,
    V: Copy,
    S: NonZeroInxGenericStack<Slot = DirectSlot<P::Gen, V>>,
    F: Mapper<P, P, V, V>,
    T: Copy,
    C: Citing<T>,
>(m: &mut S, by: C, items: &[T], mapper: &mut F) -> bool
    requires indexed { length (S.list m.old) ≤ P.Inx.largest }
    ensures answer { result ≡ fit (numbers C.number items.now) (S.list m.old) }
    ensures slots { S.list m.new ≡ edited (of_fit result) (numbers C.number items.now) (given F.next F.mapped P.Inx.indexed P.made (F.state mapper.old)) (S.list m.old) }
    ensures mapper { F.state mapper.new ≡ left F.next F.mapped P.Inx.indexed P.made (F.state mapper.old) (shown (of_fit result) (numbers C.number items.now) (S.list m.old)) }
    ensures counted { count (S.list m.new) ≡ count (S.list m.old) }
    ensures long { length (S.list m.new) ≡ length (S.list m.old) }
    ensures kept { S.config m.new ≡ S.config m.old }
{
    if !all_taken(m, by, items) || !apart(by, items) {
        return false;
    }
    edit_each(m, by, items, mapper);
    true
}

// Numbers cite slots themselves.
#[derive(Clone, Copy)]
struct ByNumber;

impl Citing<usize> for ByNumber {
    ghost number = { λ n. Some n };

    fn number(self, item: usize) -> Option<usize> {
        Some(item)
    }
}

// The numbers of so few slots are kept.
const FEW: usize = 8;

// The numbers that a short list's items cite.
fn numbers_of<T: Copy, C: Citing<T>>(by: C, items: &[T]) -> [usize; FEW]
    requires { length items.now ≤ 8 }
    ensures { take (length items.now) result ≡ numbers C.number items.now }
{
    let mut numbers = [0; FEW];
    for (place, item) in items.iter().enumerate() {
        numbers[place] = slot_of(by, *item);
    }
    numbers
}

// The same. The numbers of a short list are read once: a slot that is written might be part of the list, for all that the
// compiler knows, but no part of an array that is made here.
#[tactic(auto, using(crate::proofs::Cited::cite_themselves))]
fn edit_by_numbers_if_fit<
    P: Ptr,
    V: Copy,
    S: NonZeroInxGenericStack<Slot = DirectSlot<P::Gen, V>>,
    F: Mapper<P, P, V, V>,
    T: Copy,
    C: Citing<T>,
>(m: &mut S, by: C, items: &[T], mapper: &mut F) -> bool
    requires indexed { length (S.list m.old) ≤ P.Inx.largest }
    ensures answer { result ≡ fit (numbers C.number items.now) (S.list m.old) }
    ensures slots { S.list m.new ≡ edited (of_fit result) (numbers C.number items.now) (given F.next F.mapped P.Inx.indexed P.made (F.state mapper.old)) (S.list m.old) }
    ensures mapper { F.state mapper.new ≡ left F.next F.mapped P.Inx.indexed P.made (F.state mapper.old) (shown (of_fit result) (numbers C.number items.now) (S.list m.old)) }
    ensures counted { count (S.list m.new) ≡ count (S.list m.old) }
    ensures long { length (S.list m.new) ≡ length (S.list m.old) }
    ensures kept { S.config m.new ≡ S.config m.old }
{
    if items.len() > FEW {
        return edit_if_fit(m, by, items, mapper);
    }
    let numbers = numbers_of(by, items);
    edit_if_fit(m, ByNumber, &numbers[..items.len()], mapper)
}

/// Edits the records that a list cites, each by the mapper, in list order; a refused edit shows the mapper nothing.
#[tactic(auto, using(crate::proofs::Cited::fits, crate::proofs::Cited::unfit, crate::proofs::Cited::refuses))]
pub fn edit_all<
    P: Ptr,
    V: Copy,
    S: NonZeroInxGenericStack<Slot = DirectSlot<P::Gen, V>>,
    F: Mapper<P, P, V, V>,
    T: Copy,
    C: Citing<T>,
>(m: &mut S, by: C, items: &[T], mapper: &mut F) -> Result<(), GetDisjointMutError>
    requires { length (S.list m.old) ≤ P.Inx.largest }
    ensures answer { of_disjoint result ≡ edits_answer (numbers C.number items.now) (S.list m.old) }
    ensures slots { S.list m.new ≡ edited (of_disjoint result) (numbers C.number items.now) (given F.next F.mapped P.Inx.indexed P.made (F.state mapper.old)) (S.list m.old) }
    ensures mapper { F.state mapper.new ≡ left F.next F.mapped P.Inx.indexed P.made (F.state mapper.old) (shown (of_disjoint result) (numbers C.number items.now) (S.list m.old)) }
    ensures counted { count (S.list m.new) ≡ count (S.list m.old) }
    ensures long { length (S.list m.new) ≡ length (S.list m.old) }
    ensures kept { S.config m.new ≡ S.config m.old }
{
    if edit_by_numbers_if_fit(m, by, items, mapper) {
        return Ok(());
    }
    refuse(by, items, m.len())
}
