// Slots that are lent piece by piece, and the arenas that are made over them.

use arena::DirectArena;
use call_answers::held::Held;
use call_script::kind::Kind;
use call_script::request::Request;
use call_sections::Lends;
use heap_stack::HeapStack;
use kinds::{DirectSlot, Ptr, PtrInx};
use limited::LimitedStack;
use slab_stack::SlabStack;
use stack::FixedStack;
use std::alloc::Global;
use std::mem::replace;

#[derive(Drop)]
pub struct Pool<'a, U> {
    slots: &'a mut [U],
}

impl<'a, U> Pool<'a, U> {
    pub(crate) fn new(slots: &'a mut [U]) -> Self {
        Pool { slots }
    }

    /// So many slots, if there are as many left.
    pub(crate) fn lend(&mut self, wanted: usize) -> Option<&'a mut [U]> {
        if wanted > self.slots.len() {
            return None;
        }
        let (lent, rest) = replace(&mut self.slots, &mut []).split_at_mut(wanted);
        self.slots = rest;
        Some(lent)
    }
}

/// The slots that have to be lent. A limited stack grows over a slab that never runs out: no reallocation asks for
/// more than M slots, and none doubles a capacity above M. A heap stack has its own.
pub(crate) fn slots_of<P: Kind>(request: Request) -> usize {
    match request {
        Request::Fixed(capacity) => capacity,
        Request::Limited(capacity) => capacity.max(P::Inx::max_index().saturating_mul(2)),
        Request::Heap(_) => 0,
    }
}

type Fixed<'a, P, V> = DirectArena<P, V, FixedStack<'a, DirectSlot<<P as Ptr>::Gen, V>>>;

type Limited<'a, P, V> = DirectArena<
    P,
    V,
    LimitedStack<SlabStack<'a, DirectSlot<<P as Ptr>::Gen, V>>>,
>;

type Heap<P, V> = DirectArena<P, V, HeapStack<DirectSlot<<P as Ptr>::Gen, V>, Global>>;

/// An arena of a script.
pub(crate) type Arena<'a, P, V> = Held<Fixed<'a, P, V>, Limited<'a, P, V>, Heap<P, V>>;

impl<'a, P: Kind, V: Copy> Lends<Arena<'a, P, V>> for Pool<'a, DirectSlot<P::Gen, V>> {
    fn arena(&mut self, heap: Global, request: Request) -> Option<Arena<'a, P, V>> {
        let slots = self.lend(slots_of::<P>(request))?;
        match request {
            Request::Fixed(_) => Some(Held::Fixed(DirectArena::new(FixedStack::new(slots)))),
            Request::Limited(capacity) => {
                let slab = SlabStack::with_min_capacity(slots, capacity);
                Some(Held::Limited(DirectArena::new(LimitedStack::new(slab))))
            }
            Request::Heap(None) => Some(Held::Heap(DirectArena::new(HeapStack::new(heap)))),
            Request::Heap(Some(capacity)) => {
                let stack = HeapStack::with_min_capacity(heap, capacity).ok()?;
                Some(Held::Heap(DirectArena::new(stack)))
            }
        }
    }
}
