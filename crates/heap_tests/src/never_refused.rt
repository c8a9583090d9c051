// What follows from the contracts of a heap stack for a caller: requests that no allocator is asked for are never refused.
// A definition that lets them be refused does not prove these.
ghost use Rattle.std.specs.Prelude.{◌≡◌, IsOk};
ghost use Rattle.outcome.specs.Outcome.{done};
ghost use Rattle.stack.specs.Outcomes.{of_reallocation};
ghost use Rattle.heap_stack.specs.Heap.{heap_list, heap_room};

use heap_stack::HeapStack;
use stack::{NonZeroInxGenericStack, ReallocationError};
use std::alloc::Allocator;

/// A stack made for no request.
pub fn made_for_none<U: Copy, A: Allocator>(heap: A) -> Result<HeapStack<U, A>, ReallocationError>
    ensures { IsOk result }
{
    HeapStack::with_min_capacity(heap, 0)
}

/// A request for just the room that is there.
pub fn reallocated_to_its_room<U: Copy, A: Allocator>(
    stack: &mut HeapStack<U, A>,
) -> Result<(), ReallocationError>
    ensures answer { of_reallocation result ≡ done tt }
    ensures slots { heap_list stack.new ≡ heap_list stack.old }
    ensures settings { heap_room stack.new ≡ heap_room stack.old }
{
    let room = stack.capacity();
    stack.reallocate_min_capacity(room)
}

/// An emptied stack that gives up its memory.
pub fn emptied<U: Copy, A: Allocator>(stack: &mut HeapStack<U, A>) -> Result<(), ReallocationError>
    ensures answer { of_reallocation result ≡ done tt }
    ensures settings { heap_room stack.new ≡ 0 }
{
    stack.clear();
    stack.reallocate_min_capacity(0)
}
