ghost use Rattle.std.specs.Prelude.{◌≡◌, ◌≢◌, ℕ, ◌<◌, ◌≤◌, [], length, take, None, IfOk, IfErr};
ghost use Rattle.stack.specs.Outcomes.{of_reallocation};

use heap_block::{Block, is_small};
use stack::{MAX_CAPACITY, NonZeroInxGenericStack, NotWithinCapacityError, ReallocationError};
use std::alloc::Allocator;
use std::mem::replace;

// a block has room for as many slots at least
const MIN_CAPACITY: usize = 4;

/// A stack that owns its slots' memory, in one block of its allocator. It has no maximum.
pub struct HeapStack<U, A: Allocator> {
    block: Block<U, A>,
    room: usize,
    len: usize,
    heap: A,
    // the list is the first of the slots that are written
    ghost within: { len ≤ length block.slots },
    ghost room_of_block: { room ≡ block.room },
    ghost small: { room < 4294967296 },
    // the block goes back to where it came from
    ghost heap_of_block: { block.from ≡ heap },
}

impl<U, A: Allocator> Drop for HeapStack<U, A> {
    fn drop(self) {
        let HeapStack {
            block,
            room,
            len: _,
            heap,
        } = self;
        block.release(&heap, room);
    }
}

impl<U: Copy, A: Allocator> HeapStack<U, A> {
    ghost use Rattle.heap_stack.specs.Heap.{heap_list, heap_room, heap_grown, HeapMoved, HeapMade};

    /// An empty stack with no memory.
    pub fn new(heap: A) -> HeapStack<U, A>
        ensures slots { heap_list result ≡ [] }
        ensures settings { heap_room result ≡ 0 }
    {
        let block = Block::none(&heap);
        HeapStack {
            block,
            room: 0,
            len: 0,
            heap,
        }
    }

    /// An empty stack with room for the request at least; 7 above 2^32 - 1, and where there is no such memory.
    pub fn with_min_capacity(heap: A, request: usize) -> Result<HeapStack<U, A>, ReallocationError>
        ensures { HeapMade request result }
    {
        let mut stack = HeapStack::new(heap);
        stack.reallocate_min_capacity(request)?;
        Ok(stack)
    }

    // The capacity for a request. It doubles, as that of a `Vec`, so that few reallocations copy the slots.
    fn capacity_for(&self, request: usize) -> usize
        requires { request ≤ 4294967295 }
        ensures { result ≡ heap_grown self.now.room self.now.len request }
    {
        if request > self.room {
            return request
                .max(2 * self.room)
                .max(MIN_CAPACITY)
                .min(MAX_CAPACITY);
        }
        if request == self.room {
            return request;
        }
        match request.max(self.len) {
            0 => 0,
            least => least.max(MIN_CAPACITY),
        }
    }

    // Takes the list to a block with another room, and gives the old block back.
    fn move_to(&mut self, room: usize) -> Result<(), ReallocationError>
        requires fits { self.old.len ≤ room }
        requires small { room < 4294967296 }
        requires other { room ≢ heap_room self.old }
        ensures slots { heap_list self.new ≡ heap_list self.old }
        ensures moved { HeapMoved (heap_room self.old) room (of_reallocation result) (heap_room self.new) }
    {
        let mut moved = block_for(&self.heap, room)?;
        copy_slots(&self.block, &mut moved, self.len);
        let old = replace(&mut self.block, moved);
        old.release(&self.heap, self.room);
        self.room = room;
        Ok(())
    }
}

impl<U: Copy, A: Allocator> NonZeroInxGenericStack for HeapStack<U, A> {
    type Slot = U;

    ghost use Rattle.heap_stack.specs.Heap.{heap_list, heap_room, HeapRegrown};
    ghost use Rattle.heap_stack.specs.HeapLaws.{heap_laws};

    ghost Config = { ℕ };

    ghost list = { heap_list };

    ghost config = { heap_room };

    ghost room = { λ c. c };

    ghost limit = { λ c. None };

    ghost regrown = { HeapRegrown };

    ghost laws = { heap_laws };

    fn capacity(&self) -> usize {
        self.room
    }

    fn max_capacity(&self) -> Option<usize> {
        None
    }

    fn len(&self) -> usize {
        self.len
    }

    fn get(&self, n: usize) -> Option<U> {
        if n == 0 || n > self.len {
            return None;
        }
        Some(*self.block.slot(n - 1))
    }

    #[tactic(auto, using(crate::proofs::Written::put_written))]
    fn replace(&mut self, n: usize, u: U) -> Option<U> {
        if n == 0 || n > self.len {
            return None;
        }
        let old = *self.block.slot(n - 1);
        self.block.write(n - 1, u);
        Some(old)
    }

    #[tactic(auto, using(crate::proofs::Written::push_written))]
    fn push_within_capacity(&mut self, u: U) -> Result<(), NotWithinCapacityError> {
        if self.len == self.room {
            return Err(NotWithinCapacityError);
        }
        self.block.write(self.len, u);
        self.len += 1;
        Ok(())
    }

    fn pop(&mut self) -> Option<U> {
        let last = self.len.checked_sub(1)?;
        self.len = last;
        Some(*self.block.slot(last))
    }

    fn clear(&mut self) {
        self.len = 0;
    }

    fn reallocate_min_capacity(&mut self, r: usize) -> Result<(), ReallocationError> {
        if r > MAX_CAPACITY {
            return Err(ReallocationError::AllocError);
        }
        let room = self.capacity_for(r);
        if room == self.room {
            return Ok(());
        }
        self.move_to(room)
    }
}

// A block with so much room, or none where there is to be no room.
fn block_for<U: Copy, A: Allocator>(heap: &A, room: usize) -> Result<Block<U, A>, ReallocationError>
    requires { room < 4294967296 }
    ensures block { IfOk result (λ b. (b.slots ≡ []) × (b.room ≡ room) × (b.from ≡ heap.now)) }
    ensures fault { IfErr result (λ e. (e ≡ ReallocationError.AllocError) × (0 < room)) }
{
    if room == 0 {
        return Ok(Block::none(heap));
    }
    if !is_small::<U>() {
        return Err(ReallocationError::AllocError);
    }
    match Block::obtain(heap, room) {
        Ok(block) => Ok(block),
        Err(_) => Err(ReallocationError::AllocError),
    }
}

// Writes the first slots of a block into one that has none yet.
#[tactic(auto, using(crate::proofs::Written::copy_written))]
fn copy_slots<U: Copy, A: Allocator>(from: &Block<U, A>, to: &mut Block<U, A>, len: usize)
    requires written { len ≤ length from.now.slots }
    requires empty { to.old.slots ≡ [] }
    requires room { len ≤ to.old.room }
    ensures slots { to.new.slots ≡ take len from.now.slots }
    ensures room { to.new.room ≡ to.old.room }
    ensures allocator { to.new.from ≡ to.old.from }
{
    for i in 0..len {
        to.write(i, *from.slot(i));
    }
}
