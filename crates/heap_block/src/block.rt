ghost use Rattle.std.specs.Prelude.{◌≡◌, ℕ, ◌<◌, ◌≤◌, true, false, List, [], length, Some, slice_get, IfOk};
ghost use Rattle.std.specs.Mem.{type_size};
ghost use Rattle.heap_block.specs.Written.{written};
ghost use Rattle.heap_block.specs.Places.{block_owns, block_lends};

use std::alloc::{AllocError, Allocator};
use std::marker::{Model, PhantomData};
use std::mem::{align_of, size_of};
use std::ptr::null_mut;

/// The owner of a block with room for so many slots, of which the first are written. With room for none there is no
/// block. It keeps neither its room nor its allocator: whoever holds it does, and must give it back.
pub struct Block<U, A: Allocator> {
    start: *mut U,
    by: PhantomData<A>,
    pub ghost slots: { List U },
    pub ghost room: { ℕ },
    // the allocator that the block goes back to
    pub ghost from: { A },
    pub ghost within: { length slots ≤ room },
}

impl<U, A: Allocator> Model for Block<U, A> {
    ghost also_owns = { λ b. block_owns U.row (A.dealloc_token b.from) b.start b.room b.slots };

    ghost also_shares = { λ b _ κ. block_lends U.row b.start b.room b.slots κ };
}

/// Whether a slot takes fewer than 2^31 bytes: then fewer than 2^32 of them fit a block.
pub fn is_small<U>() -> bool
    ensures { (result ≡ true → type_size U.row < 2147483648) × (result ≡ false → 2147483648 ≤ type_size U.row) }
{
    size_of::<U>() < 2_147_483_648
}

impl<U, A: Allocator> Block<U, A> {
    /// No block. The allocator is handed in so that the ghost field names it.
    pub fn none(heap: &A) -> Block<U, A>
        ensures { (result.slots ≡ []) × (result.room ≡ 0) × (result.from ≡ heap.now) }
    {
        let start = null_mut();
        let by = PhantomData;
        Block { start, by }
    }

    // The same for slots of any type: one that is no plain copy would be lost where it is written over.
    fn allocate(heap: &A, room: usize) -> Result<Block<U, A>, AllocError>
        requires { (0 < room) × (room < 4294967296) × (type_size U.row < 2147483648) }
        ensures { IfOk result (λ b. (b.slots ≡ []) × (b.room ≡ room) × (b.from ≡ heap.now)) }
    {
        match heap.allocate(room * size_of::<U>(), align_of::<U>()) {
            Ok(block) => {
                let start = block as *mut U;
                let by = PhantomData;
                Ok(Block { start, by })
            }
            Err(error) => Err(error),
        }
    }

    /// The written slot that `i` others stand before.
    pub fn slot(&self, i: usize) -> &U
        requires { i < length self.now.slots }
        ensures { slice_get self.now.slots i ≡ Some result.now }
    {
        unsafe { &*self.start.add(i) }
    }

    /// Writes the slot that `i` others stand before, which is the first that is not written, or one that is.
    pub fn write(&mut self, i: usize, u: U)
        requires { (i ≤ length self.old.slots) × (i < self.old.room) }
        ensures { (self.new.slots ≡ written self.old.slots i u) × (self.new.room ≡ self.old.room) × (self.new.from ≡ self.old.from) }
    {
        unsafe { self.start.add(i).write(u) }
    }

    /// Gives the block back; room and allocator are those that it was obtained with.
    pub fn release(self, heap: &A, room: usize)
        requires { (self.room ≡ room) × (self.from ≡ heap.now) }
    {
        let Block { start, by: _ } = self;
        if room != 0 {
            unsafe { heap.deallocate(start as *mut u8, room * size_of::<U>(), align_of::<U>()) };
        }
    }
}

impl<U: Copy, A: Allocator> Block<U, A> {
    /// A block with room for so many slots, which are plain copies: what is written over is not dropped.
    pub fn obtain(heap: &A, room: usize) -> Result<Block<U, A>, AllocError>
        requires { (0 < room) × (room < 4294967296) × (type_size U.row < 2147483648) }
        ensures { IfOk result (λ b. (b.slots ≡ []) × (b.room ≡ room) × (b.from ≡ heap.now)) }
    {
        Block::allocate(heap, room)
    }
}
