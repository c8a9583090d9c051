//! The heap stack: a stack that owns its slots' memory, grows and shrinks, and has no maximum.
//! It uses `outcome`, the traits of `stack` and the blocks of `heap_block`, and has no `unsafe` of its own.
//! It knows nothing of arenas, of what a slot holds, or of other stacks.

#![tactic(auto)]

pub mod heap;

pub use heap::HeapStack;
