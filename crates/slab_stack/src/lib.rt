//! The slab: a stack over lent slots whose capacity grows up to their number.
//! It uses `outcome`, the traits of `stack` and its functions over lent slots.
//! It knows nothing of arenas, of what a slot holds, or of other stacks.

#![tactic(auto)]

pub mod slab;

pub use slab::SlabStack;
