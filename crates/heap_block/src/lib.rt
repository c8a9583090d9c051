//! A block of memory for slots, of which the first are written: asked for, read, written, and given back.
//! It uses the toolchain's allocators alone. Each raw pointer and each `unsafe` of this repository is here.
//! It knows nothing of stacks, of arenas, or of what a slot holds.

#![tactic(auto)]

pub mod block;

pub use block::{Block, is_small};
