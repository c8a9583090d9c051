//! The plain kinds: 16-bit indices, season numbers, records that bear no generation; and the pointer of the first two.
//! It uses `kinds` for the laws that each keeps, and knows nothing of answers, stacks, arenas or text.
//! A new index or generation kind is an `impl` here or in a crate of its own: no arena, stack or law stands on it.

#![tactic(auto)]

pub mod generation;
pub mod index;
pub mod pointers;

pub use generation::{SeasonGen, Unmarked};
pub use index::ShortInx;
pub use pointers::{Pointer, pointer};
