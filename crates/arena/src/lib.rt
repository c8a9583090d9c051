//! The arena: records under pointers in the slots of any stack, calls on one and on many, advancers and drains.
//! It uses `bulk`, `slots`, `mapper`, `stack`'s traits and what these use; it knows no stack and no text.
//! Each call that may alter an arena promises the step that histories are made of; `len` carries the laws over them.

#![tactic(auto)]

pub mod advancer;
pub mod arena;
pub mod compress;
pub mod copy;
pub mod drain;
pub mod edit;
pub mod edits;
pub mod ends;
pub mod error;
pub mod find;
pub mod insert;
pub mod recast;
pub mod reserve;

pub use arena::DirectArena;
pub use error::ArenaReallocationError;
