//! What a call on many records does to the slots of any stack, record by record, with a mapper for their values.
//! It uses `kinds`, `outcome`, `history`, `slots`, `mapper` and the traits of `stack`; it knows no arena and no count.
//! A call of an arena that shows records to a mapper has its loop here, with its equation on the list of slots.

#![tactic(auto)]

pub mod compress;
pub mod copy;
pub mod edits;
pub mod error;
pub mod point;
pub mod recast;

pub use error::GetDisjointMutError;
