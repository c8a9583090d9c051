//! What an answer is: done with its values, or refused under a number; and the two kinds of answer of a call on a record.
//! It uses no other crate of the repository, and knows nothing of pointers, slots, stacks or arenas.
//! An error stands in the lowest crate that answers it, with its text and the number that it has as an answer.

#![tactic(auto)]

pub mod answer;

pub use answer::{InvalidationOption, InvalidationResult};
