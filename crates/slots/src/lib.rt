//! What is done to the slots of any stack: looking for records, writing and freeing slots, adding and popping free.
//! It uses `kinds`, `outcome`, the traits of `stack`, and `history` for what slots are; it knows no arena and no count.
//! A call of an arena that needs a loop has it here, as a function with its equation on the list of slots.

#![tactic(auto)]

pub mod ends;
pub mod error;
pub mod find;
pub mod write;

pub use ends::{first_record, last_record, pop_free, record_at_or_above, record_at_or_below};
pub use error::DirectInsertionError;
pub use find::{Found, find_record, is_vacant, record_at};
pub use write::{append_record, insert_record, overwrite};
