//! What a line of a call script means: its words, pointers, values and corrections, and the call that it asks for.
//! It uses `text`, the kinds and `mapper`, and knows nothing of stacks, arenas or answers.
//! A new word is a case of `Verb` and of a call, and a line in `parse`; the table is docs/BESIDE.md.

#![tactic(auto)]

pub mod call;
pub mod correction;
pub mod kind;
pub mod parse;
pub mod request;
pub mod value;
pub mod verb;
pub mod word;
