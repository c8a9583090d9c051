//! The calls of a call script on arenas, and what is written of each.
//! It uses `call_script` for what a line asks for, `arena` and `directory`, over any stacks and any kind of pointer.
//! It knows no stack and no kind by name; a new call is a case of an enum of `call_script`, and an arm here.

#![tactic(auto)]

pub mod answers;
pub mod held;
pub mod list;
pub mod one;
pub mod two;
pub mod write;
