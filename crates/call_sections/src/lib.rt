//! The calls of a section of a call script, on arenas that are found by name.
//! It uses `call_script` and `call_answers`; what an arena is made of, it is given, and it knows no stack.
//! Nothing is promised of it but that it ends and never panics: what `beside` writes by it is compared.

#![tactic(auto)]

pub mod section;
mod shelf;
mod world;

pub use section::{Calls, Lends, answer_all};
