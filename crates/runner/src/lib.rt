//! The runner's logic: from the bytes of a script of calls to the bytes of its answers.
//! It uses `text`, `lines` and `answers` for bytes and lines, `passages` for the register, and `steps` for each line.
//! Reading and writing are a program's: nothing here reaches outside.

#![tactic(auto)]

pub mod script;

pub use lines::script::MOST_READ;
pub use script::run;
