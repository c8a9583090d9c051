//! The lines that a runner reads: where they stand in a script, what one asks for, and the one text of each call.
//! It uses `text` for fields and numbers, and knows nothing of answers, arenas or stacks.
//! A new call of the runner is a case of `Verb` and of `Call`, with its text in `specs/Texts.antt`.

#![tactic(auto)]

pub mod call;
pub mod error;
pub mod parse;
pub mod script;
pub mod verb;
