//! Bytes as text: lines, fields and decimals, for whoever reads a script.
//! It may use no crate but std, and knows nothing of calls, arenas or stacks.
//! A form of text is a definition in `specs/`, and a function here that reads just that form.

#![tactic(auto)]

pub mod number;
pub mod split;
pub mod word;
