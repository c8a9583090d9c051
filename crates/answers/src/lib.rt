//! The lines that a runner writes: what a call concerned or why it was refused, and a tally.
//! It uses the crates whose errors a refusal stands for, those of a line among them, and calls no arena or stack.
//! A new refusal is a variant of `Refusal`, with its number in `specs/Refusals.antt`.

#![tactic(auto)]

pub mod answer;
pub mod refusal;
pub mod write;
