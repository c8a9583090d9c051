//! Workloads for a benchmark: each fills an arena, and carries out one kind of call many times.
//! It may use `arena` and what that uses; nothing in the repository uses it, and nothing is promised of what it answers.
//! A static library: the driver in bench/ links it, times it, and compares its checksums with those of the Rust crate.

#![tactic(auto)]

pub mod exports;
pub mod inputs;
pub mod many;
pub mod recasts;
pub mod single;
pub mod walks;
