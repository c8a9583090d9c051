//! The sheets of a register book, as an index kind.
//! It uses `kinds` for the laws that an index kind keeps, and knows nothing else.
//! A book that is ruled anew changes this crate and what names it: no arena, stack or law stands on it.

#![tactic(auto)]

pub mod index;

pub use index::SheetInx;
