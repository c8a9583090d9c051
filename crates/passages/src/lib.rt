//! The register that the programs keep, an arena of short indices, seasons and 32-bit values over a limited slab; and
//! the directory of its latest compression.
//! It uses `answers` for a register's tally and the crates that such arenas are made of; it knows no scripts or calls.

#![tactic(auto)]

pub mod latest;
pub mod register;

pub use latest::{Directory, PointerSlot, open_directory};
pub use register::{Register, Slot, open, tally};
