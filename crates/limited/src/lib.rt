//! Any stack under a limit that its owner sets.
//! It uses `outcome`, for the errors and what they mean, and the traits of `stack`.
//! It knows nothing of arenas, nor of the stack below.

#![tactic(auto)]

pub mod limited;

pub use limited::LimitedStack;
