//! What each call of a script does to the register and the latest directory of `passages`, and what it answers.
//! It uses `lines` for the calls, `answers` for what they answer, `directory`, and what the two are made of.
//! It knows nothing of whole scripts, and reads and writes nothing.

#![tactic(auto)]

pub mod calls;
pub mod step;
