//! What a call on many records does to their values: mappers, which take the place of closures, and recasters.
//! It uses `outcome`, for what a recaster's error means, and knows nothing of slots, stacks or arenas.
//! A new mapper or recaster is an `impl` in the crate that needs it: calls are proved once, for every one.

#![tactic(auto)]

pub mod error;
pub mod generic;
pub mod mappers;
pub mod recaster;

pub use error::NotHeldError;
pub use generic::Mapper;
pub use mappers::{AddCorrection, KeepValues};
pub use recaster::Recaster;
