//! Stacks of slots: the traits that arenas stand on, what a stack over lent slots is made of, and the fixed stack.
//! It uses `kinds`, for places in a list, and `outcome`, for what its errors mean.
//! It knows nothing of arenas or of what a slot holds.

#![tactic(auto)]

pub mod error;
pub mod fixed;
pub mod generic;
pub mod lent;
pub mod set_max;

pub use error::{MaxCapacityReductionError, NotWithinCapacityError, ReallocationError};
pub use fixed::FixedStack;
pub use generic::{MAX_CAPACITY, NonZeroInxGenericStack};
pub use set_max::SetMaxCapacity;
