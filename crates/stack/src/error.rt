ghost use Rattle.std.specs.Prelude.{Some};
ghost use Rattle.stack.specs.Texts.{within_text, reallocation_text, reduction_text};

use std::error::Error;
use std::fmt;

/// A push that finds the stack full: refusal 1.
#[derive(Clone, Copy, Debug, PartialEq, Eq)]
pub struct NotWithinCapacityError;

/// A reallocation beyond the stack's maximum, refusal 6, or one that finds no memory, refusal 7.
#[derive(Clone, Copy, Debug, PartialEq, Eq)]
pub enum ReallocationError {
    BeyondMaxCapacity,
    AllocError,
}

/// A limit below the slots that are there: refusal 8.
#[derive(Clone, Copy, Debug, PartialEq, Eq)]
pub struct MaxCapacityReductionError;

impl fmt::Display for NotWithinCapacityError {
    ghost output = { λ _. Some within_text };

    fn fmt<W: fmt::Write>(&self, f: &mut fmt::Formatter<W>) -> fmt::Result {
        f.write_str("an operation would not be within existing capacity")
    }
}

impl fmt::Display for ReallocationError {
    ghost output = { λ e. Some (reallocation_text e) };

    fn fmt<W: fmt::Write>(&self, f: &mut fmt::Formatter<W>) -> fmt::Result {
        f.write_str(match self {
            ReallocationError::BeyondMaxCapacity => {
                "a max capacity limit prevents growing the capacity"
            }
            ReallocationError::AllocError => "a memory reallocation failed",
        })
    }
}

impl fmt::Display for MaxCapacityReductionError {
    ghost output = { λ _. Some reduction_text };

    fn fmt<W: fmt::Write>(&self, f: &mut fmt::Formatter<W>) -> fmt::Result {
        f.write_str(
            "the max capacity limit could not be reduced, because the capacity would also need to be reduced to equal it, and the capacity could not be reduced in this case",
        )
    }
}

impl Error for NotWithinCapacityError {}

impl Error for ReallocationError {}

impl Error for MaxCapacityReductionError {}
