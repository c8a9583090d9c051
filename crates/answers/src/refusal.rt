// Why a call was refused, and the number that is printed for it.
ghost use Rattle.std.specs.Prelude.{◌≡◌, Some, Err, decimal};
ghost use Rattle.answers.specs.Refusals.{number_of, line_number};
ghost use Rattle.outcome.specs.Outcome.{refused};
ghost use Rattle.stack.specs.Outcomes.{of_limit};
ghost use Rattle.slots.specs.Outcomes.{of_insertion};
ghost use Rattle.mapper.specs.Outcomes.{of_recast};
ghost use Rattle.arena.specs.Outcomes.{of_arena_reallocation};
ghost use Rattle.directory.specs.Outcomes.{of_directory};

use arena::ArenaReallocationError;
use directory::DirectoryError;
use lines::error::LineError;
use mapper::NotHeldError;
use slots::DirectInsertionError;
use stack::{MaxCapacityReductionError, ReallocationError};
use std::fmt;

/// Why a call was refused. No report shows 4 or 5: a script asks for no list edit. The register's own shows no 10
/// either, since its directory has room for each of its slots.
#[derive(Clone, Copy, Debug, PartialEq, Eq)]
pub enum Refusal {
    NotWithinCapacity = 1,
    SlotTaken = 2,
    NotFound = 3,
    BeyondMaxCapacity = 6,
    /// No memory, no lent slot or no index for it.
    NoMemory = 7,
    LimitBelowSlots = 8,
    /// A directory does not hold the pointer.
    NotHeld = 9,
    NoRoomForReport = 10,
    NotAScript = 11,
    UnknownCall = 12,
    UnfitField = 13,
}

impl Refusal {
    /// The number under which the rules, and a report, know it.
    pub fn number(self) -> u8
        ensures { result ≡ number_of self }
    {
        self as u8 // how a discriminant is read
    }
}

impl fmt::Display for Refusal {
    ghost output = { λ r. Some (decimal (number_of r)) };

    fn fmt<W: fmt::Write>(&self, f: &mut fmt::Formatter<W>) -> fmt::Result {
        write!(f, "{}", self.number())
    }
}

impl From<DirectInsertionError> for Refusal {
    ghost from_gives = { λ e r. refused (number_of r) ≡ of_insertion (Err e) };

    fn from(error: DirectInsertionError) -> Self {
        match error {
            DirectInsertionError::NotWithinCapacity => Refusal::NotWithinCapacity,
            DirectInsertionError::ExistingElementAtIndex => Refusal::SlotTaken,
        }
    }
}

impl From<ArenaReallocationError> for Refusal {
    ghost from_gives = { λ e r. refused (number_of r) ≡ of_arena_reallocation (Err e) };

    fn from(error: ArenaReallocationError) -> Self {
        match error {
            ArenaReallocationError::Stack(ReallocationError::BeyondMaxCapacity) => {
                Refusal::BeyondMaxCapacity
            }
            ArenaReallocationError::Stack(ReallocationError::AllocError)
            | ArenaReallocationError::BeyondIndices => Refusal::NoMemory,
        }
    }
}

impl From<MaxCapacityReductionError> for Refusal {
    ghost from_gives = { λ e r. refused (number_of r) ≡ of_limit (Err e) };

    fn from(_error: MaxCapacityReductionError) -> Self {
        Refusal::LimitBelowSlots
    }
}

impl From<DirectoryError> for Refusal {
    ghost from_gives = { λ e r. refused (number_of r) ≡ of_directory (Err e) };

    fn from(_error: DirectoryError) -> Self {
        Refusal::NoRoomForReport
    }
}

impl<V: Drop> From<NotHeldError<V>> for Refusal {
    ghost from_gives = { λ e r. refused (number_of r) ≡ of_recast {X = Unit {0}} (Err e) };

    fn from(_error: NotHeldError<V>) -> Self {
        Refusal::NotHeld
    }
}

impl From<LineError> for Refusal {
    ghost from_gives = { λ e r. number_of r ≡ line_number e };

    fn from(error: LineError) -> Self {
        match error {
            LineError::Unknown => Refusal::UnknownCall,
            LineError::Unfit => Refusal::UnfitField,
        }
    }
}
