ghost use Rattle.std.specs.Prelude.{◌≡◌, Some};
ghost use Rattle.arena.specs.Texts.{arena_reallocation_text};
ghost use Rattle.arena.specs.declared.error.ArenaReallocationError.TheVariants.{Stack};

use stack::ReallocationError;
use std::error::Error;
use std::fmt;

/// Why an arena was given no room: its stack's fault, refusal 6 or 7, or no index for so many slots, refusal 7.
#[derive(Clone, Copy, Debug, PartialEq, Eq)]
pub enum ArenaReallocationError {
    Stack(ReallocationError),
    BeyondIndices,
}

impl fmt::Display for ArenaReallocationError {
    ghost output = { λ e. Some (arena_reallocation_text e) };

    fn fmt<W: fmt::Write>(&self, f: &mut fmt::Formatter<W>) -> fmt::Result {
        match self {
            ArenaReallocationError::Stack(fault) => {
                write!(f, "the stack of the arena was given no room: {fault}")
            }
            ArenaReallocationError::BeyondIndices => {
                f.write_str("a capacity beyond the largest index was asked for")
            }
        }
    }
}

impl Error for ArenaReallocationError {}

impl From<ReallocationError> for ArenaReallocationError {
    ghost from_gives = { λ e r. r ≡ Stack e };

    fn from(error: ReallocationError) -> Self {
        ArenaReallocationError::Stack(error)
    }
}
