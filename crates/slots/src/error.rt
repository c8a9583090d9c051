ghost use Rattle.std.specs.Prelude.{Some};
ghost use Rattle.slots.specs.Texts.{insertion_text};

use std::error::Error;
use std::fmt;

/// An insertion beyond the capacity, refusal 1, or at a slot that is taken, refusal 2.
#[derive(Clone, Copy, Debug, PartialEq, Eq)]
pub enum DirectInsertionError {
    NotWithinCapacity,
    ExistingElementAtIndex,
}

impl fmt::Display for DirectInsertionError {
    ghost output = { λ e. Some (insertion_text e) };

    fn fmt<W: fmt::Write>(&self, f: &mut fmt::Formatter<W>) -> fmt::Result {
        f.write_str(match self {
            DirectInsertionError::NotWithinCapacity => {
                "a direct insertion index points to an internal slot that does not fit within existing capacity"
            }
            DirectInsertionError::ExistingElementAtIndex => {
                "a direct insertion index points to an internal slot where there is already an existing element"
            }
        })
    }
}

impl Error for DirectInsertionError {}
