ghost use Rattle.std.specs.Prelude.{◌≡◌, Some};
ghost use Rattle.directory.specs.Texts.{directory_text};
ghost use Rattle.directory.specs.declared.error.DirectoryError.TheVariants.{NoRoom};

use arena::ArenaReallocationError;
use std::error::Error;
use std::fmt;

/// A directory whose arena was given no room for a report: refusal 10.
#[derive(Clone, Copy, Debug, PartialEq, Eq)]
pub enum DirectoryError {
    NoRoom(ArenaReallocationError),
}

impl fmt::Display for DirectoryError {
    ghost output = { λ e. Some (directory_text e) };

    fn fmt<W: fmt::Write>(&self, f: &mut fmt::Formatter<W>) -> fmt::Result {
        match self {
            DirectoryError::NoRoom(fault) => {
                write!(f, "the directory was given no room for a report: {fault}")
            }
        }
    }
}

impl Error for DirectoryError {}

impl From<ArenaReallocationError> for DirectoryError {
    ghost from_gives = { λ e r. r ≡ NoRoom e };

    fn from(error: ArenaReallocationError) -> Self {
        DirectoryError::NoRoom(error)
    }
}
