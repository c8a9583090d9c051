ghost use Rattle.std.specs.Prelude.{Some};
ghost use Rattle.bulk.specs.Texts.{disjoint_text};

use std::error::Error;
use std::fmt;

/// A list edit that names a record that is not there, refusal 4, or a slot twice, refusal 5.
#[derive(Clone, Copy, Debug, PartialEq, Eq)]
pub enum GetDisjointMutError {
    IndexOutOfBounds,
    OverlappingIndices,
}

impl fmt::Display for GetDisjointMutError {
    ghost output = { λ e. Some (disjoint_text e) };

    fn fmt<W: fmt::Write>(&self, f: &mut fmt::Formatter<W>) -> fmt::Result {
        f.write_str(match self {
            GetDisjointMutError::IndexOutOfBounds => "an index is out of bounds",
            GetDisjointMutError::OverlappingIndices => "there were overlapping indices",
        })
    }
}

impl Error for GetDisjointMutError {}
