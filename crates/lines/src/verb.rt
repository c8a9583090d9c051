// The names of the calls.
ghost use Rattle.std.specs.Prelude.{◌≡◌};
ghost use Rattle.std.specs.Option.{ok_or};
ghost use Rattle.lines.specs.Verb.{verb_of};
ghost use Rattle.lines.specs.declared.error.LineError.TheVariants.{Unknown};

use crate::error::LineError;

/// A call's name, before its fields are looked at.
#[derive(Clone, Copy, Debug, PartialEq, Eq)]
pub enum Verb {
    Insert,
    Edit,
    Get,
    Remove,
    Trim,
    Reserve,
    Limit,
    Clear,
    Compress,
    Recast,
}

/// `Unknown` for a name that no call has.
impl TryFrom<&[u8]> for Verb {
    type Error = LineError;

    ghost try_from_gives = { λ name r. r ≡ ok_or (verb_of name.now) Unknown };

    fn try_from(name: &[u8]) -> Result<Self, LineError> {
        match name {
            b"insert" => Ok(Verb::Insert),
            b"edit" => Ok(Verb::Edit),
            b"get" => Ok(Verb::Get),
            b"remove" => Ok(Verb::Remove),
            b"trim" => Ok(Verb::Trim),
            b"reserve" => Ok(Verb::Reserve),
            b"limit" => Ok(Verb::Limit),
            b"clear" => Ok(Verb::Clear),
            b"compress" => Ok(Verb::Compress),
            b"recast" => Ok(Verb::Recast),
            _ => Err(LineError::Unknown),
        }
    }
}
