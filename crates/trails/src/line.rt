// The lines that are written of a season.
ghost use Rattle.std.specs.Prelude.{Some};
ghost use Rattle.trails.specs.Lines.{pointer_text, line_text};

use answers::refusal::Refusal;
use numbering::Pointer;
use std::fmt;

/// A pointer as papers write it.
#[derive(Clone, Copy, Debug, PartialEq, Eq)]
pub struct Written(pub Pointer);

impl fmt::Display for Written {
    ghost output = { λ w. Some (pointer_text w.0) };

    fn fmt<W: fmt::Write>(&self, f: &mut fmt::Formatter<W>) -> fmt::Result {
        write!(f, "{} {}", self.0.inx.raw, self.0.generation.season)
    }
}

/// One line of what is written.
#[derive(Clone, Copy, Debug, PartialEq, Eq)]
pub enum Line {
    /// The input is no season.
    NoSeason(Refusal),
    Refused {
        line: usize,
        refusal: Refusal,
    },
    Totals {
        compressions: usize,
        records: usize,
    },
    Cites {
        line: usize,
        pointer: Pointer,
    },
    Moved {
        compression: usize,
        old: Pointer,
        new: Pointer,
    },
    Ended {
        compression: usize,
        pointer: Pointer,
    },
    Today {
        pointer: Pointer,
        value: u32,
    },
    EndedToday(Pointer),
    RefusedToday(Refusal),
}

impl fmt::Display for Line {
    ghost output = { λ l. Some (line_text l) };

    fn fmt<W: fmt::Write>(&self, f: &mut fmt::Formatter<W>) -> fmt::Result {
        match self {
            Line::NoSeason(refusal) => write!(f, "refused, {refusal}"),
            Line::Refused { line, refusal } => write!(f, "line {line}: refused, {refusal}"),
            Line::Totals {
                compressions,
                records,
            } => write!(f, "compressions {compressions}, records {records}"),
            Line::Cites { line, pointer } => write!(f, "line {line} cites {}", Written(*pointer)),
            Line::Moved {
                compression,
                old,
                new,
            } => write!(
                f,
                "compression {compression}: {} -> {}",
                Written(*old),
                Written(*new)
            ),
            Line::Ended {
                compression,
                pointer,
            } => write!(
                f,
                "compression {compression}: {} is no longer there",
                Written(*pointer)
            ),
            Line::Today { pointer, value } => {
                write!(f, "today: {} value {value}", Written(*pointer))
            }
            Line::EndedToday(pointer) => write!(
                f,
                "today: {} is no longer there",
                Written(*pointer)
            ),
            Line::RefusedToday(refusal) => write!(f, "today: refused, {refusal}"),
        }
    }
}
