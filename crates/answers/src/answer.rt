// What an answer holds, and how it is shown.
ghost use Rattle.std.specs.Prelude.{Some};
ghost use Rattle.answers.specs.Shown.{concerned_text, tally_text, reply_of, reply_text};

use crate::refusal::Refusal;
use std::fmt;

/// The pointer and the value that a call was about.
#[derive(Clone, Copy, Debug, PartialEq, Eq)]
pub enum Concerned {
    Record {
        slot: u16,
        generation: u32,
        value: u32,
    },
    Pointer {
        slot: u16,
        generation: u32,
    },
    Value(u32),
    Nothing,
}

/// How much is held after the call, refused or not.
#[derive(Clone, Copy, Debug, PartialEq, Eq)]
pub struct Tally {
    pub count: usize,
    pub slots: usize,
    pub capacity: usize,
}

/// One answer, for one line.
#[derive(Clone, Copy, Debug, PartialEq, Eq)]
pub struct Answer {
    pub verdict: Result<Concerned, Refusal>,
    pub tally: Tally,
}

impl fmt::Display for Concerned {
    ghost output = { λ c. Some (concerned_text c) };

    fn fmt<W: fmt::Write>(&self, f: &mut fmt::Formatter<W>) -> fmt::Result {
        match self {
            Concerned::Record {
                slot,
                generation,
                value,
            } => write!(f, "{slot} {generation} {value}"),
            Concerned::Pointer { slot, generation } => write!(f, "{slot} {generation} -"),
            Concerned::Value(value) => write!(f, "- - {value}"),
            Concerned::Nothing => write!(f, "- - -"),
        }
    }
}

impl fmt::Display for Tally {
    ghost output = { λ t. Some (tally_text t) };

    fn fmt<W: fmt::Write>(&self, f: &mut fmt::Formatter<W>) -> fmt::Result {
        write!(f, "{} {} {}", self.count, self.slots, self.capacity)
    }
}

impl fmt::Display for Answer {
    ghost output = { λ a. Some (reply_text (reply_of a)) };

    // A refusal shows no pointer and no value: its number tells all.
    fn fmt<W: fmt::Write>(&self, f: &mut fmt::Formatter<W>) -> fmt::Result {
        match self.verdict {
            Ok(concerned) => write!(f, "ok {concerned} {}", self.tally),
            Err(refusal) => write!(f, "{refusal} {} {}", Concerned::Nothing, self.tally),
        }
    }
}
