// What stands in a record: a number, or in a directory a pointer.
ghost use Rattle.std.specs.Prelude.{◌≡◌, ℕ, min, ◌+◌};

use crate::kind::{Kind, write_pointer};
use crate::word::Fault;
use kinds::PtrOf;
use std::alloc::AllocError;

/// A value as a call gives it, before it is known what the arena named holds.
#[derive(Clone, Copy)]
pub enum Datum<P> {
    Number(u32),
    Pointer(P),
}

/// The values of an arena of a script.
pub trait Value<P: Kind>: Copy {
    // the value after a correction
    ghost corrected: { Self → ℕ → Self };

    /// The value that is given, if it is one of these.
    fn of(datum: Datum<P>) -> Result<Self, Fault>;

    fn write(self, out: &mut String) -> Result<(), AllocError>;

    /// Whether values can be corrected by this: pointers stay as they are.
    fn admits(amount: u32) -> bool;

    fn correct(self, amount: u32) -> Self
        ensures { result ≡ corrected self amount };
}

impl<P: Kind> Value<P> for u32 {
    ghost corrected = { λ v a. min (v + a) 4294967295 };

    fn of(datum: Datum<P>) -> Result<u32, Fault> {
        match datum {
            Datum::Number(n) => Ok(n),
            Datum::Pointer(_) => Err(Fault::Malformed),
        }
    }

    fn write(self, out: &mut String) -> Result<(), AllocError> {
        write!(out, "{self}")
    }

    fn admits(_amount: u32) -> bool {
        true
    }

    fn correct(self, amount: u32) -> u32 {
        self.saturating_add(amount)
    }
}

impl<I: Copy, G: Copy> Value<PtrOf<I, G>> for PtrOf<I, G>
where
    PtrOf<I, G>: Kind,
{
    ghost corrected = { λ p _. p };

    fn of(datum: Datum<PtrOf<I, G>>) -> Result<PtrOf<I, G>, Fault> {
        match datum {
            Datum::Number(_) => Err(Fault::Malformed),
            Datum::Pointer(p) => Ok(p),
        }
    }

    fn write(self, out: &mut String) -> Result<(), AllocError> {
        write_pointer(self, out)
    }

    fn admits(amount: u32) -> bool {
        amount == 0
    }

    fn correct(self, _amount: u32) -> PtrOf<I, G> {
        self
    }
}
