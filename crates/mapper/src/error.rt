ghost use Rattle.std.specs.Prelude.{Some};
ghost use Rattle.mapper.specs.Texts.{not_held_text};

use std::error::Error;
use std::fmt;

/// A pointer that the directory does not hold: refusal 9.
#[derive(Clone, Copy, Debug, PartialEq, Eq)]
pub struct NotHeldError<V> {
    pub pointer: V,
}

impl<V> fmt::Display for NotHeldError<V> {
    ghost output = { λ _. Some not_held_text };

    fn fmt<W: fmt::Write>(&self, f: &mut fmt::Formatter<W>) -> fmt::Result {
        f.write_str("the directory does not hold this pointer")
    }
}

impl<V: fmt::Debug + Drop> Error for NotHeldError<V> {}
