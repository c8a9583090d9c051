// The mapper of a script: it corrects values, and remembers the pairs of pointers that it was shown.
ghost use Rattle.std.specs.Prelude.{◌≡◌, min, ◌+◌};

use crate::kind::Kind;
use crate::value::Value;
use crate::word::number;
use mapper::Mapper;
use std::alloc::Global;

/// What is added to the values that are shown, one after the other: after each value the sum grows by the step.
#[derive(Clone, Copy, Debug, PartialEq, Eq)]
pub struct Correction {
    pub step: u32,
    pub sum: u32,
}

impl Correction {
    /// `5` adds 5 to each value; `*5` adds 5 to the first, 10 to the second, and so on.
    pub fn read(text: &[u8]) -> Option<Correction> {
        match text {
            [b'*', running @ ..] => {
                let step = number(running)?;
                Some(Correction { step, sum: step })
            }
            _ => Some(Correction {
                step: 0,
                sum: number(text)?,
            }),
        }
    }

    /// What the first value gets: 0 exactly if no value is altered.
    pub fn amount(self) -> u32
        ensures { result ≡ self.sum }
    {
        self.sum
    }
}

/// Corrects values, and keeps the pointers of each record that it was shown.
#[derive(Drop)]
pub struct Witness<P: Kind> {
    correction: Correction,
    pairs: Vec<(P, P)>,
    short_of_memory: bool,
}

impl<P: Kind> Witness<P> {
    pub fn new(heap: Global, correction: Correction) -> Self {
        Witness {
            correction,
            pairs: Vec::new(heap),
            short_of_memory: false,
        }
    }

    /// The old and the new pointer of each record, in the order shown; none where memory did not suffice for them.
    pub fn pairs(&self) -> Option<&[(P, P)]> {
        (!self.short_of_memory).then_some(self.pairs.as_slice())
    }
}

impl<P: Kind, V: Value<P>> Mapper<P, P, V, V> for Witness<P> {
    ghost use Rattle.call_script.specs.declared.correction.Correction.{Correction};

    ghost State = { Correction };

    ghost state = { λ w. w.correction };

    ghost next = { λ c _ _ _. record { step = c.step; sum = min (c.sum + c.step) 4294967295 } };

    ghost mapped = { λ c _ _ v. V.corrected v c.sum };

    fn map(&mut self, old: P, new: P, value: V) -> V {
        let amount = self.correction.sum;
        self.correction.sum = amount.saturating_add(self.correction.step);
        self.short_of_memory |= self.pairs.push((old, new)).is_err();
        value.correct(amount)
    }
}
