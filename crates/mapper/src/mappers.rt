ghost use Rattle.std.specs.Prelude.{ℕ, min, ◌+◌};

use crate::generic::Mapper;

/// Leaves each value as it is.
#[derive(Clone, Copy, Debug, PartialEq, Eq)]
pub struct KeepValues;

impl<Q: Copy, P: Copy, V: Copy> Mapper<Q, P, V, V> for KeepValues {
    ghost State = { Unit {0} };

    ghost state = { λ _. tt };

    ghost next = { λ w _ _ _. w };

    ghost mapped = { λ _ _ _ v. v };

    fn map(&mut self, _old: Q, _new: P, value: V) -> V {
        value
    }
}

/// Adds a correction to each value; a sum above the largest number is that number.
#[derive(Clone, Copy, Debug, PartialEq, Eq)]
pub struct AddCorrection {
    pub correction: u32,
}

impl<Q: Copy, P: Copy> Mapper<Q, P, u32, u32> for AddCorrection {
    ghost State = { ℕ };

    ghost state = { λ m. m.correction };

    ghost next = { λ c _ _ _. c };

    ghost mapped = { λ c _ _ v. min (c + v) 4294967295 };

    fn map(&mut self, _old: Q, _new: P, value: u32) -> u32 {
        self.correction.saturating_add(value)
    }
}
