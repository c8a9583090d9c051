ghost use Rattle.std.specs.Prelude.{◌≡◌, ℕ, length};
ghost use Rattle.stack.specs.Outcomes.{of_limit};
ghost use Rattle.stack.specs.Limits.{limit_answer, Bounded};

use crate::error::MaxCapacityReductionError;
use crate::generic::NonZeroInxGenericStack;

/// A stack whose maximum can be set.
pub trait SetMaxCapacity: NonZeroInxGenericStack {
    // what a stack becomes under a new limit
    ghost relimited: { Self → ℕ → Self → Type 0 };

    /// Sets the maximum; 8 where the slots exceed it, and then nothing changes.
    fn set_max_capacity(&mut self, limit: usize) -> Result<(), MaxCapacityReductionError>
        ensures answer { of_limit result ≡ limit_answer (length (Self.list self.old)) limit }
        ensures slots { Self.list self.new ≡ Self.list self.old }
        ensures limited { relimited self.old limit self.new }
        ensures bounded { Bounded Self.room Self.limit (length (Self.list self.old)) limit (Self.config self.old) (Self.config self.new) };
}
