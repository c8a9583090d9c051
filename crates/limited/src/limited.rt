ghost use Rattle.std.specs.Prelude.{◌≡◌, ℕ, ◌≤◌, min, [], length, Some};

use stack::{
    MaxCapacityReductionError, NonZeroInxGenericStack, NotWithinCapacityError, ReallocationError,
    SetMaxCapacity,
};

/// Any stack, under a limit.
#[derive(Drop)]
pub struct LimitedStack<S: NonZeroInxGenericStack> {
    below: S,
    limit: usize,
    ghost within: { length (S.list below) ≤ limit },
}

impl<S: NonZeroInxGenericStack> LimitedStack<S> {
    ghost use Rattle.limited.specs.Limited.{limited_below, limited_list, limited_config};

    /// The stack below, emptied; the limit is at first its capacity.
    pub fn new(mut below: S) -> Self
        ensures slots { limited_list result ≡ [] }
        ensures kept { (limited_config result).0 ≡ S.config below }
        ensures limit { (limited_config result).1 ≡ S.room (S.config below) }
    {
        below.clear();
        let limit = below.capacity();
        LimitedStack { below, limit }
    }

    /// The stack below, as it is.
    pub fn into_inner(self) -> S
        ensures { result ≡ limited_below self }
    {
        let LimitedStack { below, .. } = self;
        below
    }
}

impl<S: NonZeroInxGenericStack> NonZeroInxGenericStack for LimitedStack<S> {
    type Slot = S::Slot;

    ghost use Rattle.limited.specs.Limited.{lower, limited_list, limited_config, LimitedRegrown};
    ghost use Rattle.limited.specs.LimitedLaws.{limited_laws};

    ghost Config = { S.Config × ℕ };

    ghost list = { limited_list };

    ghost config = { limited_config };

    ghost room = { λ c. min c.1 (S.room c.0) };

    ghost limit = { λ c. Some (lower c.1 (S.limit c.0)) };

    ghost regrown = { LimitedRegrown S.NonZeroInxGenericStack };

    ghost laws = { limited_laws S.NonZeroInxGenericStack };

    fn capacity(&self) -> usize {
        self.below.capacity().min(self.limit)
    }

    fn max_capacity(&self) -> Option<usize> {
        let limit = self.limit;
        Some(
            self.below
                .max_capacity()
                .map_or(limit, |most| most.min(limit)),
        )
    }

    fn len(&self) -> usize {
        self.below.len()
    }

    fn get(&self, n: usize) -> Option<S::Slot> {
        self.below.get(n)
    }

    fn replace(&mut self, n: usize, u: S::Slot) -> Option<S::Slot> {
        self.below.replace(n, u)
    }

    fn push_within_capacity(&mut self, u: S::Slot) -> Result<(), NotWithinCapacityError> {
        if self.below.len() >= self.limit {
            return Err(NotWithinCapacityError);
        }
        self.below.push_within_capacity(u)
    }

    fn pop(&mut self) -> Option<S::Slot> {
        self.below.pop()
    }

    fn clear(&mut self) {
        self.below.clear()
    }

    fn reallocate_min_capacity(&mut self, r: usize) -> Result<(), ReallocationError> {
        if self.max_capacity().is_some_and(|most| r > most) {
            return Err(ReallocationError::BeyondMaxCapacity);
        }
        self.below.reallocate_min_capacity(r)
    }
}

impl<S: NonZeroInxGenericStack> SetMaxCapacity for LimitedStack<S> {
    ghost use Rattle.limited.specs.Limited.{LimitedRelimited};

    ghost relimited = { LimitedRelimited S.NonZeroInxGenericStack };

    fn set_max_capacity(&mut self, limit: usize) -> Result<(), MaxCapacityReductionError> {
        if limit < self.below.len() {
            return Err(MaxCapacityReductionError);
        }
        self.limit = limit;
        Ok(())
    }
}
