ghost use Rattle.std.specs.Prelude.{◌≡◌, false};
ghost use Rattle.outcome.specs.Invalidation.{succeeded, overflowed_in, value, strictly, flagged, went_well, went_over, went_nowhere, value_in, strictly_in, flagged_in, settled};

// Both enums, and their methods one by one, are the Rust crate's: its names are kept, a rule of this project.

/// The answer of a call that always succeeds, and may have used up a generation counter.
#[derive(Clone, Copy, Debug, PartialEq, Eq)]
#[must_use]
pub enum InvalidationOption<T> {
    Success(T),
    GenerationOverflow(T),
}

impl<T> InvalidationOption<T> {
    pub fn is_success(&self) -> bool
        ensures { result ≡ succeeded self.now }
    {
        matches!(self, InvalidationOption::Success(_))
    }

    pub fn is_overflow(&self) -> bool
        ensures { result ≡ overflowed_in self.now }
    {
        matches!(self, InvalidationOption::GenerationOverflow(_))
    }

    /// The value, whether or not a counter was used up.
    pub fn allow(self) -> T
        ensures { result ≡ value self }
    {
        match self {
            InvalidationOption::Success(t) | InvalidationOption::GenerationOverflow(t) => t,
        }
    }

    /// The value, as an error where a counter was used up.
    pub fn strict(self) -> Result<T, T>
        ensures { result ≡ strictly self }
    {
        match self {
            InvalidationOption::Success(t) => Ok(t),
            InvalidationOption::GenerationOverflow(t) => Err(t),
        }
    }

    /// The value, and whether a counter was used up.
    pub fn overflowing(self) -> (T, bool)
        ensures { result ≡ flagged self }
    {
        match self {
            InvalidationOption::Success(t) => (t, false),
            InvalidationOption::GenerationOverflow(t) => (t, true),
        }
    }
}

/// The answer of a call that a pointer may be unfit for.
#[derive(Clone, Copy, Debug, PartialEq, Eq)]
#[must_use]
pub enum InvalidationResult<T> {
    Success(T),
    GenerationOverflow(T),
    InvalidPtr,
}

impl<T> InvalidationResult<T> {
    pub fn is_success(&self) -> bool
        ensures { result ≡ went_well self.now }
    {
        matches!(self, InvalidationResult::Success(_))
    }

    pub fn is_overflow(&self) -> bool
        ensures { result ≡ went_over self.now }
    {
        matches!(self, InvalidationResult::GenerationOverflow(_))
    }

    pub fn is_invalid(&self) -> bool
        ensures { result ≡ went_nowhere self.now }
    {
        matches!(self, InvalidationResult::InvalidPtr)
    }

    /// The value, where the pointer was fit.
    #[must_use]
    pub fn allow(self) -> Option<T>
        ensures { result ≡ value_in self }
    {
        match self {
            InvalidationResult::Success(t) | InvalidationResult::GenerationOverflow(t) => Some(t),
            InvalidationResult::InvalidPtr => None,
        }
    }

    /// The value, as an error where a counter was used up; an empty error where the pointer was unfit.
    pub fn strict(self) -> Result<T, Option<T>>
        ensures { result ≡ strictly_in self }
    {
        match self {
            InvalidationResult::Success(t) => Ok(t),
            InvalidationResult::GenerationOverflow(t) => Err(Some(t)),
            InvalidationResult::InvalidPtr => Err(None),
        }
    }

    /// The value, where the pointer was fit, and whether a counter was used up.
    pub fn overflowing(self) -> (Option<T>, bool)
        ensures { result ≡ flagged_in self }
    {
        match self {
            InvalidationResult::Success(t) => (Some(t), false),
            InvalidationResult::GenerationOverflow(t) => (Some(t), true),
            InvalidationResult::InvalidPtr => (None, false),
        }
    }

    /// The answer of a call whose pointer is known to be fit.
    pub fn unwrap(self) -> InvalidationOption<T>
        requires { went_nowhere self ≡ false }
        ensures { settled result ≡ self }
    {
        match self {
            InvalidationResult::Success(t) => InvalidationOption::Success(t),
            InvalidationResult::GenerationOverflow(t) => InvalidationOption::GenerationOverflow(t),
            InvalidationResult::InvalidPtr => unreachable!(),
        }
    }
}
