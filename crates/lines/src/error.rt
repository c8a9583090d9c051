// Why a line asks for no call.
ghost use Rattle.std.specs.Prelude.{◌≡◌};
ghost use Rattle.lines.specs.declared.error.LineError.TheVariants.{Unfit};

use text::number::FieldError;

/// Why a line asks for no call.
#[derive(Clone, Copy, Debug, PartialEq, Eq)]
pub enum LineError {
    /// It is no line of a known call.
    Unknown,
    /// A field is not as its call wants it.
    Unfit,
}

impl From<FieldError> for LineError {
    ghost from_gives = { λ _ e. e ≡ Unfit };

    fn from(_error: FieldError) -> Self {
        Self::Unfit
    }
}
