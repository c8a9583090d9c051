// The calls that a line of a season can ask for.
ghost use Rattle.std.specs.Prelude.{◌≡◌};
ghost use Rattle.season.specs.Meaning.{of_runner};

use lines::call::Call as RunnerCall;
use lines::error::LineError;

/// A call with the fields that it wants, and no others.
#[derive(Clone, Copy, Debug, PartialEq, Eq)]
pub enum Call {
    Insert {
        slot: u16,
        generation: u32,
        value: u32,
    },
    Remove {
        slot: u16,
        generation: u32,
    },
    Edit {
        slot: u16,
        generation: u32,
        value: u32,
    },
    Compress,
    /// A paper that is written at this moment cites the pointer.
    Cite {
        slot: u16,
        generation: u32,
    },
}

/// The runner's call, where a season has it too.
pub fn of_runner(call: RunnerCall) -> Result<Call, LineError>
    ensures { result ≡ of_runner call }
{
    match call {
        RunnerCall::Insert {
            slot,
            generation,
            value,
        } => Ok(Call::Insert {
            slot,
            generation,
            value,
        }),
        RunnerCall::Remove { slot, generation } => Ok(Call::Remove { slot, generation }),
        RunnerCall::Edit {
            slot,
            generation,
            value,
        } => Ok(Call::Edit {
            slot,
            generation,
            value,
        }),
        RunnerCall::Compress => Ok(Call::Compress),
        _ => Err(LineError::Unknown),
    }
}
