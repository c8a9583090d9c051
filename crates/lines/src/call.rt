// The calls that a line can ask for.
ghost use Rattle.std.specs.Prelude.{◌≡◌};
ghost use Rattle.lines.specs.Call.{asked};

use crate::verb::Verb;
use text::number::FieldError;

/// A call with the fields that it wants, and no others.
#[derive(Clone, Copy, Debug, PartialEq, Eq)]
pub enum Call {
    Insert {
        slot: u16,
        generation: u32,
        value: u32,
    },
    Edit {
        slot: u16,
        generation: u32,
        value: u32,
    },
    Get {
        slot: u16,
        generation: u32,
    },
    Remove {
        slot: u16,
        generation: u32,
    },
    Trim {
        count: u32,
    },
    Reserve {
        request: u32,
    },
    Limit {
        limit: u32,
    },
    Clear,
    Compress,
    Recast {
        slot: u16,
        generation: u32,
    },
}

/// None where a wanted field is no number, or any other is no blank.
pub fn call_of(
    verb: Verb,
    slot: Result<Option<u16>, FieldError>,
    generation: Result<Option<u32>, FieldError>,
    value: Result<Option<u32>, FieldError>,
) -> Option<Call>
    ensures { result ≡ asked verb slot generation value }
{
    match (verb, slot.ok()?, generation.ok()?, value.ok()?) {
        (Verb::Insert, Some(slot), Some(generation), Some(value)) => Some(Call::Insert {
            slot,
            generation,
            value,
        }),
        (Verb::Edit, Some(slot), Some(generation), Some(value)) => Some(Call::Edit {
            slot,
            generation,
            value,
        }),
        (Verb::Get, Some(slot), Some(generation), None) => Some(Call::Get { slot, generation }),
        (Verb::Remove, Some(slot), Some(generation), None) => {
            Some(Call::Remove { slot, generation })
        }
        (Verb::Trim, None, None, Some(count)) => Some(Call::Trim { count }),
        (Verb::Reserve, None, None, Some(request)) => Some(Call::Reserve { request }),
        (Verb::Limit, None, None, Some(limit)) => Some(Call::Limit { limit }),
        (Verb::Clear, None, None, None) => Some(Call::Clear),
        (Verb::Compress, None, None, None) => Some(Call::Compress),
        (Verb::Recast, Some(slot), Some(generation), None) => {
            Some(Call::Recast { slot, generation })
        }
        _ => None,
    }
}
