// What a line means.
ghost use Rattle.std.specs.Prelude.{◌≡◌, Ok};
ghost use Rattle.text.specs.Fields.{four_in};
ghost use Rattle.text.specs.Number.{field_of};
ghost use Rattle.lines.specs.Meaning.{field_or_unfit, with_verb, meaning};
ghost use Rattle.lines.specs.Texts.{InRange, call_text};
ghost use Rattle.lines.specs.Verb.{verb_of};

use crate::call::{Call, call_of};
use crate::error::LineError;
use crate::verb::Verb;
use text::number::read_field;
use text::split::{Fields, four_fields};

const LONGEST: usize = 80;

/// Slots have 16 bits.
pub fn read_slot(bytes: &[u8]) -> Result<Option<u16>, LineError>
    ensures { result ≡ field_or_unfit (field_of 65535 bytes.now) }
{
    let slot = read_field(bytes, 65535)?;
    slot.map(u16::try_from)
        .transpose()
        .map_err(|_| LineError::Unfit)
}

// The name is looked at first: an unknown call has no fields to be wrong.
fn parse_fields(fields: Fields<'_>) -> Result<Call, LineError>
    ensures { result ≡ with_verb (verb_of fields.entry.call.now) (four_in fields.entry) }
{
    let verb = Verb::try_from(fields.call)?;
    let slot = read_slot(fields.slot)?;
    let generation = read_field(fields.generation, u32::MAX)?;
    let value = read_field(fields.value, u32::MAX)?;
    call_of(verb, Ok(slot), Ok(generation), Ok(value)).ok_or(LineError::Unfit)
}

/// A line asks for a call only by the call's one text, and that text always does.
pub fn parse(line: &[u8]) -> Result<Call, LineError>
    ensures meaning { result ≡ meaning line.now }
    ensures only { (c : Call) → result ≡ Ok c → InRange c × (line.now ≡ call_text c) }
    ensures each { (c : Call) → InRange c → line.now ≡ call_text c → result ≡ Ok c }
{
    if line.len() > LONGEST {
        return Err(LineError::Unknown); // no call has so long a text
    }
    parse_fields(four_fields(line).ok_or(LineError::Unknown)?)
}
