// What a line of a season means.
ghost use Rattle.std.specs.Prelude.{◌≡◌, Ok};
ghost use Rattle.text.specs.Fields.{four_in};
ghost use Rattle.season.specs.Meaning.{is_shared, cited_by, meaning};
ghost use Rattle.season.specs.Texts.{InRange, call_text};

use crate::call::{Call, of_runner};
use lines::error::LineError;
use lines::parse::{parse as parse_shared, read_slot};
use text::number::read_field;
use text::split::{Fields, four_fields};
use text::word::is_word;

const LONGEST: usize = 80;

// A citation wants a slot and a generation, and a blank for the value.
fn parse_cite(fields: Fields<'_>) -> Result<Call, LineError>
    ensures { result ≡ cited_by (four_in fields.entry) }
{
    let slot = read_slot(fields.slot)?;
    let generation = read_field(fields.generation, u32::MAX)?;
    let value = read_field(fields.value, u32::MAX)?;
    match (slot, generation, value) {
        (Some(slot), Some(generation), None) => Ok(Call::Cite { slot, generation }),
        _ => Err(LineError::Unfit),
    }
}

// Whether the name is that of a call which the runner has too.
fn is_shared(name: &[u8]) -> bool
    ensures { result ≡ is_shared name.now }
{
    is_word(name, b"insert")
        || is_word(name, b"remove")
        || is_word(name, b"edit")
        || is_word(name, b"compress")
}

/// The name is looked at first: the runner's other calls are unknown here, whatever their fields.
pub fn parse(line: &[u8]) -> Result<Call, LineError>
    ensures meaning { result ≡ meaning line.now }
    ensures only { (c : Call) → result ≡ Ok c → InRange c × (line.now ≡ call_text c) }
    ensures each { (c : Call) → InRange c → line.now ≡ call_text c → result ≡ Ok c }
{
    if line.len() > LONGEST {
        return Err(LineError::Unknown); // no call has so long a text
    }
    let fields = four_fields(line).ok_or(LineError::Unknown)?;
    if is_word(fields.call, b"cite") {
        return parse_cite(fields);
    }
    if !is_shared(fields.call) {
        return Err(LineError::Unknown);
    }
    of_runner(parse_shared(line)?)
}
