ghost use Rattle.std.specs.Prelude.{◌≡◌};
ghost use Rattle.answers.specs.Refusals.{of_verdict};
ghost use Rattle.answers.specs.Shown.{reply_of};
ghost use Rattle.passages.specs.State.{state_of};
ghost use Rattle.steps.specs.Model.{answer_to, after_line};

use crate::calls;
use answers::answer::{Answer, Concerned};
use answers::refusal::Refusal;
use lines::call::Call;
use lines::error::LineError;
use passages::{Directory, Register, tally};

// Carries out the call that a line asks for, if it asks for one.
fn carry_out(
    register: &mut Register<'_>,
    latest: &mut Directory<'_>,
    line: Result<Call, LineError>,
) -> Result<Concerned, Refusal>
    ensures answer { of_verdict result ≡ (answer_to (state_of register.old latest.old) line).verdict }
    ensures after { state_of register.new latest.new ≡ after_line (state_of register.old latest.old) line }
{
    // a match and no table of closures: each call has other fields
    match line? {
        Call::Insert {
            slot,
            generation,
            value,
        } => calls::insert(register, slot, generation, value),
        Call::Edit {
            slot,
            generation,
            value,
        } => calls::edit(register, slot, generation, value),
        Call::Get { slot, generation } => calls::get(register, slot, generation),
        Call::Remove { slot, generation } => calls::remove(register, slot, generation),
        Call::Trim { count } => calls::trim(register, count),
        Call::Reserve { request } => calls::reserve(register, request),
        Call::Limit { limit } => calls::limit(register, limit),
        Call::Clear => calls::clear(register),
        Call::Compress => calls::compress(register, latest),
        Call::Recast { slot, generation } => calls::recast(latest, slot, generation),
    }
}

/// Answers one line: what its call answers, or 12 or 13 where it asks for none.
pub fn step(
    register: &mut Register<'_>,
    latest: &mut Directory<'_>,
    line: Result<Call, LineError>,
) -> Answer
    ensures answer { reply_of result ≡ answer_to (state_of register.old latest.old) line }
    ensures after { state_of register.new latest.new ≡ after_line (state_of register.old latest.old) line }
{
    let verdict = carry_out(register, latest, line);
    Answer {
        verdict,
        tally: tally(register),
    }
}
