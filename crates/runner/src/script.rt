ghost use Rattle.std.specs.Prelude.{◌≡◌, ◌++◌, IfOk, string_bytes, OnOk};
ghost use Rattle.text.specs.Split.{lines_of};
ghost use Rattle.passages.specs.State.{state_of};
ghost use Rattle.lines.specs.Script.{script_of};
ghost use Rattle.runner.specs.Run.{output, after_all, lines_by, answers_to, state_by, report};
ghost use Rattle.runner.specs.Led.{Led, Reached, Stopped};

use answers::answer::Answer;
use answers::refusal::Refusal;
use answers::write::add_line;
use lines::parse::parse;
use lines::script::after_names;
use passages::{Directory, Register, tally};
use std::alloc::{AllocError, Global};
use steps::step::step;
use text::split::Lines;

// Adds an answer's line for each line of `script`.
fn add_answers(
    out: &mut String,
    register: &mut Register<'_>,
    latest: &mut Directory<'_>,
    script: &[u8],
) -> Result<(), AllocError>
    ensures text { OnOk result (string_bytes out.new ≡ string_bytes out.old ++ output (state_of register.old latest.old) (lines_of script.now)) }
    ensures after { OnOk result (state_of register.new latest.new ≡ after_all (state_of register.old latest.old) (lines_of script.now)) }
    ensures reached { Reached (state_of register.old latest.old) (lines_of script.now) (state_of register.new latest.new) }
{
    for line in Lines::new(script) {
        let answer = step(register, latest, parse(line));
        add_line(out, answer)?;
    }
    Ok(())
}

// Adds the answers to `input`, or the one refusal.
fn add_report(
    out: &mut String,
    register: &mut Register<'_>,
    latest: &mut Directory<'_>,
    input: &[u8],
) -> Result<(), AllocError>
    ensures text { OnOk result (string_bytes out.new ≡ string_bytes out.old ++ answers_to (state_of register.old latest.old) (script_of input.now)) }
    ensures after { OnOk result (state_of register.new latest.new ≡ state_by (state_of register.old latest.old) (script_of input.now)) }
    ensures reached { Reached (state_of register.old latest.old) (lines_by (script_of input.now)) (state_of register.new latest.new) }
{
    match after_names(input) {
        Some(rest) => add_answers(out, register, latest, rest),
        None => {
            let answer = Answer {
                verdict: Err(Refusal::NotAScript),
                tally: tally(register),
            };
            add_line(out, answer)
        }
    }
}

/// The whole report on `input`, with a line for each call; and the register's history goes on by just those calls, and
/// that of the latest directory by the fillings of the accepted compressions. Where memory for the report fails, the
/// first calls were carried out and no other.
pub fn run(
    heap: Global,
    register: &mut Register<'_>,
    latest: &mut Directory<'_>,
    input: &[u8],
) -> Result<String, AllocError>
    ensures text { IfOk result (λ out. string_bytes out ≡ report (state_of register.old latest.old) input.now) }
    ensures after { OnOk result (state_of register.new latest.new ≡ state_by (state_of register.old latest.old) (script_of input.now)) }
    ensures led { OnOk result (Led (state_of register.old latest.old) (script_of input.now) (state_of register.new latest.new)) }
    ensures stopped { Stopped (state_of register.old latest.old) (script_of input.now) (state_of register.new latest.new) }
{
    let mut out = String::from_str(heap, "answer slot generation value count slots capacity\n")?;
    add_report(&mut out, register, latest, input)?;
    Ok(out)
}
