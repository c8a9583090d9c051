// A season from its first line to its last, and then the trails of its citations.
ghost use Rattle.std.specs.Prelude.{◌≡◌, ℕ, IfOk, OnOk, string_bytes};
ghost use Rattle.lines.specs.Script.{script_of};
ghost use Rattle.passages.specs.State.{register_of};
ghost use Rattle.stack.specs.Fixed.{fixed_lent};
ghost use Rattle.text.specs.Split.{lines_of};
ghost use Rattle.trails.specs.Chronicle.{adds, left_by, counted_with, rooms_with, GoesOn, Ran};
ghost use Rattle.trails.specs.Whole.{Whole, WholeOf};
ghost use Rattle.trails.specs.Answers.{Gets, Notes};
ghost use Rattle.trails.specs.Reports.{settings_of, of_call, first_reports, rooms_left};
ghost use Rattle.trails.specs.Today.{AllTold};

use crate::calls;
use crate::line::Line;
use crate::trail::{Citation, add_trail};
use answers::refusal::Refusal;
use lines::error::LineError;
use lines::script::after_names;
use numbering::{Pointer, pointer};
use passages::{Directory, Register};
use season::call::Call;
use season::parse::parse;
use std::alloc::{AllocError, Global};
use text::split::Lines;

// Carries out the call that a line asks for, if it asks for one. It answers the pointer that a paper cites.
fn carry_out(
    register: &mut Register<'_>,
    directories: &mut Vec<Directory<'_>>,
    filled: &mut usize,
    line: Result<Call, LineError>,
) -> Result<Option<Pointer>, Refusal>
    ensures answer { Gets (register_of register.old) (rooms_left filled.old directories.old.items) line (of_call result) }
    ensures chronicle { GoesOn (adds line (of_call result)) (first_reports filled.old directories.old.items) (first_reports filled.new directories.new.items) (register_of register.old).slots (register_of register.new).slots }
    ensures slots { (register_of register.new).slots ≡ left_by (adds line (of_call result)) (register_of register.old).slots }
    ensures settings { settings_of (register_of register.new) ≡ settings_of (register_of register.old) }
    ensures filled { filled.new ≡ counted_with filled.old line (of_call result) }
    ensures rooms { rooms_left filled.new directories.new.items ≡ rooms_with (rooms_left filled.old directories.old.items) line (of_call result) }
{
    match line? {
        Call::Insert {
            slot,
            generation,
            value,
        } => calls::insert(register, pointer(slot, generation), value).map(|()| None),
        Call::Remove { slot, generation } => {
            calls::remove(register, pointer(slot, generation)).map(|()| None)
        }
        Call::Edit {
            slot,
            generation,
            value,
        } => calls::edit(register, pointer(slot, generation), value).map(|()| None),
        Call::Compress => calls::compress(register, directories, filled).map(|()| None),
        Call::Cite { slot, generation } => {
            let p = pointer(slot, generation);
            calls::cite(register, p).map(|()| Some(p))
        }
    }
}

// Writes a refusal, and keeps a citation.
fn note(
    out: &mut String,
    citations: &mut Vec<Citation>,
    line: usize,
    before: usize,
    answer: Result<Option<Pointer>, Refusal>,
) -> Result<(), AllocError>
    ensures { OnOk result (Notes line before answer citations.old.items citations.new.items (string_bytes out.old) (string_bytes out.new)) }
{
    match answer {
        Ok(None) => Ok(()),
        Ok(Some(pointer)) => {
            citations.push(Citation {
                line,
                pointer,
                before,
            })?;
            Ok(())
        }
        Err(refusal) => writeln!(out, "{}", Line::Refused { line, refusal }),
    }
}

// Carries out all lines of a season; the first of them is line 2 of the input. It answers how many were compressions.
fn add_season(
    out: &mut String,
    citations: &mut Vec<Citation>,
    register: &mut Register<'_>,
    directories: &mut Vec<Directory<'_>>,
    lines: &[u8],
) -> Result<usize, AllocError>
    ensures { IfOk result (λ n. (number : ℕ) × Ran (lines_of lines.now) (first_reports n directories.new.items) (record { number = 1; compressions = 0; rooms = rooms_left 0 directories.old.items; register = register_of register.old; citations = citations.old.items; text = string_bytes out.old }) (record { number = number; compressions = n; rooms = rooms_left n directories.new.items; register = register_of register.new; citations = citations.new.items; text = string_bytes out.new })) }
{
    let mut filled = 0;
    let mut number: usize = 1;
    for line in Lines::new(lines) {
        number = number.saturating_add(1);
        let answer = carry_out(register, directories, &mut filled, parse(line));
        note(out, citations, number, filled, answer)?;
    }
    Ok(filled)
}

fn add_trails(
    out: &mut String,
    register: &Register<'_>,
    scratch: &mut Directory<'_>,
    directories: &[Directory<'_>],
    citations: &[Citation],
) -> Result<(), AllocError>
    ensures told { OnOk result (AllTold (fixed_lent scratch.old) (register_of register.now).slots directories.now citations.now (string_bytes out.old) (string_bytes out.new)) }
    ensures lent { fixed_lent scratch.new ≡ fixed_lent scratch.old }
{
    for citation in citations {
        add_trail(out, register, scratch, directories, *citation)?;
    }
    Ok(())
}

// Writes a season's refusals and totals, and the trails of its citations.
fn add_all(
    out: &mut String,
    heap: Global,
    register: &mut Register<'_>,
    directories: &mut Vec<Directory<'_>>,
    scratch: &mut Directory<'_>,
    lines: &[u8],
) -> Result<(), AllocError>
    ensures whole { OnOk result (Whole (lines_of lines.now) (rooms_left 0 directories.old.items) (fixed_lent scratch.old) directories.new.items (register_of register.old) (register_of register.new) (string_bytes out.old) (string_bytes out.new)) }
    ensures lent { fixed_lent scratch.new ≡ fixed_lent scratch.old }
{
    let mut citations = Vec::new(heap);
    let compressions = add_season(out, &mut citations, register, directories, lines)?;
    writeln!(
        out,
        "{}",
        Line::Totals {
            compressions,
            records: register.len(),
        }
    )?;
    directories.truncate(compressions); // those that no compression filled are no part of a trail
    add_trails(
        out,
        register,
        scratch,
        directories.as_slice(),
        citations.as_slice(),
    )
}

/// What is written of a season: its refusals, its totals, and the trail of each of its citations. The directories that no
/// compression filled are let go; what the scratch directory then holds is left open.
pub fn run(
    heap: Global,
    register: &mut Register<'_>,
    directories: &mut Vec<Directory<'_>>,
    scratch: &mut Directory<'_>,
    input: &[u8],
) -> Result<String, AllocError>
    ensures whole { IfOk result (λ out. WholeOf (script_of input.now) (fixed_lent scratch.old) directories.old.items directories.new.items (register_of register.old) (register_of register.new) (string_bytes out)) }
    ensures lent { fixed_lent scratch.new ≡ fixed_lent scratch.old }
{
    let mut out = String::new(heap);
    match after_names(input) {
        Some(lines) => add_all(&mut out, heap, register, directories, scratch, lines)?,
        None => writeln!(out, "{}", Line::NoSeason(Refusal::NotAScript))?,
    }
    Ok(out)
}
