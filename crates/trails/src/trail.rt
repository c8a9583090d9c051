// The trail of a citation: what became of its pointer at each compression since, and what it leads to today.
ghost use Rattle.std.specs.Prelude.{◌≡◌, ◌++◌, IfOk, OnOk, min, nat_le, drop, string_bytes};
ghost use Rattle.bulk.specs.Brought.{last_slot};
ghost use Rattle.history.specs.Calls.{went};
ghost use Rattle.history.specs.Mapped.{records};
ghost use Rattle.directory.specs.Outcomes.{of_directory};
ghost use Rattle.passages.specs.State.{register_of};
ghost use Rattle.stack.specs.Fixed.{fixed_list, fixed_lent};
ghost use Rattle.stack.specs.Slots.{counted};
ghost use Rattle.trails.specs.Lines.{moved_line, today_line, led_by, steps_text, come_through};
ghost use Rattle.trails.specs.Reports.{reports_in, copied};
ghost use Rattle.trails.specs.Today.{joined_on, Answered, PromiseToday, Told};

use crate::line::Line;
use answers::refusal::Refusal;
use directory::DirectoryError;
use directory::find::find;
use mapper::{KeepValues, Recaster};
use numbering::Pointer;
use passages::{Directory, Register};
use std::alloc::AllocError;

/// A paper's citation: the line at which it was written, the pointer, and how many compressions came before it.
#[derive(Clone, Copy, Debug, PartialEq, Eq)]
pub struct Citation {
    pub line: usize,
    pub pointer: Pointer,
    pub before: usize,
}

// Where a compression leads a pointer, by its directory.
fn led_by(directory: &Directory<'_>, p: Pointer) -> Option<Pointer>
    ensures { result ≡ led_by (fixed_list directory.now) p }
{
    directory.recast_item(p).ok()
}

// The line of the compression of this number, which leads a pointer to another, or to none.
fn moved_line(compression: usize, old: Pointer, new: Option<Pointer>) -> Line
    ensures { result ≡ moved_line compression old new }
{
    match new {
        Some(new) => Line::Moved {
            compression,
            old,
            new,
        },
        None => Line::Ended {
            compression,
            pointer: old,
        },
    }
}

// Writes a line for each compression after the first `before`, up to the one that leads to none. It answers the pointer
// that comes through all of them.
fn add_steps(
    out: &mut String,
    directories: &[Directory<'_>],
    before: usize,
    p: Pointer,
) -> Result<Option<Pointer>, AllocError>
    ensures text { OnOk result (string_bytes out.new ≡ string_bytes out.old ++ steps_text before (reports_in (drop before directories.now)) p) }
    ensures end { IfOk result (λ q. q ≡ come_through (reports_in (drop before directories.now)) p) }
{
    let mut at = p;
    for n in before..directories.len() {
        let new = led_by(&directories[n], at);
        writeln!(out, "{}", moved_line(n + 1, at, new))?;
        let Some(next) = new else {
            return Ok(None);
        };
        at = next;
    }
    Ok(Some(at))
}

// Joins directories to the scratch one, one after the other.
fn join_all(scratch: &mut Directory<'_>, directories: &[Directory<'_>])
    ensures slots { fixed_list scratch.new ≡ joined_on (fixed_list scratch.old) (reports_in directories.now) }
    ensures lent { fixed_lent scratch.new ≡ fixed_lent scratch.old }
{
    for directory in directories {
        scratch.join(directory);
    }
}

// The scratch directory becomes the first with the others joined to it, where it has room for the first.
#[tactic(auto, using(passages::proofs::Room::made_room))]
fn join_since(
    scratch: &mut Directory<'_>,
    first: &Directory<'_>,
    rest: &[Directory<'_>],
) -> Result<(), DirectoryError>
    ensures slots { OnOk result (fixed_list scratch.new ≡ joined_on (copied (fixed_list first.now)) (reports_in rest.now)) }
    ensures room { went (of_directory result) ≡ nat_le (last_slot (records (fixed_list first.now))) (min (counted (fixed_lent scratch.old)) 65535) }
    ensures lent { fixed_lent scratch.new ≡ fixed_lent scratch.old }
{
    scratch.clone_from_with(first, &mut KeepValues)?;
    join_all(scratch, rest);
    Ok(())
}

/// What a pointer leads to today, by the joined directories of the compressions since it was cited; with none since,
/// the register itself answers.
pub fn today(
    register: &Register<'_>,
    scratch: &mut Directory<'_>,
    since: &[Directory<'_>],
    p: Pointer,
) -> Result<Option<(Pointer, u32)>, DirectoryError>
    ensures answer { Answered (fixed_lent scratch.old) (register_of register.now).slots (reports_in since.now) p result }
    ensures promise { OnOk result (PromiseToday (register_of register.now).slots (reports_in since.now)) }
    ensures lent { fixed_lent scratch.new ≡ fixed_lent scratch.old }
{
    match since.split_first() {
        Some((first, rest)) => {
            join_since(scratch, first, rest)?;
            Ok(find(register, scratch, p))
        }
        None => Ok(register.get(p).map(|value| (p, value))),
    }
}

// The last line of a trail that came through every compression, to the pointer `at`.
fn today_line(at: Pointer, answer: Result<Option<(Pointer, u32)>, DirectoryError>) -> Line
    ensures { result ≡ today_line at answer }
{
    match answer {
        Ok(Some((pointer, value))) => Line::Today { pointer, value },
        Ok(None) => Line::EndedToday(at),
        Err(error) => Line::RefusedToday(Refusal::from(error)),
    }
}

/// Writes the whole trail of a citation.
pub fn add_trail(
    out: &mut String,
    register: &Register<'_>,
    scratch: &mut Directory<'_>,
    directories: &[Directory<'_>],
    citation: Citation,
) -> Result<(), AllocError>
    ensures told { OnOk result (Told (fixed_lent scratch.old) (register_of register.now).slots (reports_in (drop citation.before directories.now)) citation (string_bytes out.old) (string_bytes out.new)) }
    ensures lent { fixed_lent scratch.new ≡ fixed_lent scratch.old }
{
    writeln!(
        out,
        "{}",
        Line::Cites {
            line: citation.line,
            pointer: citation.pointer,
        }
    )?;
    let Some(at) = add_steps(out, directories, citation.before, citation.pointer)? else {
        return Ok(());
    };
    let since = &directories[citation.before.min(directories.len())..];
    let answer = today(register, scratch, since, citation.pointer);
    writeln!(out, "{}", today_line(at, answer))
}
