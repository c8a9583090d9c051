//! The program that carries registers and directories on the heap through a season each, and writes the answers.
//! It uses `directory`, `heap_stack`, `limited` and what these use, and `answers` for its lines; nothing uses it.
//! A new step of a season is a line in `season.rt`, and one in `stdout`, which is worked out from the rules.

#![tactic(auto)]

mod calls;
mod loops;
mod register;
mod season;

use season::season;
use std::io;
use std::io::Write;

fn main(rt: HostRuntime) -> io::Result<()> {
    let report = season(rt.alloc())?;
    rt.stdout().write_all(report.as_bytes())
}
