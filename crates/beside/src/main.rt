//! The program that answers call scripts as the Rust crate does, so that the two can be compared line by line.
//! It uses `call_sections` and what that uses, the stacks and `text`; nothing uses it, and it knows the kinds by name alone.
//! Nothing is promised of it but that it ends and never panics: what it writes is compared (docs/BESIDE.md).

#![tactic(auto)]

mod pool;
mod script;

use script::run;
use std::io;
use std::io::{Read, Write};

// More than any script that was compared.
const MOST: u64 = 1 << 30;

fn main(rt: HostRuntime) -> io::Result<()> {
    let mut input = Vec::new(rt.alloc());
    rt.stdin().take(MOST).read_to_end(&mut input)?;
    let answers = run(rt.alloc(), input.as_slice())?;
    rt.stdout().write_all(answers.as_bytes())
}
