//! The program that clerks pipe scripts through: it reads the standard input and writes the answers.
//! It uses `runner`, which does all the work, `passages` and `kinds` for the slots, and adds reading and writing.
//! What is read and written is tested on the sample beside it; everything between is proved below.

#![tactic(auto)]

use kinds::DirectSlot;
use passages::{PointerSlot, Slot, open, open_directory};
use runner::{MOST_READ, run};
use std::io;
use std::io::{Read, Write};

fn main(rt: HostRuntime) -> io::Result<()> {
    let mut input = Vec::new(rt.alloc());
    rt.stdin().take(MOST_READ).read_to_end(&mut input)?;
    let mut slots: [Slot; 256] = [DirectSlot::Free; 256];
    let mut register = open(&mut slots);
    let mut pointers: [PointerSlot; 256] = [DirectSlot::Free; 256];
    let mut latest = open_directory(&mut pointers);
    let report = run(rt.alloc(), &mut register, &mut latest, input.as_slice())?;
    rt.stdout().write_all(report.as_bytes())
}
