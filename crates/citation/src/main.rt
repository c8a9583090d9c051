//! The program that the canal office shows its inspector: it reads a season, and writes the trail of each citation.
//! It uses `trails`, which does all the work, and what its register and its directories are made of.
//! What is read and written is tested on the sample beside it; what is proved of the rest is said in docs/CITATION.md.

#![tactic(auto)]

use kinds::DirectSlot;
use passages::{PointerSlot, Slot, open_directory};
use std::io;
use std::io::{Read, Write};
use trails::{COMPRESSIONS, MOST_READ, ROOM, open_directories, open_register, run};

fn main(rt: HostRuntime) -> io::Result<()> {
    let heap = rt.alloc();
    let mut input = Vec::new(heap);
    rt.stdin().take(MOST_READ).read_to_end(&mut input)?;
    let mut slots: [Slot; ROOM] = [DirectSlot::Free; ROOM];
    let mut register = open_register(&mut slots);
    let free: PointerSlot = DirectSlot::Free;
    let mut kept = vec![in heap; free; COMPRESSIONS * ROOM]?;
    let mut directories = open_directories(heap, kept.as_mut_slice())?;
    let mut joined: [PointerSlot; ROOM] = [DirectSlot::Free; ROOM];
    let mut scratch = open_directory(&mut joined);
    let report = run(
        heap,
        &mut register,
        &mut directories,
        &mut scratch,
        input.as_slice(),
    )?;
    rt.stdout().write_all(report.as_bytes())
}
