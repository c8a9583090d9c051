// The directories of a season's compressions.
ghost use Rattle.std.specs.Prelude.{IfOk, length};
ghost use Rattle.trails.specs.Reports.{Opened};

use passages::{Directory, PointerSlot, open_directory};
use std::alloc::{AllocError, Global};

/// The slots of a directory, as many as a register has at most.
pub const ROOM: usize = 256;

/// How many compressions a season of the program may have.
pub const COMPRESSIONS: usize = 64;

/// Empty directories, one for each `ROOM` of the slots that the caller lends.
pub fn open_directories<'a>(
    heap: Global,
    slots: &'a mut [PointerSlot],
) -> Result<Vec<Directory<'a>>, AllocError>
    ensures { IfOk result (λ ds. Opened (length slots.old) ds.items) }
{
    let mut directories = Vec::new(heap);
    for part in slots.chunks_mut(ROOM) {
        directories.push(open_directory(part))?;
    }
    Ok(directories)
}
