// What each call of a season does to the register and to the directories, and whether it was carried out.
ghost use Rattle.std.specs.Prelude.{◌≡◌, ◌+◌, cond};
ghost use Rattle.bulk.specs.Brought.{last_slot};
ghost use Rattle.outcome.specs.Outcome.{done, refused};
ghost use Rattle.history.specs.Calls.{insert as insertion, edit as editing, remove as removal, compress as compression, pointer as by_pointer, went, entry, Step};
ghost use Rattle.history.specs.Mapped.{records, report, kept};
ghost use Rattle.numbering.specs.Kinds.{season_alike};
ghost use Rattle.passages.specs.State.{register_of, capacity_of, short_view};
ghost use Rattle.slots.specs.Inserted.{insert_answer};
ghost use Rattle.slots.specs.Records.{found};
ghost use Rattle.trails.specs.Reports.{settings_of, of_call, held_or_not, first_reports, rooms_left, takes, used, Added};

use answers::refusal::Refusal;
use directory::compress_into;
use mapper::KeepValues;
use numbering::Pointer;
use passages::{Directory, Register};

pub(crate) fn insert(register: &mut Register<'_>, p: Pointer, value: u32) -> Result<(), Refusal>
    ensures answer { of_call result ≡ insert_answer (capacity_of (register_of register.old)) (short_view p) (register_of register.old).slots }
    ensures step { Step season_alike (entry (insertion (short_view p) value) (of_call result)) (register_of register.old).slots (register_of register.new).slots }
    ensures settings { settings_of (register_of register.new) ≡ settings_of (register_of register.old) }
{
    register.direct_insert_within_capacity(p, value)?;
    Ok(())
}

pub(crate) fn remove(register: &mut Register<'_>, p: Pointer) -> Result<(), Refusal>
    ensures answer { of_call result ≡ held_or_not (found season_alike (short_view p) (register_of register.old).slots) }
    ensures step { Step season_alike (entry (removal (by_pointer (short_view p))) (of_call result)) (register_of register.old).slots (register_of register.new).slots }
    ensures settings { settings_of (register_of register.new) ≡ settings_of (register_of register.old) }
{
    let _ = register.remove(p).allow().ok_or(Refusal::NotFound)?;
    Ok(())
}

pub(crate) fn edit(register: &mut Register<'_>, p: Pointer, value: u32) -> Result<(), Refusal>
    ensures answer { of_call result ≡ held_or_not (found season_alike (short_view p) (register_of register.old).slots) }
    ensures step { Step season_alike (entry (editing (by_pointer (short_view p)) value) (of_call result)) (register_of register.old).slots (register_of register.new).slots }
    ensures settings { settings_of (register_of register.new) ≡ settings_of (register_of register.old) }
{
    let _ = register.edit(p, value).ok_or(Refusal::NotFound)?;
    Ok(())
}

// Fills the first directory that none of the compressions before has filled.
pub(crate) fn compress(
    register: &mut Register<'_>,
    directories: &mut Vec<Directory<'_>>,
    filled: &mut usize,
) -> Result<(), Refusal>
    ensures step { Step season_alike (entry (compression kept) (of_call result)) (register_of register.old).slots (register_of register.new).slots }
    ensures answer { of_call result ≡ cond (takes (rooms_left filled.old directories.old.items) (last_slot (records (register_of register.old).slots))) (done tt) (refused 10) }
    ensures filled { filled.new ≡ cond (went (of_call result)) (filled.old + 1) filled.old }
    ensures rooms { rooms_left filled.new directories.new.items ≡ used (went (of_call result)) (rooms_left filled.old directories.old.items) }
    ensures added { Added (went (of_call result)) (report (records (register_of register.old).slots)) (first_reports filled.old directories.old.items) (first_reports filled.new directories.new.items) }
    ensures settings { settings_of (register_of register.new) ≡ settings_of (register_of register.old) }
{
    let directory = directories
        .get_mut(*filled)
        .ok_or(Refusal::NoRoomForReport)?;
    compress_into(register, directory, &mut KeepValues)?;
    *filled += 1;
    Ok(())
}

// A paper cites only what the register holds.
pub(crate) fn cite(register: &Register<'_>, p: Pointer) -> Result<(), Refusal>
    ensures { of_call result ≡ held_or_not (found season_alike (short_view p) (register_of register.now).slots) }
{
    if !register.contains(p) {
        return Err(Refusal::NotFound);
    }
    Ok(())
}
