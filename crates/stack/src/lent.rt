ghost use Rattle.std.specs.Prelude.{◌≡◌, ◌≤◌, length, take, if◌then◌else◌, nat_lt};
ghost use Rattle.outcome.specs.Outcome.{done, refused};
ghost use Rattle.stack.specs.Outcomes.{of_push};
ghost use Rattle.kinds.specs.Places.{slot_at, slot_put};
ghost use Rattle.stack.specs.Slots.{pushed_to, popped_from, counted};

use crate::error::NotWithinCapacityError;
use crate::generic::MAX_CAPACITY;
use std::mem::replace;

// Functions over a slice and its length, to which stacks over lent slots hand theirs: a rule of this project, where
// methods of a struct of the two would do as well. What the slots past the list hold is left free.

/// The slot at a place of the first `len` slots.
pub fn read_slot<U: Copy>(slots: &[U], len: usize, n: usize) -> Option<U>
    requires { len ≤ length slots.now }
    ensures { result ≡ slot_at (take len slots.now) n }
{
    slots[..len].get(n.checked_sub(1)?).copied()
}

/// The slot at a place of the first `len` slots gives way to another, and comes back.
pub fn replace_slot<U: Copy>(slots: &mut [U], len: usize, n: usize, u: U) -> Option<U>
    requires { len ≤ length slots.old }
    ensures answer { result ≡ slot_at (take len slots.old) n }
    ensures slots { take len slots.new ≡ slot_put (take len slots.old) n u }
    ensures long { length slots.new ≡ length slots.old }
{
    // in the steps of `read_slot`, so that who has read a slot asks no more when it replaces it
    let place = n.checked_sub(1)?;
    if place >= len {
        return None;
    }
    Some(replace(&mut slots[place], u))
}

/// One slot more behind the first `len`, where they are fewer than `room`; 1 where they are not.
pub fn push_slot<U: Copy>(
    slots: &mut [U],
    len: &mut usize,
    room: usize,
    u: U,
) -> Result<(), NotWithinCapacityError>
    requires within { len.old ≤ room }
    requires lent { room ≤ counted (length slots.old) }
    ensures answer { of_push result ≡ (if nat_lt (length (take len.old slots.old)) room then done tt else refused 1) }
    ensures slots { take len.new slots.new ≡ pushed_to room (take len.old slots.old) u }
    ensures long { length slots.new ≡ length slots.old }
    ensures within { len.new ≤ room }
{
    // read once, before a slot is written: what is written might be the length, for all that the compiler knows
    let last = *len;
    if last == room {
        return Err(NotWithinCapacityError);
    }
    slots[last] = u;
    *len = last + 1;
    Ok(())
}

/// The last of the first `len` slots goes, and comes back.
pub fn pop_slot<U: Copy>(slots: &mut [U], len: &mut usize) -> Option<U>
    requires { len.old ≤ length slots.old }
    ensures answer { result ≡ slot_at (take len.old slots.old) (length (take len.old slots.old)) }
    ensures slots { take len.new slots.new ≡ popped_from (take len.old slots.old) }
    ensures long { length slots.new ≡ length slots.old }
    ensures within { len.new ≤ len.old }
{
    let last = len.checked_sub(1)?;
    *len = last;
    Some(slots[last])
}

/// How many of the lent slots count.
pub fn room_of<U>(slots: &[U]) -> usize
    ensures { result ≡ counted (length slots.now) }
{
    slots.len().min(MAX_CAPACITY)
}
