ghost use Rattle.std.specs.Prelude.{◌≡◌};
ghost use Rattle.history.specs.Spans.{Promise};
ghost use Rattle.arena.specs.Answers.{cited};
ghost use Rattle.directory.specs.Find.{led_to};

use arena::DirectArena;
use kinds::{DirectSlot, Ptr, PtrInx};
use stack::NonZeroInxGenericStack;

// The recast of `p`, and the value of the record that it cites.
fn lead<
    P: Ptr,
    V: Copy,
    S: NonZeroInxGenericStack<Slot = DirectSlot<P::Gen, V>>,
    D: NonZeroInxGenericStack<Slot = DirectSlot<P::Gen, P>>,
>(arena: &DirectArena<P, V, S>, directory: &DirectArena<P, P, D>, p: P) -> Option<(P, V)>
    ensures { result ≡ led_to P.Gen.eq (cited P.Inx.number P.index P.mark) (S.list arena.now) (D.list directory.now) p }
{
    let today = directory.get(p)?;
    let value = arena.get(today)?;
    Some((today, value))
}

/// The record that `p` leads to today: its pointer and its value, where the directory joins the reports of the
/// compressions since `p` was given. And with it what holds of the arena and of the directory after every history
/// that led here.
pub fn find<
    P: Ptr,
    V: Copy,
    S: NonZeroInxGenericStack<Slot = DirectSlot<P::Gen, V>>,
    D: NonZeroInxGenericStack<Slot = DirectSlot<P::Gen, P>>,
>(arena: &DirectArena<P, V, S>, directory: &DirectArena<P, P, D>, p: P) -> Option<(P, V)>
    ensures answer { result ≡ led_to P.Gen.eq (cited P.Inx.number P.index P.mark) (S.list arena.now) (D.list directory.now) p }
    ensures promise { Promise P.Gen.eq (cited P.Inx.number P.index P.mark) (D.list directory.now) (S.list arena.now) }
{
    lead(arena, directory, p)
}
