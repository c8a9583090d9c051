// An arena that stands over one of three stacks.

use crate::answers::{Answers, AnswersWith, Limits, Recasts, Walks};
use arena::DirectArena;
use call_script::call::{Cited, One, Start, Two};
use call_script::correction::Correction;
use call_script::kind::Kind;
use call_script::word::Fault;
use kinds::DirectSlot;
use stack::NonZeroInxGenericStack;
use std::alloc::{AllocError, Global};

#[derive(Drop)]
pub enum Held<F, L, H> {
    Fixed(F),
    Limited(L),
    Heap(H),
}

// The same call of whichever it is.
macro_rules! over {
    ($held:expr, $arena:ident => $call:expr) => {
        match $held {
            Held::Fixed($arena) => $call,
            Held::Limited($arena) => $call,
            Held::Heap($arena) => $call,
        }
    };
}

impl<P: Kind, F: Answers<P>, L: Answers<P> + Limits, H: Answers<P>> Answers<P> for Held<F, L, H> {
    fn write_tail(&self, out: &mut String) -> Result<(), AllocError> {
        over!(self, arena => arena.write_tail(out))
    }

    // A maximum can be set over a limited stack alone.
    fn answer(&mut self, heap: Global, call: &One<P>, out: &mut String) -> Result<(), Fault> {
        if let (One::Limit(most), Held::Limited(arena)) = (call, &mut *self) {
            return Ok(arena.limit(*most, out)?);
        }
        over!(self, arena => arena.answer(heap, call, out))
    }

    fn answer_list(
        &mut self,
        heap: Global,
        correction: Correction,
        cited: &Cited<P>,
        out: &mut String,
    ) -> Result<(), Fault> {
        over!(self, arena => arena.answer_list(heap, correction, cited, out))
    }
}

impl<P: Kind, A, F: Walks<P, A>, L: Walks<P, A>, H: Walks<P, A>> Walks<P, A> for Held<F, L, H> {
    fn begin(&self, start: Start<P>) -> A {
        over!(self, arena => arena.begin(start))
    }

    fn advance(&self, advancer: &mut A) -> Option<P> {
        over!(self, arena => arena.advance(advancer))
    }
}

impl<P: Kind, F: Recasts<P>, L: Recasts<P>, H: Recasts<P>> Recasts<P> for Held<F, L, H> {
    fn recast_one(&self, p: P, out: &mut String) -> Result<(), AllocError> {
        over!(self, directory => directory.recast_one(p, out))
    }
}

// The first of two.
impl<P: Kind, O, F: AnswersWith<P, O>, L: AnswersWith<P, O>, H: AnswersWith<P, O>> AnswersWith<P, O>
    for Held<F, L, H> {
    fn answer_with(
        &mut self,
        heap: Global,
        other: &mut O,
        call: Two<P>,
        out: &mut String,
    ) -> Result<(), Fault> {
        over!(self, arena => arena.answer_with(heap, other, call, out))
    }
}

// The second of two.
impl<
    P: Kind,
    V: Copy,
    S: NonZeroInxGenericStack<Slot = DirectSlot<P::Gen, V>>,
    F,
    L,
    H,
> AnswersWith<P, Held<F, L, H>> for DirectArena<P, V, S>
where
    DirectArena<P, V, S>: AnswersWith<P, F> + AnswersWith<P, L> + AnswersWith<P, H>,
{
    fn answer_with(
        &mut self,
        heap: Global,
        other: &mut Held<F, L, H>,
        call: Two<P>,
        out: &mut String,
    ) -> Result<(), Fault> {
        over!(other, arena => self.answer_with(heap, arena, call, out))
    }
}
