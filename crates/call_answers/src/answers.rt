// What answers calls: an arena over any stack, alone or with another.

use crate::one::{answer, answer_list, limit};
use crate::two::{alike, compress_to, directories, recast_one};
use crate::write::write_tail;
use arena::DirectArena;
use arena::advancer::{Advancer, PtrAdvancer};
use call_script::call::{Cited, One, Start, Two};
use call_script::correction::Correction;
use call_script::kind::{Kind, Written};
use call_script::value::Value;
use call_script::word::Fault;
use kinds::{DirectSlot, PtrGen, PtrInx, PtrOf};
use stack::{NonZeroInxGenericStack, SetMaxCapacity};
use std::alloc::{AllocError, Global};

/// Answers calls by which one arena is named.
pub trait Answers<P: Kind> {
    fn write_tail(&self, out: &mut String) -> Result<(), AllocError>;

    fn answer(&mut self, heap: Global, call: &One<P>, out: &mut String) -> Result<(), Fault>;

    fn answer_list(
        &mut self,
        heap: Global,
        correction: Correction,
        cited: &Cited<P>,
        out: &mut String,
    ) -> Result<(), Fault>;
}

/// Is walked by advancers of type `A`.
pub trait Walks<P: Kind, A> {
    fn begin(&self, start: Start<P>) -> A;

    fn advance(&self, advancer: &mut A) -> Option<P>;
}

/// Has a maximum that can be set.
pub trait Limits {
    fn limit(&mut self, most: usize, out: &mut String) -> Result<(), AllocError>;
}

/// Is a directory.
pub trait Recasts<P: Kind> {
    fn recast_one(&self, p: P, out: &mut String) -> Result<(), AllocError>;
}

/// Answers calls by which it is named before another.
pub trait AnswersWith<P: Kind, O> {
    fn answer_with(
        &mut self,
        heap: Global,
        other: &mut O,
        call: Two<P>,
        out: &mut String,
    ) -> Result<(), Fault>;
}

impl<P: Kind, V: Value<P>, S: NonZeroInxGenericStack<Slot = DirectSlot<P::Gen, V>>> Answers<P>
    for DirectArena<P, V, S> {
    fn write_tail(&self, out: &mut String) -> Result<(), AllocError> {
        write_tail(self, out)
    }

    fn answer(&mut self, heap: Global, call: &One<P>, out: &mut String) -> Result<(), Fault> {
        answer(heap, self, call, out)
    }

    fn answer_list(
        &mut self,
        heap: Global,
        correction: Correction,
        cited: &Cited<P>,
        out: &mut String,
    ) -> Result<(), Fault> {
        answer_list(heap, self, correction, cited, out)
    }
}

impl<P: Kind, V: Value<P>, S: NonZeroInxGenericStack<Slot = DirectSlot<P::Gen, V>>> Walks<
    P,
    PtrAdvancer<P>,
> for DirectArena<P, V, S> {
    fn begin(&self, start: Start<P>) -> PtrAdvancer<P> {
        match start {
            Start::Forward => self.advancer(),
            Start::Backward => self.rev_advancer(),
            Start::At { inx, rev } => self.advancer_inx(inx, rev),
        }
    }

    fn advance(&self, advancer: &mut PtrAdvancer<P>) -> Option<P> {
        advancer.advance(self)
    }
}

impl<P: Kind, V: Copy, S: SetMaxCapacity<Slot = DirectSlot<P::Gen, V>>> Limits
    for DirectArena<P, V, S> {
    fn limit(&mut self, most: usize, out: &mut String) -> Result<(), AllocError> {
        limit(self, most, out)
    }
}

impl<
    I: PtrInx + Written,
    G: PtrGen + Written,
    S: NonZeroInxGenericStack<Slot = DirectSlot<G, PtrOf<I, G>>>,
> Recasts<PtrOf<I, G>> for DirectArena<PtrOf<I, G>, PtrOf<I, G>, S> {
    fn recast_one(&self, p: PtrOf<I, G>, out: &mut String) -> Result<(), AllocError> {
        recast_one(self, p, out)
    }
}

// Two arenas of numbers.
impl<
    P: Kind,
    S: NonZeroInxGenericStack<Slot = DirectSlot<P::Gen, u32>>,
    T: NonZeroInxGenericStack<Slot = DirectSlot<P::Gen, u32>>,
> AnswersWith<P, DirectArena<P, u32, T>> for DirectArena<P, u32, S> {
    fn answer_with(
        &mut self,
        heap: Global,
        other: &mut DirectArena<P, u32, T>,
        call: Two<P>,
        out: &mut String,
    ) -> Result<(), Fault> {
        alike(heap, self, other, call, out)
    }
}

// An arena of numbers and a directory.
impl<
    I: PtrInx + Written,
    G: PtrGen + Written,
    S: NonZeroInxGenericStack<Slot = DirectSlot<G, u32>>,
    T: NonZeroInxGenericStack<Slot = DirectSlot<G, PtrOf<I, G>>>,
> AnswersWith<PtrOf<I, G>, DirectArena<PtrOf<I, G>, PtrOf<I, G>, T>>
    for DirectArena<PtrOf<I, G>, u32, S> {
    fn answer_with(
        &mut self,
        heap: Global,
        other: &mut DirectArena<PtrOf<I, G>, PtrOf<I, G>, T>,
        call: Two<PtrOf<I, G>>,
        out: &mut String,
    ) -> Result<(), Fault> {
        match call {
            Two::CompressInto(d) => compress_to(heap, self, other, d, out),
            _ => Err(Fault::Malformed),
        }
    }
}

// Two directories.
impl<
    I: PtrInx + Written,
    G: PtrGen + Written,
    S: NonZeroInxGenericStack<Slot = DirectSlot<G, PtrOf<I, G>>>,
    T: NonZeroInxGenericStack<Slot = DirectSlot<G, PtrOf<I, G>>>,
> AnswersWith<PtrOf<I, G>, DirectArena<PtrOf<I, G>, PtrOf<I, G>, T>>
    for DirectArena<PtrOf<I, G>, PtrOf<I, G>, S> {
    fn answer_with(
        &mut self,
        heap: Global,
        other: &mut DirectArena<PtrOf<I, G>, PtrOf<I, G>, T>,
        call: Two<PtrOf<I, G>>,
        out: &mut String,
    ) -> Result<(), Fault> {
        directories(heap, self, other, call, out)
    }
}
