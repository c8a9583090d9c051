// The arenas and advancers of a script, and the calls on them.

use crate::shelf::Shelf;
use arena::advancer::PtrAdvancer;
use call_answers::answers::{Answers, AnswersWith, Recasts, Walks};
use call_script::call::{Call, Cited, One, Start, Two};
use call_script::correction::Correction;
use call_script::kind::{Kind, write_pointer};
use call_script::word::Fault;
use std::alloc::{AllocError, Global};

#[derive(Drop)]
pub struct World<'t, P: Kind, N, D> {
    heap: Global,
    numbers: Shelf<'t, N>,
    pointers: Shelf<'t, D>,
    advancers: Vec<(&'t [u8], PtrAdvancer<P>)>,
}

// The calls on what a shelf has under a name.
fn answer_on<P: Kind, A: Answers<P> + Drop>(
    heap: Global,
    shelf: &mut Shelf<'_, A>,
    name: &[u8],
    call: &One<P>,
    out: &mut String,
) -> Result<(), Fault> {
    let arena = shelf.get(name).ok_or(Fault::Malformed)?;
    arena.answer(heap, call, out)
}

fn list_on<P: Kind, A: Answers<P> + Drop>(
    heap: Global,
    shelf: &mut Shelf<'_, A>,
    name: &[u8],
    correction: Correction,
    cited: &Cited<P>,
    out: &mut String,
) -> Result<(), Fault> {
    let arena = shelf.get(name).ok_or(Fault::Malformed)?;
    arena.answer_list(heap, correction, cited, out)
}

fn recast_on<P: Kind, D: Recasts<P> + Drop>(
    shelf: &mut Shelf<'_, D>,
    name: &[u8],
    p: P,
    out: &mut String,
) -> Result<(), Fault> {
    let directory = shelf.get(name).ok_or(Fault::Malformed)?;
    Ok(directory.recast_one(p, out)?)
}

fn pair_on<P: Kind, A: AnswersWith<P, A> + Drop>(
    heap: Global,
    shelf: &mut Shelf<'_, A>,
    first: &[u8],
    second: &[u8],
    call: Two<P>,
    out: &mut String,
) -> Result<(), Fault> {
    let (a, b) = shelf.pair(first, second).ok_or(Fault::Malformed)?;
    a.answer_with(heap, b, call, out)
}

fn across<P: Kind, N: AnswersWith<P, D> + Drop, D: Drop>(
    heap: Global,
    numbers: &mut Shelf<'_, N>,
    pointers: &mut Shelf<'_, D>,
    first: &[u8],
    second: &[u8],
    call: Two<P>,
    out: &mut String,
) -> Result<(), Fault> {
    let a = numbers.get(first).ok_or(Fault::Malformed)?;
    let b = pointers.get(second).ok_or(Fault::Malformed)?;
    a.answer_with(heap, b, call, out)
}

fn begin_on<P: Kind, W, A: Walks<P, W> + Drop>(
    shelf: &mut Shelf<'_, A>,
    name: &[u8],
    start: Start<P>,
) -> Option<W> {
    let arena = shelf.get(name)?;
    Some(arena.begin(start))
}

fn advance_on<P: Kind, W, A: Walks<P, W> + Drop>(
    shelf: &mut Shelf<'_, A>,
    name: &[u8],
    advancer: &mut W,
) -> Result<Option<P>, Fault> {
    let arena = shelf.get(name).ok_or(Fault::Malformed)?;
    Ok(arena.advance(advancer))
}

fn write_given<P: Kind>(given: Option<P>, out: &mut String) -> Result<(), AllocError> {
    match given {
        Some(p) => {
            out.push_str("ok ")?;
            write_pointer(p, out)
        }
        None => out.push_str("none"),
    }
}

impl<
    't,
    P: Kind,
    N: Answers<P> + Walks<P, PtrAdvancer<P>> + AnswersWith<P, N> + AnswersWith<P, D> + Drop,
    D: Answers<P> + Walks<P, PtrAdvancer<P>> + AnswersWith<P, D> + Recasts<P> + Drop,
> World<'t, P, N, D> {
    /// No arenas yet.
    pub(crate) fn new(heap: Global) -> Self {
        World {
            heap,
            numbers: Shelf::new(heap),
            pointers: Shelf::new(heap),
            advancers: Vec::new(heap),
        }
    }

    fn remove(&mut self, name: &[u8]) {
        self.numbers.remove(name);
        self.pointers.remove(name);
    }

    /// A new arena of numbers; whatever had its name is gone.
    pub(crate) fn put_numbers(&mut self, name: &'t [u8], arena: N) -> Result<(), AllocError> {
        self.remove(name);
        self.numbers.put(name, arena)
    }

    /// The same of a directory.
    pub(crate) fn put_pointers(&mut self, name: &'t [u8], directory: D) -> Result<(), AllocError> {
        self.remove(name);
        self.pointers.put(name, directory)
    }

    fn one(&mut self, name: &[u8], call: &One<P>, out: &mut String) -> Result<(), Fault> {
        if self.numbers.has(name) {
            return answer_on(self.heap, &mut self.numbers, name, call, out);
        }
        match call {
            One::Recast(p) => recast_on(&mut self.pointers, name, *p, out),
            _ => answer_on(self.heap, &mut self.pointers, name, call, out),
        }
    }

    fn list(
        &mut self,
        name: &[u8],
        correction: Correction,
        cited: &Cited<P>,
        out: &mut String,
    ) -> Result<(), Fault> {
        if self.numbers.has(name) {
            return list_on(self.heap, &mut self.numbers, name, correction, cited, out);
        }
        list_on(self.heap, &mut self.pointers, name, correction, cited, out)
    }

    fn two(
        &mut self,
        first: &[u8],
        second: &[u8],
        call: Two<P>,
        out: &mut String,
    ) -> Result<(), Fault> {
        if !self.numbers.has(first) {
            return pair_on(self.heap, &mut self.pointers, first, second, call, out);
        }
        if self.numbers.has(second) {
            return pair_on(self.heap, &mut self.numbers, first, second, call, out);
        }
        let (numbers, pointers) = (&mut self.numbers, &mut self.pointers);
        across(self.heap, numbers, pointers, first, second, call, out)
    }

    // An advancer of that name is replaced.
    fn begin(
        &mut self,
        name: &'t [u8],
        arena: &[u8],
        start: Start<P>,
        out: &mut String,
    ) -> Result<(), Fault> {
        let begun = if self.numbers.has(arena) {
            begin_on(&mut self.numbers, arena, start)
        } else {
            begin_on(&mut self.pointers, arena, start)
        };
        let advancer = begun.ok_or(Fault::Malformed)?;
        self.advancers.retain(|other| other.0 != name);
        self.advancers
            .push((name, advancer))
            .map_err(AllocError::from)?;
        Ok(out.push_str("ok")?)
    }

    fn advance(&mut self, name: &[u8], arena: &[u8], out: &mut String) -> Result<(), Fault> {
        let place = self.advancers.iter().position(|other| other.0 == name);
        let advancer = &mut self.advancers[place.ok_or(Fault::Malformed)?].1;
        let given = if self.numbers.has(arena) {
            advance_on(&mut self.numbers, arena, advancer)?
        } else {
            advance_on(&mut self.pointers, arena, advancer)?
        };
        Ok(write_given(given, out)?)
    }

    /// Makes a call, and writes the answer to it.
    pub(crate) fn answer(&mut self, call: Call<'t, P>, out: &mut String) -> Result<(), Fault> {
        match call {
            Call::OnOne { name, call } => self.one(name, &call, out),
            Call::OnList {
                name,
                correction,
                cited,
            } => self.list(name, correction, &cited, out),
            Call::OnTwo {
                first,
                second,
                call,
            } => self.two(first, second, call, out),
            Call::Begin {
                advancer,
                arena,
                start,
            } => self.begin(advancer, arena, start, out),
            Call::Advance { advancer, arena } => self.advance(advancer, arena, out),
        }
    }
}
