// The lines of a script after one that names kinds: one answer line for each.

use crate::world::World;
use arena::advancer::PtrAdvancer;
use call_answers::answers::{Answers, AnswersWith, Recasts, Walks};
use call_script::call::{Making, Of};
use call_script::kind::{Kind, Least};
use call_script::parse::{making, parse};
use call_script::request::Request;
use call_script::word::Fault;
use std::alloc::{AllocError, Global};

/// What new arenas of a type are made of.
pub trait Lends<A> {
    /// A new arena, if there is room for it.
    fn arena(&mut self, heap: Global, request: Request) -> Option<A>;
}

/// The lines of a section, of which the first is line `number` of the whole.
#[derive(Clone, Copy)]
pub struct Calls<'t> {
    pub lines: &'t [&'t [u8]],
    pub number: usize,
    pub least: Least,
}

/// The arenas of a section, and the slots that new ones are lent.
#[derive(Drop)]
struct Section<'t, P: Kind, N, D, L, M> {
    heap: Global,
    world: World<'t, P, N, D>,
    numbers: L,
    pointers: M,
    least: Least,
}

// Makes an arena, and writes its tail, or 7.
fn make<P: Kind, A: Answers<P> + Drop, L: Lends<A>>(
    heap: Global,
    pool: &mut L,
    request: Request,
    out: &mut String,
) -> Result<Option<A>, AllocError> {
    let Some(arena) = pool.arena(heap, request) else {
        out.push_str("7")?;
        return Ok(None);
    };
    out.push_str("ok")?;
    arena.write_tail(out)?;
    Ok(Some(arena))
}

// The answer of a line, or that it has none.
fn write_answer(
    answered: Result<(), Fault>,
    answer: &str,
    number: usize,
    out: &mut String,
) -> Result<(), AllocError> {
    match answered {
        Ok(()) => writeln!(out, "{answer}"),
        Err(Fault::Malformed) => writeln!(out, "bad line {number}"),
        Err(Fault::NoMemory) => Err(AllocError),
    }
}

impl<
    't,
    P: Kind,
    N: Answers<P> + Walks<P, PtrAdvancer<P>> + AnswersWith<P, N> + AnswersWith<P, D> + Drop,
    D: Answers<P> + Walks<P, PtrAdvancer<P>> + AnswersWith<P, D> + Recasts<P> + Drop,
    L: Lends<N> + Drop,
    M: Lends<D> + Drop,
> Section<'t, P, N, D, L, M> {
    // No arenas yet, and pools for those of numbers and for directories.
    fn new(heap: Global, numbers: L, pointers: M, least: Least) -> Self {
        Section {
            heap,
            world: World::new(heap),
            numbers,
            pointers,
            least,
        }
    }

    // Makes an arena; one of that name is replaced.
    fn answer_making(&mut self, making: Making<'t>, out: &mut String) -> Result<(), AllocError> {
        let (name, request) = (making.name, making.request);
        match making.of {
            Of::Numbers => {
                if let Some(arena) = make::<P, N, L>(self.heap, &mut self.numbers, request, out)? {
                    self.world.put_numbers(name, arena)?;
                }
            }
            Of::Pointers => {
                if let Some(arena) = make::<P, D, M>(self.heap, &mut self.pointers, request, out)? {
                    self.world.put_pointers(name, arena)?;
                }
            }
        }
        Ok(())
    }

    // The answer to one line.
    fn answer_line(&mut self, line: &'t [u8], out: &mut String) -> Result<(), Fault> {
        if let Some(making) = making(line) {
            return Ok(self.answer_making(making, out)?);
        }
        let call = parse(self.heap, line, self.least)?;
        self.world.answer(call, out)
    }

    // The first of the lines is line `number` of the whole.
    fn answer_lines(
        &mut self,
        lines: &[&'t [u8]],
        number: usize,
        out: &mut String,
    ) -> Result<(), AllocError> {
        let mut number = number;
        for line in lines {
            let mut answer = String::new(self.heap);
            let answered = self.answer_line(line, &mut answer);
            write_answer(answered, &answer, number, out)?;
            number = number.saturating_add(1);
        }
        Ok(())
    }
}

/// Answers the calls of a section, whose new arenas are made of these pools.
pub fn answer_all<
    P: Kind,
    N: Answers<P> + Walks<P, PtrAdvancer<P>> + AnswersWith<P, N> + AnswersWith<P, D> + Drop,
    D: Answers<P> + Walks<P, PtrAdvancer<P>> + AnswersWith<P, D> + Recasts<P> + Drop,
    L: Lends<N> + Drop,
    M: Lends<D> + Drop,
>(
    heap: Global,
    numbers: L,
    pointers: M,
    calls: Calls<'_>,
    out: &mut String,
) -> Result<(), AllocError> {
    let mut section: Section<'_, P, N, D, L, M> = Section::new(
        heap,
        numbers,
        pointers,
        calls.least,
    );
    section.answer_lines(calls.lines, calls.number, out)
}
