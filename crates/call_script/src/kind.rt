// Pointer kinds, as scripts write them.

use crate::word::{Words, number};
use kinds::{Ptr, PtrGen, PtrInx, PtrOf};
use numbering::{SeasonGen, ShortInx, Unmarked};
use sheets::SheetInx;
use std::alloc::AllocError;
use text::word::is_word;

/// The least index and the least season that a script may write: some of its kinds have no 0.
#[derive(Clone, Copy, Debug, PartialEq, Eq)]
pub struct Least {
    pub index: u32,
    pub season: u32,
}

/// The kinds that a section names: an index and a generation.
#[derive(Clone, Copy)]
pub enum Kinds {
    ShortSeason,
    ShortUnmarked,
    SheetSeason,
    SheetUnmarked,
}

fn is_short(inx: &[u8]) -> Option<bool> {
    if is_word(inx, b"short") || is_word(inx, b"nz16") {
        return Some(true);
    }
    is_word(inx, b"sheet").then_some(false)
}

fn is_marked(generation: &[u8]) -> Option<bool> {
    if is_word(generation, b"season") || is_word(generation, b"season0") {
        return Some(true);
    }
    is_word(generation, b"unmarked").then_some(false)
}

fn least_of(inx: &[u8], generation: &[u8]) -> Least {
    Least {
        index: u32::from(inx == b"nz16".as_slice()),
        season: u32::from(generation == b"season".as_slice()),
    }
}

impl Kinds {
    fn of(short: bool, marked: bool) -> Kinds {
        match (short, marked) {
            (true, true) => Kinds::ShortSeason,
            (true, false) => Kinds::ShortUnmarked,
            (false, true) => Kinds::SheetSeason,
            (false, false) => Kinds::SheetUnmarked,
        }
    }

    fn read_words(words: &mut Words<'_>) -> Option<(Kinds, Least)> {
        let inx = words.word()?;
        let generation = words.word()?;
        let kinds = Kinds::of(is_short(inx)?, is_marked(generation)?);
        Some((kinds, least_of(inx, generation)))
    }

    /// The line that begins a section.
    pub fn read(line: &[u8]) -> Option<(Kinds, Least)> {
        let mut words = Words::new(line);
        words.word()?;
        let read = Kinds::read_words(&mut words)?;
        words.is_done().then_some(read)
    }
}

/// What a script writes as one word.
pub trait Written: Copy {
    fn read(text: &[u8], least: Least) -> Option<Self>;

    fn write(self, out: &mut String) -> Result<(), AllocError>;
}

impl Written for ShortInx {
    fn read(text: &[u8], least: Least) -> Option<Self> {
        let raw = number(text).filter(|n| *n >= least.index)?;
        u16::try_from(raw).ok().map(|raw| ShortInx { raw })
    }

    fn write(self, out: &mut String) -> Result<(), AllocError> {
        write!(out, "{}", self.raw)
    }
}

fn short_number(text: &[u8]) -> Option<u16> {
    u16::try_from(number(text)?).ok()
}

impl Written for SheetInx {
    fn read(text: &[u8], _least: Least) -> Option<Self> {
        let dot = text.iter().position(|b| *b == b'.')?;
        let sheet = short_number(&text[..dot])?;
        let line = short_number(&text[dot + 1..])?;
        Some(SheetInx { sheet, line })
    }

    fn write(self, out: &mut String) -> Result<(), AllocError> {
        write!(out, "{}.{}", self.sheet, self.line)
    }
}

impl Written for SeasonGen {
    fn read(text: &[u8], least: Least) -> Option<Self> {
        let season = number(text).filter(|n| *n >= least.season)?;
        Some(SeasonGen { season })
    }

    fn write(self, out: &mut String) -> Result<(), AllocError> {
        write!(out, "{}", self.season)
    }
}

impl Written for Unmarked {
    fn read(text: &[u8], _least: Least) -> Option<Self> {
        is_word(text, b"-").then_some(Unmarked)
    }

    fn write(self, out: &mut String) -> Result<(), AllocError> {
        out.push_str("-")
    }
}

/// A pointer kind whose parts a script can write.
pub trait Kind: Ptr {
    fn read_inx(text: &[u8], least: Least) -> Option<Self::Inx>;

    fn read_gen(text: &[u8], least: Least) -> Option<Self::Gen>;

    fn write_inx(inx: Self::Inx, out: &mut String) -> Result<(), AllocError>;

    fn write_gen(generation: Self::Gen, out: &mut String) -> Result<(), AllocError>;
}

impl<I: PtrInx + Written, G: PtrGen + Written> Kind for PtrOf<I, G> {
    fn read_inx(text: &[u8], least: Least) -> Option<I> {
        I::read(text, least)
    }

    fn read_gen(text: &[u8], least: Least) -> Option<G> {
        G::read(text, least)
    }

    fn write_inx(inx: I, out: &mut String) -> Result<(), AllocError> {
        inx.write(out)
    }

    fn write_gen(generation: G, out: &mut String) -> Result<(), AllocError> {
        generation.write(out)
    }
}

/// A pointer of two words.
pub fn read_pointer<P: Kind>(inx: &[u8], generation: &[u8], least: Least) -> Option<P> {
    Some(P::from_raw(P::read_inx(inx, least)?, P::read_gen(generation, least)?))
}

/// A pointer as answers write it.
pub fn write_pointer<P: Kind>(p: P, out: &mut String) -> Result<(), AllocError> {
    P::write_inx(p.inx(), out)?;
    out.push_str("/")?;
    P::write_gen(p.generation(), out)
}
