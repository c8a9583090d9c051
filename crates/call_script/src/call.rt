// The calls of a script.

use crate::correction::Correction;
use crate::kind::Kind;
use crate::request::Request;
use crate::value::Datum;

/// What an arena holds.
#[derive(Clone, Copy)]
pub enum Of {
    Numbers,
    Pointers,
}

/// A new arena.
#[derive(Clone, Copy)]
pub struct Making<'t> {
    pub name: &'t [u8],
    pub of: Of,
    pub request: Request,
}

/// A call of a line on arenas that are there, with the names in it.
#[derive(Drop)]
pub enum Call<'t, P: Kind> {
    OnOne {
        name: &'t [u8],
        call: One<P>,
    },
    OnList {
        name: &'t [u8],
        correction: Correction,
        cited: Cited<P>,
    },
    OnTwo {
        first: &'t [u8],
        second: &'t [u8],
        call: Two<P>,
    },
    Begin {
        advancer: &'t [u8],
        arena: &'t [u8],
        start: Start<P>,
    },
    Advance {
        advancer: &'t [u8],
        arena: &'t [u8],
    },
}

/// A call on one arena.
#[derive(Drop)]
pub enum One<P: Kind> {
    Ask(Question<P>),
    Give(Giving<P>, Datum<P>),
    Take(Taking<P>),
    ChangeAll(ChangeAll),
    Compress(Correction),
    Limit(usize),
    Recast(P),
}

/// What leaves the arena as it is.
#[derive(Drop)]
pub enum Question<P: Kind> {
    Get(P),
    Contains(P),
    GetInx(P::Inx),
    First,
    Last,
    Capacity,
    Dump,
}

/// What gives a record a value.
#[derive(Drop)]
pub enum Giving<P: Kind> {
    Insert(P),
    Edit(P),
    EditInx(P::Inx),
}

/// What takes a record out, or its pointer from whoever has it.
#[derive(Drop)]
pub enum Taking<P: Kind> {
    Remove(P),
    RemoveInx(P::Inx),
    Invalidate(P),
}

/// What changes the arena as a whole, with no mapper.
#[derive(Clone, Copy)]
pub enum ChangeAll {
    Clear,
    Trim(usize),
    Reserve(usize),
    Drain(usize),
}

/// The records of a list edit.
#[derive(Drop)]
pub enum Cited<P: Kind> {
    Indices(Vec<P::Inx>),
    Pointers(Vec<P>),
}

/// A call on two arenas.
#[derive(Drop)]
pub enum Two<P: Kind> {
    CloneFrom(Correction),
    TransferFrom(P::Gen, Correction),
    CompressInto(Correction),
    RecastBy,
    JoinWith,
}

/// Where an advancer starts, and which way it goes.
#[derive(Drop)]
pub enum Start<P: Kind> {
    Forward,
    Backward,
    At { inx: P::Inx, rev: bool },
}
