// What a line of a script asks for.

use crate::call::{Call, ChangeAll, Cited, Giving, Making, Of, One, Question, Start, Taking, Two};
use crate::correction::Correction;
use crate::kind::{Kind, Least, read_pointer};
use crate::request::Request;
use crate::value::Datum;
use crate::verb::Verb;
use crate::word::{Fault, Words, count, number};
use std::alloc::{AllocError, Global};
use text::word::is_word;

// A list edit of a script names so many records at most.
const LONGEST_LIST: usize = 8;

fn amount(words: &mut Words<'_>) -> Option<usize> {
    count(words.word()?)
}

fn correction(words: &mut Words<'_>) -> Option<Correction> {
    Correction::read(words.word()?)
}

fn index<P: Kind>(words: &mut Words<'_>, least: Least) -> Option<P::Inx> {
    P::read_inx(words.word()?, least)
}

fn pointer<P: Kind>(words: &mut Words<'_>, least: Least) -> Option<P> {
    read_pointer(words.word()?, words.word()?, least)
}

// A value: of an arena of numbers one word, of a directory two.
fn datum<P: Kind>(of: Of, words: &mut Words<'_>, least: Least) -> Option<Datum<P>> {
    match of {
        Of::Numbers => Some(Datum::Number(number(words.word()?)?)),
        Of::Pointers => Some(Datum::Pointer(pointer(words, least)?)),
    }
}

fn given<P: Kind>(
    giving: Giving<P>,
    of: Of,
    words: &mut Words<'_>,
    least: Least,
) -> Option<One<P>> {
    let datum = datum(of, words, least)?;
    Some(One::Give(giving, datum))
}

// Calls with nothing behind the name.
fn bare<P: Kind>(verb: Verb) -> Option<One<P>> {
    match verb {
        Verb::First => Some(One::Ask(Question::First)),
        Verb::Last => Some(One::Ask(Question::Last)),
        Verb::Capacity => Some(One::Ask(Question::Capacity)),
        Verb::Dump => Some(One::Ask(Question::Dump)),
        Verb::Clear => Some(One::ChangeAll(ChangeAll::Clear)),
        _ => None,
    }
}

fn counting<P: Kind>(verb: Verb, amount: usize) -> Option<One<P>> {
    match verb {
        Verb::Trim => Some(One::ChangeAll(ChangeAll::Trim(amount))),
        Verb::Reserve => Some(One::ChangeAll(ChangeAll::Reserve(amount))),
        Verb::Drain => Some(One::ChangeAll(ChangeAll::Drain(amount))),
        Verb::Limit => Some(One::Limit(amount)),
        _ => None,
    }
}

// Calls on the record that a pointer cites.
fn citing<P: Kind>(verb: Verb, p: P) -> Option<One<P>> {
    match verb {
        Verb::Get => Some(One::Ask(Question::Get(p))),
        Verb::Contains => Some(One::Ask(Question::Contains(p))),
        Verb::Remove => Some(One::Take(Taking::Remove(p))),
        Verb::Invalidate => Some(One::Take(Taking::Invalidate(p))),
        Verb::Recast => Some(One::Recast(p)),
        _ => None,
    }
}

fn on_one<P: Kind>(verb: Verb, words: &mut Words<'_>, least: Least) -> Option<One<P>> {
    match verb {
        Verb::Insert(of) => given(Giving::Insert(pointer(words, least)?), of, words, least),
        Verb::Edit(of) => given(Giving::Edit(pointer(words, least)?), of, words, least),
        Verb::EditInx(of) => given(Giving::EditInx(index::<P>(words, least)?), of, words, least),
        Verb::GetInx => Some(One::Ask(Question::GetInx(index::<P>(words, least)?))),
        Verb::RemoveInx => Some(One::Take(Taking::RemoveInx(index::<P>(words, least)?))),
        Verb::Trim | Verb::Reserve | Verb::Drain | Verb::Limit => counting(verb, amount(words)?),
        Verb::Compress => Some(One::Compress(correction(words)?)),
        Verb::Get | Verb::Contains | Verb::Remove | Verb::Invalidate | Verb::Recast => {
            citing(verb, pointer(words, least)?)
        }
        _ => bare(verb),
    }
}

fn indices<P: Kind>(
    heap: Global,
    words: &mut Words<'_>,
    least: Least,
) -> Result<Vec<P::Inx>, Fault> {
    let mut list = Vec::new(heap);
    for _ in 0..LONGEST_LIST {
        if !words.is_done() {
            list.push(index::<P>(words, least).ok_or(Fault::Malformed)?)
                .map_err(AllocError::from)?;
        }
    }
    Ok(list)
}

fn pointers<P: Kind>(heap: Global, words: &mut Words<'_>, least: Least) -> Result<Vec<P>, Fault> {
    let mut list = Vec::new(heap);
    for _ in 0..LONGEST_LIST {
        if !words.is_done() {
            list.push(pointer(words, least).ok_or(Fault::Malformed)?)
                .map_err(AllocError::from)?;
        }
    }
    Ok(list)
}

fn transfer<P: Kind>(words: &mut Words<'_>, least: Least) -> Option<Two<P>> {
    let generation = P::read_gen(words.word()?, least)?;
    let correction = correction(words)?;
    Some(Two::TransferFrom(generation, correction))
}

fn on_two<P: Kind>(verb: Verb, words: &mut Words<'_>, least: Least) -> Option<Two<P>> {
    match verb {
        Verb::Clone => Some(Two::CloneFrom(correction(words)?)),
        Verb::Transfer => transfer(words, least),
        Verb::CompressInto => Some(Two::CompressInto(correction(words)?)),
        Verb::RecastArena => Some(Two::RecastBy),
        Verb::Join => Some(Two::JoinWith),
        _ => None,
    }
}

// Whether the way is to lower indices.
fn reversed(words: &mut Words<'_>) -> Option<bool> {
    let way = words.word()?;
    let rev = is_word(way, b"rev");
    (rev || is_word(way, b"fwd")).then_some(rev)
}

fn start<P: Kind>(words: &mut Words<'_>, least: Least) -> Option<Start<P>> {
    let rev = reversed(words)?;
    if words.is_done() {
        return Some(if rev { Start::Backward } else { Start::Forward });
    }
    let inx = index::<P>(words, least)?;
    Some(Start::At { inx, rev })
}

/// The arena that a `make` or `makedir` line asks for.
pub fn making(line: &[u8]) -> Option<Making<'_>> {
    let mut words = Words::new(line);
    let Some(Verb::Make(of)) = Verb::read(words.word()?) else {
        return None;
    };
    let name = words.word()?;
    let request = Request::read(&mut words)?;
    words.is_done().then_some(Making { name, of, request })
}

fn naming_one<'t, P: Kind>(
    verb: Verb,
    name: &'t [u8],
    words: &mut Words<'t>,
    least: Least,
) -> Option<Call<'t, P>> {
    let call = on_one(verb, words, least)?;
    Some(Call::OnOne { name, call })
}

fn naming_two<'t, P: Kind>(
    verb: Verb,
    first: &'t [u8],
    words: &mut Words<'t>,
    least: Least,
) -> Option<Call<'t, P>> {
    let second = words.word()?;
    let call = on_two(verb, words, least)?;
    Some(Call::OnTwo {
        first,
        second,
        call,
    })
}

fn begin<'t, P: Kind>(
    advancer: &'t [u8],
    words: &mut Words<'t>,
    least: Least,
) -> Option<Call<'t, P>> {
    let arena = words.word()?;
    let start = start(words, least)?;
    Some(Call::Begin {
        advancer,
        arena,
        start,
    })
}

fn advance<'t, P: Kind>(advancer: &'t [u8], words: &mut Words<'t>) -> Option<Call<'t, P>> {
    let arena = words.word()?;
    Some(Call::Advance { advancer, arena })
}

// A list edit: a correction, and then the records.
fn on_list<'t, P: Kind>(
    heap: Global,
    verb: Verb,
    name: &'t [u8],
    words: &mut Words<'t>,
    least: Least,
) -> Result<Call<'t, P>, Fault> {
    let correction = correction(words).ok_or(Fault::Malformed)?;
    let cited = match verb {
        Verb::EditList => Cited::Indices(indices::<P>(heap, words, least)?),
        _ => Cited::Pointers(pointers(heap, words, least)?),
    };
    Ok(Call::OnList {
        name,
        correction,
        cited,
    })
}

fn call<'t, P: Kind>(
    heap: Global,
    verb: Verb,
    name: &'t [u8],
    words: &mut Words<'t>,
    least: Least,
) -> Result<Call<'t, P>, Fault> {
    let call = match verb {
        Verb::EditList | Verb::EditPointers => return on_list(heap, verb, name, words, least),
        Verb::Begin => begin(name, words, least),
        Verb::Advance => advance(name, words),
        Verb::Clone | Verb::Transfer | Verb::CompressInto | Verb::RecastArena | Verb::Join => {
            naming_two(verb, name, words, least)
        }
        _ => naming_one(verb, name, words, least),
    };
    call.ok_or(Fault::Malformed)
}

// The first word, and the name behind it.
fn opening<'t>(words: &mut Words<'t>) -> Option<(Verb, &'t [u8])> {
    let verb = Verb::read(words.word()?)?;
    let name = words.word()?;
    Some((verb, name))
}

/// The call that any other line asks for.
pub fn parse<P: Kind>(heap: Global, line: &[u8], least: Least) -> Result<Call<'_, P>, Fault> {
    let mut words = Words::new(line);
    let (verb, name) = opening(&mut words).ok_or(Fault::Malformed)?;
    let call = call(heap, verb, name, &mut words, least)?;
    if words.is_done() {
        return Ok(call);
    }
    Err(Fault::Malformed)
}
