// The first words of lines.

use crate::call::Of;
use text::word::is_word;

/// What a line asks for, before its fields are looked at.
#[derive(Clone, Copy)]
pub enum Verb {
    Make(Of),
    Insert(Of),
    Edit(Of),
    EditInx(Of),
    Get,
    Contains,
    Remove,
    Invalidate,
    Recast,
    GetInx,
    RemoveInx,
    First,
    Last,
    Capacity,
    Clear,
    Dump,
    Trim,
    Reserve,
    Limit,
    Drain,
    Compress,
    EditList,
    EditPointers,
    Clone,
    Transfer,
    CompressInto,
    RecastArena,
    Join,
    Begin,
    Advance,
}

const WORDS: [(&[u8], Verb); 34] = [
    (b"make", Verb::Make(Of::Numbers)),
    (b"makedir", Verb::Make(Of::Pointers)),
    (b"insert", Verb::Insert(Of::Numbers)),
    (b"insertdir", Verb::Insert(Of::Pointers)),
    (b"edit", Verb::Edit(Of::Numbers)),
    (b"editdir", Verb::Edit(Of::Pointers)),
    (b"editinx", Verb::EditInx(Of::Numbers)),
    (b"editinxdir", Verb::EditInx(Of::Pointers)),
    (b"get", Verb::Get),
    (b"contains", Verb::Contains),
    (b"remove", Verb::Remove),
    (b"invalidate", Verb::Invalidate),
    (b"recast", Verb::Recast),
    (b"getinx", Verb::GetInx),
    (b"removeinx", Verb::RemoveInx),
    (b"first", Verb::First),
    (b"last", Verb::Last),
    (b"capacity", Verb::Capacity),
    (b"clear", Verb::Clear),
    (b"dump", Verb::Dump),
    (b"trim", Verb::Trim),
    (b"reserve", Verb::Reserve),
    (b"limit", Verb::Limit),
    (b"drain", Verb::Drain),
    (b"compress", Verb::Compress),
    (b"editlist", Verb::EditList),
    (b"editptrs", Verb::EditPointers),
    (b"clone", Verb::Clone),
    (b"transfer", Verb::Transfer),
    (b"compressdir", Verb::CompressInto),
    (b"recastarena", Verb::RecastArena),
    (b"join", Verb::Join),
    (b"advnew", Verb::Begin),
    (b"adv", Verb::Advance),
];

impl Verb {
    pub fn read(text: &[u8]) -> Option<Verb> {
        for (word, verb) in &WORDS {
            if is_word(text, word) {
                return Some(*verb);
            }
        }
        None
    }
}
