// Bytes split at a byte.
ghost use Rattle.std.specs.Prelude.{◌≡◌, ◌==◌, ◌<◌, [], ◌∷◌, length, position, IfSome, Some, None, MatchOption};
ghost use Rattle.std.specs.Iterator.{YieldsFirstRef, item_count};
ghost use Rattle.text.specs.Fields.{four_in_some};
ghost use Rattle.text.specs.Split.{split, four_of, lines_of};

// Where the byte `at` first stands.
fn first_index(bytes: &[u8], at: u8) -> Option<usize>
    ensures { result ≡ position (λ b. b == at) bytes.now }
{
    bytes.iter().position(|b| *b == at)
}

/// Fields and lines are both cut by this: what stands before the first byte `at`, and after it.
pub fn split_once(bytes: &[u8], at: u8) -> Option<(&[u8], &[u8])>
    ensures parts { MatchOption result (split at bytes.now ≡ bytes.now ∷ []) (λ p. split at bytes.now ≡ p.0.now ∷ split at p.1.now) }
    ensures shorter { IfSome result (λ p. length p.1.now < length bytes.now) }
{
    let i = first_index(bytes, at)?;
    Some((&bytes[..i], &bytes[i + 1..]))
}

/// The four parts of a line, as they stand in it.
#[derive(Clone, Copy)]
pub struct Fields<'a> {
    pub call: &'a [u8],
    pub slot: &'a [u8],
    pub generation: &'a [u8],
    pub value: &'a [u8],
}

/// None where the line has fewer than four fields, or more.
pub fn four_fields(line: &[u8]) -> Option<Fields<'_>>
    ensures { four_in_some result ≡ four_of (split 32 line.now) }
{
    let (call, rest) = split_once(line, b' ')?;
    let (slot, rest) = split_once(rest, b' ')?;
    let (generation, value) = split_once(rest, b' ')?;
    if split_once(value, b' ').is_some() {
        return None;
    }
    Some(Fields {
        call,
        slot,
        generation,
        value,
    })
}

/// The first line of a text and the rest; None of the empty text. Byte 10 ends a line, and the last line may lack it.
pub fn first_line(text: &[u8]) -> Option<(&[u8], &[u8])>
    ensures first { MatchOption result (text.now ≡ []) (λ p. lines_of text.now ≡ p.0.now ∷ lines_of p.1.now) }
    ensures shorter { IfSome result (λ p. length p.1.now < length text.now) }
{
    if text.is_empty() {
        return None;
    }
    Some(split_once(text, b'\n').unwrap_or((text, &[])))
}

/// The lines of a text, each without its byte 10.
#[derive(Drop)]
pub struct Lines<'a> {
    rest: &'a [u8],
}

impl<'a> Lines<'a> {
    /// All lines of `text`, first to last.
    pub fn new(text: &'a [u8]) -> Self
        ensures { lines_of result.rest.now ≡ lines_of text.now }
    {
        Lines { rest: text }
    }
}

impl<'a> Iterator for Lines<'a> {
    type Item = &'a [u8];

    ghost next_gives = { YieldsFirstRef (λ s. lines_of s.rest.now) };

    ghost remaining = { item_count (λ s. lines_of s.rest.now) };

    fn next(&mut self) -> Option<&'a [u8]> {
        let (line, rest) = first_line(self.rest)?;
        self.rest = rest;
        Some(line)
    }
}
