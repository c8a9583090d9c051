// Words of a line, and the numbers in them.

use std::alloc::AllocError;
use std::str::from_utf8;

/// Why a line has no answer of its own.
#[derive(Clone, Copy, Drop)]
pub enum Fault {
    /// The line is no call, or names what is not there.
    Malformed,
    /// The program itself is out of memory.
    NoMemory,
}

impl From<AllocError> for Fault {
    fn from(_error: AllocError) -> Self {
        Fault::NoMemory
    }
}

/// The words of a line that are still to be read, with one space between.
#[derive(Clone, Copy)]
pub struct Words<'t> {
    rest: Option<&'t [u8]>,
}

impl<'t> Words<'t> {
    pub fn new(line: &'t [u8]) -> Self {
        Words { rest: Some(line) }
    }

    pub fn word(&mut self) -> Option<&'t [u8]> {
        let rest = self.rest?;
        match rest.iter().position(|b| *b == b' ') {
            Some(space) => {
                self.rest = Some(&rest[space + 1..]);
                Some(&rest[..space])
            }
            None => {
                self.rest = None;
                Some(rest)
            }
        }
    }

    pub fn is_done(&self) -> bool {
        self.rest.is_none()
    }
}

/// A decimal without sign and leading zeros.
pub fn count(text: &[u8]) -> Option<usize> {
    match text {
        [b'0'] | [b'1'..=b'9', ..] => from_utf8(text).ok()?.parse().ok(),
        _ => None,
    }
}

/// The same of 32 bits.
pub fn number(text: &[u8]) -> Option<u32> {
    u32::try_from(count(text)?).ok()
}
