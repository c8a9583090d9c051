// The stack that an arena is made over.

use crate::word::{Words, count};
use text::word::is_word;

/// A stack, and the capacity that it is asked for: none of a heap stack without memory.
#[derive(Clone, Copy)]
pub enum Request {
    Fixed(usize),
    Limited(usize),
    Heap(Option<usize>),
}

impl Request {
    fn with(stack: &[u8], capacity: usize) -> Option<Request> {
        if is_word(stack, b"fixed") {
            Some(Request::Fixed(capacity))
        } else if is_word(stack, b"limited") {
            Some(Request::Limited(capacity))
        } else {
            is_word(stack, b"heap").then_some(Request::Heap(Some(capacity)))
        }
    }

    /// The last words of a line that makes an arena.
    pub fn read(words: &mut Words<'_>) -> Option<Request> {
        let stack = words.word()?;
        match words.word() {
            Some(capacity) => Request::with(stack, count(capacity)?),
            None => is_word(stack, b"heap").then_some(Request::Heap(None)),
        }
    }
}
