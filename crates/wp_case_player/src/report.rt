//! What is told of a case.

use crate::counts::Counts;
use std::alloc::{AllocError, Global};
use std::str;

/// The first thing that is wrong with a case, or that kept it from being played. What finds it notes it here and goes on.
#[derive(Drop)]
pub(crate) struct Report {
    pub(crate) alloc: Global,
    /// The line of its file that the case is at.
    pub(crate) line: usize,
    /// What is wrong; empty as long as nothing is.
    pub(crate) why: &'static str,
    /// What came out in its place.
    pub(crate) text: Vec<u8>,
    /// What was played of this case and of those before it.
    pub(crate) counts: Counts,
}

/// Bytes as text; what the program writes is never anything else.
pub(crate) fn text_of(bytes: &[u8]) -> &str {
    str::from_utf8(bytes).unwrap_or("what is no text")
}

impl Report {
    pub(crate) fn is_good(&self) -> bool {
        self.why.is_empty()
    }

    /// Notes what is wrong, and what came out in its place; without memory that is left out.
    pub(crate) fn tell(&mut self, why: &'static str, text: &[u8]) {
        if self.is_good() {
            self.why = why;
            let _ = self.text.extend_from_slice(text);
        }
    }

    pub(crate) fn understands_not(&mut self) {
        self.tell("not understood", b"");
    }

    /// What was made; nothing where memory was wanting.
    pub(crate) fn made<T>(&mut self, made: Result<T, AllocError>) -> Option<T> {
        match made {
            Ok(made) => Some(made),
            Err(AllocError) => {
                self.tell("out of memory", b"");
                None
            }
        }
    }

    /// The text, as bytes; none where memory was wanting.
    pub(crate) fn spelled(&mut self, text: Result<String, AllocError>) -> Vec<u8> {
        match self.made(text) {
            Some(text) => text.into_bytes(),
            None => Vec::new(self.alloc),
        }
    }

    pub(crate) fn keep<T: Drop>(&mut self, list: &mut Vec<T>, item: T) {
        if list.push(item).is_err() {
            self.tell("out of memory", b"");
        }
    }

    pub(crate) fn push(&mut self, bytes: &mut Vec<u8>, more: &[u8]) {
        if bytes.extend_from_slice(more).is_err() {
            self.tell("out of memory", b"");
        }
    }

    pub(crate) fn push_line(&mut self, text: &mut Vec<u8>, line: &str) {
        self.push(text, line.as_bytes());
        self.push(text, b"\n");
    }

    /// The parts, one after the other.
    pub(crate) fn joined(&mut self, parts: &[&str]) -> Vec<u8> {
        let mut text = Vec::new(self.alloc);
        for part in parts {
            self.push(&mut text, part.as_bytes());
        }
        text
    }

    /// The number that a case writes there.
    pub(crate) fn number(&mut self, word: &str) -> usize {
        match word.parse::<usize>() {
            Ok(number) => number,
            Err(_) => {
                self.understands_not();
                0
            }
        }
    }
}
