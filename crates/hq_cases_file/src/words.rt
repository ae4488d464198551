use crate::Stop;
use std::alloc::{AllocError, Global};
use std::fmt::{Debug, Display};

/// A text to which pieces are added. What stops one of them is told at the text's end, so that none is asked after.
#[derive(Drop)]
pub struct Words {
    text: String,
    stopped: Option<Stop>,
}

impl Words {
    /// The empty text.
    pub fn new(alloc: Global) -> Words {
        Words {
            text: String::new(alloc),
            stopped: None,
        }
    }

    /// Takes note of what stops the text, unless something did before.
    pub fn stop(&mut self, stop: Stop) {
        if self.stopped.is_none() {
            self.stopped = Some(stop);
        }
    }

    // Takes note of whether a piece was added.
    fn note(&mut self, added: Result<(), AllocError>) {
        if added.is_err() {
            self.stop(Stop::Memory);
        }
    }

    /// Adds a piece.
    pub fn push(&mut self, piece: &str) {
        let added = self.text.push_str(piece);
        self.note(added);
    }

    /// Adds two pieces.
    pub fn push_pair(&mut self, first: &str, second: &str) {
        self.push(first);
        self.push(second);
    }

    /// Adds what is shown of a value.
    pub fn push_shown<T: Display>(&mut self, value: &T) {
        let added = write!(self.text, "{value}");
        self.note(added);
    }

    /// Adds what is shown of a value to programmers.
    pub fn push_debug<T: Debug>(&mut self, value: &T) {
        let added = write!(self.text, "{value:?}");
        self.note(added);
    }

    /// Adds a number.
    pub fn push_number(&mut self, number: u64) {
        self.push_shown(&number);
    }

    /// Adds a place.
    pub fn push_place(&mut self, place: usize) {
        self.push_shown(&place);
    }

    /// Adds another text, and what stopped it.
    pub fn push_words(&mut self, other: &Words) {
        self.push(other.text.as_str());
        if let Some(stop) = other.stopped {
            self.stop(stop);
        }
    }

    /// The text, or what stopped it.
    pub fn told(self) -> Result<String, Stop> {
        let Words { text, stopped } = self;
        match stopped {
            None => Ok(text),
            Some(stop) => Err(stop),
        }
    }
}
