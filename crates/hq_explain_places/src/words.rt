//! Words that are told to a person.
ghost use Rattle.std.specs.Prelude.{◌≡◌, ◌∷◌, [], Some, None, IfOk, OnErr, if◌then◌else◌, decimal};
ghost use Rattle.std.specs.Fmt.{signed_decimal};
ghost use Rattle.hq_explain_places.specs.Words.{Adds, is_cut, shown, shown_byte, quoted, place_text};

use crate::Place;
use crate::place::begins_character;
use hq_base::{Bytes, Memory, Txt};
use itoa::Buffer;
use std::alloc::Global;
use std::marker::Model;

// The most bytes that are shown of one value.
const SHOWN: usize = 60;

/// A text to which pieces are added. Want of memory is told at its end, so that none is asked after.
#[derive(Drop)]
pub struct Words {
    text: Bytes,
    full: bool,
}

impl Model for Words {
    ghost use Rattle.std.specs.Prelude.{List, ℕ, Option, Some, None, if◌then◌else◌};

    ghost Value = { Option (List ℕ) };

    ghost view = { λ w. if w.full then None else Some w.text };
}

// A byte as it is shown: a blank for one that would move what is shown behind it.
fn shown_byte(byte: u8) -> u8
    ensures { result ≡ shown_byte byte }
{
    if byte < 32 || byte == 127 { b' ' } else { byte }
}

// Whether a text is cut before a byte, when so many more may be shown.
fn is_cut(left: usize, byte: u8) -> bool
    ensures { result ≡ is_cut left byte }
{
    left == 0 && begins_character(byte)
}

impl Words {
    /// No text.
    pub fn new(alloc: Global) -> Words
        ensures { result ≡ Some [] }
    {
        Words {
            text: Bytes::new(alloc),
            full: false,
        }
    }

    /// Takes note of want of memory elsewhere.
    pub fn stop_if(&mut self, full: bool)
        ensures { self.new ≡ (if full then None else self.old) }
    {
        self.full = self.full || full;
    }

    /// Adds these bytes, as they are.
    pub fn put_bytes(&mut self, piece: &[u8])
        ensures { Adds self.old self.new piece.now }
    {
        let added = self.text.append(piece);
        self.full = self.full || added.is_err();
    }

    /// Adds a piece.
    pub fn put(&mut self, piece: &str)
        ensures { Adds self.old self.new piece.now }
    {
        self.put_bytes(piece.as_bytes());
    }

    /// Adds a byte, as it is.
    pub fn put_byte(&mut self, byte: u8)
        ensures { Adds self.old self.new (byte ∷ []) }
    {
        let added = self.text.push(byte);
        self.full = self.full || added.is_err();
    }

    /// Adds a part of a text on one line, cut before the first character behind so many bytes.
    pub fn put_cut(&mut self, piece: &[u8], most: usize)
        ensures { Adds self.old self.new (shown most piece.now) }
    {
        let mut rest = piece;
        let mut left = most;
        'bytes: while let [byte, later @ ..] = rest {
            if is_cut(left, *byte) {
                self.put("..");
                return;
            }
            self.put_byte(shown_byte(*byte));
            left = left.saturating_sub(1);
            rest = later;
        }
    }

    /// Adds a part of a text, on one line and cut short.
    pub fn put_shown(&mut self, piece: &[u8])
        ensures { Adds self.old self.new (shown 60 piece.now) }
    {
        self.put_cut(piece, SHOWN);
    }

    /// Adds a text in quotes, on one line and cut short.
    pub fn put_quoted(&mut self, piece: &[u8])
        ensures { Adds self.old self.new (quoted piece.now) }
    {
        self.put("\"");
        self.put_shown(piece);
        self.put("\"");
    }

    /// Adds a name in quotes.
    pub fn put_name(&mut self, name: &Txt)
        ensures { Adds self.old self.new (quoted name.now) }
    {
        self.put_quoted(name.as_bytes());
    }

    /// Adds a number.
    pub fn put_number(&mut self, number: u64)
        ensures { Adds self.old self.new (decimal number) }
    {
        self.put(Buffer::new().format(number));
    }

    /// Adds a number.
    pub fn put_count(&mut self, count: usize)
        ensures { Adds self.old self.new (decimal count) }
    {
        self.put(Buffer::new().format(count));
    }

    /// Adds a whole number.
    pub fn put_int(&mut self, number: i64)
        ensures { Adds self.old self.new (signed_decimal number) }
    {
        self.put(Buffer::new().format(number));
    }

    /// Adds a line and a column.
    pub fn put_place(&mut self, place: Place)
        ensures { Adds self.old self.new (place_text place.line place.column) }
    {
        self.put(Buffer::new().format(place.line));
        self.put(":");
        self.put(Buffer::new().format(place.column));
    }

    /// The text, or that memory was wanting.
    pub fn told(self) -> Result<Bytes, Memory>
        ensures ok { IfOk result (λ text. self ≡ Some text) }
        ensures err { OnErr result (self ≡ None) }
    {
        let Words { text, full } = self;
        if full { Err(Memory) } else { Ok(text) }
    }
}
