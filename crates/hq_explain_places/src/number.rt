//! What keeps a text from being a JSON value of whole numbers and of texts without a zero byte.
ghost use Rattle.std.specs.Prelude.{IfOk, IsNone, IsSome, IsUtf8};
ghost use Rattle.serde_json.specs.Read.{read};

use hq_base::Memory;
use serde_json::Value;
use std::alloc::Global;

/// What is odd in a JSON value.
#[derive(Clone, Copy, Debug, PartialEq, Eq)]
pub enum Odd {
    /// A number that is not a whole number of 64 bits with sign.
    Fraction,
    /// A text with a zero byte.
    ZeroByte,
}

// A walk over a text, to the first such number or text.
#[derive(Drop)]
struct Walk {
    quoted: bool,
    // How much of the escape of a zero byte was read.
    escape: usize,
    // The number that is read: where it begins, its sign and its absolute value.
    number: Option<usize>,
    negative: bool,
    value: u128,
    odd: Option<(usize, Odd)>,
}

// The escape of a zero byte.
const ZERO: &[u8; 6] = b"\\u0000";

impl Walk {
    // A byte of a string.
    fn text(&mut self, at: usize, byte: u8) {
        let fits = self.escape > 0 && ZERO.get(self.escape) == Some(&byte);
        if fits && self.escape == 5 {
            self.odd = Some((at.saturating_sub(5), Odd::ZeroByte));
        } else if fits {
            self.escape = self.escape.saturating_add(1);
        } else if self.escape == 1 {
            // An escaped character, which ends no string.
            self.escape = 0;
        } else {
            self.escape = usize::from(byte == b'\\');
            self.quoted = byte != b'"';
        }
    }

    // The number that was read ends.
    fn end_number(&mut self) {
        let most = if self.negative {
            1u128 << 63
        } else {
            (1u128 << 63) - 1
        };
        let minus_zero = self.negative && self.value == 0;
        if let Some(at) = self.number {
            if self.value > most || minus_zero {
                self.odd = Some((at, Odd::Fraction));
            }
        }
        self.number = None;
        self.negative = false;
        self.value = 0;
    }

    // A byte outside strings.
    fn outside(&mut self, at: usize, byte: u8) {
        match (self.number, byte) {
            (None, b'-' | b'0'..=b'9') => {
                self.number = Some(at);
                self.negative = byte == b'-';
                self.value = u128::from(if byte == b'-' {
                    0
                } else {
                    byte.saturating_sub(b'0')
                });
            }
            (Some(_), b'0'..=b'9') => {
                self.value = self
                    .value
                    .saturating_mul(10)
                    .saturating_add(u128::from(byte.saturating_sub(b'0')));
            }
            (Some(start), b'.' | b'e' | b'E') => self.odd = Some((start, Odd::Fraction)),
            (Some(_), _) => self.end_number(),
            (None, _) => {}
        }
        if byte == b'"' {
            self.quoted = true;
        }
    }
}

/// The place of the first number that is not whole or does not fit 64 bits, or of the escape of a zero byte, in the text of a JSON
/// value.
pub fn first_odd(text: &[u8]) -> Option<(usize, Odd)> {
    let mut walk = Walk {
        quoted: false,
        escape: 0,
        number: None,
        negative: false,
        value: 0,
        odd: None,
    };
    for (at, byte) in text.iter().enumerate() {
        if walk.odd.is_some() {
            return walk.odd;
        }
        if walk.quoted {
            walk.text(at, *byte);
        } else {
            walk.outside(at, *byte);
        }
    }
    walk.end_number();
    walk.odd
}

// The place of a column of a line, both from 1.
fn index_of(text: &[u8], line: usize, column: usize) -> usize {
    let mut left = line;
    let mut start = 0usize;
    for (at, byte) in text.iter().enumerate() {
        if left > 1 && *byte == b'\n' {
            left = left.saturating_sub(1);
            start = at.saturating_add(1);
        }
    }
    start
        .saturating_add(column.saturating_sub(1))
        .min(text.len())
}

/// The place from which on a text is no JSON, as `serde_json` tells it; none where it is JSON.
pub fn syntax_error(alloc: Global, text: &[u8]) -> Result<Option<usize>, Memory>
    ensures { IfOk result (λ at. IsNone at → IsUtf8 text.now × IsSome (read text.now)) }
{
    match Value::from_slice(alloc, text) {
        Ok(_) => Ok(None),
        Err(error) if error.is_memory() => Err(Memory),
        Err(error) if error.is_eof() => Ok(Some(text.len())),
        Err(error) => Ok(Some(index_of(text, error.line(), error.column()))),
    }
}
