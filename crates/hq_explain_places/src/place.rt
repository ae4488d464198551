//! The line and the column of a byte.
ghost use Rattle.std.specs.Prelude.{◌≡◌, take};
ghost use Rattle.hq_explain_places.specs.Lines.{begins_character, is_line_end, ends_in, characters_in, line_of, column_of};

/// A line and a column, both from 1. A line ends at each line feed, and a column is a character of UTF-8.
#[derive(Clone, Copy, Debug, PartialEq, Eq)]
pub struct Place {
    pub line: u128,
    pub column: u128,
}

// Whether a byte ends a line.
pub(crate) fn is_line_end(byte: u8) -> bool
    ensures { result ≡ is_line_end byte }
{
    byte == b'\n'
}

// Whether a byte of UTF-8 is the first of a character.
pub(crate) fn begins_character(byte: u8) -> bool
    ensures { result ≡ begins_character byte }
{
    byte < 128 || byte >= 192
}

// How many line ends are among these bytes.
fn ends_in(front: &[u8]) -> usize
    ensures { result ≡ ends_in front.now }
{
    front.iter().filter(|byte| is_line_end(**byte)).count()
}

// How many characters begin behind the last line end of these bytes.
fn characters_in(front: &[u8]) -> usize
    ensures { result ≡ characters_in front.now }
{
    front
        .iter()
        .rev()
        .take_while(|byte| !is_line_end(**byte))
        .filter(|byte| begins_character(**byte))
        .count()
}

// The bytes before a place, or all of them.
pub(crate) fn before(text: &[u8], at: usize) -> &[u8]
    ensures { result.now ≡ take at text.now }
{
    if at < text.len() { &text[..at] } else { text }
}

/// The line and the column of the byte at `at`, or of the end of the text.
pub fn place_of(text: &[u8], at: usize) -> Place
    ensures line { result.line ≡ line_of text.now at }
    ensures column { result.column ≡ column_of text.now at }
{
    let front = before(text, at);
    Place {
        line: ends_in(front) as u128 + 1,
        column: characters_in(front) as u128 + 1,
    }
}
