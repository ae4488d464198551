//! Parts of compact text: a name or text in quotes, with the escapes that serde_json writes (RFC 8259, section 7), and commas.
ghost use Rattle.std.specs.Prelude.{◌≡◌, ◌++◌, ◌∷◌, ◌==◌, ◌<◌, [], if◌then◌else◌, OnOk};
ghost use Rattle.std.specs.Char.{digit_char};
ghost use Rattle.hq_base.specs.Compact.{quoted, escaped, short_escape};

use crate::{Bytes, Memory, Txt};

/// Appends a comma before each part but the first, which stands at place 0.
pub fn put_comma(out: &mut Bytes, at: usize) -> Result<(), Memory>
    ensures { OnOk result (out.new ≡ out.old ++ (if at == 0 then [] else 44 ∷ [])) }
{
    if at == 0 { Ok(()) } else { out.push(b',') }
}

/// Appends a text in quotes. Where memory runs out, a part of it may stand behind `out`.
pub fn put_quoted(out: &mut Bytes, text: &Txt) -> Result<(), Memory>
    ensures { OnOk result (out.new ≡ out.old ++ quoted text.now) }
{
    out.push(b'"')?;
    for byte in text.as_bytes() {
        put_escaped(out, *byte)?;
    }
    out.push(b'"')
}

#[tactic(auto, unfolding(crate::specs::Compact::escaped))]
fn put_escaped(out: &mut Bytes, byte: u8) -> Result<(), Memory>
    ensures { OnOk result (out.new ≡ out.old ++ escaped byte) }
{
    if let Some(letter) = short_escape(byte) {
        out.push(b'\\')?;
        out.push(letter)
    } else if byte < 32 {
        out.append(b"\\u00")?;
        out.push(hex_digit(byte / 16))?;
        out.push(hex_digit(byte % 16))
    } else {
        out.push(byte)
    }
}

// The letter of the byte's short escape.
fn short_escape(byte: u8) -> Option<u8>
    ensures { result ≡ short_escape byte }
{
    match byte {
        b'"' | b'\\' => Some(byte),
        8 => Some(b'b'),
        12 => Some(b'f'),
        b'\n' => Some(b'n'),
        b'\r' => Some(b'r'),
        b'\t' => Some(b't'),
        _ => None,
    }
}

fn hex_digit(digit: u8) -> u8
    requires { digit < 16 }
    ensures { result ≡ digit_char digit }
{
    if digit < 10 {
        b'0' + digit
    } else {
        b'a' + (digit - 10)
    }
}
