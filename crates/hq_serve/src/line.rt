ghost use Rattle.std.specs.Prelude.{◌≡◌, ◌++◌, OnOk, decimal};
ghost use Rattle.hq_serve.specs.Lines.{end_text, line_of};

use hq_base::{Bytes, Memory};
use hq_http::ConnEnd;
use itoa::Buffer;

// Adds a number, in decimal.
fn put_number(out: &mut Bytes, number: u64) -> Result<(), Memory>
    ensures { OnOk result (out.new ≡ out.old ++ decimal number) }
{
    let mut buffer = Buffer::new();
    out.append(buffer.format(number).as_bytes())
}

// Adds a word and a number.
fn put_with_number(out: &mut Bytes, word: &[u8], number: u64) -> Result<(), Memory>
    ensures { OnOk result (out.new ≡ out.old ++ word.now ++ decimal number) }
{
    out.append(word)?;
    put_number(out, number)
}

// Adds how a connection ended.
#[tactic(auto, unfolding(crate::specs::Lines::end_text))]
fn put_end(out: &mut Bytes, end: ConnEnd) -> Result<(), Memory>
    ensures { OnOk result (out.new ≡ out.old ++ end_text end) }
{
    match end {
        ConnEnd::Ended => out.append(b"ended"),
        ConnEnd::Refused { status } => put_with_number(out, b"refused ", u64::from(status)),
        ConnEnd::Cut { bytes } => put_with_number(out, b"cut ", bytes),
        ConnEnd::Spent => out.append(b"spent"),
        ConnEnd::ReadFault => out.append(b"read fault"),
        ConnEnd::WriteFault => out.append(b"write fault"),
        ConnEnd::Memory => out.append(b"memory"),
    }
}

/// Makes the line after the connection of this number.
pub fn put_line(out: &mut Bytes, number: u64, end: ConnEnd) -> Result<(), Memory>
    ensures { OnOk result (out.new ≡ line_of number end) }
{
    out.clear();
    put_with_number(out, b"connection ", number)?;
    out.append(b": ")?;
    put_end(out, end)?;
    out.append(b"\n")
}
