//! The lines that `hq gen N` writes.
ghost use Rattle.std.specs.Prelude.{◌≡◌, ◌++◌, OnOk};
ghost use Rattle.std.specs.Fmt.{decimal};
ghost use Rattle.hq_generator.specs.Lines.{reply_line, steps_line};

use hq_base::{Bytes, Memory};
use itoa::Buffer;

// Adds the digits of a number.
fn put_number(out: &mut Bytes, number: u64) -> Result<(), Memory>
    ensures { OnOk result (out.new ≡ out.old ++ decimal number) }
{
    let mut digits = Buffer::new();
    out.append(digits.format(number).as_bytes())
}

/// Adds the line of the reply to the request of this number, whose body has so many bytes.
pub fn put_reply_line(out: &mut Bytes, number: u64, bytes: u64) -> Result<(), Memory>
    ensures { OnOk result (out.new ≡ out.old ++ reply_line number bytes) }
{
    out.append(b"request ")?;
    put_number(out, number)?;
    out.append(b": ")?;
    put_number(out, bytes)?;
    out.append(b" bytes\n")
}

/// Adds the line of the steps that look-ups by index took.
pub fn put_steps_line(out: &mut Bytes, steps: u64) -> Result<(), Memory>
    ensures { OnOk result (out.new ≡ out.old ++ steps_line steps) }
{
    out.append(b"steps: ")?;
    put_number(out, steps)?;
    out.append(b"\n")
}
