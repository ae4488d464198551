ghost use Rattle.std.specs.Prelude.{◌≡◌, ◌++◌, OnOk, decimal};
ghost use Rattle.hq_live_serve.specs.Lines.{end_text, line_of};

use hq_base::{Bytes, Memory};
use hq_live_talk::TalkEnd;
use itoa::Buffer;

// Adds a word and a number, in decimal.
fn put_with_number(out: &mut Bytes, word: &[u8], number: u64) -> Result<(), Memory>
    ensures { OnOk result (out.new ≡ out.old ++ word.now ++ decimal number) }
{
    let mut buffer = Buffer::new();
    out.append(word)?;
    out.append(buffer.format(number).as_bytes())
}

// Adds how a talk ended.
#[tactic(auto, unfolding(crate::specs::Lines::end_text))]
fn put_end(out: &mut Bytes, end: TalkEnd) -> Result<(), Memory>
    ensures { OnOk result (out.new ≡ out.old ++ end_text end) }
{
    match end {
        TalkEnd::Ended => out.append(b"ended"),
        TalkEnd::Closed { code } => put_with_number(out, b"closed ", u64::from(code)),
        TalkEnd::Spent => out.append(b"spent"),
        TalkEnd::LinkFault => out.append(b"link fault"),
        TalkEnd::Memory => out.append(b"memory"),
    }
}

/// Makes the line after the talk of this number.
pub fn put_line(out: &mut Bytes, number: u64, end: TalkEnd) -> Result<(), Memory>
    ensures { OnOk result (out.new ≡ line_of number end) }
{
    out.clear();
    put_with_number(out, b"connection ", number)?;
    out.append(b": ")?;
    put_end(out, end)?;
    out.append(b"\n")
}
