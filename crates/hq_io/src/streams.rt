ghost use Rattle.std.specs.Prelude.{◌≡◌, ◌+◌, ◌≤◌, length, IfOk, OnOk, IsErrOf, IfSome};
ghost use Rattle.std.specs.Io.KnownBytes.{Appends, Consumes, IsAtEnd};
ghost use Rattle.hq_io.specs.Causes.{Rose, HasCause};
ghost use Rattle.hq_io.specs.Streams.{AppendsPrefix, ConsumesUpTo, ReadsAll};

use crate::{Link, ReadFailed, Sink, Source, WriteFailed};
use hq_base::{Bytes, Memory};
use std::alloc::Global;
use thiserror::Error;

/// Why an input was not read whole.
#[derive(Clone, Copy, Debug, PartialEq, Eq, Error)]
pub enum InputRefusal {
    /// A read failed, and the count of faults rose.
    #[error("read failed")]
    Failed,
    /// The input has more bytes than the limit.
    #[error("input too long")]
    TooLong,
    #[error("out of memory")]
    Memory,
}

impl From<Memory> for InputRefusal {
    ghost use Rattle.std.specs.Prelude.{◌≡◌};
    ghost use Rattle.hq_io.specs.declared.streams.InputRefusal.TheVariants as refusal;

    ghost from_gives = { λ _ e. e ≡ refusal.Memory };

    fn from(_: Memory) -> Self {
        InputRefusal::Memory
    }
}

impl From<ReadFailed> for InputRefusal {
    ghost use Rattle.std.specs.Prelude.{◌≡◌};
    ghost use Rattle.hq_io.specs.declared.streams.InputRefusal.TheVariants as refusal;

    ghost from_gives = { λ _ e. e ≡ refusal.Failed };

    fn from(_: ReadFailed) -> Self {
        InputRefusal::Failed
    }
}

// How many bytes are read at a time.
const PIECE: usize = 4096;

/// Reads all that is left. Of an input that has more bytes than the limit, it reads one byte more than that.
pub fn read_all<S: Source>(
    alloc: Global,
    input: &mut S,
    limit: usize,
) -> Result<Bytes, InputRefusal>
    ensures told { IfSome (S.left input.old) (λ left. ReadsAll limit left result) }
    ensures within { IfOk result (λ bytes. length bytes ≤ limit) }
    ensures bytes { IfOk result (λ bytes. Consumes (S.left input.old) (S.left input.new) bytes × IsAtEnd (S.left input.new)) }
    ensures moved { ConsumesUpTo (S.left input.old) (S.left input.new) (limit + 1) }
    ensures failed { IsErrOf result InputRefusal.Failed → Rose (S.faults input.old) (S.faults input.new) }
    ensures later { S.faults input.old ≤ S.faults input.new }
{
    let mut bytes = Bytes::new(alloc);
    let mut buf = [0u8; PIECE];
    'pieces: while bytes.len() <= limit {
        let room = (PIECE - 1).min(limit - bytes.len()) + 1;
        let count = input.read(&mut buf[..room])?;
        if count == 0 {
            return Ok(bytes);
        }
        bytes.append(&buf[..count])?;
    }
    Err(InputRefusal::TooLong)
}

/// Writes all the bytes, or those that go before a fault.
pub fn write_all<K: Sink>(out: &mut K, bytes: &[u8]) -> Result<(), WriteFailed>
    ensures ok { OnOk result (Appends (K.written out.old) (K.written out.new) bytes.now) }
    ensures prefix { AppendsPrefix (K.written out.old) (K.written out.new) bytes.now }
    ensures cause { HasCause (K.faults out.old) (K.faults out.new) result }
{
    let mut done = 0;
    'pieces: while done < bytes.len() {
        let (_, rest) = bytes.split_at(done);
        done += out.write(rest)?;
    }
    Ok(())
}

/// Writes all the bytes to a link, or those that go before a fault.
pub fn send_all<L: Link>(link: &mut L, bytes: &[u8]) -> Result<(), WriteFailed>
    ensures ok { OnOk result (Appends (L.written link.old) (L.written link.new) bytes.now) }
    ensures prefix { AppendsPrefix (L.written link.old) (L.written link.new) bytes.now }
    ensures cause { HasCause (L.write_faults link.old) (L.write_faults link.new) result }
    ensures left { L.left link.new ≡ L.left link.old }
    ensures read_faults { L.read_faults link.new ≡ L.read_faults link.old }
{
    let mut sent = 0;
    'pieces: while sent < bytes.len() {
        let (_, rest) = bytes.split_at(sent);
        sent += link.write(rest)?;
    }
    Ok(())
}
