ghost use Rattle.std.specs.Prelude.{◌≡◌, ◌<◌, ◌≤◌};
ghost use Rattle.hq_io.specs.Causes.{Rose};
ghost use Rattle.hq_http.specs.Waits.{FillsTo, Awaits};

use crate::pending::PendingBytes;
use hq_http_request::{Fault, Next, WholeRequest, next_request};
use hq_io::Link;
use httparse::spans::HeaderSpan;

/// Whether enough bytes arrived.
#[derive(Clone, Copy)]
pub enum Filled {
    Enough,
    Over,
    Failed,
}

/// What arrived.
#[derive(Clone, Copy)]
pub enum Arrived {
    Whole(WholeRequest),
    Refused(Fault, bool),
    Over,
    Failed,
}

// Reads until there are so many bytes at hand.
fn fill_to<L: Link>(link: &mut L, pending: &mut PendingBytes, need: usize) -> Filled
    requires { need ≤ 1064960 }
    ensures fills { FillsTo (L.left link.old) (L.left link.new) pending.old pending.new need result }
    ensures failed { result ≡ Filled.Failed → Rose (L.read_faults link.old) (L.read_faults link.new) }
    ensures later { L.read_faults link.old ≤ L.read_faults link.new }
    ensures written { L.written link.new ≡ L.written link.old }
    ensures write_faults { L.write_faults link.new ≡ L.write_faults link.old }
{
    'pieces: while pending.as_slice().len() < need {
        match pending.fill(link) {
            Ok(count) => {
                if count == 0 {
                    return Filled::Over;
                }
            }
            Err(_) => return Filled::Failed,
        }
    }
    Filled::Enough
}

/// Reads until the bytes at hand hold a whole request or a refusal.
pub fn await_next<L: Link>(
    link: &mut L,
    pending: &mut PendingBytes,
    headers: &mut [HeaderSpan; 64],
) -> Arrived
    ensures awaits { Awaits (L.left link.old) (L.left link.new) pending.old pending.new headers.new result }
    ensures failed { result ≡ Arrived.Failed → Rose (L.read_faults link.old) (L.read_faults link.new) }
    ensures later { L.read_faults link.old ≤ L.read_faults link.new }
    ensures written { L.written link.new ≡ L.written link.old }
    ensures write_faults { L.write_faults link.new ≡ L.write_faults link.old }
{
    let mut arrived = next_request(pending.as_slice(), headers);
    'reads: while let Next::More(need) = arrived {
        match fill_to(link, pending, need) {
            Filled::Enough => {}
            Filled::Over => return Arrived::Over,
            Filled::Failed => return Arrived::Failed,
        }
        arrived = next_request(pending.as_slice(), headers);
    }
    match arrived {
        Next::Whole(request) => Arrived::Whole(request),
        Next::Refused(code, is_head) => Arrived::Refused(code, is_head),
        Next::More(_) => Arrived::Over,
    }
}
