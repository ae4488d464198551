//! Connections.

use crate::replies::Replies;
use hq_base::{Json, List};
use hq_cases_file::{Case, Stop, Words, push_bytes};
use hq_http::serve_connection;
use hq_io::NumList;
use hq_io_memory::MemLink;
use std::alloc::Global;

// The most bytes that a link takes.
const ROOM: usize = 1_000_000;

fn number(json: &Json) -> Result<u64, Stop> {
    match json {
        Json::Int(n) => match u64::try_from(*n) {
            Ok(n) => Ok(n),
            Err(_) => Err(Stop::Shape),
        },
        _ => Err(Stop::Shape),
    }
}

// The numbers of the calls of a link that fail.
fn failing(alloc: Global, case: &Case, member: &str) -> Result<NumList, Stop> {
    let list = case.list(member)?;
    let mut numbers = List::new(alloc);
    for json in list {
        numbers.push(number(json)?)?;
    }
    Ok(numbers)
}

// The link of a case.
fn link(alloc: Global, case: &Case) -> Result<MemLink, Stop> {
    let reads = failing(alloc, case, "failing_reads")?;
    let writes = failing(alloc, case, "failing_writes")?;
    let input = case.bytes(alloc, "in")?;
    Ok(MemLink::new(alloc, input, ROOM, reads, writes)?)
}

fn push_served(alloc: Global, link: &mut MemLink, replies: &mut Replies, out: &mut Words) {
    out.push_debug(&serve_connection(alloc, link, replies));
    out.push(" | ");
    push_bytes(alloc, link.out.bytes(), out);
}

/// How a connection ends, and what is written to it.
pub fn tell_connection(alloc: Global, case: &Case, out: &mut Words) -> Result<(), Stop> {
    let mut replies = Replies::given(alloc, case)?;
    let mut link = link(alloc, case)?;
    push_served(alloc, &mut link, &mut replies, out);
    Ok(())
}
