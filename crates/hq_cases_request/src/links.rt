//! The door that a case writes: links in memory, none where the member `links` is absent.

use crate::directory::{failing, numbers};
use hq_base::{Bytes, Json, List};
use hq_cases_file::{Case, Stop, Words, input_bytes, push_bytes};
use hq_io::NumList;
use hq_io_memory::{MemDoor, MemLink, MemLinkList};
use std::alloc::Global;

// The most bytes that a link takes.
const ROOM: usize = 1_000_000;

/// The numbers of the calls of a link that fail, none where the member is absent.
pub fn failing_calls(alloc: Global, link: &Json, member: &str) -> Result<NumList, Stop> {
    match link.member(member) {
        Some(json) => numbers(alloc, json),
        None => Ok(List::new(alloc)),
    }
}

// The bytes that come in on a link.
fn bytes_in(alloc: Global, link: &Json) -> Result<Bytes, Stop> {
    match link.member("in") {
        Some(pieces) => input_bytes(alloc, pieces),
        None => Err(Stop::Shape),
    }
}

// A link with this input.
fn link_over(alloc: Global, link: &Json, input: Bytes) -> Result<MemLink, Stop> {
    let reads = failing_calls(alloc, link, "reads")?;
    let writes = failing_calls(alloc, link, "writes")?;
    Ok(MemLink::new(alloc, input, ROOM, reads, writes)?)
}

fn link(alloc: Global, link: &Json) -> Result<MemLink, Stop> {
    link_over(alloc, link, bytes_in(alloc, link)?)
}

fn links(alloc: Global, case: &Case) -> Result<MemLinkList, Stop> {
    let mut links = List::new(alloc);
    if let Some(Json::Arr(elements)) = case.find("links") {
        for element in elements {
            links.push(link(alloc, element)?)?;
        }
    }
    Ok(links)
}

/// The door.
pub fn door(alloc: Global, case: &Case) -> Result<MemDoor, Stop> {
    let accepts = failing(alloc, case, "accepts")?;
    Ok(MemDoor::new(alloc, links(alloc, case)?, accepts))
}

// How many links a case writes.
fn count(case: &Case) -> usize {
    match case.find("links") {
        Some(Json::Arr(elements)) => elements.len(),
        _ => 0,
    }
}

/// Adds what was written to each link, behind a bar.
pub fn push_links(alloc: Global, case: &Case, door: &MemDoor, words: &mut Words) {
    for at in 0..count(case) {
        if let Some(link) = door.link_at(at) {
            words.push(" | ");
            push_bytes(alloc, link.out.bytes(), words);
        }
    }
}
