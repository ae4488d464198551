//! Objects in memory, through the traits that they meet.
use hq_base::{Bytes, List};
use hq_io::{Door, Link, NumList, read_all, write_all};
use hq_io_memory::{MemDoor, MemLink, SureDoor, SureLink, SureSink, SureSource};
use std::alloc::Global;
use std::test::Fail;

fn bytes(alloc: Global, items: &[u8]) -> Result<Bytes, Fail> {
    Ok(Bytes::from_slice(alloc, items)?)
}

// Reads at most eight bytes of a link, and writes them back.
fn echo<L: Link>(link: &mut L) -> Option<usize> {
    let mut buf = [0u8; 8];
    let count = link.read(&mut buf).ok()?;
    link.write(&buf[..count]).ok()
}

// Accepts a link, and echoes it.
fn serve<D: Door>(door: &mut D) -> Option<usize> {
    door.accept().ok()?;
    echo(door.link())
}

// A link with room for four bytes.
fn link(alloc: Global, input: &[u8]) -> Result<MemLink, Fail> {
    let (reads, writes) = (List::new(alloc), List::new(alloc));
    Ok(MemLink::new(alloc, bytes(alloc, input)?, 4, reads, writes)?)
}

// A door to links that are told "one" and "three", whose third accept fails.
fn door(alloc: Global) -> Result<MemDoor, Fail> {
    let mut links = List::new(alloc);
    links.push(link(alloc, b"one")?)?;
    links.push(link(alloc, b"three")?)?;
    let mut failing: NumList = List::new(alloc);
    failing.push(3)?;
    Ok(MemDoor::new(alloc, links, failing))
}

static SERVED: [Option<usize>; 5] = [Some(3), None, Some(4), Some(0), Some(0)];

#[test]
fn links_are_accepted_in_order(rt: HostRuntime) -> Result<(), Fail> {
    let mut door = door(rt.alloc())?;
    assert!(rt; door.listen(80).is_ok());
    for want in &SERVED {
        assert!(rt; serve(&mut door) == *want);
    }
    assert!(rt; door.faults() == 1);
    Ok(())
}

#[test]
fn sure_streams_never_fail(rt: HostRuntime) -> Result<(), Fail> {
    let mut input = SureSource::new(bytes(rt.alloc(), b"hello")?);
    assert!(rt; read_all(rt.alloc(), &mut input, 9)?.len() == 5);
    assert!(rt; write_all(&mut SureSink::new(), b"hello").is_ok());
    Ok(())
}

fn sure_door(alloc: Global) -> Result<SureDoor, Fail> {
    let mut links = List::new(alloc);
    links.push(SureLink::new(bytes(alloc, b"hello")?))?;
    Ok(SureDoor::new(alloc, links))
}

#[test]
fn sure_links_never_fail(rt: HostRuntime) -> Result<(), Fail> {
    let mut door = sure_door(rt.alloc())?;
    assert!(rt; door.listen(80).is_ok());
    assert!(rt; serve(&mut door) == Some(5));
    assert!(rt; serve(&mut door) == Some(0));
    Ok(())
}
