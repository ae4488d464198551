//! Runs of the program over a directory, a door, a disk and a hall in memory.

use crate::directory::{failing, folder};
use crate::links::{door, push_links};
use crate::talks::{hall, push_talks};
use hq_app::{Ran, World, run};
use hq_base::{Bytes, List, Txt};
use hq_cases_file::{Case, Stop, Words, push_bytes};
use hq_io_memory::{MemDisk, MemDoor, MemFiles, MemSink, MemSource};
use hq_messages::MemHall;
use std::alloc::Global;

// What the program is run in.
type Inside = World<MemFiles, MemDoor, MemDisk, MemSource, MemSink, MemSink, MemHall>;

// What a run leaves.
type Left = Ran<MemFiles, MemDoor, MemDisk, MemSource, MemSink, MemSink, MemHall>;

// The bytes of room on each output.
const ROOM: usize = 65_536;

// The bytes of room on the disk.
const DISK_ROOM: usize = 1_048_576;

fn input(alloc: Global, case: &Case) -> Result<MemSource, Stop> {
    let bytes = case.bytes(alloc, "in")?;
    Ok(MemSource::new(bytes, failing(alloc, case, "reads")?))
}

fn output(alloc: Global, case: &Case, member: &str) -> Result<MemSink, Stop> {
    let writes = failing(alloc, case, member)?;
    Ok(MemSink::new(alloc, ROOM, writes)?)
}

// The two outputs.
fn outputs(alloc: Global, case: &Case) -> Result<(MemSink, MemSink), Stop> {
    let out = output(alloc, case, "writes")?;
    Ok((out, output(alloc, case, "errors")?))
}

// What is around a run over this input.
fn world(rt: &HostRuntime, case: &Case, input: MemSource) -> Result<Inside, Stop> {
    let files = folder(rt, case)?;
    let door = door(rt.alloc(), case)?;
    let calls = failing(rt.alloc(), case, "disk")?;
    let disk = MemDisk::new(rt.alloc(), &[], DISK_ROOM, calls)?;
    let hall = hall(rt.alloc(), case)?;
    let (out, err) = outputs(rt.alloc(), case)?;
    Ok(World {
        files,
        door,
        disk,
        input,
        out,
        err,
        hall,
    })
}

fn push_left(alloc: Global, case: &Case, left: &Left, out: &mut Words) {
    out.push_number(u64::from(left.status));
    out.push(": ");
    push_bytes(alloc, left.world.out.bytes(), out);
    push_bytes(alloc, left.world.err.bytes(), out);
    push_links(alloc, case, &left.world.door, out);
    push_talks(alloc, case, &left.world.hall, out);
}

fn push_run(alloc: Global, case: &Case, words: &[Txt], world: Inside, out: &mut Words) {
    let left = run(alloc, words, world);
    push_left(alloc, case, &left, out);
}

// What comes of a run by these words over an input.
fn outcome_over(
    rt: &HostRuntime,
    case: &Case,
    words: &[Txt],
    input: MemSource,
) -> Result<String, Stop> {
    let mut told = Words::new(rt.alloc());
    push_run(rt.alloc(), case, words, world(rt, case, input)?, &mut told);
    told.told()
}

// What comes of a run by these words.
fn outcome(rt: &HostRuntime, case: &Case, words: &[Txt]) -> Result<String, Stop> {
    outcome_over(rt, case, words, input(rt.alloc(), case)?)
}

// The words of the same run with its tables in pages, where its command has one.
fn paged(alloc: Global, words: &[Txt]) -> Result<Option<Vec<Txt>>, Stop> {
    let [command, rest @ ..] = words else {
        return Ok(None);
    };
    if !matches!(command.as_str(), "query" | "serve") {
        return Ok(None);
    }
    let mut paged = Vec::new(alloc);
    paged.push(command.copy(alloc)?)?;
    paged.push(Txt::of(alloc, b"--paged")?)?;
    for word in rest {
        paged.push(word.copy(alloc)?)?;
    }
    Ok(Some(paged))
}

// The words of a query with another command in its place, where they are a query's.
fn of_query(alloc: Global, words: &[Txt], command: &[u8]) -> Result<Option<Vec<Txt>>, Stop> {
    let [query, rest @ ..] = words else {
        return Ok(None);
    };
    if query.as_str() != "query" {
        return Ok(None);
    }
    let mut others = Vec::new(alloc);
    others.push(Txt::of(alloc, command)?)?;
    for word in rest {
        if word.as_str() != "--paged" {
            others.push(word.copy(alloc)?)?;
        }
    }
    Ok(Some(others))
}

// The statement that a run wrote, where it wrote one.
fn written_statement(alloc: Global, left: &Left) -> Result<Option<Bytes>, Stop> {
    let text = left.world.out.bytes();
    if left.status != 0 || text == b"none\n".as_slice() {
        return Ok(None);
    }
    Ok(Some(Bytes::from_slice(alloc, text)?))
}

// The statement that a run by these words writes, where it writes one.
fn statement_by(rt: &HostRuntime, case: &Case, words: &[Txt]) -> Result<Option<Bytes>, Stop> {
    let input = input(rt.alloc(), case)?;
    let left = run(rt.alloc(), words, world(rt, case, input)?);
    written_statement(rt.alloc(), &left)
}

// The text of the statement that a query asks, where it asks one.
fn statement(rt: &HostRuntime, case: &Case, words: &[Txt]) -> Result<Option<Bytes>, Stop> {
    match of_query(rt.alloc(), words, b"sql")? {
        Some(words) => statement_by(rt, case, words.as_slice()),
        None => Ok(None),
    }
}

// What the checker of statements says of a query's statement for its own caller.
fn checked(rt: &HostRuntime, case: &Case, words: &[Txt]) -> Result<Option<String>, Stop> {
    let Some(text) = statement(rt, case, words)? else {
        return Ok(None);
    };
    let Some(words) = of_query(rt.alloc(), words, b"confine")? else {
        return Ok(None);
    };
    let input = MemSource::new(text, List::new(rt.alloc()));
    Ok(Some(outcome_over(rt, case, words.as_slice(), input)?))
}

// Adds what the checker of statements says of a query's statement, where that is no yes.
fn push_doubt(rt: &HostRuntime, case: &Case, words: &[Txt], out: &mut Words) -> Result<(), Stop> {
    if let Some(told) = checked(rt, case, words)? {
        if told.as_str() != "0: yes\n" {
            out.push_pair(" | its statement ", told.as_str());
        }
    }
    Ok(())
}

// Whether one of the words asks for pages.
fn is_paged(words: &[Txt]) -> bool {
    words.iter().any(|word| word.as_str() == "--paged")
}

/// The status of a run, what it wrote, the line that it told, and what each link got and each talk was sent. A query and a `serve` that do not ask for
/// pages run once more with them: what comes of that follows where it is something else. So does what the checker of statements says of a query's
/// statement for its own caller, where that is no yes.
pub fn tell_outcome(rt: &HostRuntime, case: &Case, out: &mut Words) -> Result<(), Stop> {
    let words = case.texts(rt.alloc(), "words")?;
    let told = outcome(rt, case, words.as_slice())?;
    out.push(told.as_str());
    push_doubt(rt, case, words.as_slice(), out)?;
    if is_paged(words.as_slice()) {
        return Ok(());
    }
    if let Some(words) = paged(rt.alloc(), words.as_slice())? {
        let again = outcome(rt, case, words.as_slice())?;
        if again.as_str() != told.as_str() {
            out.push_pair(" | in pages ", again.as_str());
        }
    }
    Ok(())
}
