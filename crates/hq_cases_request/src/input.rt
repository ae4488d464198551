//! One statement of SQL over a directory of the system, for measurements, and to see what a statement means.

use crate::statements::database;
use hq_base::{Bytes, Txt};
use hq_cases_file::Stop;
use hq_database::{Database, DbRefusal};
use hq_io::{Sink, read_all, write_all};
use hq_io_system::{DirFiles, StdSink, StdSource};
use hq_load::load;
use hq_load_tables::MemTables;
use hq_sql_database::SqlDb;
use std::alloc::Global;

// The most bytes of a statement.
const STATEMENT_LIMIT: usize = 1_048_576;

// The database of what a directory holds.
fn opened(rt: &HostRuntime, directory: &str) -> Result<SqlDb<MemTables>, Stop> {
    let alloc = rt.alloc();
    let directory = Txt::of(alloc, directory.as_bytes())?;
    match load(alloc, &mut DirFiles::new(*rt), &directory) {
        Ok(loaded) => Ok(database(loaded)),
        Err(_) => Err(Stop::Unread),
    }
}

// The JSON of an answer, or the name of a refusal.
fn text_of(
    alloc: Global,
    database: &mut SqlDb<MemTables>,
    statement: &[u8],
) -> Result<Result<Bytes, DbRefusal>, Stop> {
    match database.run(alloc, statement) {
        Ok(answer) => {
            let mut text = Bytes::new(alloc);
            answer.write_to(&mut text)?;
            Ok(Ok(text))
        }
        Err(refusal) => Ok(Err(refusal)),
    }
}

fn write_bytes<K: Sink>(out: &mut K, bytes: &[u8]) -> Result<(), Stop> {
    write_all(out, bytes).map_err(|_| Stop::Unwritten)
}

/// Writes what the statement of the standard input is answered with over a directory: its JSON, or the name of its refusal.
/// Returns whether it was answered.
pub fn answer_input(rt: &HostRuntime, directory: &str) -> Result<bool, Stop> {
    let alloc = rt.alloc();
    let mut input = StdSource::new(rt.stdin());
    let mut out = StdSink::new(rt.stdout());
    let mut database = opened(rt, directory)?;
    let Ok(statement) = read_all(alloc, &mut input, STATEMENT_LIMIT) else {
        return Err(Stop::Unread);
    };
    match text_of(alloc, &mut database, statement.as_slice())? {
        Ok(text) => {
            write_bytes(&mut out, text.as_slice())?;
            Ok(true)
        }
        Err(refusal) => {
            let name = format!(in alloc; "{refusal:?}\n")?;
            write_bytes(&mut out, name.as_bytes())?;
            Ok(false)
        }
    }
}
