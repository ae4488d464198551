//! Statements of SQL over a directory that is loaded.

use crate::loaded::loaded;
use hq_answer::Answer;
use hq_base::Bytes;
use hq_cases_file::{Case, Stop, Words, push_bytes};
use hq_database::{Database, DbRefusal};
use hq_load::Loaded;
use hq_load_tables::MemTables;
use hq_sql_database::SqlDb;
use std::alloc::Global;

/// The database of what a directory holds.
pub fn database(loaded: Loaded) -> SqlDb<MemTables> {
    let Loaded {
        catalog,
        meta: _,
        rows,
    } = loaded;
    SqlDb::new(MemTables::new(catalog, rows))
}

fn answered(alloc: Global, loaded: Loaded, text: &[u8]) -> Result<Answer, DbRefusal> {
    let mut database = database(loaded);
    database.run(alloc, text)
}

fn push_text(alloc: Global, answer: &Answer, words: &mut Words) {
    let mut text = Bytes::new(alloc);
    match answer.write_to(&mut text) {
        Ok(()) => push_bytes(alloc, text.as_slice(), words),
        Err(memory) => words.stop(Stop::from(memory)),
    }
}

fn push_answered(alloc: Global, loaded: Loaded, text: &[u8], words: &mut Words) {
    match answered(alloc, loaded, text) {
        Ok(answer) => push_text(alloc, &answer, words),
        Err(refusal) => words.push_debug(&refusal),
    }
}

/// The JSON that a statement is answered with, or its refusal.
pub fn tell_answer(rt: &HostRuntime, case: &Case, words: &mut Words) -> Result<(), Stop> {
    let text = case.bytes(rt.alloc(), "in")?;
    push_answered(rt.alloc(), loaded(rt, case)?, text.as_slice(), words);
    Ok(())
}
