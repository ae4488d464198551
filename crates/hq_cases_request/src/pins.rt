//! One request twice over tables one of whose pins fails.
ghost use Rattle.std.specs.Prelude.{◌≡◌, true, IfOk};
ghost use Rattle.hq_model.specs.Fits.{fits};
ghost use Rattle.hq_model.specs.Meta.{meta_view};

use crate::loaded::loaded;
use hq_app::answer_one;
use hq_base::List;
use hq_cases_file::{Case, Stop, Words, given_session, push_bytes};
use hq_database::Database;
use hq_engine::Engine;
use hq_io_memory::{MemSink, MemSource};
use hq_load::Loaded;
use hq_load_tables::{FlakyTables, MemTables};
use hq_model::{Catalog, Meta, Session};
use hq_sql_database::SqlDb;
use std::alloc::Global;

// A database one of whose pins fails.
type Failing = SqlDb<FlakyTables>;

// The bytes of room on each output.
const ROOM: usize = 4_096;

fn input(alloc: Global, case: &Case) -> Result<MemSource, Stop> {
    let bytes = case.bytes(alloc, "in")?;
    Ok(MemSource::new(bytes, List::new(alloc)))
}

fn output(alloc: Global) -> Result<MemSink, Stop> {
    Ok(MemSink::new(alloc, ROOM, List::new(alloc))?)
}

// The two outputs.
fn outputs(alloc: Global) -> Result<(MemSink, MemSink), Stop> {
    let written = output(alloc)?;
    Ok((written, output(alloc)?))
}

fn push_outcome(alloc: Global, status: u8, written: &MemSink, told: &MemSink, words: &mut Words) {
    words.push_number(u64::from(status));
    words.push(": ");
    push_bytes(alloc, written.bytes(), words);
    push_bytes(alloc, told.bytes(), words);
}

// Adds what comes of the request.
fn push_answer(
    alloc: Global,
    case: &Case,
    engine: &Engine,
    session: &Session,
    db: &mut Failing,
    words: &mut Words,
) -> Result<(), Stop>
    requires { ⟦<Failing as Database>⟧.tables db.old ≡ engine.now.catalog.tables }
    ensures { ⟦<Failing as Database>⟧.tables db.new ≡ ⟦<Failing as Database>⟧.tables db.old }
{
    let mut input = input(alloc, case)?;
    let (mut written, mut told) = outputs(alloc)?;
    let status = answer_one(
        alloc,
        engine,
        session,
        db,
        &mut input,
        &mut written,
        &mut told,
    );
    push_outcome(alloc, status, &written, &told, words);
    Ok(())
}

// Adds what comes of the request, and of the same request again.
fn push_both(
    alloc: Global,
    case: &Case,
    engine: &Engine,
    session: &Session,
    db: &mut Failing,
    words: &mut Words,
) -> Result<(), Stop>
    requires { ⟦<Failing as Database>⟧.tables db.old ≡ engine.now.catalog.tables }
{
    push_answer(alloc, case, engine, session, db, words)?;
    words.push(" | ");
    push_answer(alloc, case, engine, session, db, words)
}

// An engine over a copy of the catalog.
fn engine_over(alloc: Global, catalog: &Catalog, meta: Meta) -> Result<Engine, Stop>
    requires { fits catalog.now.tables (meta_view meta) ≡ true }
    ensures { IfOk result (λ engine. engine.catalog.tables ≡ catalog.now.tables) }
{
    let copy = catalog.copy(alloc)?;
    Ok(Engine::new(alloc, copy, meta)?)
}

// Adds what comes of the two requests over what a directory holds.
fn push_answers(
    alloc: Global,
    case: &Case,
    session: &Session,
    loaded: Loaded,
    failing: u64,
    words: &mut Words,
) -> Result<(), Stop> {
    let Loaded {
        catalog,
        meta,
        rows,
    } = loaded;
    let engine = engine_over(alloc, &catalog, meta)?;
    let mut db = SqlDb::new(FlakyTables::new(MemTables::new(catalog, rows), failing));
    push_both(alloc, case, &engine, session, &mut db, words)
}

/// The status of the request, what was written and what was told, and then those of the same request again.
pub fn tell_outcomes(rt: &HostRuntime, case: &Case, words: &mut Words) -> Result<(), Stop> {
    let failing = case.number("failing")?.unwrap_or(0);
    let session = given_session(rt.alloc(), case)?;
    push_answers(
        rt.alloc(),
        case,
        &session,
        loaded(rt, case)?,
        failing,
        words,
    )
}
