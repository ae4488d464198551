//! Answering requests over a generated database.
ghost use Rattle.std.specs.Prelude.{◌≡◌, ◌≤◌, ◌++◌, ℕ, All, length, map, IsErrOf, IfErr, IfOk, IfSome, OnOk};
ghost use Rattle.hq_generator.specs.Lines.{reply_line};
ghost use Rattle.hq_io.specs.Causes.{Rose};
ghost use Rattle.hq_model.specs.Meta.{meta_view};
ghost use Rattle.hq_command.specs.Ending.{NotDatabase, Silent};
ghost use Rattle.hq_command.specs.Generating.{GenEnds, lines_over, reply_length, reply_lines};

use crate::{Done, Instance, Refusal};
use hq_base::{Bytes, Memory};
use hq_database::Database;
use hq_engine::{Engine, EngineRefusal};
use hq_generator::{Generated, caller, generate, put_reply_line, put_steps_line, requests};
use hq_io::{Sink, write_all};
use hq_load_tables::Tables;
use hq_model::Session;
use hq_sql_database::SqlDb;
use std::alloc::Global;

// Answers the request of this number, and adds the line of its reply.
fn put_reply<D: Database>(
    alloc: Global,
    engine: &Engine,
    session: &Session,
    number: u64,
    body: &str,
    db: &mut D,
    out: &mut Bytes,
) -> Result<(), EngineRefusal>
    requires limit { length body.now ≤ 1048576 }
    requires catalog { D.tables db.old ≡ engine.now.catalog.tables }
    ensures line { OnOk result (IfSome (D.database db.old) (λ d.
        out.new ≡ out.old ++ reply_line number (reply_length engine.now.catalog.tables (meta_view engine.now.meta) session.now d body.now))) }
    ensures tables { D.tables db.new ≡ D.tables db.old }
    ensures database { D.database db.new ≡ D.database db.old }
{
    let reply = engine.answer(alloc, session, body.as_bytes(), db)?;
    put_reply_line(out, number, reply.body.len() as u64)?;
    Ok(())
}

// Answers requests, and adds a line for each reply.
fn put_replies<D: Database>(
    alloc: Global,
    engine: &Engine,
    session: &Session,
    bodies: &[&str],
    db: &mut D,
    out: &mut Bytes,
) -> Result<(), EngineRefusal>
    requires limit { All (λ body. length body.now ≤ 1048576) bodies.now }
    requires catalog { D.tables db.old ≡ engine.now.catalog.tables }
    ensures lines { OnOk result (IfSome (D.database db.old) (λ d. out.new ≡ out.old
        ++ reply_lines (reply_length engine.now.catalog.tables (meta_view engine.now.meta) session.now d) 1 (map (λ b. b.now) bodies.now))) }
{
    let mut number = 0u64;
    for body in bodies {
        number += 1;
        put_reply(alloc, engine, session, number, body, db, out)?;
    }
    Ok(())
}

// The lines of the requests over a database.
fn lines<T: Tables>(
    alloc: Global,
    engine: &Engine,
    db: &mut SqlDb<T>,
) -> Result<Bytes, EngineRefusal>
    requires { ⟦<SqlDb<T> as Database>⟧.tables db.old ≡ engine.now.catalog.tables }
    ensures { IfOk result (λ text. IfSome (⟦<SqlDb<T> as Database>⟧.database db.old) (λ d.
        (steps : ℕ) × (text ≡ lines_over engine.now.catalog.tables (meta_view engine.now.meta) d steps))) }
{
    let session = caller(alloc)?;
    let mut text = Bytes::new(alloc);
    put_replies(alloc, engine, &session, &requests(), db, &mut text)?;
    put_steps_line(&mut text, db.steps())?;
    Ok(text)
}

// The lines of the requests over a generated database.
fn gen_lines(alloc: Global, made: Generated) -> Result<Bytes, Memory>
    ensures { IfOk result (λ text. (steps : ℕ) × (text ≡ lines_over made.catalog.tables (meta_view made.meta) made.rows steps)) }
{
    let Generated {
        catalog,
        meta,
        rows,
    } = made;
    let mut instance = Instance::over(alloc, catalog, meta, rows)?;
    match lines(alloc, &instance.engine, &mut instance.db) {
        Ok(text) => Ok(text),
        // Tables in memory never fail.
        Err(EngineRefusal::Database { .. } | EngineRefusal::Memory) => Err(Memory),
    }
}

/// Answers five requests over a generated database of so many authors, and writes how long the replies are. Nothing is written
/// before all are answered.
pub fn generate_and_answer<K: Sink>(alloc: Global, n: u32, out: &mut K) -> Result<Done, Refusal>
    requires some { 1 ≤ n }
    requires few { n ≤ 100000 }
    ensures told { GenEnds n (K.written out.old) (K.written out.new) result }
    ensures silent { Silent (K.written out.old) (K.written out.new) result }
    ensures words { IsErrOf result Refusal.BadWords → ⊥ }
    ensures read { IsErrOf result Refusal.ReadFailed → ⊥ }
    ensures write { IsErrOf result Refusal.WriteFailed → Rose (K.faults out.old) (K.faults out.new) }
    ensures failed { IfErr result NotDatabase }
    ensures out_later { K.faults out.old ≤ K.faults out.new }
{
    let text = gen_lines(alloc, generate(alloc, n)?)?;
    write_all(out, text.as_slice())?;
    Ok(Done::Answered)
}
