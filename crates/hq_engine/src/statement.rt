//! The statement of a request: its text, and asking it.
ghost use Rattle.std.specs.Prelude.{◌≡◌, ◌⊎◌, ◌≤◌, Err, Ok, IfOk, IfErr, IfSome, OnOk, true};
ghost use Rattle.hq_request_tree.specs.Request.{ask_view};
ghost use Rattle.hq_translation.specs.Asked.{asked_statement};
ghost use Rattle.hq_database.specs.Asked.{Asked, NotAsked};
ghost use Rattle.hq_database.specs.Typed.{IsTyped};
ghost use Rattle.hq_laws_request.specs.Formed.Formed.{IsOfSession};
ghost use Rattle.hq_sql_text.specs.Readable.{Spells};
ghost use Rattle.hq_sql_tree.specs.Spelling.{select_text};
ghost use Rattle.hq_sql_tree.specs.Tree.{SelectTree};
ghost use Rattle.hq_model.specs.Fits.{fits};
ghost use Rattle.hq_model.specs.Meta.{meta_view};
ghost use Rattle.hq_engine.specs.Asking.{statement_text};
ghost use Rattle.hq_engine.specs.Failures.{TellsDatabase};
ghost use Rattle.hq_engine.specs.Statements.{HasStatement, IsMeaning, IsStatement};

use crate::EngineRefusal;
use hq_answer::Answer;
use hq_base::{Bytes, Memory};
use hq_compile::compile;
use hq_database::{Database, DbRefusal};
use hq_model::{Catalog, Meta, Session};
use hq_reply::has_table_field;
use hq_request_tree::Ask;
use hq_sql_text::{one_tree, print};
use std::alloc::Global;

// The text of the statement of a session's request.
fn text_of(
    alloc: Global,
    catalog: &Catalog,
    meta: &Meta,
    session: &Session,
    request: &Ask,
) -> Result<Bytes, Memory>
    requires fit { fits catalog.now.tables (meta_view meta.now) ≡ true }
    requires session { IsOfSession catalog.now.tables (meta_view meta.now) session.now (ask_view request.now) }
    ensures text { IfOk result (λ text. text ≡ select_text (asked_statement catalog.now.tables (meta_view meta.now) (ask_view request.now))) }
    ensures statement { OnOk result (IsStatement catalog.now.tables (meta_view meta.now) session.now (ask_view request.now)) }
{
    let _ = session;
    // In a box: a statement that lies on the stack is let go variant by variant where this ends.
    let select = Box::new(alloc, compile(alloc, request, catalog, meta)?)?;
    print(alloc, &select)
}

/// The text of the statement of a session's request, where a root field starts at a table.
pub(crate) fn statement_text(
    alloc: Global,
    catalog: &Catalog,
    meta: &Meta,
    session: &Session,
    request: &Ask,
) -> Result<Option<Bytes>, Memory>
    requires fit { fits catalog.now.tables (meta_view meta.now) ≡ true }
    requires session { IsOfSession catalog.now.tables (meta_view meta.now) session.now (ask_view request.now) }
    ensures text { IfOk result (λ text. text ≡ statement_text catalog.now.tables (meta_view meta.now) (ask_view request.now)) }
    ensures statement { OnOk result (HasStatement catalog.now.tables (meta_view meta.now) session.now (Ok (ask_view request.now))) }
{
    if has_table_field(&request.fields) {
        Ok(Some(text_of(alloc, catalog, meta, session, request)?))
    } else {
        Ok(None)
    }
}

/// Asks a text of a statement that fits the database's catalog.
pub(crate) fn ask<D: Database>(
    alloc: Global,
    db: &mut D,
    text: &[u8],
) -> Result<Answer, EngineRefusal>
    requires { (s : SelectTree) × Spells text.now s × IsTyped (D.tables db.old) s }
    ensures asked { Asked (D.asks db.old) (D.asks db.new) (D.last db.new) text.now ⊎ ((result ≡ Err EngineRefusal.Memory) × NotAsked (D.asks db.old) (D.asks db.new) (D.last db.old) (D.last db.new)) }
    ensures answered { IfOk result (λ answer. IfSome (D.database db.old) (IsMeaning (D.tables db.old) text.now answer)) }
    ensures failed { IfErr result (TellsDatabase (D.faults db.old) (D.faults db.new)) }
    ensures tables { D.tables db.new ≡ D.tables db.old }
    ensures database { D.database db.new ≡ D.database db.old }
    ensures later { D.faults db.old ≤ D.faults db.new }
{
    one_tree();
    match db.run(alloc, text) {
        Ok(answer) => Ok(answer),
        Err(DbRefusal::Failed { before, after }) => Err(EngineRefusal::Database { before, after }),
        Err(DbRefusal::Memory) => Err(EngineRefusal::Memory),
        Err(DbRefusal::NotSql) => unreachable!(),
        Err(DbRefusal::NotTyped) => unreachable!(),
    }
}
