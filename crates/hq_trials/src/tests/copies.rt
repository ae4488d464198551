//! A redacted copy of a text that no table file gives.
ghost use Rattle.std.specs.Prelude.{◌≡◌, IfOk, IfSome, true};
ghost use Rattle.hq_model.specs.Database.{are_rows, is_database};

use hq_base::{List, Txt, Val};
use hq_copy::{Redacted, redact};
use hq_copy_definition::CopyRefusal;
use hq_generator::{Generated, caller, generate};
use hq_load_tables::{MemTables, Rows, RowsList};
use hq_model::Table;
use std::alloc::Global;
use std::test::Fail;

// The name of the table of authors.
const AUTHORS: &str = "public.author";

fn text(alloc: Global, word: &str) -> Result<Txt, Fail> {
    Ok(Txt::of(alloc, word.as_bytes())?)
}

// Two authors, the second of whom has this name, where they are valid.
fn authors(alloc: Global, name: Txt, table: &Table) -> Result<Option<Rows>, Fail>
    ensures { IfOk result (λ found. IfSome found (λ rows. are_rows table.now rows ≡ true)) }
{
    let mut values = Vec::new(alloc);
    values.push(Val::Int(1))?;
    values.push(Val::Text(text(alloc, "Ann")?))?;
    values.push(Val::Null)?;
    values.push(Val::Int(2))?;
    values.push(Val::Text(name))?;
    values.push(Val::Null)?;
    if values.len() != 6 || table.columns.len() != 3 {
        return Ok(None);
    }
    Ok(Rows::tested(alloc, values, 2, table)?)
}

// No rows.
fn none(alloc: Global, table: &Table) -> Result<Option<Rows>, Fail>
    ensures { IfOk result (λ found. IfSome found (λ rows. are_rows table.now rows ≡ true)) }
{
    let values = Vec::new(alloc);
    Ok(Rows::tested(alloc, values, 0, table)?)
}

// Rows of both tables, where they are valid.
fn rows(alloc: Global, name: Txt, tables: &[Table]) -> Result<Option<RowsList>, Fail>
    ensures { IfOk result (λ found. IfSome found (λ rows. is_database tables.now rows ≡ true)) }
{
    let [author, article] = tables else {
        return Ok(None);
    };
    let (Some(authors), Some(articles)) = (authors(alloc, name, author)?, none(alloc, article)?)
    else {
        return Ok(None);
    };
    let mut rows = List::new(alloc);
    rows.push(authors)?;
    rows.push(articles)?;
    Ok(Some(rows))
}

type Copy = Result<Redacted, CopyRefusal>;

// The copy of the generated tables for a user, where the second author has this name, and nobody wrote an article.
fn copied(alloc: Global, name: Txt) -> Result<Option<Copy>, Fail> {
    let Generated {
        catalog,
        meta,
        rows: _,
    } = generate(alloc, 1)?;
    let Some(rows) = rows(alloc, name, catalog.tables.as_slice())? else {
        return Ok(None);
    };
    let mut tables = MemTables::new(catalog.copy(alloc)?, rows);
    let session = caller(alloc)?;
    Ok(Some(redact(alloc, &catalog, &meta, &session, &mut tables)))
}

#[test]
fn a_text_that_is_read_as_null_is_refused(rt: HostRuntime) -> Result<(), Fail> {
    let name = text(rt.alloc(), "\\N")?;
    let Some(Err(CopyRefusal::NotWritable { table, position })) = copied(rt.alloc(), name)? else {
        assert!(rt; false);
        return Ok(());
    };
    assert!(rt; table == text(rt.alloc(), AUTHORS)?);
    assert!(rt; position == 2);
    Ok(())
}
