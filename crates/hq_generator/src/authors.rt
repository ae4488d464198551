//! The rows of the authors.
ghost use Rattle.std.specs.Prelude.{◌≡◌, ◌≤◌, IfOk};
ghost use Rattle.hq_generator.specs.Rows.{author_row, email, rows_to};

use crate::catalog::author_table;
use crate::text::with_number;
use hq_base::{List, Memory, Val};
use hq_load_tables::{RowList, Rows, ValList};
use std::alloc::Global;

// The address of an author.
fn email(alloc: Global, i: u32) -> Result<Val, Memory>
    ensures { IfOk result (λ value. value ≡ email i) }
{
    if i % 3 == 0 {
        return Ok(Val::Null);
    }
    let mut text = with_number(alloc, "e", i)?;
    text.push_str("@x")?;
    Ok(Val::Text(text))
}

// The row of an author.
fn author_row(alloc: Global, i: u32) -> Result<ValList, Memory>
    requires { i ≤ 100000 }
    ensures { IfOk result (λ row. row ≡ author_row i) }
{
    let mut row = Vec::with_capacity(alloc, 3)?;
    row.push(Val::Int(i64::from(i)))?;
    row.push(Val::Text(with_number(alloc, "a", i * 7920 % 1_000_000)?))?;
    row.push(email(alloc, i)?)?;
    Ok(List::from_vec(row))
}

// The rows of so many authors.
#[tactic(auto, using(crate::proofs::Numbered::one_more_row))]
fn author_list(alloc: Global, authors: u32) -> Result<RowList, Memory>
    requires { authors ≤ 100000 }
    ensures { IfOk result (λ rows. rows ≡ rows_to author_row authors) }
{
    let mut rows = List::new(alloc);
    for i in 0..authors {
        rows.push(author_row(alloc, i + 1)?)?;
    }
    Ok(rows)
}

/// The rows of so many authors, as those of their table.
pub fn author_rows(alloc: Global, authors: u32) -> Result<Rows, Memory>
    requires { authors ≤ 100000 }
    ensures { IfOk result (λ rows. rows ≡ rows_to author_row authors) }
{
    let table = author_table(alloc)?;
    Rows::of(alloc, author_list(alloc, authors)?, &table)
}
