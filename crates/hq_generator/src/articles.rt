//! The rows of the articles.
ghost use Rattle.std.specs.Prelude.{◌≡◌, ◌≤◌, ◌*◌, IfOk};
ghost use Rattle.hq_generator.specs.Rows.{article_row, author_of, rating, rows_to};

use crate::catalog::article_table;
use crate::text::with_number;
use hq_base::{List, Memory, Val};
use hq_load_tables::{RowList, Rows, ValList};
use std::alloc::Global;

// The author of an article.
fn author_of(authors: u32, i: u32) -> Val
    requires some { 1 ≤ authors }
    requires few { authors ≤ 100000 }
    requires number { i ≤ 400000 }
    ensures { result ≡ author_of authors i }
{
    if i % 7 == 0 {
        Val::Null
    } else {
        Val::Int(i64::from(i * 31 % authors + 1))
    }
}

// Its rating.
fn rating(i: u32) -> Val
    ensures { result ≡ rating i }
{
    if i % 5 == 0 {
        Val::Null
    } else {
        Val::Int(i64::from(i % 10))
    }
}

// The row of an article.
fn article_row(alloc: Global, authors: u32, i: u32) -> Result<ValList, Memory>
    requires some { 1 ≤ authors }
    requires few { authors ≤ 100000 }
    requires number { i ≤ 400000 }
    ensures { IfOk result (λ row. row ≡ article_row authors i) }
{
    let mut row = Vec::with_capacity(alloc, 5)?;
    row.push(Val::Int(i64::from(i)))?;
    row.push(author_of(authors, i))?;
    row.push(Val::Text(with_number(alloc, "t", i)?))?;
    row.push(Val::Bool(i % 2 == 0))?;
    row.push(rating(i))?;
    Ok(List::from_vec(row))
}

// The rows of the articles, four for each of so many authors.
#[tactic(auto, using(crate::proofs::Numbered::one_more_row))]
fn article_list(alloc: Global, authors: u32) -> Result<RowList, Memory>
    requires some { 1 ≤ authors }
    requires few { authors ≤ 100000 }
    ensures { IfOk result (λ rows. rows ≡ rows_to (article_row authors) (4 * authors)) }
{
    let mut rows = List::new(alloc);
    for i in 0..4 * authors {
        rows.push(article_row(alloc, authors, i + 1)?)?;
    }
    Ok(rows)
}

/// The rows of the articles, as those of their table.
pub fn article_rows(alloc: Global, authors: u32) -> Result<Rows, Memory>
    requires some { 1 ≤ authors }
    requires few { authors ≤ 100000 }
    ensures { IfOk result (λ rows. rows ≡ rows_to (article_row authors) (4 * authors)) }
{
    let table = article_table(alloc)?;
    Rows::of(alloc, article_list(alloc, authors)?, &table)
}
