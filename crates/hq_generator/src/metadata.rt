//! The metadata: both relationships, and what the role `user` may see.
ghost use Rattle.std.specs.Prelude.{◌≡◌, ◌∷◌, [], true, false, map, IfOk};
ghost use Rattle.std.specs.List.{list_all};
ghost use Rattle.hq_base.specs.Text.{has_zero};
ghost use Rattle.hq_model.specs.Bexp.{bexp_view};
ghost use Rattle.hq_model.specs.Meta.{meta_view, perm_view, tracked_view};
ghost use Rattle.hq_generator.specs.Metadata.{article_filter, equals, article_perm, article_roots, article_tracked, author_perm, author_roots, author_tracked, metadata, rel_of, tracked_of};
ghost use Rattle.hq_generator.specs.Words.{is_clean, word_text};

use crate::text::{text, texts};
use hq_base::{List, Memory, Txt, Val};
use hq_model::{
    Bexp, ColId, Meta, Op, Operand, Operands, Pair, Perm, Rel, RelList, RootNames, TableId, Test,
    Tracked,
};
use std::alloc::Global;

// The relationships of a table that has one, by one pair of columns.
fn one_rel(
    alloc: Global,
    name: &str,
    remote: usize,
    pair: Pair,
    many: bool,
) -> Result<RelList, Memory>
    requires { has_zero name.now ≡ false }
    ensures { IfOk result (λ rels. rels ≡ rel_of name.now remote pair many ∷ []) }
{
    let mut pairs = List::new(alloc);
    pairs.push(pair)?;
    let name = text(alloc, name)?;
    let mut rels = List::new(alloc);
    rels.push(Rel {
        name,
        remote: TableId::new(remote),
        pairs,
        many,
    })?;
    Ok(rels)
}

fn author_roots(alloc: Global) -> Result<RootNames, Memory>
    ensures { IfOk result (λ roots. roots ≡ author_roots) }
{
    Ok(RootNames {
        select: text(alloc, "author")?,
        select_aggregate: text(alloc, "author_aggregate")?,
        select_by_pk: text(alloc, "author_by_pk")?,
    })
}

fn article_roots(alloc: Global) -> Result<RootNames, Memory>
    ensures { IfOk result (λ roots. roots ≡ article_roots) }
{
    Ok(RootNames {
        select: text(alloc, "article")?,
        select_aggregate: text(alloc, "article_aggregate")?,
        select_by_pk: text(alloc, "article_by_pk")?,
    })
}

// What the role `user` may see of authors.
fn author_perm(alloc: Global) -> Result<Perm, Memory>
    ensures { IfOk result (λ perm. perm_view perm ≡ author_perm) }
{
    let role = text(alloc, "user")?;
    let mut cols = List::new(alloc);
    cols.push(ColId::new(0))?;
    cols.push(ColId::new(1))?;
    Ok(Perm {
        role,
        cols,
        filter: Bexp::True,
        limit: None,
        aggregations: false,
    })
}

// A column is equal to an operand.
fn equals(alloc: Global, col: ColId, operand: Operand) -> Result<Bexp, Memory>
    ensures { IfOk result (λ filter. bexp_view filter ≡ equals col operand) }
{
    let mut operands = List::new(alloc);
    operands.push(operand)?;
    Ok(Bexp::Test {
        col,
        test: Test::Compare(Op::Eq),
        operands: Operands::List(operands),
        negated: false,
    })
}

// The articles that are published, or whose author asks.
fn article_filter(alloc: Global) -> Result<Bexp, Memory>
    ensures { IfOk result (λ filter. bexp_view filter ≡ article_filter) }
{
    let caller = text(alloc, "x-hasura-user-id")?;
    let mut cases = Vec::new(alloc);
    let published = Operand::Const(Val::Bool(true));
    cases.push(equals(alloc, ColId::new(3), published)?)?;
    cases.push(equals(alloc, ColId::new(1), Operand::Session(caller))?)?;
    Ok(Bexp::Or(cases))
}

// What the role `user` may see of articles.
fn article_perm(alloc: Global) -> Result<Perm, Memory>
    ensures { IfOk result (λ perm. perm_view perm ≡ article_perm) }
{
    let role = text(alloc, "user")?;
    let mut cols = List::new(alloc);
    cols.push(ColId::new(0))?;
    cols.push(ColId::new(2))?;
    cols.push(ColId::new(4))?;
    Ok(Perm {
        role,
        cols,
        filter: article_filter(alloc)?,
        limit: None,
        aggregations: true,
    })
}

// A tracked table with one permission.
fn tracked_table(
    alloc: Global,
    table: usize,
    name: &str,
    columns: &[&str],
    roots: RootNames,
    rels: RelList,
    perm: Perm,
) -> Result<Tracked, Memory>
    requires name { has_zero name.now ≡ false }
    requires columns { list_all is_clean columns.now ≡ true }
    ensures { IfOk result (λ tracked. tracked_view tracked ≡ tracked_of table name.now (map word_text columns.now) roots rels (perm_view perm)) }
{
    let mut perms = List::new(alloc);
    perms.push(perm)?;
    let name = text(alloc, name)?;
    Ok(Tracked {
        table: TableId::new(table),
        name,
        column_names: texts(alloc, columns)?,
        roots,
        rels,
        perms,
    })
}

fn author_tracked(alloc: Global) -> Result<Tracked, Memory>
    ensures { IfOk result (λ tracked. tracked_view tracked ≡ author_tracked) }
{
    let pair = Pair {
        own: ColId::new(0),
        remote: ColId::new(1),
    };
    let rels = one_rel(alloc, "articles", 1, pair, true)?;
    let perm = author_perm(alloc)?;
    let roots = author_roots(alloc)?;
    tracked_table(
        alloc,
        0,
        "author",
        &["id", "name", "email"],
        roots,
        rels,
        perm,
    )
}

fn article_tracked(alloc: Global) -> Result<Tracked, Memory>
    ensures { IfOk result (λ tracked. tracked_view tracked ≡ article_tracked) }
{
    let pair = Pair {
        own: ColId::new(1),
        remote: ColId::new(0),
    };
    let rels = one_rel(alloc, "author", 0, pair, false)?;
    let perm = article_perm(alloc)?;
    let roots = article_roots(alloc)?;
    tracked_table(
        alloc,
        1,
        "article",
        &["id", "author_id", "title", "published", "rating"],
        roots,
        rels,
        perm,
    )
}

/// The metadata.
pub fn metadata(alloc: Global) -> Result<Meta, Memory>
    ensures { IfOk result (λ meta. meta_view meta ≡ metadata) }
{
    let mut tracked = List::new(alloc);
    tracked.push(author_tracked(alloc)?)?;
    tracked.push(article_tracked(alloc)?)?;
    Ok(Meta {
        tracked,
        inherited: List::new(alloc),
    })
}
