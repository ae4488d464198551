//! What conditions ask the columns of an alias to equal, where they ask nothing else.
ghost use Rattle.std.specs.Prelude.{◌≡◌, true, map, IfOk, IfSome};
ghost use Rattle.hq_sql_conjuncts.specs.Conjuncts.{lent_views};
ghost use Rattle.hq_sql_tree.specs.Tree.{no_join, test as tested};
ghost use Rattle.hq_sql_tree.specs.View.{expr_view, pred_view};
ghost use Rattle.hq_sql_access.specs.Equations.{is_column, is_outer};
ghost use Rattle.hq_sql_scans.specs.Links.{IsOwn, IsLink, AreLinks};

use hq_base::{Memory, Txt};
use hq_model::{ColId, Column, Test};
use hq_sql_access::equations::{equal_to, first_named, is_outer};
use hq_sql_tree::{Expr, ExprList, Pred};
use std::alloc::Global;

/// A column, and the expression that it is asked to equal.
#[derive(Clone, Copy)]
pub struct Link<'d> {
    pub column: ColId,
    pub expr: &'d Expr,
}

/// Columns, and the expressions that they are asked to equal, one by one.
#[derive(Drop)]
pub struct LinkList<'d> {
    pub columns: Vec<ColId>,
    pub exprs: Vec<&'d Expr>,
}

/// The name of the column of an alias that an expression is.
#[tactic(auto, using(crate::proofs::Linked::own_column))]
pub fn own_name<'d>(expr: &'d Expr, alias: &Txt) -> Option<&'d Txt>
    ensures { IfSome result (λ name. is_column alias.now name.now (expr_view expr.now) ≡ true) }
{
    match expr {
        Expr::Column {
            alias: named,
            name,
            ..
        } => {
            if *alias == *named {
                return Some(name);
            }
            None
        }
        Expr::Int(_)
        | Expr::Text(_)
        | Expr::Uuid(_)
        | Expr::Bool(_)
        | Expr::Object(_)
        | Expr::Agg(_) => None,
    }
}

// The first column of this name, which an expression is.
fn column_named(own: &Expr, columns: &[Column], alias: &Txt, name: &Txt) -> Option<ColId>
    requires { is_column alias.now name.now (expr_view own.now) ≡ true }
    ensures { IfSome result (IsOwn columns.now alias.now (expr_view own.now)) }
{
    match first_named(columns, name) {
        Some(at) => Some(ColId::new(at)),
        None => None,
    }
}

/// The column of a table that an expression is, where the alias is a row of it.
pub fn own_column(own: &Expr, columns: &[Column], alias: &Txt) -> Option<ColId>
    ensures { IfSome result (IsOwn columns.now alias.now (expr_view own.now)) }
{
    match own_name(own, alias) {
        Some(name) => column_named(own, columns, alias, name),
        None => None,
    }
}

// The column of the alias that an expression is, where the other one stands around it.
fn side(own: &Expr, other: &Expr, columns: &[Column], alias: &Txt) -> Option<ColId>
    ensures own { IfSome result (IsOwn columns.now alias.now (expr_view own.now)) }
    ensures outer { IfSome result (λ at. is_outer alias.now no_join (expr_view other.now) ≡ true) }
{
    if !is_outer(other, alias, &[]) {
        return None;
    }
    own_column(own, columns, alias)
}

// The link that an equation is.
#[tactic(auto, using(crate::proofs::Linked::link_left, crate::proofs::Linked::link_right))]
fn equation_link<'d>(
    left: &'d Expr,
    test: Test,
    operands: &'d ExprList,
    columns: &[Column],
    alias: &Txt,
) -> Option<Link<'d>>
    ensures { IfSome result (λ l. IsLink columns.now alias.now (tested (expr_view left.now) test (map expr_view operands.now.items)) l.column (expr_view l.expr.now)) }
{
    let right = equal_to(test, operands)?;
    if let Some(column) = side(left, right, columns, alias) {
        return Some(Link {
            column,
            expr: right,
        });
    }
    match side(right, left, columns, alias) {
        Some(column) => Some(Link { column, expr: left }),
        None => None,
    }
}

// The link that a condition is.
fn link_of<'d>(pred: &'d Pred, columns: &[Column], alias: &Txt) -> Option<Link<'d>>
    ensures { IfSome result (λ l. IsLink columns.now alias.now (pred_view pred.now) l.column (expr_view l.expr.now)) }
{
    match pred {
        Pred::Test {
            value,
            test,
            operands,
        } => equation_link(value, *test, operands, columns, alias),
        Pred::True | Pred::False | Pred::Not(_) | Pred::And(_) | Pred::Or(_) | Pred::Exists(_) =>
            None,
    }
}

/// The links that conditions are; None where one is none.
#[tactic(auto, using(crate::proofs::Linked::no_links, crate::proofs::Linked::more_links))]
pub fn links_of<'d>(
    alloc: Global,
    preds: &[&'d Pred],
    columns: &[Column],
    alias: &Txt,
) -> Result<Option<LinkList<'d>>, Memory>
    ensures { IfOk result (λ found. IfSome found (λ l. AreLinks columns.now alias.now (lent_views preds.now) l.columns.items l.exprs.items)) }
{
    let mut own = Vec::with_capacity(alloc, preds.len())?;
    let mut exprs = Vec::with_capacity(alloc, preds.len())?;
    for pred in preds {
        let Some(link) = link_of(pred, columns, alias) else {
            return Ok(None);
        };
        own.push(link.column)?;
        exprs.push(link.expr)?;
    }
    Ok(Some(LinkList {
        columns: own,
        exprs,
    }))
}
