ghost use Rattle.std.specs.Prelude.{map};
ghost use Rattle.hq_base.specs.Due.{Gives};
ghost use Rattle.hq_model.specs.Bexp.{bexp_view, bexps_of};
ghost use Rattle.hq_model.specs.Binding.{bound, bound_all};
ghost use Rattle.hq_model.specs.Meta.{meta_view};
ghost use Rattle.hq_model.specs.Schema.{schema_of};
ghost use Rattle.hq_model.specs.Described.{scope_schema};
ghost use Rattle.hq_model.specs.declared.bind.BindRefusal.TheVariants as refusal;

use crate::operand::bind_operands;
use hq_model::{Bexp, BexpList, BindRefusal, Catalog, Described, Meta, Session, TableId};
use std::alloc::Global;

/// The expression over the table `t` for a session: each session name replaced by the session's text, read as the
/// column's type, or in place of a list by what it lists (Hasura, session variables). At the first operand from the left without a
/// value: NoVariable where the session lacks the name, BadVariable where its text cannot be read.
pub fn bind(
    alloc: Global,
    bexp: &Bexp,
    session: &Session,
    catalog: &Catalog,
    meta: &Meta,
    t: TableId,
) -> Result<Bexp, BindRefusal>
    ensures { Gives bexp_view refusal.Memory (bound (bexp_view bexp.now) (schema_of catalog.now.tables (meta_view meta.now)) session.now.vars t) result }
{
    bind_bexp(alloc, session, &Described { catalog, meta }, t, bexp)
}

#[cycle(bind)]
fn bind_bexp(
    alloc: Global,
    session: &Session,
    scope: &Described,
    t: TableId,
    bexp: &Bexp,
) -> Result<Bexp, BindRefusal>
    ensures { Gives bexp_view refusal.Memory (bound (bexp_view bexp.now) (scope_schema scope.now) session.now.vars t) result }
{
    match bexp {
        Bexp::True => Ok(Bexp::True),
        Bexp::And(bexps) => Ok(Bexp::And(bind_bexps(alloc, session, scope, t, bexps)?)),
        Bexp::Or(bexps) => Ok(Bexp::Or(bind_bexps(alloc, session, scope, t, bexps)?)),
        Bexp::Not(inner) => {
            let inner = bind_bexp(alloc, session, scope, t, inner)?;
            Ok(Bexp::Not(Box::new(alloc, inner)?))
        }
        Bexp::Test {
            col,
            test,
            operands,
            negated,
        } => {
            let ty = scope.column_type(t, *col);
            Ok(Bexp::Test {
                col: *col,
                test: *test,
                operands: bind_operands(alloc, session, *test, ty, operands)?,
                negated: *negated,
            })
        }
        Bexp::Through { rel, inner } => {
            let inner = bind_bexp(alloc, session, scope, scope.remote(t, *rel), inner)?;
            Ok(Bexp::Through {
                rel: *rel,
                inner: Box::new(alloc, inner)?,
            })
        }
        Bexp::Exists { table, inner } => {
            let inner = bind_bexp(alloc, session, scope, *table, inner)?;
            Ok(Bexp::Exists {
                table: *table,
                inner: Box::new(alloc, inner)?,
            })
        }
        Bexp::Columns { left, op, right } => Ok(Bexp::Columns {
            left: *left,
            op: *op,
            right: *right,
        }),
    }
}

#[cycle(bind)]
fn bind_bexps(
    alloc: Global,
    session: &Session,
    scope: &Described,
    t: TableId,
    bexps: &BexpList,
) -> Result<BexpList, BindRefusal>
    ensures { Gives (λ v. map bexp_view v.items) refusal.Memory (bound_all (bexps_of (map bexp_view bexps.now.items)) (scope_schema scope.now) session.now.vars t) result }
{
    let mut bound = Vec::new(alloc);
    for bexp in bexps {
        bound.push(bind_bexp(alloc, session, scope, t, bexp)?)?;
    }
    Ok(bound)
}
