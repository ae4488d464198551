//! Outputs of a fold: where aggregates stand, and what they take.
ghost use Rattle.std.specs.Prelude.{◌≡◌, IfOk, map};
ghost use Rattle.hq_sql_tree.specs.Tree.{pairs_of};
ghost use Rattle.hq_sql_tree.specs.View.{agg_view, expr_view, pair_view};
ghost use Rattle.hq_sql_tree.specs.WellFormed.{is_taken, is_folded, are_folded};
ghost use Rattle.hq_sql_check.specs.Scopes.{scope_view};

use crate::differ::pairs_differ;
use crate::parts::are_keys;
use crate::scope::Scope;
use crate::values::{is_collated, is_compared, is_member, is_value, kind, takes_kind};
use hq_base::{Memory, is_uuid_form};
use hq_sql_tree::{Agg, Expr, ExprPairList};
use std::alloc::Global;

// Whether an aggregate takes what it is given, in which no aggregate stands.
fn is_taken(alloc: Global, scope: &Scope<'_, '_>, agg: &Agg) -> Result<bool, Memory>
    ensures { IfOk result (λ well. well ≡ is_taken (scope_view scope.now) (agg_view agg.now)) }
{
    match agg {
        Agg::CountAll => Ok(true),
        Agg::Count { value, distinct } => {
            if *distinct {
                is_compared(alloc, scope, value)
            } else {
                is_value(alloc, scope, value)
            }
        }
        Agg::Take { aggregate, value } => Ok(
            is_value(alloc, scope, value)?
                && takes_kind(*aggregate, kind(scope, value))
                && is_collated(scope, value),
        ),
        Agg::JsonAgg { value, order } => {
            Ok(is_member(alloc, scope, value)? && are_keys(alloc, scope, order)?)
        }
    }
}

/// Whether the expression is an output of a fold: its columns stand inside aggregates alone.
#[cycle(is_folded)]
pub(crate) fn is_folded(alloc: Global, scope: &Scope<'_, '_>, value: &Expr) -> Result<bool, Memory>
    ensures { IfOk result (λ well. well ≡ is_folded (scope_view scope.now) (expr_view value.now)) }
{
    match value {
        Expr::Column { .. } => Ok(false),
        Expr::Object(pairs) => Ok(pairs_differ(alloc, pairs)? && are_folded(alloc, scope, pairs)?),
        Expr::Agg(agg) => is_taken(alloc, scope, agg),
        Expr::Uuid(text) => Ok(is_uuid_form(text.as_str())),
        Expr::Int(_) | Expr::Text(_) | Expr::Bool(_) => Ok(true),
    }
}

#[cycle(is_folded)]
fn are_folded(alloc: Global, scope: &Scope<'_, '_>, pairs: &ExprPairList) -> Result<bool, Memory>
    ensures { IfOk result (λ well. well ≡ are_folded (scope_view scope.now) (pairs_of (map pair_view pairs.now.items))) }
{
    for pair in pairs {
        if !is_folded(alloc, scope, &pair.value)? {
            return Ok(false);
        }
    }
    Ok(true)
}
