//! The outputs, the sort keys and DISTINCT ON of rows.
ghost use Rattle.std.specs.Prelude.{◌≡◌, IfOk, map};
ghost use Rattle.std.specs.List.{list_all};
ghost use Rattle.hq_sql_tree.specs.View.{expr_view, order_view, out_view};
ghost use Rattle.hq_sql_tree.specs.WellFormed.{is_compared, is_value, are_parts, out_names};
ghost use Rattle.hq_sql_check.specs.Scopes.{name_view, scope_view};

use crate::differ::outs_differ;
use crate::distinct::begin_with;
use crate::scope::{Name, Scope};
use crate::values::{is_compared, is_value, kind};
use hq_base::Memory;
use hq_sql_tree::{ExprList, OrderList, OutList};
use std::alloc::Global;

fn are_compared(alloc: Global, scope: &Scope<'_, '_>, exprs: &ExprList) -> Result<bool, Memory>
    ensures { IfOk result (λ well. well ≡ list_all (is_compared (scope_view scope.now)) (map expr_view exprs.now.items)) }
{
    for expr in exprs {
        if !is_compared(alloc, scope, expr)? {
            return Ok(false);
        }
    }
    Ok(true)
}

/// Whether all sort keys are compared.
pub(crate) fn are_keys(
    alloc: Global,
    scope: &Scope<'_, '_>,
    keys: &OrderList,
) -> Result<bool, Memory>
    ensures { IfOk result (λ well. well ≡ list_all (λ k. is_compared (scope_view scope.now) k.value) (map order_view keys.now.items)) }
{
    for key in keys {
        if !is_compared(alloc, scope, &key.value)? {
            return Ok(false);
        }
    }
    Ok(true)
}

fn are_outputs(alloc: Global, scope: &Scope<'_, '_>, outs: &OutList) -> Result<bool, Memory>
    ensures { IfOk result (λ well. well ≡ list_all (λ o. is_value (scope_view scope.now) o.value) (map out_view outs.now.items)) }
{
    for out in outs {
        if !is_value(alloc, scope, &out.value)? {
            return Ok(false);
        }
    }
    Ok(true)
}

/// Whether DISTINCT ON, the outputs and the sort keys have their types in scope.
#[inline(never)]
pub(crate) fn are_parts(
    alloc: Global,
    scope: &Scope<'_, '_>,
    distinct: &ExprList,
    outs: &OutList,
    keys: &OrderList,
) -> Result<bool, Memory>
    ensures { IfOk result (λ well. well ≡ are_parts (scope_view scope.now) (map expr_view distinct.now.items) (map out_view outs.now.items) (map order_view keys.now.items)) }
{
    Ok(
        are_compared(alloc, scope, distinct)?
            && begin_with(distinct, keys)
            && are_outputs(alloc, scope, outs)?
            && outs_differ(alloc, outs)?
            && are_keys(alloc, scope, keys)?,
    )
}

/// The names of outputs, with their kinds.
#[inline(never)]
pub(crate) fn out_names<'d>(
    alloc: Global,
    scope: &Scope<'_, 'd>,
    outs: &'d OutList,
) -> Result<Vec<Name<'d>>, Memory>
    ensures { IfOk result (λ names. map name_view names.items ≡ out_names (scope_view scope.now) (map out_view outs.now.items)) }
{
    let mut names = Vec::with_capacity(alloc, outs.len())?;
    for out in outs {
        names.push(Name {
            name: out.name.as_str(),
            kind: kind(scope, &out.value),
        })?;
    }
    Ok(names)
}
