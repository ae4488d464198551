//! Joins that show a masked column.
ghost use Rattle.std.specs.Prelude.{◌≡◌, ◌∷◌, ◌&&◌, [], IfOk, map};
ghost use Rattle.std.specs.List.{list_all};
ghost use Rattle.hq_model.specs.Bexp.{bexp_view};
ghost use Rattle.hq_sql_tree.specs.Form.{is_one};
ghost use Rattle.hq_sql_tree.specs.View.{expr_view, filter_view, from_view, out_view, select_view};
ghost use Rattle.hq_translation.specs.Predicates.{own_predicate};
ghost use Rattle.hq_confine_rules.specs.Conjuncts.{conjuncts, opened};
ghost use Rattle.hq_confine_rules.specs.Members.{is_one_of, stand_among, shows_masked, shows_in, shows_one, shows_only, is_mask_join};
ghost use Rattle.hq_confine_rules.specs.Origins.{outputs, shape_at};
ghost use Rattle.hq_confine_members.specs.Views.{preds_view};
ghost use Rattle.hq_confine_uses.specs.Views.{shapes_view, rules_schema, rules_grants};

use crate::written::own_condition;
use hq_base::{Memory, Txt};
use hq_confine_members::{alias_of, are_of, conjuncts, is_bare, opened, stand_among};
use hq_confine_uses::{Alias, Rules, Shape, Shapes, column_place, shape_at};
use hq_model::Bexp;
use hq_sql_tree::{Expr, From, OutList, Pred, Select};
use std::alloc::Global;

// Whether the conjuncts are exactly those of a filter or mask of a table, at an alias.
fn are_exactly(
    alloc: Global,
    rules: &Rules<'_>,
    alias: &Txt,
    all: &[&Pred],
    t: usize,
    shown: &Bexp,
) -> Result<bool, Memory>
    ensures { let owns = opened (own_predicate (bexp_view shown.now) (rules_schema rules.now) t 0 1) in
        IfOk result (λ well. well ≡ (stand_among (preds_view all.now) owns alias.now && list_all (is_one_of owns alias.now) (preds_view all.now))) }
{
    let own = own_condition(alloc, rules, t, shown)?;
    let owns = opened(alloc, &own)?;
    Ok(stand_among(all, &owns, alias) && are_of(all, &owns, alias))
}

// Whether the conjuncts are exactly those of the mask of a table's column, where there is one.
fn shows_masked(
    alloc: Global,
    rules: &Rules<'_>,
    alias: &Txt,
    all: &[&Pred],
    t: usize,
    column: Option<usize>,
) -> Result<bool, Memory>
    ensures { IfOk result (λ well. well ≡ shows_masked (rules_schema rules.now) (rules_grants rules.now) alias.now (preds_view all.now) t column) }
{
    let Some(c) = column else {
        return Ok(false);
    };
    if !rules.is_permitted(t, c) {
        return Ok(false);
    }
    match rules.mask(t, c) {
        Some(shown) => are_exactly(alloc, rules, alias, all, t, shown),
        None => Ok(false),
    }
}

// Whether they show a column of this name of a scan.
fn shows_in(
    alloc: Global,
    rules: &Rules<'_>,
    scope: &Shapes<'_, '_>,
    all: &[&Pred],
    alias: &Txt,
    name: &Txt,
) -> Result<bool, Memory>
    ensures { let s = rules_schema rules.now in
        IfOk result (λ well. well ≡ shows_in s (rules_grants rules.now) alias.now name.now (preds_view all.now) (shape_at (shapes_view scope.now) alias.now)) }
{
    match shape_at(*scope, alias) {
        Some(Shape::Scan(t)) => {
            let column = column_place(rules, *t, name);
            shows_masked(alloc, rules, alias, all, *t, column)
        }
        Some(Shape::Outputs(_)) => Ok(false),
        None => Ok(false),
    }
}

// Whether they show what this one output is.
fn shows_one(
    alloc: Global,
    rules: &Rules<'_>,
    scope: &Shapes<'_, '_>,
    all: &[&Pred],
    expr: &Expr,
) -> Result<bool, Memory>
    ensures { IfOk result (λ well. well ≡ shows_one (rules_schema rules.now) (rules_grants rules.now) (shapes_view scope.now) (preds_view all.now) (expr_view expr.now)) }
{
    match expr {
        Expr::Column { alias, name, .. } => shows_in(alloc, rules, scope, all, alias, name),
        Expr::Int(_)
        | Expr::Text(_)
        | Expr::Uuid(_)
        | Expr::Bool(_)
        | Expr::Object(_)
        | Expr::Agg(_) => Ok(false),
    }
}

// Whether they show the outputs, of which there is one alone.
fn shows_only(
    alloc: Global,
    rules: &Rules<'_>,
    scope: &Shapes<'_, '_>,
    all: &[&Pred],
    outs: &OutList,
) -> Result<bool, Memory>
    ensures { IfOk result (λ well. well ≡ shows_only (rules_schema rules.now) (rules_grants rules.now) (shapes_view scope.now) (preds_view all.now) (map out_view outs.now.items)) }
{
    if outs.len() == 1 {
        shows_one(alloc, rules, scope, all, &outs[0].value)
    } else {
        Ok(false)
    }
}

// The same within the one row of an alias.
#[inline(never)]
fn shows_within(
    alloc: Global,
    rules: &Rules<'_>,
    scope: &Shapes<'_, '_>,
    alias: &Txt,
    filter: &Option<Pred>,
    outs: &OutList,
) -> Result<bool, Memory>
    ensures { let within = (alias.now, outputs []) ∷ shapes_view scope.now in
        IfOk result (λ well. well ≡ shows_only (rules_schema rules.now) (rules_grants rules.now) within (conjuncts (filter_view filter.now)) (map out_view outs.now.items)) }
{
    let all = conjuncts(alloc, filter)?;
    let one = [Alias {
        alias,
        shape: Shape::Outputs(Vec::new(alloc)),
    }];
    let within = Shapes::Level {
        aliases: &one,
        outer: &*scope,
    };
    shows_only(alloc, rules, &within, &all, outs)
}

fn is_one(from: &From) -> bool
    ensures { result ≡ is_one (from_view from.now) }
{
    match from {
        From::One { .. } => true,
        From::Table { .. } | From::Sub { .. } => false,
    }
}

/// Whether rows are over One, with a masked column of a scan around them as their one output, without joins, DISTINCT ON, ORDER BY,
/// LIMIT and OFFSET, with exactly the conjuncts of its mask.
pub(crate) fn is_mask_join(
    alloc: Global,
    select: &Select,
    rules: &Rules<'_>,
    scope: &Shapes<'_, '_>,
) -> Result<bool, Memory>
    ensures { IfOk result (λ well. well ≡ is_mask_join (rules_schema rules.now) (rules_grants rules.now) (shapes_view scope.now) (select_view select.now)) }
{
    match select {
        Select::Rows {
            distinct,
            outs,
            from,
            joins,
            filter,
            order,
            limit,
            offset,
        } => {
            if is_one(from) && is_bare(distinct, joins, order, *limit, *offset) {
                shows_within(alloc, rules, scope, alias_of(from), filter, outs)
            } else {
                Ok(false)
            }
        }
        Select::Fold { .. } => Ok(false),
    }
}
