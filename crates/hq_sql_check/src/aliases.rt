//! The aliases of a tree, which all differ.
ghost use Rattle.std.specs.Prelude.{◌≡◌, ◌++◌, ◌∷◌, [], IfOk, OnOk, map, bytes_eq};
ghost use Rattle.hq_base.specs.Lists.{all_differ};
ghost use Rattle.hq_sql_tree.specs.Tree.{joins_of, preds_of};
ghost use Rattle.hq_sql_tree.specs.View.{select_view, from_view, join_view, pred_view, filter_view};
ghost use Rattle.hq_sql_tree.specs.WellFormed.{aliases_in, aliases_in_from, aliases_in_joins, aliases_in_filter, aliases_in_pred, aliases_in_preds};
ghost use Rattle.hq_sql_check.specs.Scopes.{texts};

use crate::differ::all_differ;
use hq_base::{Memory, Txt};
use hq_sql_tree::{From, JoinList, Pred, PredList, Select};
use std::alloc::Global;

fn push_alias<'d>(aliases: &mut Vec<&'d str>, alias: &'d Txt) -> Result<(), Memory>
    ensures { OnOk result (texts aliases.new.items ≡ texts aliases.old.items ++ alias.now ∷ []) }
{
    aliases.push(alias.as_str())?;
    Ok(())
}

// Adds the aliases of a select.
#[cycle(push_aliases)]
fn push_aliases<'d>(aliases: &mut Vec<&'d str>, select: &'d Select) -> Result<(), Memory>
    ensures { OnOk result (texts aliases.new.items ≡ texts aliases.old.items ++ aliases_in (select_view select.now) []) }
{
    match select {
        Select::Rows {
            from,
            joins,
            filter,
            ..
        } => {
            push_of_from(aliases, from)?;
            push_of_joins(aliases, joins)?;
            push_of_filter(aliases, filter)
        }
        Select::Fold { rows, alias, .. } => {
            push_alias(aliases, alias)?;
            push_aliases(aliases, rows)
        }
    }
}

#[cycle(push_aliases)]
fn push_of_from<'d>(aliases: &mut Vec<&'d str>, from: &'d From) -> Result<(), Memory>
    ensures { OnOk result (texts aliases.new.items ≡ texts aliases.old.items ++ aliases_in_from (from_view from.now) []) }
{
    match from {
        From::Table { alias, .. } | From::One { alias } => push_alias(aliases, alias),
        From::Sub { select, alias } => {
            push_alias(aliases, alias)?;
            push_aliases(aliases, select)
        }
    }
}

#[cycle(push_aliases)]
fn push_of_joins<'d>(aliases: &mut Vec<&'d str>, joins: &'d JoinList) -> Result<(), Memory>
    ensures { OnOk result (texts aliases.new.items ≡ texts aliases.old.items ++ aliases_in_joins (joins_of (map join_view joins.now.items)) []) }
{
    for join in joins {
        push_alias(aliases, &join.alias)?;
        push_aliases(aliases, &join.select)?;
    }
    Ok(())
}

#[cycle(push_aliases)]
fn push_of_filter<'d>(aliases: &mut Vec<&'d str>, filter: &'d Option<Pred>) -> Result<(), Memory>
    ensures { OnOk result (texts aliases.new.items ≡ texts aliases.old.items ++ aliases_in_filter (filter_view filter.now) []) }
{
    match filter {
        None => Ok(()),
        Some(pred) => push_of_pred(aliases, pred),
    }
}

#[cycle(push_aliases)]
fn push_of_pred<'d>(aliases: &mut Vec<&'d str>, pred: &'d Pred) -> Result<(), Memory>
    ensures { OnOk result (texts aliases.new.items ≡ texts aliases.old.items ++ aliases_in_pred (pred_view pred.now) []) }
{
    match pred {
        Pred::Not(inner) => push_of_pred(aliases, inner),
        Pred::And(preds) | Pred::Or(preds) => push_of_preds(aliases, preds),
        Pred::Exists(select) => push_aliases(aliases, select),
        Pred::True | Pred::False | Pred::Test { .. } => Ok(()),
    }
}

#[cycle(push_aliases)]
fn push_of_preds<'d>(aliases: &mut Vec<&'d str>, preds: &'d PredList) -> Result<(), Memory>
    ensures { OnOk result (texts aliases.new.items ≡ texts aliases.old.items ++ aliases_in_preds (preds_of (map pred_view preds.now.items)) []) }
{
    for pred in preds {
        push_of_pred(aliases, pred)?;
    }
    Ok(())
}

/// Whether all aliases of a select differ.
pub(crate) fn aliases_differ(alloc: Global, select: &Select) -> Result<bool, Memory>
    ensures { IfOk result (λ differ. differ ≡ all_differ bytes_eq (aliases_in (select_view select.now) [])) }
{
    let mut aliases = Vec::new(alloc);
    push_aliases(&mut aliases, select)?;
    all_differ(alloc, aliases)
}
