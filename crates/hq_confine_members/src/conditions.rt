//! The conjuncts of a condition: its members, after nested ANDs are opened.
ghost use Rattle.std.specs.Prelude.{◌≡◌, ◌++◌, ◌∷◌, [], IfOk, OnOk, map};
ghost use Rattle.hq_sql_tree.specs.Tree.{preds_of};
ghost use Rattle.hq_sql_tree.specs.View.{filter_view, pred_view};
ghost use Rattle.hq_confine_rules.specs.Conjuncts.{opened, all_opened, conjuncts};
ghost use Rattle.hq_confine_members.specs.Views.{preds_view};

use hq_base::Memory;
use hq_sql_tree::{Pred, PredList};
use std::alloc::Global;

fn push<'p>(found: &mut Vec<&'p Pred>, pred: &'p Pred) -> Result<(), Memory>
    ensures { OnOk result (preds_view found.new.items ≡ preds_view found.old.items ++ pred_view pred.now ∷ []) }
{
    found.push(pred)?;
    Ok(())
}

// Adds the conjuncts of a condition. TRUE says nothing, and is none.
#[cycle(open)]
fn open<'p>(pred: &'p Pred, found: &mut Vec<&'p Pred>) -> Result<(), Memory>
    ensures { OnOk result (preds_view found.new.items ≡ preds_view found.old.items ++ opened (pred_view pred.now)) }
{
    match pred {
        Pred::True => Ok(()),
        Pred::And(preds) => open_all(preds, found),
        Pred::False | Pred::Test { .. } | Pred::Not(_) | Pred::Or(_) | Pred::Exists(_) => {
            push(found, pred)
        }
    }
}

#[cycle(open)]
fn open_all<'p>(preds: &'p PredList, found: &mut Vec<&'p Pred>) -> Result<(), Memory>
    ensures { OnOk result (preds_view found.new.items ≡ preds_view found.old.items ++ all_opened (preds_of (map pred_view preds.now.items))) }
{
    for pred in preds {
        open(pred, found)?;
    }
    Ok(())
}

/// The conjuncts of a condition.
pub fn opened<'p>(alloc: Global, pred: &'p Pred) -> Result<Vec<&'p Pred>, Memory>
    ensures { IfOk result (λ found. preds_view found.items ≡ opened (pred_view pred.now)) }
{
    let mut found = Vec::new(alloc);
    open(pred, &mut found)?;
    Ok(found)
}

/// Those of a WHERE.
pub fn conjuncts<'p>(alloc: Global, filter: &'p Option<Pred>) -> Result<Vec<&'p Pred>, Memory>
    ensures { IfOk result (λ found. preds_view found.items ≡ conjuncts (filter_view filter.now)) }
{
    match filter {
        None => Ok(Vec::new(alloc)),
        Some(pred) => opened(alloc, pred),
    }
}
