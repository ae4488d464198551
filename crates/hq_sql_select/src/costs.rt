//! In which order an AND tries its conditions: first those that cost little.
ghost use Rattle.std.specs.Prelude.{◌≡◌, ◌≤◌};
ghost use Rattle.hq_sql_conjuncts.specs.Weight.{pred_weight};
ghost use Rattle.hq_sql_tree.specs.Meaning.{Scope as Names, World, truth_at};
ghost use Rattle.hq_sql_tree.specs.View.{pred_view};
ghost use Rattle.hq_sql_select.specs.Costs.{brought, conjunct_truth, conjunct_weight, part_at};

use hq_sql_tree::{Pred, PredList};

/// What a condition costs, by its kind alone.
#[derive(Clone, Copy, PartialEq, Eq)]
pub enum Cost {
    /// It holds no other condition.
    Plain,
    /// It is NOT or OR.
    Nested,
    /// It is EXISTS, which walks over rows.
    Rows,
}

/// What becomes of a condition of an AND while those of one cost are tried.
#[derive(Clone, Copy)]
pub enum Conjunct<'d> {
    /// It is an AND too: its own conditions stand in its place.
    Opened(&'d PredList),
    /// It has that cost.
    Tried(&'d Pred),
    /// It has another one.
    Other,
}

// A condition of this cost, while those of a cost are tried.
fn tried_if<'d>(pred: &'d Pred, own: Cost, cost: Cost) -> Conjunct<'d>
    ensures truth { (w : World) (n : Names) → conjunct_truth cost result w n ≡ brought own cost (truth_at (pred_view pred.now) w n) }
    ensures weight { conjunct_weight result ≤ pred_weight pred.now }
{
    if own == cost {
        Conjunct::Tried(pred)
    } else {
        Conjunct::Other
    }
}

/// A condition of an AND, while those of this cost are tried.
pub fn conjunct_at<'d>(pred: &'d Pred, cost: Cost) -> Conjunct<'d>
    ensures truth { (w : World) (n : Names) → conjunct_truth cost result w n ≡ part_at cost (pred_view pred.now) w n }
    ensures weight { conjunct_weight result ≤ pred_weight pred.now }
{
    match pred {
        Pred::And(preds) => Conjunct::Opened(preds),
        Pred::Exists(_) => tried_if(pred, Cost::Rows, cost),
        Pred::Not(_) | Pred::Or(_) => tried_if(pred, Cost::Nested, cost),
        Pred::True | Pred::False | Pred::Test { .. } => tried_if(pred, Cost::Plain, cost),
    }
}
