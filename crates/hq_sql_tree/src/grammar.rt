//! Selects of the grammar.
ghost use Rattle.std.specs.Prelude.{◌≡◌, ◌&&◌, not, map, length, nat_le};
ghost use Rattle.hq_model.specs.Tests.{takes, is_of_nothing};
ghost use Rattle.std.specs.List.{list_all};
ghost use Rattle.hq_sql_tree.specs.Tree.{joins_of, preds_of, pred_list};
ghost use Rattle.hq_sql_tree.specs.View.{expr_view, out_view, select_view, from_view, join_view, pred_view, filter_view};
ghost use Rattle.hq_sql_tree.specs.Form.{is_expr, is_select, is_from, are_joins, is_filter, is_pred, are_preds, select_depth};

use crate::depth::select_within;
use crate::exprs::{are_exprs, are_key_exprs, are_out_exprs, is_expr};
use crate::{ExprList, From, JoinList, OutList, Pred, PredList, Select};
use hq_model::{Arity, Test};

// Whether there is an output, and these are expressions of the grammar.
fn has_outputs(distinct: &ExprList, outs: &OutList) -> bool
    ensures { result ≡ (list_all is_expr (map expr_view distinct.now.items) && nat_le 1 (length (map out_view outs.now.items)) && list_all (λ o. is_expr o.value) (map out_view outs.now.items)) }
{
    are_exprs(distinct) && outs.len() >= 1 && are_out_exprs(outs)
}

// Whether these are operands of the grammar, as many as a test takes; a list has one or more.
fn is_taken(test: Test, operands: &ExprList) -> bool
    ensures { result ≡ (takes test (length (map expr_view operands.now.items)) && not (is_of_nothing test (map expr_view operands.now.items)) && list_all is_expr (map expr_view operands.now.items)) }
{
    let are_enough = match test.arity() {
        Arity::Nothing => operands.is_empty(),
        Arity::One => operands.len() == 1,
        Arity::Many => !operands.is_empty(),
    };
    are_enough && are_exprs(operands)
}

// Whether there are two members or more.
fn has_two(preds: &PredList) -> bool
    ensures { result ≡ nat_le 2 (length (pred_list (preds_of (map pred_view preds.now.items)))) }
{
    preds.len() >= 2
}

// Whether each select has an output, And and Or two members or more, a test as many operands as it takes, IN one or more, and
// EXISTS and folds are over rows.
#[cycle(is_select)]
fn is_select(select: &Select) -> bool
    ensures { result ≡ is_select (select_view select.now) }
{
    match select {
        Select::Rows {
            distinct,
            outs,
            from,
            joins,
            filter,
            order,
            ..
        } => {
            has_outputs(distinct, outs)
                && is_from(from)
                && are_joins(joins)
                && is_filter(filter)
                && are_key_exprs(order)
                && !select.reads_as_fold()
        }
        Select::Fold { out, rows, .. } => {
            is_expr(&out.value) && out.value.holds_agg() && rows.is_rows() && is_select(rows)
        }
    }
}

#[cycle(is_select)]
fn is_from(from: &From) -> bool
    ensures { result ≡ is_from (from_view from.now) }
{
    match from {
        From::Table { .. } | From::One { .. } => true,
        From::Sub { select, .. } => is_select(select),
    }
}

#[cycle(is_select)]
fn are_joins(joins: &JoinList) -> bool
    ensures { result ≡ are_joins (joins_of (map join_view joins.now.items)) }
{
    for join in joins {
        if !is_select(&join.select) {
            return false;
        }
    }
    true
}

#[cycle(is_select)]
fn is_filter(filter: &Option<Pred>) -> bool
    ensures { result ≡ is_filter (filter_view filter.now) }
{
    match filter {
        None => true,
        Some(pred) => is_pred(pred),
    }
}

#[cycle(is_select)]
fn is_pred(pred: &Pred) -> bool
    ensures { result ≡ is_pred (pred_view pred.now) }
{
    match pred {
        Pred::True | Pred::False => true,
        Pred::Test {
            value,
            test,
            operands,
        } => is_expr(value) && is_taken(*test, operands),
        Pred::Not(inner) => is_pred(inner),
        Pred::And(preds) | Pred::Or(preds) => has_two(preds) && are_preds(preds),
        Pred::Exists(select) => select.is_rows() && is_select(select),
    }
}

#[cycle(is_select)]
fn are_preds(preds: &PredList) -> bool
    ensures { result ≡ are_preds (preds_of (map pred_view preds.now.items)) }
{
    for pred in preds {
        if !is_pred(pred) {
            return false;
        }
    }
    true
}

impl Select {
    /// Whether the select is one of the grammar and opens at most so many parentheses at once: each select has an output,
    /// And and Or two members or more, a test as many operands as it takes, IN one or more, each json_agg a sort key, and
    /// EXISTS and folds are over rows. The depth comes first: the other walks go as deep as the tree.
    #[tactic(auto, using(crate::proofs::Conjunctions::and_true, crate::proofs::Conjunctions::and_false))]
    pub fn has_form(&self, most_open: u32) -> bool
        ensures { result ≡ (is_select (select_view self.now) && nat_le (select_depth (select_view self.now)) most_open) }
    {
        select_within(self, most_open) && is_select(self)
    }
}
