//! Aggregates that list one output of rows that stand in order already.
ghost use Rattle.std.specs.Prelude.{◌≡◌, [], ◌+◌, ◌≤◌, true, map, Some, IfSome, option_map};
ghost use Rattle.hq_sql_conjuncts.specs.Weight.{total, expr_weight, out_weight, pair_weight, select_weight};
ghost use Rattle.hq_sql_tree.specs.Meaning.{Scope as Names, World, outputs, rows_of};
ghost use Rattle.hq_sql_tree.specs.Tree.{object, pairs_of};
ghost use Rattle.hq_sql_output.specs.Selected.{scopes_in};
ghost use Rattle.hq_sql_tree.specs.View.{expr_view, pair_view, out_view, order_view, select_view};
ghost use Rattle.hq_sql_output.specs.Listed.{output_in, SameValue, IsOutput, IsKey, AreKeys, IsListed, listed_weight};

use hq_base::Txt;
use hq_sql_access::stages::Parts;
use hq_sql_tree::{Agg, Expr, ExprPairList, From, Join, Order, Out, Select};

/// The rows of a select.
#[derive(Clone, Copy)]
pub struct Rows<'d> {
    pub parts: Parts<'d>,
    pub from: &'d From,
    pub joins: &'d [Join],
    pub limit: Option<u64>,
    pub offset: Option<u64>,
}

/// An expression at the rows of a select.
#[derive(Clone, Copy)]
pub struct Listed<'d> {
    pub rows: Rows<'d>,
    pub element: &'d Expr,
}

/// The expression of the first output of this name.
#[tactic(auto, using(hq_sql_conjuncts::proofs::Weights::out_item))]
pub fn output_named<'d>(outs: &'d [Out], name: &Txt) -> Option<&'d Expr>
    ensures value { option_map (λ e. expr_view e.now) result ≡ output_in (map out_view outs.now) name.now }
    ensures weight { IfSome result (λ e. expr_weight e.now ≤ total (map out_weight outs.now)) }
{
    for out in outs {
        if out.name == *name {
            return Some(&out.value);
        }
    }
    None
}

/// The pairs of an object.
pub fn pairs_in<'d>(expr: &'d Expr) -> Option<&'d ExprPairList>
    ensures value { IfSome result (λ pairs. expr_view expr.now ≡ object (pairs_of (map pair_view pairs.now.items))) }
    ensures weight { IfSome result (λ pairs. expr_weight expr.now ≡ 2 + total (map pair_weight pairs.now.items)) }
{
    match expr {
        Expr::Object(pairs) => Some(pairs),
        _ => None,
    }
}

/// The pairs of the first output of this name, where it is an object.
pub fn object_named<'d>(outs: &'d [Out], name: &Txt) -> Option<&'d ExprPairList>
    ensures { IfSome result (λ pairs. output_in (map out_view outs.now) name.now ≡ Some (object (pairs_of (map pair_view pairs.now.items)))) }
{
    let element = output_named(outs, name)?;
    pairs_in(element)
}

/// The rows of a select; None of a fold.
pub fn rows_in<'d>(select: &'d Select) -> Option<Rows<'d>>
    ensures { IfSome result (λ r. (w : World) (n : Names) → rows_of (select_view select.now) w n ≡ map (outputs (map out_view r.parts.outs.now.items) []) (scopes_in r w n)) }
{
    match select {
        Select::Fold { .. } => None,
        Select::Rows {
            distinct,
            outs,
            from,
            joins,
            filter,
            order,
            limit,
            offset,
        } => {
            let parts = Parts {
                distinct,
                outs,
                filter,
                order,
            };
            Some(Rows {
                parts,
                from,
                joins: joins.as_slice(),
                limit: *limit,
                offset: *offset,
            })
        }
    }
}

/// The output that an expression over the rows of an alias names.
pub fn output_of<'d>(value: &Expr, alias: &Txt, outs: &'d [Out]) -> Option<&'d Expr>
    ensures value { IfSome result (λ e. IsOutput alias.now (map out_view outs.now) (expr_view value.now) (expr_view e.now)) }
    ensures weight { IfSome result (λ e. expr_weight e.now ≤ total (map out_weight outs.now)) }
{
    let Expr::Column {
        alias: of,
        name,
        ..
    } = value
    else {
        return None;
    };
    if *alias == *of {
        output_named(outs, name)
    } else {
        None
    }
}

// Whether two expressions are the same column, however it is compared.
fn same_column(a: &Expr, b: &Expr) -> bool
    ensures { result ≡ true → SameValue (expr_view a.now) (expr_view b.now) }
{
    match (a, b) {
        (
            Expr::Column { alias, name, .. },
            Expr::Column {
                alias: other_alias,
                name: other_name,
                ..
            },
        ) => *alias == *other_alias && *name == *other_name,
        _ => false,
    }
}

// Whether a sort key over the outputs of a select is this key of its own.
fn is_key(key: &Order, alias: &Txt, outs: &[Out], own: &Order) -> bool
    ensures { result ≡ true → IsKey alias.now (map out_view outs.now) (order_view key.now) (order_view own.now) }
{
    let Some(output) = output_of(&key.value, alias, outs) else {
        return false;
    };
    key.desc == own.desc && (key.nulls_first == own.nulls_first && same_column(output, &own.value))
}

// Whether sort keys over the outputs of a select are the first ones of its own.
fn are_keys(keys: &[Order], alias: &Txt, outs: &[Out], own: &[Order]) -> bool
    ensures { result ≡ true → AreKeys alias.now (map out_view outs.now) (map order_view keys.now) (map order_view own.now) }
{
    let Some((key, keys)) = keys.split_first() else {
        return true;
    };
    let Some((first, others)) = own.split_first() else {
        return false;
    };
    is_key(key, alias, outs, first) && are_keys(keys, alias, outs, others)
}

/// The output that `json_agg` over the rows of a select lists, where they stand in its order already.
pub fn list_of<'d>(expr: &Expr, select: &'d Select, alias: &Txt) -> Option<Listed<'d>>
    ensures listed { IfSome result (λ l. IsListed (expr_view expr.now) (select_view select.now) alias.now l) }
    ensures weight { IfSome result (λ l. 9 + listed_weight l ≤ select_weight select.now) }
{
    let Expr::Agg(Agg::JsonAgg { value, order: keys }) = expr else {
        return None;
    };
    let Select::Rows {
        distinct,
        outs,
        from,
        joins,
        filter,
        order,
        limit,
        offset,
    } = select
    else {
        return None;
    };
    if !are_keys(keys.as_slice(), alias, outs.as_slice(), order.as_slice()) {
        return None;
    }
    let Some(element) = output_of(value, alias, outs.as_slice()) else {
        return None;
    };
    let parts = Parts {
        distinct,
        outs,
        filter,
        order,
    };
    let rows = Rows {
        parts,
        from,
        joins: joins.as_slice(),
        limit: *limit,
        offset: *offset,
    };
    Some(Listed { rows, element })
}
