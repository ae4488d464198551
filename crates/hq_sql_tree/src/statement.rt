//! The form of a statement.
ghost use Rattle.std.specs.Prelude.{◌≡◌, map};
ghost use Rattle.hq_sql_tree.specs.View.{expr_view, out_view, select_view};
ghost use Rattle.hq_sql_tree.specs.WellFormed.{is_object, is_object_output, is_statement_form};

use crate::form::has_no_filter;
use crate::{Expr, OutList, Select};

// The name of a statement's one output.
const VALUE: &str = "v";

fn is_object(value: &Expr) -> bool
    ensures { result ≡ is_object (expr_view value.now) }
{
    matches!(value, Expr::Object(_))
}

// Whether the one output is an object of this name.
fn is_object_output(outs: &OutList) -> bool
    ensures { result ≡ is_object_output (map out_view outs.now.items) }
{
    match outs.as_slice() {
        [out] => out.name.as_bytes() == VALUE.as_bytes() && is_object(&out.value),
        _ => false,
    }
}

impl Select {
    /// Whether it is one row whose one output `v` is an object, without WHERE, ORDER BY, LIMIT and OFFSET.
    #[tactic(auto, using(crate::proofs::Plain::plain_form))]
    pub fn is_statement_form(&self) -> bool
        ensures { result ≡ is_statement_form (select_view self.now) }
    {
        match self {
            Select::Rows {
                outs,
                from,
                filter,
                order,
                limit,
                offset,
                ..
            } => {
                from.is_one()
                    && has_no_filter(filter)
                    && order.is_empty()
                    && limit.is_none()
                    && offset.is_none()
                    && is_object_output(outs)
            }
            Select::Fold { .. } => false,
        }
    }
}
