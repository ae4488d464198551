//! Rows that are written as a fold are one.
ghost use Rattle.std.specs.Prelude.{◌≡◌, ◌∷◌, [], map, true};
ghost use Rattle.hq_sql_tree.specs.Form.{is_lone_agg};
ghost use Rattle.hq_sql_tree.specs.View.{out_view, select_view};
ghost use Rattle.hq_sql_text.specs.Reading.{shaped};

use hq_sql_tree::{From, Out, OutList, Select};

// The one output.
fn lone(mut outs: OutList) -> Out
    requires { is_lone_agg (map out_view outs.items) ≡ true }
    ensures { outs.items ≡ result ∷ [] }
{
    match outs.pop() {
        Some(out) => out,
        None => unreachable!(),
    }
}

/// The tree that the text of this one is read as: a fold where it is written as a fold is.
pub(crate) fn shaped(select: Select) -> Select
    ensures { select_view result ≡ shaped (select_view select) }
{
    if !select.reads_as_fold() {
        return select;
    }
    match select {
        Select::Rows {
            distinct,
            outs,
            from,
            joins,
            filter,
            order,
            limit,
            offset,
        } => match from {
            From::Sub { select, alias } => Select::Fold {
                out: lone(outs),
                rows: select,
                alias,
            },
            from => Select::Rows {
                distinct,
                outs,
                from,
                joins,
                filter,
                order,
                limit,
                offset,
            },
        },
        Select::Fold { out, rows, alias } => Select::Fold { out, rows, alias },
    }
}
