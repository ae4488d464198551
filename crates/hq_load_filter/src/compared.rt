ghost use Rattle.std.specs.Prelude.{◌≡◌, slice_get};
ghost use Rattle.hq_base.specs.Due.{Gives};
ghost use Rattle.hq_base.specs.Json.{json_view};
ghost use Rattle.hq_model.specs.Bexp.{bexp_view};
ghost use Rattle.hq_model.specs.Catalog.{can_pair, type_of};
ghost use Rattle.hq_model.specs.Schema.{table};
ghost use Rattle.hq_model.specs.Described.{scope_schema};
ghost use Rattle.hq_load_filter.specs.Condition.{compared_due};

use crate::FilterRefusal;
use crate::named::column_named;
use crate::refusal::{bad_operand, misshaped, unknown_column};
use hq_base::{Json, Txt};
use hq_model::{Bexp, ColId, Described, Op, TableId, can_pair};
use std::alloc::Global;

// Whether the values of two columns of a table can be compared.
fn are_comparable(scope: &Described, t: TableId, left: ColId, right: ColId) -> bool
    ensures { let x = table (scope_schema scope.now) t in result ≡ can_pair (type_of (slice_get x.columns left)) (type_of (slice_get x.columns right)) }
{
    match scope.catalog.table(t) {
        Some(table) => {
            let columns = table.columns.as_slice();
            can_pair(columns, columns, left, right)
        }
        None => false,
    }
}

/// A comparison of a column with another one of its table, which the text at a path names.
#[tactic(auto, unfolding(crate::specs::Condition::compared_due))]
pub fn compared(
    alloc: Global,
    scope: &Described,
    t: TableId,
    col: ColId,
    op: Op,
    path: &Txt,
    json: &Json,
) -> Result<Bexp, FilterRefusal>
    ensures { Gives bexp_view FilterRefusal.Memory (compared_due (table (scope_schema scope.now) t) col op path.now (json_view json.now)) result }
{
    let Some(name) = json.as_txt() else {
        return Err(misshaped(alloc, path));
    };
    let Some(right) = column_named(scope, t, name) else {
        return Err(unknown_column(alloc, path));
    };
    if !are_comparable(scope, t, col, right) {
        return Err(bad_operand(alloc, path));
    }
    Ok(Bexp::Columns {
        left: col,
        op,
        right,
    })
}
