//! Runs: all key columns of one scan among sort keys, in key order, from one alias at every step, each ascending with NULLs last.
ghost use Rattle.std.specs.Prelude.{◌≡◌, map};
ghost use Rattle.hq_model.specs.Schema.{table};
ghost use Rattle.hq_sql_tree.specs.Tree.{orders_of};
ghost use Rattle.hq_sql_tree.specs.View.{expr_view, order_view};
ghost use Rattle.hq_confine_rules.specs.Origins.{origin};
ghost use Rattle.hq_confine_rules.specs.Uses.{is_key_sort, is_run, run_from, has_run};
ghost use Rattle.hq_confine_uses.specs.Views.{origin_view, path_view, shapes_view, rules_schema};

use crate::known::Rules;
use crate::origins::{Cell, Path, is_of, origin};
use crate::scope::Shapes;
use hq_base::Txt;
use hq_model::ColId;
use hq_sql_tree::Order;

// Whether it is a sort key by this column of the scan at the end of a path, ascending, NULLs last.
fn is_key_sort(
    rules: &Rules<'_>,
    scope: &Shapes<'_, '_>,
    t: usize,
    path: &Path<'_, '_>,
    column: ColId,
    order: &Order,
) -> bool
    ensures { result ≡ is_key_sort (rules_schema rules.now) (shapes_view scope.now) t (path_view path.now) column (expr_view order.now.value) order.now.desc order.now.nulls_first }
{
    is_of(&origin(rules, scope, &order.value), t, path, column.at())
        && !order.desc
        && !order.nulls_first
}

// Whether the sort keys begin with these columns of one scan, from one alias at every step.
fn is_run(
    rules: &Rules<'_>,
    scope: &Shapes<'_, '_>,
    t: usize,
    path: &Path<'_, '_>,
    columns: &[ColId],
    orders: &[Order],
) -> bool
    ensures { result ≡ is_run (rules_schema rules.now) (shapes_view scope.now) t (path_view path.now) columns.now (orders_of (map order_view orders.now)) }
{
    if orders.len() < columns.len() {
        return false;
    }
    for (at, column) in columns.iter().enumerate() {
        if !is_key_sort(rules, scope, t, path, *column, &orders[at]) {
            return false;
        }
    }
    true
}

/// How many sort keys the run has that begins with the cell of the first one.
pub(crate) fn run_from(
    rules: &Rules<'_>,
    scope: &Shapes<'_, '_>,
    cell: &Option<Cell<'_, '_>>,
    orders: &[Order],
) -> usize
    ensures { result ≡ run_from (rules_schema rules.now) (shapes_view scope.now) (origin_view cell.now) (orders_of (map order_view orders.now)) }
{
    match cell {
        None => 0,
        Some(cell) => {
            let key = rules.key(cell.table);
            if is_run(rules, scope, cell.table, &cell.path, key, orders) {
                key.len()
            } else {
                0
            }
        }
    }
}

/// Whether the run of a scan's own key stands among the sort keys.
pub fn has_run(
    rules: &Rules<'_>,
    scope: &Shapes<'_, '_>,
    t: usize,
    alias: &Txt,
    orders: &[Order],
) -> bool
    ensures { result ≡ has_run (rules_schema rules.now) (shapes_view scope.now) t alias.now (orders_of (map order_view orders.now)) }
{
    let path = Path {
        first: alias,
        rest: &[],
    };
    let key = rules.key(t);
    for at in 0..orders.len() {
        if is_run(rules, scope, t, &path, key, &orders[at..]) {
            return true;
        }
    }
    false
}
