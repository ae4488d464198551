//! The places of the tables that a statement takes rows from.
ghost use Rattle.std.specs.Prelude.{◌≡◌, ◌++◌, OnOk, map};
ghost use Rattle.std.specs.List.{position};
ghost use Rattle.hq_sql_tree.specs.Tree.{joins_of, preds_of};
ghost use Rattle.hq_sql_tree.specs.View.{select_view, from_view, join_view, filter_view, pred_view};
ghost use Rattle.hq_sql_tree.specs.WellFormed.{is_table};
ghost use Rattle.hq_sql_check.specs.Scans.{place_named, places, places_of_from, places_of_joins, places_of_filter, places_of_pred, places_of_preds};

use hq_base::{Memory, Txt};
use hq_model::Table;
use hq_sql_tree::{From, JoinList, Pred, PredList, Select};
use std::alloc::Global;

fn position_named(tables: &[Table], schema: &Txt, name: &Txt) -> Option<usize>
    ensures { result ≡ position (is_table schema.now name.now) tables.now }
{
    tables.iter().position(|t| {
        t.schema.as_bytes() == schema.as_bytes() && t.name.as_bytes() == name.as_bytes()
    })
}

// Adds the first table of this schema and name, where there is one.
fn add_named(
    found: &mut Vec<usize>,
    tables: &[Table],
    schema: &Txt,
    name: &Txt,
) -> Result<(), Memory>
    ensures { OnOk result (found.new.items ≡ found.old.items ++ place_named tables.now schema.now name.now) }
{
    if let Some(place) = position_named(tables, schema, name) {
        found.push(place)?;
    }
    Ok(())
}

/// Adds the tables that a select takes rows from, as often as they stand in it.
#[cycle(places)]
pub fn add_places(found: &mut Vec<usize>, select: &Select, tables: &[Table]) -> Result<(), Memory>
    ensures { OnOk result (found.new.items ≡ found.old.items ++ places (select_view select.now) tables.now) }
{
    match select {
        Select::Rows {
            from,
            joins,
            filter,
            ..
        } => {
            add_from(&mut *found, from, tables)?;
            add_joins(&mut *found, joins, tables)?;
            add_filter(&mut *found, filter, tables)
        }
        Select::Fold { rows, .. } => add_places(&mut *found, rows, tables),
    }
}

#[cycle(places)]
fn add_from(found: &mut Vec<usize>, from: &From, tables: &[Table]) -> Result<(), Memory>
    ensures { OnOk result (found.new.items ≡ found.old.items ++ places_of_from (from_view from.now) tables.now) }
{
    match from {
        From::Table { schema, table, .. } => add_named(&mut *found, tables, schema, table),
        From::Sub { select, .. } => add_places(&mut *found, select, tables),
        From::One { .. } => Ok(()),
    }
}

#[cycle(places)]
fn add_joins(found: &mut Vec<usize>, joins: &JoinList, tables: &[Table]) -> Result<(), Memory>
    ensures { OnOk result (found.new.items ≡ found.old.items ++ places_of_joins (joins_of (map join_view joins.now.items)) tables.now) }
{
    for join in joins {
        add_places(&mut *found, &join.select, tables)?;
    }
    Ok(())
}

#[cycle(places)]
fn add_filter(found: &mut Vec<usize>, filter: &Option<Pred>, tables: &[Table]) -> Result<(), Memory>
    ensures { OnOk result (found.new.items ≡ found.old.items ++ places_of_filter (filter_view filter.now) tables.now) }
{
    match filter {
        None => Ok(()),
        Some(pred) => add_pred(&mut *found, pred, tables),
    }
}

#[cycle(places)]
fn add_pred(found: &mut Vec<usize>, pred: &Pred, tables: &[Table]) -> Result<(), Memory>
    ensures { OnOk result (found.new.items ≡ found.old.items ++ places_of_pred (pred_view pred.now) tables.now) }
{
    match pred {
        Pred::Not(inner) => add_pred(&mut *found, inner, tables),
        Pred::And(preds) => add_preds(&mut *found, preds, tables),
        Pred::Or(preds) => add_preds(&mut *found, preds, tables),
        Pred::Exists(select) => add_places(&mut *found, select, tables),
        Pred::True | Pred::False | Pred::Test { .. } => Ok(()),
    }
}

#[cycle(places)]
fn add_preds(found: &mut Vec<usize>, preds: &PredList, tables: &[Table]) -> Result<(), Memory>
    ensures { OnOk result (found.new.items ≡ found.old.items ++ places_of_preds (preds_of (map pred_view preds.now.items)) tables.now) }
{
    for pred in preds {
        add_pred(&mut *found, pred, tables)?;
    }
    Ok(())
}
