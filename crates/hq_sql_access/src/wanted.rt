//! Over which columns of a table a statement wants an index. It is asked for no more than to choose: the choice changes no answer.
use crate::equations::equated;
use crate::scope::is_named;
use hq_base::{Memory, Txt};
use hq_load_tables::Rows;
use hq_model::{ColId, Table, has_column};
use hq_sql_tree::{From, Join, JoinList, Pred, PredList, Select};
use std::alloc::Global;

// The most indexes that are built over one table.
const MOST: usize = 4;

// The indexes over a table that are wanted, each by its columns.
#[derive(Drop)]
struct Wanted<'d> {
    table: &'d Table,
    rows: &'d Rows,
    columns: Vec<Vec<ColId>>,
}

// Whether all of these columns are among others.
fn are_among(columns: &[ColId], others: &[ColId]) -> bool {
    for column in columns {
        if !has_column(others, *column) {
            return false;
        }
    }
    true
}

// Whether an index that there is, or one that is wanted already, serves a scan that asks these columns.
fn is_served(wanted: &Wanted<'_>, columns: &[ColId]) -> bool {
    for index in wanted.rows.indexes() {
        if are_among(index.columns(), columns) {
            return true;
        }
    }
    for others in &wanted.columns {
        if are_among(others, columns) {
            return true;
        }
    }
    false
}

// Notes what a scan of the table asks.
fn note(
    alloc: Global,
    alias: &Txt,
    joins: &[Join],
    pred: &Pred,
    wanted: &mut Wanted<'_>,
) -> Result<(), Memory> {
    if wanted.columns.len() >= MOST {
        return Ok(());
    }
    let columns = equated(alloc, wanted.table, alias, joins, pred)?;
    if !columns.is_empty() && !is_served(&*wanted, &columns) {
        wanted.columns.push(columns)?;
    }
    Ok(())
}

fn in_scan(
    alloc: Global,
    from: &From,
    joins: &[Join],
    filter: &Option<Pred>,
    wanted: &mut Wanted<'_>,
) -> Result<(), Memory> {
    let (
        From::Table {
            schema,
            table,
            alias,
        },
        Some(pred),
    ) = (from, filter)
    else {
        return Ok(());
    };
    if is_named(wanted.table, schema, table) {
        return note(alloc, alias, joins, pred, wanted);
    }
    Ok(())
}

#[cycle(wanted)]
fn in_select(alloc: Global, select: &Select, wanted: &mut Wanted<'_>) -> Result<(), Memory> {
    match select {
        Select::Fold { rows, .. } => in_select(alloc, rows, wanted),
        Select::Rows {
            from,
            joins,
            filter,
            ..
        } => {
            in_scan(alloc, from, joins.as_slice(), filter, wanted)?;
            in_from(alloc, from, wanted)?;
            in_joins(alloc, joins, wanted)?;
            in_filter(alloc, filter, wanted)
        }
    }
}

#[cycle(wanted)]
fn in_from(alloc: Global, from: &From, wanted: &mut Wanted<'_>) -> Result<(), Memory> {
    match from {
        From::Sub { select, .. } => in_select(alloc, select, wanted),
        From::Table { .. } | From::One { .. } => Ok(()),
    }
}

#[cycle(wanted)]
fn in_joins(alloc: Global, joins: &JoinList, wanted: &mut Wanted<'_>) -> Result<(), Memory> {
    for join in joins {
        in_select(alloc, &join.select, wanted)?;
    }
    Ok(())
}

#[cycle(wanted)]
fn in_filter(alloc: Global, filter: &Option<Pred>, wanted: &mut Wanted<'_>) -> Result<(), Memory> {
    match filter {
        Some(pred) => in_pred(alloc, pred, wanted),
        None => Ok(()),
    }
}

#[cycle(wanted)]
fn in_pred(alloc: Global, pred: &Pred, wanted: &mut Wanted<'_>) -> Result<(), Memory> {
    match pred {
        Pred::Not(inner) => in_pred(alloc, inner, wanted),
        Pred::And(preds) | Pred::Or(preds) => in_preds(alloc, preds, wanted),
        Pred::Exists(select) => in_select(alloc, select, wanted),
        Pred::True | Pred::False | Pred::Test { .. } => Ok(()),
    }
}

#[cycle(wanted)]
fn in_preds(alloc: Global, preds: &PredList, wanted: &mut Wanted<'_>) -> Result<(), Memory> {
    for pred in preds {
        in_pred(alloc, pred, wanted)?;
    }
    Ok(())
}

/// The columns over which a statement wants indexes beside those that a table has: those that a scan of it asks to equal columns
/// around it.
pub fn wanted_columns(
    alloc: Global,
    table: &Table,
    rows: &Rows,
    select: &Select,
) -> Result<Vec<Vec<ColId>>, Memory> {
    let mut wanted = Wanted {
        table,
        rows,
        columns: Vec::new(alloc),
    };
    in_select(alloc, select, &mut wanted)?;
    Ok(wanted.columns)
}
