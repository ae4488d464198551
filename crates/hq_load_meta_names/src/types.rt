ghost use Rattle.std.specs.Prelude.{◌≡◌, ◌++◌, map, IfOk};
ghost use Rattle.hq_load_meta_names.specs.Types.{part_name, aggregated_name, table_types_by, types_by, roots_by};
ghost use Rattle.hq_model.specs.SchemaNames.{rel_fields};

use crate::texts::{push_end, push_name, with_end};
use hq_base::{Aggregate, List, Memory, Txt};
use hq_model::{Rel, RootNames, TxtList};
use hq_schema::Part;
use std::alloc::Global;

// Names, and behind them those of these types.
fn push_parts(alloc: Global, names: TxtList, parts: &[Part], name: &Txt) -> Result<TxtList, Memory>
    ensures { IfOk result (λ all. all ≡ names ++ map (part_name name.now) parts.now) }
{
    let mut all = names;
    for part in parts {
        all.push(with_end(alloc, name, part.suffix())?)?;
    }
    Ok(all)
}

// Names, and behind them those of what these aggregates give.
fn push_aggregated(
    alloc: Global,
    names: TxtList,
    aggregates: &[Aggregate],
    name: &Txt,
) -> Result<TxtList, Memory>
    ensures { IfOk result (λ all. all ≡ names ++ map (aggregated_name name.now) aggregates.now) }
{
    let mut all = names;
    for aggregate in aggregates {
        all.push(with_end(alloc, name, aggregate.type_suffix())?)?;
    }
    Ok(all)
}

// The types of a table, with these aggregates.
fn table_types(alloc: Global, aggregates: &[Aggregate], name: &Txt) -> Result<TxtList, Memory>
    ensures { IfOk result (λ names. names ≡ table_types_by aggregates.now name.now) }
{
    let names = push_parts(alloc, List::new(alloc), &Part::of_rows(), name)?;
    let names = push_parts(alloc, names, &Part::of_aggregates(), name)?;
    push_aggregated(alloc, names, aggregates, name)
}

/// The types of a table that is shown, where these aggregates are ones of the values of some column.
pub fn types_by(
    alloc: Global,
    shown: bool,
    aggregates: &[Aggregate],
    name: &Txt,
) -> Result<TxtList, Memory>
    ensures { IfOk result (λ names. names ≡ types_by shown aggregates.now name.now) }
{
    if !shown {
        return Ok(List::new(alloc));
    }
    table_types(alloc, aggregates, name)
}

/// The root fields of a table that is shown: the look-up by key where the key's columns are.
pub fn roots_by(
    alloc: Global,
    shown: bool,
    keyed: bool,
    roots: &RootNames,
) -> Result<TxtList, Memory>
    ensures { IfOk result (λ names. names ≡ roots_by shown keyed roots.now) }
{
    if !shown {
        return Ok(List::new(alloc));
    }
    let names = push_name(alloc, List::new(alloc), &roots.select)?;
    let names = push_name(alloc, names, &roots.select_aggregate)?;
    if !keyed {
        return Ok(names);
    }
    push_name(alloc, names, &roots.select_by_pk)
}

/// The field of a relationship, and the field for aggregates beside it where it is an array one.
pub fn rel_fields(alloc: Global, rel: &Rel) -> Result<TxtList, Memory>
    ensures { IfOk result (λ names. names ≡ rel_fields rel.now) }
{
    let names = push_name(alloc, List::new(alloc), &rel.name)?;
    if !rel.many {
        return Ok(names);
    }
    push_end(alloc, names, &rel.name, "_aggregate")
}
