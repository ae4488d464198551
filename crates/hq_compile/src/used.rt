//! The columns of a row that its fields use.
ghost use Rattle.std.specs.Prelude.{◌≡◌, ◌++◌, IfOk, OnOk};
ghost use Rattle.hq_request_tree.specs.Fields.{field_view, keyed_field_view};
ghost use Rattle.hq_translation.specs.Fields.{field_used, fields_used, key_used};
ghost use Rattle.hq_compile_tables.specs.Contexts.{context_schema};
ghost use Rattle.hq_compile.specs.Fields.{fields_view};

use hq_base::{List, Memory};
use hq_compile_lists::add_each;
use hq_compile_tables::Context;
use hq_model::{ColList, TableId};
use hq_request_tree::{AskField, AskFields, KeyedAskField};
use std::alloc::Global;

// Adds the column that a field uses.
fn add_field(field: &AskField, columns: &mut ColList) -> Result<(), Memory>
    ensures { OnOk result (columns.new ≡ columns.old ++ field_used (field_view field.now)) }
{
    match field {
        AskField::Column { col } => columns.push(*col),
        _ => Ok(()),
    }
}

fn add_keyed(keyed: &KeyedAskField, columns: &mut ColList) -> Result<(), Memory>
    ensures { OnOk result (columns.new ≡ columns.old ++ field_used (keyed_field_view keyed.now).1) }
{
    add_field(&keyed.field, columns)
}

// Adds those of fields.
fn add_fields(fields: &AskFields, columns: &mut ColList) -> Result<(), Memory>
    ensures { OnOk result (columns.new ≡ columns.old ++ fields_used (fields_view fields.now.items)) }
{
    for keyed in fields {
        add_keyed(keyed, columns)?;
    }
    Ok(())
}

/// The columns of the row that fields use.
pub(crate) fn fields_used(alloc: Global, fields: &AskFields) -> Result<ColList, Memory>
    ensures { IfOk result (λ columns. columns ≡ fields_used (fields_view fields.now.items)) }
{
    let mut columns = List::new(alloc);
    add_fields(fields, &mut columns)?;
    Ok(columns)
}

/// The columns of its rows that a look-up by key uses.
pub(crate) fn key_used(
    alloc: Global,
    context: &Context,
    t: TableId,
    fields: &AskFields,
) -> Result<ColList, Memory>
    ensures { IfOk result (λ columns. columns ≡ key_used (context_schema context.now) t (fields_view fields.now.items)) }
{
    let mut columns = List::new(alloc);
    add_each(context.key(t), &mut columns)?;
    add_fields(fields, &mut columns)?;
    Ok(columns)
}
