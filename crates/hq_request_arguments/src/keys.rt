//! The values of a key.
ghost use Rattle.std.specs.Prelude.{◌≡◌, map, IfOk, option_map};
ghost use Rattle.hq_base.specs.Due.{Gives};
ghost use Rattle.hq_base.specs.Json.{json_view};
ghost use Rattle.hq_gql_tree.specs.Values.{argument_view};
ghost use Rattle.hq_schema.specs.Schema.{arg_view};
ghost use Rattle.hq_model.specs.Schema.{table};
ghost use Rattle.hq_model.specs.Described.{scope_schema};
ghost use Rattle.hq_request_arguments.specs.Context.{context_view};
ghost use Rattle.hq_request_arguments.specs.Given.{given_view};
ghost use Rattle.hq_request_arguments.specs.Keys.{is_for, key_argument, key_value, given_for, part_due, key_due};
ghost use Rattle.hq_request_arguments.specs.Reading.{each};
ghost use Rattle.hq_request_arguments.specs.declared.refusal.ArgRefusal.TheVariants as refusal;

use crate::reading::{Given, argument_named, given_of};
use crate::{ArgRefusal, Context};
use hq_base::{Json, List, Memory, Ty, Val};
use hq_gql_tree::{Argument, RuleId};
use hq_model::{ColId, Described, TableId, constant_in};
use hq_request_tree::ValList;
use hq_schema::{ArgDef, ArgOrigin};
use std::alloc::Global;

// Whether an argument is for a column.
fn is_for(column: ColId, origin: ArgOrigin) -> bool
    ensures { result ≡ is_for column origin }
{
    match origin {
        ArgOrigin::Column(own) => own.at() == column.at(),
        _ => false,
    }
}

fn key_argument(args: &[ArgDef], column: ColId) -> Option<&ArgDef>
    ensures { option_map (λ a. arg_view a.now) result ≡ key_argument (map arg_view args.now) column }
{
    for arg in args {
        if is_for(column, arg.origin) {
            return Some(arg);
        }
    }
    None
}

// A value of a column's type.
fn key_value(alloc: Global, ty: Ty, json: &Json) -> Result<Val, ArgRefusal>
    ensures { Gives (λ v. v) refusal.Memory (key_value ty (json_view json.now)) result }
{
    match constant_in(alloc, ty, json)? {
        Some(value) => Ok(value),
        None => Err(ArgRefusal::Rule(RuleId::ValuesOfCorrectType)),
    }
}

// The argument for a column, None where it is not given.
fn given_for<'a>(
    alloc: Global,
    context: &Context<'_>,
    args: &'a [ArgDef],
    arguments: &[Argument],
    column: ColId,
) -> Result<Option<Given<'a>>, Memory>
    ensures { IfOk result (λ o. option_map given_view o ≡ given_for (context_view context.now) (map arg_view args.now) (map argument_view arguments.now) column) }
{
    let Some(arg) = key_argument(args, column) else {
        return Ok(None);
    };
    match argument_named(arguments, arg.name.as_str()) {
        Some(argument) => given_of(alloc, context, arg, argument),
        None => Ok(None),
    }
}

// The value of a column of a key.
fn key_part(
    alloc: Global,
    context: &Context<'_>,
    args: &[ArgDef],
    arguments: &[Argument],
    t: TableId,
    column: ColId,
) -> Result<Val, ArgRefusal>
    ensures { Gives (λ v. v) refusal.Memory (part_due (context_view context.now) (map arg_view args.now) (map argument_view arguments.now) t column) result }
{
    let Some(given) = given_for(alloc, context, args, arguments, column)? else {
        return Err(ArgRefusal::Rule(RuleId::RequiredArguments));
    };
    key_value(alloc, context.scope.column_type(t, column), &given.value)
}

// The columns of a table's key.
fn key_columns<'a>(scope: &Described<'a>, t: TableId) -> &'a [ColId]
    ensures { result.now ≡ (table (scope_schema scope.now) t).key }
{
    match scope.catalog.table(t) {
        Some(table) => table.key.as_slice(),
        None => &[],
    }
}

// The values of some columns of a key.
fn key_parts(
    alloc: Global,
    context: &Context<'_>,
    args: &[ArgDef],
    arguments: &[Argument],
    t: TableId,
    columns: &[ColId],
) -> Result<ValList, ArgRefusal>
    ensures { Gives (λ vs. vs) refusal.Memory (each (part_due (context_view context.now) (map arg_view args.now) (map argument_view arguments.now) t) columns.now) result }
{
    let mut values = List::new(alloc);
    for column in columns {
        values.push(key_part(alloc, context, args, arguments, t, *column)?)?;
    }
    Ok(values)
}

/// The values of the key of a table, in the order of its columns.
pub fn key(
    alloc: Global,
    context: &Context<'_>,
    args: &[ArgDef],
    arguments: &[Argument],
    t: TableId,
) -> Result<ValList, ArgRefusal>
    ensures { Gives (λ vs. vs) refusal.Memory (key_due (context_view context.now) (map arg_view args.now) (map argument_view arguments.now) t) result }
{
    let columns = key_columns(&context.scope, t);
    key_parts(alloc, context, args, arguments, t, columns)
}
