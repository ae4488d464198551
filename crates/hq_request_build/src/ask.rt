//! The typed request of collected fields.
ghost use Rattle.std.specs.Prelude.{◌≡◌, map};
ghost use Rattle.hq_base.specs.Due.{Gives, mapped};
ghost use Rattle.hq_request_arguments.specs.Context.{context_view};
ghost use Rattle.hq_request_build.specs.Asked.{aggregate_by, below_of, field_due, field_of, fields_due, introspect_by, introspect_named, list_by, part_due, part_of, parts_due, row_by};
ghost use Rattle.hq_request_build.specs.KnownField.{leads_to, type_name_due};
ghost use Rattle.hq_request_build.specs.Seen.{known_view};
ghost use Rattle.hq_request_build.specs.Summaries.{summaries_due};
ghost use Rattle.hq_request_tree.specs.Arguments.{arguments_view};
ghost use Rattle.hq_request_tree.specs.Fields.{fields_of, parts_of, field_view, part_view, keyed_field_view, keyed_part_view};
ghost use Rattle.hq_request_tree.specs.Fields.{origin_of, object, list, by_key, aggregate, summary, nodes, part_typename, typename};
ghost use Rattle.hq_request_coerce.specs.declared.refusal.CoerceRefusal.TheVariants as refusal;
ghost use Rattle.hq_request_collect.specs.TreeSeen.{collected_view, trees_of, parts_seen};

use crate::known::{
    KnownField, key_of, known_field_of, refused, rows_of, type_name_at, type_name_of,
};
use crate::looks::{ask_looks, look_of};
use crate::summaries::ask_summaries;
use hq_base::Txt;
use hq_gql_tree::RuleId;
use hq_model::{RelId, TableId};
use hq_request_arguments::Context;
use hq_request_coerce::CoerceRefusal;
use hq_request_collect::{CollectedField, CollectedList};
use hq_request_tree::{
    AggPart, AggParts, Args, AskField, AskFields, KeyedAggPart, KeyedAskField, ValList,
};
use hq_schema::{FieldOrigin, TypeId};
use std::alloc::Global;

fn keyed(key: Txt, field: AskField) -> KeyedAskField
    ensures { keyed_field_view result ≡ (key, field_view field) }
{
    KeyedAskField { key, field }
}

fn keyed_part(key: Txt, part: AggPart) -> KeyedAggPart
    ensures { keyed_part_view result ≡ (key, part_view part) }
{
    KeyedAggPart { key, part }
}

fn object(rel: RelId, fields: AskFields) -> AskField
    ensures { field_view result ≡ object rel (fields_of (map keyed_field_view fields.items)) }
{
    AskField::Object { rel, fields }
}

fn list(table: TableId, rel: Option<RelId>, args: Args, fields: AskFields) -> AskField
    ensures { field_view result ≡ list (origin_of table rel) (arguments_view args) (fields_of (map keyed_field_view fields.items)) }
{
    AskField::List {
        table,
        rel,
        args,
        fields,
    }
}

fn by_key(table: TableId, key: ValList, fields: AskFields) -> AskField
    ensures { field_view result ≡ by_key table key (fields_of (map keyed_field_view fields.items)) }
{
    AskField::ByPk { table, key, fields }
}

fn aggregate(table: TableId, rel: Option<RelId>, args: Args, parts: AggParts) -> AskField
    ensures { field_view result ≡ aggregate (origin_of table rel) (arguments_view args) (parts_of (map keyed_part_view parts.items)) }
{
    AskField::Aggregate {
        table,
        rel,
        args,
        parts,
    }
}

// The name of the type of a place.
fn type_name(
    alloc: Global,
    context: &Context<'_>,
    place: TypeId,
    field: &CollectedField<'_>,
) -> Result<AskField, CoerceRefusal>
    ensures { let c = context_view context.now in Gives field_view refusal.Memory (mapped typename (type_name_due c.schema place (parts_seen field.now).head)) result }
{
    let name = type_name_at(alloc, context.schema, place, field)?;
    Ok(AskField::Typename { name })
}

// Introspection, of a type of some name.
fn introspect(
    alloc: Global,
    context: &Context<'_>,
    to: TypeId,
    t: TableId,
    field: &CollectedField<'_>,
    type_name: Option<Txt>,
) -> Result<AskField, CoerceRefusal>
    ensures { let f = parts_seen field.now in Gives field_view refusal.Memory (introspect_by f.head type_name (below_of (context_view context.now) to t f.below)) result }
{
    let fields = ask_looks(alloc, context, to, t, &field.below)?;
    let field = look_of(alloc, field, type_name, false, fields)?;
    Ok(AskField::Introspect { field })
}

// The same of the type that the argument names.
fn introspect_named(
    alloc: Global,
    context: &Context<'_>,
    t: TableId,
    known: KnownField<'_>,
    field: &CollectedField<'_>,
) -> Result<AskField, CoerceRefusal>
    ensures { let f = parts_seen field.now in let k = known_view known.entry in Gives field_view refusal.Memory
        (introspect_named f.head k (below_of (context_view context.now) (leads_to k) t f.below)) result }
{
    let to = known.def.ty.base();
    let name = type_name_of(Box::into_inner(known.args), field)?;
    introspect(alloc, context, to, t, field, Some(name))
}

// `aggregate` of an aggregate.
fn summary_part(
    alloc: Global,
    context: &Context<'_>,
    to: TypeId,
    t: TableId,
    field: &CollectedField<'_>,
) -> Result<AggPart, CoerceRefusal>
    ensures { Gives part_view refusal.Memory (mapped summary (summaries_due (context_view context.now) to t (parts_seen field.now).below)) result }
{
    let fields = ask_summaries(alloc, context, to, t, &field.below)?;
    Ok(AggPart::Fields(fields))
}

// The same as a part of an aggregate.
fn type_name_part(
    alloc: Global,
    context: &Context<'_>,
    place: TypeId,
    field: &CollectedField<'_>,
) -> Result<AggPart, CoerceRefusal>
    ensures { let c = context_view context.now in Gives part_view refusal.Memory (mapped part_typename (type_name_due c.schema place (parts_seen field.now).head)) result }
{
    let name = type_name_at(alloc, context.schema, place, field)?;
    Ok(AggPart::Typename { name })
}

fn nodes_part(fields: AskFields) -> AggPart
    ensures { part_view result ≡ nodes (fields_of (map keyed_field_view fields.items)) }
{
    AggPart::Nodes(fields)
}

// What stands below a field in the type that it leads to, at a row of a table.
#[cycle(asking)]
fn fields_below(
    alloc: Global,
    context: &Context<'_>,
    to: TypeId,
    t: TableId,
    field: &CollectedField<'_>,
) -> Result<AskFields, CoerceRefusal>
    ensures { Gives (λ v. fields_of (map keyed_field_view v.items)) refusal.Memory (fields_due (context_view context.now) to t (parts_seen field.now).below) result }
{
    ask_fields(alloc, context, to, t, &field.below)
}

// The same of an aggregate over rows of a table.
#[cycle(asking)]
fn parts_below(
    alloc: Global,
    context: &Context<'_>,
    to: TypeId,
    t: TableId,
    field: &CollectedField<'_>,
) -> Result<AggParts, CoerceRefusal>
    ensures { Gives (λ v. parts_of (map keyed_part_view v.items)) refusal.Memory (parts_due (context_view context.now) to t (parts_seen field.now).below) result }
{
    ask_parts(alloc, context, to, t, &field.below)
}

// The row behind a relationship to a table, with its fields in the type that it leads to.
#[cycle(asking)]
fn ask_object(
    alloc: Global,
    context: &Context<'_>,
    to: TypeId,
    table: TableId,
    rel: RelId,
    field: &CollectedField<'_>,
) -> Result<AskField, CoerceRefusal>
    ensures { Gives field_view refusal.Memory (mapped (object rel) (fields_due (context_view context.now) to table (parts_seen field.now).below)) result }
{
    let fields = fields_below(alloc, context, to, table, field)?;
    Ok(object(rel, fields))
}

// A list of a table's rows with these arguments, with their fields.
#[cycle(asking)]
fn ask_rows(
    alloc: Global,
    context: &Context<'_>,
    to: TypeId,
    table: TableId,
    rel: Option<RelId>,
    args: Box<Args>,
    field: &CollectedField<'_>,
) -> Result<AskField, CoerceRefusal>
    ensures { Gives field_view refusal.Memory (mapped (list (origin_of table rel) (arguments_view args.value)) (fields_due (context_view context.now) to table (parts_seen field.now).below)) result }
{
    let fields = fields_below(alloc, context, to, table, field)?;
    Ok(list(table, rel, Box::into_inner(args), fields))
}

// A list of a table's rows.
#[cycle(asking)]
fn ask_list(
    alloc: Global,
    context: &Context<'_>,
    t: TableId,
    table: TableId,
    rel: Option<RelId>,
    known: KnownField<'_>,
    field: &CollectedField<'_>,
) -> Result<AskField, CoerceRefusal>
    ensures { let f = parts_seen field.now in let k = known_view known.entry in Gives field_view refusal.Memory
        (list_by table rel f.head k (below_of (context_view context.now) (leads_to k) t f.below)) result }
{
    let to = known.def.ty.base();
    let args = rows_of(Box::into_inner(known.args), field)?;
    ask_rows(alloc, context, to, table, rel, args, field)
}

// The row of a key of a table, with its fields.
#[cycle(asking)]
fn ask_row(
    alloc: Global,
    context: &Context<'_>,
    t: TableId,
    table: TableId,
    known: KnownField<'_>,
    field: &CollectedField<'_>,
) -> Result<AskField, CoerceRefusal>
    ensures { let f = parts_seen field.now in let k = known_view known.entry in Gives field_view refusal.Memory
        (row_by table f.head k (below_of (context_view context.now) (leads_to k) t f.below)) result }
{
    let to = known.def.ty.base();
    let key = key_of(Box::into_inner(known.args), field)?;
    let fields = fields_below(alloc, context, to, table, field)?;
    Ok(by_key(table, key, fields))
}

// The aggregates over a list of a table's rows with these arguments.
#[cycle(asking)]
fn ask_totals(
    alloc: Global,
    context: &Context<'_>,
    to: TypeId,
    table: TableId,
    rel: Option<RelId>,
    args: Box<Args>,
    field: &CollectedField<'_>,
) -> Result<AskField, CoerceRefusal>
    ensures { Gives field_view refusal.Memory
        (mapped (aggregate (origin_of table rel) (arguments_view args.value))
        (parts_due (context_view context.now) to table (parts_seen field.now).below))
        result }
{
    let parts = parts_below(alloc, context, to, table, field)?;
    Ok(aggregate(table, rel, Box::into_inner(args), parts))
}

// The aggregates over a list of a table's rows.
#[cycle(asking)]
fn ask_aggregate(
    alloc: Global,
    context: &Context<'_>,
    t: TableId,
    table: TableId,
    rel: Option<RelId>,
    known: KnownField<'_>,
    field: &CollectedField<'_>,
) -> Result<AskField, CoerceRefusal>
    ensures { let f = parts_seen field.now in let k = known_view known.entry in Gives field_view refusal.Memory
        (aggregate_by table rel f.head k (below_of (context_view context.now) (leads_to k) t f.below)) result }
{
    let to = known.def.ty.base();
    let args = rows_of(Box::into_inner(known.args), field)?;
    ask_totals(alloc, context, to, table, rel, args, field)
}

// A field of the root, or at a row of a table, by what it stands for.
#[cycle(asking)]
fn field_by(
    alloc: Global,
    context: &Context<'_>,
    place: TypeId,
    t: TableId,
    known: KnownField<'_>,
    field: &CollectedField<'_>,
) -> Result<AskField, CoerceRefusal>
    ensures { Gives field_view refusal.Memory (field_of (context_view context.now) place t (parts_seen field.now) (known_view known.entry)) result }
{
    let to = known.def.ty.base();
    match known.def.origin {
        FieldOrigin::Column(col) => Ok(AskField::Column { col }),
        FieldOrigin::TypeName => type_name(alloc, context, place, field),
        FieldOrigin::NoQueries => Ok(AskField::NoQueries),
        FieldOrigin::Object(rel) => {
            let table = context.scope.remote(t, rel);
            ask_object(alloc, context, to, table, rel, field)
        }
        FieldOrigin::List(rel) => {
            let table = context.scope.remote(t, rel);
            ask_list(alloc, context, t, table, Some(rel), known, field)
        }
        FieldOrigin::ListAggregate(rel) => {
            let table = context.scope.remote(t, rel);
            ask_aggregate(alloc, context, t, table, Some(rel), known, field)
        }
        FieldOrigin::Rows(table) => ask_list(alloc, context, t, table, None, known, field),
        FieldOrigin::RowsAggregate(table) => {
            ask_aggregate(alloc, context, t, table, None, known, field)
        }
        FieldOrigin::RowByKey(table) => ask_row(alloc, context, t, table, known, field),
        FieldOrigin::Schema => introspect(alloc, context, to, t, field, None),
        FieldOrigin::Type => introspect_named(alloc, context, t, known, field),
        _ => Err(refused(RuleId::FieldSelections, field)),
    }
}

// A field in the type of a place, of the root or at a row of a table.
#[cycle(asking)]
fn ask_field(
    alloc: Global,
    context: &Context<'_>,
    place: TypeId,
    t: TableId,
    field: &CollectedField<'_>,
) -> Result<AskField, CoerceRefusal>
    ensures { Gives field_view refusal.Memory (field_due (context_view context.now) place t (parts_seen field.now)) result }
{
    let known = known_field_of(alloc, context, place, t, field)?;
    field_by(alloc, context, place, t, known, field)
}

/// The fields in the type of a place, of the root or at a row of a table.
#[cycle(asking)]
pub fn ask_fields(
    alloc: Global,
    context: &Context<'_>,
    place: TypeId,
    t: TableId,
    fields: &CollectedList<'_>,
) -> Result<AskFields, CoerceRefusal>
    ensures { Gives (λ v. fields_of (map keyed_field_view v.items)) refusal.Memory (fields_due (context_view context.now) place t (trees_of (map collected_view fields.now.items))) result }
{
    let mut asks = Vec::new(alloc);
    for field in fields {
        let key = field.key().copy(alloc)?;
        let ask = ask_field(alloc, context, place, t, field)?;
        asks.push(keyed(key, ask))?;
    }
    Ok(asks)
}

// `nodes` of an aggregate.
#[cycle(asking)]
fn ask_nodes(
    alloc: Global,
    context: &Context<'_>,
    to: TypeId,
    t: TableId,
    field: &CollectedField<'_>,
) -> Result<AggPart, CoerceRefusal>
    ensures { Gives part_view refusal.Memory (mapped nodes (fields_due (context_view context.now) to t (parts_seen field.now).below)) result }
{
    let fields = fields_below(alloc, context, to, t, field)?;
    Ok(nodes_part(fields))
}

// A field of an aggregate, by what it stands for.
#[cycle(asking)]
fn part_by(
    alloc: Global,
    context: &Context<'_>,
    place: TypeId,
    t: TableId,
    known: &KnownField<'_>,
    field: &CollectedField<'_>,
) -> Result<AggPart, CoerceRefusal>
    ensures { Gives part_view refusal.Memory (part_of (context_view context.now) place t (parts_seen field.now) (known_view known.now)) result }
{
    let to = known.def.ty.base();
    match known.def.origin {
        FieldOrigin::Aggregates => summary_part(alloc, context, to, t, field),
        FieldOrigin::Nodes => ask_nodes(alloc, context, to, t, field),
        FieldOrigin::TypeName => type_name_part(alloc, context, place, field),
        _ => Err(refused(RuleId::FieldSelections, field)),
    }
}

// A field of an aggregate over rows of a table, in the type of a place.
#[cycle(asking)]
fn ask_part(
    alloc: Global,
    context: &Context<'_>,
    place: TypeId,
    t: TableId,
    field: &CollectedField<'_>,
) -> Result<AggPart, CoerceRefusal>
    ensures { Gives part_view refusal.Memory (part_due (context_view context.now) place t (parts_seen field.now)) result }
{
    let known = known_field_of(alloc, context, place, t, field)?;
    part_by(alloc, context, place, t, &known, field)
}

#[cycle(asking)]
fn ask_parts(
    alloc: Global,
    context: &Context<'_>,
    place: TypeId,
    t: TableId,
    fields: &CollectedList<'_>,
) -> Result<AggParts, CoerceRefusal>
    ensures { Gives (λ v. parts_of (map keyed_part_view v.items)) refusal.Memory (parts_due (context_view context.now) place t (trees_of (map collected_view fields.now.items))) result }
{
    let mut parts = Vec::new(alloc);
    for field in fields {
        let key = field.key().copy(alloc)?;
        let part = ask_part(alloc, context, place, t, field)?;
        parts.push(keyed_part(key, part))?;
    }
    Ok(parts)
}
