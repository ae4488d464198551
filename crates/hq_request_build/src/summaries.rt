//! Fields of aggregates.
ghost use Rattle.std.specs.Prelude.{map};
ghost use Rattle.hq_base.specs.Due.{Gives, mapped};
ghost use Rattle.hq_request_arguments.specs.Context.{context_view};
ghost use Rattle.hq_request_arguments.specs.FieldArguments.{field_args_view};
ghost use Rattle.hq_request_build.specs.KnownField.{leads_to, count_of, type_name_due};
ghost use Rattle.hq_request_build.specs.Seen.{known_view};
ghost use Rattle.hq_request_build.specs.Summaries.{one_summary_due, one_taken_due, taken_by, taken_due, summary_by, summaries_due};
ghost use Rattle.hq_request_tree.specs.declared.aggregate.AggField.TheVariants as take;
ghost use Rattle.hq_request_coerce.specs.declared.refusal.CoerceRefusal.TheVariants as refusal;
ghost use Rattle.hq_request_collect.specs.TreeSeen.{collected_view, trees_of, parts_seen};

use crate::known::{KnownField, count_of, known_field_of, refused, type_name_at};
use hq_base::{Aggregate, List};
use hq_gql_tree::RuleId;
use hq_model::TableId;
use hq_request_arguments::{Context, FieldArgs};
use hq_request_coerce::CoerceRefusal;
use hq_request_collect::{CollectedField, CollectedList};
use hq_request_tree::{AggCol, AggCols, AggField, AggFields, KeyedAggCol, KeyedAggField};
use hq_schema::{FieldOrigin, TypeId};
use std::alloc::Global;

// A field of what one aggregate gives, by what it stands for.
fn taken_by(
    alloc: Global,
    context: &Context<'_>,
    place: TypeId,
    origin: FieldOrigin,
    field: &CollectedField<'_>,
) -> Result<AggCol, CoerceRefusal>
    ensures { Gives (λ c. c) refusal.Memory (taken_by (context_view context.now) place (parts_seen field.now).head origin) result }
{
    match origin {
        FieldOrigin::Column(col) => Ok(AggCol::Column { col }),
        FieldOrigin::TypeName => {
            let name = type_name_at(alloc, context.schema, place, field)?;
            Ok(AggCol::Typename { name })
        }
        _ => Err(refused(RuleId::FieldSelections, field)),
    }
}

fn ask_taken(
    alloc: Global,
    context: &Context<'_>,
    place: TypeId,
    t: TableId,
    field: &CollectedField<'_>,
) -> Result<AggCol, CoerceRefusal>
    ensures { Gives (λ c. c) refusal.Memory (one_taken_due (context_view context.now) place t (parts_seen field.now)) result }
{
    let known = known_field_of(alloc, context, place, t, field)?;
    taken_by(alloc, context, place, known.def.origin, field)
}

// The fields of what one aggregate gives, in the type of a place.
fn ask_all_taken(
    alloc: Global,
    context: &Context<'_>,
    place: TypeId,
    t: TableId,
    fields: &CollectedList<'_>,
) -> Result<AggCols, CoerceRefusal>
    ensures { Gives (λ v. v) refusal.Memory (taken_due (context_view context.now) place t (trees_of (map collected_view fields.now.items))) result }
{
    let mut taken = List::new(alloc);
    for field in fields {
        let key = field.key().copy(alloc)?;
        let one = ask_taken(alloc, context, place, t, field)?;
        taken.push(KeyedAggCol { key, field: one })?;
    }
    Ok(taken)
}

// Those below a field of `aggregate`.
fn taken_below(
    alloc: Global,
    context: &Context<'_>,
    place: TypeId,
    t: TableId,
    field: &CollectedField<'_>,
) -> Result<AggCols, CoerceRefusal>
    ensures { Gives (λ v. v) refusal.Memory (taken_due (context_view context.now) place t (parts_seen field.now).below) result }
{
    ask_all_taken(alloc, context, place, t, &field.below)
}

// A `count`.
fn count(args: &FieldArgs, field: &CollectedField<'_>) -> Result<AggField, CoerceRefusal>
    ensures { Gives (λ a. a) refusal.Memory (mapped (λ x. take.Count x.0 x.1) (count_of (parts_seen field.now).head (field_args_view args.now))) result }
{
    let (col, distinct) = count_of(args, field)?;
    Ok(AggField::Count { col, distinct })
}

// The name of the type of a place.
fn type_name(
    alloc: Global,
    context: &Context<'_>,
    place: TypeId,
    field: &CollectedField<'_>,
) -> Result<AggField, CoerceRefusal>
    ensures { let c = context_view context.now in Gives (λ a. a) refusal.Memory (mapped take.Typename (type_name_due c.schema place (parts_seen field.now).head)) result }
{
    let name = type_name_at(alloc, context.schema, place, field)?;
    Ok(AggField::Typename { name })
}

// What one aggregate gives of columns.
fn columns(
    alloc: Global,
    context: &Context<'_>,
    place: TypeId,
    t: TableId,
    aggregate: Aggregate,
    field: &CollectedField<'_>,
) -> Result<AggField, CoerceRefusal>
    ensures { Gives (λ a. a) refusal.Memory (mapped (take.Columns aggregate) (taken_due (context_view context.now) place t (parts_seen field.now).below)) result }
{
    let columns = taken_below(alloc, context, place, t, field)?;
    Ok(AggField::Columns { aggregate, columns })
}

// A field of `aggregate`, by what it stands for and its arguments.
fn summary_by(
    alloc: Global,
    context: &Context<'_>,
    place: TypeId,
    t: TableId,
    known: &KnownField<'_>,
    field: &CollectedField<'_>,
) -> Result<AggField, CoerceRefusal>
    ensures { let c = context_view context.now in let k = known_view known.now in let f = parts_seen field.now in Gives (λ a. a) refusal.Memory
        (summary_by c place f.head k (taken_due c (leads_to k) t f.below) k.0.origin) result }
{
    let to = known.def.ty.base();
    match known.def.origin {
        FieldOrigin::Count => count(&known.args, field),
        FieldOrigin::Aggregated(aggregate) => columns(alloc, context, to, t, aggregate, field),
        FieldOrigin::TypeName => type_name(alloc, context, place, field),
        _ => Err(refused(RuleId::FieldSelections, field)),
    }
}

fn ask_summary(
    alloc: Global,
    context: &Context<'_>,
    place: TypeId,
    t: TableId,
    field: &CollectedField<'_>,
) -> Result<AggField, CoerceRefusal>
    ensures { Gives (λ a. a) refusal.Memory (one_summary_due (context_view context.now) place t (parts_seen field.now)) result }
{
    let known = known_field_of(alloc, context, place, t, field)?;
    summary_by(alloc, context, place, t, &known, field)
}

/// The fields of `aggregate`, in the type of a place.
pub fn ask_summaries(
    alloc: Global,
    context: &Context<'_>,
    place: TypeId,
    t: TableId,
    fields: &CollectedList<'_>,
) -> Result<AggFields, CoerceRefusal>
    ensures { Gives (λ v. v) refusal.Memory (summaries_due (context_view context.now) place t (trees_of (map collected_view fields.now.items))) result }
{
    let mut summaries = List::new(alloc);
    for field in fields {
        let key = field.key().copy(alloc)?;
        let one = ask_summary(alloc, context, place, t, field)?;
        summaries.push(KeyedAggField { key, field: one })?;
    }
    Ok(summaries)
}
