//! What a collected field stands for, and its arguments.
ghost use Rattle.std.specs.Prelude.{◌≡◌, Some, option_map};
ghost use Rattle.hq_gql_nodes.specs.Known.{known_field};
ghost use Rattle.hq_base.specs.Due.{Gives};
ghost use Rattle.hq_request_arguments.specs.Context.{context_view};
ghost use Rattle.hq_request_arguments.specs.Due.{arguments_due};
ghost use Rattle.hq_request_arguments.specs.FieldArguments.{field_args_view};
ghost use Rattle.hq_request_build.specs.KnownField.{is_complete, known_of, known_due, type_name_due, rows_of, key_of, count_of, type_name_of, deprecated_of, fault_at};
ghost use Rattle.hq_request_build.specs.Seen.{known_view};
ghost use Rattle.hq_request_tree.specs.Arguments.{arguments_view};
ghost use Rattle.hq_request_coerce.specs.declared.refusal.CoerceRefusal.TheVariants as refusal;
ghost use Rattle.hq_request_collect.specs.Tree.{is_empty};
ghost use Rattle.hq_request_collect.specs.TreeSeen.{parts_seen};
ghost use Rattle.hq_gql_tree.specs.Selections.{field_view as field_seen};
ghost use Rattle.hq_schema.specs.Schema.{field_view, schema_view};

use hq_base::Txt;
use hq_gql_nodes::{known_field, object_at};
use hq_gql_tree::{Field, RuleId};
use hq_model::{ColId, TableId};
use hq_request_arguments::{Context, FieldArgs, coerce_args};
use hq_request_coerce::{CoerceRefusal, fault_of};
use hq_request_collect::CollectedField;
use hq_request_tree::{Args, ValList};
use hq_schema::{FieldDef, Schema, TypeId};
use std::alloc::Global;

/// The definition of a field in a schema, and its coerced arguments, which lie in a box, so that they are let go in one step.
#[derive(Drop)]
pub struct KnownField<'a> {
    pub def: &'a FieldDef,
    pub args: Box<FieldArgs>,
}

fn place_of(field: &Field) -> u64
    ensures { result ≡ (field_seen field.now).0.at }
{
    field.at
}

/// The fault of a rule at a collected field.
pub fn refused(rule: RuleId, field: &CollectedField<'_>) -> CoerceRefusal
    ensures { result ≡ fault_at rule (parts_seen field.now).head }
{
    CoerceRefusal::Fault(fault_of(rule, Some(place_of(field.first()))))
}

// Whether fields are collected below a field only where its type has fields.
fn is_complete(schema: &Schema, def: &FieldDef, empty: bool) -> bool
    ensures { result ≡ is_complete (schema_view schema.now) (field_view def.now) empty }
{
    empty || object_at(schema, def.ty.base()).is_some()
}

fn name_of(field: &Field) -> &Txt
    ensures { result.now ≡ (field_seen field.now).0.name }
{
    &field.name
}

// The coerced arguments of a collected field of this definition.
fn arguments_of(
    alloc: Global,
    context: &Context<'_>,
    t: TableId,
    def: &FieldDef,
    field: &CollectedField<'_>,
) -> Result<FieldArgs, CoerceRefusal>
    ensures { Gives field_args_view refusal.Memory (arguments_due (context_view context.now) t (field_view def.now) (parts_seen field.now).head) result }
{
    coerce_args(alloc, context, t, def, field.first())
}

// A field of this definition, with its coerced arguments.
fn known_of<'a>(
    alloc: Global,
    context: &Context<'_>,
    t: TableId,
    def: &'a FieldDef,
    field: &CollectedField<'_>,
) -> Result<KnownField<'a>, CoerceRefusal>
    ensures { let f = parts_seen field.now in Gives known_view refusal.Memory (known_of (context_view context.now) t f.head (is_empty f.below) (Some (field_view def.now))) result }
{
    if !is_complete(context.schema, def, field.is_leaf()) {
        return Err(refused(RuleId::LeafFieldSelections, field));
    }
    let args = arguments_of(alloc, context, t, def, field)?;
    Ok(KnownField {
        def,
        args: Box::new(alloc, args)?,
    })
}

// The definition of a collected field in the object type of a place.
fn definition_of<'a>(
    schema: &'a Schema,
    place: TypeId,
    field: &CollectedField<'_>,
) -> Option<&'a FieldDef>
    ensures { option_map (λ f. field_view f.now) result ≡ known_field (schema_view schema.now) (Some place) (parts_seen field.now).head.name }
{
    known_field(schema, Some(place.at()), name_of(field.first()))
}

/// A collected field in the object type of a place, at a row of a table.
pub fn known_field_of<'a>(
    alloc: Global,
    context: &Context<'a>,
    place: TypeId,
    t: TableId,
    field: &CollectedField<'_>,
) -> Result<KnownField<'a>, CoerceRefusal>
    ensures { let f = parts_seen field.now in Gives known_view refusal.Memory (known_due (context_view context.now) place t f.head (is_empty f.below)) result }
{
    match definition_of(context.schema, place, field) {
        Some(def) => known_of(alloc, context, t, def, field),
        None => Err(refused(RuleId::FieldSelections, field)),
    }
}

/// The name of the type of a place.
pub fn type_name_at(
    alloc: Global,
    schema: &Schema,
    place: TypeId,
    field: &CollectedField<'_>,
) -> Result<Txt, CoerceRefusal>
    ensures { Gives (λ name. name) refusal.Memory (type_name_due (schema_view schema.now) place (parts_seen field.now).head) result }
{
    match schema.type_at(place) {
        Some(def) => Ok(def.name.copy(alloc)?),
        None => Err(refused(RuleId::FieldSelections, field)),
    }
}

/// The arguments of a list.
pub fn rows_of(args: FieldArgs, field: &CollectedField<'_>) -> Result<Box<Args>, CoerceRefusal>
    ensures { Gives (λ a. arguments_view a.value) refusal.Memory (rows_of (parts_seen field.now).head (field_args_view args)) result }
{
    match args {
        FieldArgs::Rows(args) => Ok(args),
        _ => Err(refused(RuleId::ArgumentNames, field)),
    }
}

/// The values of a key.
pub fn key_of(args: FieldArgs, field: &CollectedField<'_>) -> Result<ValList, CoerceRefusal>
    ensures { Gives (λ vs. vs) refusal.Memory (key_of (parts_seen field.now).head (field_args_view args)) result }
{
    match args {
        FieldArgs::Key(key) => Ok(key),
        _ => Err(refused(RuleId::ArgumentNames, field)),
    }
}

/// What is counted.
pub fn count_of(
    args: &FieldArgs,
    field: &CollectedField<'_>,
) -> Result<(Option<ColId>, bool), CoerceRefusal>
    ensures { Gives (λ x. x) refusal.Memory (count_of (parts_seen field.now).head (field_args_view args.now)) result }
{
    match args {
        FieldArgs::Count { col, distinct } => Ok((*col, *distinct)),
        _ => Err(refused(RuleId::ArgumentNames, field)),
    }
}

/// The name of a type.
pub fn type_name_of(args: FieldArgs, field: &CollectedField<'_>) -> Result<Txt, CoerceRefusal>
    ensures { Gives (λ n. n) refusal.Memory (type_name_of (parts_seen field.now).head (field_args_view args)) result }
{
    match args {
        FieldArgs::TypeName(name) => Ok(name),
        _ => Err(refused(RuleId::ArgumentNames, field)),
    }
}

/// Whether deprecated things are asked for.
pub fn deprecated_of(args: &FieldArgs) -> bool
    ensures { result ≡ deprecated_of (field_args_view args.now) }
{
    match args {
        FieldArgs::Deprecated(deprecated) => *deprecated,
        _ => false,
    }
}
