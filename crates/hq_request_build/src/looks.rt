//! Fields of introspection.
ghost use Rattle.std.specs.Prelude.{◌≡◌, map, IfOk, Option, Ok};
ghost use Rattle.hq_base.specs.Due.{Gives};
ghost use Rattle.hq_request_arguments.specs.Context.{context_view};
ghost use Rattle.hq_request_build.specs.KnownField.{deprecated_of};
ghost use Rattle.hq_request_build.specs.Looks.{flag_by, look_due, looks_due};
ghost use Rattle.hq_request_build.specs.Seen.{known_view};
ghost use Rattle.hq_request_tree.specs.Introspection.{look, looks_of, introspection_view, keyed_introspection_view};
ghost use Rattle.hq_request_coerce.specs.declared.refusal.CoerceRefusal.TheVariants as refusal;
ghost use Rattle.hq_request_collect.specs.TreeSeen.{collected_view, trees_of, parts_seen};
ghost use Rattle.hq_gql_tree.specs.Selections.{field_view as field_seen};

use crate::known::{KnownField, deprecated_of, known_field_of, refused};
use hq_base::{Memory, Txt};
use hq_gql_tree::{Field, RuleId};
use hq_model::TableId;
use hq_request_arguments::Context;
use hq_request_coerce::CoerceRefusal;
use hq_request_collect::{CollectedField, CollectedList};
use hq_request_tree::{IntroField, IntroFields, KeyedIntroField};
use hq_schema::{FieldOrigin, TypeId};
use std::alloc::Global;

// The name of a field.
fn name_of(alloc: Global, field: &Field) -> Result<Txt, Memory>
    ensures { IfOk result (λ name. name ≡ (field_seen field.now).0.name) }
{
    field.name.copy(alloc)
}

// A field of introspection.
fn intro_field(
    name: Txt,
    type_name: Option<Txt>,
    deprecated: bool,
    fields: IntroFields,
) -> IntroField
    ensures { introspection_view result ≡ look name type_name deprecated (looks_of (map keyed_introspection_view fields.items)) }
{
    IntroField {
        name,
        type_name,
        deprecated,
        fields,
    }
}

/// A field of introspection of the name of a collected field.
pub fn look_of(
    alloc: Global,
    field: &CollectedField<'_>,
    type_name: Option<Txt>,
    deprecated: bool,
    fields: IntroFields,
) -> Result<IntroField, CoerceRefusal>
    ensures { Gives introspection_view refusal.Memory (Ok (look (parts_seen field.now).head.name type_name deprecated (looks_of (map keyed_introspection_view fields.items)))) result }
{
    let name = name_of(alloc, field.first())?;
    Ok(intro_field(name, type_name, deprecated, fields))
}

fn keyed(key: Txt, field: IntroField) -> KeyedIntroField
    ensures { keyed_introspection_view result ≡ (key, introspection_view field) }
{
    KeyedIntroField { key, field }
}

// Whether a field of a type of introspection asks for deprecated things.
fn flag_of(known: KnownField<'_>, field: &CollectedField<'_>) -> Result<bool, CoerceRefusal>
    ensures { let k = known_view known.entry in Gives (λ b. b) refusal.Memory (flag_by (parts_seen field.now).head k k.0.origin) result }
{
    match known.def.origin {
        FieldOrigin::Introspection => Ok(deprecated_of(&known.args)),
        FieldOrigin::TypeName => Ok(false),
        _ => Err(refused(RuleId::FieldSelections, field)),
    }
}

#[cycle(looks)]
fn ask_look(
    alloc: Global,
    context: &Context<'_>,
    place: TypeId,
    t: TableId,
    field: &CollectedField<'_>,
) -> Result<IntroField, CoerceRefusal>
    ensures { Gives introspection_view refusal.Memory (look_due (context_view context.now) place t (parts_seen field.now)) result }
{
    let known = known_field_of(alloc, context, place, t, field)?;
    let to = known.def.ty.base();
    let deprecated = flag_of(known, field)?;
    let fields = ask_looks(alloc, context, to, t, &field.below)?;
    look_of(alloc, field, None, deprecated, fields)
}

/// The fields of introspection that collected fields ask for in the type of a place.
#[cycle(looks)]
pub fn ask_looks(
    alloc: Global,
    context: &Context<'_>,
    place: TypeId,
    t: TableId,
    fields: &CollectedList<'_>,
) -> Result<IntroFields, CoerceRefusal>
    ensures { Gives (λ v. looks_of (map keyed_introspection_view v.items)) refusal.Memory (looks_due (context_view context.now) place t (trees_of (map collected_view fields.now.items))) result }
{
    let mut looks = Vec::new(alloc);
    for field in fields {
        let key = field.key().copy(alloc)?;
        let look = ask_look(alloc, context, place, t, field)?;
        looks.push(keyed(key, look))?;
    }
    Ok(looks)
}
