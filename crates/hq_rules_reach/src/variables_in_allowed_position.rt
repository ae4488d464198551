//! 5.8.5 All Variable Usages Are Allowed: a use whose variable's type does not go with its place.
ghost use Rattle.std.specs.Prelude.{◌≡◌, map, option_map};
ghost use Rattle.hq_schema.specs.Schema.{schema_view, type_ref_view};
ghost use Rattle.hq_gql_tree.specs.Documents.{var_def_view};
ghost use Rattle.hq_gql_tree.specs.Values.{placed_view};
ghost use Rattle.hq_gql_nodes.specs.Known.{place_view, resolved};
ghost use Rattle.hq_gql_nodes.specs.Least.{at_if, least_of};
ghost use Rattle.hq_rules_reach.specs.Uses.{number_view, uses_at, numbers_view};
ghost use Rattle.hq_rules_reach.specs.Variables.{nullable, are_compatible, has_default, is_allowed, is_wrong_type, numbered_place, wrong_use};

use crate::uses::Use;
use crate::variable_places::variable_at;
use hq_gql_nodes::{ValuePlace, at_if, earlier, is_non_null, is_null, type_at};
use hq_gql_tree::{Placed, VarDef};
use hq_schema::{Schema, TypeRef};

// The type without its outer `!`.
fn nullable(ty: &TypeRef) -> &TypeRef
    ensures { type_ref_view result.now ≡ nullable (type_ref_view ty.now) }
{
    match ty {
        TypeRef::Named(_) | TypeRef::List(_) => ty,
        TypeRef::NonNull(inner) => inner,
    }
}

// Whether a value of the first type may stand where the second one is wanted.
fn are_compatible(ty: &TypeRef, wanted: &TypeRef) -> bool
    ensures { result ≡ are_compatible (type_ref_view ty.now) (type_ref_view wanted.now) }
{
    match ty {
        TypeRef::Named(t) => match wanted {
            TypeRef::Named(w) => t.at() == w.at(),
            TypeRef::List(_) | TypeRef::NonNull(_) => false,
        },
        TypeRef::List(of) => match wanted {
            TypeRef::List(w) => are_compatible(of, w),
            TypeRef::Named(_) | TypeRef::NonNull(_) => false,
        },
        TypeRef::NonNull(of) => match wanted {
            TypeRef::NonNull(w) => are_compatible(of, w),
            TypeRef::Named(_) | TypeRef::List(_) => are_compatible(of, wanted),
        },
    }
}

// Whether there is a default that is not null.
fn has_default(default: &Option<Placed>) -> bool
    ensures { result ≡ has_default (option_map placed_view default.now) }
{
    match default {
        Some(placed) => !is_null(&placed.value),
        None => false,
    }
}

fn is_allowed(ty: &TypeRef, default: bool, place: ValuePlace<'_>) -> bool
    ensures { result ≡ is_allowed (type_ref_view ty.now) default (place_view place.entry) }
{
    if is_non_null(place.ty) && !is_non_null(ty) {
        (default || place.default_false) && are_compatible(ty, nullable(place.ty))
    } else {
        are_compatible(ty, place.ty)
    }
}

fn is_wrong_type(ty: Option<&TypeRef>, default: bool, place: Option<ValuePlace<'_>>) -> bool
    ensures { result ≡ is_wrong_type (option_map (λ r. type_ref_view r.now) ty.entry) default (option_map place_view place.entry) }
{
    match (ty, place) {
        (Some(ty), Some(place)) => !is_allowed(ty, default, place),
        _ => false,
    }
}

// Whether a use of this variable, whose type this is, is of a wrong type.
fn is_wrong_use(var_def: &VarDef, ty: Option<&TypeRef>, found: &Use<'_>) -> bool
    ensures { result ≡ is_wrong_type (option_map (λ r. type_ref_view r.now) ty.entry) (has_default (var_def_view var_def.now).default) (number_view found.now).place }
{
    is_wrong_type(ty, has_default(&var_def.default), found.place)
}

fn wrong_use(
    schema: &Schema,
    vars: &[VarDef],
    types: &[Option<TypeRef>],
    places: &[Option<usize>],
    found: &Use<'_>,
) -> Option<u64>
    requires { map (λ t. option_map type_ref_view t) types.now ≡ map (λ v. resolved (schema_view schema.now) v.ty) (map var_def_view vars.now) }
    ensures { result ≡ wrong_use (schema_view schema.now) (map var_def_view vars.now) (numbered_place places.now) (number_view found.now) }
{
    let Some(at) = variable_at(places, found.number) else {
        return None;
    };
    match vars.get(at) {
        Some(var_def) => at_if(is_wrong_use(var_def, type_at(types, at), found), found.at),
        None => None,
    }
}

#[tactic(auto, using(hq_gql_nodes::proofs::Lesser::earlier_none, hq_gql_nodes::proofs::Lesser::earlier_assoc))]
fn least_wrong(
    schema: &Schema,
    vars: &[VarDef],
    types: &[Option<TypeRef>],
    places: &[Option<usize>],
    uses: &[Use<'_>],
) -> Option<u64>
    requires { map (λ t. option_map type_ref_view t) types.now ≡ map (λ v. resolved (schema_view schema.now) v.ty) (map var_def_view vars.now) }
    ensures { result ≡ least_of (wrong_use (schema_view schema.now) (map var_def_view vars.now) (numbered_place places.now)) (map number_view uses.now) }
{
    let mut least = None;
    for found in uses {
        least = earlier(least, wrong_use(schema, vars, types, places, found));
    }
    least
}

// The same among the uses in the definition at a place.
fn wrong_at(
    schema: &Schema,
    vars: &[VarDef],
    types: &[Option<TypeRef>],
    places: &[Option<usize>],
    all: &[Vec<Use<'_>>],
    at: usize,
) -> Option<u64>
    requires { map (λ t. option_map type_ref_view t) types.now ≡ map (λ v. resolved (schema_view schema.now) v.ty) (map var_def_view vars.now) }
    ensures { result ≡ least_of (wrong_use (schema_view schema.now) (map var_def_view vars.now) (numbered_place places.now)) (uses_at (numbers_view all.now) at) }
{
    match all.get(at) {
        Some(uses) => least_wrong(schema, vars, types, places, uses),
        None => None,
    }
}

/// The least place of a use in these definitions that is of a wrong type; `types` has the types of the variables, and `places`
/// their places by the numbers of their names.
#[tactic(auto, using(hq_gql_nodes::proofs::Lesser::earlier_none, hq_gql_nodes::proofs::Lesser::earlier_assoc))]
pub fn wrong_in(
    schema: &Schema,
    vars: &[VarDef],
    types: &[Option<TypeRef>],
    places: &[Option<usize>],
    all: &[Vec<Use<'_>>],
    definitions: &[usize],
) -> Option<u64>
    requires { map (λ t. option_map type_ref_view t) types.now ≡ map (λ v. resolved (schema_view schema.now) v.ty) (map var_def_view vars.now) }
    ensures { result ≡ least_of (λ j. least_of (wrong_use (schema_view schema.now) (map var_def_view vars.now) (numbered_place places.now)) (uses_at (numbers_view all.now) j)) definitions.now }
{
    let mut least = None;
    for at in definitions {
        least = earlier(least, wrong_at(schema, vars, types, places, all, *at));
    }
    least
}
