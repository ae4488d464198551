//! Types in shape.
ghost use Rattle.std.specs.Prelude.{◌≡◌};
ghost use Rattle.hq_schema.specs.Schema.{named, schema_view, type_ref_view};
ghost use Rattle.hq_overlap_sets.specs.Shapes.{have_same_shape};

use hq_gql_nodes::object_at;
use hq_schema::{Schema, TypeId, TypeRef};

// Whether two types are alike: the same leaf, or two objects.
fn same_base(schema: &Schema, left: TypeId, right: TypeId) -> bool
    ensures { result ≡ have_same_shape (schema_view schema.now) (named left) (named right) }
{
    match (
        object_at(schema, left).is_some(),
        object_at(schema, right).is_some(),
    ) {
        (true, true) => true,
        (false, false) => left.at() == right.at(),
        (true, false) | (false, true) => false,
    }
}

/// Whether two types are alike in shape.
#[tactic(auto, using(crate::proofs::ShapeLemmas::named_and_list, crate::proofs::ShapeLemmas::list_and_named, crate::proofs::ShapeLemmas::named_and_non_null, crate::proofs::ShapeLemmas::non_null_and_named))]
pub fn same_shape(schema: &Schema, left: &TypeRef, right: &TypeRef) -> bool
    ensures { result ≡ have_same_shape (schema_view schema.now) (type_ref_view left.now) (type_ref_view right.now) }
{
    match left {
        TypeRef::Named(t) => match right {
            TypeRef::Named(u) => same_base(schema, *t, *u),
            TypeRef::List(_) | TypeRef::NonNull(_) => false,
        },
        TypeRef::List(of) => match right {
            TypeRef::List(other) => same_shape(schema, of, other),
            TypeRef::Named(_) | TypeRef::NonNull(_) => false,
        },
        TypeRef::NonNull(of) => match right {
            TypeRef::NonNull(other) => same_shape(schema, of, other),
            TypeRef::Named(_) | TypeRef::List(_) => false,
        },
    }
}
