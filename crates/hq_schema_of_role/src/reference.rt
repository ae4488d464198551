ghost use Rattle.std.specs.Prelude.{◌≡◌, IfOk};
ghost use Rattle.hq_schema.specs.Schema.{non_null, type_ref_view};
ghost use Rattle.hq_schema_of_role.specs.References.{fixed, items, all_items, part};

use hq_base::Memory;
use hq_schema::{Fixed, Part, TypeRef};
use std::alloc::Global;

/// A type that each schema has.
pub fn fixed(t: Fixed) -> TypeRef
    ensures { type_ref_view result ≡ fixed t }
{
    TypeRef::Named(t.place())
}

/// A type of the table whose types begin at a place.
pub fn part(first: u32, p: Part) -> TypeRef
    ensures { type_ref_view result ≡ part first p }
{
    TypeRef::Named(p.place(first))
}

/// `R!`
pub fn non_null(alloc: Global, r: TypeRef) -> Result<TypeRef, Memory>
    ensures { IfOk result (λ all. type_ref_view all ≡ non_null (type_ref_view r)) }
{
    Ok(TypeRef::NonNull(Box::new(alloc, r)?))
}

/// `[R!]`
pub fn items(alloc: Global, r: TypeRef) -> Result<TypeRef, Memory>
    ensures { IfOk result (λ all. type_ref_view all ≡ items (type_ref_view r)) }
{
    Ok(TypeRef::List(Box::new(alloc, non_null(alloc, r)?)?))
}

/// `[R!]!`
pub fn all_items(alloc: Global, r: TypeRef) -> Result<TypeRef, Memory>
    ensures { IfOk result (λ all. type_ref_view all ≡ all_items (type_ref_view r)) }
{
    non_null(alloc, items(alloc, r)?)
}
