ghost use Rattle.std.specs.Prelude.{◌≡◌, IfOk, false};
ghost use Rattle.hq_base.specs.Text.{has_zero};
ghost use Rattle.hq_schema.specs.Schema.{type_ref_view, arg_view, field_view};
ghost use Rattle.hq_schema_of_role.specs.References.{arg, plain_field};

use crate::text::text;
use hq_base::{Memory, Txt};
use hq_schema::{ArgDef, ArgOrigin, FieldDef, FieldOrigin, NamedList, TypeRef};
use std::alloc::Global;

/// An argument, under the name of a column or a relationship.
pub fn arg_of(alloc: Global, name: &Txt, ty: TypeRef, origin: ArgOrigin) -> Result<ArgDef, Memory>
    ensures { IfOk result (λ a. arg_view a ≡ arg name.now (type_ref_view ty) origin) }
{
    Ok(ArgDef {
        name: name.copy(alloc)?,
        ty,
        default_false: false,
        origin,
    })
}

/// A field without arguments.
pub fn plain_field(
    alloc: Global,
    name: &str,
    ty: TypeRef,
    origin: FieldOrigin,
) -> Result<FieldDef, Memory>
    requires { has_zero name.now ≡ false }
    ensures { IfOk result (λ f. field_view f ≡ plain_field name.now (type_ref_view ty) origin) }
{
    Ok(FieldDef {
        name: text(alloc, name)?,
        args: NamedList::empty(alloc),
        ty,
        origin,
    })
}

/// The same, under the name of a column or a relationship.
pub fn plain_field_of(
    alloc: Global,
    name: &Txt,
    ty: TypeRef,
    origin: FieldOrigin,
) -> Result<FieldDef, Memory>
    ensures { IfOk result (λ f. field_view f ≡ plain_field name.now (type_ref_view ty) origin) }
{
    Ok(FieldDef {
        name: name.copy(alloc)?,
        args: NamedList::empty(alloc),
        ty,
        origin,
    })
}
