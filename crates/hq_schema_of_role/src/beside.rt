ghost use Rattle.std.specs.Prelude.{◌≡◌, ◌∷◌, [], IfOk, map};
ghost use Rattle.hq_schema.specs.Schema.{arg_view, field_view};
ghost use Rattle.hq_schema_of_role.specs.Root.{type_name_field, schema_field, type_field, condition};

use crate::member::plain_field;
use crate::reference::{fixed, non_null};
use crate::rows::{Shape, row_args};
use crate::text::text;
use hq_base::Memory;
use hq_schema::{ArgDefList, ArgOrigin, FieldDef, FieldDefList, FieldOrigin, Fixed, NamedList};
use std::alloc::Global;

/// `__typename`.
pub fn type_name_field(alloc: Global) -> Result<FieldDef, Memory>
    ensures { IfOk result (λ f. field_view f ≡ type_name_field) }
{
    let ty = non_null(alloc, fixed(Fixed::STRING))?;
    plain_field(alloc, "__typename", ty, FieldOrigin::TypeName)
}

fn schema_field(alloc: Global) -> Result<FieldDef, Memory>
    ensures { IfOk result (λ f. field_view f ≡ schema_field) }
{
    let ty = non_null(alloc, fixed(Fixed::Schema))?;
    plain_field(alloc, "__schema", ty, FieldOrigin::Schema)
}

fn type_field(alloc: Global) -> Result<FieldDef, Memory>
    ensures { IfOk result (λ f. field_view f ≡ type_field) }
{
    let text_type = Fixed::STRING.place();
    let rows = [("name", Shape::Required, text_type, ArgOrigin::TypeName)];
    Ok(FieldDef {
        name: text(alloc, "__type")?,
        args: NamedList::new(alloc, row_args(alloc, &rows)?)?,
        ty: fixed(Fixed::Type),
        origin: FieldOrigin::Type,
    })
}

/// `__schema` and `__type`.
pub fn introspection(alloc: Global) -> Result<FieldDefList, Memory>
    ensures { IfOk result (λ fields. map field_view fields ≡ schema_field ∷ type_field ∷ []) }
{
    let mut fields = Vec::new(alloc);
    fields.push(schema_field(alloc)?)?;
    fields.push(type_field(alloc)?)?;
    NamedList::new(alloc, fields)
}

/// `if`.
pub fn conditions(alloc: Global) -> Result<ArgDefList, Memory>
    ensures { IfOk result (λ args. map arg_view args ≡ condition ∷ []) }
{
    let flag = Fixed::BOOLEAN.place();
    let rows = [("if", Shape::Required, flag, ArgOrigin::Condition)];
    NamedList::new(alloc, row_args(alloc, &rows)?)
}
