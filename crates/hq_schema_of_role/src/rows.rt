ghost use Rattle.std.specs.Prelude.{◌≡◌, IfOk, map, true};
ghost use Rattle.std.specs.List.{list_all};
ghost use Rattle.hq_schema.specs.Schema.{named, type_ref_view, arg_view, field_view};
ghost use Rattle.hq_schema_of_role.specs.Rows.{wrapped, row_arg, clean_arg, shape_args, include_deprecated, row_field, clean_row};

use crate::reference::{all_items, fixed, items, non_null};
use crate::text::text;
use hq_base::Memory;
use hq_schema::{
    ArgDef, ArgDefList, ArgOrigin, FieldDef, FieldOrigin, Fixed, NamedList, TypeId, TypeRef,
};
use std::alloc::Global;

/// How a reference wraps its type: `R`, `R!`, `[R!]` or `[R!]!`; and `[R!]` of what may be deprecated.
#[derive(Clone, Copy)]
pub enum Shape {
    One,
    Required,
    Items,
    AllItems,
    Deprecable,
}

/// The name of a field, and what type it has.
pub type Row<'a> = (&'a str, Shape, Fixed);

/// An argument or an input field without a default: its name, how its type is wrapped, the place of that type, and what it stands for.
pub type ArgRow<'a> = (&'a str, Shape, TypeId, ArgOrigin);

fn wrapped(alloc: Global, shape: Shape, at: TypeId) -> Result<TypeRef, Memory>
    ensures { IfOk result (λ r. type_ref_view r ≡ wrapped shape (named at)) }
{
    let inner = TypeRef::Named(at);
    match shape {
        Shape::One => Ok(inner),
        Shape::Required => non_null(alloc, inner),
        Shape::Items | Shape::Deprecable => items(alloc, inner),
        Shape::AllItems => all_items(alloc, inner),
    }
}

/// An argument or an input field without a default.
pub fn row_arg(alloc: Global, row: &ArgRow) -> Result<ArgDef, Memory>
    requires { clean_arg row.now ≡ true }
    ensures { IfOk result (λ a. arg_view a ≡ row_arg row.now) }
{
    Ok(ArgDef {
        name: text(alloc, row.0)?,
        ty: wrapped(alloc, row.1, row.2)?,
        default_false: false,
        origin: row.3,
    })
}

/// All of these.
pub fn row_args(alloc: Global, rows: &[ArgRow]) -> Result<Vec<ArgDef>, Memory>
    requires { list_all clean_arg rows.now ≡ true }
    ensures { IfOk result (λ args. map arg_view args.items ≡ map row_arg rows.now) }
{
    let mut args = Vec::new(alloc);
    for row in rows {
        args.push(row_arg(alloc, row)?)?;
    }
    Ok(args)
}

fn include_deprecated(alloc: Global) -> Result<ArgDef, Memory>
    ensures { IfOk result (λ a. arg_view a ≡ include_deprecated) }
{
    Ok(ArgDef {
        name: text(alloc, "includeDeprecated")?,
        ty: fixed(Fixed::BOOLEAN),
        default_false: true,
        origin: ArgOrigin::IncludeDeprecated,
    })
}

fn shape_args(alloc: Global, shape: Shape) -> Result<ArgDefList, Memory>
    ensures { IfOk result (λ args. map arg_view args ≡ shape_args shape) }
{
    match shape {
        Shape::Deprecable => NamedList::new(alloc, vec![in alloc; include_deprecated(alloc)?]?),
        _ => Ok(NamedList::empty(alloc)),
    }
}

fn row_field(alloc: Global, row: Row) -> Result<FieldDef, Memory>
    requires { clean_row row ≡ true }
    ensures { IfOk result (λ f. field_view f ≡ row_field row.entry) }
{
    let (name, shape, of) = row;
    Ok(FieldDef {
        name: text(alloc, name)?,
        args: shape_args(alloc, shape)?,
        ty: wrapped(alloc, shape, of.place())?,
        origin: FieldOrigin::Introspection,
    })
}

/// The fields of a type of introspection.
pub fn row_fields(alloc: Global, rows: &[Row]) -> Result<Vec<FieldDef>, Memory>
    requires { list_all clean_row rows.now ≡ true }
    ensures { IfOk result (λ fields. map field_view fields.items ≡ map row_field rows.now) }
{
    let mut fields = Vec::new(alloc);
    for row in rows {
        fields.push(row_field(alloc, *row)?)?;
    }
    Ok(fields)
}
