//! Places of values.
ghost use Rattle.std.specs.Prelude.{◌≡◌, map, option_map};
ghost use Rattle.hq_schema.specs.Schema.{arg_view, schema_view, type_ref_view};
ghost use Rattle.hq_gql_nodes.specs.Known.{place_view, place_of_arg, element_place, input_of, member_place, arg_place, default_place};

use crate::known::{element_type, input_at, is_input_type};
use hq_base::Txt;
use hq_schema::{ArgDef, ArgDefList, Schema, TypeId, TypeRef, arg_named};

/// The place of a value: its type, and whether it has the default `false`.
#[derive(Clone, Copy)]
pub struct ValuePlace<'a> {
    pub ty: &'a TypeRef,
    pub default_false: bool,
}

fn place_of_arg(arg: &ArgDef) -> ValuePlace<'_>
    ensures { place_view result ≡ place_of_arg (arg_view arg.now) }
{
    ValuePlace {
        ty: &arg.ty,
        default_false: arg.default_false,
    }
}

/// The place of the elements of a list.
pub fn element_place(place: Option<ValuePlace<'_>>) -> Option<ValuePlace<'_>>
    ensures { option_map place_view result ≡ element_place (option_map place_view place.entry) }
{
    match place {
        Some(place) => match element_type(place.ty) {
            Some(ty) => Some(ValuePlace {
                ty,
                default_false: false,
            }),
            None => None,
        },
        None => None,
    }
}

/// The input object whose members stand at a place.
pub fn input_of(schema: &Schema, place: Option<ValuePlace<'_>>) -> Option<usize>
    ensures { result ≡ input_of (schema_view schema.now) (option_map place_view place.entry) }
{
    match place {
        Some(place) => input_at(schema, place.ty.base()),
        None => None,
    }
}

/// The place of a member of an input object.
pub fn member_place<'a>(
    schema: &'a Schema,
    input: Option<usize>,
    name: &Txt,
) -> Option<ValuePlace<'a>>
    ensures { option_map place_view result ≡ member_place (schema_view schema.now) input name.now }
{
    let Some(input) = input else {
        return None;
    };
    match schema.input_field(TypeId::new(input), name) {
        Some(arg) => Some(place_of_arg(arg)),
        None => None,
    }
}

/// The place of an argument among those that are known.
pub fn arg_place<'a>(args: Option<&'a ArgDefList>, name: &Txt) -> Option<ValuePlace<'a>>
    ensures { option_map place_view result ≡ arg_place (option_map (λ defs. map arg_view defs.now) args.entry) name.now }
{
    let Some(args) = args else {
        return None;
    };
    match arg_named(args, name) {
        Some(arg) => Some(place_of_arg(arg)),
        None => None,
    }
}

/// The place of a variable's default, by the variable's type.
pub fn default_place<'a>(schema: &Schema, ty: Option<&'a TypeRef>) -> Option<ValuePlace<'a>>
    ensures { option_map place_view result ≡ default_place (schema_view schema.now) (option_map (λ r. type_ref_view r.now) ty.entry) }
{
    match ty {
        Some(ty) if is_input_type(schema, ty) => Some(ValuePlace {
            ty,
            default_false: false,
        }),
        _ => None,
    }
}
