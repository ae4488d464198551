ghost use Rattle.std.specs.Prelude.{◌≡◌, IfOk, map};
ghost use Rattle.hq_schema.specs.Schema.{arg_view, field_view, type_view};
ghost use Rattle.hq_schema_of_role.specs.FixedTypes.{fixed_values, fixed_inputs, fixed_fields, fixed_type, fixed_types};

use crate::introspection::introspection_fields;
use crate::operators::operator_inputs;
use crate::root::query_fields;
use crate::shown::PlacedTableList;
use crate::text::{text, texts};
use hq_base::{List, Memory};
use hq_schema::{ArgDefList, FieldDefList, Fixed, NamedList, TxtList, TypeDef};
use std::alloc::Global;

#[tactic(auto, unfolding(crate::specs::FixedTypes::fixed_values))]
fn fixed_values(alloc: Global, of: Fixed) -> Result<TxtList, Memory>
    ensures { IfOk result (λ values. values ≡ fixed_values of) }
{
    let values = match of {
        Fixed::OrderBy => texts(
            alloc,
            &[
                "asc",
                "asc_nulls_first",
                "asc_nulls_last",
                "desc",
                "desc_nulls_first",
                "desc_nulls_last",
            ],
        ),
        Fixed::TypeKind => texts(
            alloc,
            &[
                "ENUM",
                "INPUT_OBJECT",
                "INTERFACE",
                "LIST",
                "NON_NULL",
                "OBJECT",
                "SCALAR",
                "UNION",
            ],
        ),
        Fixed::DirectiveLocation => texts(
            alloc,
            &[
                "ARGUMENT_DEFINITION",
                "ENUM",
                "ENUM_VALUE",
                "FIELD",
                "FIELD_DEFINITION",
                "FRAGMENT_DEFINITION",
                "FRAGMENT_SPREAD",
                "INLINE_FRAGMENT",
                "INPUT_FIELD_DEFINITION",
                "INPUT_OBJECT",
                "INTERFACE",
                "MUTATION",
                "OBJECT",
                "QUERY",
                "SCALAR",
                "SCHEMA",
                "SUBSCRIPTION",
                "UNION",
                "VARIABLE_DEFINITION",
            ],
        ),
        _ => return Ok(NamedList::empty(alloc)),
    }?;
    NamedList::new(alloc, values)
}

fn fixed_inputs(alloc: Global, of: Fixed) -> Result<ArgDefList, Memory>
    ensures { IfOk result (λ inputs. map arg_view inputs ≡ fixed_inputs of) }
{
    let inputs = match of {
        Fixed::Comparison(ty) => operator_inputs(alloc, ty),
        _ => return Ok(NamedList::empty(alloc)),
    }?;
    NamedList::new(alloc, inputs)
}

fn fixed_fields(alloc: Global, tables: &PlacedTableList, of: Fixed) -> Result<FieldDefList, Memory>
    ensures { IfOk result (λ fields. map field_view fields ≡ fixed_fields tables.now of) }
{
    let fields = match of {
        Fixed::QueryRoot => query_fields(alloc, tables),
        _ => introspection_fields(alloc, of),
    }?;
    NamedList::new(alloc, fields)
}

#[tactic(auto, unfolding(crate::specs::FixedTypes::fixed_type))]
fn fixed_type(alloc: Global, tables: &PlacedTableList, of: Fixed) -> Result<TypeDef, Memory>
    ensures { IfOk result (λ t. type_view t ≡ fixed_type tables.now of) }
{
    Ok(TypeDef {
        name: text(alloc, of.name())?,
        kind: of.kind(),
        fields: fixed_fields(alloc, tables, of)?,
        inputs: fixed_inputs(alloc, of)?,
        values: fixed_values(alloc, of)?,
        columns: List::new(alloc),
        origin: of.origin(),
    })
}

fn types_of(alloc: Global, tables: &PlacedTableList, all: &[Fixed]) -> Result<Vec<TypeDef>, Memory>
    ensures { IfOk result (λ types. map type_view types.items ≡ map (fixed_type tables.now) all.now) }
{
    let mut types = Vec::new(alloc);
    for of in all {
        types.push(fixed_type(alloc, tables, *of)?)?;
    }
    Ok(types)
}

/// The types that each schema has, where a role may see these tables.
pub fn fixed_types(alloc: Global, tables: &PlacedTableList) -> Result<Vec<TypeDef>, Memory>
    ensures { IfOk result (λ types. map type_view types.items ≡ fixed_types tables.now) }
{
    types_of(alloc, tables, &Fixed::all())
}
