ghost use Rattle.std.specs.Prelude.{◌≡◌, IfOk, map};
ghost use Rattle.hq_schema.specs.Schema.{field_view};
ghost use Rattle.hq_schema_of_role.specs.Introspection.{introspection_fields};

use crate::rows::{Shape, row_fields};
use hq_base::Memory;
use hq_schema::{FieldDef, Fixed};
use std::alloc::Global;

/// The fields of a type of introspection, none of another type.
#[tactic(auto, unfolding(crate::specs::Introspection::introspection_fields))]
pub fn introspection_fields(alloc: Global, of: Fixed) -> Result<Vec<FieldDef>, Memory>
    ensures { IfOk result (λ fields. map field_view fields.items ≡ introspection_fields of) }
{
    match of {
        Fixed::Schema => row_fields(
            alloc,
            &[
                ("description", Shape::One, Fixed::STRING),
                ("types", Shape::AllItems, Fixed::Type),
                ("queryType", Shape::Required, Fixed::Type),
                ("mutationType", Shape::One, Fixed::Type),
                ("subscriptionType", Shape::One, Fixed::Type),
                ("directives", Shape::AllItems, Fixed::Directive),
            ],
        ),
        Fixed::Type => row_fields(
            alloc,
            &[
                ("kind", Shape::Required, Fixed::TypeKind),
                ("name", Shape::One, Fixed::STRING),
                ("description", Shape::One, Fixed::STRING),
                ("specifiedByURL", Shape::One, Fixed::STRING),
                ("fields", Shape::Deprecable, Fixed::Field),
                ("interfaces", Shape::Items, Fixed::Type),
                ("possibleTypes", Shape::Items, Fixed::Type),
                ("enumValues", Shape::Deprecable, Fixed::EnumValue),
                ("inputFields", Shape::Items, Fixed::InputValue),
                ("ofType", Shape::One, Fixed::Type),
            ],
        ),
        Fixed::Field => row_fields(
            alloc,
            &[
                ("name", Shape::Required, Fixed::STRING),
                ("description", Shape::One, Fixed::STRING),
                ("args", Shape::AllItems, Fixed::InputValue),
                ("type", Shape::Required, Fixed::Type),
                ("isDeprecated", Shape::Required, Fixed::BOOLEAN),
                ("deprecationReason", Shape::One, Fixed::STRING),
            ],
        ),
        Fixed::InputValue => row_fields(
            alloc,
            &[
                ("name", Shape::Required, Fixed::STRING),
                ("description", Shape::One, Fixed::STRING),
                ("type", Shape::Required, Fixed::Type),
                ("defaultValue", Shape::One, Fixed::STRING),
            ],
        ),
        Fixed::EnumValue => row_fields(
            alloc,
            &[
                ("name", Shape::Required, Fixed::STRING),
                ("description", Shape::One, Fixed::STRING),
                ("isDeprecated", Shape::Required, Fixed::BOOLEAN),
                ("deprecationReason", Shape::One, Fixed::STRING),
            ],
        ),
        Fixed::Directive => row_fields(
            alloc,
            &[
                ("name", Shape::Required, Fixed::STRING),
                ("description", Shape::One, Fixed::STRING),
                ("isRepeatable", Shape::Required, Fixed::BOOLEAN),
                ("locations", Shape::AllItems, Fixed::DirectiveLocation),
                ("args", Shape::AllItems, Fixed::InputValue),
            ],
        ),
        _ => Ok(Vec::new(alloc)),
    }
}
