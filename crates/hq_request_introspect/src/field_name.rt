ghost use Rattle.std.specs.Prelude.{◌≡◌, find, bytes_eq};
ghost use Rattle.hq_request_introspect.specs.FieldNames.{field_text, all_fields, field_named};

use hq_base::Txt;

/// The name of a field of introspection: of the root type, or of a type of introspection.
#[derive(Clone, Copy)]
pub enum FieldName {
    Kind,
    Name,
    OfType,
    Type,
    Description,
    DefaultValue,
    Args,
    IsDeprecated,
    DeprecationReason,
    Fields,
    InputFields,
    EnumValues,
    Interfaces,
    PossibleTypes,
    SpecifiedByUrl,
    Typename,
    Types,
    QueryType,
    MutationType,
    SubscriptionType,
    Directives,
    Locations,
    IsRepeatable,
    /// `__schema`.
    WholeSchema,
    /// `__type`.
    TypeByName,
}

impl FieldName {
    // All of them, those that are asked for most often first.
    fn all() -> [FieldName; 25]
        ensures { result ≡ all_fields }
    {
        [
            FieldName::Kind,
            FieldName::Name,
            FieldName::OfType,
            FieldName::Type,
            FieldName::Description,
            FieldName::DefaultValue,
            FieldName::Args,
            FieldName::IsDeprecated,
            FieldName::DeprecationReason,
            FieldName::Fields,
            FieldName::InputFields,
            FieldName::EnumValues,
            FieldName::Interfaces,
            FieldName::PossibleTypes,
            FieldName::SpecifiedByUrl,
            FieldName::Typename,
            FieldName::Types,
            FieldName::QueryType,
            FieldName::MutationType,
            FieldName::SubscriptionType,
            FieldName::Directives,
            FieldName::Locations,
            FieldName::IsRepeatable,
            FieldName::WholeSchema,
            FieldName::TypeByName,
        ]
    }

    // How it is written.
    #[tactic(auto, unfolding(crate::specs::FieldNames::field_text))]
    fn text(self) -> &'static str
        ensures { result.now ≡ field_text self }
    {
        match self {
            FieldName::Kind => "kind",
            FieldName::Name => "name",
            FieldName::OfType => "ofType",
            FieldName::Type => "type",
            FieldName::Description => "description",
            FieldName::DefaultValue => "defaultValue",
            FieldName::Args => "args",
            FieldName::IsDeprecated => "isDeprecated",
            FieldName::DeprecationReason => "deprecationReason",
            FieldName::Fields => "fields",
            FieldName::InputFields => "inputFields",
            FieldName::EnumValues => "enumValues",
            FieldName::Interfaces => "interfaces",
            FieldName::PossibleTypes => "possibleTypes",
            FieldName::SpecifiedByUrl => "specifiedByURL",
            FieldName::Typename => "__typename",
            FieldName::Types => "types",
            FieldName::QueryType => "queryType",
            FieldName::MutationType => "mutationType",
            FieldName::SubscriptionType => "subscriptionType",
            FieldName::Directives => "directives",
            FieldName::Locations => "locations",
            FieldName::IsRepeatable => "isRepeatable",
            FieldName::WholeSchema => "__schema",
            FieldName::TypeByName => "__type",
        }
    }

    /// The field that is written so.
    #[tactic(auto, unfolding(crate::specs::FieldNames::field_named))]
    pub fn of(name: &Txt) -> Option<FieldName>
        ensures { result ≡ field_named name.now }
    {
        first_of(&FieldName::all(), name)
    }
}

// The first of these fields that is written so.
fn first_of(fields: &[FieldName], name: &Txt) -> Option<FieldName>
    ensures { result ≡ find (λ f. bytes_eq (field_text f) name.now) fields.now }
{
    for field in fields {
        if field.text() == name.as_str() {
            return Some(*field);
        }
    }
    None
}
