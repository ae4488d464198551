use hq_base::Txt;

/// A field of introspection (GraphQL October 2021, section 4): its name, the argument `name` of `__type`, the argument
/// `includeDeprecated`, and its own fields.
#[derive(Drop)]
#[cycle(introspection)]
pub struct IntroField {
    pub name: Txt,
    pub type_name: Option<Txt>,
    pub deprecated: bool,
    pub fields: IntroFields,
}

/// A field of introspection under its response key.
#[derive(Drop)]
#[cycle(introspection)]
pub struct KeyedIntroField {
    pub key: Txt,
    pub field: IntroField,
}

/// Fields of introspection, in collected order.
pub type IntroFields = Vec<KeyedIntroField>;
