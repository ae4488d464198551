ghost use Rattle.std.specs.Prelude.{◌≡◌, false};
ghost use Rattle.hq_base.specs.Text.{has_zero};
ghost use Rattle.hq_request_introspect.specs.TypeKinds.{kind_text, kind_of};

use hq_schema::Kind;

/// What introspection says that a type is.
#[derive(Clone, Copy)]
pub enum TypeKind {
    Scalar,
    Object,
    Enum,
    InputObject,
    List,
    NonNull,
}

impl TypeKind {
    /// The kind of a type of a schema.
    pub fn of(kind: Kind) -> TypeKind
        ensures { result ≡ kind_of kind }
    {
        match kind {
            Kind::Scalar => TypeKind::Scalar,
            Kind::Object => TypeKind::Object,
            Kind::Enum => TypeKind::Enum,
            Kind::Input => TypeKind::InputObject,
        }
    }

    /// How it is written.
    #[tactic(auto, unfolding(crate::specs::TypeKinds::kind_text))]
    pub fn text(self) -> &'static str
        ensures text { result.now ≡ kind_text self }
        ensures clean { has_zero result.now ≡ false }
    {
        match self {
            TypeKind::Scalar => "SCALAR",
            TypeKind::Object => "OBJECT",
            TypeKind::Enum => "ENUM",
            TypeKind::InputObject => "INPUT_OBJECT",
            TypeKind::List => "LIST",
            TypeKind::NonNull => "NON_NULL",
        }
    }
}
