ghost use Rattle.std.specs.Prelude.{◌≡◌};
ghost use Rattle.hq_schema.specs.Schema.{type_ref_view, base};

use crate::TypeId;

/// A reference to a type (GraphQL October 2021, 3.4.1, 3.11, 3.12): a type by its place, or a list or a non-null form of
/// another reference.
#[derive(Drop)]
pub enum TypeRef {
    Named(TypeId),
    List(Box<TypeRef>),
    NonNull(Box<TypeRef>),
}

impl TypeRef {
    /// The type inside all lists and non-null forms.
    pub fn base(&self) -> TypeId
        ensures { result ≡ base (type_ref_view self.now) }
    {
        match self {
            TypeRef::Named(t) => *t,
            TypeRef::List(inner) => inner.base(),
            TypeRef::NonNull(inner) => inner.base(),
        }
    }
}
