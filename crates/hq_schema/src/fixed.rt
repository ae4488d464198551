ghost use Rattle.std.specs.Prelude.{◌≡◌, false};
ghost use Rattle.hq_base.specs.Text.{has_zero};
ghost use Rattle.hq_schema.specs.Fixed.{comparison_place, scalar_type};

use crate::{Kind, TypeId, TypeOrigin};
use hq_base::Ty;

/// The types that each schema has, in the order in which they stand there, before all others.
#[derive(Clone, Copy)]
pub enum Fixed {
    /// The scalar of a column's type.
    Scalar(Ty),
    OrderBy,
    /// The comparisons of a column's type.
    Comparison(Ty),
    Schema,
    Type,
    Field,
    InputValue,
    EnumValue,
    Directive,
    TypeKind,
    DirectiveLocation,
    QueryRoot,
}

// The place of the comparisons of a type.
fn comparison_place(ty: Ty) -> usize
    ensures { result ≡ comparison_place ty }
{
    match ty {
        Ty::Opaque => 20,
        Ty::Boolean | Ty::Integer | Ty::Text | Ty::Bigint | Ty::Uuid => 6 + ty.place(),
    }
}

// The type whose scalar stands for values of a type: an opaque column has that of texts.
fn scalar_type(ty: Ty) -> Ty
    ensures { result ≡ scalar_type ty }
{
    match ty {
        Ty::Opaque => Ty::Text,
        Ty::Boolean | Ty::Integer | Ty::Text | Ty::Bigint | Ty::Uuid => ty,
    }
}

impl Fixed {
    ghost use Rattle.hq_schema.specs.Fixed.{all_fixed, fixed_name, fixed_place, fixed_kind, fixed_origin};

    /// The scalar of truth values.
    pub const BOOLEAN: Fixed = Fixed::Scalar(Ty::Boolean);

    /// The scalar of whole numbers of 32 bits.
    pub const INT: Fixed = Fixed::Scalar(Ty::Integer);

    /// The scalar of texts.
    pub const STRING: Fixed = Fixed::Scalar(Ty::Text);

    /// All of them, in order.
    pub fn all() -> [Fixed; 21]
        ensures { result ≡ all_fixed }
    {
        let [a, b, c, d, e] = Ty::all();
        [
            Fixed::Scalar(a),
            Fixed::Scalar(b),
            Fixed::Scalar(c),
            Fixed::Scalar(d),
            Fixed::Scalar(e),
            Fixed::OrderBy,
            Fixed::Comparison(a),
            Fixed::Comparison(b),
            Fixed::Comparison(c),
            Fixed::Comparison(d),
            Fixed::Comparison(e),
            Fixed::Schema,
            Fixed::Type,
            Fixed::Field,
            Fixed::InputValue,
            Fixed::EnumValue,
            Fixed::Directive,
            Fixed::TypeKind,
            Fixed::DirectiveLocation,
            Fixed::QueryRoot,
            Fixed::Comparison(Ty::Opaque),
        ]
    }

    /// Its name.
    pub fn name(self) -> &'static str
        ensures name { result.now ≡ fixed_name self }
        ensures clean { has_zero result.now ≡ false }
    {
        match self {
            Fixed::Scalar(ty) => ty.scalar_name(),
            Fixed::OrderBy => "order_by",
            Fixed::Comparison(ty) => ty.comparison_name(),
            Fixed::Schema => "__Schema",
            Fixed::Type => "__Type",
            Fixed::Field => "__Field",
            Fixed::InputValue => "__InputValue",
            Fixed::EnumValue => "__EnumValue",
            Fixed::Directive => "__Directive",
            Fixed::TypeKind => "__TypeKind",
            Fixed::DirectiveLocation => "__DirectiveLocation",
            Fixed::QueryRoot => "query_root",
        }
    }

    // Its place, as a number.
    fn number(self) -> usize
        ensures { result ≡ fixed_place self }
    {
        match self {
            Fixed::Scalar(ty) => ty.place(),
            Fixed::OrderBy => 5,
            Fixed::Comparison(ty) => comparison_place(ty),
            Fixed::Schema => 11,
            Fixed::Type => 12,
            Fixed::Field => 13,
            Fixed::InputValue => 14,
            Fixed::EnumValue => 15,
            Fixed::Directive => 16,
            Fixed::TypeKind => 17,
            Fixed::DirectiveLocation => 18,
            Fixed::QueryRoot => 19,
        }
    }

    /// Its place in each schema.
    pub fn place(self) -> TypeId
        ensures { result ≡ fixed_place self }
    {
        TypeId::new(self.number())
    }

    /// What it is.
    pub fn kind(self) -> Kind
        ensures { result ≡ fixed_kind self }
    {
        match self {
            Fixed::Scalar(_) => Kind::Scalar,
            Fixed::OrderBy | Fixed::TypeKind | Fixed::DirectiveLocation => Kind::Enum,
            Fixed::Comparison(_) => Kind::Input,
            _ => Kind::Object,
        }
    }

    /// What it stands for.
    pub fn origin(self) -> TypeOrigin
        ensures { result ≡ fixed_origin self }
    {
        match self {
            Fixed::Scalar(ty) => TypeOrigin::Scalar(scalar_type(ty)),
            Fixed::OrderBy => TypeOrigin::Directions,
            Fixed::Comparison(ty) => TypeOrigin::Comparison(ty),
            Fixed::QueryRoot => TypeOrigin::Query,
            _ => TypeOrigin::Introspection,
        }
    }
}
