//! The table of column types: each type's names, and what its values are.
ghost use Rattle.std.specs.Prelude.{◌≡◌, false, find, bytes_eq};
ghost use Rattle.hq_base.specs.Text.{has_zero};
ghost use Rattle.hq_base.specs.Types.{all_types, column_types, is_ordered, type_place, catalog_name, scalar_name, comparison_name, type_named, comparable, is_whole};

use crate::Ty;

impl Ty {
    /// All types with a scalar of their own, in ascending order of the bytes of the scalars' names.
    pub fn all() -> [Ty; 5]
        ensures { result ≡ all_types }
    {
        [Ty::Boolean, Ty::Integer, Ty::Text, Ty::Bigint, Ty::Uuid]
    }

    /// All types that a column may have.
    pub fn of_columns() -> [Ty; 6]
        ensures { result ≡ column_types }
    {
        [
            Ty::Boolean,
            Ty::Integer,
            Ty::Text,
            Ty::Bigint,
            Ty::Uuid,
            Ty::Opaque,
        ]
    }

    /// The place of its scalar among them; that of an opaque column is the scalar of texts.
    pub fn place(self) -> usize
        ensures { result ≡ type_place self }
    {
        match self {
            Ty::Boolean => 0,
            Ty::Integer => 1,
            Ty::Text | Ty::Opaque => 2,
            Ty::Bigint => 3,
            Ty::Uuid => 4,
        }
    }

    /// Its name in a catalog, which is PostgreSQL's.
    pub fn catalog_name(self) -> &'static str
        ensures { result.now ≡ catalog_name self }
    {
        match self {
            Ty::Integer => "integer",
            Ty::Bigint => "bigint",
            Ty::Text => "text",
            Ty::Boolean => "boolean",
            Ty::Uuid => "uuid",
            Ty::Opaque => "opaque",
        }
    }

    /// The type of this name in a catalog, where there is one.
    pub fn named(name: &str) -> Option<Ty>
        ensures { result ≡ type_named name.now }
    {
        type_named(&Ty::of_columns(), name)
    }

    /// The name of its scalar in a GraphQL schema.
    pub fn scalar_name(self) -> &'static str
        ensures name { result.now ≡ scalar_name self }
        ensures clean { has_zero result.now ≡ false }
    {
        match self {
            Ty::Integer => "Int",
            Ty::Bigint => "bigint",
            Ty::Text | Ty::Opaque => "String",
            Ty::Boolean => "Boolean",
            Ty::Uuid => "uuid",
        }
    }

    /// The name of the input of its comparisons.
    pub fn comparison_name(self) -> &'static str
        ensures name { result.now ≡ comparison_name self }
        ensures clean { has_zero result.now ≡ false }
    {
        match self {
            Ty::Integer => "Int_comparison_exp",
            Ty::Bigint => "bigint_comparison_exp",
            Ty::Text => "String_comparison_exp",
            Ty::Boolean => "Boolean_comparison_exp",
            Ty::Uuid => "uuid_comparison_exp",
            Ty::Opaque => "opaque_comparison_exp",
        }
    }

    /// Whether its values are whole numbers.
    pub fn is_whole(self) -> bool
        ensures { result ≡ is_whole self }
    {
        matches!(self, Ty::Integer | Ty::Bigint)
    }

    /// Whether its values are compared, sorted, grouped and counted by difference.
    pub fn is_ordered(self) -> bool
        ensures { result ≡ is_ordered self }
    {
        !matches!(self, Ty::Opaque)
    }

    /// Whether its values can be compared with those of another type: both whole numbers, or both of one type.
    pub fn is_comparable(self, other: Ty) -> bool
        ensures { result ≡ comparable self other }
    {
        match (self, other) {
            (Ty::Integer | Ty::Bigint, Ty::Integer | Ty::Bigint) => true,
            (Ty::Text, Ty::Text) => true,
            (Ty::Boolean, Ty::Boolean) => true,
            (Ty::Uuid, Ty::Uuid) => true,
            _ => false,
        }
    }
}

// The first type of this name.
fn type_named(types: &[Ty], name: &str) -> Option<Ty>
    ensures { result ≡ find (λ ty. bytes_eq (catalog_name ty) name.now) types.now }
{
    for ty in types {
        if ty.catalog_name() == name {
            return Some(*ty);
        }
    }
    None
}
