use crate::{ArgOrigin, FieldOrigin, Named, NamedList, TypeId, TypeOrigin, TypeRef};
use hq_base::Txt;
use hq_model::ColList;

/// What a type is.
#[derive(Clone, Copy)]
pub enum Kind {
    Scalar,
    Object,
    Enum,
    /// An input object.
    Input,
}

/// An argument of a field, or an input field of an input object. Its default is `false` where `default_false`, and else it
/// has none.
#[derive(Drop)]
pub struct ArgDef {
    pub name: Txt,
    pub ty: TypeRef,
    pub default_false: bool,
    pub origin: ArgOrigin,
}

impl Named for ArgDef {
    ghost name_of = { λ a. a.name };

    fn name(&self) -> &Txt {
        &self.name
    }
}

/// Arguments or input fields, in the schema's order.
pub type ArgDefList = NamedList<ArgDef>;

/// A field of an object type, with its arguments.
#[derive(Drop)]
pub struct FieldDef {
    pub name: Txt,
    pub args: ArgDefList,
    pub ty: TypeRef,
    pub origin: FieldOrigin,
}

impl Named for FieldDef {
    ghost name_of = { λ f. f.name };

    fn name(&self) -> &Txt {
        &self.name
    }
}

/// Fields, in the schema's order.
pub type FieldDefList = NamedList<FieldDef>;

/// Names, in order.
pub type TxtList = NamedList<Txt>;

/// A type: an object has fields, an input object has inputs, an enum has values, and all else is empty. The values of an enum
/// of columns stand for `columns`, one each; other values stand for none.
#[derive(Drop)]
pub struct TypeDef {
    pub name: Txt,
    pub kind: Kind,
    pub fields: FieldDefList,
    pub inputs: ArgDefList,
    pub values: TxtList,
    pub columns: ColList,
    pub origin: TypeOrigin,
}

impl Named for TypeDef {
    ghost name_of = { λ t. t.name };

    fn name(&self) -> &Txt {
        &self.name
    }
}

/// Types, in the schema's order.
pub type TypeDefList = NamedList<TypeDef>;

/// A schema: its types, and the root type of a query. Beside the fields in the types, each object type takes `type_name`, and
/// the root type of a query takes `introspection`; the directives `skip` and `include` take `conditions`.
#[derive(Drop)]
pub struct Schema {
    pub types: TypeDefList,
    pub query: TypeId,
    /// `__typename`.
    pub type_name: FieldDef,
    /// `__schema` and `__type`.
    pub introspection: FieldDefList,
    /// `if`.
    pub conditions: ArgDefList,
}
