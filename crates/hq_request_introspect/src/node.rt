use crate::directive::Directive;
use hq_base::{Json, Txt};
use hq_schema::{ArgDef, FieldDef, TypeDef, TypeRef};

/// What a selection of introspection stands in below the root: an object of one of the types of introspection.
#[derive(Clone, Copy)]
pub enum Node<'a> {
    /// `__Type`, one of the schema's.
    Type(&'a TypeDef),
    /// `__Type`, a list of another.
    ListOf(&'a TypeRef),
    /// `__Type`, another without null.
    NonNull(&'a TypeRef),
    /// `__Field`.
    Field(&'a FieldDef),
    /// `__InputValue`.
    Input(&'a ArgDef),
    /// `__EnumValue`, by its name.
    Value(&'a Txt),
    /// `__Directive`.
    Directive(Directive),
}

/// What a field gives before anything is selected below it.
#[derive(Drop)]
pub enum Resolved<'a> {
    Leaf(Json),
    One(Node<'a>),
    Many(Vec<Node<'a>>),
}
