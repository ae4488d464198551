use hq_base::Txt;

/// The elements of a list, in order.
pub type ValueList = Vec<Placed>;

/// The members of an object, in the order of the text.
pub type ValueMembers = Vec<Argument>;

/// Arguments, in the order of the text.
pub type ArgumentList = Vec<Argument>;

/// Directives, in the order of the text.
pub type DirectiveList = Vec<Directive>;

/// A value (GraphQL October 2021, 2.9). A number has its text, a string its value.
#[derive(Drop)]
#[cycle(value)]
pub enum Value {
    Int(Txt),
    Float(Txt),
    Str(Txt),
    Bool(bool),
    Null,
    Enum(Txt),
    List(ValueList),
    Object(ValueMembers),
    /// A variable's name, without its `$`.
    Variable(Txt),
}

/// A value and its place.
#[derive(Drop)]
#[cycle(value)]
pub struct Placed {
    pub at: u64,
    pub value: Value,
}

/// An argument (2.6), or a member of an object (2.9.8).
#[derive(Drop)]
#[cycle(value)]
pub struct Argument {
    pub at: u64,
    pub name: Txt,
    pub value: Placed,
}

/// A directive (2.12), by its name without its `@`.
#[derive(Drop)]
pub struct Directive {
    pub at: u64,
    pub name: Txt,
    pub args: ArgumentList,
}
