use crate::{ArgumentList, DirectiveList};
use hq_base::Txt;

/// Selections, in the order of the text.
pub type SelectionList = Vec<Selection>;

/// A selection (GraphQL October 2021, 2.4).
#[derive(Drop)]
#[cycle(selection)]
pub enum Selection {
    Field(Field),
    Spread(Spread),
    Inline(Inline),
}

/// A field (2.5, 2.7). No selections stand where it has no selection set. Its place is that of its alias, else of its
/// name.
#[derive(Drop)]
#[cycle(selection)]
pub struct Field {
    pub at: u64,
    pub alias: Option<Txt>,
    pub name: Txt,
    pub args: ArgumentList,
    pub directives: DirectiveList,
    pub selections: SelectionList,
}

/// A fragment spread (2.8). Its place is that of its `...`.
#[derive(Drop)]
pub struct Spread {
    pub at: u64,
    pub name: Txt,
    pub directives: DirectiveList,
}

/// An inline fragment (2.8.2). Its place is that of its `...`.
#[derive(Drop)]
#[cycle(selection)]
pub struct Inline {
    pub at: u64,
    pub cond: Option<TypeCond>,
    pub directives: DirectiveList,
    pub selections: SelectionList,
}

/// A type condition (2.8.1). Its place is that of its `on`.
#[derive(Drop)]
pub struct TypeCond {
    pub at: u64,
    pub name: Txt,
}
