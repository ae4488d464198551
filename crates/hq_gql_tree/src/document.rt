ghost use Rattle.std.specs.Prelude.{◌≤◌, map};
ghost use Rattle.hq_gql_tree.specs.Documents.{definition_view};
ghost use Rattle.hq_gql_tree.specs.Nesting.{document_nest};

use crate::{DirectiveList, Placed, SelectionList, TypeCond, TypeRefTree};
use hq_base::Txt;

/// Definitions, in the order of the text.
pub type DefinitionList = Vec<Definition>;

/// Definitions of variables, in the order of the text.
pub type VarDefList = Vec<VarDef>;

/// A document (GraphQL October 2021, 2.2) of operations and fragments. Its selection sets, objects and lists are
/// nested at most 50 deep.
#[derive(Drop)]
pub struct Document {
    pub definitions: DefinitionList,
    pub ghost nested: { document_nest (map definition_view definitions.items) ≤ 50 },
}

/// An operation or a fragment.
#[derive(Drop)]
pub enum Definition {
    Operation(Operation),
    Fragment(Fragment),
}

/// What an operation does.
#[derive(Clone, Copy)]
pub enum OpKind {
    Query,
    Mutation,
    Subscription,
}

/// An operation (2.3). Its place is that of its word, else of its selection set.
#[derive(Drop)]
pub struct Operation {
    pub at: u64,
    pub kind: OpKind,
    pub name: Option<Txt>,
    pub vars: VarDefList,
    pub directives: DirectiveList,
    pub selections: SelectionList,
}

/// A definition of a variable (2.10), by its name without its `$`.
#[derive(Drop)]
pub struct VarDef {
    pub at: u64,
    pub name: Txt,
    pub ty: TypeRefTree,
    pub default: Option<Placed>,
    pub directives: DirectiveList,
}

/// A fragment (2.8).
#[derive(Drop)]
pub struct Fragment {
    pub at: u64,
    pub name: Txt,
    pub cond: TypeCond,
    pub directives: DirectiveList,
    pub selections: SelectionList,
}
