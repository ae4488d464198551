//! The plain values of the engine: the catalog, the metadata, sessions, and the database over the catalog.
#![tactic(auto)]

mod bexp;
mod bind;
mod catalog;
mod constant;
mod copy;
mod ids;
mod inherited;
mod laws;
mod meta;
mod name;
mod op;
mod operator;
mod perm;
mod permission;
mod reading;
mod role;
mod scope;
mod session;
mod session_list;
mod table;
mod test;
mod truth;
mod want;

pub use bexp::{Bexp, BexpList, Operand, OperandList, Operands};
pub use bind::BindRefusal;
pub use catalog::Catalog;
pub use constant::{constant_in, read_as, read_operand, read_pattern, whole_value};
pub use copy::{TryCopy, copy_list};
pub use ids::{ColId, ColList, RelId, TableId, has_column};
pub use laws::{masks_add_no_fault, permissions_fit};
pub use meta::{
    Inherited, InheritedList, Meta, Pair, PairList, Perm, PermList, Rel, RelList, RootNames,
    Tracked, TrackedList, TxtList,
};
pub use name::is_free_name;
pub use op::Op;
pub use operator::Operator;
pub use perm::{Mask, MaskList, PermView};
pub use reading::{is_text_of, truth_value, whole_number};
pub use role::Role;
pub use scope::Described;
pub use session::{Session, Var, VarList};
pub use session_list::{ListState, Step};
pub use table::{
    Column, ColumnList, ForeignKey, ForeignKeyList, Table, TableList, can_pair, table_place,
};
pub use test::{Arity, Test};
pub use truth::Truth;
pub use want::Want;
