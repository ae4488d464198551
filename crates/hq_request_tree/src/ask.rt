use crate::AskFields;
use hq_base::List;
use hq_model::{Bexp, MaskList, Role, TableId};

/// A table that the request touches, with the filter and the masks of the role's permission, bound for the session.
#[derive(Drop)]
pub struct Bound {
    pub table: TableId,
    pub filter: Bexp,
    pub masks: MaskList,
}

/// The touched tables, each once.
pub type BoundList = List<Bound>;

/// A typed request of a role: the root fields, and each touched table with its bound filter and masks.
#[derive(Drop)]
pub struct Ask {
    pub role: Role,
    pub fields: AskFields,
    pub bound: BoundList,
}
