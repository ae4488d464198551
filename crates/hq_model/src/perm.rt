use crate::{Bexp, ColId, ColList};

/// A column whose cell shows only at some rows: those that meet the expression. At all others it shows as NULL.
#[derive(Drop)]
pub struct Mask {
    pub col: ColId,
    pub shown: Bexp,
}

/// Masks, in column order.
pub type MaskList = Vec<Mask>;

/// What a role may see of a table: the columns in the catalog's order, the filter, the most rows of a list, whether
/// aggregates are allowed, and the masks.
#[derive(Drop)]
pub struct PermView {
    pub cols: ColList,
    pub filter: Bexp,
    /// In rows.
    pub limit: Option<u64>,
    pub aggregations: bool,
    pub masks: MaskList,
}
