use hq_base::List;
use hq_model::{Bexp, ColId, ColList, RelId};

/// Relationships, each of the table that the one before leads to.
pub type RelIdList = List<RelId>;

/// An entry of `order_by`: a column at the end of object relationships, the direction, and the place of NULLs.
#[derive(Drop)]
pub struct Sort {
    /// The relationships from the field's table on.
    pub through: RelIdList,
    pub col: ColId,
    pub desc: bool,
    pub nulls_first: bool,
}

/// The entries of `order_by`, in order.
pub type SortList = List<Sort>;

/// The arguments of a list or an aggregate (Hasura, Queries: filter, sort, distinct and paginate).
#[derive(Drop)]
pub struct Args {
    /// `where`; always true where it is absent.
    pub filter: Bexp,
    /// `order_by`; none where it is absent.
    pub sorts: SortList,
    /// In rows.
    pub limit: Option<u32>,
    /// In rows.
    pub offset: Option<u32>,
    /// `distinct_on`; none where it is absent.
    pub distinct: ColList,
}
