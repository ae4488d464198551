use hq_model::{PairList, TableId};

/// What a relationship goes by: its remote table, and the pairs of columns that join it.
#[derive(Drop)]
pub struct Link {
    pub remote: TableId,
    pub pairs: PairList,
}
