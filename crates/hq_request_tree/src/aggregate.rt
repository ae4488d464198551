use hq_base::{Aggregate, List, Txt};
use hq_model::ColId;

/// A field of `aggregate` (Hasura, Queries: aggregate fields), over the selected rows.
#[derive(Drop)]
pub enum AggField {
    /// The number of rows, or of the values of a column that are not NULL; of different ones where `distinct`.
    Count {
        col: Option<ColId>,
        distinct: bool,
    },
    /// An aggregate of each of these columns.
    Columns {
        aggregate: Aggregate,
        columns: AggCols,
    },
    Typename {
        name: Txt,
    },
}

/// A field of `aggregate` under its response key.
#[derive(Drop)]
pub struct KeyedAggField {
    pub key: Txt,
    pub field: AggField,
}

/// The fields of `aggregate`, in collected order.
pub type AggFields = List<KeyedAggField>;

/// A column of an aggregate, as a field of its object.
#[derive(Drop)]
pub enum AggCol {
    Column { col: ColId },
    Typename { name: Txt },
}

/// A column of an aggregate under its response key.
#[derive(Drop)]
pub struct KeyedAggCol {
    pub key: Txt,
    pub field: AggCol,
}

/// The columns of an aggregate, in collected order.
pub type AggCols = List<KeyedAggCol>;
