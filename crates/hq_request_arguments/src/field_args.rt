use hq_base::Txt;
use hq_model::ColId;
use hq_request_tree::{Args, ValList};

/// The coerced arguments of a field. Those of a list lie in a box, so that they are let go in one step.
#[derive(Drop)]
pub enum FieldArgs {
    /// Of a list of rows, or of the aggregates over one.
    Rows(Box<Args>),
    /// The values of the columns of a key, in the key's order.
    Key(ValList),
    /// Of `count`.
    Count { col: Option<ColId>, distinct: bool },
    /// `name` of `__type`.
    TypeName(Txt),
    /// `includeDeprecated`.
    Deprecated(bool),
    /// Of every other field.
    Nothing,
}
