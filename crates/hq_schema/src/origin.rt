use hq_base::{Aggregate, Ty};
use hq_model::{ColId, Operator, RelId, TableId};

/// What a type stands for. A table's types are those of its rows, of the inputs over them, and of their aggregates.
#[derive(Clone, Copy)]
pub enum TypeOrigin {
    /// The scalar of a column's type.
    Scalar(Ty),
    /// The directions of a sort, and where NULL stands.
    Directions,
    /// The operators over a scalar.
    Comparison(Ty),
    /// A type of introspection.
    Introspection,
    /// The root type of a query.
    Query,
    /// The rows of a table.
    Rows(TableId),
    /// The filters of a table's rows.
    Filter(TableId),
    /// The sorts of a table's rows.
    Sort(TableId),
    /// The columns of a table, as an enum.
    Columns(TableId),
    /// The aggregates over a list of a table's rows, beside those rows.
    Aggregate(TableId),
    /// Those aggregates themselves.
    AggregateFields(TableId),
    /// What one aggregate gives of a table's columns.
    Aggregated(Aggregate, TableId),
}

/// What a field of an object type stands for. Which type it leads to, its own type says.
#[derive(Clone, Copy)]
pub enum FieldOrigin {
    /// A column of the rows, or what an aggregate gives of it.
    Column(ColId),
    /// The row behind an object relationship.
    Object(RelId),
    /// The rows behind an array relationship.
    List(RelId),
    /// The aggregates over the rows behind an array relationship.
    ListAggregate(RelId),
    /// The rows of a table.
    Rows(TableId),
    /// The aggregates over the rows of a table.
    RowsAggregate(TableId),
    /// The row of a table that has a key.
    RowByKey(TableId),
    /// The aggregates of a list, beside its rows.
    Aggregates,
    /// The rows of a list, beside its aggregates.
    Nodes,
    /// How many rows there are, or values of a column.
    Count,
    /// What an aggregate gives of the columns.
    Aggregated(Aggregate),
    /// The text that there is nothing to query.
    NoQueries,
    /// `__typename`.
    TypeName,
    /// `__schema`.
    Schema,
    /// `__type`.
    Type,
    /// A field of a type of introspection.
    Introspection,
}

/// What an argument or an input field stands for. Which type its value has, its own type says.
#[derive(Clone, Copy)]
pub enum ArgOrigin {
    Where,
    OrderBy,
    DistinctOn,
    Limit,
    Offset,
    /// `columns` of `count`.
    Columns,
    /// `distinct` of `count`.
    Distinct,
    And,
    Or,
    Not,
    Operator(Operator),
    /// The comparisons of a column, a sort by it, or its value in a key.
    Column(ColId),
    /// A filter over the rows behind a relationship, or a sort by the row behind one.
    Relationship(RelId),
    /// `includeDeprecated` of introspection.
    IncludeDeprecated,
    /// `name` of `__type`.
    TypeName,
    /// `if` of `skip` and `include`.
    Condition,
}
