ghost use Rattle.std.specs.Prelude.{◌≡◌};
ghost use Rattle.hq_sql_tree.specs.Columns.{casts, collates, same_form};

use hq_base::{Aggregate, Txt};

/// Expressions, in order.
pub type ExprList = Vec<Expr>;

/// The pairs of a JSON object, in order.
pub type ExprPairList = Vec<ExprPair>;

/// Sort keys, the first one first.
pub type OrderList = Vec<Order>;

/// How a column is written: as it stands, or by its text in the form `::text`; and with `COLLATE "C"`, by which texts are
/// compared byte by byte.
#[derive(Clone, Copy, PartialEq, Eq)]
pub enum ColumnForm {
    Plain,
    Collated,
    AsText,
    AsTextCollated,
}

impl ColumnForm {
    /// Whether it is written by its text.
    pub fn casts(self) -> bool
        ensures { result ≡ casts self }
    {
        matches!(self, ColumnForm::AsText | ColumnForm::AsTextCollated)
    }

    /// Whether `COLLATE "C"` stands behind it.
    pub fn collates(self) -> bool
        ensures { result ≡ collates self }
    {
        matches!(self, ColumnForm::Collated | ColumnForm::AsTextCollated)
    }

    /// Whether it is the other one.
    pub fn is_same(self, other: ColumnForm) -> bool
        ensures { result ≡ same_form self other }
    {
        self.casts() == other.casts() && self.collates() == other.collates()
    }
}

/// A value expression.
#[derive(Drop)]
#[cycle(expr)]
pub enum Expr {
    /// A column of an alias.
    Column {
        alias: Txt,
        name: Txt,
        form: ColumnForm,
    },
    /// A `bigint` literal.
    Int(i64),
    /// A `text` literal.
    Text(Txt),
    /// A `uuid` literal, which is well-formed where its text is in the one form of a uuid.
    Uuid(Txt),
    /// `TRUE` or `FALSE`.
    Bool(bool),
    /// `json_build_object` of these names and values.
    Object(ExprPairList),
    /// An aggregate.
    Agg(Agg),
}

/// A member of a JSON object: its name, and the expression of its value.
#[derive(Drop)]
#[cycle(expr)]
pub struct ExprPair {
    pub name: Txt,
    pub value: Expr,
}

/// An aggregate expression.
#[derive(Drop)]
#[cycle(expr)]
pub enum Agg {
    /// `count(*)`: the number of rows.
    CountAll,
    /// The number of values that are not NULL; with `distinct` of different ones.
    Count {
        value: Box<Expr>,
        distinct: bool,
    },
    /// What this aggregate gives of the values.
    Take {
        aggregate: Aggregate,
        value: Box<Expr>,
    },
    /// `json_agg` in this order, and `'[]'::json` over no rows.
    JsonAgg {
        value: Box<Expr>,
        order: OrderList,
    },
}

/// A sort key: an expression, its direction, and where NULLs stand.
#[derive(Drop)]
#[cycle(expr)]
pub struct Order {
    pub value: Expr,
    pub desc: bool,
    pub nulls_first: bool,
}
