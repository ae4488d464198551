use crate::{Expr, ExprList, OrderList};
use hq_base::Txt;
use hq_model::Test;

/// The outputs of a select, in order.
pub type OutList = Vec<Out>;

/// The lateral joins of a select, in order.
pub type JoinList = Vec<Join>;

/// Conditions, in order.
pub type PredList = Vec<Pred>;

/// An output: an expression and its name.
#[derive(Drop)]
pub struct Out {
    pub value: Expr,
    pub name: Txt,
}

/// A `SELECT`.
#[derive(Drop)]
#[cycle(select)]
pub enum Select {
    /// One row of outputs for each row of FROM and the joins that the rest keeps.
    Rows {
        /// The expressions of DISTINCT ON; none where it is absent.
        distinct: ExprList,
        outs: OutList,
        from: From,
        joins: JoinList,
        /// The condition of WHERE.
        filter: Option<Pred>,
        /// The keys of ORDER BY; none where it is absent.
        order: OrderList,
        /// The number of LIMIT, in rows.
        limit: Option<u64>,
        /// The number of OFFSET, in rows.
        offset: Option<u64>,
    },
    /// The one row of an output whose aggregates are taken over all of `rows`.
    Fold {
        out: Out,
        rows: Box<Select>,
        alias: Txt,
    },
}

/// What a select takes its rows from, under an alias.
#[derive(Drop)]
#[cycle(select)]
pub enum From {
    /// A table's rows.
    Table { schema: Txt, table: Txt, alias: Txt },
    /// The rows of a select.
    Sub { select: Box<Select>, alias: Txt },
    /// One row, whose one column `u` is true.
    One { alias: Txt },
}

/// A `LEFT JOIN LATERAL` of a select under an alias.
#[derive(Drop)]
#[cycle(select)]
pub struct Join {
    pub select: Box<Select>,
    pub alias: Txt,
}

/// A condition, of three truth values.
#[derive(Drop)]
#[cycle(select)]
pub enum Pred {
    True,
    False,
    /// A test of a value, with as many operands as it takes.
    Test {
        value: Expr,
        test: Test,
        operands: ExprList,
    },
    Not(Box<Pred>),
    And(PredList),
    Or(PredList),
    /// EXISTS: the select has a row.
    Exists(Box<Select>),
}
