//! The subset of SELECT that hq writes and reads: its trees, the one spelling of each, and what they mean.
#![tactic(auto)]

mod depth;
mod expr;
mod exprs;
mod form;
mod grammar;
mod representable;
mod select;
mod statement;
mod word;

pub use expr::{Agg, ColumnForm, Expr, ExprList, ExprPair, ExprPairList, Order, OrderList};
pub use select::{From, Join, JoinList, Out, OutList, Pred, PredList, Select};
pub use word::Word;
