//! Conditions that ask columns of a table for something that constants tell. Scans whose WHERE asks a column to be one of many
//! constants, or in a range of few rows: rows that are not are left out before WHERE is tried. What an EXISTS whose keys are known asks
//! of a column is that it is one of these. Tests of columns beside constants and by patterns, and of the keys of an EXISTS, are tried
//! at the values of rows, without a scope.
#![tactic(auto)]

mod key_test;
mod keyed;
mod like_test;
mod listed;
mod marked;
mod plain;
mod ranged;
mod row_test;
mod sieve;
mod sifted;
mod spans;
mod walked;
mod worth;

pub use plain::{cell_in, constant};
pub use row_test::{RowTest, one_holds, tests_of};
pub use sieve::{Sieve, Verdict, sieve_of, verdict_at};
pub use sifted::{Left, left_of, with_left};
pub use worth::is_worth_finding;
