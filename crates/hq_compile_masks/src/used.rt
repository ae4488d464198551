//! The columns that a condition uses.
ghost use Rattle.std.specs.Prelude.{◌≡◌, ◌++◌, [], IfOk, OnOk, map};
ghost use Rattle.hq_model.specs.Bexp.{bexp_view, bexps_of, operands_of};
ghost use Rattle.hq_model.specs.Tests.{is_of_nothing};
ghost use Rattle.hq_translation.specs.Predicates.{columns_in, columns_in_all};

use hq_base::{List, Memory};
use hq_model::{Bexp, BexpList, ColList, Operands, Test};
use std::alloc::Global;

// Whether a value is tested to be one of none, for which it is not looked at.
fn is_of_nothing(test: Test, operands: &Operands) -> bool
    ensures { result ≡ is_of_nothing test (operands_of operands.now) }
{
    match operands {
        Operands::List(operands) => matches!(test, Test::Among) && operands.len() == 0,
        Operands::Session(_) => false,
    }
}

/// Adds the columns of the row itself that a condition uses.
#[cycle(columns)]
pub fn add_columns(bexp: &Bexp, columns: &mut ColList) -> Result<(), Memory>
    ensures { OnOk result (columns.new ≡ columns.old ++ columns_in (bexp_view bexp.now)) }
{
    match bexp {
        Bexp::True | Bexp::Through { .. } | Bexp::Exists { .. } => Ok(()),
        Bexp::And(bexps) => add_all(bexps, columns),
        Bexp::Or(bexps) => add_all(bexps, columns),
        Bexp::Not(inner) => add_columns(inner, columns),
        Bexp::Test {
            col,
            test,
            operands,
            ..
        } => {
            if is_of_nothing(*test, operands) {
                return Ok(());
            }
            columns.push(*col)
        }
        Bexp::Columns { left, right, .. } => {
            columns.push(*left)?;
            columns.push(*right)
        }
    }
}

#[cycle(columns)]
fn add_all(bexps: &BexpList, columns: &mut ColList) -> Result<(), Memory>
    ensures { OnOk result (columns.new ≡ columns.old ++ columns_in_all (bexps_of (map bexp_view bexps.now.items))) }
{
    for bexp in bexps {
        add_columns(bexp, columns)?;
    }
    Ok(())
}

/// The columns of the row itself that a condition uses.
pub(crate) fn columns_in(alloc: Global, bexp: &Bexp) -> Result<ColList, Memory>
    ensures { IfOk result (λ columns. columns ≡ columns_in (bexp_view bexp.now)) }
{
    let mut columns = List::new(alloc);
    add_columns(bexp, &mut columns)?;
    Ok(columns)
}
