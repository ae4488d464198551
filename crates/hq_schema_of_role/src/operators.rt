ghost use Rattle.std.specs.Prelude.{◌≡◌, IfOk, filter, map};
ghost use Rattle.hq_schema.specs.Schema.{arg_view};
ghost use Rattle.hq_schema_of_role.specs.Operators.{value_type, operator_arg, is_operator_of, operator_inputs};
ghost use Rattle.hq_schema_of_role.specs.Rows.{shaped};

use crate::rows::{Shape, row_arg};
use hq_base::{Memory, Ty};
use hq_model::{Arity, Operator};
use hq_schema::{ArgDef, ArgOrigin, Fixed};
use std::alloc::Global;

// How the type of an operator's value is wrapped, and that type.
fn value_type(scalar: Ty, arity: Arity) -> (Shape, Fixed)
    ensures { shaped result.0 result.1 ≡ value_type scalar arity }
{
    match arity {
        Arity::Nothing => (Shape::One, Fixed::Scalar(Ty::Boolean)),
        Arity::One => (Shape::One, Fixed::Scalar(scalar)),
        Arity::Many => (Shape::Items, Fixed::Scalar(scalar)),
    }
}

fn operator_arg(alloc: Global, operator: Operator, scalar: Ty) -> Result<ArgDef, Memory>
    ensures { IfOk result (λ a. arg_view a ≡ operator_arg scalar operator) }
{
    let (shape, of) = value_type(scalar, operator.test.arity());
    let origin = ArgOrigin::Operator(operator);
    let row = (operator.name(), shape, of.place(), origin);
    row_arg(alloc, &row)
}

// Those of the operators that are ones of a scalar.
fn operators_of(alloc: Global, operators: &[Operator], scalar: Ty) -> Result<Vec<ArgDef>, Memory>
    ensures { IfOk result (λ inputs. map arg_view inputs.items ≡ map (operator_arg scalar) (filter (is_operator_of scalar) operators.now)) }
{
    let mut inputs = Vec::new(alloc);
    for operator in operators {
        if operator.test.applies(scalar) {
            inputs.push(operator_arg(alloc, *operator, scalar)?)?;
        }
    }
    Ok(inputs)
}

/// The comparisons of a scalar.
#[tactic(auto, unfolding(crate::specs::Operators::operator_inputs))]
pub fn operator_inputs(alloc: Global, scalar: Ty) -> Result<Vec<ArgDef>, Memory>
    ensures { IfOk result (λ inputs. map arg_view inputs.items ≡ operator_inputs scalar) }
{
    operators_of(alloc, &Operator::all(), scalar)
}
