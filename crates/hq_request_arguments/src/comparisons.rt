//! The comparisons of a column.
ghost use Rattle.std.specs.Prelude.{◌≡◌, map};
ghost use Rattle.hq_base.specs.Due.{Gives};
ghost use Rattle.hq_base.specs.Json.{json_view, member_view};
ghost use Rattle.hq_model.specs.Bexp.{bexp_view};
ghost use Rattle.hq_model.specs.Tests.{arity};
ghost use Rattle.hq_request_arguments.specs.Comparisons.{tested_due, operator_due, operator_of, operator_named, named_due, comparisons_due};
ghost use Rattle.hq_request_arguments.specs.Context.{context_view};
ghost use Rattle.hq_request_arguments.specs.Operands.{operand_due};
ghost use Rattle.hq_request_arguments.specs.Reading.{each};
ghost use Rattle.hq_request_arguments.specs.declared.refusal.ArgRefusal.TheVariants as refusal;

use crate::operands::{one, operand, truth};
use crate::reading::{items_in, misfit};
use crate::{ArgRefusal, Context};
use hq_base::{Json, List, Member, Txt, Ty};
use hq_gql_tree::RuleId;
use hq_model::{Arity, Bexp, BexpList, ColId, OperandList, Operands, Operator, Test};
use hq_schema::{ArgOrigin, TypeId};
use std::alloc::Global;

// The operands of a list, for a test of a column of a type.
fn operands(alloc: Global, test: Test, ty: Ty, items: &[Json]) -> Result<OperandList, ArgRefusal>
    ensures { Gives (λ os. os) refusal.Memory (each (operand_due test ty) (map json_view items.now)) result }
{
    let mut operands = List::new(alloc);
    for json in items {
        operands.push(operand(alloc, test, ty, json)?)?;
    }
    Ok(operands)
}

// The test of an operator that is one of the type, by how many operands it takes.
fn tested(
    alloc: Global,
    col: ColId,
    ty: Ty,
    operator: Operator,
    json: &Json,
) -> Result<Bexp, ArgRefusal>
    ensures { Gives bexp_view refusal.Memory (tested_due col ty operator (json_view json.now) (arity operator.test)) result }
{
    let test = operator.test;
    match test.arity() {
        Arity::Nothing => {
            let holds = truth(json)?;
            Ok(Bexp::Test {
                col,
                test,
                operands: Operands::List(List::new(alloc)),
                negated: if holds {
                    operator.negated
                } else {
                    !operator.negated
                },
            })
        }
        Arity::One => {
            let operand = operand(alloc, test, ty, json)?;
            Ok(Bexp::Test {
                col,
                test,
                operands: Operands::List(one(alloc, operand)?),
                negated: operator.negated,
            })
        }
        Arity::Many => {
            let operands = operands(alloc, test, ty, items_in(json))?;
            Ok(Bexp::Test {
                col,
                test,
                operands: Operands::List(operands),
                negated: operator.negated,
            })
        }
    }
}

// The condition of an operator, which must be one of the type.
fn condition(
    alloc: Global,
    col: ColId,
    ty: Ty,
    operator: Operator,
    json: &Json,
) -> Result<Bexp, ArgRefusal>
    ensures { Gives bexp_view refusal.Memory (operator_due col ty operator (json_view json.now)) result }
{
    if !operator.test.applies(ty) {
        return Err(ArgRefusal::Rule(RuleId::ValuesOfCorrectType));
    }
    tested(alloc, col, ty, operator, json)
}

fn operator_of(origin: ArgOrigin) -> Option<Operator>
    ensures { result ≡ operator_of origin }
{
    match origin {
        ArgOrigin::Operator(operator) => Some(operator),
        _ => None,
    }
}

// The operator of this name of an input object.
fn operator_named(context: &Context<'_>, p: TypeId, name: &Txt) -> Option<Operator>
    ensures { result ≡ operator_named (context_view context.now) p name.now }
{
    match context.schema.input_field(p, name) {
        Some(arg) => operator_of(arg.origin),
        None => None,
    }
}

// The condition of a member.
fn member_condition(
    alloc: Global,
    context: &Context<'_>,
    p: TypeId,
    col: ColId,
    ty: Ty,
    member: &Member,
) -> Result<Bexp, ArgRefusal>
    ensures { Gives bexp_view refusal.Memory (named_due (context_view context.now) p col ty (member_view member.now)) result }
{
    match operator_named(context, p, &member.name) {
        Some(operator) => condition(alloc, col, ty, operator, &member.value),
        None => Err(ArgRefusal::Rule(RuleId::InputObjectFieldNames)),
    }
}

// The conditions of members.
fn conditions(
    alloc: Global,
    context: &Context<'_>,
    p: TypeId,
    col: ColId,
    ty: Ty,
    members: &[Member],
) -> Result<BexpList, ArgRefusal>
    ensures { Gives (λ v. map bexp_view v.items) refusal.Memory (each (named_due (context_view context.now) p col ty) (map member_view members.now)) result }
{
    let mut conditions = Vec::new(alloc);
    for member in members {
        let condition = member_condition(alloc, context, p, col, ty, member)?;
        conditions.push(condition)?;
    }
    Ok(conditions)
}

/// The conditions that the value of a member of `where` writes on a column of a type, whose operators are the inputs of `p`.
#[tactic(auto, using(crate::proofs::Objects::of_object, crate::proofs::Objects::of_other))]
pub fn comparisons(
    alloc: Global,
    context: &Context<'_>,
    p: TypeId,
    col: ColId,
    ty: Ty,
    json: &Json,
) -> Result<Bexp, ArgRefusal>
    ensures { Gives bexp_view refusal.Memory (comparisons_due (context_view context.now) p col ty (json_view json.now)) result }
{
    match json.as_object() {
        Some(members) => Ok(Bexp::all_of(conditions(alloc, context, p, col, ty, members)?)),
        None => Err(misfit(json)),
    }
}
