ghost use Rattle.std.specs.Prelude.{◌≡◌, ◌∷◌, [], map, IfOk};
ghost use Rattle.hq_base.specs.Due.{Gives};
ghost use Rattle.hq_base.specs.Json.{json_view, member_view};
ghost use Rattle.hq_model.specs.Bexp.{bexp_view};
ghost use Rattle.hq_base.specs.Look.{str_in, array_in};
ghost use Rattle.hq_model.specs.Operators.{column_operator_named};
ghost use Rattle.hq_model.specs.Schema.{table, column};
ghost use Rattle.hq_model.specs.Described.{scope_schema};
ghost use Rattle.hq_model.specs.declared.bexp.Operands.TheVariants as operands;
ghost use Rattle.hq_load_filter.specs.Condition.{told_due, single_due, operands_by, listed_due, condition_due, named_due, written_on, column_due};
ghost use Rattle.hq_load_filter.specs.Each.{each_element, each_member};
ghost use Rattle.hq_load_filter.specs.Operand.{operand_at, operand_read};
ghost use Rattle.hq_load_filter.specs.Variable.{variable_named};

use crate::FilterRefusal;
use crate::compared::compared;
use crate::operand::{operand_at, truth_at};
use crate::operator::operator_named;
use crate::refusal::bad_operand;
use crate::variable::variable_named;
use hq_base::{Json, List, Member, Memory, Txt, Ty, item_path, member_path};
use hq_model::{
    Arity, Bexp, BexpList, ColId, Described, Op, Operand, OperandList, Operands, Operator, TableId,
    Test,
};
use std::alloc::Global;

// A test that takes no operand, which is to hold or not by a truth value at a path.
#[tactic(auto, unfolding(crate::specs::Condition::told_due))]
fn told(
    alloc: Global,
    col: ColId,
    operator: Operator,
    path: &Txt,
    json: &Json,
) -> Result<Bexp, FilterRefusal>
    ensures { Gives bexp_view FilterRefusal.Memory (told_due col operator path.now (json_view json.now)) result }
{
    let holds = truth_at(alloc, path, json)?;
    Ok(Bexp::Test {
        col,
        test: operator.test,
        operands: Operands::List(List::new(alloc)),
        negated: if holds {
            operator.negated
        } else {
            !operator.negated
        },
    })
}

// A list of one operand.
fn one(alloc: Global, operand: Operand) -> Result<Operands, Memory>
    ensures { IfOk result (λ vs. vs ≡ operands.List (operand ∷ [])) }
{
    let mut operands = List::new(alloc);
    operands.push(operand)?;
    Ok(Operands::List(operands))
}

// A test of the operand at a path.
#[tactic(auto, unfolding(crate::specs::Condition::single_due))]
fn single(
    alloc: Global,
    col: ColId,
    ty: Ty,
    operator: Operator,
    path: &Txt,
    json: &Json,
) -> Result<Bexp, FilterRefusal>
    ensures { Gives bexp_view FilterRefusal.Memory (single_due col ty operator path.now (json_view json.now)) result }
{
    let operand = operand_at(alloc, operator.test, ty, path, json)?;
    Ok(Bexp::Test {
        col,
        test: operator.test,
        operands: one(alloc, operand)?,
        negated: operator.negated,
    })
}

// The operands of the list at a path.
fn listed_operands(
    alloc: Global,
    test: Test,
    ty: Ty,
    path: &Txt,
    list: &[Json],
) -> Result<OperandList, FilterRefusal>
    ensures { Gives (λ os. os) FilterRefusal.Memory (each_element (operand_at test ty) path.now 0 (map json_view list.now)) result }
{
    let mut operands = List::new(alloc);
    for (place, json) in list.iter().enumerate() {
        let operand = operand_at(alloc, test, ty, &item_path(alloc, path, place)?, json)?;
        operands.push(operand)?;
    }
    Ok(operands)
}

// The name of the session variable that a text at a path is to name.
fn variable_at(alloc: Global, path: &Txt, text: &Txt) -> Result<Txt, FilterRefusal>
    ensures { Gives (λ name. name) FilterRefusal.Memory (operand_read path.now (variable_named text.now)) result }
{
    match variable_named(alloc, text)? {
        Some(name) => Ok(name),
        None => Err(bad_operand(alloc, path)),
    }
}

// The operands at a path: a list of them, or the session variable that lists them.
fn operands(
    alloc: Global,
    test: Test,
    ty: Ty,
    path: &Txt,
    json: &Json,
) -> Result<Operands, FilterRefusal>
    ensures { Gives (λ os. os) FilterRefusal.Memory (operands_by test ty path.now (str_in (json_view json.now)) (array_in (json_view json.now))) result }
{
    if let Some(text) = json.as_txt() {
        return Ok(Operands::Session(variable_at(alloc, path, text)?));
    }
    let Some(list) = json.as_array() else {
        return Err(bad_operand(alloc, path));
    };
    Ok(Operands::List(listed_operands(alloc, test, ty, path, list)?))
}

// A test of the operands at a path.
#[tactic(auto, unfolding(crate::specs::Condition::listed_due))]
fn listed(
    alloc: Global,
    col: ColId,
    ty: Ty,
    operator: Operator,
    path: &Txt,
    json: &Json,
) -> Result<Bexp, FilterRefusal>
    ensures { Gives bexp_view FilterRefusal.Memory (listed_due col ty operator path.now (json_view json.now)) result }
{
    let operands = operands(alloc, operator.test, ty, path, json)?;
    Ok(Bexp::Test {
        col,
        test: operator.test,
        operands,
        negated: operator.negated,
    })
}

// The condition of an operator, whose operand stands at a path.
fn condition(
    alloc: Global,
    col: ColId,
    ty: Ty,
    path: &Txt,
    operator: Option<Operator>,
    json: &Json,
) -> Result<Bexp, FilterRefusal>
    ensures { Gives bexp_view FilterRefusal.Memory (condition_due col ty path.now operator (json_view json.now)) result }
{
    let Some(operator) = operator else {
        return Err(bad_operand(alloc, path));
    };
    if !operator.test.applies(ty) {
        return Err(bad_operand(alloc, path));
    }
    match operator.test.arity() {
        Arity::Nothing => told(alloc, col, operator, path, json),
        Arity::One => single(alloc, col, ty, operator, path, json),
        Arity::Many => listed(alloc, col, ty, operator, path, json),
    }
}

// The condition of the operator of this name, whose operand stands at a path.
fn named_condition(
    alloc: Global,
    scope: &Described,
    t: TableId,
    col: ColId,
    path: &Txt,
    name: &str,
    json: &Json,
) -> Result<Bexp, FilterRefusal>
    ensures { let s = scope_schema scope.now in Gives bexp_view FilterRefusal.Memory
        (named_due (table s t) col (column s t col).ty name.now path.now (json_view json.now) (column_operator_named name.now)) result }
{
    match Op::of_columns(name) {
        Some(op) => compared(alloc, scope, t, col, op, path, json),
        None => condition(
            alloc,
            col,
            scope.column_type(t, col),
            path,
            operator_named(name),
            json,
        ),
    }
}

// The conditions of the operators of the object at a path.
fn conditions(
    alloc: Global,
    scope: &Described,
    t: TableId,
    col: ColId,
    path: &Txt,
    members: &[Member],
) -> Result<BexpList, FilterRefusal>
    ensures { Gives (λ v. map bexp_view v.items) FilterRefusal.Memory
        (each_member (written_on (table (scope_schema scope.now) t) col (column (scope_schema scope.now) t col).ty) path.now
        (map member_view members.now))
        result }
{
    let mut conditions = Vec::new(alloc);
    for member in members {
        member.name.is_text();
        let name = member.name.as_str();
        let path = member_path(alloc, path, name)?;
        let condition = named_condition(alloc, scope, t, col, &path, name, &member.value)?;
        conditions.push(condition)?;
    }
    Ok(conditions)
}

/// The conditions on a column that its member of a filter writes: an object of operators, or a value that it is to
/// equal.
#[tactic(auto, using(crate::proofs::Columns::of_object, crate::proofs::Columns::of_other))]
pub fn conditions_on(
    alloc: Global,
    scope: &Described,
    t: TableId,
    col: ColId,
    path: &Txt,
    json: &Json,
) -> Result<Bexp, FilterRefusal>
    ensures { let s = scope_schema scope.now in Gives bexp_view FilterRefusal.Memory (column_due (table s t) col (column s t col).ty path.now (json_view json.now)) result }
{
    match json.as_object() {
        Some(members) => Ok(Bexp::all_of(conditions(alloc, scope, t, col, path, members)?)),
        None => {
            let equals = Operator {
                test: Test::Compare(Op::Eq),
                negated: false,
            };
            let ty = scope.column_type(t, col);
            condition(alloc, col, ty, path, Some(equals), json)
        }
    }
}
