ghost use Rattle.std.specs.Prelude.{◌≡◌, IfOk};
ghost use Rattle.hq_base.specs.Due.{Gives};
ghost use Rattle.hq_base.specs.Json.{json_view};
ghost use Rattle.hq_model.specs.Tests.{reads};
ghost use Rattle.hq_load_filter.specs.Operand.{text_operand, operand_of, truth_in, operand_at, operand_read};

use crate::FilterRefusal;
use crate::refusal::bad_operand;
use crate::variable::variable_named;
use hq_base::{Json, Memory, Txt, Ty};
use hq_model::{Operand, Test, constant_in, read_operand, truth_value};
use std::alloc::Global;

// The operand that a text is, for a test of a column of a type.
#[tactic(auto, unfolding(crate::specs::Operand::text_operand))]
fn text_operand(alloc: Global, test: Test, ty: Ty, text: &Txt) -> Result<Option<Operand>, Memory>
    ensures { IfOk result (λ operand. operand ≡ text_operand (reads test ty) text.now) }
{
    if let Some(name) = variable_named(alloc, text)? {
        return Ok(Some(Operand::Session(name)));
    }
    match read_operand(alloc, test, ty, text)? {
        Ok(value) => Ok(Some(Operand::Const(value))),
        Err(_) => Ok(None),
    }
}

// The operand that a value is, for a test of a column of a type.
#[tactic(auto, unfolding(crate::specs::Operand::operand_of))]
fn operand_of(alloc: Global, test: Test, ty: Ty, json: &Json) -> Result<Option<Operand>, Memory>
    ensures { IfOk result (λ operand. operand ≡ operand_of test ty (json_view json.now)) }
{
    match json {
        Json::Str(text) => text_operand(alloc, test, ty, text),
        Json::Null | Json::Bool(_) | Json::Int(_) | Json::Arr(_) | Json::Obj(_) => {
            Ok(constant_in(alloc, ty, json)?.map(Operand::Const))
        }
    }
}

// The truth value that a value is, or is read as.
#[tactic(auto, unfolding(crate::specs::Operand::truth_in))]
fn truth_in(json: &Json) -> Option<bool>
    ensures { result ≡ truth_in (json_view json.now) }
{
    match json {
        Json::Bool(b) => Some(*b),
        Json::Str(text) => truth_value(text.as_str()),
        _ => None,
    }
}

/// The operand at a path, of a test of a column of a type.
pub fn operand_at(
    alloc: Global,
    test: Test,
    ty: Ty,
    path: &Txt,
    json: &Json,
) -> Result<Operand, FilterRefusal>
    ensures { Gives (λ o. o) FilterRefusal.Memory (operand_at test ty path.now (json_view json.now)) result }
{
    match operand_of(alloc, test, ty, json)? {
        Some(operand) => Ok(operand),
        None => Err(bad_operand(alloc, path)),
    }
}

/// The truth value at a path.
pub fn truth_at(alloc: Global, path: &Txt, json: &Json) -> Result<bool, FilterRefusal>
    ensures { Gives (λ b. b) FilterRefusal.Memory (operand_read path.now (truth_in (json_view json.now))) result }
{
    match truth_in(json) {
        Some(truth) => Ok(truth),
        None => Err(bad_operand(alloc, path)),
    }
}
