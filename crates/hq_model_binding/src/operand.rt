ghost use Rattle.std.specs.Prelude.{◌≡◌, ◌⊎◌};
ghost use Rattle.hq_base.specs.Due.{Gives};
ghost use Rattle.hq_model.specs.Binding.{variable, constant, constants_of, bound_operand, bound_each, bound_operands};
ghost use Rattle.hq_model.specs.Tests.{reads};
ghost use Rattle.hq_model.specs.declared.bind.BindRefusal.TheVariants as refusal;

use crate::session_list::{list_want, listed_values};
use hq_base::{List, Txt, Ty};
use hq_model::{
    BindRefusal, Operand, OperandList, Operands, Session, Test, TryCopy, Want, read_operand,
};
use std::alloc::Global;

// The refusal of a variable whose text is not what is wanted.
fn bad_variable(alloc: Global, name: &Txt, want: Want) -> BindRefusal
    ensures { (result ≡ refusal.Memory) ⊎ (result ≡ refusal.BadVariable name.now want) }
{
    match name.copy(alloc) {
        Ok(name) => BindRefusal::BadVariable { name, want },
        Err(_) => BindRefusal::Memory,
    }
}

fn no_variable(alloc: Global, name: &Txt) -> BindRefusal
    ensures { (result ≡ refusal.Memory) ⊎ (result ≡ refusal.NoVariable name.now) }
{
    match name.copy(alloc) {
        Ok(name) => BindRefusal::NoVariable { name },
        Err(_) => BindRefusal::Memory,
    }
}

// The constant that a variable's text is, for a test of a column of a type.
fn constant(
    alloc: Global,
    test: Test,
    ty: Ty,
    name: &Txt,
    text: &Txt,
) -> Result<Operand, BindRefusal>
    ensures { Gives (λ o. o) refusal.Memory (constant name.now (reads test ty text.now)) result }
{
    match read_operand(alloc, test, ty, text)? {
        Ok(value) => Ok(Operand::Const(value)),
        Err(want) => Err(bad_variable(alloc, name, want)),
    }
}

// An operand of a test of a column of this type, bound.
fn bind_operand(
    alloc: Global,
    session: &Session,
    test: Test,
    ty: Ty,
    operand: &Operand,
) -> Result<Operand, BindRefusal>
    ensures { Gives (λ o. o) refusal.Memory (bound_operand (reads test ty) session.now.vars operand.now) result }
{
    match operand {
        Operand::Const(value) => Ok(Operand::Const(value.try_copy(alloc)?)),
        Operand::Session(name) => match session.var(name) {
            Some(text) => constant(alloc, test, ty, name, text),
            None => Err(no_variable(alloc, name)),
        },
    }
}

// The operands of a list, bound.
fn bind_each(
    alloc: Global,
    session: &Session,
    test: Test,
    ty: Ty,
    operands: &OperandList,
) -> Result<OperandList, BindRefusal>
    ensures { Gives (λ os. os) refusal.Memory (bound_each (reads test ty) session.now.vars operands.now) result }
{
    let mut bound = List::new(alloc);
    for operand in operands.as_slice() {
        bound.push(bind_operand(alloc, session, test, ty, operand)?)?;
    }
    Ok(bound)
}

// The constants that a variable's text lists, for a test of a column of a type.
fn constants(
    alloc: Global,
    test: Test,
    ty: Ty,
    name: &Txt,
    text: &Txt,
) -> Result<OperandList, BindRefusal>
    ensures { Gives (λ os. os) refusal.Memory (constants_of test ty name.now (Some text.now)) result }
{
    match listed_values(alloc, test, ty, text)? {
        Some(values) => Ok(values),
        None => Err(bad_variable(alloc, name, list_want(ty))),
    }
}

// The constants that a variable lists.
fn bind_list(
    alloc: Global,
    session: &Session,
    test: Test,
    ty: Ty,
    name: &Txt,
) -> Result<OperandList, BindRefusal>
    ensures { Gives (λ os. os) refusal.Memory (constants_of test ty name.now (variable session.now.vars name.now)) result }
{
    match session.var(name) {
        Some(text) => constants(alloc, test, ty, name, text),
        None => Err(no_variable(alloc, name)),
    }
}

/// The operands of a test of a column of this type, bound.
pub fn bind_operands(
    alloc: Global,
    session: &Session,
    test: Test,
    ty: Ty,
    operands: &Operands,
) -> Result<Operands, BindRefusal>
    ensures { Gives (λ os. os) refusal.Memory (bound_operands test ty session.now.vars operands.now) result }
{
    match operands {
        Operands::List(operands) => Ok(Operands::List(bind_each(
            alloc, session, test, ty, operands,
        )?)),
        Operands::Session(name) => {
            Ok(Operands::List(bind_list(alloc, session, test, ty, name)?))
        }
    }
}
