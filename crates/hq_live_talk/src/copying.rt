ghost use Rattle.std.specs.Prelude.{◌≡◌, IfOk};

use hq_base::{List, Memory};
use hq_model::{Session, Var, VarList};
use std::alloc::Global;

fn copy_var(alloc: Global, var: &Var) -> Result<Var, Memory>
    ensures { IfOk result (λ copy. copy ≡ var.now) }
{
    let name = var.name.copy(alloc)?;
    let value = var.value.copy(alloc)?;
    Ok(Var { name, value })
}

fn copy_vars(alloc: Global, vars: &VarList) -> Result<VarList, Memory>
    ensures { IfOk result (λ copy. copy ≡ vars.now) }
{
    let mut copy = List::new(alloc);
    'vars: for var in vars.as_slice() {
        copy.push(copy_var(alloc, var)?)?;
    }
    Ok(copy)
}

/// An equal session.
pub fn copy_session(alloc: Global, session: &Session) -> Result<Session, Memory>
    ensures { IfOk result (λ copy. copy ≡ session.now) }
{
    let role = session.role.copy(alloc)?;
    let vars = copy_vars(alloc, &session.vars)?;
    Ok(Session { role, vars })
}
