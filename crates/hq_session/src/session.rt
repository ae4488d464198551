ghost use Rattle.std.specs.Prelude.{◌≡◌, ◌++◌, ◌∷◌, [], List as Items, false, IfOk, OnOk, cond, option_copied};
ghost use Rattle.hq_base.specs.Text.{has_zero};
ghost use Rattle.hq_model.specs.declared.session.Var.{Var};
ghost use Rattle.hq_session.specs.Sessions.{value_of, role_in, role_variable, is_variable, variable_of, has_variable, new_variables, variables_in, session_of};

use crate::{Header, Headers};
use hq_base::{List, Memory, Txt};
use hq_model::{Session, Var, VarList};
use std::alloc::Global;

// The name of the role's header.
const ROLE_NAME: &str = "x-hasura-role";

// A text that is written here.
fn text(alloc: Global, piece: &str) -> Result<Txt, Memory>
    requires { has_zero piece.now ≡ false }
    ensures { IfOk result (λ text. text ≡ piece.now) }
{
    let mut text = Txt::new(alloc);
    text.push_str(piece)?;
    Ok(text)
}

/// The value of the first header of this name, which is in lower case.
pub fn first_named<'a>(
    alloc: Global,
    headers: &'a Headers,
    name: &str,
) -> Result<Option<&'a Txt>, Memory>
    requires { has_zero name.now ≡ false }
    ensures { IfOk result (λ value. option_copied value ≡ value_of headers.now name.now) }
{
    let name = text(alloc, name)?;
    Ok(headers.first(&name))
}

// The role that the headers name.
fn role_in(alloc: Global, headers: &Headers) -> Result<Txt, Memory>
    ensures { IfOk result (λ role. role ≡ role_in headers.now) }
{
    match first_named(alloc, headers, ROLE_NAME)? {
        Some(role) => role.copy(alloc),
        None => text(alloc, "admin"),
    }
}

// Whether a header of this name is a session variable.
fn is_variable(name: &Txt) -> bool
    ensures { result ≡ is_variable name.now }
{
    name.as_str().starts_with("x-hasura-") && name.as_str() != "x-hasura-admin-secret"
}

// Whether a variable of this name is there.
fn has_variable(vars: &VarList, name: &Txt) -> bool
    ensures { result ≡ has_variable vars.now name.now }
{
    for var in vars.as_slice() {
        if var.name == *name {
            return true;
        }
    }
    false
}

// A variable of this name and value.
fn variable(alloc: Global, name: &Txt, value: &Txt) -> Result<Var, Memory>
    ensures { IfOk result (λ var. var ≡ record { name = name.now; value = value.now }) }
{
    let name = name.copy(alloc)?;
    Ok(Var {
        name,
        value: value.copy(alloc)?,
    })
}

// Adds the variable that a header is, unless its name is there.
fn add_variable(alloc: Global, vars: &mut VarList, header: &Header) -> Result<(), Memory>
    ensures { OnOk result ((rest : Items Var) → vars.new ++ new_variables vars.new rest
        ≡ vars.old ++ new_variables vars.old (cond (is_variable header.now.name) (variable_of header.now ∷ rest) rest)) }
{
    if !is_variable(&header.name) || has_variable(vars, &header.name) {
        return Ok(());
    }
    vars.push(variable(alloc, &header.name, &header.value)?)
}

/// The variable that a role is, alone.
pub fn role_variable(alloc: Global, role: &Txt) -> Result<VarList, Memory>
    ensures { IfOk result (λ vars. vars ≡ role_variable role.now ∷ []) }
{
    let name = text(alloc, ROLE_NAME)?;
    let var = variable(alloc, &name, role)?;
    let mut vars = List::new(alloc);
    vars.push(var)?;
    Ok(vars)
}

// The variables of headers, after that of the role.
fn variables(alloc: Global, headers: &Headers, role: &Txt) -> Result<VarList, Memory>
    requires { role.now ≡ role_in headers.now }
    ensures { IfOk result (λ vars. vars ≡ variables_in headers.now) }
{
    let mut vars = role_variable(alloc, role)?;
    for header in headers.as_slice() {
        add_variable(alloc, &mut vars, header)?;
    }
    Ok(vars)
}

impl Headers {
    /// The session of the headers. Its role is the value of `x-hasura-role`, or `admin` where there is none. Its variables
    /// are the headers whose name begins with `x-hasura-`, but for `x-hasura-admin-secret`, each name once with its first
    /// value; `x-hasura-role` is always one of them.
    pub fn session(&self, alloc: Global) -> Result<Session, Memory>
        ensures { IfOk result (λ session. session ≡ session_of self.now) }
    {
        let role = role_in(alloc, self)?;
        let vars = variables(alloc, self, &role)?;
        Ok(Session { role, vars })
    }
}
