//! The requests that are answered over a generated database, and who asks.
ghost use Rattle.std.specs.Prelude.{◌≡◌, ◌≤◌, false, length, map, All, IfOk};
ghost use Rattle.hq_base.specs.Text.{has_zero};
ghost use Rattle.hq_generator.specs.Requests.{caller, requests, variable_of};

use crate::text::text;
use hq_base::{List, Memory};
use hq_model::{Session, Var};
use std::alloc::Global;

/// The bodies of the requests, in order.
pub fn requests() -> [&'static str; 5]
    ensures bodies { map (λ body. body.now) result ≡ requests }
    ensures short { All (λ body. length body.now ≤ 1048576) result }
{
    [
        "{\"query\":\"{author(limit:10){id name}}\"}",
        "{\"query\":\"{article_aggregate{aggregate{count sum{rating}}}}\"}",
        "{\"query\":\"{author(limit:100,order_by:{name:asc}){id articles{id title}}}\"}",
        "{\"query\":\"{article(where:{author:{name:{_like:\\\"a1%\\\"}}},limit:50){id author{name}}}\"}",
        "{\"query\":\"{article(distinct_on:rating){rating id}}\"}",
    ]
}

// A session variable.
fn variable(alloc: Global, name: &str, value: &str) -> Result<Var, Memory>
    requires name { has_zero name.now ≡ false }
    requires value { has_zero value.now ≡ false }
    ensures { IfOk result (λ var. var ≡ variable_of name.now value.now) }
{
    Ok(Var {
        name: text(alloc, name)?,
        value: text(alloc, value)?,
    })
}

/// Who asks: the user of number 1.
pub fn caller(alloc: Global) -> Result<Session, Memory>
    ensures { IfOk result (λ session. session ≡ caller) }
{
    let role = text(alloc, "user")?;
    let mut vars = List::new(alloc);
    vars.push(variable(alloc, "x-hasura-role", "user")?)?;
    vars.push(variable(alloc, "x-hasura-user-id", "1")?)?;
    Ok(Session { role, vars })
}
