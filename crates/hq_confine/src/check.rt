//! The verdict on a statement.
ghost use Rattle.std.specs.Prelude.{◌≡◌, IfOk, true};
ghost use Rattle.hq_model.specs.Grants.{grants_of};
ghost use Rattle.hq_model.specs.Meta.{meta_view};
ghost use Rattle.hq_model.specs.Schema.{schema_of};
ghost use Rattle.hq_sql_tree.specs.View.{select_view};
ghost use Rattle.hq_sql_tree.specs.WellFormed.{is_statement};
ghost use Rattle.hq_confine_rules.specs.Faults.{faults, worst};
ghost use Rattle.hq_confine.specs.Verdicts.{told, YesShowsTheView};
ghost use Rattle.hq_confine_uses.specs.Views.{faulted, rules_schema, rules_grants};

use crate::grants::granted_views;
use crate::numbers::write_grants;
use crate::walk::walk_select;
use hq_base::{Memory, Txt};
use hq_confine_uses::{Fault, Rules, Shapes};
use hq_laws_confine::confined_statements_mean_the_same;
use hq_model::{Catalog, Described, Meta, Session};
use hq_sql_tree::Select;
use std::alloc::Global;

/// Whether a statement shows no more than a session's view: else the least rule that it violates, 1 to 6, and the alias of the first
/// place in its text where it does.
#[derive(Drop)]
pub enum Verdict {
    Yes,
    No { rule: u8, alias: Txt },
}

// The verdict by the worst fault.
fn verdict_of(alloc: Global, fault: Option<Fault<'_>>) -> Result<Verdict, Memory>
    ensures { IfOk result (λ verdict. told verdict ≡ faulted fault.entry) }
{
    match fault {
        None => Ok(Verdict::Yes),
        Some(fault) => Ok(Verdict::No {
            rule: fault.rule,
            alias: fault.alias.copy(alloc)?,
        }),
    }
}

// The worst fault of a statement.
fn worst_fault<'d>(
    alloc: Global,
    statement: &'d Select,
    rules: &Rules<'_>,
) -> Result<Option<Fault<'d>>, Memory>
    ensures { IfOk result (λ fault. faulted fault ≡ worst (faults (rules_schema rules.now) (rules_grants rules.now) (select_view statement.now))) }
{
    let walked = walk_select(alloc, statement, rules, &Shapes::Nothing, true)?;
    Ok(walked.fault)
}

/// Whether a well-formed statement, whoever wrote it, shows no more than a session's view: No with the first fault in its text of the
/// least rule that it violates, and Yes exactly where it violates none. Then it means the same over all databases that agree for the
/// session.
pub fn confine(
    alloc: Global,
    statement: &Select,
    catalog: &Catalog,
    meta: &Meta,
    session: &Session,
) -> Result<Verdict, Memory>
    requires { is_statement (select_view statement.now) catalog.now.tables ≡ true }
    ensures verdict { let tables = catalog.now.tables in let meta = meta_view meta.now in
        IfOk result (λ verdict. told verdict ≡ worst (faults (schema_of tables meta) (grants_of session.now tables meta) (select_view statement.now))) }
    ensures same { let tables = catalog.now.tables in let meta = meta_view meta.now in
        IfOk result (λ verdict. YesShowsTheView verdict tables meta (grants_of session.now tables meta) (select_view statement.now)) }
{
    let scope = Described { catalog, meta };
    let views = granted_views(alloc, &scope, session)?;
    let rules = Rules {
        scope,
        grants: &views,
    };
    write_grants(alloc, &rules)?;
    let found = worst_fault(alloc, statement, &rules)?;
    confined_statements_mean_the_same();
    verdict_of(alloc, found)
}
