//! Filters and masks as conditions, at the alias of number 0.
ghost use Rattle.std.specs.Prelude.{◌≡◌, ◌+◌, ◌^◌, ◌≤◌, IfOk, OnOk};
ghost use Rattle.hq_model.specs.Bexp.{bexp_view};
ghost use Rattle.hq_sql_tree.specs.View.{pred_view};
ghost use Rattle.hq_translation.specs.Masks.{filter_predicate};
ghost use Rattle.hq_translation.specs.Predicates.{own_numbers, own_predicate};
ghost use Rattle.hq_translation.specs.GrantedTables.{granted_of};
ghost use Rattle.hq_confine_uses.specs.Views.{rules_schema, rules_grants};

use hq_base::{List, Memory};
use hq_compile_predicates::own_predicate;
use hq_compile_tables::Context;
use hq_confine_uses::Rules;
use hq_model::{Bexp, TableId};
use hq_sql_tree::Pred;
use std::alloc::Global;

// A number is one of 64 bits.
fn has_64_bits(number: u64)
    ensures { number ≤ 2 ^ 64 }
{}

/// A filter or a mask of table `t` as a condition. It takes no more numbers of aliases than there are.
pub(crate) fn own_condition(
    alloc: Global,
    rules: &Rules<'_>,
    t: usize,
    bexp: &Bexp,
) -> Result<Pred, Memory>
    ensures predicate { IfOk result (λ p. pred_view p ≡ own_predicate (bexp_view bexp.now) (rules_schema rules.now) t 0 1) }
    ensures numbers { OnOk result (1 + own_numbers (bexp_view bexp.now) (rules_schema rules.now) t ≤ 2 ^ 64) }
{
    let nothing = List::new(alloc);
    let context = Context {
        scope: rules.scope,
        granted: &nothing,
    };
    let mut next = 1;
    let own = own_predicate(alloc, &context, TableId::new(t), 0, bexp, &mut next)?;
    has_64_bits(next);
    Ok(own)
}

/// The filter of table `t` as a condition: never true where nothing is granted of the table.
pub(crate) fn filter_condition(alloc: Global, rules: &Rules<'_>, t: usize) -> Result<Pred, Memory>
    ensures { IfOk result (λ p. pred_view p ≡ filter_predicate (rules_schema rules.now) (granted_of (rules_grants rules.now)) t 0 1) }
{
    match rules.grant(t) {
        Some(granted) => own_condition(alloc, rules, t, &granted.filter),
        None => Ok(Pred::Not(Box::new(alloc, Pred::True)?)),
    }
}
