//! Where a column may stand, by where its cell comes from.
ghost use Rattle.std.specs.Prelude.{◌≡◌, ◌&&◌, not};
ghost use Rattle.hq_model.specs.Grants.{grant};
ghost use Rattle.hq_confine_rules.specs.Faults.{worst};
ghost use Rattle.hq_confine_rules.specs.Members.{has_mask, is_permitted};
ghost use Rattle.hq_confine_rules.specs.Origins.{origin_at};
ghost use Rattle.hq_confine_rules.specs.Uses.{is_plain, may_pass, rule_of_column, rule_of, column_faults, needs};
ghost use Rattle.hq_confine_uses.specs.Views.{faulted, origin_view, shapes_view, rules_schema, rules_grants};

use crate::faults::{Fault, missing};
use crate::known::Rules;
use crate::origins::{Cell, origin_at};
use crate::scope::Shapes;
use hq_base::Txt;

// Whether a column is permitted and has no mask.
fn is_shown(rules: &Rules<'_>, t: usize, c: usize) -> bool
    ensures { let p = grant (rules_grants rules.now) t in result ≡ (is_permitted p c && not (has_mask p c)) }
{
    rules.is_permitted(t, c) && rules.mask(t, c).is_none()
}

// Whether both databases of one view show the cell alike: one that the statement makes, or of a shown column.
fn is_plain(rules: &Rules<'_>, cell: &Option<Cell<'_, '_>>) -> bool
    ensures { result ≡ is_plain (rules_grants rules.now) (origin_view cell.now) }
{
    match cell {
        None => true,
        Some(cell) => is_shown(rules, cell.table, cell.column),
    }
}

// Whether the cell may stand as an output of its own: also that of a key column.
fn may_pass(rules: &Rules<'_>, cell: &Option<Cell<'_, '_>>) -> bool
    ensures { result ≡ may_pass (rules_schema rules.now) (rules_grants rules.now) (origin_view cell.now) }
{
    match cell {
        None => true,
        Some(found) => is_plain(rules, cell) || rules.is_key(found.table, found.column),
    }
}

// The rule that a column of a scan violates where it may not stand.
fn rule_of_column(rules: &Rules<'_>, t: usize, c: usize) -> u8
    ensures { result ≡ rule_of_column (rules_schema rules.now) (rules_grants rules.now) t c }
{
    if rules.is_permitted(t, c) {
        4
    } else if rules.is_key(t, c) {
        5
    } else {
        3
    }
}

// The rule that a cell violates where it may not stand.
fn rule_of(rules: &Rules<'_>, cell: &Option<Cell<'_, '_>>) -> u8
    ensures { result ≡ rule_of (rules_schema rules.now) (rules_grants rules.now) (origin_view cell.now) }
{
    match cell {
        None => 5,
        Some(cell) => {
            if cell.path.rest.is_empty() {
                rule_of_column(rules, cell.table, cell.column)
            } else {
                5
            }
        }
    }
}

/// The fault of a column that is looked at.
pub(crate) fn column_fault<'d>(
    rules: &Rules<'_>,
    scope: &Shapes<'_, 'd>,
    alias: &'d Txt,
    name: &Txt,
) -> Option<Fault<'d>>
    ensures { faulted result ≡ worst (column_faults (rules_schema rules.now) (rules_grants rules.now) (shapes_view scope.now) alias.now name.now) }
{
    let cell = origin_at(rules, scope, alias, name);
    missing(is_plain(rules, &cell), rule_of(rules, &cell), alias)
}

/// The fault of a column that is an output of its own.
pub(crate) fn passed_fault<'d>(
    rules: &Rules<'_>,
    scope: &Shapes<'_, 'd>,
    alias: &'d Txt,
    name: &Txt,
) -> Option<Fault<'d>>
    ensures { let s = rules_schema rules.now in let g = rules_grants rules.now in let o = origin_at s (shapes_view scope.now) alias.now name.now in
        faulted result ≡ worst (needs (may_pass s g o) (rule_of s g o) alias.now) }
{
    let cell = origin_at(rules, scope, alias, name);
    missing(may_pass(rules, &cell), rule_of(rules, &cell), alias)
}
