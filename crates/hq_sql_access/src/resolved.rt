//! What an alias in scope stands for.
ghost use Rattle.std.specs.Prelude.{◌≡◌, ◌+◌, ◌≤◌, map, option_map};
ghost use Rattle.hq_sql_conjuncts.specs.Weight.{total, join_weight};
ghost use Rattle.hq_sql_tree.specs.Meaning.{World};
ghost use Rattle.hq_sql_tree.specs.Tree.{joins_of};
ghost use Rattle.hq_sql_tree.specs.View.{join_view};
ghost use Rattle.hq_sql_access.specs.Resolved.{resolved_row, resolved_weight};
ghost use Rattle.hq_sql_access.specs.View.{beside, made_view, scope_of};
ghost use Rattle.hq_sql_access.specs.Weight.{scope_weight};

use crate::place::joined_at;
use crate::row::{Made, Row};
use crate::scope::Scope;
use hq_base::Txt;
use hq_sql_tree::{Join, Select};

/// What an alias stands for.
#[derive(Clone, Copy)]
pub enum Resolved<'s, 'd> {
    /// It is not in scope.
    Missing,
    /// A row.
    Lent(Row<'s, 'd>),
    /// The first row of a select in its scope.
    First {
        select: &'d Select,
        scope: Scope<'s, 'd>,
    },
}

/// What an alias stands for in a scope: the innermost one of its name decides.
#[cycle(resolve)]
pub fn resolve<'s, 'd>(scope: Scope<'s, 'd>, alias: &Txt) -> Resolved<'s, 'd>
    ensures row { (w : World) → (scope_of scope.entry w) alias.now ≡ resolved_row result w }
    ensures weight { resolved_weight result ≤ scope_weight scope.entry }
{
    match scope {
        Scope::Nothing => Resolved::Missing,
        Scope::Bound {
            alias: bound,
            row,
            outer,
        } => {
            if *bound == *alias {
                Resolved::Lent(row)
            } else {
                resolve(*outer, alias)
            }
        }
        Scope::Later {
            alias: bound,
            select,
            outer,
        } => {
            if *bound == *alias {
                Resolved::First {
                    select,
                    scope: *outer,
                }
            } else {
                resolve(*outer, alias)
            }
        }
        Scope::Joined { joins, rows, outer } => resolve_joined(joins, rows, outer, alias),
    }
}

// The same where these joins stand in the scope.
#[cycle(resolve)]
fn resolve_joined<'s, 'd>(
    joins: &'d [Join],
    rows: &'s [Option<Made<'d>>],
    outer: &'s Scope<'s, 'd>,
    alias: &Txt,
) -> Resolved<'s, 'd>
    ensures row { (w : World) → beside (joins_of (map join_view joins.now)) w (scope_of outer.now w) (map (option_map made_view) rows.now) alias.now ≡ resolved_row result w }
    ensures weight { resolved_weight result ≤ 1 + (total (map join_weight joins.now) + scope_weight outer.now) }
{
    match joins.split_last() {
        None => resolve(*outer, alias),
        Some((join, before)) => {
            if join.alias != *alias {
                return resolve_joined(before, rows, outer, alias);
            }
            match joined_at(rows, before.len()) {
                Some(row) => Resolved::Lent(Row::Made { cells: &row.cells }),
                None => Resolved::First {
                    select: &join.select,
                    scope: Scope::Joined {
                        joins: before,
                        rows,
                        outer,
                    },
                },
            }
        }
    }
}
