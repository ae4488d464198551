//! Whole links: equations of the columns of two scans, one for each pair of a relationship.
ghost use Rattle.std.specs.Prelude.{◌≡◌, ◌∷◌, [], map, bytes_eq, option_map};
ghost use Rattle.std.specs.List.{list_all, list_any};
ghost use Rattle.hq_model.specs.Schema.{table};
ghost use Rattle.hq_sql_tree.specs.View.{expr_view, pred_view};
ghost use Rattle.hq_translation.specs.Looks.{name_of};
ghost use Rattle.hq_confine_rules.specs.Members.{equation_between, equation, is_equation_of, is_for_pair, is_whole_link, links_shape, is_linking};
ghost use Rattle.hq_confine_rules.specs.Origins.{shape_at};
ghost use Rattle.hq_confine_members.specs.Views.{equation_view, preds_view};
ghost use Rattle.hq_confine_uses.specs.Views.{rules_schema, shapes_view};

use hq_base::Txt;
use hq_confine_uses::{Rules, Shape, Shapes, shape_at};
use hq_model::{ColId, Op, Pair, Rel, Test};
use hq_sql_tree::{Expr, ExprList, Pred};

/// An equation of two columns.
#[derive(Clone, Copy)]
pub(crate) struct Equation<'d> {
    pub remote_alias: &'d Txt,
    pub remote_name: &'d Txt,
    pub own_alias: &'d Txt,
    pub own_name: &'d Txt,
}

/// Two scans that may be linked: their tables by their places, and their aliases.
#[derive(Clone, Copy)]
pub(crate) struct Scans<'d> {
    pub table: usize,
    pub own_table: usize,
    pub alias: &'d Txt,
    pub own_alias: &'d Txt,
}

// The equation of two columns.
fn equation_of_two<'d>(one: &'d Expr, other: &'d Expr) -> Option<Equation<'d>>
    ensures { option_map equation_view result ≡ equation_between (expr_view one.now) (expr_view other.now ∷ []) }
{
    match one {
        Expr::Column { alias, name, .. } => match other {
            Expr::Column {
                alias: own_alias,
                name: own_name,
                ..
            } => Some(Equation {
                remote_alias: alias,
                remote_name: name,
                own_alias,
                own_name,
            }),
            _ => None,
        },
        _ => None,
    }
}

fn equation_between<'d>(one: &'d Expr, operands: &'d ExprList) -> Option<Equation<'d>>
    ensures { option_map equation_view result ≡ equation_between (expr_view one.now) (map expr_view operands.now.items) }
{
    if operands.len() == 1 {
        equation_of_two(one, &operands[0])
    } else {
        None
    }
}

// The equation that a conjunct is.
fn equation_of(pred: &Pred) -> Option<Equation<'_>>
    ensures { option_map equation_view result ≡ equation (pred_view pred.now) }
{
    match pred {
        Pred::Test {
            value,
            test,
            operands,
        } => match test {
            Test::Compare(Op::Eq) => equation_between(value, operands),
            _ => None,
        },
        _ => None,
    }
}

// Whether a column of a table has this name.
fn is_name_of(rules: &Rules<'_>, t: usize, c: ColId, name: &Txt) -> bool
    ensures { result ≡ bytes_eq (name_of (table (rules_schema rules.now) t).columns c) name.now }
{
    match rules.columns(t).get(c.at()) {
        Some(column) => column.name == *name,
        None => name.as_str().is_empty(),
    }
}

// Whether an equation is that of a pair of columns of two scans.
fn is_equation_of(
    rules: &Rules<'_>,
    scans: &Scans<'_>,
    pair: &Pair,
    equation: &Equation<'_>,
) -> bool
    ensures { result ≡ is_equation_of (rules_schema rules.now) scans.now.table scans.now.own_table scans.now.alias.now scans.now.own_alias.now pair.now (equation_view equation.now) }
{
    *equation.remote_alias == *scans.alias
        && *equation.own_alias == *scans.own_alias
        && is_name_of(rules, scans.table, pair.remote, equation.remote_name)
        && is_name_of(rules, scans.own_table, pair.own, equation.own_name)
}

fn is_for_pair(rules: &Rules<'_>, scans: &Scans<'_>, pair: &Pair, pred: &Pred) -> bool
    ensures { result ≡ is_for_pair (rules_schema rules.now) scans.now.table scans.now.own_table scans.now.alias.now scans.now.own_alias.now pair.now (equation (pred_view pred.now)) }
{
    match equation_of(pred) {
        Some(found) => is_equation_of(rules, scans, pair, &found),
        None => false,
    }
}

// Whether the conjuncts have the equation of a pair.
fn have_pair(rules: &Rules<'_>, all: &[&Pred], scans: &Scans<'_>, pair: &Pair) -> bool
    ensures { let s = rules_schema rules.now in let x = scans.now in
        result ≡ list_any (λ c. is_for_pair s x.table x.own_table x.alias.now x.own_alias.now pair.now (equation c)) (preds_view all.now) }
{
    for pred in all {
        if is_for_pair(rules, scans, pair, pred) {
            return true;
        }
    }
    false
}

// Whether the conjuncts have the equation of each pair.
fn have_pairs(rules: &Rules<'_>, all: &[&Pred], scans: &Scans<'_>, pairs: &[Pair]) -> bool
    ensures { let s = rules_schema rules.now in let x = scans.now in
        result ≡ list_all (λ p. list_any (λ c. is_for_pair s x.table x.own_table x.alias.now x.own_alias.now p (equation c)) (preds_view all.now)) pairs.now }
{
    for pair in pairs {
        if !have_pair(rules, all, scans, pair) {
            return false;
        }
    }
    true
}

// Whether an equation is that of one of these pairs.
fn is_of_pairs(
    rules: &Rules<'_>,
    scans: &Scans<'_>,
    pairs: &[Pair],
    equation: &Equation<'_>,
) -> bool
    ensures { let s = rules_schema rules.now in let x = scans.now in
        result ≡ list_any (λ p. is_equation_of s x.table x.own_table x.alias.now x.own_alias.now p (equation_view equation.now)) pairs.now }
{
    for pair in pairs {
        if is_equation_of(rules, scans, pair, equation) {
            return true;
        }
    }
    false
}

// Whether an equation is one of a whole link by this relationship of the own table.
fn is_whole_link(
    rules: &Rules<'_>,
    all: &[&Pred],
    scans: &Scans<'_>,
    equation: &Equation<'_>,
    rel: &Rel,
) -> bool
    ensures { let x = scans.now in
        result ≡ is_whole_link (rules_schema rules.now) (preds_view all.now) x.table x.own_table x.alias.now x.own_alias.now (equation_view equation.now) rel.now }
{
    let pairs = rel.pairs.as_slice();
    rel.remote.at() == scans.table
        && is_of_pairs(rules, scans, pairs, equation)
        && have_pairs(rules, all, scans, pairs)
}

// Whether an equation is one of a whole link by some relationship of the own table.
fn is_some_link(
    rules: &Rules<'_>,
    all: &[&Pred],
    scans: &Scans<'_>,
    equation: &Equation<'_>,
) -> bool
    ensures { let s = rules_schema rules.now in let x = scans.now in
        result ≡ list_any (is_whole_link s (preds_view all.now) x.table x.own_table x.alias.now x.own_alias.now (equation_view equation.now)) (table s x.own_table).rels }
{
    for rel in rules.rels(scans.own_table) {
        if is_whole_link(rules, all, scans, equation, rel) {
            return true;
        }
    }
    false
}

// Whether an equation is one of a whole link from the scan of another alias in scope.
fn links_scan(
    rules: &Rules<'_>,
    scope: &Shapes<'_, '_>,
    all: &[&Pred],
    t: usize,
    alias: &Txt,
    equation: &Equation<'_>,
) -> bool
    ensures { let q = equation_view equation.now in let scope = shapes_view scope.now in
        result ≡ links_shape (rules_schema rules.now) (preds_view all.now) t alias.now q (shape_at scope q.own_alias) }
{
    match shape_at(*scope, equation.own_alias) {
        Some(Shape::Scan(own)) => {
            let scans = Scans {
                table: t,
                own_table: *own,
                alias,
                own_alias: equation.own_alias,
            };
            is_some_link(rules, all, &scans, equation)
        }
        Some(Shape::Outputs(_)) => false,
        None => false,
    }
}

/// Whether a conjunct is an equation of a whole link from another scan in scope to the scan of table `t` at this alias.
pub fn is_linking(
    rules: &Rules<'_>,
    scope: &Shapes<'_, '_>,
    all: &[&Pred],
    t: usize,
    alias: &Txt,
    pred: &Pred,
) -> bool
    ensures { result ≡ is_linking (rules_schema rules.now) (shapes_view scope.now) (preds_view all.now) t alias.now (equation (pred_view pred.now)) }
{
    match equation_of(pred) {
        Some(found) => {
            *alias != *found.own_alias && links_scan(rules, scope, all, t, alias, &found)
        }
        None => false,
    }
}
