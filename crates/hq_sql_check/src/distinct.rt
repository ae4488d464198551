//! DISTINCT ON: some keys at the front of ORDER BY are, as a set, its expressions.
ghost use Rattle.std.specs.Prelude.{◌≡◌, ◌≤◌, ◌&&◌, [], map, length};
ghost use Rattle.std.specs.List.{list_all};
ghost use Rattle.hq_sql_tree.specs.View.{expr_view, order_view};
ghost use Rattle.hq_sql_tree.specs.WellFormed.{same_expr, is_among, begin_with};
ghost use Rattle.hq_sql_check.specs.Fronts.{key_values, front_among};

use hq_sql_tree::{Expr, Order};

// Whether these are equal expressions, of those that are sorted by.
fn same_expr(a: &Expr, b: &Expr) -> bool
    ensures { result ≡ same_expr (expr_view a.now) (expr_view b.now) }
{
    match (a, b) {
        (
            Expr::Column { alias, name, form },
            Expr::Column {
                alias: other_alias,
                name: other_name,
                form: other_form,
            },
        ) => {
            alias.as_bytes() == other_alias.as_bytes()
                && name.as_bytes() == other_name.as_bytes()
                && form.is_same(*other_form)
        }
        (Expr::Int(n), Expr::Int(m)) => *n == *m,
        (Expr::Text(s), Expr::Text(t)) => s.as_bytes() == t.as_bytes(),
        (Expr::Uuid(s), Expr::Uuid(t)) => s.as_bytes() == t.as_bytes(),
        (Expr::Bool(b), Expr::Bool(c)) => *b == *c,
        _ => false,
    }
}

// Whether an expression is among these.
fn is_among(exprs: &[Expr], value: &Expr) -> bool
    ensures { result ≡ is_among (map expr_view exprs.now) (expr_view value.now) }
{
    for expr in exprs {
        if same_expr(value, expr) {
            return true;
        }
    }
    false
}

// Whether an expression is among those of these keys.
fn is_key(keys: &[Order], value: &Expr) -> bool
    ensures { result ≡ is_among (key_values (map order_view keys.now)) (expr_view value.now) }
{
    for key in keys {
        if same_expr(value, &key.value) {
            return true;
        }
    }
    false
}

// Whether each expression is among those of these keys.
fn are_keys(keys: &[Order], exprs: &[Expr]) -> bool
    ensures { result ≡ list_all (is_among (key_values (map order_view keys.now))) (map expr_view exprs.now) }
{
    for expr in exprs {
        if !is_key(keys, expr) {
            return false;
        }
    }
    true
}

// How many keys at the front are all among these expressions.
fn front_among(exprs: &[Expr], keys: &[Order]) -> usize
    ensures front { result ≡ front_among (map expr_view exprs.now) (map order_view keys.now) }
    ensures within { result ≤ length keys.now }
{
    let mut front = 0;
    for key in keys {
        if !is_among(exprs, &key.value) {
            return front;
        }
        front += 1;
    }
    front
}

/// Whether the keys begin with some that are, as a set, the expressions of DISTINCT ON.
pub(crate) fn begin_with(distinct: &[Expr], keys: &[Order]) -> bool
    ensures { result ≡ begin_with (map expr_view distinct.now) [] (map order_view keys.now) }
{
    let front = front_among(distinct, keys);
    are_keys(&keys[..front], distinct)
}
