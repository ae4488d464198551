//! Conditions that ask one column of a table to be like a pattern which the statement has read: the column and the matcher are found
//! once, and they are tried at the values of the rows.
ghost use Rattle.std.specs.Prelude.{◌≡◌, ◌∷◌, [], map, IfSome};
ghost use Rattle.hq_model.specs.declared.test.Test.TheVariants as test_of;
ghost use Rattle.hq_sql_constants.specs.LikeTests.{IsLikeTest, told};
ghost use Rattle.hq_sql_tree.specs.Tree.{test as tested, text as text_of};
ghost use Rattle.hq_sql_tree.specs.View.{expr_view, pred_view};

use crate::plain::cell_in;
use hq_base::{Txt, Val};
use hq_like::Matcher;
use hq_model::{ColId, Column, Test, Truth};
use hq_sql_scans::likes::{like_truth, matcher_of};
use hq_sql_scans::links::own_column;
use hq_sql_tree::{Expr, ExprList, Pred};

/// A test of a column by a pattern, with the matcher of this.
#[derive(Drop)]
pub struct LikeTest<'m> {
    pub column: ColId,
    pub matcher: &'m Matcher,
}

// The matcher of the pattern that a test is by, if it is among these.
fn read_before<'m>(test: Test, operands: &[Expr], matchers: &'m [Matcher]) -> Option<&'m Matcher>
    ensures { IfSome result (λ m. (test ≡ test_of.Like m.now.1) × (map expr_view operands.now ≡ text_of m.now.0 ∷ [])) }
{
    let Test::Like { fold } = test else {
        return None;
    };
    let [Expr::Text(pattern)] = operands else {
        return None;
    };
    match matcher_of(matchers, pattern, fold) {
        Some(matcher) => Some(matcher),
        None => None,
    }
}

// The test of a column that a test of an expression is.
fn column_like<'m>(
    own: &Expr,
    test: Test,
    operands: &ExprList,
    columns: &[Column],
    alias: &Txt,
    matchers: &'m [Matcher],
) -> Option<LikeTest<'m>>
    ensures { IfSome result (IsLikeTest columns.now alias.now (tested (expr_view own.now) test (map expr_view operands.now.items))) }
{
    let Some(matcher) = read_before(test, operands.as_slice(), matchers) else {
        return None;
    };
    let Some(column) = own_column(own, columns, alias) else {
        return None;
    };
    Some(LikeTest { column, matcher })
}

/// The test by a pattern that a condition is, where one of the matchers is of the pattern.
pub(crate) fn like_test<'m>(
    pred: &Pred,
    columns: &[Column],
    alias: &Txt,
    matchers: &'m [Matcher],
) -> Option<LikeTest<'m>>
    ensures { IfSome result (IsLikeTest columns.now alias.now (pred_view pred.now)) }
{
    match pred {
        Pred::Test {
            value,
            test,
            operands,
        } => column_like(value, *test, operands, columns, alias, matchers),
        Pred::True | Pred::False | Pred::Not(_) | Pred::And(_) | Pred::Or(_) | Pred::Exists(_) =>
            None,
    }
}

/// What a test says of a row.
pub(crate) fn told(test: &LikeTest<'_>, row: &[Val]) -> Truth
    ensures { result ≡ told test.now row.now }
{
    like_truth(test.matcher, &cell_in(row, test.column))
}
