//! The table of the operators by which a column is tested in a boolean expression.
ghost use Rattle.std.specs.Prelude.{◌≡◌, true, false, find, bytes_eq};
ghost use Rattle.hq_base.specs.Text.{has_zero};
ghost use Rattle.hq_model.specs.Operators.{all_operators, operator_name, operator_named, operator_words};

use crate::{Op, Test};

/// An operator of a column: a test, or the opposite of one where `negated`. That of NULL is negated by its value.
#[derive(Clone, Copy, PartialEq, Eq)]
pub struct Operator {
    pub test: Test,
    pub negated: bool,
}

// The operator of a test.
fn plain(test: Test) -> Operator
    ensures { result ≡ record { test = test; negated = false } }
{
    Operator {
        test,
        negated: false,
    }
}

// The operator of the opposite of a test.
fn opposite(test: Test) -> Operator
    ensures { result ≡ record { test = test; negated = true } }
{
    Operator {
        test,
        negated: true,
    }
}

impl Operator {
    /// All operators, in ascending order of the bytes of their names.
    pub fn all() -> [Operator; 13]
        ensures { result ≡ all_operators }
    {
        [
            plain(Test::Compare(Op::Eq)),
            plain(Test::Compare(Op::Gt)),
            plain(Test::Compare(Op::Ge)),
            plain(Test::Like { fold: true }),
            plain(Test::Among),
            plain(Test::IsNull),
            plain(Test::Like { fold: false }),
            plain(Test::Compare(Op::Lt)),
            plain(Test::Compare(Op::Le)),
            plain(Test::Compare(Op::Ne)),
            opposite(Test::Like { fold: true }),
            opposite(Test::Among),
            opposite(Test::Like { fold: false }),
        ]
    }

    /// Its name; comparisons and the test of NULL have one name.
    pub fn name(self) -> &'static str
        ensures name { result.now ≡ operator_name self }
        ensures clean { has_zero result.now ≡ false }
    {
        match (self.test, self.negated) {
            (Test::Compare(Op::Eq), _) => "_eq",
            (Test::Compare(Op::Ne), _) => "_neq",
            (Test::Compare(Op::Lt), _) => "_lt",
            (Test::Compare(Op::Le), _) => "_lte",
            (Test::Compare(Op::Gt), _) => "_gt",
            (Test::Compare(Op::Ge), _) => "_gte",
            (Test::Among, false) => "_in",
            (Test::Among, true) => "_nin",
            (Test::IsNull, _) => "_is_null",
            (Test::Like { fold: false }, false) => "_like",
            (Test::Like { fold: false }, true) => "_nlike",
            (Test::Like { fold: true }, false) => "_ilike",
            (Test::Like { fold: true }, true) => "_nilike",
        }
    }

    /// What it says of a column in SQL, in small letters: the words that stand between the column and its operands, with the
    /// blanks around them. Behind the test of NULL stands none.
    pub fn words(self) -> &'static str
        ensures { result.now ≡ operator_words self }
    {
        match (self.test, self.negated) {
            (Test::Compare(op), _) => op.sign(),
            (Test::Among, false) => " in ",
            (Test::Among, true) => " not in ",
            (Test::IsNull, false) => " is null",
            (Test::IsNull, true) => " is not null",
            (Test::Like { fold: false }, false) => " like ",
            (Test::Like { fold: false }, true) => " not like ",
            (Test::Like { fold: true }, false) => " ilike ",
            (Test::Like { fold: true }, true) => " not ilike ",
        }
    }

    /// The operator of this name, where there is one.
    pub fn named(name: &str) -> Option<Operator>
        ensures { result ≡ operator_named name.now }
    {
        operator_among(&Operator::all(), name)
    }
}

// The first operator of this name.
fn operator_among(operators: &[Operator], name: &str) -> Option<Operator>
    ensures { result ≡ find (λ o. bytes_eq (operator_name o) name.now) operators.now }
{
    for operator in operators {
        if operator.name() == name {
            return Some(*operator);
        }
    }
    None
}
