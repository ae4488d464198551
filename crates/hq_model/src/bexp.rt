ghost use Rattle.std.specs.Prelude.{◌≡◌, map};
ghost use Rattle.hq_model.specs.Bexp.{bexp_view, conjunction};

use crate::{ColId, Op, RelId, TableId, Test};
use hq_base::{List, Txt, Val};

/// What a column is compared with: a constant, which is never NULL, or the value of a session variable.
#[derive(Drop)]
pub enum Operand {
    Const(Val),
    Session(Txt),
}

/// Operands, in order.
pub type OperandList = List<Operand>;

/// The operands of a test: those of a list, or what the value of a session variable lists.
#[derive(Drop)]
pub enum Operands {
    List(OperandList),
    Session(Txt),
}

/// Boolean expressions, in order.
pub type BexpList = Vec<Bexp>;

/// A boolean expression over the rows of a table: a permission's filter, or the `where` of a request.
#[derive(Drop)]
#[cycle(bexp)]
pub enum Bexp {
    /// Always true.
    True,
    And(BexpList),
    Or(BexpList),
    Not(Box<Bexp>),
    /// A test of a column against operands, as many as the test takes; the opposite where `negated`.
    Test {
        col: ColId,
        test: Test,
        operands: Operands,
        negated: bool,
    },
    /// Some row behind the relationship meets the inner expression.
    Through {
        rel: RelId,
        inner: Box<Bexp>,
    },
    /// Some row of the table meets the inner expression.
    Exists {
        table: TableId,
        inner: Box<Bexp>,
    },
    /// How a column stands to another one of the same row.
    Columns {
        left: ColId,
        op: Op,
        right: ColId,
    },
}

impl Bexp {
    /// All of a list: True where it is empty, and one expression for itself.
    #[tactic(auto, unfolding(crate::specs::Bexp::conjunction))]
    pub fn all_of(bexps: BexpList) -> Bexp
        ensures { bexp_view result ≡ conjunction (map bexp_view bexps.items) }
    {
        let mut bexps = bexps;
        if bexps.len() > 1 {
            return Bexp::And(bexps);
        }
        match bexps.pop() {
            Some(bexp) => bexp,
            None => Bexp::True,
        }
    }
}
