ghost use Rattle.std.specs.Prelude.{◌≡◌, bytes_eq, false, find};
ghost use Rattle.hq_base.specs.Text.{has_zero};
ghost use Rattle.hq_model.specs.Operators.{column_operator_name, column_operator_named, column_operators, op_sign};
ghost use Rattle.hq_model.specs.Tests.{same_op};

/// A comparison.
#[derive(Clone, Copy, PartialEq, Eq)]
pub enum Op {
    Eq,
    Ne,
    Lt,
    Le,
    Gt,
    Ge,
}

impl Op {
    /// All comparisons, in ascending order of the bytes of the names that they have between columns.
    pub fn all() -> [Op; 6]
        ensures { result ≡ column_operators }
    {
        [Op::Eq, Op::Gt, Op::Ge, Op::Lt, Op::Le, Op::Ne]
    }

    /// Its name as an operator between two columns of a row (Hasura, column comparison operators).
    pub fn name_of_columns(self) -> &'static str
        ensures name { result.now ≡ column_operator_name self }
        ensures clean { has_zero result.now ≡ false }
    {
        match self {
            Op::Eq => "_ceq",
            Op::Ne => "_cne",
            Op::Lt => "_clt",
            Op::Le => "_clte",
            Op::Gt => "_cgt",
            Op::Ge => "_cgte",
        }
    }

    /// Its sign in SQL, between two blanks.
    pub fn sign(self) -> &'static str
        ensures { result.now ≡ op_sign self }
    {
        match self {
            Op::Eq => " = ",
            Op::Ne => " <> ",
            Op::Lt => " < ",
            Op::Le => " <= ",
            Op::Gt => " > ",
            Op::Ge => " >= ",
        }
    }

    /// The comparison of columns of this name, where there is one.
    pub fn of_columns(name: &str) -> Option<Op>
        ensures { result ≡ column_operator_named name.now }
    {
        op_among(&Op::all(), name)
    }

    /// Whether two comparisons are one.
    pub fn is_same(self, other: Op) -> bool
        ensures { result ≡ same_op self other }
    {
        match self {
            Op::Eq => matches!(other, Op::Eq),
            Op::Ne => matches!(other, Op::Ne),
            Op::Lt => matches!(other, Op::Lt),
            Op::Le => matches!(other, Op::Le),
            Op::Gt => matches!(other, Op::Gt),
            Op::Ge => matches!(other, Op::Ge),
        }
    }
}

// The first comparison of this name.
fn op_among(ops: &[Op], name: &str) -> Option<Op>
    ensures { result ≡ find (λ op. bytes_eq (column_operator_name op) name.now) ops.now }
{
    for op in ops {
        if op.name_of_columns() == name {
            return Some(*op);
        }
    }
    None
}
