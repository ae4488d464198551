ghost use Rattle.std.specs.Prelude.{◌≡◌, IfOk, map};
ghost use Rattle.hq_model.specs.Bexp.{bexp_view};

use crate::copy::TryCopy;
use crate::{Bexp, BexpList};
use hq_base::Memory;
use std::alloc::Global;

impl Bexp {
    /// An equal expression.
    pub fn copy(&self, alloc: Global) -> Result<Bexp, Memory>
        ensures { IfOk result (λ copy. bexp_view copy ≡ bexp_view self.now) }
    {
        copy_bexp(alloc, self)
    }
}

#[cycle(copy_bexp)]
fn copy_bexp(alloc: Global, bexp: &Bexp) -> Result<Bexp, Memory>
    ensures { IfOk result (λ copy. bexp_view copy ≡ bexp_view bexp.now) }
{
    match bexp {
        Bexp::True => Ok(Bexp::True),
        Bexp::And(bexps) => Ok(Bexp::And(copy_bexps(alloc, bexps)?)),
        Bexp::Or(bexps) => Ok(Bexp::Or(copy_bexps(alloc, bexps)?)),
        Bexp::Not(inner) => Ok(Bexp::Not(Box::new(alloc, copy_bexp(alloc, inner)?)?)),
        Bexp::Test {
            col,
            test,
            operands,
            negated,
        } => Ok(Bexp::Test {
            col: *col,
            test: *test,
            operands: operands.try_copy(alloc)?,
            negated: *negated,
        }),
        Bexp::Through { rel, inner } => Ok(Bexp::Through {
            rel: *rel,
            inner: Box::new(alloc, copy_bexp(alloc, inner)?)?,
        }),
        Bexp::Exists { table, inner } => Ok(Bexp::Exists {
            table: *table,
            inner: Box::new(alloc, copy_bexp(alloc, inner)?)?,
        }),
        Bexp::Columns { left, op, right } => Ok(Bexp::Columns {
            left: *left,
            op: *op,
            right: *right,
        }),
    }
}

#[cycle(copy_bexp)]
fn copy_bexps(alloc: Global, bexps: &BexpList) -> Result<BexpList, Memory>
    ensures { IfOk result (λ copy. map bexp_view copy.items ≡ map bexp_view bexps.now.items) }
{
    let mut copy = Vec::new(alloc);
    for bexp in bexps {
        copy.push(copy_bexp(alloc, bexp)?)?;
    }
    Ok(copy)
}
