//! The tables that a statement is evaluated over, and what is known of conditions over them.
ghost use Rattle.std.proofs.Props.{props};
ghost use Rattle.std.specs.Prelude.{◌≡◌, ◌<◌, ℕ, length, slice_index_or};
ghost use Rattle.hq_sql_access.specs.KeySets.{IsOwnSet};
ghost use Rattle.hq_sql_access.specs.KnownRows.{IsRight};
ghost use Rattle.hq_sql_access.specs.Pins.{world_in};
ghost use Rattle.hq_sql_access.specs.declared.pinned.KeySet.{KeySet};
ghost use Rattle.hq_sql_access.specs.declared.pinned.KnownRows.{KnownRows};

use crate::stored::Stored;
use crate::work::Work;
use hq_base::Memory;
use hq_like::Matcher;
use hq_load_index::{Grid, Index};
use hq_sql_tree::{Expr, From, Pred};
use std::alloc::Global;

/// Of a condition over the rows of a table: at which of them the conjuncts that mention no other alias are all true, and the other
/// conjuncts.
#[derive(Drop)]
pub struct KnownRows<'d> {
    pub from: &'d From,
    pub filter: &'d Pred,
    pub truths: Vec<bool>,
    pub rest: Vec<&'d Pred>,
}

/// Of an EXISTS over a table: the keys of the rows that its WHERE keeps, in the columns that it asks to equal expressions around it,
/// with an index over them.
#[derive(Drop)]
pub struct KeySet<'d> {
    pub pred: &'d Pred,
    pub links: Vec<&'d Expr>,
    pub grid: Grid,
    pub index: Index,
}

/// The tables of the catalog with their rows, the patterns that were read, and what is known of conditions over the tables.
#[derive(Drop)]
pub struct Pinned<'d> {
    pub tables: &'d [Stored<'d>],
    pub work: &'d Work,
    pub matchers: &'d [Matcher],
    pub known: Vec<KnownRows<'d>>,
    pub sets: Vec<KeySet<'d>>,
    ghost right: { (i : ℕ) (d : KnownRows) → i < length known.items → IsRight (world_in tables.now) (slice_index_or known.items i d) },
    ghost keyed: { (i : ℕ) (d : KeySet) → i < length sets.items → IsOwnSet (world_in tables.now) (slice_index_or sets.items i d) } by { Prim.hlevel props },
}

impl<'d> Pinned<'d> {
    /// Tables of which nothing is known yet.
    pub fn new(
        alloc: Global,
        tables: &'d [Stored<'d>],
        work: &'d Work,
        matchers: &'d [Matcher],
    ) -> Pinned<'d>
        ensures { result.tables ≡ tables.entry }
    {
        Pinned {
            tables,
            work,
            matchers,
            known: Vec::new(alloc),
            sets: Vec::new(alloc),
        }
    }

    /// Knows one thing more.
    pub fn add(&mut self, known: KnownRows<'d>) -> Result<(), Memory>
        requires { IsRight (world_in self.old.tables.now) known }
        ensures { self.new.tables ≡ self.old.tables }
    {
        self.known.push(known)?;
        Ok(())
    }

    /// Knows the keys of one EXISTS more.
    pub fn add_set(&mut self, set: KeySet<'d>) -> Result<(), Memory>
        requires { IsOwnSet (world_in self.old.tables.now) set }
        ensures { self.new.tables ≡ self.old.tables }
    {
        self.sets.push(set)?;
        Ok(())
    }
}
