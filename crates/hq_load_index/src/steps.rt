//! A count of comparisons.
ghost use Rattle.std.specs.Prelude.{◌≡◌, ◌+◌, ℕ, map};
ghost use Rattle.hq_load_index.specs.Keys.{cell_view, key_in, keys_cmp};

use crate::key::{KeyCell, key_cmp};
use hq_base::Val;
use hq_model::ColId;
use std::cmp::Ordering;
use std::marker::Model;
use std::sync::ledger::{Blank, Book, Ledger, Share};

/// How many comparisons of two keys were made. It has no bytes at run time, and only a comparison adds to it.
#[derive(Drop)]
pub struct Steps<L: Ledger> {
    book: Book<L>,
    share: Share<L>,
}

impl<L: Ledger> Model for Steps<L> {
    ghost use Rattle.std.specs.Prelude.{ℕ, ◌<◌};

    ghost Value = { ℕ };

    ghost view = { λ s. s.book.total };

    ghost invariant = { λ s. 0 < s.share.parts };
}

impl<L: Ledger> Steps<L> {
    /// No comparison so far.
    pub fn new(blank: Blank) -> Self
        requires name { blank.name ≡ L.name }
        requires parts { blank.parts ≡ L.parts }
        requires some { L.parts ≡ 1 }
        ensures { result ≡ 0 }
    {
        let (book, share) = blank.open::<L>();
        Steps { book, share }
    }

    fn tick(&mut self)
        ensures { self.new ≡ self.old + 1 }
    {
        self.book.add(&mut self.share, 1);
    }
}

/// The order of a row's key to a key: one comparison.
pub(crate) fn compared<L: Ledger>(
    columns: &[ColId],
    row: &[Val],
    key: &[KeyCell<'_>],
    steps: &mut Steps<L>,
) -> Ordering
    ensures order { result ≡ keys_cmp (key_in columns.now row.now) (map cell_view key.now) }
    ensures counted { steps.new ≡ steps.old + 1 }
{
    steps.tick();
    key_cmp(columns, row, key)
}
