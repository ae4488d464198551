ghost use Rattle.std.specs.Prelude.{◌≡◌, OnOk};
ghost use Rattle.hq_base.specs.Lists.{sort};

use crate::Memory;
use std::alloc::Global;

/// Sorts in ascending order, in n log n comparisons. Items that compare equal keep their order.
pub fn sort<T: Ord>(alloc: Global, items: &mut [T]) -> Result<(), Memory>
    ensures { OnOk result (items.new ≡ sort T.cmp items.old) }
{
    items.sort(alloc)?;
    Ok(())
}
