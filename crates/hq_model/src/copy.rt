ghost use Rattle.std.specs.Prelude.{◌≡◌, IfOk};

mod bexp;
mod flat;
mod meta;

use hq_base::{List, Memory};
use std::alloc::Global;

/// A value that can be made a second time, where there is memory for it.
pub trait TryCopy: Sized {
    /// An equal value.
    fn try_copy(&self, alloc: Global) -> Result<Self, Memory>
        ensures { IfOk result (λ copy. copy ≡ self.now) };
}

/// An equal list.
pub fn copy_list<T: TryCopy + Drop>(alloc: Global, list: &List<T>) -> Result<List<T>, Memory>
    ensures { IfOk result (λ copy. copy ≡ list.now) }
{
    let mut copy = List::new(alloc);
    for item in list.as_slice() {
        copy.push(item.try_copy(alloc)?)?;
    }
    Ok(copy)
}

impl<T: TryCopy + Drop> TryCopy for List<T> {
    fn try_copy(&self, alloc: Global) -> Result<List<T>, Memory> {
        copy_list(alloc, self)
    }
}
