ghost use Rattle.std.specs.Prelude.{◌≡◌, ◌≤◌};
ghost use Rattle.hq_io.specs.Causes.{Rose, one_more};

use hq_base::List;

/// Numbers of calls: the first call of an object has the number 1.
pub type NumList = List<u64>;

/// Counts a fault. At its last value the count stays.
pub fn count_fault(faults: &mut u64)
    ensures count { faults.new ≡ one_more faults.old }
    ensures rose { Rose faults.old faults.new }
    ensures later { faults.old ≤ faults.new }
{
    *faults = faults.saturating_add(1);
}
