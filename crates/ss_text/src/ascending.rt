//! Lists without repetition, in ascending order.
ghost use Rattle.std.specs.Prelude.{◌≡◌, OnOk, OnErr};
ghost use Rattle.std.specs.List.Sorted.{IsStrictlySortedBy};
ghost use Rattle.std.specs.FinMap.{IsAntisymmetric};
ghost use Rattle.ss_text.specs.Ascending.{ascending};

use crate::NoMemory;

/// Leaves each element once, in ascending order. After `NoMemory` the elements are as they were.
pub fn make_ascending<T: Ord + Drop>(items: &mut Vec<T>) -> Result<(), NoMemory>
    requires { IsAntisymmetric T.cmp }
    ensures ok { OnOk result (items.new.items ≡ ascending T.cmp items.old.items) }
    ensures ascends { OnOk result (IsStrictlySortedBy T.cmp items.new.items) }
    ensures err { OnErr result (items.new.items ≡ items.old.items) }
{
    items.sort()?;
    items.dedup();
    Ok(())
}
