//! Elements each once, in ascending order.
ghost use Rattle.std.specs.Prelude.{◌≡◌, ◌+◌, ◌<◌, ◌≤◌, ◌++◌};
ghost use Rattle.std.specs.List.Sorted.{IsStrictlySortedBy};
ghost use Rattle.std.specs.FinMap.{IsAntisymmetric};
ghost use Rattle.std.specs.Vec.{vec_len, vec_capacity};
ghost use Rattle.ss_text.specs.Ascending.{with_element, ascending};

/// Puts an element into ascending ones, for which there is room, unless it is there. It takes no memory.
pub fn put<T: Ord + Drop>(items: &mut Vec<T>, item: T)
    requires same { IsAntisymmetric T.cmp }
    requires ascend { IsStrictlySortedBy T.cmp items.old.items }
    requires room { vec_len items.old < vec_capacity items.old }
    ensures items { items.new.items ≡ with_element T.cmp item items.old.items }
    ensures ascend { IsStrictlySortedBy T.cmp items.new.items }
    ensures capacity { vec_capacity items.new ≡ vec_capacity items.old }
    ensures one { vec_len items.new ≤ vec_len items.old + 1 }
{
    match items.binary_search(&item) {
        Ok(_) => {}
        Err(place) => {
            let Ok(()) = items.insert(place, item) else {
                unreachable!()
            };
        }
    }
}

/// Puts elements into ascending ones, for all of which there is room, unless they are there. It takes no memory.
pub fn put_all<T: Ord + Drop>(items: &mut Vec<T>, coming: Vec<T>)
    requires same { IsAntisymmetric T.cmp }
    requires ascend { IsStrictlySortedBy T.cmp items.old.items }
    requires room { vec_len items.old + vec_len coming ≤ vec_capacity items.old }
    ensures items { items.new.items ≡ ascending T.cmp (items.old.items ++ coming.items) }
    ensures ascend { IsStrictlySortedBy T.cmp items.new.items }
{
    for item in coming {
        put(items, item);
    }
}
