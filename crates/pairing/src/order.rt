// Whether two lists have the same entries in any order: both are put in order, and compared one by one. Assumes nothing.
ghost use Rattle.std.specs.Prelude.{◌≡◌, true, Decides};
ghost use Rattle.std.specs.List.Sorted.{IsPermutation};

// Whether the entries are the same in any order. Both slices are left in order.
pub(crate) fn same_in_any_order<T: Ord>(first: &mut [T], second: &mut [T]) -> bool
    requires { (x y : T) → T.eq x y ≡ true → x ≡ y }
    ensures { Decides result (IsPermutation first.old second.old) }
{
    first.sort_unstable();
    second.sort_unstable();
    *first == *second
}
