//! The laws of lists as multisets, for elements of any type.

ghost use Rattle.multisets.specs.Laws.{OftenAdds, OneTest, CancelTest, CancelIsOne, FoldOne, PermutedOne, OnePermuted, SortedSame, OftenSum, PickedSum};

/// An element stands in two lists together as often as in the one and in the other.
pub fn often_adds<T>()
    ensures { OftenAdds T }
{}

/// The test for one multiset tells whether two lists are one.
pub fn one_test<T>()
    ensures { OneTest T }
{}

/// The test for cancelling tells whether four lists cancel.
pub fn cancel_test<T>()
    ensures { CancelTest T }
{}

/// Four lists cancel exactly where the first and the last together are the second and the third together.
pub fn cancel_is_one<T>()
    ensures { CancelIsOne T }
{}

/// A fold whose order doesn't matter depends on the multiset alone.
pub fn fold_one<T, B>()
    ensures { FoldOne T B }
{}

/// Permutations are one multiset.
pub fn permuted_one<T>()
    ensures { PermutedOne T }
{}

/// Lists that are one multiset are permutations.
pub fn one_permuted<T>()
    ensures { OnePermuted T }
{}

/// Sorted lists that are one multiset are one list.
pub fn sorted_same<T>()
    ensures { SortedSame T }
{}

/// How often an element stands in a list is a sum over the list.
pub fn often_sum<T>()
    ensures { OftenSum T }
{}

/// A sum over the elements that a test picks is one over all.
pub fn picked_sum<T>()
    ensures { PickedSum T }
{}
