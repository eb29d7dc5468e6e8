//! The laws of inputs and work.

ghost use Rattle.lone_work.specs.Laws.{ActiveMeans, ActiveSplits, AllAgree, CalmArcs, EqualViewsNoWork, FirstViewCounted, FirstViewTouched, MarkByCounted, MarkSplits, MarkedAtFirst, MarkedMeans, NoCandidate, PermutedViewsNoWork, QuietSameInput, SameInputSameValue, SettledCostsNothing, SettledWork, StartsAgree, StepIsLone, TouchedMeans, UncountedValue, UnmarkedSameValue, UntouchedAgree, UntouchedSameInput, UntouchedSameMark, UntouchedSameValue, WorkByRounds, WorkIsBounded, CountedIs, TouchedIs, UntouchedTest, CountedByMarks, FirstViewWork, NoRoundNoWork, SameEdgesNoWork, SettledAtLastChange, UnsettledAtLastChange};

/// A node with the same input has the same next value, whatever the view and the round.
pub fn same_input_same_value()
    ensures { SameInputSameValue }
{}

/// A node that isn't touched up to a round has had the same inputs in both views up to it.
pub fn untouched_same_input()
    ensures { UntouchedSameInput }
{}

/// And the same values, up to the round after it.
pub fn untouched_same_value()
    ensures { UntouchedSameValue }
{}

/// And its input changed in that round in the one view exactly where it did in the other.
pub fn untouched_same_mark()
    ensures { UntouchedSameMark }
{}

/// Where a node isn't active and its input stayed in the view before, it stays in the new view.
pub fn quiet_same_input()
    ensures { QuietSameInput }
{}

/// Where the input of a node stayed, its value stays.
pub fn unmarked_same_value()
    ensures { UnmarkedSameValue }
{}

/// Where a node isn't counted, its mark and next value are those of the view before, or its input and value stay.
pub fn uncounted_value()
    ensures { UncountedValue }
{}

/// In the first view of a segment each node is touched.
pub fn first_view_touched()
    ensures { FirstViewTouched }
{}

/// And counted in the rounds in which its input changes.
pub fn first_view_counted()
    ensures { FirstViewCounted }
{}

/// A round after one that changed nothing in either view costs nothing.
pub fn settled_costs_nothing()
    ensures { SettledCostsNothing }
{}

/// A view that equals the one before costs nothing.
pub fn equal_views_no_work()
    ensures { EqualViewsNoWork }
{}

/// Where the node's own items cancel, and what each arc into it brings, it isn't active.
pub fn no_candidate()
    ensures { NoCandidate }
{}

/// They do where each value is the same in both views, now and in the round before, or stayed in both.
pub fn all_agree()
    ensures { AllAgree }
{}

/// Rounds in which no value changes in either view add no work.
pub fn settled_work()
    ensures { SettledWork }
{}

/// A view whose arcs are those of the view before, in some order, costs nothing.
pub fn permuted_views_no_work()
    ensures { PermutedViewsNoWork }
{}

/// Where a node's value agrees in both views and each arc into it is calm, it isn't active.
pub fn calm_arcs()
    ensures { CalmArcs }
{}

/// A node isn't active exactly where each item of its four inputs cancels, counted with signs.
pub fn active_means()
    ensures { ActiveMeans }
{}

/// It is touched exactly where it is active in some round up to this one.
pub fn touched_means()
    ensures { TouchedMeans }
{}

/// It has no mark exactly where its input is that of the round before.
pub fn marked_means()
    ensures { MarkedMeans }
{}

/// Each round adds to the work the number of nodes that are counted in it.
pub fn work_by_rounds()
    ensures { WorkByRounds }
{}

/// Work is at most the number of nodes times that of rounds.
pub fn work_is_bounded()
    ensures { WorkIsBounded }
{}

/// Values that are evaluated where a node is counted, stay where it is touched, and are else those of the view before, are
/// those of the next round.
pub fn step_is_lone()
    ensures { StepIsLone }
{}

/// Where a node isn't counted it has no mark if it is touched, and else that of the view before.
pub fn mark_by_counted()
    ensures { MarkByCounted }
{}

/// Each node has a mark at round 0.
pub fn marked_at_first()
    ensures { MarkedAtFirst }
{}

/// The value of a node that isn't touched up to a round agrees in the next one.
pub fn untouched_agree()
    ensures { UntouchedAgree }
{}

/// Starts agree.
pub fn starts_agree()
    ensures { StartsAgree }
{}

/// Where there's a view before, a node isn't active exactly where its values cancel and its messages cancel.
pub fn active_splits()
    ensures { ActiveSplits }
{}

/// After round 0 it has no mark exactly where its value stays and its messages are those of the round before.
pub fn mark_splits()
    ensures { MarkSplits }
{}

/// A node is counted where it is touched, and active or marked in the view before.
pub fn counted_is()
    ensures { CountedIs }
{}

/// It is touched where it was touched before or is active now.
pub fn touched_is()
    ensures { TouchedIs }
{}

/// A node that was not touched before is active exactly where its messages differ between the views.
pub fn untouched_test()
    ensures { UntouchedTest }
{}

/// A touched node is counted exactly where its input changed in the one view or in the other.
pub fn counted_by_marks()
    ensures { CountedByMarks }
{}

/// The work of a first view is the number of pairs of a node and a round in which its input changes.
pub fn first_view_work()
    ensures { FirstViewWork }
{}

/// No round costs nothing.
pub fn no_round_no_work()
    ensures { NoRoundNoWork }
{}

/// A view whose edges are those of the view before, in some order, costs nothing.
pub fn same_edges_no_work()
    ensures { SameEdgesNoWork }
{}

/// A run settles at the last round that changed something.
pub fn settled_at_last_change()
    ensures { SettledAtLastChange }
{}

/// It is unsettled where the last round allowed changed something.
pub fn unsettled_at_last_change()
    ensures { UnsettledAtLastChange }
{}
