//! What is counted of a segment, and what the split decides by it.

ghost use Rattle.std.specs.Prelude.{◌≡◌, ◌≤◌, ◌<◌, ◌+◌, ◌^◌, [], ◌∷◌, true, ◌≢◌, length, sum, All, Contains, Some, slice_get};
ghost use Rattle.view_matrix.specs.Matrices.{IsView, edges_in};
ghost use Rattle.view_order.specs.Greedy.{numbers};
ghost use Rattle.view_segment.specs.Segments.{last_of, place_of};
ghost use Rattle.view_segment.specs.Tasks.{Task, works_of};
ghost use Rattle.segment_split.specs.Rule.{starts_new};
ghost use Rattle.view_engine.specs.Splits.{counts_of, difference, first_edges, first_number, later_edges, later_sum};
ghost use Rattle.view_engine.specs.Engines.{AllowsSplit, IsSound};
ghost use Rattle.view_engine.specs.Assigning.{KnowsLast, IsDecided, AreSmall};

use graph_model::ViewNo;
use segment_split::{Counts, SplitRule, starts_new};
use view_matrix::Matrix;
use view_segment::Segment;

/// Whether the next view starts a segment, and in how many edges the later views of the last segment differ then.
#[derive(Clone, Copy, Debug)]
pub(crate) struct Decision {
    pub(crate) anew: bool,
    pub(crate) later: u64,
}

// The first of these works, or 0.
fn first_work(works: &[u64]) -> u64
    ensures { result ≡ first_number works.now }
{
    match works.first() {
        Some(work) => *work,
        None => 0,
    }
}

// The sum of these works.
fn all_work(works: &[u64]) -> u64
    requires { sum works.now < 2 ^ 64 }
    ensures { result ≡ sum works.now }
{
    works.iter().sum()
}

// The sum of those behind the first.
fn later_work(works: &[u64]) -> u64
    requires few { length works.now ≤ 1_024 }
    requires small { All (λ work. work ≤ 1_000_000_000_000) works.now }
    ensures { result ≡ later_sum works.now }
{
    all_work(works) - first_work(works)
}

// How many edges the first of these views has.
fn first_size(matrix: &Matrix, views: &[ViewNo]) -> u64
    requires { All (IsView matrix.now) views.now }
    ensures limit { result ≤ 4_000_000 }
    ensures value { (task : Task) → task.edges ≡ edges_in matrix.now → result ≡ first_edges task (numbers views.now) }
{
    match views.first() {
        Some(view) => matrix.size(*view),
        None => 0,
    }
}

// The last of these views.
fn last_view(views: &[ViewNo]) -> Option<ViewNo>
    ensures value { place_of result ≡ last_of (numbers views.now) }
    ensures among { (u : ViewNo) → result ≡ Some u → Contains views.now u }
{
    if views.is_empty() {
        return None;
    }
    Some(views[views.len() - 1])
}

// In how many edges a view differs from the last of these.
fn next_difference(matrix: &Matrix, views: &[ViewNo], view: ViewNo) -> u64
    requires views { All (IsView matrix.now) views.now }
    requires view { IsView matrix.now view }
    ensures limit { result ≤ 4_000_000 }
    ensures value { (task : Task) → task.edges ≡ edges_in matrix.now → result ≡ difference task (last_of (numbers views.now)) view.0 }
{
    matrix.distance(last_view(views), view)
}

// All counts of a segment and the next view.
fn all_counts(matrix: &Matrix, segment: &Segment, later: u64, view: ViewNo) -> Counts
    requires sound { IsSound segment.now }
    requires few { length segment.now.views ≤ 1_024 }
    requires views { All (IsView matrix.now) segment.now.views }
    requires view { IsView matrix.now view }
    ensures small { AreSmall later result }
    ensures counts { (task : Task) → task.edges ≡ edges_in matrix.now → segment.now.works ≡ works_of task (numbers segment.now.views) → later ≡ later_edges task (numbers segment.now.views) → result ≡ counts_of task (numbers segment.now.views) view.0 }
{
    let views = segment.views();
    let works = segment.works();
    Counts {
        in_segment: views.len() as u64,
        first_edges: first_size(matrix, views),
        first_work: first_work(works),
        later_edges: later,
        later_work: later_work(works),
        next_edges: matrix.size(view),
        next_difference: next_difference(matrix, views, view),
    }
}

// What the rule looks at: all counts only where it looks at works.
fn counts_for(
    split: SplitRule,
    matrix: &Matrix,
    segment: &Segment,
    later: u64,
    view: ViewNo,
) -> Counts
    requires sound { IsSound segment.now }
    requires few { length segment.now.views ≤ 1_024 }
    requires views { All (IsView matrix.now) segment.now.views }
    requires view { IsView matrix.now view }
    ensures small { AreSmall later result }
    ensures rule { (task : Task) → task.edges ≡ edges_in matrix.now → KnowsLast split task (segment.now ∷ []) later → starts_new split result ≡ starts_new split (counts_of task (numbers segment.now.views) view.0) }
    ensures difference { (task : Task) → task.edges ≡ edges_in matrix.now → KnowsLast split task (segment.now ∷ []) later → split ≡ SplitRule.Auto → result.next_difference ≡ difference task (last_of (numbers segment.now.views)) view.0 }
{
    match split {
        SplitRule::Auto => all_counts(matrix, segment, later, view),
        _ => Counts {
            in_segment: segment.views().len() as u64,
            first_edges: 0,
            first_work: 0,
            later_edges: 0,
            later_work: 0,
            next_edges: 0,
            next_difference: 0,
        },
    }
}

// What is decided where the next view stands behind this segment.
fn decide_behind(
    split: SplitRule,
    matrix: &Matrix,
    segment: &Segment,
    later: u64,
    view: ViewNo,
) -> Decision
    requires split { AllowsSplit split }
    requires sound { IsSound segment.now }
    requires few { length segment.now.views ≤ 1_024 }
    requires later { later < 2 ^ 32 }
    requires views { All (IsView matrix.now) segment.now.views }
    requires view { IsView matrix.now view }
    ensures later { result.later ≤ later + 4_000_000 }
    ensures decided { (task : Task) → task.edges ≡ edges_in matrix.now → KnowsLast split task (segment.now ∷ []) later → IsDecided task split (segment.now ∷ []) view result }
{
    let counts = counts_for(split, matrix, segment, later, view);
    if starts_new(split, counts) {
        Decision {
            anew: true,
            later: 0,
        }
    } else {
        Decision {
            anew: false,
            later: later + counts.next_difference,
        }
    }
}

/// What is decided where the next view stands behind these segments.
pub(crate) fn decide(
    split: SplitRule,
    matrix: &Matrix,
    segments: &[Segment],
    later: u64,
    view: ViewNo,
) -> Decision
    requires split { AllowsSplit split }
    requires sound { All IsSound segments.now }
    requires few { All (λ s. length s.views ≤ 1_024) segments.now }
    requires later { later < 2 ^ 32 }
    requires views { All (λ s. All (IsView matrix.now) s.views) segments.now }
    requires view { IsView matrix.now view }
    ensures none { segments.now ≡ [] → result.anew ≡ true }
    ensures later { result.later ≤ later + 4_000_000 }
    ensures decided { (task : Task) → task.edges ≡ edges_in matrix.now → KnowsLast split task segments.now later → IsDecided task split segments.now view result }
{
    if segments.is_empty() {
        return Decision {
            anew: true,
            later: 0,
        };
    }
    decide_behind(split, matrix, &segments[segments.len() - 1], later, view)
}
