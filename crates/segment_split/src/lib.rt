//! When a run of views starts anew.
//!
//! It stands on nothing but std. A run goes through the views of a collection, and shares work among those of one segment;
//! where a segment begins is asked by a rule (splitting, as in Graphsurge: Sahu and Salihoglu 2021). It offers the rules
//! ([`SplitRule`]) that a script may name, and the decision that a rule takes at each view behind the first
//! ([`starts_new`]) by what the segment has counted so far ([`Counts`]). Its model is the enum and the counts themselves,
//! which are plain data to contracts, and `specs/Rule.antt`: the written rule over numbers without an end. It promises the
//! rooms above that exactly this rule is what is answered, whatever the counts of work. It takes no memory and no measured
//! time, so the segments of a run are the same each time.
#![tactic(auto)]

ghost use Rattle.std.specs.Prelude.{◌≡◌, ◌<◌, ◌≤◌, ◌*◌, ◌^◌};
ghost use Rattle.segment_split.specs.Rule.{HasNumber, starts_new};

/// Where the views of a run are split into segments. The first view starts a segment under each rule.
#[derive(Clone, Copy, Debug, PartialEq, Eq)]
pub enum SplitRule {
    /// Nowhere.
    Whole,
    /// Where a segment has this number of views, which is at least 1.
    Every(u64),
    /// Where the work that the segment took so far tells that a fresh start is cheaper.
    Auto,
}

/// What is counted where a segment may end: of the views that it has so far, at least one, and of the view that comes next.
/// Work is a number of evaluations of nodes.
#[derive(Clone, Copy, Debug, PartialEq, Eq)]
pub struct Counts {
    /// How many views the segment has.
    pub in_segment: u64,
    /// How many edges its first view has, below 2^22.
    pub first_edges: u64,
    /// The work of its first view.
    pub first_work: u64,
    /// In how many edges its later views differ from the view run before each, in total, below 2^32.
    pub later_edges: u64,
    /// The work of its later views, in total.
    pub later_work: u64,
    /// How many edges the next view has, below 2^22.
    pub next_edges: u64,
    /// In how many edges the next view differs from the last one of the segment, below 2^22.
    pub next_difference: u64,
}

// Work times a number of edges times another, exact.
fn product(work: u64, edges: u64, others: u64) -> u128
    requires edges { edges < 2 ^ 22 }
    requires others { others < 2 ^ 32 }
    ensures { result ≡ work * edges * others }
{
    u128::from(work) * u128::from(edges) * u128::from(others)
}

// Whether the next view is cheaper from the start than on top of the segment. So far one differing edge of a later view
// took `later_work / later_edges`, and one edge of the first view `first_work / first_edges`.
fn is_cheaper_anew(counts: Counts) -> bool
    requires first_edges { counts.first_edges < 2 ^ 22 }
    requires later_edges { counts.later_edges < 2 ^ 32 }
    requires next_edges { counts.next_edges < 2 ^ 22 }
    requires next_difference { counts.next_difference < 2 ^ 22 }
    ensures { result ≡ starts_new SplitRule.Auto counts }
{
    if counts.later_edges == 0 {
        return counts.next_difference > counts.next_edges;
    }
    let on_top = product(
        counts.later_work,
        counts.next_difference,
        counts.first_edges,
    );
    let anew = product(counts.first_work, counts.next_edges, counts.later_edges);
    on_top > anew
}

/// Whether a new segment starts at the next view. Under [`SplitRule::Whole`] none does. Under [`SplitRule::Every`] one does
/// where the segment has that number of views. Under [`SplitRule::Auto`] one does where the work that is to be expected on
/// top of the segment, by what its later views took for each differing edge, is more than that of a fresh start, by what
/// its first view took for each edge: where `later_work * next_difference * first_edges` is more than
/// `first_work * next_edges * later_edges`. While no later view differed, one starts where the next view differs in more
/// edges than it has. The products are exact. It takes no memory.
pub fn starts_new(rule: SplitRule, counts: Counts) -> bool
    requires every { HasNumber rule }
    requires first_edges { counts.first_edges < 2 ^ 22 }
    requires later_edges { counts.later_edges < 2 ^ 32 }
    requires next_edges { counts.next_edges < 2 ^ 22 }
    requires next_difference { counts.next_difference < 2 ^ 22 }
    ensures { result ≡ starts_new rule counts }
{
    match rule {
        SplitRule::Whole => false,
        SplitRule::Every(number) => number <= counts.in_segment,
        SplitRule::Auto => is_cheaper_anew(counts),
    }
}
