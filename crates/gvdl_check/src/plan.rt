//! The plan of a script.

use edge_predicates::{Pred, ViewRule};
use gvdl_tree::Call;
use segment_split::SplitRule;
use surge_outside::{List, Text};
use vertex_lang::{Program, Rounds};

/// A view of a collection.
#[derive(Debug, Drop)]
pub struct ViewPlan {
    /// The name, which no other view of the collection has.
    pub name: Text,
    /// The predicates of the views that it stands on, from the graph on, and then its own.
    pub rule: ViewRule,
}

/// A collection of views.
#[derive(Debug, Drop)]
pub struct CollectionPlan {
    /// The name, which nothing else in the script has.
    pub name: Text,
    /// All views in declared order, appended ones behind the others, at most 1,024.
    pub views: List<ViewPlan>,
}

/// In which order views are run.
#[derive(Clone, Copy, Debug, PartialEq, Eq)]
pub enum OrderRule {
    /// Each time the view that differs least from the one before.
    Greedy,
    /// As they were declared.
    Declared,
    /// As they are met on a walk through a tree of short differences; appended views greedily behind them.
    Tree,
}

/// A run of a program on each view of a collection.
#[derive(Drop)]
pub struct RunPlan {
    /// The collection, by its place from 0.
    pub collection: u32,
    /// The call as it was written.
    pub call: Call,
    /// The program that the call means.
    pub program: Program,
    /// How long it runs on a view: within a number of rounds or for it, from 1 to 1,000,000.
    pub rounds: Rounds,
    /// In which order it takes the views: greedily, where the script says nothing.
    pub order: OrderRule,
    /// How often the rounds are done, each time from where they ended before, from 1 to 1,000; none where the script says
    /// nothing of it. Such a run is greedy, is not split and is not kept.
    pub phases: Option<u32>,
    /// Where it starts anew: nowhere, where the script says nothing.
    pub split: SplitRule,
    /// The name under which the run is kept, where it is: nothing else in the script has it, and at most 64 runs are kept.
    pub keep: Option<Text>,
    /// Whether it is kept, and edges come or go behind it.
    pub edited: bool,
}

/// What a statement asks for. Collections and runs are numbered from 0 in the order of the script.
#[derive(Debug, Drop)]
pub enum Step {
    /// Nothing is to be done.
    Nothing,
    /// The collection is made, with so many views.
    Make {
        collection: u32,
        count: u32,
    },
    /// The run is made.
    Run {
        run: u32,
    },
    /// So many views are added to the collection, the first of which has this place.
    Append {
        collection: u32,
        first: u32,
        count: u32,
    },
    /// The order of the collection is shown.
    ShowOrder {
        collection: u32,
    },
    /// The work of the kept run is shown, behind which no edge comes or goes.
    ShowWork {
        run: u32,
    },
    /// The tree order of the collection is shown.
    ShowTree {
        collection: u32,
    },
    /// So many edges come, the first of which has this number: they stand behind all that came before.
    Insert {
        first: u32,
        count: u32,
    },
    /// The edges for which the predicate holds go, of those that there are by then.
    Remove {
        rule: Pred,
    },
    /// The edges of each view of the collection are counted by the cells of their ends in this column of the nodes, and the
    /// cells of this column of the edges, which has numbers, are summed, where there is one.
    Aggregate {
        collection: u32,
        by: u32,
        sum: Option<u32>,
    },
}

/// What a script asks for.
#[derive(Drop)]
pub struct Plan {
    /// How many edges there are after the load: those of the edges file.
    pub loaded: u32,
    /// The collections, in the order of the script, each with the views that it has at the end.
    pub collections: List<CollectionPlan>,
    /// The runs, in the order of the script.
    pub runs: List<RunPlan>,
    /// One for each statement after the load.
    pub steps: List<Step>,
}
