//! What the built-in programs mean, for every answer of their plain runs with the program's own updates, as `main` makes them.
//! These functions have no code: the contract of each is one law, whose proof in `specs/` serves the rooms above.

ghost use Rattle.graph_meanings.specs.Laws.{HopsMean, HopsSettle, DistancesMean, DistancesSettle, ComponentsMean, ComponentsSettle, ComponentsAreClasses, HopsOverEdges, DistancesOverEdges, ComponentsOverEdges, HopsOfViews, DistancesOfViews, ComponentsOfViews};

/// Where a run of `hops` is settled, each value is the least number of arcs of a walk from the source, and none where there
/// is no walk.
pub fn hops_mean()
    ensures { HopsMean }
{}

/// A run of `hops` within as many rounds as there are nodes settles.
pub fn hops_settle()
    ensures { HopsSettle }
{}

/// Where a run of `dist` is settled, each value is the least weight of a walk from the source, and none where there is no
/// walk.
pub fn distances_mean()
    ensures { DistancesMean }
{}

/// A run of `dist` within as many rounds as there are nodes settles.
pub fn distances_settle()
    ensures { DistancesSettle }
{}

/// Where a run of `wcc` is settled, each value is the least id of the node's component.
pub fn components_mean()
    ensures { ComponentsMean }
{}

/// A run of `wcc` within as many rounds as there are nodes settles.
pub fn components_settle()
    ensures { ComponentsSettle }
{}

/// Where each edge carries messages both ways, each node is in one component, and in no other.
pub fn components_are_classes()
    ensures { ComponentsAreClasses }
{}

/// What `hops` means over edges of a graph.
pub fn hops_over_edges()
    ensures { HopsOverEdges }
{}

/// What `dist` means over edges of a graph, where they have weights.
pub fn distances_over_edges()
    ensures { DistancesOverEdges }
{}

/// What `wcc` means over edges of a graph.
pub fn components_over_edges()
    ensures { ComponentsOverEdges }
{}

/// What `hops` means over the edges that satisfy the predicates of a view: of a settled run the value of each node, which is
/// the one that is printed, is the least number of edges of a walk over these edges.
pub fn hops_of_views()
    ensures { HopsOfViews }
{}

/// What `dist` means over the edges of a view, where they have weights.
pub fn distances_of_views()
    ensures { DistancesOfViews }
{}

/// What `wcc` means over the edges of a view.
pub fn components_of_views()
    ensures { ComponentsOfViews }
{}
