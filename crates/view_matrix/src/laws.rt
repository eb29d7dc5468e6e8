//! What follows from the definitions. These functions have no code: the contract of each is one law.

ghost use Rattle.view_matrix.specs.Laws.{EdgesOfViews, DistanceOverLists};

/// The edges that stand in a view of a matrix whose edges are all live are those of the view in the graph.
pub fn edges_of_views()
    ensures { EdgesOfViews }
{}

/// The distance of two views is the number of edges that stand in exactly one of their lists of edges.
pub fn distance_over_lists()
    ensures { DistanceOverLists }
{}
