//! The laws of printed tables.

ghost use Rattle.table_meanings.specs.Laws.{HopsOfTables, DistancesOfTables, ComponentsOfTables};

/// A run of `hops` that isn't in phases prints for a view, where it is settled, for each node the least number of arcs of a walk
/// from the source over the edges that are there by then and satisfy the predicates of the view, and none where there is no such
/// walk.
pub fn hops_of_tables()
    ensures { HopsOfTables }
{}

/// A run of `dist` that isn't in phases prints for a view, where it is settled, for each node the least weight of a walk from the
/// source over the edges that are there by then and satisfy the predicates of the view, where these have weights, and none where
/// there is no such walk.
pub fn distances_of_tables()
    ensures { DistancesOfTables }
{}

/// A run of `wcc` that isn't in phases prints for a view, where it is settled, for each node the least id in its component over the
/// edges that are there by then and satisfy the predicates of the view.
pub fn components_of_tables()
    ensures { ComponentsOfTables }
{}
