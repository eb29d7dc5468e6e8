//! What follows from the definitions. These functions have no code: the contract of each is one law.

ghost use Rattle.grown_graphs.specs.Laws.{ExtendedGrows, FitsWhenGrown, GrowthIsChecked, GrowthsJoin, SameAnswers, SameArcs, SamePhases, SameRows, SameTables, SameTruths, SameValues, SameViews, SameWorks};

/// A graph that a further file of edges extends grows to the one that is made of it.
pub fn extended_grows()
    ensures { ExtendedGrows }
{}

/// A graph with more edges that can stand behind its own is one again.
pub fn fits_when_grown()
    ensures { FitsWhenGrown }
{}

/// A graph that grows to one that grows to a third grows to the third, and each grows to itself.
pub fn growths_join()
    ensures { GrowthsJoin }
{}

/// A rule has the same truth at an edge that was there.
pub fn same_truths()
    ensures { SameTruths }
{}

/// Where no added edge is picked, the edges that are picked and for which a rule holds are the same.
pub fn same_views()
    ensures { SameViews }
{}

/// Edges that were there have the same arcs.
pub fn same_arcs()
    ensures { SameArcs }
{}

/// A program that is checked against the graph is checked against the one with more edges, and the other way round.
pub fn growth_is_checked()
    ensures { GrowthIsChecked }
{}

/// A program on arcs of edges that were there has the same values after each round, whatever the updater answers.
pub fn same_values()
    ensures { SameValues }
{}

/// The plain run of a program on edges that were there has the same answer, whatever the updater answers.
pub fn same_answers()
    ensures { SameAnswers }
{}

/// The run of a program in phases on edges that were there has the same answer, whatever the updater answers.
pub fn same_phases()
    ensures { SamePhases }
{}

/// The work of a view whose edges were there is the same, behind another such view and behind none.
pub fn same_works()
    ensures { SameWorks }
{}

/// Edges that were there, counted by the groups of their ends, have the same rows.
pub fn same_rows()
    ensures { SameRows }
{}

/// A table is the same text, in each form.
pub fn same_tables()
    ensures { SameTables }
{}
