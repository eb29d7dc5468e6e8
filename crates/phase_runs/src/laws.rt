//! What follows from the definitions. This function has no code: its contract is one law.

ghost use Rattle.phase_runs.specs.Laws.{EqualViews};

/// Two views differ in no edge exactly where their lists of edges are one.
pub fn equal_views()
    ensures { EqualViews }
{}
