//! What follows of plans. These functions have no code: the contract of each is one law, whose proof in `specs/` serves the
//! rooms above.

ghost use Rattle.gvdl_check.specs.Laws.{PlansFit, PlansHoldNoLowest, PlansContinue, PlansNameLines, PlansWithoutShows};

/// Whatever the check answers as the plan of a script fits the graph, and has one step for each statement behind the load.
pub fn plans_fit()
    ensures { PlansFit }
{}

/// No program of the plan that the check answers for a script holds the number -(2^63), which no text can write.
pub fn plans_hold_no_lowest()
    ensures { PlansHoldNoLowest }
{}

/// The plan of a script that is continued by further statements goes on from the plan of the shorter script: its steps, runs
/// and collections stand first, and a call means one program throughout.
pub fn plans_continue()
    ensures { PlansContinue }
{}

/// The collections of the plan that the check answers for a script, their views and the programs that its runs call have names that
/// hold no line end, and the numbers of its calls are from -(2^63 - 1) to 2^63 - 1.
pub fn plans_name_lines()
    ensures { PlansNameLines }
{}

/// Where a script has a plan, it has one without its shows and aggregates, which is the same without the steps that show
/// something.
pub fn plans_without_shows()
    ensures { PlansWithoutShows }
{}
