//! What follows from the definitions. These functions have no code: the contract of each is one law.

ghost use Rattle.view_versions.specs.Laws.{EditsAreTakenBack, StandsWithMore, WorksAreTouched};

/// Changes each of which turns an edge, taken back in the matrix that they make, give the matrix again.
pub fn edits_are_taken_back()
    ensures { EditsAreTakenBack }
{}

/// The works of views behind their own versions before are at most the touched nodes times the views times the rounds.
pub fn works_are_touched()
    ensures { WorksAreTouched }
{}

/// An engine that stands for a matrix stands for it with more views behind its own.
pub fn stands_with_more()
    ensures { StandsWithMore }
{}
