//! What follows from the definitions. These functions have no code: the contract of each is one law.

ghost use Rattle.result_tables.specs.Laws.{AddedIsHeld, AllGives, ChangesGive, IdsRise, OthersStay};

/// The nodes whose values differ from those of a view before, each with its new value, are a change that gives the new
/// values.
pub fn changes_give()
    ensures { ChangesGive }
{}

/// All nodes with their values, in order, are a first change that gives these values.
pub fn all_gives()
    ensures { AllGives }
{}

/// An added answer is the one that is held on its view.
pub fn added_is_held()
    ensures { AddedIsHeld }
{}

/// What is held on other views stays.
pub fn others_stay()
    ensures { OthersStay }
{}

/// The ids of the nodes in the order of a table rise strictly.
pub fn ids_rise()
    ensures { IdsRise }
{}
