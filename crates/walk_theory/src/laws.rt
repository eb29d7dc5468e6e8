//! The laws of walks, for arcs of any type.

ghost use Rattle.walk_theory.specs.Laws.{WalksJoin, WalksEnd, WalksTurn, WalksShorten};

/// First the one walk and then the other is a walk.
pub fn walks_join<T>()
    ensures { WalksJoin T }
{}

/// A walk of some arcs is a walk and one arc more.
pub fn walks_end<T>()
    ensures { WalksEnd T }
{}

/// Where each arc has a way back, so has each walk.
pub fn walks_turn<T>()
    ensures { WalksTurn T }
{}

/// Each walk can be shortened to one of fewer arcs than there are nodes, which weighs no more than it, nor than all arcs
/// together.
pub fn walks_shorten<T>()
    ensures { WalksShorten T }
{}
