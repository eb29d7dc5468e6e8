//! Walks over arcs.
//!
//! A walk is a list of arcs, each beginning where the one before ends. This room says what a walk is for arcs of any type
//! with two ends (`specs/Walks`), and proves what follows: walks one after the other, a walk with an arc more at its end,
//! the walk back where each arc has one, and that each walk can be shortened to one that has fewer arcs than there are
//! nodes and weighs no more than it, nor than all arcs together. It stands on nothing, and below the rooms that say what a
//! program over a graph means. Its functions have no code: the contract of each is one law (`specs/Laws`), whose proof in
//! `specs/` serves the rooms above.
#![tactic(auto)]

pub mod laws;
