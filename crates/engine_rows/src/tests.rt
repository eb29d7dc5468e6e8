//! Small graphs, worked out by hand.

mod views;
