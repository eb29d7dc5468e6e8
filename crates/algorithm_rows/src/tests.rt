//! Small graphs and values, worked out by hand.

mod below;
mod gathers;
mod runs;
mod views;
