//! Small views, worked out by hand.

mod chained;
mod ended;
mod plain;
mod shared;
mod steps;
mod views;
