//! Small graphs whose edges come and go.

mod counting;
mod course;
mod drawn;
mod programs;
mod slow;
mod views;
