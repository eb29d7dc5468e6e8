//! The cases, and what they share.

mod cases;
mod drawn;
mod feeds;
mod flows;
mod programs;
mod rows;
mod runs;
mod told;
mod worked;
