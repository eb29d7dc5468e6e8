//! Dataflows driven through views.

mod cases;
mod drawn;
mod feeds;
mod flows;
mod followed;
mod kernel;
mod plain;
mod programs;
mod starts;
mod views;
mod works;
