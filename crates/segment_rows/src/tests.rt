//! The cases, and what they share.

mod cases;
mod segments;
