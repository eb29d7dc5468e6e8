//! The cases, and what they share.

mod cases;
mod courses;
mod drawn;
mod texts;
