//! A vertex program as a dataflow, driven through views, against its plain run, its counted work, the kernel of
//! rounds and the engine over versions.
//!
//! It stands on `vertex_flow`, on the drivers of `flow_rows`, on the plain run and the slow counter of works, and on
//! `view_versions`, and nothing stands on it. Its tests drive the dataflows of small graphs through views: one behind
//! the other, at the positions of a segment, at pairs of a version and a position, and from starts that are given. The
//! steps are proved to be allowed; that each view gets the values of its plain run, that as many nodes are evaluated as
//! are counted, that the kernel of rounds changes and counts the same, and that an engine over versions has the same
//! values where edges come and go, is tested.
#![tactic(auto)]

#[cfg(test)]
mod tests;
