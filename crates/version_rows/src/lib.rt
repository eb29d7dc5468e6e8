//! Runs that follow edges that come and go, against plain runs and slow counts.
//!
//! It stands on the loader, on matrices of views and on the engine over versions, and nothing stands on it. Its tests run programs
//! along each direction and with each way of gathering on drawn views of small graphs, turn edges six times, and add views in the
//! middle. Each time the table of each view is compared with that of the plain run on it anew, and the calls of the updater with the
//! works that are counted by the definition, and with what the nodes that are touched by the definition allow. The calls are proved
//! to be allowed; that they are right is tested.
#![tactic(auto)]

#[cfg(test)]
mod tests;
